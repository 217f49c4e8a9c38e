// Signed numbers of the syntax: sign and magnitude, and the range of an integer. Nothing above this crate compares or negates them itself.
#![tactic(auto)]

ghost use Rattle.std.specs.Prelude.{◌≡◌, nat_abs};
ghost use Rattle.signs.specs.Signs.{signed_of, is_negative, most_magnitude, is_integer};

// The number of a magnitude and a sign. Any magnitude of 16 bits has room, so nothing is negated in 16 bits. The two go side by side in all that
// handles them: a magnitude has 16 bits where it was read and 32 where it is to be written, and no one struct has both.
pub fn signed(mag: u16, negative: bool) -> i32
    ensures { result ≡ signed_of mag negative }
{
    let m = i32::from(mag);
    if negative { -m } else { m }
}

// The magnitude of any number, the least one too.
pub fn magnitude(v: i32) -> u32
    ensures { result ≡ nat_abs v }
{
    v.unsigned_abs()
}

pub fn is_negative(v: i32) -> bool
    ensures { result ≡ is_negative v }
{
    v < 0
}

// The largest magnitude of a negative integer, and of another.
pub fn most_magnitude(negative: bool) -> u32
    ensures { result ≡ most_magnitude negative }
{
    if negative { 32768 } else { 32767 }
}

// "Range -32768..32767"
pub fn is_integer(v: i32) -> bool
    ensures { result ≡ is_integer v }
{
    magnitude(v) <= most_magnitude(is_negative(v))
}
