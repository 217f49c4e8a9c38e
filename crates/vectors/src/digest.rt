// The digest of docs/VECTORS.md: many numbers in one.

pub const START: u32 = 1;

// "Taking in a number n makes the digest h into (h * 65599 + n) mod 4294967291."
fn number(h: u32, n: u32) -> u32 {
    ((u64::from(h) * 65599 + u64::from(n)) % 4294967291) as u32
}

// "1 if it is negative and 0 if not, then its magnitude"
pub fn signed(h: u32, v: i32) -> u32 {
    let sign = u32::from(signs::is_negative(v));
    number(number(h, sign), signs::magnitude(v))
}

// "Bytes are taken in one by one, from the front."
pub fn bytes(h: u32, s: &[u8]) -> u32 {
    s.iter().fold(h, |h, b| number(h, u32::from(*b)))
}
