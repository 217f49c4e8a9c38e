// Integers and counts of the host syntax, read from any place of any bytes.
#![tactic(auto)]

ghost use Rattle.std.specs.Prelude.{◌≡◌, true, ◌<◌, ◌≤◌, ◌*◌};
ghost use Rattle.refusals.specs.Answers.{answer_at};
ghost use Rattle.numbers.specs.Integers.{low_byte, integer_from, integer_at};
ghost use Rattle.numbers.specs.Three.{highs_before, high_value, ends_ahead};
ghost use Rattle.numbers.specs.Counts.{count_in, count_at};

use memory::Remembered;
use ranges::MOST_ENTRIES;
use refusals::{Refusal, RefusedAt, Taken};

// The refusal of an integer outside its range, in a call of its own: where it is made in place, the next start is one of two words, and is not known
// before the whole number is.
#[cold]
#[inline(never)]
fn outside(place: usize) -> RefusedAt
    ensures { result ≡ record { refusal = Refusal.IntegerOutside; place = place } }
{
    Refusal::IntegerOutside.at(place)
}

// The low byte `low` after high bytes of value `high`.
#[tactic(auto, using(crate::proofs::Reading::low_in))]
fn low_byte(high: u16, low: u8, place: usize, next: usize) -> Result<Taken<i32>, RefusedAt>
    requires { high < 4096 }
    ensures { answer_at result ≡ low_byte high low place next }
{
    let mag = high * 16 + (low % 16) as u16;
    let negative = low < 48;
    if mag as u32 > signs::most_magnitude(negative) {
        return Err(outside(place));
    }
    Ok(Taken {
        value: signs::signed(mag, negative),
        place,
        next,
    })
}

// The low byte, where two high bytes of value `high` stand before it.
#[tactic(auto, using(crate::proofs::Reading::low_step, crate::proofs::Reading::third_step, crate::proofs::Reading::no_step))]
fn after_two(kept: Remembered, s: &[u8], at: usize, high: u16) -> Result<Taken<i32>, RefusedAt>
    requires { high < 4096 }
    ensures { answer_at result ≡ integer_from kept 0 high s.now at }
{
    let byte = wire::take(kept, s, at)?;
    if byte.value < 64 {
        return low_byte(high, byte.value, byte.place, byte.next);
    }
    Err(Refusal::IntegerOutside.at(byte.place))
}

// The rest of an integer, where one high byte of value `high` stands before it.
#[tactic(auto, using(crate::proofs::Reading::low_step, crate::proofs::Reading::second_step, crate::proofs::Reading::no_step))]
fn after_one(kept: Remembered, s: &[u8], at: usize, high: u16) -> Result<Taken<i32>, RefusedAt>
    requires { high < 64 }
    ensures { answer_at result ≡ integer_from kept 1 high s.now at }
{
    let byte = wire::take(kept, s, at)?;
    if byte.value < 64 {
        return low_byte(high, byte.value, byte.place, byte.next);
    }
    let higher = high * 64 + u16::from(byte.value % 64);
    after_two(kept, s, byte.next, higher)
}

// An integer byte by byte, in a call of its own: the quick way below is put into its callers, and this is not.
#[inline(never)]
#[tactic(auto, using(crate::proofs::Reading::low_step, crate::proofs::Reading::first_step, crate::proofs::Reading::no_step))]
fn by_bytes(kept: Remembered, s: &[u8], at: usize) -> Result<Taken<i32>, RefusedAt>
    ensures { answer_at result ≡ integer_at kept s.now at }
{
    let byte = wire::take(kept, s, at)?;
    if byte.value < 64 {
        return low_byte(0, byte.value, byte.place, byte.next);
    }
    let high = u16::from(byte.value % 64);
    after_one(kept, s, byte.next, high)
}

// How many high bytes stand before the low byte, by the two bytes that come first. It is a sum: which number it will be is not to be
// foreseen, and a processor that guesses wrong loses more time than all the rest takes.
#[tactic(auto, using(crate::proofs::Ahead::highs_sum))]
fn highs_before(a: u8, b: u8) -> usize
    requires { (a < 128) × (b < 128) }
    ensures { result ≡ highs_before a b }
{
    let one = a / 64;
    let two = (one + b / 64) / 2;
    usize::from(one + two)
}

// The number, or 0 where the flag is 0; a product, for the same reason.
fn only_if(flag: u16, v: u16) -> u16
    requires { flag ≤ 1 }
    ensures { (result ≡ flag * v) × (result ≤ v) }
{
    flag * v
}

// What those high bytes are worth.
fn high_value(a: u8, b: u8) -> u16
    requires { (a < 128) × (b < 128) }
    ensures { result ≡ high_value a b }
{
    let one = u16::from(a / 64);
    let two = (one + u16::from(b / 64)) / 2;
    let high = only_if(one, u16::from(a % 64));
    high + only_if(two, 63 * high + u16::from(b % 64))
}

// Whether it is seen at once that an integer ends among the three bytes from `at` on and that each of its bytes is taken as it stands, in either
// mode. Behind its low byte may stand what will, but a byte from 127 on: the last integer of a command has an ESC there.
#[tactic(auto, using(crate::proofs::Ahead::endings))]
fn ends_ahead(s: &[u8], at: usize) -> bool
    ensures { result ≡ ends_ahead s.now at }
{
    let size = s.len();
    if at >= size || size - at < 3 {
        return false;
    }
    let a = s[at];
    let b = s[at + 1];
    if a >= 127 || b >= 127 {
        return false;
    }
    let place = at + highs_before(a, b);
    (32..64).contains(&s[place])
}

// Such an integer.
fn among_three(kept: Remembered, s: &[u8], at: usize) -> Result<Taken<i32>, RefusedAt>
    requires { ends_ahead s.now at ≡ true }
    ensures { answer_at result ≡ integer_at kept s.now at }
{
    let a = s[at];
    let b = s[at + 1];
    let place = at + highs_before(a, b);
    let low = s[place];
    let next = place + 1;
    low_byte(high_value(a, b), low, place, next)
}

// It is put into its callers: a list's integers are then read with no call for each (docs/BENCHMARKS.md).
#[inline(always)]
#[tactic(auto, using(crate::proofs::Ahead::ahead_told))]
pub fn read_integer(kept: Remembered, s: &[u8], at: usize) -> Result<Taken<i32>, RefusedAt>
    ensures { answer_at result ≡ integer_at kept s.now at }
{
    if ends_ahead(s, at) {
        return among_three(kept, s, at);
    }
    by_bytes(kept, s, at)
}

// An integer that was read, as a count of at most `most`.
#[tactic(auto, using(crate::proofs::Reading::counts))]
pub fn as_count(read: Result<Taken<i32>, RefusedAt>, most: usize) -> Result<Taken<usize>, RefusedAt>
    ensures { answer_at result ≡ count_in most (answer_at read) }
{
    let integer = read?;
    let v = integer.value;
    if signs::is_negative(v) {
        return Err(Refusal::CountOutside.at(integer.place));
    }
    let count = signs::magnitude(v) as usize;
    if count > most {
        return Err(Refusal::CountOutside.at(integer.place));
    }
    Ok(Taken {
        value: count,
        place: integer.place,
        next: integer.next,
    })
}

#[tactic(auto, using(crate::proofs::Reading::counted))]
pub fn read_count(kept: Remembered, s: &[u8], at: usize) -> Result<Taken<usize>, RefusedAt>
    ensures { answer_at result ≡ count_at kept s.now at }
{
    as_count(read_integer(kept, s, at), MOST_ENTRIES)
}
