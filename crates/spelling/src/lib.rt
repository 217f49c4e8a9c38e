// Integers and counts of the host syntax, written in their shortest spelling.
#![tactic(auto)]

ghost use Rattle.std.specs.Prelude.{◌≡◌, ◌≤◌, length, leb, pos};
ghost use Rattle.signs.specs.Signs.{is_integer};
ghost use Rattle.ranges.specs.Ranges.{most_entries};
ghost use Rattle.wire.specs.Sending.{sent, poured, Pours, Wrote};
ghost use Rattle.numbers.specs.Integers.{low_of, spell_of, spell, write_integer};
ghost use Rattle.numbers.specs.Counts.{write_count};

use memory::Remembered;
use ranges::MOST_ENTRIES;
use refusals::Refusal;

// The low byte of a magnitude and a sign.
pub fn low_of(mag: u32, negative: bool) -> u8
    ensures { result ≡ low_of mag negative }
{
    if negative {
        return 32 + (mag % 16) as u8;
    }
    48 + (mag % 16) as u8
}

// The bytes of an integer, as far as there is room. Each byte goes to its place by itself: how many there are is asked once.
fn pour_magnitude(kept: Remembered, mag: u32, negative: bool, out: &mut [u8], at: usize) -> usize
    requires { mag ≤ 32768 }
    ensures { Pours (sent kept (spell_of mag negative)) out.old at result out.new }
{
    let low = low_of(mag, negative);
    let highs = mag / 16;
    if highs == 0 {
        return wire::pour_one(kept, low, out, at);
    }
    let last = 64 + (highs % 64) as u8;
    if highs < 64 {
        return wire::pour_two(kept, last, low, out, at);
    }
    let first = 64 + (highs / 64) as u8;
    wire::pour_three(kept, first, last, low, out, at)
}

// The same where each byte is sent as itself: no byte is asked whether it is a 127. One function of both, which asks, was slower (docs/BENCHMARKS.md).
#[tactic(auto, using(crate::proofs::Pouring::layings))]
fn lay_magnitude(mag: u32, negative: bool, out: &mut [u8], at: usize) -> usize
    requires { mag ≤ 32768 }
    ensures { Pours (spell_of mag negative) out.old at result out.new }
{
    let low = low_of(mag, negative);
    if mag < 16 {
        wire::store_behind(0, low, out, at);
        return 1;
    }
    let highs = mag / 16;
    let last = 64 + (highs % 64) as u8;
    if highs < 64 {
        wire::store_behind(0, last, out, at);
        wire::store_behind(1, low, out, at);
        return 2;
    }
    let first = 64 + (highs / 64) as u8;
    wire::store_behind(0, first, out, at);
    wire::store_behind(1, last, out, at);
    wire::store_behind(2, low, out, at);
    3
}

// The bytes of an integer as far as there is room, and how many they are; of a value outside its range none.
#[tactic(auto, using(crate::proofs::Writing::poured_integers))]
pub fn pour_integer(kept: Remembered, v: i32, out: &mut [u8], at: usize) -> usize
    ensures { Pours (poured (is_integer v) (sent kept (spell v))) out.old at result out.new }
{
    let negative = signs::is_negative(v);
    let mag = signs::magnitude(v);
    if mag > signs::most_magnitude(negative) {
        return 0;
    }
    if wire::is_plain(kept) {
        return lay_magnitude(mag, negative, out, at);
    }
    pour_magnitude(kept, mag, negative, out, at)
}

// The same for a count.
#[tactic(auto, using(refusals::proofs::Rules::tests, crate::proofs::Writing::poured_numbers))]
pub fn pour_count(kept: Remembered, n: usize, out: &mut [u8], at: usize) -> usize
    ensures { Pours (poured (leb n most_entries) (sent kept (spell (pos n)))) out.old at result out.new }
{
    if n > MOST_ENTRIES {
        return 0;
    }
    let mag = n as u32;
    if wire::is_plain(kept) {
        return lay_magnitude(mag, false, out, at);
    }
    pour_magnitude(kept, mag, false, out, at)
}

// 8 for a value outside -32768..32767, then 7.
#[tactic(auto, using(crate::proofs::Writing::written_integers))]
pub fn write_integer(kept: Remembered, v: i32, out: &mut [u8], at: usize) -> Result<usize, Refusal>
    ensures { Wrote (sent kept (spell v)) (write_integer kept v (length out.old) at) out.old at result out.new }
{
    if !signs::is_integer(v) {
        return Err(Refusal::NotValid);
    }
    // poured into no room, which finds the length: nothing lent is touched before it is known to fit
    let mut none = [0u8; 0];
    let size = pour_integer(kept, v, &mut none, 0);
    let next = wire::room_for(size, out.len(), at)?;
    pour_integer(kept, v, out, at);
    Ok(next)
}

// 8 for a count above 256, then 7.
#[tactic(auto, using(crate::proofs::Writing::written_counts))]
pub fn write_count(kept: Remembered, n: usize, out: &mut [u8], at: usize) -> Result<usize, Refusal>
    ensures { Wrote (sent kept (spell (pos n))) (write_count kept n (length out.old) at) out.old at result out.new }
{
    if MOST_ENTRIES < n {
        return Err(Refusal::NotValid);
    }
    write_integer(kept, n as i32, out, at)
}
