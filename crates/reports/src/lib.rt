// Reports to the host: an integer report is three bytes, a string report such a length and that many characters.
// A report's bytes are read as they stand: 27 is not allowed here, and there are no pairs.
#![tactic(auto)]

ghost use Rattle.std.specs.Prelude.{◌≡◌, ◌≤◌, ◌+◌, true, length};
ghost use Rattle.std.proofs.lemmas.List.Edits.{sets};
ghost use Rattle.refusals.specs.Answers.{answer_at};
ghost use Rattle.wire.specs.Sending.{write_at, Wrote};
ghost use Rattle.characters.specs.Characters.{are_characters};
ghost use Rattle.reports.specs.Reading.{byte_within, report_value, report_from, report_at, characters_end, string_at, after_string, entries_at};
ghost use Rattle.reports.specs.Writing.{spell_report_of, spell_report, write_report, spell_string, write_string};

use refusals::{Refusal, RefusedAt, Taken};

// "A string report is such a length, 0..256."
const MOST_CHARACTERS: usize = 256;

// How many entries the list now has at its front, and where reading goes on.
#[derive(Clone, Copy)]
pub struct TakenString {
    pub count: usize,
    pub next: usize,
}

// A byte from `least` to `most`.
#[tactic(auto, using(refusals::proofs::Rules::tests), unfolding(refusals::specs::Answers::answer_at, crate::specs::Reading::byte_within))]
fn byte_within(least: u8, most: u8, s: &[u8], at: usize) -> Result<Taken<u8>, RefusedAt>
    ensures { answer_at result ≡ byte_within least most s.now at }
{
    if at >= s.len() {
        return Err(Refusal::BytesEnd.at(s.len()));
    }
    let value = s[at];
    if value < least || value > most {
        return Err(Refusal::ByteNotAllowed.at(at));
    }
    Ok(Taken {
        value,
        place: at,
        next: at + 1,
    })
}

// The number of two high bytes, each less 32, and a low byte.
fn value_of(first: u8, second: u8, low: u8) -> i32
    requires { (32 ≤ first) × ((first ≤ 95) × ((32 ≤ second) × (second ≤ 95))) }
    ensures { result ≡ report_value first second low }
{
    let high = u16::from(first - 32) * 1024;
    let middle = u16::from(second - 32) * 16;
    signs::signed(high + middle + u16::from(low % 16), low < 48)
}

#[tactic(auto, using(crate::proofs::Stepping::at_least, crate::proofs::Stepping::at_most), unfolding(refusals::specs::Answers::answer_at, crate::specs::Reading::report_from))]
fn integer_from(s: &[u8], at: usize) -> Result<Taken<i32>, RefusedAt>
    ensures { answer_at result ≡ report_from s.now at }
{
    let first = byte_within(32, 95, s, at)?;
    let second = byte_within(32, 95, s, first.next)?;
    let low = byte_within(32, 63, s, second.next)?;
    Ok(Taken {
        value: value_of(first.value, second.value, low.value),
        place: low.place,
        next: low.next,
    })
}

// 8 at place 0 for a start past the end, then 1 and 3.
#[tactic(auto, using(refusals::proofs::Rules::tests), unfolding(refusals::specs::Answers::answer_at, crate::specs::Reading::report_at))]
pub fn read_integer(s: &[u8], at: usize) -> Result<Taken<i32>, RefusedAt>
    ensures { answer_at result ≡ report_at s.now at }
{
    if at > s.len() {
        return Err(Refusal::NotValid.at(0));
    }
    integer_from(s, at)
}

// `count` characters from `at` on.
#[tactic(auto, using(crate::proofs::Stepping::running))]
fn characters_end(s: &[u8], at: usize, count: usize) -> Result<usize, RefusedAt>
    ensures { answer_at result ≡ characters_end count s.now at }
{
    let mut pos = at;
    for _i in 0..count {
        pos = byte_within(32, 127, s, pos)?.next;
    }
    Ok(pos)
}

// The bytes of `s` from `at` on as the first `count` entries of the list.
#[tactic(auto, using(crate::proofs::Filling::filling))]
fn fill(s: &[u8], at: usize, count: usize, list: &mut [i32])
    requires { (at + count ≤ length s.now) × (count ≤ length list.old) }
    ensures { list.new ≡ sets list.old 0 (entries_at count s.now at) }
{
    for i in 0..count {
        list[i] = characters::entry_of(s[at + i]);
    }
}

// As for an integer report, then 5 for the length, 1 and 3 for the characters, then 7 at the start.
#[tactic(auto, using(crate::proofs::Stepping::strings))]
pub fn read_string(s: &[u8], at: usize, list: &mut [i32]) -> Result<TakenString, RefusedAt>
    ensures { (answer_at result ≡ string_at s.now at (length list.old)) × (list.new ≡ after_string (answer_at result) s.now at list.old) }
{
    let count = numbers::as_count(read_integer(s, at), MOST_CHARACTERS)?;
    let next = characters_end(s, count.next, count.value)?;
    if count.value > list.len() {
        return Err(Refusal::TooShort.at(at));
    }
    fill(s, count.next, count.value, list);
    Ok(TakenString {
        count: count.value,
        next,
    })
}

fn spell(mag: u32, negative: bool) -> [u8; 3]
    requires { mag ≤ 65535 }
    ensures { result ≡ spell_report_of mag negative }
{
    let first = 32 + (mag / 1024) as u8;
    let second = 32 + (mag / 16 % 64) as u8;
    let low = spelling::low_of(mag, negative);
    [first, second, low]
}

// 8 for a value outside -65535..65535, then 7.
pub fn write_integer(v: i32, out: &mut [u8], at: usize) -> Result<usize, Refusal>
    ensures { Wrote (spell_report v) (write_report v (length out.old) at) out.old at result out.new }
{
    let mag = signs::magnitude(v);
    if mag > 65535 {
        return Err(Refusal::NotValid);
    }
    let bytes = spell(mag, signs::is_negative(v));
    wire::write_bytes(&bytes, out, at)
}

// The length and the characters behind it, from `at` on: all of them, or 7 and none.
#[tactic(auto, using(crate::proofs::Writings::sendings))]
fn send_string(list: &[i32], out: &mut [u8], at: usize) -> Result<usize, Refusal>
    requires { (are_characters list.now ≡ true) × (length list.now ≤ 256) }
    ensures { Wrote (spell_string list.now) (write_at (spell_string list.now) (length out.old) at) out.old at result out.new }
{
    let next = wire::room_for(3 + list.len(), out.len(), at)?;
    let length = spell(list.len() as u32, false);
    wire::copy(&length, out, at);
    characters::copy(list, out, at + 3);
    Ok(next)
}

// 8 for more than 256 entries or one that is no character, then 7.
#[tactic(auto, using(crate::proofs::Writings::strings))]
pub fn write_string(list: &[i32], out: &mut [u8], at: usize) -> Result<usize, Refusal>
    ensures { Wrote (spell_string list.now) (write_string list.now (length out.old) at) out.old at result out.new }
{
    if list.len() > MOST_CHARACTERS {
        return Err(Refusal::NotValid);
    }
    if characters::are_characters(list) {
        return send_string(list, out, at);
    }
    Err(Refusal::NotValid)
}
