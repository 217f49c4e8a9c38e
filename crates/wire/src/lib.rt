// A parameter's bytes on the wire: the one place that knows how they are taken and how they are sent, but for the quick way of an integer.
#![tactic(auto)]

ghost use Rattle.std.specs.Prelude.{◌≡◌, ◌+◌, [], ◌∷◌, length};
ghost use Rattle.std.proofs.lemmas.List.Edits.{sets};
ghost use Rattle.refusals.specs.Answers.{answer_at, answer_of, past_front, every};
ghost use Rattle.wire.specs.Taking.{is_del, past_dels, pair_at, found_at, byte_at, most_itself, is_itself};
ghost use Rattle.wire.specs.Sending.{sent, is_plain, room_for, in_room, write_at, Pours, Wrote};

use memory::{DelMode, Remembered};
use refusals::{Refusal, RefusedAt, Taken};

// The first place from `at` on that holds no DEL, or the end.
#[tactic(auto, using(crate::proofs::Dels::passing))]
fn behind_dels(s: &[u8], at: usize) -> usize
    ensures { result ≡ past_front is_del s.now at }
{
    for i in at..s.len() {
        if s[i] != 127 {
            return i;
        }
    }
    at.max(s.len())
}

// Where the next byte stands from `at` on: after KI 1 each plain 127 is passed over.
#[tactic(auto, using(crate::proofs::Dels::dels_data, crate::proofs::Dels::dels_filler))]
pub fn past_dels(mode: DelMode, s: &[u8], at: usize) -> usize
    ensures { result ≡ past_dels mode s.now at }
{
    match mode {
        DelMode::Data => at,
        DelMode::Filler => behind_dels(s, at),
    }
}

// What the ESC at `esc` and the byte at `place` behind it are.
#[tactic(auto, using(refusals::proofs::Rules::tests), unfolding(refusals::specs::Answers::answer_at, crate::specs::Taking::pair_at))]
fn pair(s: &[u8], esc: usize, place: usize) -> Result<Taken<u8>, RefusedAt>
    ensures { answer_at result ≡ pair_at s.now esc place }
{
    if place >= s.len() {
        return Err(Refusal::BytesEnd.at(s.len()));
    }
    if s[place] != 63 {
        return Err(Refusal::NewEscape.at(esc));
    }
    Ok(Taken {
        value: 127,
        place,
        next: place + 1,
    })
}

// The byte that stands at `at`.
#[tactic(auto, using(refusals::proofs::Rules::tests), unfolding(refusals::specs::Answers::answer_at, crate::specs::Taking::found_at))]
fn found(mode: DelMode, s: &[u8], at: usize) -> Result<Taken<u8>, RefusedAt>
    ensures { answer_at result ≡ found_at mode s.now at }
{
    if at >= s.len() {
        return Err(Refusal::BytesEnd.at(s.len()));
    }
    match s[at] {
        27 => pair(s, at, past_dels(mode, s, at + 1)),
        b @ 32..=127 => Ok(Taken {
            value: b,
            place: at,
            next: at + 1,
        }),
        _ => Err(Refusal::ByteNotAllowed.at(at)),
    }
}

// The next byte of a parameter. What is remembered, the bytes and the place go side by side through all reading, and not as one struct: that was tried,
// and reading is slower (docs/BENCHMARKS.md).
#[tactic(auto, using(crate::proofs::Dels::found_behind))]
pub fn take(kept: Remembered, s: &[u8], at: usize) -> Result<Taken<u8>, RefusedAt>
    ensures { answer_at result ≡ byte_at kept s.now at }
{
    let mode = kept.mode;
    found(mode, s, past_dels(mode, s, at))
}

// The highest byte that is taken as it stands: a DEL only where it is data.
#[tactic(auto, unfolding(crate::specs::Taking::most_itself))]
fn most_itself(mode: DelMode) -> u8
    ensures { result ≡ most_itself mode }
{
    match mode {
        DelMode::Data => 127,
        DelMode::Filler => 126,
    }
}

#[tactic(auto, using(refusals::proofs::Rules::tests), unfolding(crate::specs::Taking::is_itself))]
fn is_itself(mode: DelMode, b: u8) -> bool
    ensures { result ≡ is_itself mode b }
{
    (b >= 32) & (b <= most_itself(mode))
}

// Whether each of these bytes is taken as it stands. They may then be copied, with nothing asked between one and the next.
#[tactic(auto, using(refusals::proofs::Many::checkings))]
pub fn are_themselves(mode: DelMode, w: &[u8]) -> bool
    ensures { result ≡ every (is_itself mode) w.now }
{
    // with no way out of the middle several bytes are tested at once
    let mut good = true;
    for b in w {
        good &= is_itself(mode, *b);
    }
    good
}

// Where so many bytes end from `at` on, or 7 where they have too little room.
#[tactic(auto, using(crate::proofs::Writings::rooms))]
pub fn room_for(size: usize, room: usize, at: usize) -> Result<usize, Refusal>
    ensures { answer_of result ≡ room_for size room at }
{
    if at > room || size > room - at {
        return Err(Refusal::TooShort);
    }
    Ok(at + size)
}

// How many of so many bytes from `at` on have room.
pub fn in_room(size: usize, room: usize, at: usize) -> usize
    ensures { result ≡ in_room size room at }
{
    size.min(room.saturating_sub(at))
}

// The bytes `w` into `out` from `at` on, as far as there is room. Byte by byte: for `copy_from_slice` the archive would need `memmove` of the program that
// it is linked to (include/ardhrumesh.h).
#[tactic(auto, using(crate::proofs::Writings::copyings))]
pub fn copy(w: &[u8], out: &mut [u8], at: usize)
    ensures { out.new ≡ sets out.old at w.now }
{
    let count = in_room(w.len(), out.len(), at);
    for i in 0..count {
        out[at + i] = w[i];
    }
}

// The bytes `w` into `out` from `at` on: all of them, or 7 and none.
#[tactic(auto, using(crate::proofs::Writings::writings))]
pub fn write_bytes(w: &[u8], out: &mut [u8], at: usize) -> Result<usize, Refusal>
    ensures { Wrote w.now (write_at w.now (length out.old) at) out.old at result out.new }
{
    let next = room_for(w.len(), out.len(), at)?;
    copy(w, out, at);
    Ok(next)
}

// One byte as it stands, behind the `n` bytes from `at` on, where there is room. It goes by value: bytes that are stored only to be read
// again are slow to fetch.
#[tactic(auto, using(crate::proofs::Sendings::storings))]
pub fn store_behind(n: usize, b: u8, out: &mut [u8], at: usize)
    ensures { out.new ≡ sets out.old (at + n) (b ∷ []) }
{
    let room = out.len();
    if at >= room {
        return;
    }
    if n >= room - at {
        return;
    }
    let to = at + n;
    out[to] = b;
}

// The pair 27 63, likewise.
#[tactic(auto, using(crate::proofs::Sendings::pairs))]
fn store_pair(n: usize, out: &mut [u8], at: usize)
    ensures { out.new ≡ sets out.old (at + n) (27 ∷ 63 ∷ []) }
{
    if n >= out.len() {
        return;
    }
    let next = n + 1;
    store_behind(n, 27, out, at);
    store_behind(next, 63, out, at);
}

// A 127 as it is sent: itself, or the pair.
#[tactic(auto, using(crate::proofs::Sendings::dels))]
fn pour_del(kept: Remembered, n: usize, out: &mut [u8], at: usize) -> usize
    ensures { Pours (sent kept (127 ∷ [])) out.old (at + n) result out.new }
{
    let mode = kept.mode;
    match mode {
        DelMode::Data => {
            store_behind(n, 127, out, at);
            1
        }
        DelMode::Filler => {
            store_pair(n, out, at);
            2
        }
    }
}

// One byte of a parameter, as it is sent, behind the `n` bytes from `at` on, as far as there is room.
#[tactic(auto, using(crate::proofs::Sendings::ones))]
pub fn pour_behind(kept: Remembered, n: usize, b: u8, out: &mut [u8], at: usize) -> usize
    ensures { Pours (sent kept (b ∷ [])) out.old (at + n) result out.new }
{
    if b == 127 {
        return pour_del(kept, n, out, at);
    }
    store_behind(n, b, out, at);
    1
}

// One, two and three bytes of a parameter, as they are sent, from `at` on as far as there is room. Answers how many they are, so that lending no room finds
// the length. Three functions, and not one of an array of N bytes, which would be stored only to be read again.
#[tactic(auto, using(crate::proofs::Sendings::one_first))]
pub fn pour_one(kept: Remembered, a: u8, out: &mut [u8], at: usize) -> usize
    ensures { Pours (sent kept (a ∷ [])) out.old at result out.new }
{
    pour_behind(kept, 0, a, out, at)
}

#[tactic(auto, using(crate::proofs::Writings::more))]
pub fn pour_two(kept: Remembered, a: u8, b: u8, out: &mut [u8], at: usize) -> usize
    ensures { Pours (sent kept (a ∷ b ∷ [])) out.old at result out.new }
{
    let n = pour_one(kept, a, out, at);
    let m = pour_behind(kept, n, b, out, at);
    n + m
}

#[tactic(auto, using(crate::proofs::Writings::more))]
pub fn pour_three(kept: Remembered, a: u8, b: u8, d: u8, out: &mut [u8], at: usize) -> usize
    ensures { Pours (sent kept (a ∷ b ∷ d ∷ [])) out.old at result out.new }
{
    let n = pour_two(kept, a, b, out, at);
    let m = pour_behind(kept, n, d, out, at);
    n + m
}

// Whether each byte is sent as itself. Bytes may then be laid as they are.
#[tactic(auto, unfolding(crate::specs::Sending::is_plain, crate::specs::Sending::plain_in))]
pub fn is_plain(kept: Remembered) -> bool
    ensures { result ≡ is_plain kept }
{
    kept.mode == DelMode::Data
}
