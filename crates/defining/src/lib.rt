// Setting, replacing and deleting a macro, within the store: what stands behind its entry is moved, and nothing is copied out.
#![tactic(auto)]

ghost use Rattle.std.specs.Prelude.{◌≡◌, true, map, ◌+◌, ◌≤◌, length, nat_abs};
ghost use Rattle.std.proofs.lemmas.List.Edits.{sets};
ghost use Rattle.refusals.specs.Answers.{demand, every, refusal_of};
ghost use Rattle.ranges.specs.Ranges.{within};
ghost use Rattle.macros.specs.Store.{three_bytes, encoded, entry_size};
ghost use Rattle.macros.specs.Fronts.{GapIs};
ghost use Rattle.defining.specs.Defining.{one, may_define, define_refusal, store_after, fits_in, put_in};

use macros::{Gap, HEADER, LONGEST};
use refusals::Refusal;

// ---- writing an entry

fn write_header(store: &mut [u8], at: usize, number: usize, long: usize)
    requires { (at + 3 ≤ length store.old) × (number ≤ 32767) × (long ≤ 256) }
    ensures { store.new ≡ sets store.old at (three_bytes.pack number long) }
{
    let packed = (number * 512 + long) as u32;
    store[at..at + HEADER].copy_from_slice(&packed.to_be_bytes()[1..]);
}

// How many bytes the entry of a body takes; a macro with no body has none.
#[tactic(auto, using(crate::proofs::Placing::rooms))]
fn entry_size(count: usize) -> usize
    requires { count ≤ 256 }
    ensures { result ≡ entry_size three_bytes count }
{
    if count == 0 { 0 } else { HEADER + count }
}

#[tactic(auto, using(crate::proofs::Placing::writings))]
fn write_entry(store: &mut [u8], at: usize, number: usize, contents: &[i32])
    requires contents_in_bounds { (at + entry_size three_bytes (length contents.now) ≤ length store.old) × (number ≤ 32767) }
    requires contents_len_bound { (length contents.now ≤ 256) × (every (within 0 127) contents.now ≡ true) }
    ensures { store.new ≡ sets store.old at (encoded three_bytes (one number (map nat_abs contents.now))) }
{
    let count = contents.len();
    if count != 0 {
        write_header(store, at, number, count);
        characters::copy(contents, store, at + HEADER);
    }
}

// ---- defining

// The new entries in the place of the old ones, if they fit: what stands behind the macro is moved, its entry is written,
// and what is then left is cleared.
#[tactic(auto, using(crate::proofs::Placing::placings))]
fn rewrite(store: &mut [u8], gap: Gap, number: usize, contents: &[i32]) -> Result<(), Refusal>
    requires gap_is { GapIs three_bytes store.old number gap }
    requires number_bound { (number ≤ 32767) × (length contents.now ≤ 256) × (every (within 0 127) contents.now ≡ true) }
    ensures { (refusal_of result ≡ demand (fits_in three_bytes store.old number (map nat_abs contents.now)) 13 0) × (store.new ≡ put_in three_bytes store.old number (map nat_abs contents.now)) }
{
    let tail = gap.end - gap.old;
    let kept = gap.at + tail;
    let size = entry_size(contents.len());
    if store.len() - kept < size {
        return Err(Refusal::StoreTooShort);
    }
    let new = gap.at + size;
    store.copy_within(gap.old..gap.end, new);
    write_entry(store, gap.at, number, contents);
    store[new + tail..].fill(0);
    Ok(())
}

// "Numbers 0..32767 (house rule), contents 0..127, at most 256 of them, else 8."
#[tactic(auto, using(crate::proofs::Placing::allowances))]
fn may_define(number: i32, contents: &[i32]) -> bool
    ensures { result ≡ may_define three_bytes number contents.now }
{
    contents.len() <= LONGEST
        && ranges::is_within(0, 32767, number)
        && ranges::are_within(0, 127, contents)
}

// A macro is set, replaced or, by an empty array, deleted: 12, 8 and 13, in that order.
#[tactic(auto, using(crate::proofs::Placing::definings))]
pub fn define(store: &mut [u8], number: i32, contents: &[i32]) -> Result<(), Refusal>
    ensures { (refusal_of result ≡ define_refusal three_bytes store.old number contents.now) × (store.new ≡ store_after three_bytes store.old number contents.now) }
{
    let n = signs::magnitude(number) as usize;
    let gap = macros::inspect(store, n).ok_or(Refusal::StoreMalformed)?;
    if !may_define(number, contents) {
        return Err(Refusal::NotValid);
    }
    rewrite(store, gap, n, contents)
}
