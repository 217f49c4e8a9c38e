// A macro store: entries in rising macro number, each number once, and zeros behind them. An entry is a header and its body.
// Whether a store is well formed, where a macro stands in it, and looking up.
#![tactic(auto)]

ghost use Rattle.std.specs.Prelude.{◌≡◌, ◌+◌, ◌<◌, ◌≤◌, length, get_or, drop};
ghost use Rattle.refusals.specs.Answers.{every, refusal_of};
ghost use Rattle.macros.specs.Store.{three_bytes, at_most, is_store_entry, well_formed, looked_up, find_refusal, placed, body_pointer, body_place_of, has_body, part_in, placed_by_headers, looked_by_headers};
ghost use Rattle.macros.specs.Fronts.{LengthIs, FrontIs, GapIs, SurveyIs, HandsPart, gap_behind, body_between};

use refusals::Refusal;

// "The header is three bytes"
pub const HEADER: usize = 3;

// The longest body.
pub const LONGEST: usize = 256;

// The volatile store and the saved one, as they are lent.
#[derive(Clone, Copy)]
pub struct Stores<'a> {
    pub volatile: &'a [u8],
    pub saved: &'a [u8],
}

// A body as part of a store: where it begins in it, and its length.
#[derive(Clone, Copy)]
pub struct Part {
    pub offset: usize,
    pub long: usize,
}

// Where look up finds a body.
#[derive(Clone, Copy)]
pub enum Place {
    InVolatile(Part),
    InSaved(Part),
}

// What stands at a place of a store: a number, and where its body begins and ends.
#[derive(Clone, Copy)]
struct EntryAt {
    number: usize,
    from: usize,
    to: usize,
}

// Where a macro stands in a store.
#[derive(Clone, Copy)]
pub struct Gap {
    // where its entry begins, or would begin
    pub at: usize,
    // where its entry ends; `at`, where it has none
    pub old: usize,
    // where all entries end
    pub end: usize,
}

// ---- reading a store

// No byte of the part is above `most`.
#[tactic(auto, using(refusals::proofs::Many::checkings))]
fn none_above(part: &[u8], most: u8) -> bool
    ensures { result ≡ every (at_most most) part.now }
{
    // as in `ranges::are_within`: `all` was tried, and misses a bar of speed
    let mut good = true;
    for b in part {
        good &= *b <= most;
    }
    good
}

// The byte at a place, as a number.
fn byte_at(store: &[u8], at: usize) -> usize
    requires { at < length store.now }
    ensures { (result ≡ get_or store.now at 0) × (result ≤ 255) }
{
    usize::from(store[at])
}

// The header at a place whose body has `long` bytes, if that is some and has room. "15 bits of number" come first.
#[tactic(auto, using(crate::proofs::Fronts::heads))]
fn with_body(store: &[u8], at: usize, long: usize) -> Option<EntryAt>
    requires { (at + 3 ≤ length store.now) × LengthIs three_bytes (drop at store.now) long }
    ensures { FrontIs three_bytes (has_body three_bytes) store.now at result }
{
    let from = at + HEADER;
    if long < 1 || store.len() - from < long {
        return None;
    }
    Some(EntryAt {
        number: byte_at(store, at) * 128 + byte_at(store, at + 1) / 2,
        from,
        to: from + long,
    })
}

// A header at a place, with room for its body: "9 bits of body length" come last. In a well-formed store the first of them is set for a body of
// 256 bytes alone: behind a branch, the place of the next header does not wait for it.
#[tactic(auto, using(crate::proofs::Fronts::headers))]
fn headed_at(store: &[u8], at: usize) -> Option<EntryAt>
    requires { at ≤ length store.now }
    ensures { FrontIs three_bytes (has_body three_bytes) store.now at result }
{
    if store.len() - at < HEADER {
        return None;
    }
    let middle = byte_at(store, at + 1);
    let last = byte_at(store, at + 2);
    if middle % 2 > 0 {
        return with_body(store, at, 256 + last);
    }
    with_body(store, at, last)
}

// The entry at a place, if it may stand there with `least` the least number that it may have.
#[tactic(auto, using(crate::proofs::Fronts::fronts))]
fn entry_at(store: &[u8], at: usize, least: usize) -> Option<EntryAt>
    requires { at ≤ length store.now }
    ensures { FrontIs three_bytes (is_store_entry three_bytes least) store.now at result }
{
    let entry = headed_at(store, at)?;
    if entry.to - entry.from > LONGEST || entry.number < least {
        return None;
    }
    none_above(&store[entry.from..entry.to], 127).then_some(entry)
}

// Where a macro stands among the entries passed, and one more: that of n, which ends at `to`.
#[tactic(auto, using(refusals::proofs::Rules::tests), unfolding(crate::specs::Fronts::gap_behind))]
fn gap_behind(gap: Gap, number: usize, n: usize, to: usize) -> Gap
    ensures { result ≡ gap_behind gap number n to }
{
    if n < number {
        Gap {
            at: to,
            old: to,
            end: to,
        }
    } else if n == number {
        Gap {
            old: to,
            end: to,
            ..gap
        }
    } else {
        Gap { end: to, ..gap }
    }
}

// Where a macro stands, in one pass over the entries.
#[tactic(auto, using(crate::proofs::Fronts::passings, crate::proofs::Fronts::surveyings))]
fn gap_for(store: &[u8], number: usize) -> Gap
    ensures { GapIs three_bytes store.now number result }
{
    let mut gap = Gap {
        at: 0,
        old: 0,
        end: 0,
    };
    let mut least = 0;
    while let Some(entry) = entry_at(store, gap.end, least) {
        gap = gap_behind(gap, number, entry.number, entry.to);
        least = entry.number + 1;
    }
    gap
}

// Where a macro stands in a store that is well formed, which is entries and then all zeros; none where it is malformed. A store of length 0 is
// well formed.
#[tactic(auto, using(crate::proofs::Fronts::surveys))]
pub fn inspect(store: &[u8], number: usize) -> Option<Gap>
    ensures { SurveyIs three_bytes store.now number result }
{
    let gap = gap_for(store, number);
    none_above(&store[gap.end..], 0).then_some(gap)
}

#[tactic(auto, using(crate::proofs::Fronts::saids))]
pub fn is_well_formed(store: &[u8]) -> bool
    ensures { result ≡ well_formed three_bytes store.now }
{
    inspect(store, 0).is_some()
}

// ---- looking up

// The body between where a macro's entry begins and where it ends, if it has one.
#[tactic(auto, using(refusals::proofs::Rules::tests), unfolding(crate::specs::Fronts::body_between, crate::specs::Store::three_bytes))]
fn body_between(gap: Gap) -> Option<Part>
    requires { gap.at < gap.old → gap.at + 3 ≤ gap.old }
    ensures { result ≡ body_between three_bytes gap }
{
    if gap.at < gap.old {
        let offset = gap.at + HEADER;
        Some(Part {
            offset,
            long: gap.old - offset,
        })
    } else {
        None
    }
}

// The bytes of a part.
fn part_of<'a>(store: &'a [u8], part: Part) -> &'a [u8]
    requires { part.offset + part.long ≤ length store.now }
    ensures { HandsPart store.entry part result }
{
    let to = part.offset + part.long;
    &store[part.offset..to]
}

impl<'a> Stores<'a> {
    // Where the body stands, in the volatile store if it is there, otherwise in the saved store: 12, 8 and 14, in that order.
    #[tactic(auto, using(crate::proofs::Lookups::locatings))]
    pub fn locate(self, number: i32) -> Result<Place, Refusal>
        ensures { body_place_of result ≡ placed three_bytes self.entry.volatile.now self.entry.saved.now number }
    {
        let n = signs::magnitude(number) as usize;
        let first = inspect(self.volatile, n).ok_or(Refusal::StoreMalformed)?;
        let second = inspect(self.saved, n).ok_or(Refusal::StoreMalformed)?;
        if !ranges::is_within(0, 32767, number) {
            return Err(Refusal::NotValid);
        }
        if let Some(part) = body_between(first) {
            return Ok(Place::InVolatile(part));
        }
        let part = body_between(second).ok_or(Refusal::NoSuchMacro)?;
        Ok(Place::InSaved(part))
    }

    // The body as part of whichever store holds it; an empty part where there is none.
    pub fn look_up(self, number: i32) -> &'a [u8]
        ensures result_value { result.now ≡ looked_up three_bytes self.entry.volatile.now self.entry.saved.now number }
        ensures ref_ptr_value { result.ref_ptr ≡ body_pointer (placed three_bytes self.entry.volatile.now self.entry.saved.now number) self.entry.volatile.ref_ptr self.entry.saved.ref_ptr }
    {
        match self.locate(number) {
            Ok(Place::InVolatile(part)) => part_of(self.volatile, part),
            Ok(Place::InSaved(part)) => part_of(self.saved, part),
            Err(_) => &self.saved[..0],
        }
    }

    // Whether look up finds a body: 12, 8 and 14, in that order.
    #[tactic(auto, using(crate::proofs::Lookups::findings))]
    pub fn found(self, number: i32) -> Result<(), Refusal>
        ensures { refusal_of result ≡ find_refusal three_bytes self.entry.volatile.now self.entry.saved.now number }
    {
        self.locate(number)?;
        Ok(())
    }

    // What look up gives where both stores are known to be well formed: no byte of a body is looked at.
    #[tactic(auto, using(crate::proofs::Headers::hops))]
    pub fn look_by_headers(self, number: i32) -> &'a [u8]
        ensures result_value { result.now ≡ looked_by_headers three_bytes self.entry.volatile.now self.entry.saved.now number }
        ensures ref_ptr_value { result.ref_ptr ≡ body_pointer (placed_by_headers three_bytes self.entry.volatile.now self.entry.saved.now number) self.entry.volatile.ref_ptr self.entry.saved.ref_ptr }
    {
        if !ranges::is_within(0, 32767, number) {
            return &self.saved[..0];
        }
        let n = signs::magnitude(number) as usize;
        let body = body_by_headers(self.volatile, n);
        if body.len() > 0 {
            return body;
        }
        body_by_headers(self.saved, n)
    }
}

// ---- looking up by the headers alone

// The body of a macro in one store, from header to header, or an empty part.
#[tactic(auto, using(crate::proofs::Headers::hoppings, crate::proofs::Fronts::passings))]
fn body_by_headers(store: &[u8], number: usize) -> &[u8]
    ensures { HandsPart store.entry (part_in three_bytes number store.now) result }
{
    let mut at = 0;
    while let Some(entry) = headed_at(store, at) {
        if entry.number >= number {
            if entry.number == number {
                return &store[entry.from..entry.to];
            }
            return &store[..0];
        }
        at = entry.to;
    }
    &store[..0]
}
