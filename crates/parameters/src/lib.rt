// The parameters of a command: read by kind, and what they hold. The entries of a string or an array are read into an array of their own: they come
// last, and go to the lent list once all of them are known to be good. Characters that are all taken as they stand go there at once. Where the list has
// no room for them entries are only passed over.
#![tactic(auto)]

ghost use Rattle.std.specs.Prelude.{◌≡◌, [], ◌∷◌, map, ◌≤◌, length, take, pos, Ok};
ghost use Rattle.std.proofs.lemmas.List.Edits.{sets};
ghost use Rattle.refusals.specs.Answers.{done, then, answer_at};
ghost use Rattle.table.specs.Table.{one_integer, two_integers, three_integers, one_point, two_points, a_real, two_characters, kind_meant};
ghost use Rattle.parameters.specs.Entries.{entry_at, entry_values, entries_end, list_behind, run_at, after_run, characters_ahead};
ghost use Rattle.parameters.specs.Shapes.{shape_of, list_shape, integer_then_list_shape, list_of, number, values_of, tail_of, last_point, tail_meant, point_meant};
ghost use Rattle.parameters.specs.Numbers.{Holds};
ghost use Rattle.parameters.specs.Looking.{two_entries_at, parsed_as, look_of, parameters_at, after_look};

use memory::{Point, Remembered};
use ranges::MOST_ENTRIES;
use refusals::{Refusal, RefusedAt, Taken};
use table::Kind;

// What one entry is.
#[derive(Clone, Copy)]
pub enum Entry {
    AnInteger,
    ACharacter,
}

// "Two integers, mantissa and exponent .. The pair is kept as it came."
#[derive(Clone, Copy)]
pub struct Real {
    pub mantissa: i32,
    pub exponent: i32,
}

// The fixed parameters of a command, by kind. The entries of a string or an array are in a lent list.
#[derive(Clone, Copy)]
pub enum Parameters {
    OneInteger(i32),
    TwoIntegers(i32, i32),
    ThreeIntegers(i32, i32, i32),
    OnePoint(Point),
    TwoPoints(Point, Point),
    AReal(Real),
    AString,
    AnArray,
    IntegerThenArray(i32),
    IntegerThenString(i32),
    TwoCharacters(i32, i32),
}

// The fixed parameters as numbers, a point as x and y, and 0 in what is left. Two points have the most, four. An array with its length beside it, since
// memory is fixed, and since all four are handed to C.
#[derive(Clone, Copy)]
pub struct Numbers {
    pub values: [i32; 4],
    pub len: usize,
}

// Where the entries of a string or an array start, how many they are, and where reading goes on.
#[derive(Clone, Copy)]
pub struct CountedRun {
    pub start: usize,
    pub count: usize,
    pub next: usize,
}

// Parameters that were read, the run of their entries, and what is then remembered. In this order: the answer is a `Result`, in which the parameters then
// share a word with the place of a refusal. In another order that word is put together byte by byte (docs/BENCHMARKS.md).
#[derive(Clone, Copy)]
pub struct TakenParameters {
    pub kept: Remembered,
    pub parameters: Parameters,
    pub run: CountedRun,
}

// Two integers or characters, and where reading goes on. It is public since the laws of whole commands speak of it.
#[derive(Clone, Copy)]
pub struct TwoEntries {
    pub one: i32,
    pub two: i32,
    pub next: usize,
}

// ---- entries

#[tactic(auto, unfolding(refusals::specs::Answers::answer_at, crate::specs::Entries::entry_at))]
fn read_character(kept: Remembered, s: &[u8], at: usize) -> Result<Taken<i32>, RefusedAt>
    ensures { answer_at result ≡ entry_at Entry.ACharacter kept s.now at }
{
    let byte = wire::take(kept, s, at)?;
    Ok(Taken {
        value: characters::entry_of(byte.value),
        place: byte.place,
        next: byte.next,
    })
}

// An integer, or a character as a number; put into the loops below, as `numbers::read_integer` is.
#[inline(always)]
#[tactic(auto, unfolding(crate::specs::Entries::entry_at))]
fn read_entry(kept: Remembered, entry: Entry, s: &[u8], at: usize) -> Result<Taken<i32>, RefusedAt>
    ensures { answer_at result ≡ entry_at entry kept s.now at }
{
    match entry {
        Entry::AnInteger => numbers::read_integer(kept, s, at),
        Entry::ACharacter => read_character(kept, s, at),
    }
}

// So many entries from `at` on: where they end, or the first that is refused. Apart from `read_entries`, which needs an array to store them in.
#[tactic(auto, using(crate::proofs::Entering::passings))]
fn pass_entries(
    kept: Remembered,
    entry: Entry,
    count: usize,
    s: &[u8],
    at: usize,
) -> Result<usize, RefusedAt>
    ensures { answer_at result ≡ entries_end entry kept count s.now at }
{
    let mut pos = at;
    for _ in 0..count {
        pos = read_entry(kept, entry, s, pos)?.next;
    }
    Ok(pos)
}

// The same, as many as the list holds, with their values into it.
#[tactic(auto, using(crate::proofs::Entering::readings))]
fn read_entries(
    kept: Remembered,
    entry: Entry,
    s: &[u8],
    at: usize,
    list: &mut [i32],
) -> Result<usize, RefusedAt>
    ensures { (answer_at result ≡ entries_end entry kept (length list.old) s.now at) × (list.new ≡ sets list.old 0 (entry_values entry kept (length list.old) s.now at)) }
{
    let mut pos = at;
    for value in list.iter_mut() {
        let taken = read_entry(kept, entry, s, pos)?;
        *value = taken.value;
        pos = taken.next;
    }
    Ok(pos)
}

// The entries into the front of the list.
#[tactic(auto, using(crate::proofs::Entering::front_handed))]
fn hand_over(entries: &[i32], list: &mut [i32])
    requires { length entries.now ≤ length list.old }
    ensures { list.new ≡ sets list.old 0 entries.now }
{
    let count = entries.len();
    list[..count].copy_from_slice(entries);
}

// So many entries from `at` on, which go to the list if they are whole.
#[tactic(auto, using(crate::proofs::Entering::handed_over))]
fn hand_entries(
    kept: Remembered,
    entry: Entry,
    count: usize,
    s: &[u8],
    at: usize,
    list: &mut [i32],
) -> Result<usize, RefusedAt>
    requires { (count ≤ 256) × (count ≤ length list.old) }
    ensures { (answer_at result ≡ entries_end entry kept count s.now at) × (list.new ≡ list_behind entry kept count s.now at list.old) }
{
    let mut most = [0; MOST_ENTRIES];
    let entries = &mut most[..count];
    let end = read_entries(kept, entry, s, at, entries)?;
    hand_over(entries, list);
    Ok(end)
}

// Bytes that are taken as they stand, as entries into the front of the list.
#[tactic(auto, using(crate::proofs::Entering::layings))]
fn lay_characters(w: &[u8], list: &mut [i32])
    requires { length w.now ≤ length list.old }
    ensures { list.new ≡ sets list.old 0 (map pos w.now) }
{
    for i in 0..w.len() {
        list[i] = characters::entry_of(w[i]);
    }
}

// Whether so many characters stand from `at` on, each of which is taken as it stands.
#[tactic(auto, using(crate::proofs::Entering::aheads))]
fn characters_ahead(kept: Remembered, count: usize, s: &[u8], at: usize) -> bool
    ensures { result ≡ characters_ahead kept count s.now at }
{
    let mode = kept.mode;
    at <= s.len() && count <= s.len() - at && wire::are_themselves(mode, &s[at..at + count])
}

// So many characters, straight from their bytes where each is taken as it stands.
#[tactic(auto, using(crate::proofs::Entering::strings, crate::proofs::Entering::characters_few))]
fn hand_characters(
    kept: Remembered,
    count: usize,
    s: &[u8],
    at: usize,
    list: &mut [i32],
) -> Result<usize, RefusedAt>
    requires { (count ≤ 256) × (count ≤ length list.old) }
    ensures { (answer_at result ≡ entries_end Entry.ACharacter kept count s.now at) × (list.new ≡ list_behind Entry.ACharacter kept count s.now at list.old) }
{
    if characters_ahead(kept, count, s, at) {
        let end = at + count;
        lay_characters(&s[at..end], list);
        return Ok(end);
    }
    hand_entries(kept, Entry::ACharacter, count, s, at, list)
}

// So many entries, which are only passed over where the list has no room for them.
#[tactic(auto, using(crate::proofs::Entering::handed_over, crate::proofs::Entering::kinds))]
fn entries_into(
    kept: Remembered,
    entry: Entry,
    count: usize,
    s: &[u8],
    at: usize,
    list: &mut [i32],
) -> Result<usize, RefusedAt>
    requires { count ≤ 256 }
    ensures { (answer_at result ≡ entries_end entry kept count s.now at) × (list.new ≡ list_behind entry kept count s.now at list.old) }
{
    if count > list.len() {
        return pass_entries(kept, entry, count, s, at);
    }
    match entry {
        Entry::AnInteger => hand_entries(kept, entry, count, s, at, list),
        Entry::ACharacter => hand_characters(kept, count, s, at, list),
    }
}

// A count and that many entries: a string or an array.
#[tactic(auto, using(crate::proofs::Entering::count_few), unfolding(refusals::specs::Answers::answer_at, crate::specs::Entries::run_at, crate::specs::Entries::after_run, crate::specs::Entries::list_behind, refusals::specs::Answers::value_or))]
fn read_run(
    kept: Remembered,
    entry: Entry,
    s: &[u8],
    at: usize,
    list: &mut [i32],
) -> Result<CountedRun, RefusedAt>
    ensures { (answer_at result ≡ run_at entry kept s.now at) × (list.new ≡ after_run entry kept s.now (run_at entry kept s.now at) list.old) }
{
    let count = numbers::read_count(kept, s, at)?;
    let next = entries_into(kept, entry, count.value, s, count.next, list)?;
    Ok(CountedRun {
        start: count.next,
        count: count.value,
        next,
    })
}

// ---- each kind

// What was read of a kind without a list. Each kind below has a function of its own, though some differ in the case that they make alone: with the case
// as a closure there would be as many, and a promise on each closure.
#[tactic(auto, unfolding(crate::specs::Looking::look_of))]
fn without_list(parameters: Parameters, next: usize, kept: Remembered) -> TakenParameters
    ensures { look_of (Ok result) ≡ done (parsed_as parameters (record { start = 0; count = 0; next = next }) kept) }
{
    TakenParameters {
        parameters,
        run: CountedRun {
            start: 0,
            count: 0,
            next,
        },
        kept,
    }
}

#[tactic(auto, unfolding(refusals::specs::Answers::answer_at, crate::specs::Looking::two_entries_at))]
fn two_entries(kept: Remembered, entry: Entry, s: &[u8], at: usize) -> Result<TwoEntries, RefusedAt>
    ensures { answer_at result ≡ two_entries_at entry kept s.now at }
{
    let a = read_entry(kept, entry, s, at)?;
    let b = read_entry(kept, entry, s, a.next)?;
    Ok(TwoEntries {
        one: a.value,
        two: b.value,
        next: b.next,
    })
}

#[tactic(auto, unfolding(refusals::specs::Answers::answer_at, crate::specs::Looking::look_of, crate::specs::Looking::parameters_at, crate::specs::Looking::fixed_at, crate::specs::Looking::part_at, crate::specs::Looking::tail_at, crate::specs::Entries::entry_at))]
fn look_one_integer(kept: Remembered, s: &[u8], at: usize) -> Result<TakenParameters, RefusedAt>
    ensures { look_of result ≡ parameters_at kept (shape_of one_integer) s.now at }
{
    let a = numbers::read_integer(kept, s, at)?;
    Ok(without_list(Parameters::OneInteger(a.value), a.next, kept))
}

#[tactic(auto, unfolding(refusals::specs::Answers::answer_at, crate::specs::Looking::look_of, crate::specs::Looking::parameters_at, crate::specs::Looking::fixed_at, crate::specs::Looking::part_at, crate::specs::Looking::tail_at, crate::specs::Looking::two_entries_at))]
fn look_two_integers(kept: Remembered, s: &[u8], at: usize) -> Result<TakenParameters, RefusedAt>
    ensures { look_of result ≡ parameters_at kept (shape_of two_integers) s.now at }
{
    let read = two_entries(kept, Entry::AnInteger, s, at)?;
    Ok(without_list(Parameters::TwoIntegers(read.one, read.two), read.next, kept))
}

#[tactic(auto, unfolding(refusals::specs::Answers::answer_at, crate::specs::Looking::look_of, crate::specs::Looking::parameters_at, crate::specs::Looking::fixed_at, crate::specs::Looking::part_at, crate::specs::Looking::tail_at))]
fn look_real(kept: Remembered, s: &[u8], at: usize) -> Result<TakenParameters, RefusedAt>
    ensures { look_of result ≡ parameters_at kept (shape_of a_real) s.now at }
{
    let read = two_entries(kept, Entry::AnInteger, s, at)?;
    let real = Real {
        mantissa: read.one,
        exponent: read.two,
    };
    Ok(without_list(Parameters::AReal(real), read.next, kept))
}

#[tactic(auto, unfolding(refusals::specs::Answers::answer_at, crate::specs::Looking::look_of, crate::specs::Looking::parameters_at, crate::specs::Looking::fixed_at, crate::specs::Looking::part_at, crate::specs::Looking::tail_at, crate::specs::Looking::two_entries_at))]
fn look_two_characters(kept: Remembered, s: &[u8], at: usize) -> Result<TakenParameters, RefusedAt>
    ensures { look_of result ≡ parameters_at kept (shape_of two_characters) s.now at }
{
    let read = two_entries(kept, Entry::ACharacter, s, at)?;
    Ok(without_list(
        Parameters::TwoCharacters(read.one, read.two),
        read.next,
        kept,
    ))
}

#[tactic(auto, unfolding(refusals::specs::Answers::answer_at, crate::specs::Looking::look_of, crate::specs::Looking::parameters_at, crate::specs::Looking::fixed_at, crate::specs::Looking::part_at, crate::specs::Looking::tail_at, crate::specs::Looking::two_entries_at, crate::specs::Entries::entry_at))]
fn look_three_integers(kept: Remembered, s: &[u8], at: usize) -> Result<TakenParameters, RefusedAt>
    ensures { look_of result ≡ parameters_at kept (shape_of three_integers) s.now at }
{
    let read = two_entries(kept, Entry::AnInteger, s, at)?;
    let third = numbers::read_integer(kept, s, read.next)?;
    let parameters = Parameters::ThreeIntegers(read.one, read.two, third.value);
    Ok(without_list(parameters, third.next, kept))
}

#[tactic(auto, unfolding(refusals::specs::Answers::answer_at, crate::specs::Looking::look_of, crate::specs::Looking::parameters_at, crate::specs::Looking::fixed_at, crate::specs::Looking::part_at, crate::specs::Looking::tail_at))]
fn look_one_point(kept: Remembered, s: &[u8], at: usize) -> Result<TakenParameters, RefusedAt>
    ensures { look_of result ≡ parameters_at kept (shape_of one_point) s.now at }
{
    let read = points::read_point(kept, s, at)?;
    let behind = memory::with_point(kept, read.value);
    Ok(without_list(Parameters::OnePoint(read.value), read.next, behind))
}

// The second point follows from the first.
#[tactic(auto, unfolding(refusals::specs::Answers::answer_at, crate::specs::Looking::look_of, crate::specs::Looking::parameters_at, crate::specs::Looking::fixed_at, crate::specs::Looking::part_at, crate::specs::Looking::tail_at))]
fn look_two_points(kept: Remembered, s: &[u8], at: usize) -> Result<TakenParameters, RefusedAt>
    ensures { look_of result ≡ parameters_at kept (shape_of two_points) s.now at }
{
    let first = points::read_point(kept, s, at)?;
    let then = memory::with_point(kept, first.value);
    let second = points::read_point(then, s, first.next)?;
    let parameters = Parameters::TwoPoints(first.value, second.value);
    let behind = memory::with_point(then, second.value);
    Ok(without_list(parameters, second.next, behind))
}

fn only_list(entry: Entry) -> Parameters
    ensures { (values_of result ≡ []) × (tail_of result ≡ list_of entry) }
{
    match entry {
        Entry::AnInteger => Parameters::AnArray,
        Entry::ACharacter => Parameters::AString,
    }
}

fn integer_then_list(a: i32, entry: Entry) -> Parameters
    ensures { (values_of result ≡ number Entry.AnInteger a ∷ []) × (tail_of result ≡ list_of entry) }
{
    match entry {
        Entry::AnInteger => Parameters::IntegerThenArray(a),
        Entry::ACharacter => Parameters::IntegerThenString(a),
    }
}

// The string or the array behind the fixed parameters, with them. The run is not handed out by a call of its own: its first word and the refusal would
// come in one word, and be put together byte by byte (docs/BENCHMARKS.md).
#[tactic(auto, unfolding(refusals::specs::Answers::answer_at, crate::specs::Looking::look_of, crate::specs::Entries::after_run))]
fn with_run(
    kept: Remembered,
    entry: Entry,
    parameters: Parameters,
    s: &[u8],
    at: usize,
    list: &mut [i32],
) -> Result<TakenParameters, RefusedAt>
    ensures { (look_of result ≡ then (run_at entry kept s.now at) (λ h. done (parsed_as parameters h kept))) × (list.new ≡ after_run entry kept s.now (run_at entry kept s.now at) list.old) }
{
    let run = read_run(kept, entry, s, at, list)?;
    Ok(TakenParameters {
        parameters,
        run,
        kept,
    })
}

// The parameters that are a string or an array alone.
#[tactic(auto, unfolding(refusals::specs::Answers::answer_at, crate::specs::Looking::look_of, crate::specs::Looking::parameters_at, crate::specs::Looking::fixed_at, crate::specs::Looking::part_at, crate::specs::Looking::tail_at, crate::specs::Looking::after_look, crate::specs::Entries::after_run))]
fn look_list(
    kept: Remembered,
    entry: Entry,
    s: &[u8],
    at: usize,
    list: &mut [i32],
) -> Result<TakenParameters, RefusedAt>
    ensures { (look_of result ≡ parameters_at kept (list_shape entry) s.now at) × (list.new ≡ after_look s.now (parameters_at kept (list_shape entry) s.now at) list.old) }
{
    with_run(kept, entry, only_list(entry), s, at, list)
}

// An integer, then a string or an array.
#[tactic(auto, unfolding(refusals::specs::Answers::answer_at, crate::specs::Looking::look_of, crate::specs::Looking::parameters_at, crate::specs::Looking::fixed_at, crate::specs::Looking::part_at, crate::specs::Looking::tail_at, crate::specs::Looking::after_look, crate::specs::Entries::after_run, crate::specs::Entries::entry_at))]
fn look_integer_then_list(
    kept: Remembered,
    entry: Entry,
    s: &[u8],
    at: usize,
    list: &mut [i32],
) -> Result<TakenParameters, RefusedAt>
    ensures { (look_of result ≡ parameters_at kept (integer_then_list_shape entry) s.now at) × (list.new ≡ after_look s.now (parameters_at kept (integer_then_list_shape entry) s.now at) list.old) }
{
    let a = numbers::read_integer(kept, s, at)?;
    let parameters = integer_then_list(a.value, entry);
    with_run(kept, entry, parameters, s, a.next, list)
}

// The parameters of a command of this kind, from `at` on. The entries of a string or an array go to the list if all is good and
// it has room for all of them. It is put into its callers: what it gives is then not stored to be fetched again (docs/BENCHMARKS.md).
#[inline(always)]
#[tactic(auto, using(crate::proofs::Looks::of_kinds))]
pub fn look_at(
    kept: Remembered,
    kind: Kind,
    s: &[u8],
    at: usize,
    list: &mut [i32],
) -> Result<TakenParameters, RefusedAt>
    ensures { (look_of result ≡ parameters_at kept (shape_of (kind_meant kind)) s.now at) × (list.new ≡ after_look s.now (parameters_at kept (shape_of (kind_meant kind)) s.now at) list.old) }
{
    match kind {
        Kind::OneInteger => look_one_integer(kept, s, at),
        Kind::TwoIntegers => look_two_integers(kept, s, at),
        Kind::ThreeIntegers => look_three_integers(kept, s, at),
        Kind::OnePoint => look_one_point(kept, s, at),
        Kind::TwoPoints => look_two_points(kept, s, at),
        Kind::AReal => look_real(kept, s, at),
        Kind::AString => look_list(kept, Entry::ACharacter, s, at, list),
        Kind::AnArray => look_list(kept, Entry::AnInteger, s, at, list),
        Kind::IntegerThenArray => look_integer_then_list(kept, Entry::AnInteger, s, at, list),
        Kind::IntegerThenString => look_integer_then_list(kept, Entry::ACharacter, s, at, list),
        Kind::TwoCharacters => look_two_characters(kept, s, at),
    }
}

// ---- what the parameters hold

// What the entries are that go with the parameters in a lent list, if any do.
pub fn tail_of(parameters: Parameters) -> Option<Entry>
    ensures { tail_meant result ≡ tail_of parameters }
{
    match parameters {
        Parameters::AString | Parameters::IntegerThenString(_) => Some(Entry::ACharacter),
        Parameters::AnArray | Parameters::IntegerThenArray(_) => Some(Entry::AnInteger),
        _ => None,
    }
}

// The point that the parameters end with, if they have any.
pub fn last_point(parameters: Parameters) -> Option<Point>
    ensures { point_meant result ≡ last_point (values_of parameters) }
{
    match parameters {
        Parameters::OnePoint(p) | Parameters::TwoPoints(_, p) => Some(p),
        _ => None,
    }
}

// Numbers, and 0 in what is left of the four.
fn one_number(a: i32) -> Numbers
    ensures { result ≡ record { values = a ∷ pos 0 ∷ pos 0 ∷ pos 0 ∷ []; len = 1 } }
{
    Numbers {
        values: [a, 0, 0, 0],
        len: 1,
    }
}

fn two_numbers(a: i32, b: i32) -> Numbers
    ensures { result ≡ record { values = a ∷ b ∷ pos 0 ∷ pos 0 ∷ []; len = 2 } }
{
    Numbers {
        values: [a, b, 0, 0],
        len: 2,
    }
}

// The fixed parameters as numbers.
#[tactic(auto, unfolding(crate::specs::Numbers::four_of))]
pub fn numbers_of(parameters: Parameters) -> Numbers
    ensures { Holds (values_of parameters) result }
{
    // an arm for each: the check gives no proof of an arm that binds the integer of several
    match parameters {
        Parameters::OneInteger(a) => one_number(a),
        Parameters::TwoIntegers(a, b) => two_numbers(a, b),
        Parameters::ThreeIntegers(a, b, c) => Numbers {
            values: [a, b, c, 0],
            len: 3,
        },
        Parameters::OnePoint(p) => two_numbers(i32::from(p.x), i32::from(p.y)),
        Parameters::TwoPoints(p, q) => Numbers {
            values: [
                i32::from(p.x),
                i32::from(p.y),
                i32::from(q.x),
                i32::from(q.y),
            ],
            len: 4,
        },
        Parameters::AReal(r) => two_numbers(r.mantissa, r.exponent),
        Parameters::AString | Parameters::AnArray => Numbers {
            values: [0, 0, 0, 0],
            len: 0,
        },
        Parameters::IntegerThenArray(a) => one_number(a),
        Parameters::IntegerThenString(a) => one_number(a),
        Parameters::TwoCharacters(a, b) => two_numbers(a, b),
    }
}
