// What may be written: letters and parameters that belong together, values within their ranges, a list of at most 256.
#![tactic(auto)]

ghost use Rattle.std.specs.Prelude.{◌≡◌, ◌&&◌};
ghost use Rattle.table.specs.Table.{kind_meant};
ghost use Rattle.parameters.specs.Shapes.{list_of, values_of, tail_of};
ghost use Rattle.writable.specs.Writable.{kind_for, kind_number, is_kind, is_entry, are_entries, are_values, is_tail, fits, is_command};

use commands::Command;
use memory::Remembered;
use parameters::{Entry, Parameters};
use ranges::MOST_ENTRIES;
use table::Kind;

// The calls for other languages number the kinds so. By name and not by `From`: `u8::from(kind)` would not say which number.
pub fn kind_number(kind: Kind) -> u8
    ensures { result ≡ kind_number (kind_meant kind) }
{
    match kind {
        Kind::OneInteger => 1,
        Kind::TwoIntegers => 2,
        Kind::ThreeIntegers => 3,
        Kind::OnePoint => 4,
        Kind::TwoPoints => 5,
        Kind::AReal => 6,
        Kind::AString => 7,
        Kind::AnArray => 8,
        Kind::IntegerThenArray => 9,
        Kind::IntegerThenString => 10,
        Kind::TwoCharacters => 11,
    }
}

// No `From`: both types are of other crates.
pub fn kind_of_parameters(parameters: Parameters) -> Kind
    ensures { kind_meant result ≡ kind_for parameters }
{
    match parameters {
        Parameters::OneInteger(_) => Kind::OneInteger,
        Parameters::TwoIntegers(_, _) => Kind::TwoIntegers,
        Parameters::ThreeIntegers(_, _, _) => Kind::ThreeIntegers,
        Parameters::OnePoint(_) => Kind::OnePoint,
        Parameters::TwoPoints(_, _) => Kind::TwoPoints,
        Parameters::AReal(_) => Kind::AReal,
        Parameters::AString => Kind::AString,
        Parameters::AnArray => Kind::AnArray,
        Parameters::IntegerThenArray(_) => Kind::IntegerThenArray,
        Parameters::IntegerThenString(_) => Kind::IntegerThenString,
        Parameters::TwoCharacters(_, _) => Kind::TwoCharacters,
    }
}

// Whether a command with these letters has parameters of this kind.
#[tactic(auto, unfolding(crate::specs::Writable::is_kind, table::specs::Table::found_of))]
fn letters_fit(first: u8, second: u8, parameters: Parameters) -> bool
    ensures { result ≡ is_kind first second parameters }
{
    table::kind_of(first, second) == Some(kind_of_parameters(parameters))
}

fn is_entry(entry: Entry, v: i32) -> bool
    ensures { result ≡ is_entry entry v }
{
    match entry {
        Entry::AnInteger => signs::is_integer(v),
        Entry::ACharacter => characters::is_character(v),
    }
}

#[tactic(auto, using(refusals::proofs::Many::checkings, crate::proofs::Fitting::entry_next))]
fn are_entries(entry: Entry, list: &[i32]) -> bool
    ensures { result ≡ are_entries entry list.now }
{
    // as in `ranges::are_within`: `all` was tried, and misses a bar of speed
    let mut good = true;
    for v in list {
        good &= is_entry(entry, *v);
    }
    good
}

fn two_entries_fit(entry: Entry, a: i32, b: i32) -> bool
    ensures { result ≡ is_entry entry a && is_entry entry b }
{
    is_entry(entry, a) & is_entry(entry, b)
}

// The kinds with one integer have an arm each: the check gives no proof of an arm that binds the integer of several.
#[tactic(auto, using(crate::proofs::Fitting::values), unfolding(refusals::specs::Answers::every))]
fn values_fit(parameters: Parameters) -> bool
    ensures { result ≡ are_values (values_of parameters) }
{
    match parameters {
        Parameters::OneInteger(a) => is_entry(Entry::AnInteger, a),
        Parameters::TwoIntegers(a, b) => two_entries_fit(Entry::AnInteger, a, b),
        Parameters::ThreeIntegers(a, b, d) => {
            is_entry(Entry::AnInteger, a) & two_entries_fit(Entry::AnInteger, b, d)
        }
        Parameters::OnePoint(p) => memory::is_inside(p),
        Parameters::TwoPoints(p, q) => memory::is_inside(p) & memory::is_inside(q),
        Parameters::AReal(r) => two_entries_fit(Entry::AnInteger, r.mantissa, r.exponent),
        Parameters::TwoCharacters(a, b) => two_entries_fit(Entry::ACharacter, a, b),
        Parameters::AString | Parameters::AnArray => true,
        Parameters::IntegerThenString(a) => is_entry(Entry::AnInteger, a),
        Parameters::IntegerThenArray(a) => is_entry(Entry::AnInteger, a),
    }
}

#[tactic(auto, using(refusals::proofs::Rules::tests), unfolding(crate::specs::Writable::is_tail))]
fn list_fits(entry: Entry, list: &[i32]) -> bool
    ensures { result ≡ is_tail (list_of entry) list.now }
{
    if list.len() > MOST_ENTRIES {
        return false;
    }
    are_entries(entry, list)
}

#[tactic(auto, unfolding(crate::specs::Writable::is_tail))]
fn tail_fits(parameters: Parameters, list: &[i32]) -> bool
    ensures { result ≡ is_tail (tail_of parameters) list.now }
{
    match parameters::tail_of(parameters) {
        Some(entry) => list_fits(entry, list),
        None => true,
    }
}

// What is asked of the remembered point, the values and the list.
#[tactic(auto, unfolding(crate::specs::Writable::fits))]
pub fn parameters_fit(kept: Remembered, parameters: Parameters, list: &[i32]) -> bool
    ensures { result ≡ fits kept parameters list.now }
{
    memory::is_inside(kept.point) & (values_fit(parameters) & tail_fits(parameters, list))
}

#[tactic(auto, unfolding(crate::specs::Writable::is_command))]
pub fn is_writable(kept: Remembered, command: Command, list: &[i32]) -> bool
    ensures { result ≡ is_command kept command list.now }
{
    let parameters = command.parameters;
    let letters = letters_fit(command.first, command.second, parameters);
    letters & parameters_fit(kept, parameters, list)
}
