// The table of the 21 commands: their letters, and the kind of parameters of each.
#![tactic(auto)]

ghost use Rattle.std.specs.Prelude.{◌≡◌};
ghost use Rattle.table.specs.Table.{begins, kind_of, kind_meant, found_of};
ghost use Rattle.table.specs.Keys.{key_of, RowAt};

#[derive(Clone, Copy, PartialEq, Eq)]
pub enum Kind {
    OneInteger,
    TwoIntegers,
    ThreeIntegers,
    OnePoint,
    TwoPoints,
    AReal,
    AString,
    AnArray,
    IntegerThenArray,
    IntegerThenString,
    TwoCharacters,
}

// Whether a command begins with this letter.
#[tactic(auto, using(refusals::proofs::Rules::tests), unfolding(crate::specs::Table::begins))]
pub fn begins_command(first: u8) -> bool
    ensures { result ≡ begins first }
{
    // one arm for each letter: joined in one pattern, as in `matches!`, they make three jumps to guess in place of one look at a set of bits; that was
    // tried, and to look letters up takes a sixth longer
    match first {
        b'I' => true,
        b'K' => true,
        b'L' => true,
        b'M' => true,
        b'N' => true,
        b'R' => true,
        _ => false,
    }
}

// A row of the table.
#[derive(Clone, Copy)]
struct Row {
    first: u8,
    second: u8,
    kind: Kind,
}

// The row of a command. The two letters go side by side, here and in all that handles them, and not as a struct: they come as two bytes, each is asked
// for by itself, and the definitions have them as two numbers: a struct would be taken apart in every function and every promise.
fn command(first: u8, second: u8, kind: Kind) -> Row
    ensures { result ≡ record { first = first; second = second; kind = kind } }
{
    Row {
        first,
        second,
        kind,
    }
}

// Each command has a key of its own, so that one look finds its row. With a `match` by one letter and then by the other the processor has to
// guess two jumps.
#[tactic(auto, unfolding(crate::specs::Keys::key_of))]
fn key_of(first: u8, second: u8) -> usize
    ensures { result ≡ key_of first second }
{
    (31 * usize::from(first) + 2 * usize::from(second)) % 64
}

// The row of the only command that may have this key. Where none has it any row will do: its letters are not those looked for.
#[tactic(auto, using(refusals::proofs::Rules::tests, crate::proofs::Rows::row_known), unfolding(crate::specs::Table::kind_of, crate::specs::Keys::key_of, crate::specs::Keys::only_with, refusals::specs::Answers::every))]
fn row_at(key: usize) -> Row
    ensures { RowAt key result.first result.second (kind_meant result.kind) }
{
    match key {
        0 => command(b'L', b'F', Kind::OnePoint),
        2 => command(b'L', b'G', Kind::OnePoint),
        5 => command(b'K', b'X', Kind::OneInteger),
        6 => command(b'R', b'L', Kind::AnArray),
        10 => command(b'N', b'L', Kind::OneInteger),
        12 => command(b'L', b'L', Kind::OneInteger),
        14 => command(b'R', b'P', Kind::IntegerThenString),
        20 => command(b'R', b'S', Kind::TwoPoints),
        22 => command(b'N', b'R', Kind::TwoIntegers),
        23 => command(b'K', b'A', Kind::OneInteger),
        24 => command(b'R', b'U', Kind::ThreeIntegers),
        28 => command(b'L', b'T', Kind::AString),
        29 => command(b'K', b'D', Kind::IntegerThenArray),
        32 => command(b'L', b'V', Kind::OneInteger),
        37 => command(b'K', b'H', Kind::OneInteger),
        39 => command(b'K', b'I', Kind::OneInteger),
        51 => command(b'K', b'O', Kind::IntegerThenArray),
        54 => command(b'R', b'D', Kind::AnArray),
        55 => command(b'M', b'R', Kind::AReal),
        57 => command(b'I', b'Q', Kind::TwoCharacters),
        62 => command(b'R', b'H', Kind::OnePoint),
        _ => command(b'K', b'A', Kind::OneInteger),
    }
}

// The kind of parameters of the command with these letters; none where no command has them.
#[tactic(auto, using(crate::proofs::Rows::rows), unfolding(crate::specs::Table::found_of))]
pub fn kind_of(first: u8, second: u8) -> Option<Kind>
    ensures { found_of result ≡ kind_of first second }
{
    let row = row_at(key_of(first, second));
    if row.first == first && row.second == second {
        Some(row.kind)
    } else {
        None
    }
}
