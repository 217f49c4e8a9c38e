// The part that a look up hands back, and what its companion says: no exported call hands back a part (docs/VECTORS.md).
#![tactic(auto)]

use macros::Stores;
use std::io;
use std::io::Write;

// Macro 5 as the sheet has it, macro 300 of one byte, and room.
const VOLATILE: [u8; 12] = [0, 10, 2, 72, 105, 2, 88, 1, 65, 0, 0, 0];

// Another macro 5, macro 7 behind it, and macro 32767 up to the end.
const SAVED: [u8; 14] = [0, 10, 1, 66, 0, 14, 3, 1, 2, 3, 255, 254, 1, 127];

// An entry that its store ends in.
const MALFORMED: [u8; 4] = [0, 10, 2, 72];

// A blank before each; `vectors` has one between. In a library these lines would owe a promise of what `write!` appends for a number, which std's
// does not give.
fn bytes<W: Write>(writer: &mut W, s: &[u8]) -> io::Result<()> {
    for b in s {
        write!(writer, " {b}")?;
    }
    Ok(())
}

// What is found is 0, or the refusal's number. Standard output is not buffered, so each piece is one write, and a minus is a piece before the
// digits; `{number}` would write both in one.
fn line<W: Write>(writer: &mut W, stores: Stores<'_>, number: i32) -> io::Result<()> {
    write!(writer, "macro ")?;
    if number < 0 {
        write!(writer, "-")?;
    }
    write!(writer, "{} of", number.unsigned_abs())?;
    bytes(writer, stores.volatile)?;
    write!(writer, " and of")?;
    bytes(writer, stores.saved)?;
    let found = match stores.found(number) {
        Ok(()) => 0,
        Err(refusal) => refusal.number(),
    };
    write!(writer, " gives {found}:")?;
    bytes(writer, stores.look_up(number))?;
    writeln!(writer)
}

fn stores<'a>(volatile: &'a [u8], saved: &'a [u8]) -> Stores<'a> {
    Stores { volatile, saved }
}

fn lines<W: Write>(writer: &mut W, stores: Stores<'_>, numbers: &[i32]) -> io::Result<()> {
    for number in numbers {
        line(writer, stores, *number)?;
    }
    Ok(())
}

// In one store, in the other, in both, and in none.
fn found_and_absent<W: Write>(writer: &mut W) -> io::Result<()> {
    lines(writer, stores(&VOLATILE, &SAVED), &[5, 300, 7, 32767])?;
    lines(writer, stores(&SAVED, &VOLATILE), &[5])?;
    lines(writer, stores(&SAVED, &SAVED), &[7])?;
    lines(writer, stores(&VOLATILE, &SAVED), &[6])?;
    lines(writer, stores(&VOLATILE, b""), &[7])?;
    lines(writer, stores(b"", b""), &[0])
}

fn refused<W: Write>(writer: &mut W) -> io::Result<()> {
    lines(writer, stores(&VOLATILE, &SAVED), &[-1, 32768, 65541])?;
    lines(writer, stores(&MALFORMED, &SAVED), &[7])?;
    lines(writer, stores(&VOLATILE, &MALFORMED), &[300])?;
    lines(writer, stores(&MALFORMED, &MALFORMED), &[-1])
}

fn main(rt: HostRuntime) -> io::Result<()> {
    let mut writer = rt.stdout();
    found_and_absent(&mut writer)?;
    refused(&mut writer)
}
