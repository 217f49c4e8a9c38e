// Numbers and bytes as they are printed. Standard output is not buffered, so each piece is one write: the text between two `{}` is a piece, and
// each `{}` is one. How the bytes are cut is kept, since on a pipe that is nearly full and does not wait it says which of them come through.
use std::io;
use std::io::Write;

// A minus is a piece before the digits; `{v}` would write both in one.
pub fn signed<W: Write>(writer: &mut W, v: i32) -> io::Result<()> {
    if v < 0 {
        write!(writer, "-")?;
    }
    write!(writer, "{}", v.unsigned_abs())
}

// In decimal, "with a blank between". `parts` has a blank before each: in a library these lines would owe a promise of what `write!` appends for
// a number, which std's does not give.
pub fn bytes<W: Write>(writer: &mut W, s: &[u8]) -> io::Result<()> {
    let [first, behind @ ..] = s else {
        return Ok(());
    };
    write!(writer, "{first}")?;
    for b in behind {
        write!(writer, " {b}")?;
    }
    Ok(())
}
