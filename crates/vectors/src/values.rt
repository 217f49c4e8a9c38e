// The single values, a line each.
use crate::{front, print};
use memory::{DelMode, Point, Remembered};
use refusals::Refusal;
use std::io;
use std::io::Write;

// What was written into `out` from its front on, and the line's end.
fn written<W: Write>(writer: &mut W, answer: Result<usize, Refusal>, out: &[u8]) -> io::Result<()> {
    write!(writer, " = ")?;
    match answer {
        Ok(n) => print::bytes(writer, front(out, n))?,
        Err(refusal) => write!(writer, "refusal {}", refusal.number())?,
    }
    writeln!(writer)
}

fn integer<W: Write>(writer: &mut W, v: i32) -> io::Result<()> {
    write!(writer, "integer ")?;
    print::signed(writer, v)?;
    let mut out = [255; 8];
    let answer = spelling::write_integer(memory::fresh(), v, &mut out, 0);
    written(writer, answer, &out)
}

// Its call alone is another than in `integer`: passed in as a closure it would need a `requires`, and be no plainer.
fn report<W: Write>(writer: &mut W, v: i32) -> io::Result<()> {
    write!(writer, "report ")?;
    print::signed(writer, v)?;
    let mut out = [255; 8];
    let answer = reports::write_integer(v, &mut out, 0);
    written(writer, answer, &out)
}

fn point<W: Write>(writer: &mut W, to: Point, from: Point) -> io::Result<()> {
    write!(writer, "point {} {} from {} {}", to.x, to.y, from.x, from.y)?;
    let kept = Remembered {
        point: from,
        mode: DelMode::Data,
    };
    let mut out = [255; 8];
    let answer = points::write_point(kept, to, &mut out, 0);
    written(writer, answer, &out)
}

fn read<W: Write>(writer: &mut W, s: &[u8]) -> io::Result<()> {
    write!(writer, "read ")?;
    print::bytes(writer, s)?;
    write!(writer, " = ")?;
    match numbers::read_integer(memory::fresh(), s, 0) {
        Ok(integer) => print::signed(writer, integer.value)?,
        Err(e) => write!(writer, "refusal {} at {}", e.refusal.number(), e.place)?,
    }
    writeln!(writer)
}

fn integer_lines<W: Write>(writer: &mut W) -> io::Result<()> {
    for v in [0, -1, 15, -16, 1200, 32767, -32768] {
        integer(writer, v)?;
    }
    Ok(())
}

fn report_lines<W: Write>(writer: &mut W) -> io::Result<()> {
    for v in [300, 600, 1200, -65535] {
        report(writer, v)?;
    }
    Ok(())
}

fn point_lines<W: Write>(writer: &mut W) -> io::Result<()> {
    let origin = Point { x: 0, y: 0 };
    let corner = Point { x: 4095, y: 3071 };
    for (to, from) in [
        (Point { x: 128, y: 0 }, origin),
        (Point { x: 1, y: 0 }, origin),
        (corner, origin),
        (corner, corner),
        (Point { x: 0, y: 100 }, origin),
    ] {
        point(writer, to, from)?;
    }
    Ok(())
}

pub fn lines<W: Write>(writer: &mut W) -> io::Result<()> {
    integer_lines(writer)?;
    report_lines(writer)?;
    point_lines(writer)?;
    read(writer, &[96, 64, 48])
}
