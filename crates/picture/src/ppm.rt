// A PPM: a heading, then three bytes for each pixel, the top row first.
use crate::drawing::{HEIGHT, WIDTH};
use std::io;
use std::io::Write;

// black, white, red, green, blue, cyan, magenta, yellow; a `const` would be copied for each pixel
static COLOURS: [[u8; 3]; 8] = [
    [0, 0, 0],
    [255, 255, 255],
    [255, 0, 0],
    [0, 255, 0],
    [0, 0, 255],
    [0, 255, 255],
    [255, 0, 255],
    [255, 255, 0],
];

fn write_row<W: Write>(writer: &mut W, row: &[u8]) -> io::Result<()> {
    let mut out = [[0; 3]; WIDTH];
    for (pixel, colour) in out.iter_mut().zip(row) {
        *pixel = COLOURS[usize::from(*colour % 8)];
    }
    writer.write_all(out.as_flattened())
}

// The heading has the two sizes.
const _: () = prove!(WIDTH == 480 && HEIGHT == 360);

// The heading is one write, as each row is: standard output is not buffered, and `write!` would cut it at its numbers.
pub fn write<W: Write>(writer: &mut W, surface: &[u8]) -> io::Result<()> {
    writer.write_all(b"P6\n480 360\n255\n")?;
    for row in surface.chunks(WIDTH) {
        write_row(writer, row)?;
    }
    Ok(())
}
