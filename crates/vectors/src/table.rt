// The manual's Table D-1: "a row a line, value, tab, the bytes in decimal with a blank between".
use crate::{digest, front};
use std::io;
use std::io::{Read, Write};

// No integer has more bytes.
const MOST: usize = 8;

// What stands in a row so far.
#[derive(Drop)]
struct Row {
    negative: bool,
    // the decimal number that is being read
    number: u16,
    // the value's magnitude
    mag: u16,
    // the bytes so far, and how many: no list grows here, since nothing is taken from the heap
    bytes: [u8; MOST],
    len: usize,
}

impl Row {
    fn blank() -> Row {
        Row {
            negative: false,
            number: 0,
            mag: 0,
            bytes: [0; MOST],
            len: 0,
        }
    }

    fn add_digit(&mut self, digit: u8) {
        self.number = self.number.wrapping_mul(10).wrapping_add(u16::from(digit));
    }

    fn end_value(&mut self) {
        self.mag = self.number;
        self.number = 0;
    }

    fn end_byte(&mut self) {
        if self.len < MOST {
            self.bytes[self.len] = (self.number % 256) as u8;
            self.len += 1;
            self.number = 0;
        }
    }

    fn value(&self) -> i32 {
        signs::signed(self.mag, self.negative)
    }

    fn bytes(&self) -> &[u8] {
        front(&self.bytes, self.len)
    }

    // A byte of the row's line, the line's end left out.
    fn take(&mut self, b: u8) {
        match b {
            b'-' => self.negative = true,
            b'\t' => self.end_value(),
            b' ' => self.end_byte(),
            b'0'..=b'9' => self.add_digit(b % 16),
            _ => (),
        }
    }
}

// Whether the value is written just as the manual prints it.
fn is_written_so(v: i32, bytes: &[u8]) -> bool {
    let mut out = [255; MOST];
    let written = spelling::write_integer(memory::fresh(), v, &mut out, 0);
    matches!(written, Ok(n) if front(&out, n) == bytes)
}

// Whether the bytes read back as the value, "with nothing left over".
fn is_read_so(v: i32, bytes: &[u8]) -> bool {
    let read = numbers::read_integer(memory::fresh(), bytes, 0);
    matches!(read, Ok(found) if found.next == bytes.len() && found.value == v)
}

// What the rows so far come to.
#[derive(Drop)]
struct Tally {
    rows: u32,
    written: u32,
    read: u32,
    digest: u32,
}

impl Tally {
    fn none() -> Tally {
        Tally {
            rows: 0,
            written: 0,
            read: 0,
            digest: digest::START,
        }
    }

    // Standard input is read into 65,536 bytes, so no count comes near its end.
    fn add(&mut self, v: i32, bytes: &[u8]) {
        let written = is_written_so(v, bytes);
        let read = is_read_so(v, bytes);
        self.rows = self.rows.wrapping_add(1);
        self.written = self.written.wrapping_add(u32::from(written));
        self.read = self.read.wrapping_add(u32::from(read));
        self.digest = digest::bytes(digest::signed(self.digest, v), bytes);
    }
}

// The row that is being read, and the rows before it.
#[derive(Drop)]
struct Reading {
    row: Row,
    tally: Tally,
}

impl Reading {
    // A row counts once its line has ended.
    fn end_row(&mut self) {
        self.row.end_byte();
        self.tally.add(self.row.value(), self.row.bytes());
        self.row = Row::blank();
    }

    fn take(&mut self, b: u8) {
        if b == b'\n' {
            self.end_row();
        } else {
            self.row.take(b);
        }
    }
}

fn tally_of(s: &[u8]) -> Tally {
    let mut reading = Reading {
        row: Row::blank(),
        tally: Tally::none(),
    };
    for b in s {
        reading.take(*b);
    }
    reading.tally
}

pub fn line<R: Read, W: Write>(reader: &mut R, writer: &mut W) -> io::Result<()> {
    let mut space = [0; 65536];
    let n = input::read_full(reader, &mut space)?;
    let tally = tally_of(&space[..n]);
    writeln!(
        writer,
        "table-d1 {} rows {} written {} read {}",
        tally.rows, tally.written, tally.read, tally.digest
    )
}
