// Reads standard input and prints the listing of its first 4,096 bytes: document 01, "The lister". What is printed is `listing::listing`; this
// only reads and writes.
#![tactic(auto)]

use refusals::Refusal;
use std::io;
use std::io::Write;

// The listing in one write.
fn print<W: Write>(writer: &mut W, written: Result<usize, Refusal>, out: &[u8]) -> io::Result<()> {
    match written.ok().and_then(|n| out.get(..n)) {
        Some(listing) => writer.write_all(listing),
        None => Err(io::Error::other("there is no room for the listing")),
    }
}

// One byte more than is listed tells whether more input follows. A listing has 57,351 bytes at most (crates/listing_laws/proofs/Lengths.antt)
// and so fits the buffer of 65,536.
fn main(rt: HostRuntime) -> io::Result<()> {
    let mut input = [0; 4097];
    let mut out = [0; 65536];
    let n = input::read_full(&mut rt.stdin(), &mut input)?;
    let written = listing::listing(&input[..n], &mut out);
    let printed = print(&mut rt.stdout(), written, &out);
    if printed.is_err() {
        rt.eprintln("lister: the listing could not be written")?;
    }
    printed
}
