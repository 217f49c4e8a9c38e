// The manual's own table of integers and the papers' single values, run through the proved crates: docs/VECTORS.md.
#![tactic(auto)]

mod digest;
mod print;
mod table;
mod values;

use std::io;

// The first `n` bytes, or all where there are fewer.
pub fn front(s: &[u8], n: usize) -> &[u8] {
    s.get(..n).unwrap_or(s)
}

fn main(rt: HostRuntime) -> io::Result<()> {
    let mut writer = rt.stdout();
    table::line(&mut rt.stdin(), &mut writer)?;
    values::lines(&mut writer)
}
