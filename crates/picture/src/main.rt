// The picture of docs/COMPARISON.md, drawn by RP with the proved calls and written to standard output as a PPM.
#![tactic(auto)]

mod drawing;
mod ppm;

use drawing::{HEIGHT, WIDTH};
use std::io;

fn main(rt: HostRuntime) -> io::Result<()> {
    let mut surface = [0; WIDTH * HEIGHT];
    drawing::draw(&mut surface);
    ppm::write(&mut rt.stdout(), &surface)
}
