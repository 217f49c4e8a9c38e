// The two pixel writes, RP and RL, on a lent surface: its bytes hold the top row first, W times H of them.
// A write that the tests of `pixel_refusals` refuse touches nothing; one that they allow lays its pixels one after the other at the beam.
#![tactic(auto)]

ghost use Rattle.std.specs.Prelude.{◌≡◌, true, [], ◌∷◌, map, ◌*◌, ◌<◌, ◌≤◌, length, nat_abs};
ghost use Rattle.refusals.specs.Answers.{every};
ghost use Rattle.pixel_refusals.specs.Tests.{is_raster, run_numbers};
ghost use Rattle.pixels.specs.Marks.{ink, moved, row_end};
ghost use Rattle.pixels.specs.Writes.{pixels, character_marks, left_after, run, raster_marks, run_marks, run_total, drawn_by, draw_raster, raster_surface, draw_runs, runs_surface};
ghost use Rattle.pixels.specs.Standing.{Ready};

use beam::{Beam, Size};
use pixel_refusals::END_OF_ROW;
use refusals::Refusal;

// What a write gives: the number of pixels, and the record behind them.
#[derive(Clone, Copy)]
pub struct Drawn {
    pub count: usize,
    pub beam: Beam,
}

// ---- laying

// An end-of-row: the beam goes "to the left edge of the row below, round to the top after the last", and no byte is touched.
#[tactic(auto, using(crate::proofs::Rows::row_end_so))]
fn row_end(beam: Beam) -> Beam
    requires { beam.x ≤ beam.right }
    ensures { result ≡ moved (row_end beam) beam }
{
    beam::step(Beam {
        x: beam.right,
        ..beam
    })
}

// What is then left of `n`: "Places passed over aren't counted in N."
#[tactic(auto, unfolding(crate::specs::Writes::left_after))]
fn left_after(beam: Beam, n: usize, ch: usize) -> usize
    requires { 0 < beam.bits }
    ensures { result ≡ left_after beam n ch }
{
    if ch == END_OF_ROW {
        return n;
    }
    n.saturating_sub(6 / beam.bits)
}

// A lent surface, its size, and the record that it is drawn with, once the tests have passed.
#[derive(Drop)]
struct Canvas<'a> {
    surface: &'a mut [u8],
    size: Size,
    beam: Beam,
    ghost ready: { Ready size.w size.h beam (length surface.now) },
    ghost some: { 0 < beam.bits },
    ghost six: { beam.bits ≤ 6 },
}

impl<'a> Canvas<'a> {
    ghost use Rattle.pixels.specs.Canvas.{Lays};

    // One colour at the beam's place, and the beam one place on.
    #[tactic(auto, using(crate::proofs::Laying::place_within))]
    fn lay_pixel(&mut self, colour: u8)
        ensures { Lays (ink colour ∷ []) self.old self.new }
    {
        let i = (self.size.h - 1 - self.beam.y) * self.size.w + self.beam.x;
        self.surface[i] = colour;
        self.beam = beam::step(self.beam);
    }

    // `n` pixels of one colour.
    fn lay_run(&mut self, colour: u8, n: usize)
        ensures { Lays (run colour n) self.old self.new }
    {
        for _ in 0..n {
            self.lay_pixel(colour);
        }
    }

    // The first `n` pixels of six bits, from the top bits down.
    fn lay_pixels(&mut self, six: usize, n: usize)
        requires { self.old.beam.bits * n ≤ 6 }
        ensures { Lays (pixels self.old.beam.bits n 6 six) self.old self.new }
    {
        let bits = self.beam.bits;
        let mask = (1usize << bits) - 1;
        let mut shift: usize = 6;
        for _ in 0..n {
            shift -= bits;
            self.lay_pixel(((six >> shift) & mask) as u8);
        }
    }

    // One raster character where `n` pixels are still to be named: "32 plus six bits", "6/bits to a character"; or an end-of-row.
    #[tactic(auto, using(crate::proofs::Going::character_room))]
    fn lay_character(&mut self, n: usize, ch: usize)
        requires { 32 ≤ ch }
        ensures { Lays (character_marks self.old.beam n ch) self.old self.new }
    {
        if ch == END_OF_ROW {
            self.beam = row_end(self.beam);
            return;
        }
        self.lay_pixels(ch - 32, n.min(6 / self.beam.bits))
    }

    // The `n` pixels of raster characters.
    fn lay_raster(&mut self, n: usize, list: &[i32])
        requires { every is_raster list.now ≡ true }
        ensures { Lays (raster_marks self.old.beam n (map nat_abs list.now)) self.old self.new }
    {
        let mut left = n;
        for v in list {
            let ch = signs::magnitude(*v) as usize;
            let then_left = left_after(self.beam, left, ch);
            self.lay_character(left, ch);
            left = then_left;
        }
    }

    // The runs of codes: "length times 2^bits plus colour".
    fn lay_runs(&mut self, list: &[i32])
        ensures { Lays (run_marks self.old.beam.bits (map nat_abs list.now)) self.old self.new }
    {
        let bits = self.beam.bits;
        let mask = (1usize << bits) - 1;
        for v in list {
            let code = signs::magnitude(*v) as usize;
            let colour = (code & mask) as u8;
            let n = code >> bits;
            self.lay_run(colour, n);
        }
    }
}

// How many pixels the codes name.
fn run_total(bits: usize, list: &[i32]) -> usize
    requires { (run_numbers list.now ≡ true) × (bits ≤ 6) }
    ensures { result ≡ run_total bits (map nat_abs list.now) }
{
    let mut sum = 0;
    for v in list {
        sum += signs::magnitude(*v) as usize >> bits;
    }
    sum
}

// ---- the two writes

// RP: `n` pixels by raster characters.
pub fn draw_raster(
    surface: &mut [u8],
    size: Size,
    beam: Beam,
    n: i32,
    list: &[i32],
) -> Result<Drawn, Refusal>
    ensures { (drawn_by beam result ≡ draw_raster size.w size.h beam n list.now (length surface.old)) × (surface.new ≡ raster_surface size.w size.h beam n list.now surface.old) }
{
    pixel_refusals::raster_verdict(size, surface.len(), beam, n, list)?;
    let count = signs::magnitude(n) as usize;
    let mut canvas = Canvas {
        surface,
        size,
        beam,
    };
    canvas.lay_raster(count, list);
    Ok(Drawn {
        count,
        beam: canvas.beam,
    })
}

// RL: runs by codes.
pub fn draw_runs(surface: &mut [u8], size: Size, beam: Beam, list: &[i32]) -> Result<Drawn, Refusal>
    ensures { (drawn_by beam result ≡ draw_runs size.w size.h beam list.now (length surface.old)) × (surface.new ≡ runs_surface size.w size.h beam list.now surface.old) }
{
    pixel_refusals::run_verdict(size, surface.len(), beam, list)?;
    let total = run_total(beam.bits, list);
    let mut canvas = Canvas {
        surface,
        size,
        beam,
    };
    canvas.lay_runs(list);
    Ok(Drawn {
        count: total,
        beam: canvas.beam,
    })
}
