// The beam record that the pixel commands work with, and the calls that set it: a fresh one, RU, RS, RH, and one step of the beam.
// (0,0) is the lower left. A call takes W and H and the record by value, and gives the new record or a refusal; the record as it came stays with the caller.
// A refused `fresh`, to which none came, hands one back.
#![tactic(auto)]

ghost use Rattle.std.specs.Prelude.{◌≡◌};
ghost use Rattle.beam.specs.Validity.{is_size, is_bits, on_surface, in_viewport, is_valid};
ghost use Rattle.beam.specs.Settings.{settled_by, settled, fresh_by, make_fresh, bits_from, set_bits, framed, set_viewport, set_beam, stepped, make_step};

use memory::Point;
use refusals::Refusal;

// W and H of a surface.
#[derive(Clone, Copy)]
pub struct Size {
    pub w: usize,
    pub h: usize,
}

#[derive(Clone, Copy)]
pub struct Beam {
    // bits to a pixel, 0 before RU has set them
    pub bits: usize,
    // the viewport's edges, which belong to it
    pub left: usize,
    pub bottom: usize,
    pub right: usize,
    pub top: usize,
    // the beam
    pub x: usize,
    pub y: usize,
}

// "Where a fresh record is refused, all its fields are 0": the refusal, and the record that is handed back.
#[derive(Clone, Copy)]
pub struct RefusedFresh {
    pub refusal: Refusal,
    pub beam: Beam,
}

const NO_BEAM: Beam = Beam {
    bits: 0,
    left: 0,
    bottom: 0,
    right: 0,
    top: 0,
    x: 0,
    y: 0,
};

// ---- what a record must be

impl Size {
    // "W and H are each 1..512"
    #[tactic(auto, unfolding(crate::specs::Validity::is_size))]
    pub fn is_size(self) -> bool
        ensures { result ≡ is_size self.w self.h }
    {
        (1..=512).contains(&self.w) && (1..=512).contains(&self.h)
    }

    #[tactic(auto, unfolding(crate::specs::Validity::on_surface))]
    fn contains(self, x: usize, y: usize) -> bool
        ensures { result ≡ on_surface self.w self.h x y }
    {
        x < self.w && y < self.h
    }
}

// "1, 2, 3 or 6"
#[tactic(auto, unfolding(crate::specs::Validity::is_bits))]
fn is_bits(bits: usize) -> bool
    ensures { result ≡ is_bits bits }
{
    matches!(bits, 1 | 2 | 3 | 6)
}

#[tactic(auto, unfolding(crate::specs::Validity::in_viewport))]
fn in_viewport(beam: Beam, x: usize, y: usize) -> bool
    ensures { result ≡ in_viewport beam x y }
{
    beam.left <= x && x <= beam.right && beam.bottom <= y && y <= beam.top
}

// Bits of the table or none, a viewport inside the surface, a beam inside the viewport.
#[tactic(auto, unfolding(crate::specs::Validity::is_valid))]
pub fn is_valid(size: Size, beam: Beam) -> bool
    ensures { result ≡ is_valid size.w size.h beam }
{
    size.contains(beam.right, beam.top)
        && in_viewport(beam, beam.x, beam.y)
        && (beam.bits == 0 || is_bits(beam.bits))
}

// ---- the calls

// "11 for either outside 1..512, then 8 for the record, 8 for the values"
#[tactic(auto, unfolding(crate::specs::Settings::settled_by, crate::specs::Settings::settled))]
fn settle(size: Size, beam: Beam, allowed: bool, new: Beam) -> Result<Beam, Refusal>
    ensures { settled_by beam result ≡ settled size.w size.h beam allowed new }
{
    if !size.is_size() {
        return Err(Refusal::SurfaceSize);
    }
    if !is_valid(size, beam) || !allowed {
        return Err(Refusal::NotValid);
    }
    Ok(new)
}

// "Fresh: the whole surface, beam at the upper left." Where it is refused, all its fields are 0.
#[tactic(auto, using(crate::proofs::Settling::size_w, crate::proofs::Settling::size_h))]
pub fn fresh(size: Size) -> Result<Beam, RefusedFresh>
    ensures { fresh_by result ≡ make_fresh size.w size.h }
{
    if size.is_size() {
        let top = size.h - 1;
        return Ok(Beam {
            bits: 0,
            left: 0,
            bottom: 0,
            right: size.w - 1,
            top,
            x: 0,
            y: top,
        });
    }
    Err(RefusedFresh {
        refusal: Refusal::SurfaceSize,
        beam: NO_BEAM,
    })
}

// RU's third integer as bits: 1, 2, 3 or 6.
#[tactic(auto, using(crate::proofs::Settling::minus_bits, crate::proofs::Settling::plus_bits))]
fn is_bits_integer(third: i32) -> bool
    ensures { result ≡ bits_from third }
{
    !signs::is_negative(third) && is_bits(signs::magnitude(third) as usize)
}

// RU: "sets the bits from its third integer and nothing else; its first two are handed on unused".
#[tactic(auto, using(crate::proofs::Settling::bits_so))]
pub fn set_bits(
    size: Size,
    beam: Beam,
    first: i32,
    second: i32,
    third: i32,
) -> Result<Beam, Refusal>
    ensures { settled_by beam result ≡ set_bits size.w size.h beam first second third }
{
    let bits = signs::magnitude(third) as usize;
    settle(size, beam, is_bits_integer(third), Beam { bits, ..beam })
}

// The viewport with these opposite corners, and the beam at its upper left.
#[tactic(auto, unfolding(crate::specs::Settings::framed))]
fn frame(beam: Beam, from: Point, to: Point) -> Beam
    ensures { result ≡ framed beam from to }
{
    let left = usize::from(from.x.min(to.x));
    let bottom = usize::from(from.y.min(to.y));
    let right = usize::from(from.x.max(to.x));
    let top = usize::from(from.y.max(to.y));
    Beam {
        left,
        bottom,
        right,
        top,
        x: left,
        y: top,
        ..beam
    }
}

// RS: "takes any two opposite corners, sets the viewport, and the beam to its upper left".
#[tactic(auto, unfolding(crate::specs::Settings::set_viewport, crate::specs::Settings::corners_on))]
pub fn set_viewport(size: Size, beam: Beam, from: Point, to: Point) -> Result<Beam, Refusal>
    ensures { settled_by beam result ≡ set_viewport size.w size.h beam from to }
{
    let allowed = size.contains(usize::from(from.x), usize::from(from.y))
        && size.contains(usize::from(to.x), usize::from(to.y));
    settle(size, beam, allowed, frame(beam, from, to))
}

// RH: "sets the beam, measured on the surface".
#[tactic(auto, unfolding(crate::specs::Settings::set_beam))]
pub fn set_beam(size: Size, beam: Beam, to: Point) -> Result<Beam, Refusal>
    ensures { settled_by beam result ≡ set_beam size.w size.h beam to }
{
    let x = usize::from(to.x);
    let y = usize::from(to.y);
    settle(size, beam, in_viewport(beam, x, y), Beam { x, y, ..beam })
}

// ---- one step of the beam

// "the beam goes right, then to the left edge of the row below, and from the last place to the upper left"
#[tactic(auto, unfolding(crate::specs::Settings::stepped))]
pub fn step(beam: Beam) -> Beam
    ensures { result ≡ stepped beam }
{
    if beam.x < beam.right {
        return Beam {
            x: beam.x + 1,
            ..beam
        };
    }
    if beam.bottom < beam.y {
        return Beam {
            x: beam.left,
            y: beam.y - 1,
            ..beam
        };
    }
    Beam {
        x: beam.left,
        y: beam.top,
        ..beam
    }
}

// The same as a call: 11, then 8 for a record that is not valid.
#[tactic(auto, unfolding(crate::specs::Settings::make_step))]
pub fn step_on(size: Size, beam: Beam) -> Result<Beam, Refusal>
    ensures { settled_by beam result ≡ make_step size.w size.h beam }
{
    settle(size, beam, true, step(beam))
}
