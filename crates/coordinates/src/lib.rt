// What other languages hand in as numbers: a point of two numbers of any size, and what is remembered.
#![tactic(auto)]

ghost use Rattle.std.specs.Prelude.{◌≡◌};
ghost use Rattle.coordinates.specs.Coordinates.{coordinate_of, point_given};
ghost use Rattle.coordinates.specs.Remembering.{kept_in, mode_number, slots_of};

use memory::{DelMode, MOST_COORDINATE, Point, Remembered};

// Stands for every coordinate outside 0..4095: no surface has it, and no point may be written with it.
const OUTSIDE: u16 = MOST_COORDINATE + 1;

#[tactic(auto, using(refusals::proofs::Rules::tests), unfolding(crate::specs::Coordinates::coordinate_of))]
fn coordinate(v: i32) -> u16
    ensures { result ≡ coordinate_of v }
{
    match u16::try_from(v) {
        Ok(m) if m <= MOST_COORDINATE => m,
        _ => OUTSIDE,
    }
}

pub fn point_given(x: i32, y: i32) -> Point
    ensures { result ≡ point_given x y }
{
    Point {
        x: coordinate(x),
        y: coordinate(y),
    }
}

// ---- what is remembered

// A mode that is neither 0 nor 1 stands for a point outside, so that each call refuses it with 8, "value out of range". By name and not by `From`, here and
// below: an array and what is remembered are both of other crates. One test comes before the mode is told: with a `match` of three arms the point is
// fetched in halves, and each item is read by more jumps (docs/BENCHMARKS.md).
#[tactic(auto, using(refusals::proofs::Rules::tests), unfolding(crate::specs::Remembering::kept_in))]
pub fn kept_in(remembered: &[u16; 3]) -> Remembered
    ensures { result ≡ kept_in remembered.now }
{
    let [x, y, number] = *remembered;
    if number > 1 {
        return Remembered {
            point: Point {
                x: OUTSIDE,
                y: OUTSIDE,
            },
            mode: DelMode::Data,
        };
    }
    let mode = if number == 1 {
        DelMode::Filler
    } else {
        DelMode::Data
    };
    Remembered {
        point: Point { x, y },
        mode,
    }
}

#[tactic(auto, unfolding(crate::specs::Remembering::mode_number))]
fn mode_number(mode: DelMode) -> u16
    ensures { result ≡ mode_number mode }
{
    match mode {
        DelMode::Data => 0,
        DelMode::Filler => 1,
    }
}

#[tactic(auto, unfolding(crate::specs::Remembering::slots_of))]
pub fn slots_of(kept: Remembered) -> [u16; 3]
    ensures { result ≡ slots_of kept }
{
    [kept.point.x, kept.point.y, mode_number(kept.mode)]
}
