// What reading remembers from one command to the next, and writing likewise: one struct, handed on whole.
#![tactic(auto)]

ghost use Rattle.std.specs.Prelude.{◌≡◌};
ghost use Rattle.memory.specs.Memory.{fresh_memory, inside, remember, in_mode};

#[derive(Clone, Copy)]
pub struct Point {
    pub x: u16,
    pub y: u16,
}

// What a plain 127 is: "data wherever a parameter allows it", or, after KI 1, filler, which is "passed over".
#[derive(Clone, Copy, PartialEq, Eq)]
pub enum DelMode {
    Data,
    Filler,
}

#[derive(Clone, Copy)]
pub struct Remembered {
    // the last point
    pub point: Point,
    // the DEL mode
    pub mode: DelMode,
}

// "A fresh remembered point is (0,0)." "The mode goes with the remembered point, fresh 0."
pub fn fresh() -> Remembered
    ensures { result ≡ fresh_memory }
{
    Remembered {
        point: Point { x: 0, y: 0 },
        mode: DelMode::Data,
    }
}

// The largest coordinate of a point.
pub const MOST_COORDINATE: u16 = 4095;

// "x and y 0..4095"
pub fn is_inside(point: Point) -> bool
    ensures { result ≡ inside point }
{
    point.x <= MOST_COORDINATE && point.y <= MOST_COORDINATE
}

// What is remembered once `point` has been read or written.
pub fn with_point(kept: Remembered, point: Point) -> Remembered
    ensures { result ≡ remember kept point }
{
    Remembered { point, ..kept }
}

// What is remembered once KI has set this mode.
pub fn with_mode(kept: Remembered, mode: DelMode) -> Remembered
    ensures { result ≡ in_mode kept mode }
{
    Remembered { mode, ..kept }
}
