// The refusals of document 01 by name, the number of each ("Numbers the unit gives back"), and what a reading gives.
#![tactic(auto)]

ghost use Rattle.std.specs.Prelude.{◌≡◌};
ghost use Rattle.refusals.specs.Refusals.{number_of};

#[derive(Clone, Copy, PartialEq, Eq)]
pub enum Refusal {
    // 1: bytes end inside a command
    BytesEnd,
    // 2: unknown command
    UnknownCommand,
    // 3: byte not allowed here
    ByteNotAllowed,
    // 4: third high byte, or integer out of range
    IntegerOutside,
    // 5: count negative or above 256
    CountOutside,
    // 6: a new ESC inside a command
    NewEscape,
    // 7: lent list or output too short for the whole result
    TooShort,
    // 8: value out of range or record not valid
    NotValid,
    // 9: pixel write before RU has set the bits
    BitsNotSet,
    // 10: raster characters wrong
    RasterCharacters,
    // 11: surface size wrong
    SurfaceSize,
    // 12: macro store malformed
    StoreMalformed,
    // 13: macro store too short for the result
    StoreTooShort,
    // 14: no such starting macro
    NoSuchMacro,
    // 15: macro call inside a body at depth 8
    TooDeep,
    // 16: a 1,025th macro would be entered
    TooManyMacros,
    // 17: macro body holds a refused or cut command
    BodyRefused,
}

impl Refusal {
    // The number that document 01 gives the refusal. By name and not by `From`: `u8::from(refusal)` would not say which number.
    pub fn number(self) -> u8
        ensures { result ≡ number_of self }
    {
        match self {
            Refusal::BytesEnd => 1,
            Refusal::UnknownCommand => 2,
            Refusal::ByteNotAllowed => 3,
            Refusal::IntegerOutside => 4,
            Refusal::CountOutside => 5,
            Refusal::NewEscape => 6,
            Refusal::TooShort => 7,
            Refusal::NotValid => 8,
            Refusal::BitsNotSet => 9,
            Refusal::RasterCharacters => 10,
            Refusal::SurfaceSize => 11,
            Refusal::StoreMalformed => 12,
            Refusal::StoreTooShort => 13,
            Refusal::NoSuchMacro => 14,
            Refusal::TooDeep => 15,
            Refusal::TooManyMacros => 16,
            Refusal::BodyRefused => 17,
        }
    }

    // The same with the place that a reading gives.
    pub fn at(self, place: usize) -> RefusedAt
        ensures { result ≡ record { refusal = self; place = place } }
    {
        RefusedAt {
            refusal: self,
            place,
        }
    }
}

// A refusal of what was read: "a reading refusal gives its place".
#[derive(Clone, Copy)]
pub struct RefusedAt {
    pub refusal: Refusal,
    pub place: usize,
}

// What was read, the place of its last byte, and where reading goes on.
#[derive(Clone, Copy)]
pub struct Taken<T> {
    pub value: T,
    pub place: usize,
    pub next: usize,
}
