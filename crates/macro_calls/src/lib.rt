// The macro calls for programs in other languages (include/ardhrumesh.h): the answer is a number, and what goes with it is written to lent slots.
#![tactic(auto)]

ghost use Rattle.std.specs.Prelude.{◌≡◌};
ghost use Rattle.macros.specs.Store.{three_bytes, placed};
ghost use Rattle.defining.specs.Defining.{define_refusal, store_after};
ghost use Rattle.macro_calls.specs.Slots.{place_fields, ExpandedCall};

use macros::{Place, Stores};

// KD and KO
pub fn ardh_define(store: &mut [u8], number: i32, contents: &[i32]) -> u8
    ensures value { result ≡ define_refusal three_bytes store.old number contents.now }
    ensures store_after { store.new ≡ store_after three_bytes store.old number contents.now }
{
    match defining::define(store, number, contents) {
        Ok(()) => 0,
        Err(e) => e.number(),
    }
}

pub fn ardh_look_up<'a>(
    volatile: &'a [u8],
    saved: &'a [u8],
    number: i32,
    place: &mut [usize; 3],
) -> u8
    ensures value { result ≡ (placed three_bytes volatile.now saved.now number).number }
    ensures place_after { place.new ≡ place_fields (placed three_bytes volatile.now saved.now number) }
{
    let stores = Stores { volatile, saved };
    match stores.locate(number) {
        Ok(Place::InVolatile(part)) => {
            *place = [1, part.offset, part.long];
            0
        }
        Ok(Place::InSaved(part)) => {
            *place = [2, part.offset, part.long];
            0
        }
        Err(e) => {
            *place = [0; 3];
            e.number()
        }
    }
}

pub fn ardh_expand<'a>(
    volatile: &'a [u8],
    saved: &'a [u8],
    number: i32,
    remembered: &mut [u16; 3],
    out: &mut [u8],
    counts: &mut [usize; 2],
) -> u8
    ensures { ExpandedCall volatile.now saved.now number remembered.old out.old result counts.new remembered.new out.new }
{
    let stores = Stores { volatile, saved };
    let kept = coordinates::kept_in(remembered);
    match expansion::expand(stores, number, kept, out) {
        Ok(come) => {
            *counts = [come.written, come.entered];
            *remembered = coordinates::slots_of(come.kept);
            0
        }
        Err(e) => {
            *counts = [0; 2];
            e.number()
        }
    }
}
