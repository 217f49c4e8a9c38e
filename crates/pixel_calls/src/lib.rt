// The pixel calls for programs in other languages (include/ardhrumesh.h): the beam record is a lent array, the answer is a number.
#![tactic(auto)]

ghost use Rattle.std.specs.Prelude.{◌≡◌};
ghost use Rattle.coordinates.specs.Coordinates.{point_given};
ghost use Rattle.beam.specs.Settings.{settled_by, make_fresh, set_viewport, set_beam, make_step};
ghost use Rattle.pixels.specs.Writes.{drawn_by};
ghost use Rattle.pixel_calls.specs.Fields.{beam_in, fields_of};
ghost use Rattle.pixel_calls.specs.Promises.{HandsSettled, HandsWritten, BitsHanded, RasterHanded, RasterLeaves, RunsHanded, RunsLeave};

use beam::{Beam, Size};
use pixels::Drawn;
use refusals::Refusal;

// ---- the record; by name and not by `From`, since an array and a `Beam` are both of other crates

#[tactic(auto, unfolding(crate::specs::Fields::beam_in))]
fn beam_in(fields: &[usize; 7]) -> Beam
    ensures { result ≡ beam_in fields.now }
{
    let [bits, left, bottom, right, top, x, y] = *fields;
    Beam {
        bits,
        left,
        bottom,
        right,
        top,
        x,
        y,
    }
}

#[tactic(auto, unfolding(crate::specs::Fields::fields_of))]
fn fields_of(beam: Beam) -> [usize; 7]
    ensures { result ≡ fields_of beam }
{
    [
        beam.bits,
        beam.left,
        beam.bottom,
        beam.right,
        beam.top,
        beam.x,
        beam.y,
    ]
}

// ---- what an answer hands back

// 0 and the new record, or the refusal's number and the record as it came.
#[tactic(auto, unfolding(beam::specs::Settings::settled_by))]
fn hand(fields: &mut [usize; 7], came: Beam, setting: Result<Beam, Refusal>) -> u8
    ensures { HandsSettled (settled_by came setting) result fields.new }
{
    match setting {
        Ok(beam) => {
            *fields = fields_of(beam);
            0
        }
        Err(e) => {
            *fields = fields_of(came);
            e.number()
        }
    }
}

// The same of a write, with the number of pixels. One function for both would hand a number of pixels back to four calls that have none.
#[tactic(auto, unfolding(pixels::specs::Writes::drawn_by))]
fn hand_written(
    fields: &mut [usize; 7],
    count: &mut usize,
    came: Beam,
    drawing: Result<Drawn, Refusal>,
) -> u8
    ensures { HandsWritten (drawn_by came drawing) result count.new fields.new }
{
    match drawing {
        Ok(drawn) => {
            *fields = fields_of(drawn.beam);
            *count = drawn.count;
            0
        }
        Err(e) => {
            *fields = fields_of(came);
            *count = 0;
            e.number()
        }
    }
}

// ---- setting the record

// No record came: the one beside the refusal is handed back.
#[tactic(auto, unfolding(beam::specs::Settings::fresh_by))]
pub fn ardh_fresh(w: usize, h: usize, fields: &mut [usize; 7]) -> u8
    ensures { HandsSettled (make_fresh w h) result fields.new }
{
    match beam::fresh(Size { w, h }) {
        Ok(beam) => {
            *fields = fields_of(beam);
            0
        }
        Err(e) => {
            *fields = fields_of(e.beam);
            e.refusal.number()
        }
    }
}

// RU
pub fn ardh_set_bits(
    w: usize,
    h: usize,
    fields: &mut [usize; 7],
    first: i32,
    second: i32,
    third: i32,
) -> u8
    ensures { BitsHanded w h fields.old first second third result fields.new }
{
    let came = beam_in(fields);
    let setting = beam::set_bits(Size { w, h }, came, first, second, third);
    hand(fields, came, setting)
}

// RS
pub fn ardh_set_viewport(
    w: usize,
    h: usize,
    fields: &mut [usize; 7],
    x: i32,
    y: i32,
    x2: i32,
    y2: i32,
) -> u8
    ensures { HandsSettled (set_viewport w h (beam_in fields.old) (point_given x y) (point_given x2 y2)) result fields.new }
{
    let came = beam_in(fields);
    let from = coordinates::point_given(x, y);
    let to = coordinates::point_given(x2, y2);
    let setting = beam::set_viewport(Size { w, h }, came, from, to);
    hand(fields, came, setting)
}

// RH
pub fn ardh_set_beam(w: usize, h: usize, fields: &mut [usize; 7], x: i32, y: i32) -> u8
    ensures { HandsSettled (set_beam w h (beam_in fields.old) (point_given x y)) result fields.new }
{
    let came = beam_in(fields);
    let to = coordinates::point_given(x, y);
    let setting = beam::set_beam(Size { w, h }, came, to);
    hand(fields, came, setting)
}

// One step of the beam.
pub fn ardh_step(w: usize, h: usize, fields: &mut [usize; 7]) -> u8
    ensures { HandsSettled (make_step w h (beam_in fields.old)) result fields.new }
{
    let came = beam_in(fields);
    let setting = beam::step_on(Size { w, h }, came);
    hand(fields, came, setting)
}

// ---- the two writes

// RP
#[tactic(auto, using(crate::proofs::Answers::raster_given))]
pub fn ardh_draw_raster(
    surface: &mut [u8],
    w: usize,
    h: usize,
    fields: &mut [usize; 7],
    n: i32,
    characters: &[i32],
    count: &mut usize,
) -> u8
    ensures raster_handed { RasterHanded w h fields.old surface.old n characters.now result count.new fields.new }
    ensures raster_leaves { RasterLeaves w h fields.old surface.old n characters.now surface.new }
{
    let came = beam_in(fields);
    let drawing = pixels::draw_raster(surface, Size { w, h }, came, n, characters);
    hand_written(fields, count, came, drawing)
}

// RL
pub fn ardh_draw_runs(
    surface: &mut [u8],
    w: usize,
    h: usize,
    fields: &mut [usize; 7],
    codes: &[i32],
    count: &mut usize,
) -> u8
    ensures runs_handed { RunsHanded w h fields.old surface.old codes.now result count.new fields.new }
    ensures runs_leave { RunsLeave w h fields.old surface.old codes.now surface.new }
{
    let came = beam_in(fields);
    let drawing = pixels::draw_runs(surface, Size { w, h }, came, codes);
    hand_written(fields, count, came, drawing)
}
