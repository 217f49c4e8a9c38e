// The exported calls (include/ardhrumesh.h), as a static library: each hands its arguments to the call of that name in stream_calls, report_calls,
// pixel_calls or macro_calls, and promises what that one promises.
#![tactic(auto)]

ghost use Rattle.std.specs.Prelude.{◌≡◌, length};
ghost use Rattle.wire.specs.Sending.{after_write};
ghost use Rattle.coordinates.specs.Coordinates.{point_given};
ghost use Rattle.reports.specs.Reading.{report_at, string_at, after_string};
ghost use Rattle.reports.specs.Writing.{spell_report, write_report, spell_string, write_string};
ghost use Rattle.beam.specs.Settings.{make_fresh, set_viewport, set_beam, make_step};
ghost use Rattle.macros.specs.Store.{three_bytes, placed};
ghost use Rattle.defining.specs.Defining.{define_refusal, store_after};
ghost use Rattle.stream_calls.specs.Slots.{NextItem};
ghost use Rattle.stream_calls.specs.Given.{command_given, WrittenCommand};
ghost use Rattle.report_calls.specs.Promises.{HandsInteger, HandsString, HandsWriting};
ghost use Rattle.pixel_calls.specs.Fields.{beam_in};
ghost use Rattle.pixel_calls.specs.Promises.{HandsSettled, BitsHanded, RasterHanded, RasterLeaves, RunsHanded, RunsLeave};
ghost use Rattle.macro_calls.specs.Slots.{place_fields, ExpandedCall};

// ---- streams

#[unsafe(no_mangle)]
pub extern "C" fn ardh_next_item(
    bytes: &[u8],
    start: usize,
    remembered: &mut [u16; 3],
    list: &mut [i32],
    item: &mut [usize; 7],
    values: &mut [i32; 4],
) -> u8
    ensures { NextItem remembered.old bytes.now start list.old result item.new values.new remembered.new list.new }
{
    stream_calls::ardh_next_item(bytes, start, remembered, list, item, values)
}

#[unsafe(no_mangle)]
pub extern "C" fn ardh_write_command(
    first: u8,
    second: u8,
    values: &[i32; 4],
    list: &[i32],
    remembered: &mut [u16; 3],
    out: &mut [u8],
    written: &mut usize,
) -> u8
    ensures { WrittenCommand remembered.old (command_given first second values.now) list.now out.old result written.new remembered.new out.new }
{
    stream_calls::ardh_write_command(first, second, values, list, remembered, out, written)
}

// ---- reports

#[unsafe(no_mangle)]
pub extern "C" fn ardh_read_integer_report(
    bytes: &[u8],
    start: usize,
    value: &mut i32,
    place: &mut usize,
) -> u8
    ensures { HandsInteger (report_at bytes.now start) result value.new place.new }
{
    report_calls::ardh_read_integer_report(bytes, start, value, place)
}

#[unsafe(no_mangle)]
pub extern "C" fn ardh_read_string_report(
    bytes: &[u8],
    start: usize,
    list: &mut [i32],
    count: &mut usize,
    place: &mut usize,
) -> u8
    ensures hands_string { HandsString (string_at bytes.now start (length list.old)) result count.new place.new }
    ensures list_after { list.new ≡ after_string (string_at bytes.now start (length list.old)) bytes.now start list.old }
{
    report_calls::ardh_read_string_report(bytes, start, list, count, place)
}

#[unsafe(no_mangle)]
pub extern "C" fn ardh_write_integer_report(
    value: i32,
    out: &mut [u8],
    start: usize,
    next: &mut usize,
) -> u8
    ensures hands_writing { HandsWriting (write_report value (length out.old) start) result next.new }
    ensures out_after { out.new ≡ after_write (write_report value (length out.old) start) (spell_report value) out.old start }
{
    report_calls::ardh_write_integer_report(value, out, start, next)
}

#[unsafe(no_mangle)]
pub extern "C" fn ardh_write_string_report(
    list: &[i32],
    out: &mut [u8],
    start: usize,
    next: &mut usize,
) -> u8
    ensures hands_writing { HandsWriting (write_string list.now (length out.old) start) result next.new }
    ensures out_after { out.new ≡ after_write (write_string list.now (length out.old) start) (spell_string list.now) out.old start }
{
    report_calls::ardh_write_string_report(list, out, start, next)
}

// ---- pixels

#[unsafe(no_mangle)]
pub extern "C" fn ardh_fresh(w: usize, h: usize, fields: &mut [usize; 7]) -> u8
    ensures { HandsSettled (make_fresh w h) result fields.new }
{
    pixel_calls::ardh_fresh(w, h, fields)
}

#[unsafe(no_mangle)]
pub extern "C" fn ardh_set_bits(
    w: usize,
    h: usize,
    fields: &mut [usize; 7],
    first: i32,
    second: i32,
    third: i32,
) -> u8
    ensures { BitsHanded w h fields.old first second third result fields.new }
{
    pixel_calls::ardh_set_bits(w, h, fields, first, second, third)
}

#[unsafe(no_mangle)]
pub extern "C" fn ardh_set_viewport(
    w: usize,
    h: usize,
    fields: &mut [usize; 7],
    x: i32,
    y: i32,
    x2: i32,
    y2: i32,
) -> u8
    ensures { HandsSettled (set_viewport w h (beam_in fields.old) (point_given x y) (point_given x2 y2)) result fields.new }
{
    pixel_calls::ardh_set_viewport(w, h, fields, x, y, x2, y2)
}

#[unsafe(no_mangle)]
pub extern "C" fn ardh_set_beam(w: usize, h: usize, fields: &mut [usize; 7], x: i32, y: i32) -> u8
    ensures { HandsSettled (set_beam w h (beam_in fields.old) (point_given x y)) result fields.new }
{
    pixel_calls::ardh_set_beam(w, h, fields, x, y)
}

#[unsafe(no_mangle)]
pub extern "C" fn ardh_step(w: usize, h: usize, fields: &mut [usize; 7]) -> u8
    ensures { HandsSettled (make_step w h (beam_in fields.old)) result fields.new }
{
    pixel_calls::ardh_step(w, h, fields)
}

#[unsafe(no_mangle)]
pub extern "C" fn ardh_draw_raster(
    surface: &mut [u8],
    w: usize,
    h: usize,
    fields: &mut [usize; 7],
    n: i32,
    characters: &[i32],
    count: &mut usize,
) -> u8
    ensures raster_handed { RasterHanded w h fields.old surface.old n characters.now result count.new fields.new }
    ensures raster_leaves { RasterLeaves w h fields.old surface.old n characters.now surface.new }
{
    pixel_calls::ardh_draw_raster(surface, w, h, fields, n, characters, count)
}

#[unsafe(no_mangle)]
pub extern "C" fn ardh_draw_runs(
    surface: &mut [u8],
    w: usize,
    h: usize,
    fields: &mut [usize; 7],
    codes: &[i32],
    count: &mut usize,
) -> u8
    ensures runs_handed { RunsHanded w h fields.old surface.old codes.now result count.new fields.new }
    ensures runs_leave { RunsLeave w h fields.old surface.old codes.now surface.new }
{
    pixel_calls::ardh_draw_runs(surface, w, h, fields, codes, count)
}

// ---- macros

#[unsafe(no_mangle)]
pub extern "C" fn ardh_define(store: &mut [u8], number: i32, contents: &[i32]) -> u8
    ensures value { result ≡ define_refusal three_bytes store.old number contents.now }
    ensures store_after { store.new ≡ store_after three_bytes store.old number contents.now }
{
    macro_calls::ardh_define(store, number, contents)
}

#[unsafe(no_mangle)]
pub extern "C" fn ardh_look_up<'a>(
    volatile: &'a [u8],
    saved: &'a [u8],
    number: i32,
    place: &mut [usize; 3],
) -> u8
    ensures value { result ≡ (placed three_bytes volatile.now saved.now number).number }
    ensures place_after { place.new ≡ place_fields (placed three_bytes volatile.now saved.now number) }
{
    macro_calls::ardh_look_up(volatile, saved, number, place)
}

#[unsafe(no_mangle)]
pub extern "C" fn ardh_expand<'a>(
    volatile: &'a [u8],
    saved: &'a [u8],
    number: i32,
    remembered: &mut [u16; 3],
    out: &mut [u8],
    counts: &mut [usize; 2],
) -> u8
    ensures { ExpandedCall volatile.now saved.now number remembered.old out.old result counts.new remembered.new out.new }
{
    macro_calls::ardh_expand(volatile, saved, number, remembered, out, counts)
}
