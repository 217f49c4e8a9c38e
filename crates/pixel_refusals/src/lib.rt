// When a pixel write is refused: the tests of RP and RL in document 01's order, 11, 8 for the record, 9, 8 for a number or too long a list, 10.
// Nothing lent is written here; the crate `pixels` lays what is allowed.
#![tactic(auto)]

ghost use Rattle.std.specs.Prelude.{◌≡◌, map, ◌<◌, ◌≤◌, get_or, nat_abs};
ghost use Rattle.refusals.specs.Answers.{refusal_of};
ghost use Rattle.pixel_refusals.specs.Tests.{is_surface, pixel_characters, raster_numbers, raster_characters, run_numbers, write_refusal, raster_refusal, run_refusal};

use beam::{Beam, Size};
use ranges::MOST_ENTRIES;
use refusals::Refusal;

// The end-of-row character.
pub const END_OF_ROW: usize = 96;

// ---- what is handed in

// An entry of a lent list, its sign aside: the tests refuse one below 0. Behind the last it is 0.
pub fn entry(list: &[i32], i: usize) -> usize
    ensures { result ≡ get_or (map nat_abs list.now) i 0 }
{
    list.get(i).map_or(0, |v| signs::magnitude(*v) as usize)
}

// "the lent bytes number exactly W times H"
#[tactic(auto, using(crate::proofs::Looking::small_area), unfolding(crate::specs::Tests::is_surface))]
fn is_surface(size: Size, bytes: usize) -> bool
    ensures { result ≡ is_surface size.w size.h bytes }
{
    size.is_size() && bytes == size.h * size.w
}

#[tactic(auto, using(crate::proofs::Looking::within_so), unfolding(crate::specs::Tests::raster_numbers))]
fn are_raster_numbers(n: i32, list: &[i32]) -> bool
    ensures { result ≡ raster_numbers n list.now }
{
    list.len() <= MOST_ENTRIES && ranges::is_within(0, 32767, n)
}

// How many of the characters hold pixels: all but the ends of rows. The tests refuse a character below 0, so its sign is passed over here.
fn pixel_characters(list: &[i32]) -> usize
    ensures { result ≡ pixel_characters (map nat_abs list.now) }
{
    // a `for` tests several entries at once; `filter` and `count` were tried, and miss a bar of speed
    let mut count = 0;
    for v in list {
        if signs::magnitude(*v) as usize != END_OF_ROW {
            count += 1;
        }
    }
    count
}

// "Characters other than 96 must still be just as many as N needs", and each character is 32..96.
#[tactic(auto, using(crate::proofs::Looking::some_per_character, crate::proofs::Looking::magnitude_so, crate::proofs::Looking::needed_so), unfolding(crate::specs::Tests::raster_characters))]
fn are_raster_characters(bits: usize, n: i32, list: &[i32]) -> bool
    requires { (0 < bits) × (bits ≤ 6) }
    ensures { result ≡ raster_characters bits n list.now }
{
    let per = 6 / bits;
    let count = signs::magnitude(n) as usize;
    pixel_characters(list) == count.div_ceil(per) && ranges::are_within(32, 96, list)
}

#[tactic(auto, unfolding(crate::specs::Tests::run_numbers))]
fn are_run_numbers(list: &[i32]) -> bool
    ensures { result ≡ run_numbers list.now }
{
    list.len() <= MOST_ENTRIES && ranges::are_within(0, 32767, list)
}

// ---- the verdicts

// 11, 8 for the record, 9.
#[tactic(auto, unfolding(refusals::specs::Answers::refusal_of, crate::specs::Tests::write_refusal))]
fn write_verdict(size: Size, bytes: usize, beam: Beam) -> Result<(), Refusal>
    ensures { refusal_of result ≡ write_refusal size.w size.h bytes beam 0 }
{
    if !is_surface(size, bytes) {
        return Err(Refusal::SurfaceSize);
    }
    if !beam::is_valid(size, beam) {
        return Err(Refusal::NotValid);
    }
    if beam.bits == 0 {
        return Err(Refusal::BitsNotSet);
    }
    Ok(())
}

// RP: then 8 for N or for too many characters, then 10.
#[tactic(auto, using(crate::proofs::Looking::raster_verdicts))]
pub fn raster_verdict(
    size: Size,
    bytes: usize,
    beam: Beam,
    n: i32,
    list: &[i32],
) -> Result<(), Refusal>
    ensures { refusal_of result ≡ raster_refusal size.w size.h bytes beam n list.now }
{
    write_verdict(size, bytes, beam)?;
    if !are_raster_numbers(n, list) {
        return Err(Refusal::NotValid);
    }
    if !are_raster_characters(beam.bits, n, list) {
        return Err(Refusal::RasterCharacters);
    }
    Ok(())
}

// RL: then 8 for a code or for too many of them.
#[tactic(auto, using(crate::proofs::Looking::run_verdicts))]
pub fn run_verdict(size: Size, bytes: usize, beam: Beam, list: &[i32]) -> Result<(), Refusal>
    ensures { refusal_of result ≡ run_refusal size.w size.h bytes beam list.now }
{
    write_verdict(size, bytes, beam)?;
    if !are_run_numbers(list) {
        return Err(Refusal::NotValid);
    }
    Ok(())
}
