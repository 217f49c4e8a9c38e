// The picture, a raster write for each row.
ghost use Rattle.std.specs.Prelude.{◌<◌};

use beam::Size;

pub const WIDTH: usize = 480;

pub const HEIGHT: usize = 360;

const SIZE: Size = Size {
    w: WIDTH,
    h: HEIGHT,
};

// With three bits two pixels to a character.
const CHARACTERS: usize = WIDTH / 2;

// "(x / 60 + y / 45 + (x * x + y * y) / 4096) mod 8"
fn colour(x: u16, y: u16) -> u8
    ensures { result < 8 }
{
    let x = u64::from(x);
    let y = u64::from(y);
    ((x / 60 + y / 45 + (x * x + y * y) / 4096) % 8) as u8
}

// The character of the columns 2 * j and 2 * j + 1.
fn character(j: u16, y: u16) -> u8
    requires { j < 240 }
{
    32 + colour(2 * j, y) * 8 + colour(2 * j + 1, y)
}

fn characters(y: u16) -> [i32; CHARACTERS] {
    let mut list = [0; CHARACTERS];
    for j in 0..CHARACTERS {
        list[j] = i32::from(character(j as u16, y));
    }
    list
}

// A row that were refused would leave the surface and the record as they are.
pub fn draw(surface: &mut [u8]) {
    let Ok(fresh) = beam::fresh(SIZE) else {
        return;
    };
    let Ok(mut beam) = beam::set_bits(SIZE, fresh, 1, 11, 3) else {
        return;
    };
    for y in 0..HEIGHT {
        let list = characters(y as u16);
        if let Ok(drawn) = pixels::draw_raster(surface, SIZE, beam, WIDTH as i32, &list) {
            beam = drawn.beam;
        }
    }
}
