// The packed point: read from a remembered point with all that may be left out, and written with all of that left out.
#![tactic(auto)]

ghost use Rattle.std.specs.Prelude.{◌≡◌, ◌&&◌, ◌≤◌, ◌+◌, ◌*◌, ◌%◌, length};
ghost use Rattle.std.proofs.lemmas.List.Edits.{sets};
ghost use Rattle.memory.specs.Memory.{inside};
ghost use Rattle.refusals.specs.Answers.{answer_at};
ghost use Rattle.wire.specs.Sending.{sent, poured, Pours, Wrote};
ghost use Rattle.points.specs.Layout.{Inside, bytes_of, coordinates};
ghost use Rattle.points.specs.Reading.{lo_x, last_at, after_lo_y, after_upper, after_hi_y, point_from, point_at};
ghost use Rattle.points.specs.Writing.{part, omits_lo_y, upper_bytes, spell_bytes, spell_point, write_point};

use memory::{Point, Remembered};
use refusals::{Refusal, RefusedAt, Taken};

// The bytes of a point, in the order in which they are sent.
#[derive(Clone, Copy)]
pub struct PointBytes {
    pub hiy: u8,
    pub extra: u8,
    pub loy: u8,
    pub hix: u8,
    pub lox: u8,
}

// The bytes in force, and where the rest of a point begins.
#[derive(Clone, Copy)]
struct Start {
    bytes: PointBytes,
    from: usize,
}

// ---- the bytes of a point, and the point of its bytes

fn bytes_of(p: Point) -> PointBytes
    requires { Inside p }
    ensures { result ≡ bytes_of p }
{
    let Point { x, y } = p;
    PointBytes {
        hiy: 32 + (y >> 7) as u8,
        extra: 96 + ((y & 3) << 2) as u8 + (x & 3) as u8,
        loy: 96 + ((y >> 2) & 31) as u8,
        hix: 32 + (x >> 7) as u8,
        lox: 64 + ((x >> 2) & 31) as u8,
    }
}

// A coordinate of its high, its low and its lowest bits.
fn coordinate(hi: u8, lo: u8, rest: u8) -> u16
    ensures { result ≡ hi % 32 * 128 + lo % 32 * 4 + rest % 4 }
{
    (u16::from(hi & 31) << 7) + (u16::from(lo & 31) << 2) + u16::from(rest & 3)
}

// The point of five bytes. The 16 bit of Extra is not looked at.
fn point_of(b: PointBytes) -> Point
    ensures { result ≡ coordinates b }
{
    Point {
        x: coordinate(b.hix, b.lox, b.extra),
        y: coordinate(b.hiy, b.loy, b.extra >> 2),
    }
}

// ---- reading: each function stands behind the bytes that it is named by, `b` being those in force. What they share they take as `wire::take`
// does: a struct of it would be made for that call alone. Which kinds of byte may follow differs in each, so one function for all is no plainer.

// The point is whole with its LoX.
#[tactic(auto, unfolding(refusals::specs::Answers::answer_at, crate::specs::Reading::ends_at))]
fn ends(b: PointBytes, byte: Taken<u8>) -> Result<Taken<Point>, RefusedAt>
    ensures { answer_at result ≡ lo_x b byte }
{
    let lox = byte.value;
    Ok(Taken {
        value: point_of(PointBytes { lox, ..b }),
        place: byte.place,
        next: byte.next,
    })
}

// Only LoX is left.
#[tactic(auto, using(refusals::proofs::Rules::tests), unfolding(refusals::specs::Answers::answer_at, crate::specs::Reading::by_kind, crate::specs::Reading::last_at))]
fn last(kept: Remembered, b: PointBytes, s: &[u8], at: usize) -> Result<Taken<Point>, RefusedAt>
    ensures { answer_at result ≡ last_at kept b s.now at }
{
    let byte = wire::take(kept, s, at)?;
    match byte.value {
        64..=95 => ends(b, byte),
        _ => Err(Refusal::ByteNotAllowed.at(byte.place)),
    }
}

// Behind Extra and LoY: HiX may follow.
#[tactic(auto, using(refusals::proofs::Rules::tests), unfolding(refusals::specs::Answers::answer_at, crate::specs::Reading::by_kind, crate::specs::Reading::after_lo_y))]
fn after_lo_y(
    kept: Remembered,
    b: PointBytes,
    s: &[u8],
    at: usize,
) -> Result<Taken<Point>, RefusedAt>
    ensures { answer_at result ≡ after_lo_y kept b s.now at }
{
    let byte = wire::take(kept, s, at)?;
    match byte.value {
        hix @ 0..=63 => last(kept, PointBytes { hix, ..b }, s, byte.next),
        64..=95 => ends(b, byte),
        _ => Err(Refusal::ByteNotAllowed.at(byte.place)),
    }
}

// Behind a first byte 96..127, `upper`: it is Extra if a second one follows, and LoY if not. What is no second one, a byte or a refusal, is only
// looked at: it is taken again behind LoY, and a refusal is given there.
#[tactic(auto, using(refusals::proofs::Rules::tests), unfolding(refusals::specs::Answers::answer_at, crate::specs::Reading::by_kind, crate::specs::Reading::after_upper, crate::specs::Reading::after_lo_y))]
fn past_upper(kept: Remembered, b: PointBytes, upper: u8, s: &[u8], at: usize) -> Start
    ensures { after_lo_y kept result.bytes s.now result.from ≡ after_upper kept b upper s.now at }
{
    match wire::take(kept, s, at) {
        Ok(second) if second.value >= 96 => Start {
            bytes: PointBytes {
                extra: upper,
                loy: second.value,
                ..b
            },
            from: second.next,
        },
        _ => Start {
            bytes: PointBytes { loy: upper, ..b },
            from: at,
        },
    }
}

// One way on behind Extra and LoY, as in `from_start`.
fn after_upper(
    kept: Remembered,
    b: PointBytes,
    upper: u8,
    s: &[u8],
    at: usize,
) -> Result<Taken<Point>, RefusedAt>
    ensures { answer_at result ≡ after_upper kept b upper s.now at }
{
    let start = past_upper(kept, b, upper, s, at);
    after_lo_y(kept, start.bytes, s, start.from)
}

#[tactic(auto, using(refusals::proofs::Rules::tests), unfolding(refusals::specs::Answers::answer_at, crate::specs::Reading::by_kind, crate::specs::Reading::after_hi_y))]
fn after_hi_y(
    kept: Remembered,
    b: PointBytes,
    s: &[u8],
    at: usize,
) -> Result<Taken<Point>, RefusedAt>
    ensures { answer_at result ≡ after_hi_y kept b s.now at }
{
    let byte = wire::take(kept, s, at)?;
    match byte.value {
        0..=63 => Err(Refusal::ByteNotAllowed.at(byte.place)),
        64..=95 => ends(b, byte),
        _ => after_upper(kept, b, byte.value, s, byte.next),
    }
}

// HiY, if it stands; where it is left out, the rest is read as behind it.
#[tactic(auto, using(refusals::proofs::Rules::tests), unfolding(refusals::specs::Answers::answer_at, crate::specs::Reading::by_kind, crate::specs::Reading::after_hi_y, crate::specs::Reading::point_from))]
fn past_hi_y(kept: Remembered, b: PointBytes, s: &[u8], at: usize) -> Start
    ensures { after_hi_y kept result.bytes s.now result.from ≡ point_from kept b s.now at }
{
    match wire::take(kept, s, at) {
        Ok(hiy) if hiy.value < 64 => Start {
            bytes: PointBytes {
                hiy: hiy.value,
                ..b
            },
            from: hiy.next,
        },
        _ => Start { bytes: b, from: at },
    }
}

// A point, the bytes `b` being those of the last one. There is one way on behind HiY, so that the bytes in force need not be stored to be
// handed over.
fn from_start(
    kept: Remembered,
    b: PointBytes,
    s: &[u8],
    at: usize,
) -> Result<Taken<Point>, RefusedAt>
    ensures { answer_at result ≡ point_from kept b s.now at }
{
    let start = past_hi_y(kept, b, s, at);
    after_hi_y(kept, start.bytes, s, start.from)
}

// 8 at place 0 for a remembered point outside 0..4095, then the earliest byte decides.
#[tactic(auto, using(crate::proofs::Insides::tested), unfolding(refusals::specs::Answers::answer_at, crate::specs::Reading::point_at))]
pub fn read_point(kept: Remembered, s: &[u8], at: usize) -> Result<Taken<Point>, RefusedAt>
    ensures { answer_at result ≡ point_at kept s.now at }
{
    if !memory::is_inside(kept.point) {
        return Err(Refusal::NotValid.at(0));
    }
    from_start(kept, bytes_of(kept.point), s, at)
}

// ---- writing

// One byte of a point behind `n` others, or nothing where it is left out. Answers how many they then are. An `if` at each of the five calls would
// say `pour_behind` with its five arguments five times, which is no plainer.
#[tactic(auto, using(crate::proofs::Spelling::parts))]
fn pour_part(kept: Remembered, n: usize, omit: bool, b: u8, out: &mut [u8], at: usize) -> usize
    requires { n ≤ 8 }
    ensures value { (result ≡ n + length (sent kept (part omit b))) × (result ≤ n + 2) }
    ensures out_after { out.new ≡ sets out.old (at + n) (sent kept (part omit b)) }
{
    if omit {
        return n;
    }
    n + wire::pour_behind(kept, n, b, out, at)
}

// Whether LoY is left out behind the bytes `a` of the last point: "Extra needs LoY after it, and HiX needs LoY before it".
// The brackets are for speed: without them LoY and Extra are compared in one step ahead of all bytes, and writing takes longer.
#[tactic(auto, using(refusals::proofs::Rules::tests))]
fn omits_lo_y(a: PointBytes, b: PointBytes) -> bool
    ensures { result ≡ omits_lo_y a b }
{
    a.loy == b.loy && (a.extra == b.extra && a.hix == b.hix)
}

// HiY, Extra and LoY, each by value to its place: bytes that are stored to be read again are slow.
fn pour_upper(
    kept: Remembered,
    a: PointBytes,
    b: PointBytes,
    loy: bool,
    out: &mut [u8],
    at: usize,
) -> usize
    ensures value { (result ≡ length (sent kept (upper_bytes a b loy))) × (result ≤ 6) }
    ensures out_after { out.new ≡ sets out.old at (sent kept (upper_bytes a b loy)) }
{
    let one = pour_part(kept, 0, a.hiy == b.hiy, b.hiy, out, at);
    let two = pour_part(kept, one, a.extra == b.extra, b.extra, out, at);
    pour_part(kept, two, loy, b.loy, out, at)
}

// What is sent of a point's bytes `b`, where those of the last point were `a`.
#[tactic(auto, using(crate::proofs::Spelling::parts_size, crate::proofs::Spelling::parts_stand))]
fn pour_bytes(kept: Remembered, a: PointBytes, b: PointBytes, out: &mut [u8], at: usize) -> usize
    ensures { Pours (sent kept (spell_bytes a b)) out.old at result out.new }
{
    let upper = pour_upper(kept, a, b, omits_lo_y(a, b), out, at);
    let most = pour_part(kept, upper, a.hix == b.hix, b.hix, out, at);
    pour_part(kept, most, false, b.lox, out, at)
}

fn are_inside(p: Point, q: Point) -> bool
    ensures { result ≡ inside p && inside q }
{
    memory::is_inside(p) & memory::is_inside(q)
}

// The bytes of a point as far as there is room, and how many they are; of a point outside 0..4095, or from one, none.
#[tactic(auto, using(crate::proofs::Spelling::pourings))]
pub fn pour_point(kept: Remembered, point: Point, out: &mut [u8], at: usize) -> usize
    ensures { Pours (poured (inside kept.point && inside point) (sent kept (spell_point kept.point point))) out.old at result out.new }
{
    if !are_inside(kept.point, point) {
        return 0;
    }
    pour_bytes(kept, bytes_of(kept.point), bytes_of(point), out, at)
}

// 8 for a point or a remembered point outside 0..4095, then 7.
#[tactic(auto, using(crate::proofs::Spelling::writings))]
pub fn write_point(
    kept: Remembered,
    point: Point,
    out: &mut [u8],
    at: usize,
) -> Result<usize, Refusal>
    ensures { Wrote (sent kept (spell_point kept.point point)) (write_point kept point (length out.old) at) out.old at result out.new }
{
    if !are_inside(kept.point, point) {
        return Err(Refusal::NotValid);
    }
    // poured into no room, which finds the length: nothing lent is touched before it is known to fit
    let size = pour_point(kept, point, &mut [], 0);
    let next = wire::room_for(size, out.len(), at)?;
    pour_point(kept, point, out, at);
    Ok(next)
}
