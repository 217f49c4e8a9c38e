// The listing of a capture: the lines of all its items in order, and the last line. It is poured twice: once on no bytes, to learn how long
// it is, and, where it fits, once on the lent ones.
#![tactic(auto)]

ghost use Rattle.std.specs.Prelude.{◌≡◌, length};
ghost use Rattle.wire.specs.Sending.{write_at, Wrote};
ghost use Rattle.stream.specs.Items.{item_of, next_start, next_kept};
ghost use Rattle.lines.specs.Pouring.{Put};
ghost use Rattle.listing.specs.Listing.{lines_of, listing_with, listing_of};

use memory::Remembered;
use refusals::Refusal;
use stream::Item;

// "It reads up to 4,096 bytes of standard input": what stands behind them tells only that more follows.
const MOST_BYTES: usize = 4096;

// Where the next item starts: where this one ends.
#[tactic(auto, unfolding(stream::specs::Items::item_of, stream::specs::Items::next_start))]
fn next_start(item: Item, start: usize) -> usize
    ensures { result ≡ next_start start (item_of item) }
{
    match item {
        Item::Text(text) => text.next,
        Item::Del(del) => del.next,
        Item::Command(taken) => taken.next,
        Item::RefusedCommand(refused) => refused.next,
        Item::Nothing | Item::Refused(_) => start,
    }
}

// What is remembered there: "The remembered point after a refused command is that before it."
#[tactic(auto, unfolding(stream::specs::Items::item_of, stream::specs::Items::next_kept))]
fn next_kept(item: Item, kept: Remembered) -> Remembered
    ensures { result ≡ next_kept kept (item_of item) }
{
    match item {
        Item::Command(taken) => taken.kept,
        Item::RefusedCommand(refused) => refused.kept,
        _ => kept,
    }
}

// The lines of the items of `s`. Each item takes a byte at least, so there are no more items than bytes.
fn put_lines(s: &[u8], out: &mut [u8]) -> usize
    ensures { Put out.old 0 (lines_of s.now) result out.new }
{
    let mut list = [0; 256];
    let mut kept = memory::fresh();
    let mut start = 0;
    let mut at = 0;
    for _ in 0..s.len() {
        let item = stream::read_item(kept, s, start, &mut list);
        at = lines::put_line(item, start, &list, out, at);
        start = next_start(item, start);
        kept = next_kept(item, kept);
    }
    at
}

// The bytes read, "taken as the whole": their items' lines, and the last line.
fn put_listing(s: &[u8], more: bool, out: &mut [u8]) -> usize
    ensures { Put out.old 0 (listing_with more s.now) result out.new }
{
    let at = put_lines(s, out);
    lines::put_last(more, s.len(), out, at)
}

fn write_listing(s: &[u8], more: bool, out: &mut [u8]) -> Result<usize, Refusal>
    ensures { Wrote (listing_with more s.now) (write_at (listing_with more s.now) (length out.old) 0) out.old 0 result out.new }
{
    let size = put_listing(s, more, &mut out[..0]);
    if size > out.len() {
        return Err(Refusal::TooShort);
    }
    Ok(put_listing(s, more, out))
}

// The listing of `input`, of which the first 4,096 bytes are read, or 7.
pub fn listing(input: &[u8], out: &mut [u8]) -> Result<usize, Refusal>
    ensures { Wrote (listing_of input.now) (write_at (listing_of input.now) (length out.old) 0) out.old 0 result out.new }
{
    if input.len() > MOST_BYTES {
        return write_listing(&input[..MOST_BYTES], true, out);
    }
    write_listing(input, false, out)
}
