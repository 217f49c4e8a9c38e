// The items of a host stream: text, DELs, commands and refused commands, one after the other.
#![tactic(auto)]

ghost use Rattle.std.specs.Prelude.{◌≡◌, length};
ghost use Rattle.stream.specs.Items.{item_of, is_filler, byte_item, command_item, item_at, told_item, after_item, passed_from};

use commands::TakenCommand;
use memory::{DelMode, Remembered};
use refusals::{Refusal, RefusedAt};

// A byte outside commands, and where the next item starts.
#[derive(Clone, Copy)]
pub struct TextItem {
    pub byte: u8,
    pub next: usize,
}

// A refused command: the refusal, its place, where the next item starts, and what is remembered, as before it.
#[derive(Clone, Copy)]
pub struct RefusedItem {
    pub refusal: Refusal,
    pub place: usize,
    pub next: usize,
    pub kept: Remembered,
}

// A DEL between commands, in the mode after KI 1, and where the next item starts.
#[derive(Clone, Copy)]
pub struct DelItem {
    pub next: usize,
}

// It is no Option in a Result: `lines::put_line` answers on each of these, and rows of the sheet hold it to that (crates/sheet/specs/LineRows.antt).
#[derive(Clone, Copy)]
pub enum Item {
    // no item is left
    Nothing,
    Text(TextItem),
    Del(DelItem),
    // a command, with its `parameters::Parameters`
    Command(TakenCommand),
    RefusedCommand(RefusedItem),
    // nothing was read and there is no item
    Refused(RefusedAt),
}

// The first place from `at` on that holds an ESC, or the end. `wire::behind_dels` is the same loop with another test: one function of both would take
// the test as a closure, with a promise about it, which is no plainer than these four lines.
#[tactic(auto, using(crate::proofs::Reading::passing))]
fn next_escape(s: &[u8], at: usize) -> usize
    ensures { result ≡ passed_from s.now at }
{
    for i in at..s.len() {
        if s[i] == 27 {
            return i;
        }
    }
    at.max(s.len())
}

// Whether a byte outside commands is a DEL that makes an item of its own.
#[tactic(auto, using(refusals::proofs::Rules::tests), unfolding(crate::specs::Items::is_filler))]
fn is_filler(mode: DelMode, b: u8) -> bool
    ensures { result ≡ is_filler mode b }
{
    mode == DelMode::Filler && b == 127
}

// A byte outside commands.
#[tactic(auto, using(refusals::proofs::Rules::tests), unfolding(crate::specs::Items::item_of, crate::specs::Items::told_item))]
fn byte_item(mode: DelMode, b: u8, next: usize) -> Item
    ensures { item_of result ≡ told_item (byte_item mode b next) }
{
    if is_filler(mode, b) {
        return Item::Del(DelItem { next });
    }
    Item::Text(TextItem { byte: b, next })
}

// The item that starts with the ESC at `start`. The list's being too short makes no item.
#[tactic(auto, using(crate::proofs::Reading::escape_items))]
fn command_item(kept: Remembered, s: &[u8], start: usize, list: &mut [i32]) -> Item
    ensures { (item_of result ≡ told_item (command_item kept s.now start (length list.old))) × (list.new ≡ after_item (command_item kept s.now start (length list.old)) list.old) }
{
    match commands::read_command(kept, s, start, list) {
        Ok(taken) => Item::Command(taken),
        Err(e) if e.refusal == Refusal::TooShort => Item::Refused(e),
        Err(e) => Item::RefusedCommand(RefusedItem {
            refusal: e.refusal,
            place: e.place,
            next: next_escape(s, e.place),
            kept,
        }),
    }
}

// The item that starts at `start`. First 8 at place 0 for a start past the end or a remembered point outside 0..4095.
#[tactic(auto, using(refusals::proofs::Rules::tests), unfolding(crate::specs::Items::item_of, crate::specs::Items::told_item, crate::specs::Items::item_at, crate::specs::Items::after_item))]
pub fn read_item(kept: Remembered, s: &[u8], start: usize, list: &mut [i32]) -> Item
    ensures { (item_of result ≡ told_item (item_at kept s.now start (length list.old))) × (list.new ≡ after_item (item_at kept s.now start (length list.old)) list.old) }
{
    if start > s.len() || !memory::is_inside(kept.point) {
        return Item::Refused(Refusal::NotValid.at(0));
    }
    if start == s.len() {
        return Item::Nothing;
    }
    let b = s[start];
    if b == 27 {
        return command_item(kept, s, start, list);
    }
    byte_item(kept.mode, b, start + 1)
}
