// The pieces of a macro's body: what expanding needs to know of each item, and no more. The entries of an array or a string are not
// asked for, so that no list is lent for them.
#![tactic(auto)]

ghost use Rattle.std.specs.Prelude.{◌≡◌, Ok};
ghost use Rattle.ranges.specs.Ranges.{most_entries};
ghost use Rattle.parameters.specs.Shapes.{values_of};
ghost use Rattle.stream.specs.Items.{command_item, told_item};
ghost use Rattle.pieces.specs.Pieces.{is_call, command_piece, item_piece, is_byte, piece_at, piece_of};

use commands::TakenCommand;
use memory::Remembered;
use refusals::Refusal;

#[derive(Clone, Copy)]
pub enum Piece {
    // no item is left
    End,
    // text, a DEL, or any command but KX: where the next item starts, and what is then remembered
    Copied {
        next: usize,
        after: Remembered,
    },
    // KX: its number, where the next item starts, and what is then remembered
    Called {
        number: i32,
        next: usize,
        after: Remembered,
    },
}

// The letters of a macro's call. `commands` tests those of KI so too: one function that takes the letters as well is no plainer than the line.
fn is_call(first: u8, second: u8) -> bool
    ensures { result ≡ is_call first second }
{
    first == b'K' && second == b'X'
}

#[tactic(auto, using(crate::proofs::Reading::calls))]
fn command_piece(taken: TakenCommand) -> Piece
    ensures { piece_of (Ok result) ≡ command_piece taken.command.first taken.command.second (values_of taken.command.parameters) taken.next taken.kept }
{
    let command = taken.command;
    let next = taken.next;
    let after = taken.kept;
    if is_call(command.first, command.second) {
        let number = commands::leading_number(command.parameters);
        Piece::Called {
            number,
            next,
            after,
        }
    } else {
        Piece::Copied { next, after }
    }
}

// The piece of the command whose ESC is at `start`. "macro body holds a refused or cut command": 17, whichever refusal and place it has.
#[tactic(auto, using(crate::proofs::Reading::escapes))]
fn piece_at_escape(kept: Remembered, body: &[u8], start: usize) -> Result<Piece, Refusal>
    ensures { piece_of result ≡ item_piece kept (told_item (command_item kept body.now start most_entries)) }
{
    match commands::skim_command(kept, body, start) {
        Ok(taken) => Ok(command_piece(taken)),
        Err(_) => Err(Refusal::BodyRefused),
    }
}

// "Outside commands each byte but 27 is a text item", or a DEL: whether one starts at `start`, from a remembered point inside.
#[tactic(auto, using(refusals::proofs::Rules::tests), unfolding(crate::specs::Pieces::is_byte))]
fn is_byte(kept: Remembered, body: &[u8], start: usize) -> bool
    ensures { result ≡ is_byte kept body.now start }
{
    start < body.len() && body[start] != 27 && memory::is_inside(kept.point)
}

// The piece of a body that starts at `start`. Most are bytes outside commands, so that these are asked for first. 17 is the one refusal.
#[tactic(auto, using(crate::proofs::Reading::places))]
pub fn piece_at(kept: Remembered, body: &[u8], start: usize) -> Result<Piece, Refusal>
    ensures { piece_of result ≡ piece_at kept body.now start }
{
    if is_byte(kept, body, start) {
        return Ok(Piece::Copied {
            next: start + 1,
            after: kept,
        });
    }
    if start > body.len() || !memory::is_inside(kept.point) {
        return Err(Refusal::BodyRefused);
    }
    if start == body.len() {
        return Ok(Piece::End);
    }
    piece_at_escape(kept, body, start)
}
