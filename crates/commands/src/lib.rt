// A whole command, read: ESC, two capital letters, then its parameters.
#![tactic(auto)]

ghost use Rattle.std.specs.Prelude.{◌≡◌, length};
ghost use Rattle.refusals.specs.Answers.{answer_at};
ghost use Rattle.ranges.specs.Ranges.{most_entries};
ghost use Rattle.parameters.specs.Shapes.{values_of};
ghost use Rattle.commands.specs.Behind.{leading, is_ignore_deletes, mode_by, after_letters};
ghost use Rattle.commands.specs.Reading.{letter_at, letters_of, head_of, second_at, head_at, command_of_letters, body_at, command_of, command_at, told, after_entries};

use memory::{DelMode, Remembered};
use parameters::{Parameters, TakenParameters};
use refusals::{Refusal, RefusedAt, Taken};
use table::Kind;

#[derive(Clone, Copy)]
pub struct Command {
    pub first: u8,
    pub second: u8,
    pub parameters: Parameters,
}

// A command that was read, how many entries it has, where reading goes on, and what is then remembered.
#[derive(Clone, Copy)]
pub struct TakenCommand {
    pub command: Command,
    pub count: usize,
    pub next: usize,
    pub kept: Remembered,
}

// Two letters, the kind of their parameters, and where these start.
#[derive(Clone, Copy)]
struct TakenLetters {
    first: u8,
    second: u8,
    kind: Kind,
    next: usize,
}

// An op letter. There are no pairs among the letters.
#[tactic(auto, using(refusals::proofs::Rules::tests), unfolding(refusals::specs::Answers::answer_at, crate::specs::Reading::letter_here))]
fn letter(mode: DelMode, s: &[u8], at: usize) -> Result<Taken<u8>, RefusedAt>
    ensures { answer_at result ≡ letter_at mode s.now at }
{
    let place = wire::past_dels(mode, s, at);
    if place >= s.len() {
        return Err(Refusal::BytesEnd.at(s.len()));
    }
    let b = s[place];
    if b == 27 {
        return Err(Refusal::NewEscape.at(place));
    }
    Ok(Taken {
        value: b,
        place,
        next: place + 1,
    })
}

#[tactic(auto, unfolding(refusals::specs::Answers::answer_at, crate::specs::Reading::head_of, crate::specs::Reading::second_at, table::specs::Table::found_of))]
fn second_letter(mode: DelMode, first: u8, s: &[u8], at: usize) -> Result<TakenLetters, RefusedAt>
    ensures { head_of result ≡ second_at mode first s.now at }
{
    let second = letter(mode, s, at)?;
    let Some(kind) = table::kind_of(first, second.value) else {
        return Err(Refusal::UnknownCommand.at(second.place));
    };
    Ok(TakenLetters {
        first,
        second: second.value,
        kind,
        next: second.next,
    })
}

// The two letters behind the ESC.
#[tactic(auto, using(refusals::proofs::Rules::tests), unfolding(refusals::specs::Answers::answer_at, crate::specs::Reading::head_of, crate::specs::Reading::head_at))]
fn head(mode: DelMode, s: &[u8], at: usize) -> Result<TakenLetters, RefusedAt>
    ensures { head_of result ≡ head_at mode s.now at }
{
    let first = letter(mode, s, at)?;
    if table::begins_command(first.value) {
        return second_letter(mode, first.value, s, first.next);
    }
    Err(Refusal::UnknownCommand.at(first.place))
}

// ---- what is remembered behind a command

// The first number of a command; the parameters of KI and of KX are one integer.
#[tactic(auto, using(crate::proofs::Modes::leads))]
pub fn leading_number(parameters: Parameters) -> i32
    ensures { result ≡ leading (values_of parameters) }
{
    parameters::numbers_of(parameters).values[0]
}

// The letters of IGNORE DELETES.
#[tactic(auto, using(refusals::proofs::Rules::tests))]
fn is_ignore_deletes(first: u8, second: u8) -> bool
    ensures { result ≡ is_ignore_deletes first second }
{
    first == b'K' && second == b'I'
}

// The mode behind KI with this number.
#[tactic(auto, using(refusals::proofs::Rules::tests), unfolding(crate::specs::Behind::mode_by))]
fn mode_by(mode: DelMode, number: i32) -> DelMode
    ensures { result ≡ mode_by mode number }
{
    match number {
        0 => DelMode::Data,
        1 => DelMode::Filler,
        _ => mode,
    }
}

// What is remembered behind a command with these letters and this first number, whose values left `kept`.
#[tactic(auto, using(crate::proofs::Modes::ki_moves, crate::proofs::Modes::others_keep))]
pub fn after_letters(kept: Remembered, first: u8, second: u8, number: i32) -> Remembered
    ensures { result ≡ after_letters kept first second number }
{
    if is_ignore_deletes(first, second) {
        return memory::with_mode(kept, mode_by(kept.mode, number));
    }
    kept
}

// The same where the first number is still in the parameters: only KI is asked for it, so that the others need not be made into numbers.
#[tactic(auto, using(crate::proofs::Modes::ki_behind, crate::proofs::Modes::others_keep))]
pub fn after_parameters(
    kept: Remembered,
    first: u8,
    second: u8,
    parameters: Parameters,
) -> Remembered
    ensures { result ≡ after_letters kept first second (leading (values_of parameters)) }
{
    if is_ignore_deletes(first, second) {
        return after_letters(kept, first, second, leading_number(parameters));
    }
    kept
}

// ---- the whole command

// The command of two letters and the parameters that were read behind them.
#[tactic(auto, unfolding(crate::specs::Reading::command_of_letters))]
fn with_letters(first: u8, second: u8, taken: TakenParameters) -> TakenCommand
    ensures { result ≡ command_of_letters first second taken }
{
    let parameters = taken.parameters;
    TakenCommand {
        command: Command {
            first,
            second,
            parameters,
        },
        count: taken.run.count,
        next: taken.run.next,
        kept: after_parameters(taken.kept, first, second, parameters),
    }
}

// The parameters of the command whose ESC is at `start` and whose letters are known.
fn body(
    kept: Remembered,
    letters: TakenLetters,
    s: &[u8],
    start: usize,
    list: &mut [i32],
) -> Result<TakenCommand, RefusedAt>
    ensures { (command_of result ≡ told (body_at kept (letters_of letters) s.now start (length list.old))) × (list.new ≡ after_entries (body_at kept (letters_of letters) s.now start (length list.old)) list.old) }
{
    let room = list.len();
    let taken = parameters::look_at(kept, letters.kind, s, letters.next, list)?;
    if taken.run.count > room {
        return Err(Refusal::TooShort.at(start));
    }
    Ok(with_letters(letters.first, letters.second, taken))
}

// The command whose ESC is at `start`: 1 to 6 with their places, or 8 at 0 where a point is to be read and the remembered one is outside 0..4095; then 7
// at the start. Nothing lent is touched before all is known to be good.
pub fn read_command(
    kept: Remembered,
    s: &[u8],
    start: usize,
    list: &mut [i32],
) -> Result<TakenCommand, RefusedAt>
    ensures { (command_of result ≡ told (command_at kept s.now start (length list.old))) × (list.new ≡ after_entries (command_at kept s.now start (length list.old)) list.old) }
{
    if start >= s.len() {
        return Err(Refusal::BytesEnd.at(s.len()));
    }
    let letters = head(kept.mode, s, start + 1)?;
    body(kept, letters, s, start, list)
}

// ---- the same where the entries are of no interest: none is handed over and none lacks room. Functions of their own: with a list lent for nothing
// expanding is slower (docs/BENCHMARKS.md).

// Read as in room for 256 entries, the most that a command has: 7 does not come, and the start, which would be its place, is not asked for. The list
// lent here has no room, so nothing is handed over.
fn skim_body(kept: Remembered, letters: TakenLetters, s: &[u8]) -> Result<TakenCommand, RefusedAt>
    ensures { command_of result ≡ told (body_at kept (letters_of letters) s.now 0 most_entries) }
{
    let taken = parameters::look_at(kept, letters.kind, s, letters.next, &mut [])?;
    Ok(with_letters(letters.first, letters.second, taken))
}

// The command whose ESC is at `start`, or its refusal and place, as `read_command` gives them in room for the most entries.
pub fn skim_command(kept: Remembered, s: &[u8], start: usize) -> Result<TakenCommand, RefusedAt>
    ensures { command_of result ≡ told (command_at kept s.now start most_entries) }
{
    if start >= s.len() {
        return Err(Refusal::BytesEnd.at(s.len()));
    }
    let letters = head(kept.mode, s, start + 1)?;
    skim_body(kept, letters, s)
}
