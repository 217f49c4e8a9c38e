// The stream's calls for programs in other languages (include/ardhrumesh.h): the next item, and writing a command. The answer is a number,
// what goes with it is written to lent slots, and what is remembered is one lent array: the point's x and y, and the DEL mode, 0 or 1. Kinds and
// refusals are numbers in the C interface.
#![tactic(auto)]

ghost use Rattle.std.specs.Prelude.{◌≡◌, length};
ghost use Rattle.parameters.specs.Shapes.{values_of};
ghost use Rattle.parameters.specs.Numbers.{four_of};
ghost use Rattle.parameters.specs.Behind.{after_values};
ghost use Rattle.writable.specs.Writable.{kind_for, kind_number};
ghost use Rattle.writing.specs.Writing.{write_fitting, write_command};
ghost use Rattle.table.specs.Table.{kind_meant};
ghost use Rattle.stream_calls.specs.Slots.{command_fields, NextItem};
ghost use Rattle.stream_calls.specs.Given.{of_kind, command_given, kept_behind, Writes, WrittenCommand};

use commands::{Command, TakenCommand};
use memory::Remembered;
use parameters::{Parameters, Real};
use refusals::Refusal;
use stream::Item;
use table::Kind;

// "0 means done"
const DONE: u8 = 0;

// ---- the next item

// A whole command's slots: what it is, the next start, no refusal's place, its letters, the kind of its parameters, its entries.
fn command_fields(taken: TakenCommand) -> [usize; 7]
    ensures { result ≡ command_fields taken.command.first taken.command.second (kind_number (kind_for taken.command.parameters)) taken.count taken.next }
{
    let Command {
        first,
        second,
        parameters,
    } = taken.command;
    let kind = writable::kind_number(writable::kind_of_parameters(parameters));
    [
        2,
        taken.next,
        0,
        usize::from(first),
        usize::from(second),
        usize::from(kind),
        taken.count,
    ]
}

fn four_of(parameters: Parameters) -> [i32; 4]
    ensures { result ≡ four_of (values_of parameters) }
{
    parameters::numbers_of(parameters).values
}

// Only a command that was read changes what is remembered.
#[tactic(auto, using(refusals::proofs::Rules::tests, crate::proofs::Items::kind_slot_lem), unfolding(stream::specs::Items::item_of, crate::specs::Slots::item_number, crate::specs::Slots::item_fields, crate::specs::Slots::item_values, crate::specs::Slots::remembered_after))]
pub fn ardh_next_item(
    bytes: &[u8],
    start: usize,
    remembered: &mut [u16; 3],
    list: &mut [i32],
    item: &mut [usize; 7],
    values: &mut [i32; 4],
) -> u8
    ensures { NextItem remembered.old bytes.now start list.old result item.new values.new remembered.new list.new }
{
    let kept = coordinates::kept_in(remembered);
    *values = [0; 4];
    match stream::read_item(kept, bytes, start, list) {
        Item::Nothing => {
            *item = [0; 7];
            DONE
        }
        Item::Text(text) => {
            *item = [1, text.next, 0, usize::from(text.byte), 0, 0, 0];
            DONE
        }
        Item::Del(del) => {
            *item = [5, del.next, 0, 0, 0, 0, 0];
            DONE
        }
        Item::Command(taken) => {
            *item = command_fields(taken);
            *values = four_of(taken.command.parameters);
            *remembered = coordinates::slots_of(taken.kept);
            DONE
        }
        Item::RefusedCommand(refused) => {
            *item = [3, refused.next, refused.place, 0, 0, 0, 0];
            refused.refusal.number()
        }
        Item::Refused(refused) => {
            *item = [4, 0, refused.place, 0, 0, 0, 0];
            refused.refusal.number()
        }
    }
}

// ---- writing a command

#[tactic(auto, using(crate::proofs::Writing::point_of), unfolding(crate::specs::Given::of_kind))]
fn of_kind(kind: Kind, v: &[i32; 4]) -> Parameters
    ensures { result ≡ of_kind (kind_meant kind) v.now }
{
    let [a, b, c, d] = *v;
    match kind {
        Kind::OneInteger => Parameters::OneInteger(a),
        Kind::TwoIntegers => Parameters::TwoIntegers(a, b),
        Kind::ThreeIntegers => Parameters::ThreeIntegers(a, b, c),
        Kind::OnePoint => Parameters::OnePoint(coordinates::point_given(a, b)),
        Kind::TwoPoints => Parameters::TwoPoints(
            coordinates::point_given(a, b),
            coordinates::point_given(c, d),
        ),
        Kind::AReal => Parameters::AReal(Real {
            mantissa: a,
            exponent: b,
        }),
        Kind::AString => Parameters::AString,
        Kind::AnArray => Parameters::AnArray,
        Kind::IntegerThenArray => Parameters::IntegerThenArray(a),
        Kind::IntegerThenString => Parameters::IntegerThenString(a),
        Kind::TwoCharacters => Parameters::TwoCharacters(a, b),
    }
}

// What is remembered behind the values of a kind. It is made of the numbers: fetched from the parameters, where a point lies across the places
// of integers, it would wait for them.
#[tactic(auto, using(crate::proofs::Writing::point_of), unfolding(crate::specs::Given::of_kind, parameters::specs::Behind::after_values))]
fn kept_behind(kept: Remembered, kind: Kind, v: &[i32; 4]) -> Remembered
    ensures { result ≡ after_values kept (values_of (of_kind (kind_meant kind) v.now)) }
{
    let [a, b, c, d] = *v;
    match kind {
        Kind::OnePoint => memory::with_point(kept, coordinates::point_given(a, b)),
        Kind::TwoPoints => memory::with_point(kept, coordinates::point_given(c, d)),
        Kind::OneInteger
        | Kind::TwoIntegers
        | Kind::ThreeIntegers
        | Kind::AReal
        | Kind::AString
        | Kind::AnArray
        | Kind::IntegerThenArray
        | Kind::IntegerThenString
        | Kind::TwoCharacters => kept,
    }
}

// How many bytes were written, and what is remembered behind them.
#[derive(Clone, Copy)]
struct Sent {
    size: usize,
    kept: Remembered,
}

// Writes a command whose letters are known to have such parameters; `behind` is what is remembered then.
#[tactic(auto, unfolding(refusals::specs::Answers::answer_of, crate::specs::Given::sent_behind))]
fn write_known(
    kept: Remembered,
    command: Command,
    behind: Remembered,
    list: &[i32],
    out: &mut [u8],
) -> Result<Sent, Refusal>
    requires { behind ≡ kept_behind kept command }
    ensures { Writes kept command list.now out.old (write_fitting kept command list.now (length out.old)) result out.new }
{
    let size = writing::write_fitting(kept, command, list, out)?;
    Ok(Sent { size, kept: behind })
}

// Writes the command that letters and four numbers stand for. The table is looked at once.
fn write_given(
    kept: Remembered,
    first: u8,
    second: u8,
    v: &[i32; 4],
    list: &[i32],
    out: &mut [u8],
) -> Result<Sent, Refusal>
    ensures { Writes kept (command_given first second v.now) list.now out.old (write_command kept (command_given first second v.now) list.now (length out.old)) result out.new }
{
    let Some(kind) = table::kind_of(first, second) else {
        return Err(Refusal::NotValid);
    };
    let parameters = of_kind(kind, v);
    let left = kept_behind(kept, kind, v);
    let behind = commands::after_parameters(left, first, second, parameters);
    let command = Command {
        first,
        second,
        parameters,
    };
    write_known(kept, command, behind, list, out)
}

// Only a command that was written changes what is remembered.
#[tactic(auto, unfolding(refusals::specs::Answers::answer_of, crate::specs::Given::sent_behind, refusals::specs::Answers::number, refusals::specs::Answers::value_or, crate::specs::Given::slots_after))]
pub fn ardh_write_command(
    first: u8,
    second: u8,
    values: &[i32; 4],
    list: &[i32],
    remembered: &mut [u16; 3],
    out: &mut [u8],
    written: &mut usize,
) -> u8
    ensures { WrittenCommand remembered.old (command_given first second values.now) list.now out.old result written.new remembered.new out.new }
{
    let kept = coordinates::kept_in(remembered);
    match write_given(kept, first, second, values, list, out) {
        Ok(sent) => {
            *remembered = coordinates::slots_of(sent.kept);
            *written = sent.size;
            DONE
        }
        Err(e) => {
            *written = 0;
            e.number()
        }
    }
}
