// The report calls for programs in other languages (include/ardhrumesh.h): the answer is a number, and what goes with it is written to lent slots.
#![tactic(auto)]

ghost use Rattle.std.specs.Prelude.{◌≡◌, length};
ghost use Rattle.refusals.specs.Answers.{answer_of};
ghost use Rattle.wire.specs.Sending.{after_write};
ghost use Rattle.reports.specs.Reading.{report_at, string_at, after_string};
ghost use Rattle.reports.specs.Writing.{spell_report, write_report, spell_string, write_string};
ghost use Rattle.report_calls.specs.Promises.{HandsInteger, HandsString, HandsWriting};

use refusals::Refusal;

#[tactic(auto, unfolding(refusals::specs::Answers::answer_at, refusals::specs::Answers::number, refusals::specs::Answers::value_or, refusals::specs::Answers::place_of))]
pub fn ardh_read_integer_report(
    bytes: &[u8],
    start: usize,
    value: &mut i32,
    place: &mut usize,
) -> u8
    ensures { HandsInteger (report_at bytes.now start) result value.new place.new }
{
    match reports::read_integer(bytes, start) {
        Ok(integer) => {
            *value = integer.value;
            *place = integer.next;
            0
        }
        Err(e) => {
            *value = 0;
            *place = e.place;
            e.refusal.number()
        }
    }
}

// As for an integer, but a list and its count: for both, a helper would take a pair, its default and two slots, which is no plainer.
#[tactic(auto, unfolding(refusals::specs::Answers::answer_at, refusals::specs::Answers::number, refusals::specs::Answers::value_or, refusals::specs::Answers::place_of))]
pub fn ardh_read_string_report(
    bytes: &[u8],
    start: usize,
    list: &mut [i32],
    count: &mut usize,
    place: &mut usize,
) -> u8
    ensures hands_string { HandsString (string_at bytes.now start (length list.old)) result count.new place.new }
    ensures list_after { list.new ≡ after_string (string_at bytes.now start (length list.old)) bytes.now start list.old }
{
    match reports::read_string(bytes, start, list) {
        Ok(string) => {
            *count = string.count;
            *place = string.next;
            0
        }
        Err(e) => {
            *count = 0;
            *place = e.place;
            e.refusal.number()
        }
    }
}

// What a writing answers: a number, and where the next byte goes, or 0.
#[tactic(auto, unfolding(refusals::specs::Answers::answer_of, refusals::specs::Answers::number, refusals::specs::Answers::value_or))]
fn hand_writing(written: Result<usize, Refusal>, next: &mut usize) -> u8
    ensures { HandsWriting (answer_of written) result next.new }
{
    match written {
        Ok(end) => {
            *next = end;
            0
        }
        Err(e) => {
            *next = 0;
            e.number()
        }
    }
}

pub fn ardh_write_integer_report(value: i32, out: &mut [u8], start: usize, next: &mut usize) -> u8
    ensures hands_writing { HandsWriting (write_report value (length out.old) start) result next.new }
    ensures out_after { out.new ≡ after_write (write_report value (length out.old) start) (spell_report value) out.old start }
{
    hand_writing(reports::write_integer(value, out, start), next)
}

pub fn ardh_write_string_report(list: &[i32], out: &mut [u8], start: usize, next: &mut usize) -> u8
    ensures hands_writing { HandsWriting (write_string list.now (length out.old) start) result next.new }
    ensures out_after { out.new ≡ after_write (write_string list.now (length out.old) start) (spell_string list.now) out.old start }
{
    hand_writing(reports::write_string(list, out, start), next)
}
