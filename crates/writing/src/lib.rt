// Writing a command in its shortest spelling. Pouring stores bytes as far as there is room and says how many they are.
#![tactic(auto)]

ghost use Rattle.std.specs.Prelude.{◌≡◌, true, [], ◌∷◌, ◌++◌, ◌≤◌, ◌+◌, length};
ghost use Rattle.std.proofs.lemmas.List.Edits.{sets};
ghost use Rattle.memory.specs.Memory.{inside, remember};
ghost use Rattle.wire.specs.Sending.{sent, write_at, Wrote};
ghost use Rattle.points.specs.Writing.{spell_point};
ghost use Rattle.parameters.specs.Shapes.{list_of, values_of, tail_of};
ghost use Rattle.parameters.specs.Behind.{after_values};
ghost use Rattle.commands.specs.Behind.{after_command};
ghost use Rattle.writable.specs.Writable.{is_entry, are_entries, are_values, is_tail, fits};
ghost use Rattle.writing.specs.Writing.{spell_entry, spell_entries, spell_values, spell_tail, spell_command, write_fitting, write_command, most_written, Poured};

use commands::Command;
use memory::{DelMode, Point, Remembered};
use parameters::{Entry, Parameters};
use refusals::Refusal;

// No command has more bytes: ESC and two letters, fixed parameters of at most 12, a count of at most 4, and 256 entries of at most 4 each.
const MOST_BYTES: usize = 1043;

// What pours takes `kept`, `out` and `at` by themselves, as in `wire`, `spelling` and `points`: a pen of the three, as the crate `lines` has, was tried, and
// misses a bar of speed (by call 17 to 26 % more instructions for an integer).

#[tactic(auto, using(crate::proofs::Pouring::few), unfolding(crate::specs::Writing::spell_entry, wire::specs::Sending::poured))]
fn pour_entry(kept: Remembered, entry: Entry, v: i32, out: &mut [u8], at: usize) -> usize
    requires { is_entry entry v ≡ true }
    ensures { Poured (spell_entry entry kept v) 4 out.old out.new at result }
{
    match entry {
        Entry::AnInteger => spelling::pour_integer(kept, v, out, at),
        Entry::ACharacter => wire::pour_one(kept, characters::byte_of(v), out, at),
    }
}

#[tactic(auto, using(crate::proofs::Pouring::joined, crate::proofs::Pouring::read_back))]
fn pour_two_entries(
    kept: Remembered,
    entry: Entry,
    a: i32,
    b: i32,
    out: &mut [u8],
    at: usize,
) -> usize
    requires { ((is_entry entry a ≡ true) × (is_entry entry b ≡ true)) × (at ≤ 64) }
    ensures { Poured (spell_entry entry kept a ++ spell_entry entry kept b) 8 out.old out.new at result }
{
    let n = pour_entry(kept, entry, a, out, at);
    n + pour_entry(kept, entry, b, out, at + n)
}

#[tactic(auto, using(crate::proofs::Pouring::joined, crate::proofs::Pouring::read_back))]
fn pour_three_integers(kept: Remembered, a: i32, b: i32, d: i32, out: &mut [u8], at: usize) -> usize
    requires { ((is_entry Entry.AnInteger a ≡ true) × ((is_entry Entry.AnInteger b ≡ true) × (is_entry Entry.AnInteger d ≡ true))) × (at ≤ 48) }
    ensures { Poured (spell_entry Entry.AnInteger kept a ++ spell_entry Entry.AnInteger kept b ++ spell_entry Entry.AnInteger kept d) 12 out.old out.new at result }
{
    let n = pour_two_entries(kept, Entry::AnInteger, a, b, out, at);
    n + pour_entry(kept, Entry::AnInteger, d, out, at + n)
}

#[tactic(auto, using(crate::proofs::Pouring::few), unfolding(wire::specs::Sending::poured))]
fn pour_one_point(kept: Remembered, p: Point, out: &mut [u8], at: usize) -> usize
    requires { (inside kept.point ≡ true) × (inside p ≡ true) }
    ensures { Poured (sent kept (spell_point kept.point p)) 6 out.old out.new at result }
{
    points::pour_point(kept, p, out, at)
}

#[tactic(auto, using(crate::proofs::Pouring::joined))]
fn pour_two_points(kept: Remembered, p: Point, q: Point, out: &mut [u8], at: usize) -> usize
    requires { ((inside kept.point ≡ true) × ((inside p ≡ true) × (inside q ≡ true))) × (at ≤ 48) }
    ensures { Poured (sent kept (spell_point kept.point p) ++ sent (remember kept p) (spell_point p q)) 12 out.old out.new at result }
{
    let n = pour_one_point(kept, p, out, at);
    n + pour_one_point(memory::with_point(kept, p), q, out, at + n)
}

// The kinds with one integer have an arm each: the check gives no proof of an arm that binds the integer of several.
#[tactic(auto, using(crate::proofs::Pouring::valued), unfolding(crate::specs::Writing::spell_values, crate::specs::Writing::spell_entry, refusals::specs::Answers::every))]
fn pour_values(kept: Remembered, parameters: Parameters, out: &mut [u8], at: usize) -> usize
    requires { ((inside kept.point ≡ true) × (are_values (values_of parameters) ≡ true)) × (at ≤ 48) }
    ensures { Poured (spell_values kept (values_of parameters)) 12 out.old out.new at result }
{
    match parameters {
        Parameters::OneInteger(a) => pour_entry(kept, Entry::AnInteger, a, out, at),
        Parameters::TwoIntegers(a, b) => pour_two_entries(kept, Entry::AnInteger, a, b, out, at),
        Parameters::ThreeIntegers(a, b, d) => pour_three_integers(kept, a, b, d, out, at),
        Parameters::OnePoint(p) => pour_one_point(kept, p, out, at),
        Parameters::TwoPoints(p, q) => pour_two_points(kept, p, q, out, at),
        Parameters::AReal(real) => {
            pour_two_entries(
                kept,
                Entry::AnInteger,
                real.mantissa,
                real.exponent,
                out,
                at,
            )
        }
        Parameters::TwoCharacters(a, b) => pour_two_entries(kept, Entry::ACharacter, a, b, out, at),
        Parameters::AString | Parameters::AnArray => 0,
        Parameters::IntegerThenString(a) => pour_entry(kept, Entry::AnInteger, a, out, at),
        Parameters::IntegerThenArray(a) => pour_entry(kept, Entry::AnInteger, a, out, at),
    }
}

#[tactic(auto, using(crate::proofs::Lists::turns))]
fn pour_entries(kept: Remembered, entry: Entry, list: &[i32], out: &mut [u8], at: usize) -> usize
    requires { ((are_entries entry list.now ≡ true) × (length list.now ≤ 256)) × (at ≤ 64) }
    ensures { Poured (spell_entries entry kept list.now) 1024 out.old out.new at result }
{
    let mut n = 0;
    for v in list {
        n += pour_entry(kept, entry, *v, out, at + n);
    }
    n
}

// Where each byte is sent as itself the characters are laid all at once.
fn pour_characters(kept: Remembered, list: &[i32], out: &mut [u8], at: usize) -> usize
    requires { ((are_entries Entry.ACharacter list.now ≡ true) × (length list.now ≤ 256)) × (at ≤ 64) }
    ensures { Poured (spell_entries Entry.ACharacter kept list.now) 1024 out.old out.new at result }
{
    if wire::is_plain(kept) {
        characters::copy(list, out, at);
        return list.len();
    }
    pour_entries(kept, Entry::ACharacter, list, out, at)
}

fn pour_all(kept: Remembered, entry: Entry, list: &[i32], out: &mut [u8], at: usize) -> usize
    requires { ((are_entries entry list.now ≡ true) × (length list.now ≤ 256)) × (at ≤ 64) }
    ensures { Poured (spell_entries entry kept list.now) 1024 out.old out.new at result }
{
    match entry {
        Entry::AnInteger => pour_entries(kept, entry, list, out, at),
        Entry::ACharacter => pour_characters(kept, list, out, at),
    }
}

#[tactic(auto, using(crate::proofs::Lists::lists, crate::proofs::Pouring::joined), unfolding(crate::specs::Writing::spell_tail, wire::specs::Sending::poured))]
fn pour_list(kept: Remembered, entry: Entry, list: &[i32], out: &mut [u8], at: usize) -> usize
    requires { (is_tail (list_of entry) list.now ≡ true) × (at ≤ 58) }
    ensures { Poured (spell_tail kept (list_of entry) list.now) 1028 out.old out.new at result }
{
    let n = spelling::pour_count(kept, list.len(), out, at);
    n + pour_all(kept, entry, list, out, at + n)
}

#[tactic(auto, unfolding(crate::specs::Writing::spell_tail, writable::specs::Writable::is_tail))]
fn pour_tail(
    kept: Remembered,
    parameters: Parameters,
    list: &[i32],
    out: &mut [u8],
    at: usize,
) -> usize
    requires { (is_tail (tail_of parameters) list.now ≡ true) × (at ≤ 58) }
    ensures { Poured (spell_tail kept (tail_of parameters) list.now) 1028 out.old out.new at result }
{
    match parameters::tail_of(parameters) {
        Some(entry) => pour_list(kept, entry, list, out, at),
        None => 0,
    }
}

// What is remembered behind the values of a command.
#[tactic(auto, using(crate::proofs::Lists::kept_before))]
fn values_left(kept: Remembered, parameters: Parameters) -> Remembered
    ensures { result ≡ after_values kept (values_of parameters) }
{
    match parameters::last_point(parameters) {
        Some(p) => memory::with_point(kept, p),
        None => kept,
    }
}

// What is remembered behind a command.
#[tactic(auto, unfolding(commands::specs::Behind::after_command))]
pub fn remembered_after(kept: Remembered, command: Command) -> Remembered
    ensures { result ≡ after_command kept command.first command.second (values_of command.parameters) }
{
    let parameters = command.parameters;
    let left = values_left(kept, parameters);
    commands::after_parameters(left, command.first, command.second, parameters)
}

// ESC and two letters, each as it stands: no letter is ever sent as a pair.
#[tactic(auto, using(crate::proofs::Lists::head_stored))]
fn store_head(first: u8, second: u8, out: &mut [u8])
    ensures { out.new ≡ sets out.old 0 (27 ∷ first ∷ second ∷ []) }
{
    wire::store_behind(0, 27, out, 0);
    wire::store_behind(1, first, out, 0);
    wire::store_behind(2, second, out, 0);
}

// All bytes of a command that may be written.
#[tactic(auto, using(crate::proofs::Lists::commands, crate::proofs::Pouring::joined), unfolding(crate::specs::Writing::spell_command, crate::specs::Writing::spell_parameters))]
fn pour_command(kept: Remembered, command: Command, list: &[i32], out: &mut [u8]) -> usize
    requires { fits kept command.parameters list.now ≡ true }
    ensures { Poured (spell_command kept command list.now) 1043 out.old out.new 0 result }
{
    let parameters = command.parameters;
    store_head(command.first, command.second, out);
    let next = 3 + pour_values(kept, parameters, out, 3);
    // the values leave the mode, and a tail is spelled by the mode alone
    next + pour_tail(kept, parameters, list, out, next)
}

// What a command may need, by the mode: less where a 127 is data, so that there a shorter output is poured into at once.
#[tactic(auto, unfolding(crate::specs::Writing::most_written))]
fn most_bytes(mode: DelMode) -> usize
    ensures { result ≡ most_written mode }
{
    match mode {
        DelMode::Data => 792,
        DelMode::Filler => MOST_BYTES,
    }
}

// A command that may be written, from the front of `out` on, or 7.
#[tactic(auto, using(crate::proofs::Lists::sendings))]
fn send(kept: Remembered, command: Command, list: &[i32], out: &mut [u8]) -> Result<usize, Refusal>
    requires { fits kept command.parameters list.now ≡ true }
    ensures { Wrote (spell_command kept command list.now) (write_at (spell_command kept command list.now) (length out.old) 0) out.old 0 result out.new }
{
    if out.len() >= most_bytes(kept.mode) {
        return Ok(pour_command(kept, command, list, out));
    }
    // where there may be too little room, the bytes wait apart until it is known how many they are; an array with its size beside it, since memory is
    // fixed
    let mut bytes = [0u8; MOST_BYTES];
    let size = pour_command(kept, command, list, &mut bytes);
    wire::write_bytes(&bytes[..size], out, 0)
}

// The command's shortest spelling from the front of `out` on: 8 for what may not be written, then 7.
#[tactic(auto, unfolding(refusals::specs::Answers::answer_of, wire::specs::Sending::write_if, wire::specs::Sending::after_write, writable::specs::Writable::is_command))]
pub fn write_command(
    kept: Remembered,
    command: Command,
    list: &[i32],
    out: &mut [u8],
) -> Result<usize, Refusal>
    ensures { Wrote (spell_command kept command list.now) (write_command kept command list.now (length out.old)) out.old 0 result out.new }
{
    if !writable::is_writable(kept, command, list) {
        return Err(Refusal::NotValid);
    }
    send(kept, command, list, out)
}

// The same where the letters were found in the table and gave the kind of the parameters: they are sent as they stand. The two differ in the test alone,
// and one function that takes it would be no plainer.
#[tactic(auto, unfolding(refusals::specs::Answers::answer_of, wire::specs::Sending::write_if, wire::specs::Sending::after_write))]
pub fn write_fitting(
    kept: Remembered,
    command: Command,
    list: &[i32],
    out: &mut [u8],
) -> Result<usize, Refusal>
    ensures { Wrote (spell_command kept command list.now) (write_fitting kept command list.now (length out.old)) out.old 0 result out.new }
{
    if !writable::parameters_fit(kept, command.parameters, list) {
        return Err(Refusal::NotValid);
    }
    send(kept, command, list, out)
}
