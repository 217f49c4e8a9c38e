// Expanding a macro. Reading a body and entering a named macro call one another; a loop over the body's pieces keeps the stack small.
// First a run that only looks finds the first trouble, the length and the macros entered; then, where all of it fits, one that writes.
#![tactic(auto)]

ghost use Rattle.std.specs.Prelude.{◌≡◌, ◌&&◌, true, length};
ghost use Rattle.refusals.specs.Refusals.{number_of};
ghost use Rattle.refusals.specs.Answers.{answer_of, demand};
ghost use Rattle.macros.specs.Store.{three_bytes, well_formed};
ghost use Rattle.expansion.specs.Expansion.{reached_by, body_stretch, call_stretch, expand_told, expand_out, room_told, room_out, started};
ghost use Rattle.expansion.specs.Running.{Roomy, Ran};

use macros::Stores;
use memory::Remembered;
use pieces::Piece;
use refusals::Refusal;

// "macro call inside a body at depth 8"
const DEEPEST: usize = 8;

// "a 1,025th macro would be entered"
const MOST_ENTERED: usize = 1024;

// How far an expansion has come: "bytes written and macros entered", and what is remembered behind them.
#[derive(Clone, Copy)]
pub struct Expanded {
    pub written: usize,
    pub entered: usize,
    pub kept: Remembered,
}

// Two stores that the start has found well formed.
#[derive(Clone, Copy)]
struct Formed<'a> {
    stores: Stores<'a>,
    ghost first: { well_formed three_bytes stores.volatile.now ≡ true },
    ghost second: { well_formed three_bytes stores.saved.now ≡ true },
}

impl<'a> Formed<'a> {
    // The body of a macro, piece by piece; in it `depth` more macros may be entered one inside the other.
    #[cycle(enter_walk)]
    fn walk(
        self,
        body: &'a [u8],
        depth: usize,
        from: Expanded,
        out: &mut [u8],
    ) -> Result<Expanded, Refusal>
        requires { Roomy from (length body.now) }
        ensures { Ran (body_stretch self.entry.stores.volatile.now self.entry.stores.saved.now depth body.now from.kept from.entered) from.written out.old out.new result }
    {
        let mut going = from;
        let mut i = 0;
        // a `while let` is no plainer: the end is one of three arms
        loop {
            match pieces::piece_at(going.kept, body, i)? {
                Piece::End => return Ok(going),
                Piece::Copied { next, after } => {
                    wire::copy(&body[i..next], out, going.written);
                    going.written += next - i;
                    going.kept = after;
                    i = next;
                }
                Piece::Called {
                    number,
                    next,
                    after,
                } => {
                    let call = Expanded {
                        kept: after,
                        ..going
                    };
                    going = self.enter(number, depth, call, out)?;
                    i = next;
                }
            }
        }
    }

    // A call of a macro: a negative number is 8, then 15, then it is looked up, then 16. Both stores are well formed, so the headers alone are
    // looked at.
    #[cycle(enter_walk)]
    fn enter(
        self,
        number: i32,
        depth: usize,
        from: Expanded,
        out: &mut [u8],
    ) -> Result<Expanded, Refusal>
        requires { Roomy from 0 }
        ensures { Ran (call_stretch self.entry.stores.volatile.now self.entry.stores.saved.now depth number from.kept from.entered) from.written out.old out.new result }
    {
        if signs::is_negative(number) {
            return Err(Refusal::NotValid);
        }
        if depth == 0 {
            return Err(Refusal::TooDeep);
        }
        let body = self.stores.look_by_headers(number);
        if body.len() == 0 {
            return Ok(from);
        }
        if from.entered >= MOST_ENTERED {
            return Err(Refusal::TooManyMacros);
        }
        let inner = Expanded {
            entered: from.entered + 1,
            ..from
        };
        self.walk(body, depth - 1, inner, out)
    }

    // The starting macro: it has depth 1 and is the first entered. Its body is read from what the caller remembers.
    fn run(self, number: i32, kept: Remembered, out: &mut [u8]) -> Result<Expanded, Refusal>
        ensures { Ran (started self.entry.stores.volatile.now self.entry.stores.saved.now number kept) 0 out.old out.new result }
    {
        let start = Expanded {
            written: 0,
            entered: 0,
            kept,
        };
        self.enter(number, DEEPEST, start, out)
    }

    // A run that has no room to write in.
    #[tactic(auto, using(crate::proofs::Answering::runs))]
    fn look(self, number: i32, kept: Remembered) -> Result<Expanded, Refusal>
        ensures { answer_of result ≡ reached_by 0 (started self.entry.stores.volatile.now self.entry.stores.saved.now number kept) }
    {
        self.run(number, kept, &mut [])
    }

    // A macro that is there: the first trouble on the way, then 7.
    fn expand_found(
        self,
        number: i32,
        kept: Remembered,
        out: &mut [u8],
    ) -> Result<Expanded, Refusal>
        ensures result_value { answer_of result ≡ room_told (started self.entry.stores.volatile.now self.entry.stores.saved.now number kept) (length out.old) }
        ensures out_after { out.new ≡ room_out (started self.entry.stores.volatile.now self.entry.stores.saved.now number kept) out.old }
    {
        let end = self.look(number, kept)?;
        if end.written > out.len() {
            return Err(Refusal::TooShort);
        }
        self.run(number, kept, out)
    }
}

// What is given where the remembered point is outside: 12 first, then 8.
fn outside(stores: Stores<'_>) -> Refusal
    ensures { number_of result ≡ demand (well_formed three_bytes stores.entry.volatile.now && well_formed three_bytes stores.entry.saved.now) 12 8 }
{
    if macros::is_well_formed(stores.volatile) && macros::is_well_formed(stores.saved) {
        Refusal::NotValid
    } else {
        Refusal::StoreMalformed
    }
}

// The expansion of a macro. The start first gives 12, 8, 14; nothing is written unless all of it fits.
pub fn expand(
    stores: Stores<'_>,
    number: i32,
    kept: Remembered,
    out: &mut [u8],
) -> Result<Expanded, Refusal>
    ensures result_value { answer_of result ≡ expand_told stores.entry.volatile.now stores.entry.saved.now number kept (length out.old) }
    ensures out_after { out.new ≡ expand_out stores.entry.volatile.now stores.entry.saved.now number kept out.old }
{
    if !memory::is_inside(kept.point) {
        return Err(outside(stores));
    }
    stores.found(number)?;
    let formed = Formed { stores };
    formed.expand_found(number, kept, out)
}
