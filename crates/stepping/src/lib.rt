// The operator's desk lends its beam record: one call moves the beam one place in that record.
#![tactic(auto)]

ghost use Rattle.std.specs.Prelude.{◌≡◌};
ghost use Rattle.refusals.specs.Answers.{refusal_of};
ghost use Rattle.beam.specs.Settings.{make_step};

use beam::{Beam, Size};
use refusals::Refusal;

// "moves the beam one place in that record, changes no other field, and is refused with 11 for W or H outside 1..512, then with 8 on a record that is
// not valid". Where it is refused, the record stays as it came.
#[tactic(auto, unfolding(beam::specs::Settings::settled_by, refusals::specs::Answers::refusal_of))]
pub fn step(beam: &mut Beam, size: Size) -> Result<(), Refusal>
    ensures { (refusal_of result ≡ (make_step size.w size.h beam.old).number) × (beam.new ≡ (make_step size.w size.h beam.old).after) }
{
    *beam = beam::step_on(size, *beam)?;
    Ok(())
}
