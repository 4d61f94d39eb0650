// A step that also tells why each flow didn't enter. Rests on reasons and step.
#![tactic(auto)]

ghost use Rattle.std.specs.Prelude.{◌≡◌, ◌≤◌, length};
ghost use Rattle.refusal.specs.Answer.{told_value};
ghost use Rattle.state.specs.Read.{count_in, state_of};
ghost use Rattle.state.specs.Outcome.{outcome, lent, over};
ghost use Rattle.cycle.specs.Reasons.{telling, words_on, step_reasons_on};
ghost use Rattle.step.specs.Next.{Stepping, Stepped};

use refusal::{Cause, Refusal};
use state::StateWords;

// One cycle, and before it each flow's reason.
fn advance_telling(state: &mut [u32], delivery: &mut [u32], reasons: &mut [u32]) -> u32
    requires stepping { Stepping state.old delivery.old }
    requires state_in_bounds { count_in state.old ≤ length reasons.old }
    ensures cycle { Stepped state.old delivery.old result state.new delivery.new }
    ensures reasons_after { reasons.new ≡ over (words_on (state_of state.old)) reasons.old }
{
    step::with_room(state, reasons, |state, reasons, entrants, _registers| {
        reasons::tell(&StateWords::of(state), entrants, reasons)
    });
    step::advance(state, delivery)
}

// One cycle that also tells why each flow didn't enter, judged before it.
pub fn step_reasons(
    state: &mut [u32],
    delivery: &mut [u32],
    reasons: &mut [u32],
) -> Result<u32, Refusal>
    ensures { outcome (told_value result) (telling (lent state.new delivery.new) reasons.new)
        ≡ step_reasons_on state.old delivery.old reasons.old }
{
    step::check_step(state, delivery)?;
    if reasons.len() < state[state::FLOWS] as usize {
        return Err(Cause::ReasonsShort.into());
    }
    Ok(advance_telling(state, delivery, reasons))
}
