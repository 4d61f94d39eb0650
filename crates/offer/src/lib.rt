// An offer of one packet to a flow, by the sonar or the trial generator. Rests on valid and cycle.
#![tactic(auto)]

ghost use Rattle.std.specs.Prelude.{◌≡◌};
ghost use Rattle.refusal.specs.Answer.{told, number_in};
ghost use Rattle.flow.specs.Limits.{offer_number};
ghost use Rattle.state.specs.Words.{state_words};
ghost use Rattle.state.specs.Read.{state_of};
ghost use Rattle.state.specs.Outcome.{outcome, over};
ghost use Rattle.state.specs.State.{tally_at};
ghost use Rattle.state.specs.Facts.{StateFlow};
ghost use Rattle.cycle.specs.Offer.{with_waiting, offer_state, offer_on};

use flow::Offerer;
use refusal::{Cause, Refusal};
use state::{StateWords, Tally};

// So many packets of flow f wait.
pub fn put_waiting(state: &mut [u32], f: u32, waiting: u32)
    requires { StateFlow state.old f }
    ensures { state.new ≡ over (state_words (with_waiting (state_of state.old) f waiting)) state.old }
{
    let tally = Tally {
        waiting,
        ..StateWords::of(state).tally(f)
    };
    state::put_tally(state, state::flow_place(f as usize), tally);
}

// A packet more waits at flow f.
pub fn wait_more(state: &mut [u32], f: u32)
    requires { StateFlow state.old f }
    ensures { state.new ≡ over (state_words (offer_state (state_of state.old) f)) state.old }
{
    let waiting = StateWords::of(state).tally(f).waiting;
    put_waiting(state, f, waiting + 1);
}

// What an offer is refused for after the state's own.
pub fn check_offer(who: Offerer, state: &StateWords, f: u32) -> Result<(), Cause>
    ensures { number_in result ≡ offer_number who (state_of state.now).plan f (tally_at (state_of state.now) f).waiting }
{
    if state.flows() <= f {
        return Err(Cause::NotInPlan);
    }
    if who.most_waiting() <= state.tally(f).waiting {
        return Err(who.full_queue());
    }
    Ok(())
}

// An offer of one packet to a flow, or its refusal.
pub fn offer(who: Offerer, state: &mut [u32], flow: u32) -> Result<(), Refusal>
    ensures { outcome (told result) state.new ≡ offer_on who state.old flow }
{
    valid::check_state(state)?;
    check_offer(who, &StateWords::of(state), flow)?;
    wait_more(state, flow);
    Ok(())
}
