// An offer that names a set of flows: all of them or none. Rests on offer and valid.
#![tactic(auto)]

ghost use Rattle.std.specs.Prelude.{◌≡◌, ◌≤◌};
ghost use Rattle.refusal.specs.Answer.{told};
ghost use Rattle.state.specs.Words.{state_words};
ghost use Rattle.state.specs.Read.{state_of};
ghost use Rattle.state.specs.State.{tally_at};
ghost use Rattle.state.specs.Facts.{StateFlow};
ghost use Rattle.state.specs.Forms.{state_number};
ghost use Rattle.state.specs.Outcome.{outcome, over};
ghost use Rattle.cycle.specs.Set.{offer_set_on};
ghost use Rattle.offers.specs.Inner.{less_state, AddedAs, WasAdded, IsBack};

use flow::Offerer;
use refusal::Refusal;
use state::StateWords;

// Adds the entries in their order, up to the first that would be refused; its refusal.
fn add_entries(state: &mut [u32], flows: &[u32]) -> Result<(), Refusal>
    requires { state_number state.old ≡ 0 }
    ensures { AddedAs state.old flows.now (told result) state.new }
{
    for (k, &f) in flows.iter().enumerate() {
        if let Err(cause) = offer::check_offer(Offerer::Sonar, &StateWords::of(state), f) {
            return Err(cause.at(k as u32));
        }
        offer::wait_more(state, f);
    }
    Ok(())
}

// A packet less waits at flow f.
fn wait_less(state: &mut [u32], f: u32)
    requires state_flow { StateFlow state.old f }
    requires bound { 1 ≤ (tally_at (state_of state.old) f).waiting }
    ensures { state.new ≡ over (state_words (less_state (state_of state.old) f)) state.old }
{
    let waiting = StateWords::of(state).tally(f).waiting;
    offer::put_waiting(state, f, waiting - 1);
}

// Takes the first n entries back, the last of them first.
fn take_back(state: &mut [u32], flows: &[u32], n: usize)
    requires { WasAdded flows.now n state.old }
    ensures { IsBack flows.now n state.old state.new }
{
    for &f in flows[..n].iter().rev() {
        wait_less(state, f);
    }
}

// An offer of one packet for each entry of a list of flows, or the refusal with the position of the first refused entry.
pub fn offer_set(state: &mut [u32], flows: &[u32]) -> Result<(), Refusal>
    ensures { outcome (told result) state.new ≡ offer_set_on state.old flows.now }
{
    valid::check_state(state)?;
    if let Err(refusal) = add_entries(state, flows) {
        take_back(state, flows, refusal.place as usize);
        return Err(refusal);
    }
    Ok(())
}
