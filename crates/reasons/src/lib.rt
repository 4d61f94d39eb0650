// Why each flow doesn't enter: one walk over the flows. Rests on entry.
#![tactic(auto)]

ghost use Rattle.std.specs.Prelude.{◌≡◌, ◌+◌, ◌≤◌, ◌<◌, length};
ghost use Rattle.router.specs.Reasons.{reason};
ghost use Rattle.state.specs.Read.{count_in, state_of};
ghost use Rattle.state.specs.Outcome.{over};
ghost use Rattle.cycle.specs.Seen.{view};
ghost use Rattle.cycle.specs.Reasons.{words_on};
ghost use Rattle.entry.specs.Entrants.{Entrants};

use flow::Port;
use router::Reason;
use state::StateWords;

// Flow f's turn, with the entrants of the flows below it: whether it enters, or why not.
fn why(state: &StateWords, f: u32, entrants: &mut [Option<u32>]) -> Reason
    requires f_below { f < count_in state.now }
    requires entrants { Entrants (state_of state.now) f entrants.old }
    ensures value { result ≡ reason (state_of state.now).plan (view (state_of state.now)) f }
    ensures entrants_2 { Entrants (state_of state.now) (f + 1) entrants.new }
{
    let t = state.tally(f);
    if t.waiting < 1 {
        return Reason::NothingWaiting;
    }
    if t.bucket.tokens < 1 {
        return Reason::NoToken;
    }
    let flow = state.flow(f);
    if !entry::port_open(state, flow) {
        match flow.port(state.sx()) {
            Port::East => return Reason::WestHeld,
            Port::South => return Reason::SouthTaken,
        }
    }
    entry::enter(state, f, entrants);
    if entry::entered(entrants, state.sx(), flow, f) {
        Reason::Entered
    } else {
        Reason::LowerEntered
    }
}

// Each flow's reason, judged on this state, with room for the entrants; words after the last flow stay.
pub fn tell(state: &StateWords, entrants: &mut [Option<u32>], reasons: &mut [u32])
    requires entrants { Entrants (state_of state.now) 0 entrants.old }
    requires state_in_bounds { count_in state.now ≤ length reasons.old }
    ensures { reasons.new ≡ over (words_on (state_of state.now)) reasons.old }
{
    // By number: a flow's number is what `why` asks for and the place of its reason.
    for f in 0..state.flows() {
        let reason = why(state, f, entrants);
        reasons[f as usize] = reason.number();
    }
}
