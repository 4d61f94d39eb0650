// Who enters, and the flows' next tallies: two walks over the flows. Rests on cycle.
#![tactic(auto)]

ghost use Rattle.std.specs.Prelude.{◌≡◌, true, ◌+◌, ◌<◌, ◌≤◌, length, get_or, None};
ghost use Rattle.laws.specs.Grid.{cell_index};
ghost use Rattle.laws.specs.Turns.{turns};
ghost use Rattle.flow.specs.Plan.{most_size, most_flows};
ghost use Rattle.flow.specs.Ranges.{FlowOk};
ghost use Rattle.flow.specs.Limits.{last_clock};
ghost use Rattle.router.specs.Rule.{ready, is_flow};
ghost use Rattle.state.specs.Read.{sx_in, sy_in, count_in, state_of};
ghost use Rattle.state.specs.Tallied.{tallied};
ghost use Rattle.cycle.specs.Seen.{view};
ghost use Rattle.cycle.specs.Step.{next_tally};
ghost use Rattle.entry.specs.Entrants.{port_open, tally_after, entrant_in, Entrants, AllEntered};

use flow::{Flow, Port};
use state::{StateWords, Tally};

// The flow's port at its client's router is open.
pub fn port_open(state: &StateWords, flow: Flow) -> bool
    requires { FlowOk (sx_in state.now) (sy_in state.now) flow }
    ensures { result ≡ port_open (state_of state.now) flow }
{
    let cell = state.cell(flow.xs, flow.ys);
    match flow.port(state.sx()) {
        Port::East => cell.west.is_none(),
        Port::South => cell.north.is_none() && !cycle::turns_south(state, flow.xs, cell.west),
    }
}

// Flow f has a waiting packet, a token and an open port.
fn ready(state: &StateWords, f: u32) -> bool
    requires { f < count_in state.now }
    ensures { result ≡ ready (state_of state.now).plan (view (state_of state.now)) f }
{
    let t = state.tally(f);
    0 < t.waiting && 0 < t.bucket.tokens && port_open(state, state.flow(f))
}

// A flow's tally after a cycle.
#[tactic(auto, unfolding(crate::specs::Entrants::tally_after, bucket::specs::Regulator::after_cycle))]
fn tally_after(flow: Flow, t: Tally, enters: bool) -> Tally
    requires count_lt_period { (t.bucket.count < flow.period) × (t.entered < last_clock) }
    requires le_tokens { enters ≡ true → (1 ≤ t.bucket.tokens) × (1 ≤ t.waiting) }
    ensures { result ≡ tally_after flow t enters }
{
    if enters {
        Tally {
            bucket: t.bucket.spend().count(flow.burst, flow.period),
            entered: t.entered + 1,
            waiting: t.waiting - 1,
        }
    } else {
        Tally {
            bucket: t.bucket.count(flow.burst, flow.period),
            ..t
        }
    }
}

// Flow f's turn: if it enters, with the entrants of the flows below it, it is its client's entrant.
pub fn enter(state: &StateWords, f: u32, entrants: &mut [Option<u32>])
    requires f_below { f < count_in state.now }
    requires entrants { Entrants (state_of state.now) f entrants.old }
    ensures { Entrants (state_of state.now) (f + 1) entrants.new }
{
    if ready(state, f) {
        let flow = state.flow(f);
        let client = state::router_index(state.sx(), flow.xs, flow.ys);
        let entrant = &mut entrants[client];
        *entrant = entrant.or(Some(f));
    }
}

// The entrants of all clients.
pub fn find_entrants(state: &StateWords, entrants: &mut [Option<u32>])
    requires { Entrants (state_of state.now) 0 entrants.old }
    ensures { Entrants (state_of state.now) (count_in state.now) entrants.new }
{
    for f in 0..state.flows() {
        enter(state, f, entrants);
    }
}

// Flow f is its client's entrant.
#[tactic(auto, using(crate::proofs::Entrant::is_who))]
pub fn entered(entrants: &[Option<u32>], sx: u32, flow: Flow, f: u32) -> bool
    requires sx_le_most_size { (sx ≤ most_size) × ((flow.xs < sx) × (flow.ys < most_size)) }
    requires ys_in_bounds { (cell_index sx flow.xs flow.ys < length entrants.now) × (f < most_flows) }
    ensures { result ≡ is_flow f (entrant_in (get_or entrants.now (cell_index sx flow.xs flow.ys) None)) }
{
    let client = state::router_index(sx, flow.xs, flow.ys);
    entrants[client] == Some(f)
}

// Every flow's next tally, by the entrants of all clients.
pub fn tally_flows(state: &mut [u32], entrants: &[Option<u32>])
    requires { AllEntered state.old entrants.now }
    ensures { state.new ≡ turns (count_in state.old) (tallied (next_tally (state_of state.old))) state.old }
{
    let sx = state[state::SX];
    state::retally(state, |f, flow, tally| {
        tally_after(flow, tally, entered(entrants, sx, flow, f))
    });
}
