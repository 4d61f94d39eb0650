// Cycles in which nothing moves and nobody enters, in one go. Rests on cycle.
#![tactic(auto)]

ghost use Rattle.std.specs.Prelude.{◌≡◌, true, ◌+◌, ◌<◌, ◌≤◌};
ghost use Rattle.laws.specs.Turns.{turns};
ghost use Rattle.flow.specs.Plan.{flow_at};
ghost use Rattle.flow.specs.Limits.{last_clock};
ghost use Rattle.state.specs.State.{tally_at};
ghost use Rattle.state.specs.Read.{count_in, clock_in, state_of};
ghost use Rattle.state.specs.Facts.{StateFacts};
ghost use Rattle.state.specs.Tallied.{tallied};
ghost use Rattle.leap.specs.Leap.{passed_tally, passed_at, Vacant, StaysOut, AllStayOut, Leapt};

use flow::Flow;
use state::{StateWords, Tally};

// True only where nothing is in flight.
fn is_vacant(state: &StateWords) -> bool
    ensures { result ≡ true → Vacant (state_of state.now) }
{
    let registers = 2 * ((state.sx() * state.sy()) as usize);
    let at = state::flow_place(state.flows() as usize);
    let words = state.words();
    (0..registers).all(|i| words[at + state::REGISTER_SIZE * i] == 0)
}

// For how many cycles, at most so many, the flow surely doesn't enter.
fn stays_out(flow: Flow, t: Tally, most: u32) -> u32
    requires { t.bucket.count < flow.period }
    ensures { (result ≤ most) × (1 ≤ result → StaysOut result flow t) }
{
    if t.waiting == 0 {
        return most;
    }
    if 0 < t.bucket.tokens {
        return 0;
    }
    most.min(flow.period - t.bucket.count)
}

// For how many cycles, at most so many, surely no flow enters.
fn all_stay_out(state: &StateWords, most: u32) -> u32
    ensures { (result ≤ most) × (1 ≤ result → AllStayOut result (state_of state.now) (count_in state.now)) }
{
    let mut k = most;
    for f in 0..state.flows() {
        k = stays_out(state.flow(f), state.tally(f), k);
        if k == 0 {
            return 0;
        }
    }
    k
}

// A flow's tally after k cycles in which it doesn't enter.
fn passed_tally(k: u32, flow: Flow, t: Tally) -> Tally
    requires { 1 ≤ flow.period }
    ensures { result ≡ passed_tally k flow t }
{
    Tally {
        bucket: t.bucket.pass(flow.burst, flow.period, k),
        ..t
    }
}

// Every flow's tally k cycles later.
fn pass_flows(state: &mut [u32], k: u32)
    requires { StateFacts state.old }
    ensures { state.new ≡ turns (count_in state.old) (tallied (passed_at k (state_of state.old))) state.old }
{
    state::retally(state, |_, flow, tally| passed_tally(k, flow, tally));
}

// A leap of at most so many cycles, to the next token of a waiting flow or to the last clock: how many it took.
fn leap(state: &mut [u32], most: u32) -> u32
    requires { StateFacts state.old }
    ensures { Leapt state.old most result state.new }
{
    let now = StateWords::of(state);
    let clock = now.clock();
    if !is_vacant(&now) {
        return 0;
    }
    let k = all_stay_out(&now, most.min(state::LAST_CLOCK - clock));
    if k == 0 {
        return 0;
    }
    pass_flows(state, k);
    state::put_clock(state, clock + k);
    k
}

// A leap where one may come, or none: a call of its own, so that its caller has one fact of both.
pub fn leap_if(may_leap: bool, state: &mut [u32], most: u32) -> u32
    requires { StateFacts state.old }
    ensures { Leapt state.old most result state.new }
{
    if !may_leap {
        return 0;
    }
    leap(state, most)
}
