// One step on a state's words. Rests on valid, entry and routing.
#![tactic(auto)]

ghost use Rattle.std.specs.Prelude.{◌≡◌, ◌≤◌, length};
ghost use Rattle.std.proofs.lemmas.List.Edits.{sets};
ghost use Rattle.refusal.specs.Answer.{told_value, number_in};
ghost use Rattle.state.specs.Read.{count_in, state_of};
ghost use Rattle.state.specs.Facts.{StateFacts};
ghost use Rattle.state.specs.Outcome.{outcome, lent};
ghost use Rattle.flow.specs.Limits.{step_number};
ghost use Rattle.router.specs.Delivery.{words_of};
ghost use Rattle.entry.specs.Entrants.{Entrants, AllEntered};
ghost use Rattle.routing.specs.Walk.{registers_in, pushed_all};
ghost use Rattle.step.specs.Next.{Stepping, Judged, Room, Runs, Ran, Stepped, next_words};
ghost use Rattle.cycle.specs.Step.{deliveries, step_on};

use refusal::{Cause, Refusal};
use state::StateWords;

// Who enters, the next registers and the exits' words; the count of exits.
fn find_next(
    state: &StateWords,
    entrants: &mut [Option<u32>],
    registers: &mut [u32],
    delivery: &mut [u32],
) -> u32
    requires stepping { Stepping state.now delivery.old }
    requires room { Room state.now entrants.old registers.old }
    ensures entrants { Entrants (state_of state.now) (count_in state.now) entrants.new }
    ensures registers_after { registers.new ≡ pushed_all state.now registers.old }
    ensures value { result ≡ length (deliveries (state_of state.now)) }
    ensures delivery_after { delivery.new ≡ sets delivery.old 0 (words_of (deliveries (state_of state.now))) }
{
    entry::find_entrants(state, entrants);
    routing::route_all(state, entrants, registers, delivery)
}

// Writes the next tallies, clock and registers, these by a loop: `copy_from_slice` would need `memmove` from outside the archive.
fn store_next(state: &mut [u32], entrants: &[Option<u32>], registers: &[u32])
    requires all_entered { AllEntered state.old entrants.now }
    requires state_in_bounds { registers_in state.old ≤ length registers.now }
    ensures { state.new ≡ next_words state.old registers.now }
{
    let routers = (state[state::SX] * state[state::SY]) as usize;
    let flows = state[state::FLOWS] as usize;
    let clock = state[state::CLOCK];
    entry::tally_flows(state, entrants);
    state::put_clock(state, clock + 1);
    let place = state::flow_place(flows);
    for (i, &word) in registers[..state::ROUTER_SIZE * routers].iter().enumerate() {
        state[place + i] = word;
    }
}

// Runs f on a state and on a memory beside it, with room for the entrants and for the next registers. A small torus gets little room. It
// goes as two slices, since a closure can't be generic over its size.
pub fn with_room<R, F: FnOnce(&mut [u32], &mut [u32], &mut [Option<u32>], &mut [u32]) -> R>(
    state: &mut [u32],
    beside: &mut [u32],
    f: F,
) -> R
    requires facts { StateFacts state.old }
    requires callable { Runs (F.pre f) state.old beside.old }
    ensures { Ran (F.post f) state.old beside.old result state.new beside.new }
{
    let routers = state[state::SX] * state[state::SY];
    if routers <= 16 {
        f(
            state,
            beside,
            &mut [None; 16],
            &mut [0; state::ROUTER_SIZE * 16],
        )
    } else if routers <= 64 {
        f(
            state,
            beside,
            &mut [None; 64],
            &mut [0; state::ROUTER_SIZE * 64],
        )
    } else {
        f(
            state,
            beside,
            &mut [None; state::MOST_ROUTERS],
            &mut [0; state::ROUTER_SIZE * state::MOST_ROUTERS],
        )
    }
}

// One cycle, with room for the entrants and for the next registers: the state's words, the exits' words, and their count.
pub fn advance_in(
    state: &mut [u32],
    delivery: &mut [u32],
    entrants: &mut [Option<u32>],
    registers: &mut [u32],
) -> u32
    requires stepping { Stepping state.old delivery.old }
    requires room { Room state.old entrants.old registers.old }
    ensures { Stepped state.old delivery.old result state.new delivery.new }
{
    let exits = find_next(&StateWords::of(state), entrants, registers, delivery);
    store_next(state, entrants, registers);
    exits
}

// One cycle, with room of its own.
pub fn advance(state: &mut [u32], delivery: &mut [u32]) -> u32
    requires { Stepping state.old delivery.old }
    ensures { Stepped state.old delivery.old result state.new delivery.new }
{
    with_room(state, delivery, advance_in)
}

// What a step is refused for after the state's own, with so many words of delivery memory.
pub fn check_room(state: &StateWords, room: usize) -> Result<(), Cause>
    ensures { number_in result ≡ step_number (state_of state.now).plan room (state_of state.now).clock }
{
    let routers = (state.sx() * state.sy()) as usize;
    if room < cycle::EXIT_SIZE * routers {
        return Err(Cause::DeliveryShort);
    }
    if state.clock() == state::LAST_CLOCK {
        return Err(Cause::LastClock);
    }
    Ok(())
}

// What refuses a step: the state's causes, then the step's own.
pub fn check_step(state: &[u32], delivery: &[u32]) -> Result<(), Cause>
    ensures { Judged state.now delivery.now (number_in result) }
{
    check_room(&valid::read_state(state)?, delivery.len())
}

// One cycle of the torus: the count of exits, or the refusal.
pub fn step(state: &mut [u32], delivery: &mut [u32]) -> Result<u32, Refusal>
    ensures { outcome (told_value result) (lent state.new delivery.new) ≡ step_on state.old delivery.old }
{
    check_step(state, delivery)?;
    Ok(advance(state, delivery))
}
