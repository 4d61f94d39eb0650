// Many steps in one call, checked once, at their start. Rests on leap and step.
#![tactic(auto)]

ghost use Rattle.std.specs.Prelude.{◌≡◌, ◌++◌, ◌*◌, ◌≤◌, length, take, drop};
ghost use Rattle.refusal.specs.Answer.{told_value, number_in};
ghost use Rattle.flow.specs.Limits.{exit_size, most_delivered, used_room};
ghost use Rattle.router.specs.Delivery.{words_of};
ghost use Rattle.state.specs.Words.{state_words};
ghost use Rattle.state.specs.Read.{state_of};
ghost use Rattle.state.specs.Outcome.{outcome, lent, over};
ghost use Rattle.state.specs.Forms.{state_number};
ghost use Rattle.cycle.specs.Step.{step_state, deliveries};
ghost use Rattle.cycle.specs.Steps.{steps_on};
ghost use Rattle.cycle.specs.Progress.{progress, Reached};
ghost use Rattle.steps.specs.Loop.{Checked, Rooms, number_behind, Behind, FreeBehind, Turned};

use refusal::{Cause, Refusal};
use state::StateWords;

// The most words of delivery memory that the steps use: an answer counts their exits.
const MOST_DELIVERED: usize = cycle::EXIT_SIZE * 4294967295;

// What a step that delivers behind so many exits is refused for.
fn check_next(state: &[u32], delivery: &[u32], exits: u32) -> Result<(), Cause>
    requires { Behind state.now delivery.now exits }
    ensures { number_in result ≡ number_behind state.now delivery.now exits }
{
    step::check_room(
        &StateWords::of(state),
        delivery.len() - cycle::EXIT_SIZE * (exits as usize),
    )
}

// A step that delivers behind so many exits, with room for the entrants and for the next registers: how many more.
fn step_behind(
    state: &mut [u32],
    delivery: &mut [u32],
    entrants: &mut [Option<u32>],
    registers: &mut [u32],
    exits: u32,
) -> u32
    requires free_behind { FreeBehind state.old delivery.old exits }
    requires rooms { Rooms state.old entrants.old registers.old }
    ensures state_after { state.new ≡ over (state_words (step_state (state_of state.old))) state.old }
    ensures value { result ≡ length (deliveries (state_of state.old)) }
    ensures delivery_after { delivery.new
        ≡ take (exit_size * exits) delivery.old
        ++ over (words_of (deliveries (state_of state.old))) (drop (exit_size * exits) delivery.old) }
{
    entrants.fill(None);
    registers.fill(0);
    step::advance_in(
        state,
        &mut delivery[cycle::EXIT_SIZE * (exits as usize)..],
        entrants,
        registers,
    )
}

// The exits so far, and how many cycles a turn took.
#[derive(Clone, Copy, Debug, PartialEq, Eq)]
pub struct Turn {
    pub exits: u32,
    pub cycles: u32,
}

// A leap of at most so many cycles, where one may come, or else a step.
fn take_turn(
    state: &mut [u32],
    delivery: &mut [u32],
    entrants: &mut [Option<u32>],
    registers: &mut [u32],
    exits: u32,
    left: u32,
    may_leap: bool,
) -> Turn
    requires free_behind { FreeBehind state.old delivery.old exits }
    requires rooms { Rooms state.old entrants.old registers.old }
    requires delivery_len_bound { length delivery.old ≤ most_delivered }
    ensures { Turned state.old delivery.old exits left result state.new delivery.new }
{
    let k = leap::leap_if(may_leap, state, left);
    if 0 < k {
        return Turn { exits, cycles: k };
    }
    let more = step_behind(state, delivery, entrants, registers, exits);
    Turn {
        exits: exits + more,
        cycles: 1,
    }
}

// So many steps, one after the other, each delivering behind the last: the count of exits. After a step without an exit something is in
// flight, and after a leap a waiting flow has a token, or the steps are over; so a leap is tried at the start and after exits.
pub fn advance_many(
    state: &mut [u32],
    delivery: &mut [u32],
    entrants: &mut [Option<u32>],
    registers: &mut [u32],
    cycles: u32,
) -> u32
    requires checked { Checked state.old delivery.old }
    requires rooms { Rooms state.old entrants.old registers.old }
    ensures { Reached state.old delivery.old
        (progress (length delivery.old) (state_of state.old) cycles) result state.new delivery.new }
{
    let mut exits = 0u32;
    let mut left = cycles;
    let mut may_leap = true;
    while 0 < left && check_next(state, delivery, exits).is_ok() {
        let t = take_turn(state, delivery, entrants, registers, exits, left, may_leap);
        may_leap = exits < t.exits;
        exits = t.exits;
        left -= t.cycles;
    }
    exits
}

// So many steps on the front of the delivery memory.
fn advance_front(state: &mut [u32], delivery: &mut [u32], cycles: u32) -> u32
    requires { state_number state.old ≡ 0 }
    ensures { Reached state.old delivery.old
        (progress (used_room (length delivery.old)) (state_of state.old) cycles) result state.new delivery.new }
{
    let used = delivery.len().min(MOST_DELIVERED);
    step::with_room(
        state,
        &mut delivery[..used],
        |state, delivery, entrants, registers| {
            advance_many(state, delivery, entrants, registers, cycles)
        },
    )
}

// So many cycles of the torus, or as many as memory and clock allow: the count of all exits, or the refusal of a step at the start.
pub fn steps(state: &mut [u32], delivery: &mut [u32], cycles: u32) -> Result<u32, Refusal>
    ensures { outcome (told_value result) (lent state.new delivery.new) ≡ steps_on state.old delivery.old cycles }
{
    step::check_step(state, delivery)?;
    Ok(advance_front(state, delivery, cycles))
}
