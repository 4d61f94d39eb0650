// One walk over the routers: next registers, deliveries and their count. Rests on cycle and entry.
#![tactic(auto)]

ghost use Rattle.std.specs.Prelude.{IfSome, ◌≡◌, ◌+◌, ◌*◌, ◌<◌, ◌≤◌, length};
ghost use Rattle.std.proofs.lemmas.List.Edits.{sets};
ghost use Rattle.flow.specs.Limits.{last_clock, exit_size};
ghost use Rattle.router.specs.Delivery.{words_of};
ghost use Rattle.state.specs.Read.{sx_in, sy_in, count_in, clock_in, state_of};
ghost use Rattle.cycle.specs.Step.{delivered, deliveries};
ghost use Rattle.entry.specs.Entrants.{entrant_in, AllEntered};
ghost use Rattle.routing.specs.Sent.{client_sends, sent_at, is_idle};
ghost use Rattle.output.specs.Grid.{ExitRoom};
ghost use Rattle.routing.specs.Walk.{registers_in, pushed, pushed_row, pushed_all, row_delivers};

use flow::Port;
use output::Grid;
use state::{Packet, StateWords};
use std::marker::Model;

// What is sent by the two outputs of a router.
#[derive(Clone, Copy, Debug, PartialEq, Eq)]
struct Sent {
    east: Option<Packet>,
    south: Option<Packet>,
}

// What a client sends, by who enters.
fn client_sends(state: &StateWords, who: Option<u32>) -> Sent
    requires { (IfSome who (λ f. f < count_in state.now)) × (clock_in state.now < last_clock) }
    ensures { result ≡ client_sends (state_of state.now) (entrant_in who) }
{
    let Some(f) = who else {
        return Sent {
            east: None,
            south: None,
        };
    };
    let packet = Packet {
        flow: f,
        serial: state.tally(f).entered + 1,
        entry: state.clock(),
        deflections: 0,
    };
    match state.flow(f).port(state.sx()) {
        Port::East => Sent {
            east: Some(packet),
            south: None,
        },
        Port::South => Sent {
            east: None,
            south: Some(packet),
        },
    }
}

// A walk over a state's routers, with their grid and who enters at each client; seen as the state's words.
#[derive(Drop)]
struct Walk<'a> {
    state: &'a StateWords<'a>,
    grid: Grid,
    entrants: &'a [Option<u32>],
}

impl<'a> Model for Walk<'a> {
    ghost use Rattle.std.specs.Prelude.{List, ℕ};
    ghost use Rattle.routing.specs.Walk.{Walking};

    ghost Value = { List ℕ };

    ghost view = { λ walk. walk.state.now };

    ghost invariant = { λ walk. Walking walk.state.now walk.grid walk.entrants.now };
}

impl Walk<'_> {
    // What the router in column x and row y sends.
    fn sent(&self, x: u32, y: u32) -> Sent
        requires { (x < sx_in self.now) × (y < sy_in self.now) }
        ensures { result ≡ sent_at (state_of self.now) x y }
    {
        let cell = self.state.cell(x, y);
        let turning = cycle::turns_south(self.state, x, cell.west);
        let client = client_sends(
            self.state,
            self.entrants[state::router_index(self.grid.sx, x, y)],
        );
        Sent {
            east: cycle::sent_east(turning, cell.west, cell.north, client.east),
            south: cycle::sent_south(turning, cell.west, cell.north, client.south),
        }
    }

    // No packet stands at the router in column x and row y, nor enters there.
    fn is_idle(&self, x: u32, y: u32) -> bool
        requires { (x < sx_in self.now) × (y < sy_in self.now) }
        ensures { result ≡ is_idle (state_of self.now) x y }
    {
        let router = state::router_index(self.grid.sx, x, y);
        let at = state::router_place(self.grid.flows, self.grid.sx, x, y);
        self.entrants[router].is_none() & state::is_vacant(self.state.words(), at)
    }

    // The router in column x and row y: what it sends goes to its neighbours' next registers, or is delivered after `count` exits.
    fn route(&self, x: u32, y: u32, next: &mut [u32], delivery: &mut [u32], count: u32) -> u32
        requires x_bound { (x < sx_in self.now) × (y < sy_in self.now) }
        requires state_in_bounds { registers_in self.now ≤ length next.old }
        requires exit_room { ExitRoom count 1 delivery.old }
        ensures next_after { next.new ≡ pushed self.now x y next.old }
        ensures value { result ≡ count + length (delivered (state_of self.now) x y) }
        ensures delivery_after { delivery.new ≡ sets delivery.old (exit_size * count) (words_of (delivered (state_of self.now) x y)) }
    {
        let sent = self.sent(x, y);
        let (onward, exit) = if cycle::exits(self.state, x, y, sent.south) {
            (None, sent.south)
        } else {
            (sent.south, None)
        };
        self.grid.push(x, y, Port::East, sent.east, next);
        self.grid.push(x, y, Port::South, onward, next);
        output::deliver(exit, self.state.clock(), delivery, count)
    }

    // The routers of row y, after `count` exits.
    fn route_row(&self, y: u32, next: &mut [u32], delivery: &mut [u32], count: u32) -> u32
        requires y_bound { y < sy_in self.now }
        requires state_in_bounds { registers_in self.now ≤ length next.old }
        requires exit_room { ExitRoom count (sx_in self.now) delivery.old }
        ensures next_after { next.new ≡ pushed_row self.now y next.old }
        ensures value { result ≡ count + length (row_delivers self.now y) }
        ensures delivery_after { delivery.new ≡ sets delivery.old (exit_size * count) (words_of (row_delivers self.now y)) }
    {
        let mut done = count;
        for x in 0..self.grid.sx {
            if !self.is_idle(x, y) {
                done = self.route(x, y, next, delivery, done);
            }
        }
        done
    }
}

// All routers, by row then column.
pub fn route_all(
    state: &StateWords,
    entrants: &[Option<u32>],
    next: &mut [u32],
    delivery: &mut [u32],
) -> u32
    requires all_entered { AllEntered state.now entrants.now }
    requires state_in_bounds { registers_in state.now ≤ length next.old }
    requires state_in_bounds_2 { exit_size * (sx_in state.now * sy_in state.now) ≤ length delivery.old }
    ensures next_after { next.new ≡ pushed_all state.now next.old }
    ensures value { result ≡ length (deliveries (state_of state.now)) }
    ensures delivery_after { delivery.new ≡ sets delivery.old 0 (words_of (deliveries (state_of state.now))) }
{
    let walk = Walk {
        state,
        grid: Grid {
            sx: state.sx(),
            sy: state.sy(),
            flows: state.flows() as usize,
        },
        entrants,
    };
    let mut done = 0;
    for y in 0..walk.grid.sy {
        done = walk.route_row(y, next, delivery, done);
    }
    done
}
