// Where what a router sends goes: its neighbours' next registers, or the delivery memory. Rests on cycle.
#![tactic(auto)]

ghost use Rattle.std.specs.Prelude.{◌≡◌, ◌+◌, ◌*◌, ◌<◌, ◌≤◌, length};
ghost use Rattle.std.proofs.lemmas.List.Edits.{sets};
ghost use Rattle.flow.specs.Plan.{most_flows};
ghost use Rattle.flow.specs.Limits.{exit_size};
ghost use Rattle.router.specs.Links.{reach};
ghost use Rattle.router.specs.Delivery.{words_of};
ghost use Rattle.state.specs.Inner.{flow_of};
ghost use Rattle.cycle.specs.Step.{leaving};
ghost use Rattle.output.specs.Grid.{OnGrid, torus_of, registers_of, register_place, push, ExitRoom};

use flow::Port;
use state::Packet;

// The grid of a state's routers: columns, rows, and the flows in front of the registers.
#[derive(Clone, Copy, Debug, PartialEq, Eq)]
pub struct Grid {
    pub sx: u32,
    pub sy: u32,
    pub flows: usize,
}

impl Grid {
    // Where the register that an output of the router in column x and row y reaches stands among the registers: the W register to the
    // east, or the N register to the south.
    fn reached(self, x: u32, y: u32, output: Port) -> usize
        requires { OnGrid self x y }
        ensures { result ≡ register_place self.sx (reach (torus_of self) x y output) }
    {
        match output {
            Port::East => {
                state::ROUTER_SIZE * state::router_index(self.sx, torus::next(self.sx, x), y)
            }
            Port::South => {
                state::ROUTER_SIZE * state::router_index(self.sx, x, torus::next(self.sy, y))
                    + state::REGISTER_SIZE
            }
        }
    }

    // Writes what goes out by an output to the register that it reaches.
    pub fn push(self, x: u32, y: u32, output: Port, packet: Option<Packet>, next: &mut [u32])
        requires { (OnGrid self x y) × ((flow_of packet < most_flows) × (registers_of self ≤ length next.old)) }
        ensures { next.new ≡ push self x y output packet next.old }
    {
        state::put_register(next, self.reached(x, y, output), packet);
    }
}

// Writes the five words of a packet that exits at a place, if there is one.
pub fn put_exit(delivery: &mut [u32], at: usize, exit: Option<Packet>, clock: u32)
    requires { at + exit_size ≤ length delivery.old }
    ensures { delivery.new ≡ sets delivery.old at (words_of (leaving clock exit)) }
{
    if let Some(p) = exit {
        delivery[at..at + cycle::EXIT_SIZE].copy_from_slice(&[
            p.flow,
            p.serial,
            p.entry,
            clock,
            p.deflections,
        ]);
    }
}

// Writes the words of a packet that exits, if there is one, behind those of `count` exits, and counts it. For how many exits more there
// is room differs from function to function, so it is asked, and no fact of the memory.
pub fn deliver(exit: Option<Packet>, clock: u32, delivery: &mut [u32], count: u32) -> u32
    requires { ExitRoom count 1 delivery.old }
    ensures value { result ≡ count + length (leaving clock exit) }
    ensures delivery_after { delivery.new ≡ sets delivery.old (exit_size * count) (words_of (leaving clock exit)) }
{
    if exit.is_none() {
        return count;
    }
    let at = cycle::EXIT_SIZE * (count as usize);
    put_exit(delivery, at, exit, clock);
    count + 1
}
