// Where a packet can be: 01's conditions on a register's packet, decided. Rests on torus and flow.
#![tactic(auto)]

ghost use Rattle.std.specs.Prelude.{◌≡◌, ◌≤◌, ◌<◌};
ghost use Rattle.flow.specs.Offsets.{ΔX};
ghost use Rattle.flow.specs.Plan.{most_size};
ghost use Rattle.flow.specs.Ranges.{FlowOk};
ghost use Rattle.place.specs.InPlace.{in_north, in_first_row, in_later_row, is_in_place};
ghost use Rattle.place.specs.Input.{place_of};

use flow::{Flow, Torus};

// The input of a router that a link register feeds.
#[derive(Clone, Copy, Debug, PartialEq, Eq)]
pub enum Input {
    West,
    North,
}

// A flow on its torus, both in 01's ranges, with its ΔX.
#[derive(Clone, Copy, Debug)]
pub struct Course {
    pub torus: Torus,
    pub flow: Flow,
    pub dx: u32,
    ghost flow_ok: { FlowOk torus.sx torus.sy flow },
    ghost offset: { dx ≡ ΔX torus.sx flow },
}

impl Course {
    // In N of column x, r rows south of the source's row.
    #[tactic(auto, using(torus::proofs::Axis::offset_below, crate::proofs::InPlace::rounds_most))]
    fn in_north(self, x: u32, r: u32, d: u32, e: u32) -> bool
        requires { r ≤ most_size }
        ensures { result ≡ in_north self.torus.sx self.torus.sy self.flow x r d e }
    {
        x == self.flow.xd
            && 1 <= r
            && r <= self.flow.offset_y(self.torus.sy)
            && d <= r - 1
            && e == self.dx + r + d * self.torus.sx
    }

    // In W of column x, in the source's row.
    fn in_first_row(self, x: u32, d: u32, e: u32) -> bool
        requires { x < self.torus.sx }
        ensures { result ≡ in_first_row self.torus.sx self.flow x d e }
    {
        let j = torus::offset(self.torus.sx, self.flow.xs, x);
        1 <= j && j <= self.dx && d == 0 && e == j
    }

    // In W of column x, r rows south of the source's row.
    #[tactic(auto, using(torus::proofs::Axis::offset_below, torus::proofs::Axis::lap_most, crate::proofs::InPlace::rounds_most))]
    fn in_later_row(self, x: u32, r: u32, d: u32, e: u32) -> bool
        requires { (x < self.torus.sx) × (r ≤ most_size) }
        ensures { result ≡ in_later_row self.torus.sx self.torus.sy self.flow x r d e }
    {
        r <= self.flow.offset_y(self.torus.sy)
            && 1 <= d
            && d <= r
            && e == self.dx
                + r
                + (d - 1) * self.torus.sx
                + torus::lap(self.torus.sx, self.flow.xd, x)
    }

    // A packet of the flow may be at this input of the router, e cycles after its entry and with d deflections.
    #[tactic(auto, using(torus::proofs::Axis::offset_below), unfolding(crate::specs::InPlace::is_in_place))]
    pub fn in_place(self, input: Input, x: u32, y: u32, d: u32, e: u32) -> bool
        requires { (x < self.torus.sx) × (y < self.torus.sy) }
        ensures { result ≡ is_in_place self.torus.sx self.torus.sy self.flow (place_of input x y) d e }
    {
        let r = torus::offset(self.torus.sy, self.flow.ys, y);
        1 <= e
            && match input {
                Input::North => self.in_north(x, r, d, e),
                Input::West if r == 0 => self.in_first_row(x, d, e),
                Input::West => self.in_later_row(x, r, d, e),
            }
    }
}
