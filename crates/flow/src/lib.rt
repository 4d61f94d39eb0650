// A flow's plan numbers, its offsets on the torus and its port; who offers packets, and the limits. Rests on laws, refusal and torus.
#![tactic(auto)]

ghost use Rattle.std.specs.Prelude.{◌≡◌, ◌≤◌, ◌<◌};
ghost use Rattle.flow.specs.Offsets.{ΔX, ΔY, port_of, same_client};
ghost use Rattle.flow.specs.Plan.{most_size, on_torus};
ghost use Rattle.flow.specs.Limits.{limit_of};
ghost use Rattle.refusal.specs.Cause.{cause_number};

use refusal::Cause;

// A flow's period is at most this.
pub const MOST_PERIOD: u32 = 16777215;
// A flow's burst is at most this.
pub const MOST_BURST: u32 = 255;
// A flow's most waiting packets.
pub const MOST_WAITING: u32 = 65535;
// So many waiting packets of a flow stop the trial generator.
pub const MOST_TRIAL: u32 = 255;

// The six plan numbers of a flow, in record order: source, destination, period P and burst σ.
#[derive(Clone, Copy, Debug, PartialEq, Eq)]
pub struct Flow {
    pub xs: u32,
    pub ys: u32,
    pub xd: u32,
    pub yd: u32,
    pub period: u32,
    pub burst: u32,
}

// A torus: Sx columns and Sy rows, at most 16 each.
#[derive(Clone, Copy, Debug)]
pub struct Torus {
    pub sx: u32,
    pub sy: u32,
    ghost sized: { (sx ≤ most_size) × (sy ≤ most_size) },
}

// The router output by which a flow's packets enter.
#[derive(Clone, Copy, Debug, PartialEq, Eq)]
pub enum Port {
    East,
    South,
}

// Who offers a packet: the sonar, or the trial generator.
#[derive(Clone, Copy, Debug, PartialEq, Eq)]
pub enum Offerer {
    Sonar,
    Generator,
}

impl Offerer {
    // So many waiting packets of a flow refuse its next offer.
    pub fn most_waiting(self) -> u32
        ensures { result ≡ (limit_of self).waiting }
    {
        match self {
            Offerer::Sonar => MOST_WAITING,
            Offerer::Generator => MOST_TRIAL,
        }
    }

    // What its offer is refused for then.
    pub fn full_queue(self) -> Cause
        ensures { cause_number result ≡ (limit_of self).number }
    {
        match self {
            Offerer::Sonar => Cause::QueueFull,
            Offerer::Generator => Cause::TrialFull,
        }
    }
}

impl Flow {
    // Every coordinate is on a torus of sx columns and sy rows. Any sizes will do, so they come as numbers.
    pub fn on_torus(self, sx: u32, sy: u32) -> bool
        ensures { result ≡ on_torus sx sy self }
    {
        self.xs < sx && self.ys < sy && self.xd < sx && self.yd < sy
    }

    // ΔX = (xd − xs) mod Sx. With Sx more, the difference doesn't pass below 0.
    pub fn offset_x(self, sx: u32) -> u32
        requires xs_lt_sx { (self.xs < sx) × (self.xd < sx) }
        requires sx_le_most_size { sx ≤ most_size }
        ensures { result ≡ ΔX sx self }
    {
        (self.xd + sx - self.xs) % sx
    }

    // ΔY = (yd − ys) mod Sy, likewise.
    pub fn offset_y(self, sy: u32) -> u32
        requires ys_lt_sy { (self.ys < sy) × (self.yd < sy) }
        requires sy_le_most_size { sy ≤ most_size }
        ensures { result ≡ ΔY sy self }
    {
        (self.yd + sy - self.ys) % sy
    }

    pub fn port(self, sx: u32) -> Port
        requires xs_lt_sx { (self.xs < sx) × (self.xd < sx) }
        requires sx_le_most_size { sx ≤ most_size }
        ensures { result ≡ port_of sx self }
    {
        if 0 < self.offset_x(sx) {
            Port::East
        } else {
            Port::South
        }
    }

    // Whether two flows have one client: two of their six numbers are compared.
    pub fn same_client(self, other: Flow) -> bool
        ensures { result ≡ same_client self other }
    {
        self.xs == other.xs && self.ys == other.ys
    }
}
