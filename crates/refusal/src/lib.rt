// Why a call says no: the causes with their numbers, and a refusal with its place. Rests on nothing of the project.
#![tactic(auto)]

ghost use Rattle.std.specs.Prelude.{◌≡◌};
ghost use Rattle.refusal.specs.Cause.{cause_number};

use std::fmt;

// What a call is refused for; each has its number.
#[derive(Clone, Copy, Debug, PartialEq, Eq)]
pub enum Cause {
    FileLength = 1,
    Tag = 2,
    TorusSize = 3,
    FlowCount = 4,
    Start = 5,
    OffTorus = 6,
    NoRate = 7,
    StateShort = 8,
    NoState = 9,
    DeliveryShort = 10,
    LastClock = 11,
    NotInPlan = 12,
    QueueFull = 13,
    NoWindow = 14,
    TargetShort = 15,
    RecordsShort = 16,
    KeptRange = 17,
    TrialFull = 18,
    ReasonsShort = 19,
    BurstRange = 20,
}

// A cause with its place: the flow or the position that it names, and otherwise 0.
#[derive(Clone, Copy, Debug, PartialEq, Eq)]
pub struct Refusal {
    pub cause: Cause,
    pub place: u32,
}

impl Cause {
    pub fn number(self) -> u32
        ensures { result ≡ cause_number self }
    {
        self as u32
    }

    // The refusal of this cause at a place.
    pub fn at(self, place: u32) -> Refusal
        ensures { result ≡ record { cause = self; place = place } }
    {
        Refusal { cause: self, place }
    }
}

// A cause that names no place has place 0.
impl From<Cause> for Refusal {
    ghost from_gives = { λ cause refusal. refusal ≡ record { cause = cause; place = 0 } };

    fn from(cause: Cause) -> Refusal {
        cause.at(0)
    }
}

impl fmt::Display for Refusal {
    fn fmt<W: fmt::Write>(&self, f: &mut fmt::Formatter<W>) -> fmt::Result {
        write!(f, "refused {} {}", self.cause.number(), self.place)
    }
}
