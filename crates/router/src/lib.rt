// The links between routers, the rule by which a router sends its packets, and why a flow didn't enter. Rests on torus, flow and
// place.
#![tactic(auto)]

ghost use Rattle.std.specs.Prelude.{◌≡◌};
ghost use Rattle.router.specs.Reasons.{number_of};

// Whether a flow entered in a step, or why it didn't.
#[derive(Clone, Copy, Debug, PartialEq, Eq)]
pub enum Reason {
    Entered,
    NothingWaiting,
    NoToken,
    WestHeld,
    SouthTaken,
    LowerEntered,
}

impl Reason {
    pub fn number(self) -> u32
        ensures { result ≡ number_of self }
    {
        match self {
            Reason::Entered => 0,
            Reason::NothingWaiting => 1,
            Reason::NoToken => 2,
            Reason::WestHeld => 3,
            Reason::SouthTaken => 4,
            Reason::LowerEntered => 5,
        }
    }
}
