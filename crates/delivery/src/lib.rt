// A step's deliveries as five-word groups, and which of them are strange to a plan. Rests on cycle.
#![tactic(auto)]

ghost use Rattle.std.specs.Prelude.{◌≡◌, ◌≤◌, map};
ghost use Rattle.laws.specs.Count.{any};
ghost use Rattle.flow.specs.Plan.{most_size};
ghost use Rattle.flow.specs.Ranges.{FlowOk};
ghost use Rattle.state.specs.Read.{plan_in};
ghost use Rattle.delivery.specs.Groups.{groups_of, impossible, strange};
ghost use Rattle.delivery.specs.Inner.{as_told, group_in};

use flow::{Flow, Torus};
use state::StateWords;

// What an exit writes: a packet's flow, its serial, the cycles of its entry and its exit, and its deflections.
#[derive(Clone, Copy, Debug, PartialEq, Eq)]
pub struct Delivery {
    pub flow: u32,
    pub serial: u32,
    pub entry: u32,
    pub exit: u32,
    pub deflections: u32,
}

impl From<[u32; cycle::EXIT_SIZE]> for Delivery {
    ghost from_gives = { λ group delivery. as_told delivery ≡ group_in group };

    fn from(group: [u32; cycle::EXIT_SIZE]) -> Delivery {
        let [flow, serial, entry, exit, deflections] = group;
        Delivery {
            flow,
            serial,
            entry,
            exit,
            deflections,
        }
    }
}

// The groups of five words that deliveries are; a broken last group isn't read.
#[tactic(auto, using(crate::proofs::Groups::groups_chunks))]
pub fn whole_groups(deliveries: &[u32]) -> &[[u32; cycle::EXIT_SIZE]]
    ensures { map group_in result.now ≡ groups_of deliveries.now }
{
    deliveries.as_chunks().0
}

// No packet of flow f is delivered so.
fn impossible(torus: Torus, f: Flow, d: Delivery) -> bool
    requires { FlowOk torus.sx torus.sy f }
    ensures { result ≡ impossible torus.sx torus.sy f d.entry d.exit d.deflections }
{
    let dy = f.offset_y(torus.sy);
    dy < d.deflections
        || d.exit.checked_sub(d.entry) != Some(f.offset_x(torus.sx) + dy + d.deflections * torus.sx)
}

// A delivery is of no flow in the plan, or is impossible for its flow.
fn strange(state: &StateWords, d: Delivery) -> bool
    ensures { result ≡ strange (plan_in state.now) (as_told d) }
{
    state.flows() <= d.flow || impossible(state.torus(), state.flow(d.flow), d)
}

// Some delivery is strange to the plan.
pub fn any_strange(state: &StateWords, deliveries: &[u32]) -> bool
    ensures { result ≡ any (strange (plan_in state.now)) (groups_of deliveries.now) }
{
    whole_groups(deliveries)
        .iter()
        .any(|group| strange(state, Delivery::from(*group)))
}
