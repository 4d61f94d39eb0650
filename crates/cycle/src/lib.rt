// What a router does with its packets. Rests on state.
#![tactic(auto)]

ghost use Rattle.std.specs.Prelude.{◌≡◌, ◌<◌, Some, IfSome};
ghost use Rattle.flow.specs.Plan.{most_size};
ghost use Rattle.router.specs.Rule.{turns_south};
ghost use Rattle.state.specs.Read.{count_in, state_of};
ghost use Rattle.cycle.specs.Seen.{shown};
ghost use Rattle.cycle.specs.Step.{deflected};
ghost use Rattle.cycle.specs.Sent.{deflections_of, sent_east, sent_south, exits};

use state::{Packet, StateWords};

// The words of an exit.
pub const EXIT_SIZE: usize = 5;

// The packet with one deflection more.
fn deflected(p: Packet) -> Packet
    requires { p.deflections < most_size }
    ensures { Some result ≡ deflected (Some p) }
{
    Packet {
        deflections: p.deflections + 1,
        ..p
    }
}

// What a router sends E: `turning` says that its W packet goes S, and `client` is what its client sends by that port.
pub fn sent_east(
    turning: bool,
    west: Option<Packet>,
    north: Option<Packet>,
    client: Option<Packet>,
) -> Option<Packet>
    requires { deflections_of north < most_size }
    ensures { result ≡ sent_east turning west north client }
{
    if turning {
        north.map(deflected)
    } else {
        west.or(client)
    }
}

// What a router sends S, likewise.
pub fn sent_south(
    turning: bool,
    west: Option<Packet>,
    north: Option<Packet>,
    client: Option<Packet>,
) -> Option<Packet>
    ensures { result ≡ sent_south turning west north client }
{
    if turning { west } else { north.or(client) }
}

// A W packet in column x goes S.
#[tactic(auto, unfolding(router::specs::Rule::turns_south))]
pub fn turns_south(state: &StateWords, x: u32, west: Option<Packet>) -> bool
    requires { IfSome west (λ p. p.flow < count_in state.now) }
    ensures { result ≡ turns_south x (shown (state_of state.now).plan west) }
{
    matches!(west, Some(p) if x == state.flow(p.flow).xd)
}

// A packet that goes S from the router in column x and row y exits there.
#[tactic(auto, unfolding(crate::specs::Sent::exits))]
pub fn exits(state: &StateWords, x: u32, y: u32, r: Option<Packet>) -> bool
    requires { IfSome r (λ p. p.flow < count_in state.now) }
    ensures { result ≡ exits (state_of state.now).plan x y r }
{
    let Some(p) = r else {
        return false;
    };
    let f = state.flow(p.flow);
    x == f.xd && y == f.yd
}
