// Bounds from a plan file: the window of a flow and of its bursts, and its flight bound. Rests on plan, turning, window and flight.
#![tactic(auto)]

ghost use Rattle.std.specs.Prelude.{◌≡◌, ◌+◌, ◌<◌, ◌≤◌, IfOk};
ghost use Rattle.flow.specs.Offsets.{port_of};
ghost use Rattle.flow.specs.Plan.{most_burst, most_flows, flow_at};
ghost use Rattle.flow.specs.Ranges.{PlanOk};
ghost use Rattle.refusal.specs.Answer.{Done, answer_with, told_value};
ghost use Rattle.file.specs.Layout.{trailer_of, plan_of};
ghost use Rattle.window.specs.Window.{window_of, burst_window_of};
ghost use Rattle.window.specs.Rivals.{RivalsAmong};
ghost use Rattle.bounds.specs.Bounds.{asked, window_answer, is_burst, burst_answer, flight_bound_answer, flight_bound_of};

use conflict::Meeting;
use flow::{Flow, Port};
use plan::PlanFile;
use refusal::{Cause, Refusal};
use std::marker::Model;
use window::Rivals;

// Room for the rivals of a flow, which are flows of its plan: little where the plan has few flows, since all of it is cleared first.
const FEW_FLOWS: usize = 64;

const MOST_FLOWS: usize = plan::MOST_FLOWS as usize;

// An accepted plan file with its turning rows, found once: a word of bits for each column. Seen as the file's bytes.
#[derive(Drop)]
pub struct Bounds<'a> {
    plan: &'a PlanFile<'a>,
    columns: [u32; turning::COLUMNS],
}

impl<'a> Model for Bounds<'a> {
    ghost use Rattle.std.specs.Prelude.{List, ℕ};
    ghost use Rattle.flow.specs.Ranges.{PlanOk};
    ghost use Rattle.file.specs.Layout.{plan_of};
    ghost use Rattle.turning.specs.Columns.{TurningIn};

    ghost Value = { List ℕ };

    ghost view = { λ b. b.plan.now };

    ghost invariant = { λ b. PlanOk (plan_of b.plan.now) × TurningIn (plan_of b.plan.now) b.columns };
}

impl Bounds<'_> {
    pub fn of<'a>(plan: &'a PlanFile<'a>) -> Bounds<'a>
        ensures { result ≡ plan.now }
    {
        let mut columns = [0u32; turning::COLUMNS];
        for f in 0..plan.trailer().count {
            turning::note(&mut columns, plan.flow(f));
        }
        Bounds { plan, columns }
    }

    // Flow g, after the rivals of flow f among the flows before it.
    fn meet<const N: usize>(&self, f: u32, own: Flow, port: Port, g: u32, rivals: &mut Rivals<N>)
        requires flows { (f < (trailer_of self.now).count) × (g < (trailer_of self.now).count) }
        requires room { ((trailer_of self.now).count ≤ N) × (N ≤ most_flows) }
        requires own_value { (own ≡ flow_at (plan_of self.now) f) × (port ≡ port_of (plan_of self.now).sx own) }
        requires rivals_among { RivalsAmong (plan_of self.now) f g rivals.old }
        ensures { RivalsAmong (plan_of self.now) f (g + 1) rivals.new }
    {
        if g == f {
            return;
        }
        let other = self.plan.flow(g);
        let meeting = Meeting {
            torus: self.plan.torus(),
            word: self.columns[other.xd as usize],
            own,
            other,
        };
        rivals.keep(other, meeting.conflict(port));
    }

    // The window B of so many packets of flow f, with room for N rivals. They are found once, as long as their rates leave some of the
    // link.
    fn burst_in<const N: usize>(&self, f: u32, packets: u32) -> Option<u32>
        requires flow { f < (trailer_of self.now).count }
        requires packets { (1 ≤ packets) × (packets ≤ most_burst) }
        requires room { ((trailer_of self.now).count ≤ N) × (N ≤ most_flows) }
        ensures { result ≡ burst_window_of (plan_of self.now) f packets }
    {
        let own = self.plan.flow(f);
        let port = own.port(self.plan.torus().sx);
        let mut rivals = Rivals::<N>::new();
        for g in 0..self.plan.trailer().count {
            self.meet(f, own, port, g, &mut rivals);
            if rivals.fills_link() {
                return None;
            }
        }
        rivals.least_burst(packets)
    }

    // The window B of so many packets of flow f.
    pub fn burst(&self, f: u32, packets: u32) -> Option<u32>
        requires flow { f < (trailer_of self.now).count }
        requires packets { (1 ≤ packets) × (packets ≤ most_burst) }
        ensures { result ≡ burst_window_of (plan_of self.now) f packets }
    {
        if self.plan.trailer().count as usize <= FEW_FLOWS {
            self.burst_in::<FEW_FLOWS>(f, packets)
        } else {
            self.burst_in::<MOST_FLOWS>(f, packets)
        }
    }

    // The window T of flow f: that of one packet.
    pub fn window(&self, f: u32) -> Option<u32>
        requires { f < (trailer_of self.now).count }
        ensures { result ≡ window_of (plan_of self.now) f }
    {
        self.burst(f, 1)
    }

    // The flight bound of flow f.
    pub fn flight(&self, f: u32) -> u32
        requires { f < (trailer_of self.now).count }
        ensures { result ≡ flight_bound_of (plan_of self.now) f }
    {
        let flow = self.plan.flow(f);
        let word = self.columns[flow.xd as usize];
        flight::flight_bound(self.plan.torus(), word, flow)
    }
}

// The plan file that a call on flow f asks, or the call's refusal.
#[tactic(auto, using(crate::proofs::Asked::asked_first, crate::proofs::Asked::asked_beyond, crate::proofs::Asked::asked_own, plan::proofs::Ranges::plan_count))]
fn ask(file: &[u8], f: u32) -> Result<PlanFile<'_>, Refusal>
    ensures answer { answer_with (λ plan. 0) result ≡ asked file.now f (Done 0) }
    ensures plan { IfOk result (λ plan. (plan ≡ file.now) × ((f < (trailer_of plan).count) × PlanOk (plan_of plan))) }
{
    let plan = PlanFile::open(file)?;
    if plan.trailer().count <= f {
        return Err(Cause::NotInPlan.into());
    }
    Ok(plan)
}

// The window call: T, or a refusal.
pub fn window(file: &[u8], f: u32) -> Result<u32, Refusal>
    ensures { told_value result ≡ window_answer file.now f }
{
    let plan = ask(file, f)?;
    Bounds::of(&plan).window(f).ok_or(Cause::NoWindow.at(f))
}

// A burst has 1 to σ packets.
fn is_burst(flow: Flow, packets: u32) -> bool
    ensures { result ≡ is_burst flow packets }
{
    1 <= packets && packets <= flow.burst
}

// The burst call: B, or a refusal.
pub fn burst(file: &[u8], f: u32, packets: u32) -> Result<u32, Refusal>
    ensures { told_value result ≡ burst_answer file.now f packets }
{
    let plan = ask(file, f)?;
    if !is_burst(plan.flow(f), packets) {
        return Err(Cause::BurstRange.into());
    }
    Bounds::of(&plan)
        .burst(f, packets)
        .ok_or(Cause::NoWindow.at(f))
}

// The flight call: the flight bound, or a refusal.
pub fn flight_bound(file: &[u8], f: u32) -> Result<u32, Refusal>
    ensures { told_value result ≡ flight_bound_answer file.now f }
{
    let plan = ask(file, f)?;
    Ok(Bounds::of(&plan).flight(f))
}
