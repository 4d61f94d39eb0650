// A flow's rivals, the search for a window among them, and the lone wait. Rests on conflict and bucket.
#![tactic(auto)]

ghost use Rattle.std.specs.Prelude.{◌≡◌, ◌+◌, ◌*◌, ◌/◌, ◌<◌, ◌≤◌, [], ◌++◌, ◌∷◌, leb, length};
ghost use Rattle.window.specs.Window.{most_window, least_from, least_window, lone_wait};
ghost use Rattle.flow.specs.Plan.{most_period, most_burst, most_flows};
ghost use Rattle.window.specs.Rivals.{RivalOk, AllOk, rival_share, whole_link, demand_of, rates_of, keep_rival};

use arrayvec::ArrayVec;
use flow::Flow;
use std::marker::Model;

// Windows run from 1 to 65,535.
pub const MOST_WINDOW: u32 = 65535;

// The parts in which a link, one packet a cycle, is counted.
const WHOLE_LINK: u32 = 2147483648;

// A flow that conflicts with another, as far as the other's window goes: its burst, its period and their spread.
#[derive(Clone, Copy, Debug, Default, PartialEq, Eq)]
pub struct Rival {
    pub burst: u32,
    pub period: u32,
    pub spread: u32,
}

// The rivals of a flow, with room for N, and the sum of their rates, in those parts a cycle. Seen as the list of the rivals.
#[derive(Drop)]
pub struct Rivals<const N: usize> {
    kept: ArrayVec<Rival, N>,
    rates: u64,
}

impl<const N: usize> Model for Rivals<N> {
    ghost use Rattle.std.specs.Prelude.{List, ◌≡◌};
    ghost use Rattle.window.specs.declared.Rival.{Rival};
    ghost use Rattle.window.specs.Rivals.{rates_of};

    ghost Value = { List Rival };

    ghost view = { λ r. r.kept.items };

    ghost invariant = { λ r. r.rates ≡ rates_of r.kept.items };
}

impl Rival {
    // What the rival adds to I(t).
    #[tactic(auto, unfolding(crate::specs::Rivals::rival_share))]
    fn share(self, t: u32) -> u32
        requires { (RivalOk self) × ((1 ≤ t) × (t ≤ most_window)) }
        ensures { result ≡ rival_share t self }
    {
        bucket::most_entries(self.burst, self.period, t - 1 + self.spread)
    }

    // Its rate.
    fn rate(self) -> u32
        requires { 1 ≤ self.period }
        ensures { (result ≡ whole_link / self.period) × (result ≤ whole_link) }
    {
        WHOLE_LINK / self.period
    }
}

// What rivals add to I(t).
#[tactic(auto, using(crate::proofs::Demand::demand_most, std::proofs::lemmas::List::Sums::sum_by_more_le), unfolding(crate::specs::Rivals::demand_of))]
fn demand_of(rivals: &[Rival], t: u32) -> u32
    requires { (AllOk rivals.now) × ((length rivals.now ≤ most_flows) × ((1 ≤ t) × (t ≤ most_window))) }
    ensures { result ≡ demand_of rivals.now t }
{
    let mut sum = 0u32;
    for rival in rivals {
        sum += rival.share(t);
    }
    sum
}

impl<const N: usize> Rivals<N> {
    #[tactic(auto, unfolding(crate::specs::Rivals::rates_of))]
    pub fn new() -> Rivals<N>
        ensures { result ≡ [] }
    {
        Rivals {
            kept: ArrayVec::new(),
            rates: 0,
        }
    }

    // Flow g becomes a rival if it conflicts.
    #[tactic(auto, using(crate::proofs::Rates::rates_most, std::proofs::lemmas::List::Sums::sum_by_push), unfolding(crate::specs::Rivals::rates_of))]
    pub fn keep(&mut self, g: Flow, conflict: Option<u32>)
        requires room { (length self.old < N) × (rates_of self.old ≤ whole_link * most_flows) }
        requires le_period { 1 ≤ g.period }
        ensures { self.new ≡ keep_rival self.old g conflict }
    {
        if let Some(spread) = conflict {
            let rival = Rival {
                burst: g.burst,
                period: g.period,
                spread,
            };
            self.rates += rival.rate() as u64;
            self.kept.push(rival);
        }
    }

    // The rates fill the link, so that no window is left.
    pub fn fills_link(&self) -> bool
        ensures { result ≡ leb whole_link (rates_of self.now) }
    {
        (WHOLE_LINK as u64) <= self.rates
    }

    // The least window that the rivals leave for so many packets. They add a packet each at least, so there is none below the search's
    // start; and where there is none at t, there is none below the packets and the rivals' demand at t.
    pub fn least_burst(&self, packets: u32) -> Option<u32>
        requires rivals { (length self.now ≤ most_flows) × AllOk self.now }
        requires packets { (1 ≤ packets) × (packets ≤ most_burst) }
        ensures { result ≡ least_window (λ t. leb (demand_of self.now t + packets) t) }
    {
        let mut t = (self.kept.len() as u32) + packets;
        loop {
            if MOST_WINDOW < t {
                break None;
            }
            let d = demand_of(&self.kept, t) + packets;
            if d <= t {
                break Some(t);
            }
            t = d;
        }
    }

    // The least window that the rivals leave for one packet.
    pub fn least_window(&self) -> Option<u32>
        requires { (length self.now ≤ most_flows) × AllOk self.now }
        ensures { result ≡ least_from (demand_of self.now) most_window 1 }
    {
        self.least_burst(1)
    }
}

// A lone packet's longest wait, by the flow's window.
pub fn lone_wait(f: Flow, window: u32) -> u32
    requires { ((1 ≤ f.period) × (f.period ≤ most_period)) × ((1 ≤ window) × (window ≤ most_window)) }
    ensures { result ≡ lone_wait f window }
{
    f.period + window - 2
}
