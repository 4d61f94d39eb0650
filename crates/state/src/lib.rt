// State memory: its words, read and written by value. Rests on flow and bucket.
#![tactic(auto)]

ghost use Rattle.std.specs.Prelude.{◌≡◌, ◌&&◌, [], ◌∷◌, ◌+◌, ◌≤◌, ◌<◌, eqb, length, get_or, set};
ghost use Rattle.std.proofs.lemmas.List.Edits.{sets};
ghost use Rattle.laws.specs.Grid.{cell_index};
ghost use Rattle.flow.specs.Plan.{most_size, most_flows, flow_at};
ghost use Rattle.state.specs.Layout.{header_size, clock_place, flow_size, number_size, register_size, router_size, flow_place, router_place, state_size};
ghost use Rattle.state.specs.Inner.{most_routers, flow_of};
ghost use Rattle.state.specs.Words.{number_words, tally_words, register_words};
ghost use Rattle.state.specs.State.{tally_at, cell_at};
ghost use Rattle.state.specs.Read.{sx_in, sy_in, count_in, clock_in, flow_in, tally_in, register_in, cell_in, state_of};
ghost use Rattle.state.specs.Facts.{HeaderFacts, StateFacts};
ghost use Rattle.state.specs.Tallied.{AtEach, Retallied};

use bucket::Bucket;
use flow::{Flow, Torus};
use std::marker::Model;

// The words in front of the flows: Sx, Sy, F, clock, four zeros.
pub const HEADER_SIZE: usize = 8;
// Of these, the places of Sx, Sy, F, the clock and the four zeros.
pub const SX: usize = 0;

pub const SY: usize = 1;

pub const FLOWS: usize = 2;

pub const CLOCK: usize = 3;

pub const ZEROS: usize = 4;
// The words of a flow.
const FLOW_SIZE: usize = 10;
// Of these, the places of its tokens, count, entered and waiting, behind its plan numbers.
const TOKENS: usize = 6;

const COUNT: usize = 7;

const ENTERED: usize = 8;

const WAITING: usize = 9;
// The words of a link register.
pub const REGISTER_SIZE: usize = 4;
// The words of a router: W before N.
pub const ROUTER_SIZE: usize = 8;
// The routers of the largest torus: 16 by 16.
pub const MOST_ROUTERS: usize = 256;
// The clock of the last state.
pub const LAST_CLOCK: u32 = 4294967295;

// A packet in flight, as a link register has it.
#[derive(Clone, Copy, Debug, PartialEq, Eq)]
pub struct Packet {
    pub flow: u32,
    pub serial: u32,
    pub entry: u32,
    pub deflections: u32,
}

// The link registers of a router: each is empty, or has one packet.
#[derive(Clone, Copy, Debug, PartialEq, Eq)]
pub struct Cell {
    pub west: Option<Packet>,
    pub north: Option<Packet>,
}

// A flow's bucket, entered and waiting.
#[derive(Clone, Copy, Debug, PartialEq, Eq)]
pub struct Tally {
    pub bucket: Bucket,
    pub entered: u32,
    pub waiting: u32,
}

// Words that form a state, lent to be read; seen as those words. What writes them is lent them as a slice, and asks for the fact by
// name, since between two writes they form no state.
#[derive(Drop)]
pub struct StateWords<'a> {
    words: &'a [u32],
}

impl<'a> Model for StateWords<'a> {
    ghost use Rattle.std.specs.Prelude.{List, ℕ};
    ghost use Rattle.state.specs.Facts.{StateFacts};

    ghost Value = { List ℕ };

    ghost view = { λ s. s.words.now };

    ghost invariant = { λ s. StateFacts s.words.now };
}

impl StateWords<'_> {
    pub fn of(words: &[u32]) -> StateWords<'_>
        requires { StateFacts words.now }
        ensures { result ≡ words.now }
    {
        StateWords { words }
    }

    pub fn words(&self) -> &[u32]
        ensures value { result.now ≡ self.now }
        ensures facts { StateFacts self.now }
    {
        self.words
    }

    pub fn sx(&self) -> u32
        ensures value { result ≡ sx_in self.now }
        ensures facts { StateFacts self.now }
    {
        self.words[SX]
    }

    pub fn sy(&self) -> u32
        ensures value { result ≡ sy_in self.now }
        ensures facts { StateFacts self.now }
    {
        self.words[SY]
    }

    // Sx columns and Sy rows.
    pub fn torus(&self) -> Torus
        ensures sizes { (result.sx ≡ sx_in self.now) × (result.sy ≡ sy_in self.now) }
        ensures facts { StateFacts self.now }
    {
        torus_in(self.words)
    }

    // The count of flows F.
    pub fn flows(&self) -> u32
        ensures value { result ≡ count_in self.now }
        ensures facts { StateFacts self.now }
    {
        self.words[FLOWS]
    }

    pub fn clock(&self) -> u32
        ensures value { result ≡ clock_in self.now }
        ensures facts { StateFacts self.now }
    {
        self.words[CLOCK]
    }

    // The plan numbers of flow f.
    #[tactic(auto, using(crate::proofs::View::flow_seen))]
    pub fn flow(&self, f: u32) -> Flow
        requires { f < count_in self.now }
        ensures value { result ≡ flow_at (state_of self.now).plan f }
        ensures facts { StateFacts self.now }
    {
        flow_in(self.words, flow_place(f as usize))
    }

    // Its bucket, entered and waiting.
    #[tactic(auto, using(crate::proofs::View::view_tally))]
    pub fn tally(&self, f: u32) -> Tally
        requires { f < count_in self.now }
        ensures value { result ≡ tally_at (state_of self.now) f }
        ensures facts { StateFacts self.now }
    {
        tally_in(self.words, flow_place(f as usize))
    }

    // The registers of the router in column x and row y.
    #[tactic(auto, using(crate::proofs::View::view_cell))]
    pub fn cell(&self, x: u32, y: u32) -> Cell
        requires { (x < sx_in self.now) × (y < sy_in self.now) }
        ensures value { result ≡ cell_at (state_of self.now) x y }
        ensures facts { StateFacts self.now }
    {
        let flows = self.words[FLOWS] as usize;
        cell_in(self.words, router_place(flows, self.words[SX], x, y))
    }
}

// Where the words of flow f stand; behind those of the last flow, the registers.
pub fn flow_place(f: usize) -> usize
    requires { f ≤ most_flows }
    ensures { result ≡ flow_place f }
{
    HEADER_SIZE + FLOW_SIZE * f
}

// Where the router in column x and row y stands among the routers.
pub fn router_index(sx: u32, x: u32, y: u32) -> usize
    requires { (sx ≤ most_size) × ((x < sx) × (y < most_size)) }
    ensures { (result ≡ cell_index sx x y) × (result < most_routers) }
{
    (y * sx + x) as usize
}

// Where its registers stand, behind so many flows.
pub fn router_place(flows: usize, sx: u32, x: u32, y: u32) -> usize
    requires flows_le_most_flows { flows ≤ most_flows }
    requires sx_le_most_size { (sx ≤ most_size) × ((x < sx) × (y < most_size)) }
    ensures { result ≡ router_place flows sx x y }
{
    flow_place(flows) + ROUTER_SIZE * router_index(sx, x, y)
}

// The words of a state.
pub fn size(flows: usize, torus: Torus) -> usize
    requires { flows ≤ most_flows }
    ensures { result ≡ state_size flows torus.sx torus.sy }
{
    flow_place(flows) + ROUTER_SIZE * ((torus.sx * torus.sy) as usize)
}

// The torus of a header that fits.
pub fn torus_in(w: &[u32]) -> Torus
    requires { (header_size ≤ length w.now) × HeaderFacts w.now }
    ensures { (result.sx ≡ sx_in w.now) × (result.sy ≡ sy_in w.now) }
{
    Torus {
        sx: w[SX],
        sy: w[SY],
    }
}

// The six plan numbers of the flow at a place.
pub fn flow_in(w: &[u32], at: usize) -> Flow
    requires { at + flow_size ≤ length w.now }
    ensures { result ≡ flow_in w.now at }
{
    Flow {
        xs: w[at],
        ys: w[at + 1],
        xd: w[at + 2],
        yd: w[at + 3],
        period: w[at + 4],
        burst: w[at + 5],
    }
}

// The bucket, entered and waiting of the flow at a place.
pub fn tally_in(w: &[u32], at: usize) -> Tally
    requires { at + flow_size ≤ length w.now }
    ensures { result ≡ tally_in w.now at }
{
    let bucket = Bucket {
        tokens: w[at + TOKENS],
        count: w[at + COUNT],
    };
    Tally {
        bucket,
        entered: w[at + ENTERED],
        waiting: w[at + WAITING],
    }
}

// How many packets of the flow at a place have entered.
pub fn entered_in(w: &[u32], at: usize) -> u32
    requires { at + flow_size ≤ length w.now }
    ensures { result ≡ (tally_in w.now at).entered }
{
    w[at + ENTERED]
}

// The register at a place.
pub fn register_at(w: &[u32], at: usize) -> Option<Packet>
    requires { at + register_size ≤ length w.now }
    ensures { result ≡ register_in w.now at }
{
    let flow = w[at];
    if flow == 0 {
        return None;
    }
    Some(Packet {
        flow: flow - 1,
        serial: w[at + 1],
        entry: w[at + 2],
        deflections: w[at + 3],
    })
}

// Both registers of the router at a place.
pub fn cell_in(w: &[u32], at: usize) -> Cell
    requires { at + router_size ≤ length w.now }
    ensures { result ≡ cell_in w.now at }
{
    Cell {
        west: register_at(w, at),
        north: register_at(w, at + REGISTER_SIZE),
    }
}

// Neither register of the router at a place has a packet: in one test, since a step asks it of every router.
#[tactic(auto, using(laws::proofs::Zeros::or_none))]
pub fn is_vacant(w: &[u32], at: usize) -> bool
    requires { at + router_size ≤ length w.now }
    ensures { result ≡ eqb (get_or w.now at 0) 0 && eqb (get_or w.now (at + register_size) 0) 0 }
{
    w[at] | w[at + REGISTER_SIZE] == 0
}

// Writes four words at a place.
pub fn put_four(w: &mut [u32], at: usize, a: u32, b: u32, c: u32, d: u32)
    requires { at + 4 ≤ length w.old }
    ensures { w.new ≡ sets w.old at (a ∷ b ∷ c ∷ d ∷ []) }
{
    w[at] = a;
    w[at + 1] = b;
    w[at + 2] = c;
    w[at + 3] = d;
}

// Writes the words of a register at a place.
pub fn put_register(w: &mut [u32], at: usize, r: Option<Packet>)
    requires { (at + register_size ≤ length w.old) × (flow_of r + 1 < 4294967296) }
    ensures { w.new ≡ sets w.old at (register_words r) }
{
    match r {
        None => put_four(w, at, 0, 0, 0, 0),
        Some(p) => put_four(w, at, p.flow + 1, p.serial, p.entry, p.deflections),
    }
}

// Writes a flow's six plan numbers at a place.
pub fn put_numbers(w: &mut [u32], at: usize, f: Flow)
    requires { at + flow_size ≤ length w.old }
    ensures { w.new ≡ sets w.old at (number_words f) }
{
    put_four(w, at, f.xs, f.ys, f.xd, f.yd);
    w[at + 4] = f.period;
    w[at + 5] = f.burst;
}

// Writes a flow's bucket, entered and waiting, behind its plan numbers.
pub fn put_tally(w: &mut [u32], at: usize, t: Tally)
    requires { at + flow_size ≤ length w.old }
    ensures { w.new ≡ sets w.old (at + number_size) (tally_words t) }
{
    put_four(
        w,
        at + TOKENS,
        t.bucket.tokens,
        t.bucket.count,
        t.entered,
        t.waiting,
    );
}

// Writes each flow's next tally, by its number, plan numbers and tally.
pub fn retally<N: Fn(u32, Flow, Tally) -> Tally>(state: &mut [u32], next: N)
    requires facts { StateFacts state.old }
    requires callable { AtEach (N.pre next) state.old }
    ensures { Retallied (N.post next) state.old (count_in state.old) state.new }
{
    for f in 0..state[FLOWS] {
        let at = flow_place(f as usize);
        let tally = next(f, flow_in(state, at), tally_in(state, at));
        put_tally(state, at, tally);
    }
}

// Writes the clock.
pub fn put_clock(w: &mut [u32], clock: u32)
    requires { header_size ≤ length w.old }
    ensures { w.new ≡ set w.old clock_place clock }
{
    w[CLOCK] = clock;
}
