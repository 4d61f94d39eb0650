// When the registers among a state's words are those of a state. Rests on place and state.
#![tactic(auto)]

ghost use Rattle.std.specs.Prelude.{◌&&◌, ◌≡◌, ◌+◌, ◌≤◌, ◌<◌, Some, leb, eqb, length, get_or};
ghost use Rattle.laws.specs.Bounded.{all_below};
ghost use Rattle.place.specs.Input.{place_of};
ghost use Rattle.state.specs.Layout.{register_size, flow_place};
ghost use Rattle.state.specs.Read.{sx_in, sy_in, count_in};
ghost use Rattle.state.specs.Forms.{is_placed, contents_fit, register_fits, cell_fits};
ghost use Rattle.state.specs.Facts.{FlowsFit};

use place::{Course, Input};
use state::Packet;
use std::marker::Model;

// The four words from a place on are 0: in one test, since every register of every state is looked at.
#[tactic(auto, using(laws::proofs::Zeros::or_none), unfolding(laws::specs::Bounded::all_below))]
pub fn four_zero(w: &[u32], at: usize) -> bool
    requires { at + 4 ≤ length w.now }
    ensures { result ≡ all_below 4 (λ k. eqb (get_or w.now (at + k) 0) 0) }
{
    w[at] | w[at + 1] | w[at + 2] | w[at + 3] == 0
}

// A number lies in 1..most.
pub fn in_range(n: u32, most: u32) -> bool
    ensures { result ≡ leb 1 n && leb n most }
{
    (1..=most).contains(&n)
}

// Words whose header and flows are those of a state, lent with ΔX of every flow; seen as those words.
#[derive(Drop)]
pub struct FlowWords<'a> {
    words: &'a [u32],
    dxs: &'a [u8],
}

impl<'a> Model for FlowWords<'a> {
    ghost use Rattle.std.specs.Prelude.{List, ℕ};
    ghost use Rattle.state.specs.Facts.{FlowsFit};

    ghost Value = { List ℕ };

    ghost view = { λ s. s.words.now };

    ghost invariant = { λ s. FlowsFit s.words.now s.dxs.now };
}

impl<'a> FlowWords<'a> {
    pub fn of(words: &'a [u32], dxs: &'a [u8]) -> FlowWords<'a>
        requires { FlowsFit words.now dxs.now }
        ensures { result ≡ words.now }
    {
        FlowWords { words, dxs }
    }

    // A packet of a flow below F entered before the clock, and is in place.
    fn is_placed(&self, input: Input, x: u32, y: u32, packet: Packet) -> bool
        requires flow_below { packet.flow < count_in self.now }
        requires router { (x < sx_in self.now) × (y < sy_in self.now) }
        ensures { result ≡ is_placed self.now (place_of input x y) (flow_place packet.flow) packet.entry packet.deflections }
    {
        let f = packet.flow as usize;
        let course = Course {
            torus: state::torus_in(self.words),
            flow: state::flow_in(self.words, state::flow_place(f)),
            dx: u32::from(self.dxs[f]),
        };
        let clock = self.words[state::CLOCK];
        packet.entry < clock
            && course.in_place(input, x, y, packet.deflections, clock - packet.entry)
    }

    // The packet of a register is that of a state.
    fn packet_fits(&self, input: Input, x: u32, y: u32, packet: Packet) -> bool
        requires { (x < sx_in self.now) × (y < sy_in self.now) }
        ensures { result ≡ contents_fit self.now (place_of input x y) 0 (Some packet) }
    {
        packet.flow < self.words[state::FLOWS]
            && in_range(
                packet.serial,
                state::entered_in(self.words, state::flow_place(packet.flow as usize)),
            )
            && self.is_placed(input, x, y, packet)
    }

    // The four words of a register are those of a state.
    #[tactic(auto, unfolding(state::specs::Forms::register_fits))]
    fn register_fits(&self, input: Input, x: u32, y: u32, at: usize) -> bool
        requires router { (x < sx_in self.now) × (y < sy_in self.now) }
        requires register_size_in_bounds { at + register_size ≤ length self.now }
        ensures { result ≡ register_fits self.now (place_of input x y) at }
    {
        match state::register_at(self.words, at) {
            None => four_zero(self.words, at),
            Some(packet) => self.packet_fits(input, x, y, packet),
        }
    }

    // Both registers of a router are those of a state. A vacant router is looked at in one go.
    #[tactic(auto, using(state::proofs::Forms::empty_fits), unfolding(state::specs::Forms::cell_fits))]
    fn cell_fits(&self, x: u32, y: u32) -> bool
        requires { (x < sx_in self.now) × (y < sy_in self.now) }
        ensures { result ≡ cell_fits self.now x y }
    {
        let flows = self.words[state::FLOWS] as usize;
        let at = state::router_place(flows, self.words[state::SX], x, y);
        if state::is_vacant(self.words, at) {
            four_zero(self.words, at) & four_zero(self.words, at + state::REGISTER_SIZE)
        } else {
            self.register_fits(Input::West, x, y, at)
                && self.register_fits(Input::North, x, y, at + state::REGISTER_SIZE)
        }
    }

    // All registers of a row are those of a state.
    fn row_fits(&self, y: u32) -> bool
        requires { y < sy_in self.now }
        ensures { result ≡ all_below (sx_in self.now) (λ x. cell_fits self.now x y) }
    {
        (0..self.words[state::SX]).all(|x| self.cell_fits(x, y))
    }

    // All registers are those of a state.
    pub fn rows_fit(&self) -> bool
        ensures { result ≡ all_below (sy_in self.now) (λ y. all_below (sx_in self.now) (λ x. cell_fits self.now x y)) }
    {
        (0..self.words[state::SY]).all(|y| self.row_fits(y))
    }
}
