// When words form a state, and what a call on a state refuses first: 8 and 9. Rests on registers.
#![tactic(auto)]

ghost use Rattle.std.specs.Prelude.{◌≡◌, ◌≤◌, IfOk, IfSome, is_some, length};
ghost use Rattle.refusal.specs.Answer.{number_in};
ghost use Rattle.laws.specs.Bounded.{all_below};
ghost use Rattle.flow.specs.Offsets.{ΔX};
ghost use Rattle.state.specs.Layout.{header_size, flow_place};
ghost use Rattle.state.specs.Read.{sx_in, count_in, flow_in};
ghost use Rattle.state.specs.Forms.{header_fits, numbers_fit, tally_fits, flow_fits, rest_fits, size_in, state_number};
ghost use Rattle.state.specs.Facts.{HeaderFacts, Headed, FlowOf};

use flow::{Flow, Torus};
use refusal::Cause;
use registers::FlowWords;
use state::{StateWords, Tally};

// The first eight words are those of a state.
#[tactic(auto, unfolding(state::specs::Forms::header_fits))]
fn header_fits(w: &[u32]) -> bool
    requires { header_size ≤ length w.now }
    ensures { result ≡ header_fits w.now }
{
    plan::size_ok(w[state::SX])
        && plan::size_ok(w[state::SY])
        && registers::in_range(w[state::FLOWS], plan::MOST_FLOWS)
        && registers::four_zero(w, state::ZEROS)
}

// A flow's plan numbers lie in their ranges.
#[tactic(auto, unfolding(state::specs::Forms::numbers_fit))]
fn numbers_fit(torus: Torus, f: Flow) -> bool
    ensures { result ≡ numbers_fit torus.sx torus.sy f }
{
    f.on_torus(torus.sx, torus.sy)
        && registers::in_range(f.period, flow::MOST_PERIOD)
        && registers::in_range(f.burst, flow::MOST_BURST)
}

// A flow's bucket, entered and waiting are those of a state.
#[tactic(auto, unfolding(state::specs::Forms::tally_fits))]
fn tally_fits(clock: u32, f: Flow, t: Tally) -> bool
    ensures { result ≡ tally_fits clock f t }
{
    t.bucket.fits(f.burst, f.period) && t.waiting <= flow::MOST_WAITING && t.entered <= clock
}

// The words of flow f are those of a state.
#[tactic(auto, unfolding(state::specs::Forms::flow_fits))]
fn flow_fits(w: &[u32], f: usize) -> bool
    requires { FlowOf w.now f }
    ensures { result ≡ flow_fits w.now f }
{
    let at = state::flow_place(f);
    let flow = state::flow_in(w, at);
    numbers_fit(state::torus_in(w), flow)
        && tally_fits(w[state::CLOCK], flow, state::tally_in(w, at))
}

// ΔX of flow f, which fits a byte, where its words are those of a state.
#[tactic(auto, using(state::proofs::Forms::flow_facts, torus::proofs::Axis::offset_below))]
fn dx_of(w: &[u32], f: usize) -> Option<u8>
    requires { FlowOf w.now f }
    ensures fits { is_some result ≡ flow_fits w.now f }
    ensures value { IfSome result (λ dx. dx ≡ ΔX (sx_in w.now) (flow_in w.now (flow_place f))) }
{
    if !flow_fits(w, f) {
        return None;
    }
    let flow = state::flow_in(w, state::flow_place(f));
    Some(flow.offset_x(w[state::SX]) as u8)
}

// The words with ΔX of each flow, by its number, where every flow's words are those of a state.
#[tactic(auto, using(laws::proofs::Bounded::all_none, crate::proofs::ColumnOffsets::column_offsets_none, crate::proofs::ColumnOffsets::flows_fit))]
fn read_flows<'a>(w: &'a [u32], dxs: &'a mut [u8]) -> Option<FlowWords<'a>>
    requires { (Headed w.now) × (count_in w.now ≤ length dxs.old) }
    ensures fit { is_some result ≡ all_below (count_in w.now) (flow_fits w.now) }
    ensures words { IfSome result (λ s. s ≡ w.now) }
{
    let count = w[state::FLOWS] as usize;
    // By number: a flow's number is what `dx_of` asks for and the place of its ΔX.
    for f in 0..count {
        dxs[f] = dx_of(w, f)?;
    }
    Some(FlowWords::of(w, dxs))
}

// The words behind the header are those of a state. Its loops are a function of their own (`inline(never)`): among the refusals of
// `check_state` they have too few registers, and keep a column's number in memory.
#[inline(never)]
#[tactic(auto, unfolding(state::specs::Forms::rest_fits))]
fn rest_fits(w: &[u32]) -> bool
    requires { Headed w.now }
    ensures { result ≡ rest_fits w.now }
{
    let mut dxs = [0u8; plan::MOST_FLOWS as usize];
    read_flows(w, &mut dxs).is_some_and(|flows| flows.rows_fit())
}

// The size that the header asks for.
fn size_in(w: &[u32]) -> usize
    requires { (header_size ≤ length w.now) × HeaderFacts w.now }
    ensures { result ≡ size_in w.now }
{
    state::size(w[state::FLOWS] as usize, state::torus_in(w))
}

// What every call on a state refuses first: nothing where the words form one.
#[tactic(auto, using(state::proofs::Forms::header_facts), unfolding(state::specs::Forms::state_number))]
pub fn check_state(w: &[u32]) -> Result<(), Cause>
    ensures { number_in result ≡ state_number w.now }
{
    let length = w.len();
    if length < state::HEADER_SIZE {
        return Err(Cause::StateShort);
    }
    if !header_fits(w) {
        return Err(Cause::NoState);
    }
    if length < size_in(w) {
        return Err(Cause::StateShort);
    }
    if !rest_fits(w) {
        return Err(Cause::NoState);
    }
    Ok(())
}

// The words as those of a state, or what every call on a state refuses first.
#[tactic(auto, using(state::proofs::Forms::state_facts))]
pub fn read_state(w: &[u32]) -> Result<StateWords<'_>, Cause>
    ensures number { number_in result ≡ state_number w.now }
    ensures words { IfOk result (λ s. s ≡ w.now) }
{
    check_state(w)?;
    Ok(StateWords::of(w))
}
