// Reset: from a plan file to a state. Rests on plan and state.
#![tactic(auto)]

ghost use Rattle.std.specs.Prelude.{[], ◌∷◌, ◌≡◌, ◌+◌, ◌*◌, ◌≤◌, length, replicate};
ghost use Rattle.std.proofs.lemmas.List.Edits.{sets};
ghost use Rattle.refusal.specs.Answer.{told};
ghost use Rattle.file.specs.Layout.{trailer_of, plan_of};
ghost use Rattle.state.specs.Layout.{header_size, flow_size, router_size, flow_place, plan_size};
ghost use Rattle.state.specs.State.{reset_state};
ghost use Rattle.state.specs.Words.{state_words};
ghost use Rattle.state.specs.Outcome.{outcome, over};
ghost use Rattle.state.specs.Reset.{reset_on};
ghost use Rattle.reset.specs.Fresh.{fresh_words, fresh_flows};

use bucket::Bucket;
use file::Trailer;
use flow::Flow;
use plan::PlanFile;
use refusal::{Cause, Refusal};
use state::Tally;

// Writes Sx, Sy, F, clock 0 and the four zeros.
fn put_header(w: &mut [u32], t: Trailer)
    requires { header_size ≤ length w.old }
    ensures { w.new ≡ sets w.old 0 (t.sx ∷ t.sy ∷ t.count ∷ 0 ∷ 0 ∷ 0 ∷ 0 ∷ 0 ∷ []) }
{
    state::put_four(w, 0, t.sx, t.sy, t.count, 0);
    state::put_four(w, state::ZEROS, 0, 0, 0, 0);
}

// Writes a flow with a full bucket, nothing entered and nothing waiting.
fn put_flow(w: &mut [u32], at: usize, f: Flow)
    requires { at + flow_size ≤ length w.old }
    ensures { w.new ≡ sets w.old at (fresh_words f) }
{
    let bucket = Bucket {
        tokens: f.burst,
        count: 0,
    };
    state::put_numbers(w, at, f);
    state::put_tally(
        w,
        at,
        Tally {
            bucket,
            entered: 0,
            waiting: 0,
        },
    );
}

// Writes the flows of a file's plan.
fn put_flows(plan: &PlanFile, w: &mut [u32])
    requires { flow_place (trailer_of plan.now).count ≤ length w.old }
    ensures { w.new ≡ sets w.old header_size (fresh_flows (plan_of plan.now)) }
{
    for f in 0..plan.trailer().count {
        put_flow(w, state::flow_place(f as usize), plan.flow(f));
    }
}

// Empties the registers of some routers from a place on: a `fill` that knows the size of a router.
fn clear(w: &mut [u32], at: usize, routers: usize)
    requires { at + router_size * routers ≤ length w.old }
    ensures { w.new ≡ sets w.old at (replicate (router_size * routers) 0) }
{
    w[at..at + state::ROUTER_SIZE * routers].fill(0);
}

// Writes the reset state of a file's plan.
fn put_reset(plan: &PlanFile, w: &mut [u32])
    requires { plan_size (plan_of plan.now) ≤ length w.old }
    ensures { w.new ≡ over (state_words (reset_state (plan_of plan.now))) w.old }
{
    let t = plan.trailer();
    let torus = plan.torus();
    put_header(w, t);
    put_flows(plan, w);
    clear(
        w,
        state::flow_place(t.count as usize),
        (torus.sx * torus.sy) as usize,
    );
}

// Reset: the plan's refusals, then 8; otherwise the state's words are written. Words past its size stay.
#[tactic(auto, unfolding(state::specs::Reset::reset_on, state::specs::Outcome::unless_refused))]
pub fn reset(file: &[u8], state: &mut [u32]) -> Result<(), Refusal>
    ensures { outcome (told result) state.new ≡ reset_on file.now state.old }
{
    let plan = PlanFile::open(file)?;
    if state.len() < state::size(plan.trailer().count as usize, plan.torus()) {
        return Err(Cause::StateShort.into());
    }
    put_reset(&plan, state);
    Ok(())
}
