// The C interface, declared in include/hrt.h: thin, over the calls of plan, bounds, reset, writing, offer, offers, step, steps, telling and feed.
#![tactic(auto)]

ghost use Rattle.std.specs.Prelude.{◌≡◌};
ghost use Rattle.bounds.specs.Bounds.{window_answer, burst_answer, flight_bound_answer};
ghost use Rattle.bounds.specs.Inner.{NumberMost};
ghost use Rattle.flow.specs.declared.Offerer.TheVariants.{Sonar, Generator};
ghost use Rattle.host.specs.Words.{window_word, answer_word, notes_answer, in_words};
ghost use Rattle.refusal.specs.Answer.{Refused, told, told_value};
ghost use Rattle.refusal.specs.Cause.{cause_number};
ghost use Rattle.state.specs.Outcome.{outcome, lent};
ghost use Rattle.state.specs.Reset.{reset_on};
ghost use Rattle.state.specs.Writing.{write_on};
ghost use Rattle.cycle.specs.Offer.{offer_on};
ghost use Rattle.cycle.specs.Set.{offer_set_on};
ghost use Rattle.cycle.specs.Step.{step_on};
ghost use Rattle.cycle.specs.Steps.{steps_on};
ghost use Rattle.cycle.specs.Reasons.{telling, step_reasons_on};
ghost use Rattle.feed.specs.Feed.{feed_on};

use flow::Offerer;
use recent::Recent;
use refusal::Refusal;

// The window call's answer as a number.
fn window_word(a: Result<u32, Refusal>) -> u32
    requires { NumberMost 14 (told_value a) }
    ensures { result ≡ window_word (told_value a) }
{
    a.unwrap_or_else(|e| 65536 + e.cause.number())
}

// A refusal as a number.
fn refusal_word(e: Refusal) -> u64
    ensures { result ≡ answer_word (Refused (cause_number e.cause) e.place) }
{
    u64::from(e.cause.number()) * 4294967296 + u64::from(e.place)
}

// The answer of a call that has a value.
fn value_word(a: Result<u32, Refusal>) -> u64
    ensures { result ≡ answer_word (told_value a) }
{
    a.map_or_else(refusal_word, u64::from)
}

// The answer of a call that has no value. Each of the two is a line; a trait for both would be longer.
fn answer_word(a: Result<(), Refusal>) -> u64
    ensures { result ≡ answer_word (told a) }
{
    a.map_or_else(refusal_word, |()| 0)
}

// T of a flow, or 65,536 + the refusal number.
#[tactic(auto, using(bounds::proofs::Numbers::window_most))]
#[unsafe(no_mangle)]
pub extern "C" fn hrt_window(plan: &[u8], flow: u32) -> u32
    ensures { result ≡ window_word (window_answer plan.now flow) }
{
    window_word(bounds::window(plan, flow))
}

// B of so many packets of a flow.
#[unsafe(no_mangle)]
pub extern "C" fn hrt_burst(plan: &[u8], flow: u32, packets: u32) -> u64
    ensures { result ≡ answer_word (burst_answer plan.now flow packets) }
{
    value_word(bounds::burst(plan, flow, packets))
}

// The flight bound of a flow.
#[unsafe(no_mangle)]
pub extern "C" fn hrt_flight(plan: &[u8], flow: u32) -> u64
    ensures { result ≡ answer_word (flight_bound_answer plan.now flow) }
{
    value_word(bounds::flight_bound(plan, flow))
}

// The length of the notes, the leading part of the file.
#[tactic(auto, unfolding(crate::specs::Words::notes_answer))]
#[unsafe(no_mangle)]
pub extern "C" fn hrt_notes(plan: &[u8]) -> u64
    ensures { result ≡ answer_word (notes_answer plan.now) }
{
    plan::plan_answer(plan).map_or_else(refusal_word, |()| plan::notes(plan).len() as u64)
}

// A state from a plan file.
#[unsafe(no_mangle)]
pub extern "C" fn hrt_reset(plan: &[u8], state: &mut [u32]) -> u64
    ensures { outcome result state.new ≡ in_words (reset_on plan.now state.old) }
{
    answer_word(reset::reset(plan, state))
}

// The plan file of a state with lent notes.
#[unsafe(no_mangle)]
pub extern "C" fn hrt_write(state: &[u32], notes: &[u8], target: &mut [u8]) -> u64
    ensures { outcome result target.new ≡ in_words (write_on state.now notes.now target.old) }
{
    value_word(writing::write(state, notes, target))
}

// One packet of a flow.
#[unsafe(no_mangle)]
pub extern "C" fn hrt_offer(state: &mut [u32], flow: u32) -> u64
    ensures { outcome result state.new ≡ in_words (offer_on Sonar state.old flow) }
{
    answer_word(offer::offer(Offerer::Sonar, state, flow))
}

// One packet of a flow, for the trial generator.
#[unsafe(no_mangle)]
pub extern "C" fn hrt_offer_trial(state: &mut [u32], flow: u32) -> u64
    ensures { outcome result state.new ≡ in_words (offer_on Generator state.old flow) }
{
    answer_word(offer::offer(Offerer::Generator, state, flow))
}

// One packet for each entry of a list of flows, all or none.
#[unsafe(no_mangle)]
pub extern "C" fn hrt_offer_set(state: &mut [u32], flows: &[u32]) -> u64
    ensures { outcome result state.new ≡ in_words (offer_set_on state.old flows.now) }
{
    answer_word(offers::offer_set(state, flows))
}

// One cycle, and its exits.
#[unsafe(no_mangle)]
pub extern "C" fn hrt_step(state: &mut [u32], delivery: &mut [u32]) -> u64
    ensures { outcome result (lent state.new delivery.new) ≡ in_words (step_on state.old delivery.old) }
{
    value_word(step::step(state, delivery))
}

// So many cycles, each step delivering behind the last, and all their exits.
#[unsafe(no_mangle)]
pub extern "C" fn hrt_steps(state: &mut [u32], delivery: &mut [u32], cycles: u32) -> u64
    ensures { outcome result (lent state.new delivery.new) ≡ in_words (steps_on state.old delivery.old cycles) }
{
    value_word(steps::steps(state, delivery, cycles))
}

// One cycle, its exits, and why each flow didn't enter.
#[unsafe(no_mangle)]
pub extern "C" fn hrt_step_reasons(
    state: &mut [u32],
    delivery: &mut [u32],
    reasons: &mut [u32],
) -> u64
    ensures { outcome result (telling (lent state.new delivery.new) reasons.new)
        ≡ in_words (step_reasons_on state.old delivery.old reasons.old) }
{
    value_word(telling::step_reasons(state, delivery, reasons))
}

// A step's deliveries, each at its flow's record of the last L.
#[unsafe(no_mangle)]
pub extern "C" fn hrt_recent(
    state: &[u32],
    deliveries: &[u32],
    records: &mut [Recent],
    last: u32,
) -> u64
    ensures { outcome result records.new ≡ in_words (feed_on state.now deliveries.now last records.old) }
{
    answer_word(feed::feed(state, deliveries, records, last))
}
