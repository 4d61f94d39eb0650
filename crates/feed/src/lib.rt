// Feeding a step's deliveries to the records of recent flights. Rests on delivery, recent and valid.
#![tactic(auto)]

ghost use Rattle.std.specs.Prelude.{◌≡◌, length, map};
ghost use Rattle.refusal.specs.Answer.{told, number_in};
ghost use Rattle.state.specs.Read.{plan_in};
ghost use Rattle.state.specs.Outcome.{outcome};
ghost use Rattle.delivery.specs.Groups.{groups_of};
ghost use Rattle.delivery.specs.Inner.{as_told, group_in};
ghost use Rattle.feed.specs.Feed.{fed_all, feed_number, feed_on};
ghost use Rattle.feed.specs.Inner.{Keepable, Feedable, kept_with};

use delivery::Delivery;
use recent::Recent;
use refusal::{Cause, Refusal};
use state::StateWords;

// What a call is refused for after the state's own.
#[tactic(auto, using(state::proofs::View::view_count), unfolding(crate::specs::Feed::feed_number))]
fn check_records(
    state: &StateWords,
    deliveries: &[u32],
    count: usize,
    last: u32,
) -> Result<(), Cause>
    ensures { number_in result ≡ feed_number (plan_in state.now) (groups_of deliveries.now) count last }
{
    if count < (state.flows() as usize) {
        return Err(Cause::RecordsShort);
    }
    if last < 1 || (recent::MOST_KEPT as u32) < last {
        return Err(Cause::KeptRange);
    }
    if delivery::any_strange(state, deliveries) {
        return Err(Cause::NotInPlan);
    }
    Ok(())
}

// A record with a delivery.
#[tactic(auto, unfolding(crate::specs::Inner::kept_with))]
fn kept_with(r: Recent, d: Delivery, last: u32) -> Recent
    requires { Keepable (as_told d) last }
    ensures { result ≡ kept_with last (as_told d) r }
{
    let flight = d.exit - d.entry + 2;
    recent::with_delivery(r, last, flight, d.deflections)
}

// Each group at its flow's record.
fn feed_groups(records: &mut [Recent], groups: &[[u32; cycle::EXIT_SIZE]], last: u32)
    requires { Feedable groups.now (length records.old) last }
    ensures { records.new ≡ fed_all last (map group_in groups.now) records.old }
{
    for group in groups {
        let d = Delivery::from(*group);
        let at = d.flow as usize;
        records[at] = kept_with(records[at], d, last);
    }
}

// A step's deliveries, each at its flow's record of the last L; or the refusal, before any record changes.
pub fn feed(
    state: &[u32],
    deliveries: &[u32],
    records: &mut [Recent],
    last: u32,
) -> Result<(), Refusal>
    ensures { outcome (told result) records.new ≡ feed_on state.now deliveries.now last records.old }
{
    check_records(&valid::read_state(state)?, deliveries, records.len(), last)?;
    feed_groups(records, delivery::whole_groups(deliveries), last);
    Ok(())
}
