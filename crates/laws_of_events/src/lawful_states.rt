// Every state that calls lead to is lawful.
#![tactic(auto)]

ghost use Rattle.laws_of_events.specs.LawfulForEver as law;

/// The first state of every configuration whose first numbers fit their types is lawful, within all
/// allowed limits of the cluster.
pub fn first_state_is_lawful()
    ensures { law.first_state_is_lawful }
{}

/// An event that nothing refuses, and whose numbers fit their types, keeps a lawful state lawful.
pub fn event_keeps_lawful()
    ensures { law.event_keeps_lawful }
{}

/// A round that nothing refuses keeps a lawful state lawful. Each chosen copy goes to a known
/// storage and is of a known block, and only good replicas are put in excess.
pub fn round_keeps_lawful()
    ensures { law.round_keeps_lawful }
{}

/// A refused call keeps the state.
pub fn refusal_leaves_state()
    ensures { law.refusal_leaves_state }
{}

/// A call whose numbers fit their types keeps a lawful state lawful: an event, a round or a query,
/// refused or not.
pub fn call_keeps_lawful()
    ensures { law.call_keeps_lawful }
{}

/// Every list of calls whose numbers fit their types leads from the first state to a lawful state,
/// within all allowed limits.
pub fn calls_lead_to_lawful()
    ensures { law.calls_lead_to_lawful }
{}

/// As [`calls_lead_to_lawful`] if memory is limited: whatever the calls may answer, the next state
/// is lawful.
pub fn answered_calls_lead_to_lawful()
    ensures { law.answered_calls_lead_to_lawful }
{}

/// Every list of calls, whatever numbers they bring, and whatever the limits, leads to a state that
/// is lawful but for the sizes of its numbers.
pub fn calls_lead_to_orderly()
    ensures { law.calls_lead_to_orderly }
{}

/// As [`calls_lead_to_orderly`] if memory is limited.
pub fn answered_calls_lead_to_orderly()
    ensures { law.answered_calls_lead_to_orderly }
{}

/// After every list of calls, the target of a pending transfer has no replica of the block, of any
/// tag.
pub fn transfers_are_still_to_come()
    ensures { law.transfers_are_still_to_come }
{}
