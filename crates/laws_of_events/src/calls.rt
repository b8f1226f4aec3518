// The state after each kind of call.
#![tactic(auto)]

ghost use Rattle.laws_of_events.specs.Calls as law;

/// A query keeps the state, refused or not.
pub fn query_leaves_state()
    ensures { law.query_leaves_state }
{}

/// An accepted event counts as one call; the round number and the limits stay.
pub fn event_is_counted()
    ensures { law.event_is_counted }
{}

/// An accepted round counts as one call and raises the round number by one; the cluster and the
/// blocks stay, and no replica comes, goes or gets another tag.
pub fn round_is_counted()
    ensures { law.round_is_counted }
{}

/// No event, round or query, refused or not, changes how many nodes and storages the cluster may
/// have.
pub fn call_leaves_cluster_limits()
    ensures { law.call_leaves_cluster_limits }
{}

/// A refusal keeps the state, whether the step refuses or memory is out.
pub fn refused_answer_leaves_state()
    ensures { law.refused_answer_leaves_state }
{}

/// An answer other than a refusal is the step's, and so is the next state, also if memory is
/// limited.
pub fn other_answer_is_the_steps()
    ensures { law.other_answer_is_the_steps }
{}
