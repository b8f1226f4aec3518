// Which calls are refused, and by which of the checks that fail.
#![tactic(auto, unfolding(crate::specs::Runs::run_of))]

ghost use Rattle.worked_examples.specs.Refusals as example;

/// An answer names what is wrong: a node or a storage is known already or unknown, a storage is
/// another node's, or a block is unknown.
pub fn refusals_are_named()
    ensures { example.refusals_are_named }
{}

/// If two checks of an event fail, its answer names the first. Refused events change nothing.
pub fn first_failing_check_counts()
    ensures { example.first_failing_check_counts }
{}

/// When no further call can be counted, events and rounds are refused, but only after all their
/// other checks. Queries are still answered.
pub fn spent_calls_are_checked_last()
    ensures events { example.spent_calls_are_checked_last }
    ensures rounds { example.spent_rounds_come_before_spent_calls }
{}

/// Rounds and calls are numbered up to the greatest 64-bit number. Further ones are refused.
pub fn rounds_and_calls_run_out()
    ensures rounds { example.rounds_run_out }
    ensures calls { example.calls_run_out }
{}

/// Shards, workers and the limits of a configuration have ranges, which include both ends.
pub fn configurations_have_ranges()
    ensures outside { example.outside_ranges_refused }
    ensures ends { example.ends_of_ranges_accepted }
{}

/// The limits of nodes and of storages have ranges, which include both ends.
pub fn limits_have_ranges()
    ensures outside { example.limits_outside_ranges_refused }
    ensures inside { example.limits_in_ranges_accepted }
{}
