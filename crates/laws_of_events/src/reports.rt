// The state after a full report, and after a received notice.
#![tactic(auto)]

ghost use Rattle.bm_base.specs.Words.{InLawfulStates, AfterAllCalls};
ghost use Rattle.laws_of_events.specs.Reports as law;

/// After a full report a storage has exactly the replicas that the report names, each once.
pub fn full_report_is_exact()
    ensures { law.full_report_is_exact }
{}

/// After a full report a query for the storage's blocks answers the named numbers, each once,
/// ascending.
pub fn report_is_what_is_asked()
    ensures { law.report_is_what_is_asked }
{}

/// Of several entries that name a number the last one decides: by its stamp the replica is good or
/// stale. But it is stray if its block is unknown, and otherwise bad if it was bad. It is in excess
/// exactly if it was and is good, and its delete is not ordered.
pub fn last_entry_decides()
    ensures { law.last_entry_decides }
{}

/// The same full report again changes no block and no replica, and answers that no replica came or
/// went.
pub fn second_report_changes_nothing()
    ensures { law.second_report_changes_nothing }
{}

/// A full report of some entries, followed by a received notice for each number of the others,
/// leads to the state after one full report of all entries. Only the number of calls differs. The
/// condition is that the storage holds no replica that the other entries name.
pub fn report_in_parts()
    ensures { law.report_in_parts }
{}

/// A full report keeps the replicas on the storages of other nodes, marks included.
pub fn report_leaves_other_nodes()
    ensures { law.report_leaves_other_nodes }
{}

/// A received notice keeps the replicas on the storages of other nodes, marks included.
pub fn received_leaves_other_nodes()
    ensures { law.received_leaves_other_nodes }
{}

/// A received replica exists, with its marks decided as by the last entry of a report.
pub fn received_is_there()
    ensures { law.received_is_there }
{}

/// A replica that was bad and is still there after a full report is bad.
pub fn report_leaves_bad_bad()
    ensures lawful { InLawfulStates law.report_leaves_bad_bad }
    ensures reached { AfterAllCalls law.report_leaves_bad_bad }
{}

/// A replica that was bad and is still there after a received notice is bad.
pub fn received_leaves_bad_bad()
    ensures lawful { InLawfulStates law.received_leaves_bad_bad }
    ensures reached { AfterAllCalls law.received_leaves_bad_bad }
{}
