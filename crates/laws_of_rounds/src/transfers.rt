// The copies that a round commands, with source and target. A round chooses its transfers one after
// another.
ghost use Rattle.laws_of_rounds.specs.Transfers as law;

/// The transfers of a round are at most `work` times the number of alive nodes.
pub fn at_most_work_times_nodes()
    ensures { law.AtMostWorkTimesNodes }
{}

/// Each transfer is of a known block, with its stamp, from a storage with a live or drained replica
/// of it.
pub fn source_is_live_or_drained()
    ensures { law.SourceIsLiveOrDrained }
{}

/// A drained replica is the source before every live one, until its node sends four.
pub fn drained_source_goes_first()
    ensures { law.DrainedSourceGoesFirst }
{}

/// A round commands no node more than four transfers, whether it drains or not.
pub fn at_most_four_from_a_node()
    ensures { law.AtMostFourFromANode }
{}

/// A transfer's target is on an alive node that does not drain. That node has no replica of the
/// block of any tag and no pending transfer of it, and no other transfer of the block in the round
/// goes to it.
pub fn target_is_on_fresh_node()
    ensures { law.TargetIsOnFreshNode }
{}

/// No round makes a node that drains a target.
pub fn no_draining_node_is_a_target()
    ensures { law.NoDrainingNodeIsATarget }
{}

/// The lengths that a round sends to a storage add up to at most its remaining bytes.
pub fn sent_fits()
    ensures { law.SentFits }
{}

/// A block never gets more transfers in a round than it lacks replicas, with pending ones counted.
/// A block that has enough of them, but on one rack, gets one, and only if none is pending.
pub fn no_more_than_lacks()
    ensures { law.NoMoreThanLacks }
{}

/// A block that has enough replicas, but on one rack, gets its copy on another rack.
pub fn second_rack()
    ensures { law.SecondRack }
{}

/// A round chooses transfers by level, 0 before 1 before 2 before 3, and at one level by the number
/// of the block.
pub fn most_urgent_first()
    ensures { law.MostUrgentFirst }
{}
