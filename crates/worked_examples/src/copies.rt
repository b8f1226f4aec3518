// Which replicas are copied, from where and where to.
#![tactic(auto, unfolding(crate::specs::Runs::run_of))]

ghost use Rattle.worked_examples.specs.Copies as example;

/// A block with one of three replicas is copied twice. The first copy goes to the other rack. Then
/// both racks will hold it, and the second goes to the lesser of the two storages left.
pub fn copies_span_two_racks()
    ensures { example.copies_span_two_racks }
{}

/// Once both copies are received, the block has no level, and the next round commands nothing.
pub fn copies_arrive()
    ensures { example.copies_arrive }
{}

/// A node that does not drain sends at most two copies in a round, or four if their blocks have one
/// live replica. A round commands at most `work` copies for each alive node, counted over all
/// nodes.
pub fn stream_and_work_limits()
    ensures two_streams { example.two_streams_from_each_node }
    ensures four_streams { example.four_streams_for_the_most_urgent }
    ensures work { example.work_limits_a_round }
{}

/// A commanded copy is awaited for `pend` rounds, and then commanded again.
pub fn pending_transfer_expires()
    ensures { example.pending_transfer_expires }
{}

/// Only a storage with enough free bytes for the block is a target, even on the same rack. The
/// second copy has no such storage.
pub fn targets_need_free_bytes()
    ensures { example.targets_need_free_bytes }
{}
