// Nodes that drain: their replicas no longer count as live, and are copied to other nodes until the
// node can be removed.
#![tactic(auto, unfolding(crate::specs::Runs::run_of))]

ghost use Rattle.worked_examples.specs.DrainingNodes as example;

/// A block whose only replica is on a node that drains is not missing, but the first to be copied.
/// Once its copy is received, the node is retired. If the node no longer drains, both replicas
/// count again, and one is surplus.
pub fn draining_block_is_copied_and_retired()
    ensures { example.draining_block_is_copied_and_retired }
{}

/// A source on a node that drains comes first: the node sends four copies in a round, even of
/// blocks that are not the most urgent. Another node sends the fifth.
pub fn draining_node_sends_four()
    ensures { example.draining_node_sends_four }
{}

/// When a node begins to drain, the pending copy to it is dropped, and commanded again to another
/// node.
pub fn no_copy_to_a_draining_node()
    ensures { example.no_copy_to_a_draining_node }
{}
