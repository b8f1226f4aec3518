// How urgently blocks need replicas.
#![tactic(auto, unfolding(crate::specs::Runs::run_of))]

ghost use Rattle.worked_examples.specs.Levels as example;

/// A block without replicas is missing, and a round copies nothing.
pub fn block_without_replicas_is_missing()
    ensures { example.block_without_replicas_is_missing }
{}

/// Two replicas are a third of six, fewer than a third of seven, and enough for two. A replication
/// of 0 or above 16 is refused, and so is that of an unknown block.
pub fn levels_follow_replication()
    ensures { example.levels_follow_replication }
{}

/// A block with enough replicas, all on one rack, is copied to the other rack; then one of the two
/// replicas on the first rack is deleted. If nodes are alive on only one rack, nothing is copied. A
/// rack counts even if its nodes drain and have no storage; the rack of a drained replica does not.
pub fn badly_distributed_block_gets_second_rack()
    ensures second_rack { example.badly_distributed_block_gets_second_rack }
    ensures only_rack { example.one_rack_is_enough_where_no_other_is_alive }
    ensures drained { example.drained_replica_is_on_no_rack }
{}

/// A node's death leaves two blocks with one live replica each. In the next round the excess
/// replica whose delete was not commanded counts again, so its block is only badly distributed.
/// Both blocks are copied.
pub fn queue_follows_death()
    ensures { example.queue_follows_death }
{}

/// Levels are not ordered by need: rounds serve 0 before 1 before 2 before 3, and 4 not at all. A
/// block with neither a live nor a drained replica gets no copy, and with one it is the first to
/// get one.
pub fn first_replica_makes_a_block_the_first_to_copy()
    ensures { example.first_replica_makes_a_block_the_first_to_copy }
{}

/// A node on a second rack may put a block in need, if all live replicas of the block are on the
/// rack that was the only one.
pub fn second_rack_may_raise_need()
    ensures { example.second_rack_may_raise_need }
{}
