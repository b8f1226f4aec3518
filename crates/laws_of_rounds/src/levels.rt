// How urgently blocks need replicas.
ghost use Rattle.bm_base.specs.Words.{InLawfulStates, AfterAllCalls};
ghost use Rattle.laws_of_rounds.specs.Levels as law;

/// An unknown block has no level. A known one has one level or none, since `level` is a function.
pub fn unknown_block_has_no_level()
    ensures { law.UnknownBlockHasNoLevel }
{}

/// In a lawful state a known block has level 4 exactly if no replica of it is live, and none is
/// drained.
pub fn level_four_is_no_usable_replica()
    ensures lawful { InLawfulStates law.LevelFourIsNoUsableReplica }
    ensures reached { AfterAllCalls law.LevelFourIsNoUsableReplica }
{}

/// In a lawful state a known block with no live replica, but a drained one, has level 0, and so is
/// not missing.
pub fn only_drained_is_level_zero()
    ensures lawful { InLawfulStates law.OnlyDrainedIsLevelZero }
    ensures reached { AfterAllCalls law.OnlyDrainedIsLevelZero }
{}

/// In a lawful state a known block has level 3 exactly if four conditions hold. Two or more
/// replicas are wanted, at least that number is live, all live ones are on one rack, and the alive
/// nodes are on two racks or more.
pub fn level_three_is_one_rack()
    ensures lawful { InLawfulStates law.LevelThreeIsOneRack }
    ensures reached { AfterAllCalls law.LevelThreeIsOneRack }
{}

/// In any state a known block has level 0, 1, 2 or 4 exactly if fewer replicas are live than are
/// wanted.
pub fn short_of_replicas_is_level_zero_one_two_or_four()
    ensures { law.ShortOfReplicas }
{}

/// With more wanted replicas a block is in no less need of them.
pub fn more_wanted_is_no_less_need()
    ensures { law.MoreWantedIsNoLessNeed }
{}

/// Raising a block's replication leaves it in no less need of replicas.
pub fn raised_replication_is_no_less_need()
    ensures { law.RaisedReplicationIsNoLessNeed }
{}

/// A block with one more live replica is in no more need of replicas, whatever becomes of its
/// drained ones. This law is stated for the counts.
pub fn one_replica_more_is_no_more_need()
    ensures { law.OneReplicaMoreIsNoMoreNeed }
{}

/// A block with one more drained replica is in no more need of replicas.
pub fn one_drained_replica_more_is_no_more_need()
    ensures { law.OneDrainedReplicaMoreIsNoMoreNeed }
{}
