// The answers of parts, joined.
#![tactic(auto)]

ghost use Rattle.bm_parts.specs.QueryLaws as law;

/// The replicas of the parts, by block and then by storage, are those of the whole.
pub fn replicas_join()
    ensures { law.replicas_join }
{}

/// The replicas of the parts whose marks pass a test, like the corrupt ones and those in excess,
/// are those of the whole.
pub fn marked_replicas_join()
    ensures { law.marked_replicas_join }
{}

/// The missing blocks of the parts, ascending, are those of the whole.
pub fn missing_join()
    ensures { law.missing_join }
{}

/// The blocks of the parts' replicas on a storage, ascending, are those of the whole's.
pub fn blocks_on_join()
    ensures { law.blocks_on_join }
{}

/// The tables of the parts, by block, are the table of the whole.
pub fn tables_join()
    ensures { law.tables_join }
{}

/// Some block of the whole holds a node back exactly if some block of some part does.
pub fn held_back_by_some_part()
    ensures { law.held_back_by_some_part }
{}

/// A node is retired exactly if it drains and no part holds it back.
pub fn retired_by_all_parts()
    ensures { law.retired_by_all_parts }
{}

/// The part of a block's shard answers for the block what the whole answers: whether it is known,
/// its places, its level.
pub fn own_shard_answers()
    ensures { law.own_shard_answers }
{}

/// The part of a block's shard refuses an event on the block if the whole does, and for the same
/// reasons.
pub fn own_shard_checks()
    ensures { law.own_shard_checks }
{}
