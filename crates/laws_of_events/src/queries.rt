// Queries list exactly what is held.
#![tactic(auto)]

ghost use Rattle.laws_of_events.specs.Queries as law;

/// The list of all replicas has one of a given block, storage and tag exactly if such a replica is
/// held.
pub fn replicas_are_held()
    ensures { law.replicas_are_held }
{}

/// The corrupt replicas are those that are stale or bad.
pub fn corrupt_are_stale_or_bad()
    ensures { law.corrupt_are_stale_or_bad }
{}

/// The replicas in excess are those so marked.
pub fn excess_are_marked()
    ensures { law.excess_are_marked }
{}

/// The blocks on a storage are those of all its replicas, whatever their tags.
pub fn blocks_on_are_held()
    ensures { law.blocks_on_are_held }
{}

/// The places of a block are the storages of its good replicas, in excess or not.
pub fn places_are_good()
    ensures { law.places_are_good }
{}

/// In a lawful state the missing blocks are the known blocks without a replica that is good and not
/// in excess, whether its node drains or not.
pub fn missing_have_no_usable_replica()
    ensures { law.missing_have_no_usable_replica }
{}

/// Each list is strictly ascending, so it has no duplicates: replicas by block and then by storage,
/// blocks and storages by number.
pub fn lists_ascend()
    ensures { law.lists_ascend }
{}
