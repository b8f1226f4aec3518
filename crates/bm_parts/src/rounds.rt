// Rounds over parts.
#![tactic(auto)]

ghost use Rattle.bm_parts.specs.Findings as found;
ghost use Rattle.bm_parts.specs.RoundLaws as law;

/// Each list that a round finds is ascending, and has exactly the elements of its definition.
pub fn round_part_is_found()
    ensures { found.round_part_is_found }
{}

/// Four ascending lists with exactly these elements are what a round finds, in whatever order they
/// were found.
pub fn found_is_round_part()
    ensures { found.found_is_round_part }
{}

/// A round begins in each part as it begins in the whole: the same transfers have expired, the same
/// replicas are in excess.
pub fn start_cuts_to_start()
    ensures { law.start_cuts_to_start }
{}

/// A round ends in each part as it ends in the whole, if each part gets its own transfers and
/// deletes alone.
pub fn end_cuts_to_end()
    ensures { law.end_cuts_to_end }
{}

/// The wishes of the parts, by level and then by block, are those of the whole.
pub fn wishes_join()
    ensures { law.wishes_join }
{}

/// The replicas of the parts to be deleted, by storage and then by block, are those of the whole.
pub fn deletes_join()
    ensures { law.deletes_join }
{}

/// The transfers chosen from the parts are those chosen from the whole, however many shards there
/// are.
pub fn parts_choose_transfers()
    ensures { law.parts_choose_transfers }
{}

/// The deletes chosen from the parts are those chosen from the whole, however many shards there
/// are.
pub fn parts_choose_deletes()
    ensures { law.parts_choose_deletes }
{}

/// The whole round commands what is chosen from the parts, and has the state after these transfers
/// and deletes.
pub fn whole_round_is()
    ensures { law.whole_round_is }
{}

/// If a round changes every part as defined for parts, it changes the whole as defined for wholes.
pub fn whole_changes_by_round()
    ensures { law.whole_changes_by_round }
{}
