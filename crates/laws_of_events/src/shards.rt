// The parts into which blocks are cut by their numbers.
#![tactic(auto)]

ghost use Rattle.bm_parts.specs.Parts as law;

/// The part of a shard has exactly what the whole has of the shard's block numbers.
pub fn cut_gives_parts()
    ensures { law.cut_gives_parts }
{}

/// Every block number belongs to one of the shards, however many there are.
pub fn every_number_has_its_shard()
    ensures { law.every_number_has_its_shard }
{}

/// The parts determine the whole: holdings with the same parts are the same, however many shards
/// there are.
pub fn parts_give_back_whole()
    ensures { law.parts_give_back_whole }
{}

/// An event on one block keeps the parts of all other shards.
pub fn event_changes_one_part()
    ensures { law.event_changes_one_part }
{}

/// Every event changes each part as if it were the whole, with only the reported blocks of that
/// part.
pub fn parts_change_by_themselves()
    ensures { law.parts_change_by_themselves }
{}

/// The numbers of replicas that come and go by an event in the parts add up to those in the whole.
pub fn parts_answers_add_up()
    ensures { law.parts_answers_add_up }
{}
