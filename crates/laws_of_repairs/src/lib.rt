//! The levels of blocks while copies arrive and replicas are deleted, and no node or storage is
//! lost. No block gets a level that had none, unless DataNodes report a replica of it. So a list
//! that has all blocks with a level still has them if each block of a report is added. Its blocks
//! at each level are all blocks at that level.
#![tactic(auto)]

ghost use Rattle.bm_base.specs.Words.{InLawfulStates};
ghost use Rattle.laws_of_repairs.specs.Repairs as law;

/// In a lawful state a round gives no block a level that had none.
pub fn round_gives_no_level()
    ensures { InLawfulStates law.RoundGivesNoLevel }
{}

/// A heartbeat keeps the levels of all blocks. A notice of a copy or a delete keeps the levels of
/// all blocks but its own.
pub fn reports_keep_levels()
    ensures { law.ReportsKeepLevels }
{}

/// If a list has all blocks with a level, each once, then at each level the number of its blocks is
/// that of all known blocks.
pub fn covering_blocks_count_as_all()
    ensures { law.CoveringBlocksCountAsAll }
{}
