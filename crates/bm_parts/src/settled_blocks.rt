// Settled blocks: each replica is good and unmarked, and there are no more than are wanted.
#![tactic(auto)]

ghost use Rattle.bm_parts.specs.SettledBlocks as law;

/// The start of a round marks no replica of a settled block, and keeps its live and drained
/// replicas and its level.
pub fn settled_is_left()
    ensures { law.settled_is_left }
{}

/// No replica of a settled block is to be deleted in a round.
pub fn settled_is_kept()
    ensures { law.settled_is_kept }
{}

/// Whether a block is settled depends only on its information and on its own replicas.
pub fn settled_is_of_its_block()
    ensures { law.settled_is_of_its_block }
{}

/// A settled block stays settled if storages leave with their replicas.
pub fn leaving_keeps_settled()
    ensures { law.leaving_keeps_settled }
{}

/// A settled block stays settled if a node begins to drain.
pub fn drain_keeps_settled()
    ensures { law.drain_keeps_settled }
{}

/// A round that deletes none of its replicas keeps a settled block settled.
pub fn round_keeps_settled()
    ensures { law.round_keeps_settled }
{}
