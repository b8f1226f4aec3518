// Events applied to parts.
#![tactic(auto)]

ghost use Rattle.std.specs.Prelude.{◌≡◌};
ghost use Rattle.bm_parts.specs.Parts.{block_of};
ghost use Rattle.bm_parts.specs.EventLaws as law;

use bm_base::{BlockId, Event};

/// The block of an event on one block; `None` of an event on the cluster, and of a full report.
pub fn block_of(event: &Event) -> Option<BlockId>
    ensures { result ≡ block_of event.now }
{
    match event {
        Event::AddBlock { id, .. }
        | Event::DeleteBlock { id }
        | Event::SetReplication { id, .. }
        | Event::Restamp { id, .. }
        | Event::Received { id, .. }
        | Event::Deleted { id, .. }
        | Event::Corrupt { id, .. } => Some(*id),
        Event::Register { .. }
        | Event::Dead { .. }
        | Event::StorageFailed { .. }
        | Event::Heartbeat { .. }
        | Event::Drain { .. }
        | Event::Undrain { .. }
        | Event::FullReport { .. } => None,
    }
}

/// An event that is applied to every part is applied to the whole.
pub fn whole_changes_by_event()
    ensures { law.whole_changes_by_event }
{}

/// The numbers of replicas that come and go by an event in the parts add up to those in the whole.
pub fn done_adds_up()
    ensures { law.done_adds_up }
{}

/// An event on one block changes the part of the block's shard as it changes whole holdings, and no
/// other part.
pub fn one_block_changes_one_part()
    ensures { law.one_block_changes_one_part }
{}

/// An event on one block that is made on the part of the block's shard alone is made on the whole,
/// with the whole's answer.
pub fn one_shard_is_enough()
    ensures { law.one_shard_is_enough }
{}
