// The source of a copy.
ghost use Rattle.std.specs.Prelude.{◌≡◌, ◌<◌, ◌&&◌, option_map, ℕ, List};
ghost use Rattle.bm_base.specs.declared.commands.Transfer.{Transfer};
ghost use Rattle.bm_place.specs.ChoiceResults.{IsFoundSource, senders_with};
ghost use Rattle.bm_base.specs.Maps.Map as map;
ghost use Rattle.bm_base.specs.Machine.RoundStart as round_start;
ghost use Rattle.bm_base.specs.Machine.Transfers as transfers;
ghost use Rattle.bm_place.specs.Sources as sources;
ghost use Rattle.bm_place.specs.Tables as tables;
ghost use Rattle.bm_place.specs.Scan as scanned;

use crate::streams::Streams;
use bm_base::{Level, NodeId, StorageId};
use bm_topo::Topology;

/// A storage as a source, in the order of choice: whether its node drains, the number of transfers
/// that the node sends, the node, the storage.
#[derive(Clone, Copy)]
pub struct SourceRow {
    pub is_drained: bool,
    pub streams: u32,
    pub node: NodeId,
    pub storage: StorageId,
}

/// The source of a copy of a block at this level, among the storages of its usable replicas. A
/// storage whose node drains comes first, since the node is to be emptied. Then the node with the
/// fewest outgoing transfers comes first, then the lesser node, then the lesser storage. `None`
/// only if no node of these may send one more. A node may send 4 transfers in a round at the
/// highest level and 2 at the others; one that drains may send 4 at each.
///
/// `streams` was made from the same cluster; else the answer is unspecified. Scans each usable
/// replica once, with two look-ups. Takes no memory.
pub fn least_source(
    usable: &[StorageId],
    level: Level,
    topology: &Topology,
    streams: &Streams<'_>,
) -> Option<StorageId>
    ensures found { (sends : ℕ → ℕ) → streams.now ≡ sources.sender_table topology.now.cluster sends
        → IsFoundSource topology.now.cluster streams.now sends level usable.now result }
    ensures of_transfers { (chosen : List Transfer)
        → streams.now ≡ senders_with topology.now.cluster chosen
        → result ≡ transfers.least_source topology.now.cluster chosen level usable.now }
{
    let mut best = None;
    for storage in usable {
        let source = source_at(topology, streams, *storage);
        if may_send(&source, level) && is_better(&source, &best) {
            best = Some(source);
        }
    }
    storage_of(&best)
}

fn storage_of(source: &Option<SourceRow>) -> Option<StorageId>
    ensures { result ≡ option_map (λ s. s.storage) source.now }
{
    match source {
        Some(source) => Some(source.storage),
        None => None,
    }
}

/// A storage as a source.
#[tactic(auto, unfolding(bm_base::specs::Machine::Transfers::node_number))]
fn source_at(topology: &Topology, streams: &Streams<'_>, storage: StorageId) -> SourceRow
    ensures { result ≡ sources.source_at topology.now.cluster
        (sources.streams_by topology.now.cluster (tables.count_at streams.now.counts)) storage }
{
    match topology.spot_of(storage) {
        Some(spot) => SourceRow {
            is_drained: spot.drains,
            streams: streams.count_of(spot.node),
            node: spot.node,
            storage,
        },
        None => SourceRow {
            is_drained: false,
            streams: 0,
            node: NodeId(0),
            storage,
        },
    }
}

/// Whether a source comes before the best so far.
fn is_better(source: &SourceRow, best: &Option<SourceRow>) -> bool
    ensures { result ≡ scanned.is_better sources.cmp_sources best.now source.now }
{
    match best {
        Some(best) => rank_of(source.is_drained)
            .cmp(&rank_of(best.is_drained))
            .then(source.streams.cmp(&best.streams))
            .then(source.node.cmp(&best.node))
            .then(source.storage.cmp(&best.storage))
            .is_lt(),
        None => true,
    }
}

/// Drained sources come before live ones.
fn rank_of(is_drained: bool) -> u32
    ensures { result ≡ round_start.rank_if is_drained }
{
    if is_drained { 0 } else { 1 }
}

/// Whether the node of a source may send one more copy of a block at this level.
fn may_send(source: &SourceRow, level: Level) -> bool
    ensures { result ≡ sources.may_send level source.now }
{
    source.streams < stream_limit(level, source.is_drained)
}

/// The number of transfers that a node, which drains or not, may send at this level.
fn stream_limit(level: Level, is_drained: bool) -> u32
    ensures { result ≡ transfers.stream_limit level is_drained }
{
    match level {
        Level::Highest => 4,
        _ if is_drained => 4,
        _ => 2,
    }
}
