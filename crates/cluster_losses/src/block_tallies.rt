// Tallies of all blocks, by one pass over all replicas.
ghost use Rattle.std.specs.Prelude.{◌≡◌, ◌^◌, IfOk, option_and_then};
ghost use Rattle.bm_base.specs.Words.{all_replicas, excess_replicas};
ghost use Rattle.bm_base.specs.Maps.Map.{get};
ghost use Rattle.bm_base.specs.Promises.Lawful.{IsLawful};
ghost use Rattle.cluster_report.specs.Sessions.{IsInStep};
ghost use Rattle.cluster_lost.specs.Sources.{source_of};
ghost use Rattle.cluster_lost.specs.Passes.{IsPassWithin, IsWhole};

use bm_base::{NodeId, Replica, ReplicaId, StorageId};
use bm_maps::NumberMap;
use bm_topo::Topology;
use cluster_lost::block_pass::BlockPass;
use cluster_lost::sources::Source;
use cluster_report::session::Session;
use std::alloc::{AllocError, Global};

/// Tallies all blocks as they are, and for each of `count` rows without the nodes that `rows` gives
/// to it. `replicas` are all replicas of the session's manager, and `excess` those in excess.
pub(crate) fn tally_blocks(
    alloc: Global,
    session: &Session,
    rows: &NumberMap<usize>,
    count: usize,
    replicas: &[Replica],
    excess: &[ReplicaId],
) -> Result<BlockPass, AllocError>
    requires in_step { IsInStep session.now }
    requires lawful { IsLawful session.now.manager }
    requires replicas { replicas.now ≡ all_replicas session.now.manager.holdings }
    requires excess { excess.now ≡ excess_replicas session.now.manager.holdings }
    ensures whole { IfOk result (IsWhole session.now.manager (get rows.now.map) count) }
    ensures within { IfOk result (IsPassWithin (2 ^ 59)) }
{
    let mut pass = BlockPass::new(alloc, count)?;
    for replica in replicas {
        let info = session.book.blocks.get(pass.block);
        let source = source_of(&session.book.topology, rows, replica.storage);
        pass.take(alloc, info, excess, replica, source)?;
    }
    let info = session.book.blocks.get(pass.block);
    pass.finish(alloc, info)?;
    Ok(pass)
}

fn source_of(topology: &Topology, rows: &NumberMap<usize>, storage: StorageId) -> Source
    ensures { result ≡ source_of topology.now.cluster (get rows.now.map) storage }
{
    let location = topology.location_of(storage);
    Source {
        row: row_of(rows, location.node),
        rack: location.rack,
        live: !location.drains,
    }
}

fn row_of(rows: &NumberMap<usize>, node: Option<NodeId>) -> Option<usize>
    ensures { result ≡ option_and_then (get rows.now.map) node }
{
    match node {
        Some(node) => rows.get(u64::from(node.0)),
        None => None,
    }
}
