// The whole report.
ghost use Rattle.std.specs.Prelude.{◌≡◌, IfOk, length, map};
ghost use Rattle.bm_base.specs.Words.{all_replicas, excess_replicas, missing_blocks};
ghost use Rattle.cluster_report.specs.TagTotals.{blocks_held};
ghost use Rattle.cluster_report.specs.Levels.{leveled};
ghost use Rattle.cluster_report.specs.Reports.{levels_held, report_of};
ghost use Rattle.cluster_report.specs.Sessions.{Follows};

use crate::book::Book;
use crate::levels::{
    LevelBytes, LevelCounts, Leveled, count_levels, level_bytes, query_levels, urgent_first,
};
use crate::nodes::{NodeRow, all_nodes, node_rows};
use crate::tag_counts::{TagBytes, TagCounts, count_tags, held_blocks, tag_bytes};
use bm_base::{BlockId, Items, Refusal, Replica};
use bm_manager::Manager;
use std::alloc::{AllocError, Global};

/// The report on a cluster.
#[derive(Drop)]
pub struct Report {
    pub calls: u64,
    pub round: u64,
    pub nodes: Items<NodeRow>,
    pub levels: LevelCounts,
    pub level_bytes: LevelBytes,
    pub tags: TagCounts,
    pub tag_bytes: TagBytes,
    /// The number of replicas in excess; all are good.
    pub excess: usize,
    /// The number of pending copies.
    pub transfers: usize,
    /// The missing blocks, in ascending order.
    pub missing: Items<BlockId>,
    /// The other blocks that need a copy, the most urgent first.
    pub urgent: Items<Leveled>,
}

/// The report on a manager's cluster, by its book. Asks the manager for three lists: all replicas,
/// which takes the most memory, those in excess, and the missing blocks. Also asks for the level of
/// each block with a replica, and for the nodes as `node_rows` does.
pub fn build_report(alloc: Global, manager: &Manager, book: &Book) -> Result<Report, Refusal>
    requires { Follows book.now manager.now }
    ensures { IfOk result (λ r. r ≡ report_of manager.now) }
{
    let replicas = manager.replicas()?;
    report_on(alloc, manager, book, replicas.as_slice())
}

/// As [`build_report`], given all replicas.
fn report_on(
    alloc: Global,
    manager: &Manager,
    book: &Book,
    replicas: &[Replica],
) -> Result<Report, Refusal>
    requires follows { Follows book.now manager.now }
    requires replicas { replicas.now ≡ all_replicas manager.now.holdings }
    ensures { IfOk result (λ r. r ≡ report_of manager.now) }
{
    let excess = count_excess(manager)?;
    let missing = manager.missing()?;
    let levels = held_levels(alloc, manager, replicas)?;
    with_levels(
        alloc,
        manager,
        book,
        replicas,
        levels.as_slice(),
        excess,
        missing,
    )
}

/// As [`build_report`], given the levels of the blocks that have a replica, the number of replicas
/// in excess, and the missing blocks.
fn with_levels(
    alloc: Global,
    manager: &Manager,
    book: &Book,
    replicas: &[Replica],
    levels: &[Leveled],
    excess: usize,
    missing: Items<BlockId>,
) -> Result<Report, Refusal>
    requires follows { Follows book.now manager.now }
    requires replicas { replicas.now ≡ all_replicas manager.now.holdings }
    requires levels { levels.now ≡ levels_held manager.now }
    requires excess { excess ≡ length (excess_replicas manager.now.holdings) }
    requires missing { missing ≡ missing_blocks manager.now.cluster manager.now.holdings }
    ensures { IfOk result (λ r. r ≡ report_of manager.now) }
{
    let nodes = list_nodes(alloc, manager, book)?;
    let urgent = urgent_first(alloc, levels)?;
    Ok(Report {
        calls: manager.calls(),
        round: manager.rounds(),
        nodes,
        levels: count_levels(levels, missing.as_slice().len()),
        level_bytes: held_level_bytes(manager, book, levels, missing.as_slice()),
        tags: count_tags(replicas),
        tag_bytes: held_tag_bytes(manager, book, replicas),
        excess,
        transfers: book.transfers.count(),
        missing,
        urgent: Items::from_vec(urgent),
    })
}

/// The bytes of the blocks at each level, by the lengths in the book.
fn held_level_bytes(
    manager: &Manager,
    book: &Book,
    levels: &[Leveled],
    missing: &[BlockId],
) -> LevelBytes
    requires follows { Follows book.now manager.now }
    requires levels { levels.now ≡ levels_held manager.now }
    requires missing { missing.now ≡ missing_blocks manager.now.cluster manager.now.holdings }
    ensures { result ≡ (report_of manager.now).level_bytes }
{
    level_bytes(&book.blocks, levels, missing)
}

/// The bytes of the replicas of each tag, by the lengths in the book.
fn held_tag_bytes(manager: &Manager, book: &Book, replicas: &[Replica]) -> TagBytes
    requires follows { Follows book.now manager.now }
    requires replicas { replicas.now ≡ all_replicas manager.now.holdings }
    ensures { result ≡ (report_of manager.now).tag_bytes }
{
    tag_bytes(&book.blocks, replicas)
}

fn count_excess(manager: &Manager) -> Result<usize, Refusal>
    ensures { IfOk result (λ n. n ≡ length (excess_replicas manager.now.holdings)) }
{
    let excess = manager.excess()?;
    Ok(excess.as_slice().len())
}

/// The levels of the blocks of these replicas, without the stray ones.
pub fn held_levels(
    alloc: Global,
    manager: &Manager,
    replicas: &[Replica],
) -> Result<Vec<Leveled>, AllocError>
    ensures { IfOk result (λ v. v.items
        ≡ map (leveled manager.now.cluster manager.now.holdings) (blocks_held replicas.now)) }
{
    let held = held_blocks(alloc, replicas)?;
    query_levels(alloc, manager, held.as_slice())
}

/// All nodes with all their storages.
fn list_nodes(alloc: Global, manager: &Manager, book: &Book) -> Result<Items<NodeRow>, Refusal>
    requires { Follows book.now manager.now }
    ensures { IfOk result (λ rows. rows ≡ (report_of manager.now).nodes) }
{
    let nodes = all_nodes(alloc, &book.topology)?;
    node_rows(alloc, manager, book, nodes.as_slice())
}
