// A table of the losses if each rack or each node fails alone.
ghost use Rattle.std.specs.Prelude.{◌≡◌, IfErr, IfOk, OnOk};
ghost use Rattle.bm_base.specs.Promises.Lawful.{IsLawful};
ghost use Rattle.bm_base.specs.Words.{AllZip, IsPermutation, IsSorted, missing_blocks};
ghost use Rattle.cluster_report.specs.Sessions.{IsInStep};
ghost use Rattle.cluster_losses.specs.Faults.{IsRefusal};
ghost use Rattle.cluster_losses.specs.Outcomes.{AreTallied, IsTallied};
ghost use Rattle.cluster_losses.specs.RowIndex.{AreApart};
ghost use Rattle.cluster_losses.specs.Tables.{AreRows, IsRowAt, levels_cmp, row_cmp};

use crate::applied_losses::Outcome;
use crate::block_tallies::tally_blocks;
use crate::cluster_counts::{ClusterCounts, levels_by};
use crate::failure_domains::FailureDomain;
pub use crate::failure_domains::{nodes_of, racks_of};
use crate::fault::Fault;
use crate::row_counts::{free_without, is_multi_without, left_of, merge};
use crate::row_index::rows_of_nodes;
use bm_base::{BlockId, Items};
use cluster_input::loaded_cluster::Loaded;
use cluster_lost::block_pass::{BlockPass, RowTally};
use cluster_lost::tally::Tally;
use cluster_pages::files_at_risk::files_at_risk;
use cluster_report::levels::LevelCounts;
use std::alloc::{AllocError, Global};
use std::cmp::Ordering;

/// The losses if one rack or node fails alone.
#[derive(Drop)]
pub struct Row {
    /// The number of the rack or node.
    pub number: u32,
    /// How many nodes are lost.
    pub nodes: usize,
    pub lost_files: usize,
    pub without: Outcome,
}

/// The losses if each of these racks or nodes fails alone, the worst first: by lost blocks, then by
/// the blocks at the first three levels, then by number. They are computed in one pass over all
/// replicas; each block takes time for the domains that have a replica of it. No node may be in two
/// domains.
pub fn make_rows(
    alloc: Global,
    loaded: &Loaded,
    domains: &[FailureDomain],
) -> Result<Vec<Row>, Fault>
    requires in_step { IsInStep loaded.now.session }
    requires apart { AreApart domains.now }
    ensures rows { IfOk result (λ v.
        AreRows loaded.now.files loaded.now.session.manager domains.now v.items) }
    ensures fault { IfErr result IsRefusal }
{
    let session = &loaded.session;
    session.manager.show_invariant();
    let replicas = session.manager.replicas()?;
    let excess = session.manager.excess()?;
    let missing = session.manager.missing()?;
    let index = rows_of_nodes(alloc, domains)?;
    let pass = tally_blocks(
        alloc,
        session,
        &index,
        domains.len(),
        replicas.as_slice(),
        excess.as_slice(),
    )?;
    let mut rows = rows_of(alloc, loaded, domains, &pass, missing.as_slice())?;
    sort_worst_first(&mut rows)?;
    Ok(rows)
}

/// A row for each rack or node, by its tallies. `missing` are the missing blocks.
fn rows_of(
    alloc: Global,
    loaded: &Loaded,
    domains: &[FailureDomain],
    pass: &BlockPass,
    missing: &[BlockId],
) -> Result<Vec<Row>, AllocError>
    requires in_step { IsInStep loaded.now.session }
    requires lawful { IsLawful loaded.now.session.manager }
    requires missing { let M = loaded.now.session.manager in
        missing.now ≡ missing_blocks M.cluster M.holdings }
    requires tallied { AreTallied loaded.now.session.manager domains.now pass.now }
    ensures { IfOk result (λ v.
        AllZip (IsRowAt loaded.now.files loaded.now.session.manager) domains.now v.items) }
{
    let tallies = pass.rows.as_slice();
    let mut rows = Vec::new(alloc);
    for index in 0..domains.len() {
        let domain = &domains[index];
        let row = make_row(alloc, loaded, domain, &pass.all, &tallies[index], missing)?;
        rows.push(row)?;
    }
    Ok(rows)
}

/// The row of one rack or node.
fn make_row(
    alloc: Global,
    loaded: &Loaded,
    domain: &FailureDomain,
    all: &Tally,
    tally: &RowTally,
    missing: &[BlockId],
) -> Result<Row, AllocError>
    requires in_step { IsInStep loaded.now.session }
    requires lawful { IsLawful loaded.now.session.manager }
    requires missing { let M = loaded.now.session.manager in
        missing.now ≡ missing_blocks M.cluster M.holdings }
    requires tallied { IsTallied loaded.now.session.manager domain.now.nodes all.now tally.now }
    ensures { IfOk result (IsRowAt loaded.now.files loaded.now.session.manager domain.now) }
{
    let book = &loaded.session.book;
    let nodes = domain.nodes.as_slice();
    let lost = tally.lost.as_slice();
    let left = left_of(all, tally);
    let is_multi = is_multi_without(alloc, book, nodes)?;
    let free = free_without(alloc, &book.topology, nodes)?;
    let missing = merge(alloc, missing, lost)?;
    let risk = files_at_risk(alloc, &loaded.files, lost, &[])?;
    let lost = Items::from_slice(alloc, lost)?;
    Ok(Row {
        number: domain.number,
        nodes: domain.nodes.len(),
        lost_files: risk.lost.len(),
        without: Outcome {
            after: ClusterCounts {
                levels: levels_by(&left, is_multi, missing.len()),
                missing,
                lacking: left.lacking,
                free,
            },
            lost,
        },
    })
}

fn sort_worst_first(rows: &mut Vec<Row>) -> Result<(), AllocError>
    ensures moved { IsPermutation rows.old.items rows.new.items }
    ensures in_order { OnOk result (IsSorted row_cmp rows.new.items) }
{
    rows.sort_by(|one, other| compare(one, other))
}

/// Sort order: the worse row first.
fn compare(one: &Row, other: &Row) -> Ordering
    ensures { result ≡ row_cmp one.now other.now }
{
    let lost = other.without.lost.len().cmp(&one.without.lost.len());
    let levels = compare_levels(&one.without.after.levels, &other.without.after.levels);
    lost.then(levels.then(one.number.cmp(&other.number)))
}

fn compare_levels(one: &LevelCounts, other: &LevelCounts) -> Ordering
    ensures { result ≡ levels_cmp one.now other.now }
{
    let highest = other.highest.cmp(&one.highest);
    let very = other.very_under_replicated.cmp(&one.very_under_replicated);
    highest.then(very.then(other.under_replicated.cmp(&one.under_replicated)))
}
