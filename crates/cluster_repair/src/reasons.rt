// Why blocks with a level are copied no further.
ghost use Rattle.std.specs.Prelude.{◌≡◌, ◌==◌, ◌++◌, ◌∷◌, [], filter, is_some, IfOk, OnOk};
ghost use Rattle.bm_base.specs.Words.{list_any, IsNonDecreasingBy, all_replicas, share_rack};
ghost use Rattle.bm_base.specs.Machine.Replicas.{share_node};
ghost use Rattle.cluster_report.specs.Catalogues.{len_in};
ghost use Rattle.cluster_repair.specs.Rows.{AreFound, AreLeveled, AreUnmended};
ghost use Rattle.cluster_repair.specs.Reasons.{HaveReasons, reason_for, would_count, would_fit, is_on_their_node, is_on_their_rack, is_missing, is_badly_distributed};

use crate::free_bytes::FreeBytes;
use bm_base::{BlockId, Level, Refusal, Replica, StorageId};
use bm_topo::Topology;
use cluster_report::session::Session;
use laws_of_events::queries::lists_ascend;
use std::alloc::Global;

/// Why a block is copied no further.
#[derive(Clone, Copy)]
pub enum Reason {
    /// No replica can be copied.
    NoSource,
    /// Each node that does not drain holds a replica or, if the block is badly distributed, is on
    /// the block's only rack. Or a copy would count on a storage with enough free bytes, but the
    /// storage got none.
    NoTarget,
    /// Some node could take a copy that counts, but none of its storages has enough free bytes.
    NoSpace,
}

/// A block that has a level.
#[derive(Clone, Copy)]
pub struct Unmended {
    pub block: BlockId,
    pub level: Level,
    pub reason: Reason,
}

/// The reason for each of these blocks. `blocks` are all blocks with a level, ascending.
#[tactic(auto, using(crate::proofs::UnmendedLemmas::none_found, crate::proofs::UnmendedLemmas::all_found, crate::proofs::ReasonLemmas::no_reasons))]
pub fn unmended_of(
    alloc: Global,
    session: &Session,
    free: &FreeBytes,
    blocks: &[u64],
) -> Result<Vec<Unmended>, Refusal>
    requires { AreLeveled session.now.manager blocks.now }
    ensures levels { IfOk result (λ v. AreUnmended session.now.manager v.items) }
    ensures reasons { IfOk result
        (λ v. HaveReasons session.now.book session.now.manager.holdings free.now v.items) }
{
    let replicas = session.manager.replicas()?;
    let mut found = Vec::new(alloc);
    for number in blocks {
        add_unmended(
            &mut found,
            session,
            free,
            replicas.as_slice(),
            BlockId(*number),
        )?;
    }
    Ok(found)
}

/// Adds a block, if it has a level.
fn add_unmended(
    found: &mut Vec<Unmended>,
    session: &Session,
    free: &FreeBytes,
    replicas: &[Replica],
    block: BlockId,
) -> Result<(), Refusal>
    requires { replicas.now ≡ all_replicas session.now.manager.holdings }
    ensures levels { OnOk result ((bs : _) → AreFound session.now.manager bs found.old.items
        → AreFound session.now.manager (bs ++ block ∷ []) found.new.items) }
    ensures reasons { OnOk result (HaveReasons session.now.book session.now.manager.holdings
        free.now found.old.items → HaveReasons session.now.book session.now.manager.holdings
        free.now found.new.items) }
{
    let Some(level) = session.manager.level(block)? else {
        return Ok(());
    };
    let reason = reason_of(session, free, replicas, block, level);
    found.push(Unmended {
        block,
        level,
        reason,
    })?;
    Ok(())
}

/// Why a block at this level is copied no further.
fn reason_of(
    session: &Session,
    free: &FreeBytes,
    replicas: &[Replica],
    block: BlockId,
    level: Level,
) -> Reason
    requires { replicas.now ≡ all_replicas session.now.manager.holdings }
    ensures { result ≡ reason_for session.now.book.topology.cluster
        (filter (λ r. r.block == block) replicas.now) level
        (len_in session.now.book.blocks block) free.now }
{
    lists_ascend();
    let leveled = LeveledBlock {
        topology: &session.book.topology,
        replicas: replicas_of(replicas, block),
        length: session.book.blocks.len_of(block),
        level,
    };
    leveled.reason(free)
}

/// The replicas of a block among all replicas, which are sorted by block.
fn replicas_of(replicas: &[Replica], block: BlockId) -> &[Replica]
    requires { IsNonDecreasingBy (λ r. r.block) replicas.now }
    ensures { result.now ≡ filter (λ r. r.block == block) replicas.now }
{
    let from = replicas.partition_point(|replica| replica.block < block);
    let rest = &replicas[from..];
    let count = rest.partition_point(|replica| replica.block <= block);
    &rest[..count]
}

/// A block with a level, and where its replicas are.
#[derive(Clone, Copy)]
struct LeveledBlock<'a> {
    topology: &'a Topology,
    replicas: &'a [Replica],
    length: u64,
    level: Level,
}

impl LeveledBlock<'_> {
    fn reason(&self, free: &FreeBytes) -> Reason
        ensures { result ≡ reason_for self.now.topology.now.cluster self.now.replicas.now
            self.now.level self.now.length free.now }
    {
        if is_missing(self.level) {
            Reason::NoSource
        } else if self.has_target(free) && !self.has_space(free) {
            Reason::NoSpace
        } else {
            Reason::NoTarget
        }
    }

    /// Whether a copy would count on a storage.
    fn has_target(&self, free: &FreeBytes) -> bool
        ensures { result ≡ list_any (would_count self.now.topology.now.cluster
            self.now.replicas.now self.now.level) free.now.storages.items }
    {
        for storage in &free.storages {
            if self.would_count(*storage) {
                return true;
            }
        }
        false
    }

    /// Whether a storage on which a copy would count has enough free bytes.
    fn has_space(&self, free: &FreeBytes) -> bool
        ensures { result ≡ list_any (would_fit self.now.topology.now.cluster
            self.now.replicas.now self.now.level self.now.length free.now)
            free.now.storages.items }
    {
        for storage in &free.storages {
            if self.would_fit(free, *storage) {
                return true;
            }
        }
        false
    }

    fn would_fit(&self, free: &FreeBytes, storage: StorageId) -> bool
        ensures { result ≡ would_fit self.now.topology.now.cluster self.now.replicas.now
            self.now.level self.now.length free.now storage }
    {
        self.would_count(storage) && self.length <= free.of(storage)
    }

    /// Whether a copy on the storage could count for the block, whatever the storage's free bytes.
    fn would_count(&self, storage: StorageId) -> bool
        ensures { result ≡ would_count self.now.topology.now.cluster self.now.replicas.now
            self.now.level storage }
    {
        self.topology.node_of(storage).is_some()
            && (!self.topology.is_draining(storage)
                && (!self.is_on_their_node(storage)
                    && !(is_badly_distributed(self.level) && self.is_on_their_rack(storage))))
    }

    fn is_on_their_node(&self, storage: StorageId) -> bool
        ensures { result ≡ is_on_their_node self.now.topology.now.cluster
            self.now.replicas.now storage }
    {
        for replica in self.replicas {
            if share_node(self.topology, storage, replica.storage) {
                return true;
            }
        }
        false
    }

    fn is_on_their_rack(&self, storage: StorageId) -> bool
        ensures { result ≡ is_on_their_rack self.now.topology.now.cluster
            self.now.replicas.now storage }
    {
        for replica in self.replicas {
            if replica.tag.is_good()
                && (!self.topology.is_draining(replica.storage)
                    && share_rack(self.topology, storage, replica.storage))
            {
                return true;
            }
        }
        false
    }
}

fn is_missing(level: Level) -> bool
    ensures { result ≡ is_missing level }
{
    matches!(level, Level::NoUsableReplica)
}

fn is_badly_distributed(level: Level) -> bool
    ensures { result ≡ is_badly_distributed level }
{
    matches!(level, Level::BadlyDistributed)
}

fn share_node(topology: &Topology, one: StorageId, other: StorageId) -> bool
    ensures { result ≡ share_node topology.now.cluster one other }
{
    match topology.node_of(one) {
        Some(node) => topology.has_storage(node, other),
        None => false,
    }
}

#[tactic(auto, unfolding(bm_base::specs::Machine::Replicas::share_rack))]
fn share_rack(topology: &Topology, one: StorageId, other: StorageId) -> bool
    ensures { result ≡ share_rack topology.now.cluster one other }
{
    match topology.rack_of(one) {
        Some(rack) => match topology.rack_of(other) {
            Some(its_rack) => its_rack == rack,
            None => false,
        },
        None => false,
    }
}
