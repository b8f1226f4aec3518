// The fields of a shard, and what a contract sees of them.
ghost use Rattle.std.specs.Prelude.{◌≡◌, ◌<◌, IfOk, IfErr};
ghost use Rattle.bm_base.specs.Words.{Cluster, empty_holdings};
ghost use Rattle.bm_base.specs.declared.refusal.Refusal.TheVariants.{Memory};
ghost use Rattle.bm_shard.specs.UnusedEntries.{HasNoUnused};
ghost use Rattle.bm_shard.specs.UpToDate.{IsUpToDate};

use bm_base::{BlockId, Config, HashSecret, Part, Refusal, StorageId};
use bm_levels::LeveledBlocks;
use bm_pending::PendingTransfers;
use bm_report::Report;
use std::alloc::Global;
use std::marker::Model;

/// The reservation of the last `prepare`.
#[derive(Clone, Copy)]
pub(crate) enum PreparedEvent {
    Nothing,
    /// An entry of a number.
    Entry(BlockId),
    /// The look-up in `report` is of a notice of this storage.
    Notice(StorageId),
    /// The look-up in `report` is of a full report of this storage.
    Report(StorageId),
}

/// One shard: the blocks of the numbers `index` modulo `shards`, their replicas, their transfers,
/// and the level of each block.
///
/// A contract sees the holdings of the definitions, cut to the shard, and the stored levels.
/// Whether the levels are right depends on the cluster, too: `IsUpToDate` states that they are, and
/// the caller passes this fact on from call to call.
#[derive(Drop)]
pub struct Shard {
    pub(crate) alloc: Global,
    pub(crate) blocks: LeveledBlocks,
    pub(crate) pending: PendingTransfers,
    pub(crate) report: Report,
    pub(crate) prepared: PreparedEvent,
    pub(crate) part: Part,
    pub(crate) round: u64,
    pub(crate) pend: u32,
}

impl Model for Shard {
    ghost use Rattle.bm_shard.specs.ShardView.{Seen};
    ghost use Rattle.bm_shard.specs.Codes.{coded_seen};
    ghost use Rattle.bm_levels.specs.SlotHoldings.{holdings_with};
    ghost use Rattle.bm_shard.specs.Inside.{levels_of, numbers_of, heads_of, report_of, IsShard};

    ghost Value = { Seen };

    ghost coded = { coded_seen };

    ghost view = { λ s. record {
      holdings = holdings_with s.blocks.arena s.pending.map;
      part = s.part;
      round = s.round;
      pend = s.pend;
      levels = levels_of s.blocks;
      reserved = record {
        entries = numbers_of s.blocks.arena;
        lists = heads_of s.blocks.arena;
        report = report_of s.report s.prepared;
        transfers = s.pending.capacities;
      };
    } };

    ghost invariant = { λ s. IsShard s.part s.blocks s.report s.prepared };
}

impl Shard {
    /// An empty shard, of an index below the number of shards, whose tables hash by no secret.
    /// `Memory`.
    pub fn new(alloc: Global, index: u32, config: &Config) -> Result<Shard, Refusal>
        requires { index < config.now.shards }
        ensures empty { IfOk result (λ s. s.holdings ≡ empty_holdings) }
        ensures part { IfOk result
            (λ s. s.part ≡ record { index = index; shards = config.now.shards }) }
        ensures round { IfOk result (λ s. s.round ≡ config.now.first_round) }
        ensures pend { IfOk result (λ s. s.pend ≡ config.now.pend) }
        ensures up_to_date { IfOk result (λ s. (C : Cluster) → IsUpToDate C s) }
        ensures unused { IfOk result (λ s. HasNoUnused s) }
        ensures refused { IfErr result (λ e. e ≡ Memory) }
    {
        Shard::with_secret(alloc, index, config, HashSecret::none())
    }

    /// As [`Shard::new`], but the tables hash by this secret: for numbers that may have been chosen
    /// so that they collide. `Memory`.
    pub fn with_secret(
        alloc: Global,
        index: u32,
        config: &Config,
        secret: HashSecret,
    ) -> Result<Shard, Refusal>
        requires { index < config.now.shards }
        ensures empty { IfOk result (λ s. s.holdings ≡ empty_holdings) }
        ensures part { IfOk result
            (λ s. s.part ≡ record { index = index; shards = config.now.shards }) }
        ensures round { IfOk result (λ s. s.round ≡ config.now.first_round) }
        ensures pend { IfOk result (λ s. s.pend ≡ config.now.pend) }
        ensures up_to_date { IfOk result (λ s. (C : Cluster) → IsUpToDate C s) }
        ensures unused { IfOk result (λ s. HasNoUnused s) }
        ensures refused { IfErr result (λ e. e ≡ Memory) }
    {
        let blocks = LeveledBlocks::new(alloc, secret)?;
        blocks.arena().show_invariant();
        Ok(Shard {
            alloc,
            blocks,
            pending: PendingTransfers::new(alloc, secret),
            report: Report::new(alloc),
            prepared: PreparedEvent::Nothing,
            part: Part {
                index,
                shards: config.shards,
            },
            round: config.first_round,
            pend: config.pend,
        })
    }
}
