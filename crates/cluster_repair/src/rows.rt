// A row of counts for every round; if there are many rounds, for every second, fourth and so on.
ghost use Rattle.std.specs.Prelude.{◌≡◌, ℕ, ◌+◌, ◌≤◌, List, [], filter, length, IfOk, OnOk};
ghost use Rattle.bm_base.specs.Words.{State};
ghost use Rattle.cluster_repair.specs.History.{RoundRecord};
ghost use Rattle.cluster_repair.specs.Rows.{IsRowAmong, AreRowsAmong, AreInOrder, EndsWith, is_on_stride};
ghost use Rattle.cluster_repair.specs.declared.datanodes.DataNodes.{DataNodes};

use cluster_report::levels::LevelCounts;
use std::alloc::{AllocError, Global};

/// The greatest number of rows. If it is reached, every second row is dropped before one is added.
const MOST_KEPT: usize = 64;

/// Above this stride no row is dropped: a repair takes at most this number of rounds.
const MOST_STRIDE: u32 = 1_000_000;

/// The counts after a round.
#[derive(Clone, Copy)]
pub struct Row {
    /// The number of rounds, with this one.
    pub round: u32,
    /// When the round was, in seconds from the first.
    pub seconds: u64,
    /// The blocks at each level.
    pub levels: LevelCounts,
    /// The copies that the round commands.
    pub commanded: usize,
    /// The copies on their way.
    pub on_way: usize,
}

/// The rows of rounds 1, 1 + `stride` and so on, and of the last.
#[derive(Drop)]
pub struct Rows {
    pub rows: Vec<Row>,
    pub stride: u32,
}

impl Rows {
    /// Makes an empty table with stride 1. Takes no memory.
    pub fn new(alloc: Global) -> Rows
        ensures none { result.rows.items ≡ [] }
        ensures stride { result.stride ≡ 1 }
    {
        Rows {
            rows: Vec::new(alloc),
            stride: 1,
        }
    }

    /// Whether a round has a row even if it is not the last one.
    pub fn is_due(&self, round: u32) -> bool
        ensures { result ≡ is_on_stride round self.now.stride }
    {
        is_on_stride(round, self.stride)
    }

    /// Adds the row of a round.
    pub fn push(&mut self, alloc: Global, row: Row) -> Result<(), AllocError>
        ensures rows { OnOk result ((M : State) (d : DataNodes) (taken : List RoundRecord)
            → AreRowsAmong M d taken self.old.rows.items
            → IsRowAmong M d taken row → AreRowsAmong M d taken self.new.rows.items) }
        ensures last { OnOk result (EndsWith self.new.rows.items row) }
        ensures in_order { OnOk result (AreInOrder row.round self.old.stride self.old.rows.items
            → AreInOrder (row.round + 1) self.new.stride self.new.rows.items) }
    {
        self.thin_if_full(alloc)?;
        self.rows.push(row)?;
        Ok(())
    }

    /// Drops every second row if there are too many for one more.
    fn thin_if_full(&mut self, alloc: Global) -> Result<(), AllocError>
        ensures rows { OnOk result ((M : State) (d : DataNodes) (taken : List RoundRecord)
            → AreRowsAmong M d taken self.old.rows.items
            → AreRowsAmong M d taken self.new.rows.items) }
        ensures in_order { OnOk result ((next : ℕ)
            → AreInOrder next self.old.stride self.old.rows.items
            → AreInOrder next self.new.stride self.new.rows.items) }
    {
        if self.rows.len() < MOST_KEPT || self.stride > MOST_STRIDE {
            return Ok(());
        }
        self.drop_every_second(alloc)?;
        Ok(())
    }

    /// Drops every second row.
    #[tactic(auto, using(crate::proofs::Reach::rows_among))]
    fn drop_every_second(&mut self, alloc: Global) -> Result<(), AllocError>
        requires full { 64 ≤ length self.old.rows.items }
        requires few { self.old.stride ≤ 1000000 }
        ensures rows { OnOk result ((M : State) (d : DataNodes) (taken : List RoundRecord)
            → AreRowsAmong M d taken self.old.rows.items
            → AreRowsAmong M d taken self.new.rows.items) }
        ensures in_order { OnOk result ((next : ℕ)
            → AreInOrder next self.old.stride self.old.rows.items
            → AreInOrder next self.new.stride self.new.rows.items) }
    {
        let stride = self.stride * 2;
        self.rows = rows_on(alloc, self.rows.as_slice(), stride)?;
        self.stride = stride;
        Ok(())
    }
}

fn rows_on(alloc: Global, rows: &[Row], stride: u32) -> Result<Vec<Row>, AllocError>
    ensures { IfOk result (λ v. v.items ≡ filter (λ r. is_on_stride r.round stride) rows.now) }
{
    rows.iter()
        .filter(|row| has_stride(row, stride))
        .copied()
        .collect(alloc)
}

fn has_stride(row: &Row, stride: u32) -> bool
    ensures { result ≡ is_on_stride row.now.round stride }
{
    is_on_stride(row.round, stride)
}

fn is_on_stride(round: u32, stride: u32) -> bool
    ensures { result ≡ is_on_stride round stride }
{
    round.saturating_sub(1) % stride.max(1) == 0
}
