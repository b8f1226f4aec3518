// One pass over all replicas, block by block. It tallies the blocks as they are, and for each row
// as they are without the replicas that the row loses.
ghost use Rattle.std.specs.Prelude.{◌≡◌, ℕ, ◌+◌, ◌-◌, ◌^◌, ◌&&◌, ◌++◌, List, [], ◌∷◌, IfOk, OnOk, IfSome, not, if◌then◌else◌};
ghost use Rattle.bm_base.specs.Words.{State, entries, excess_replicas, get, is_good};
ghost use Rattle.bm_base.specs.Promises.Lawful.{IsLawfulHoldings};
ghost use Rattle.cluster_lost.specs.Sources.{IsFew, source_by, source_of};
ghost use Rattle.cluster_lost.specs.Rows.{AreAdded, AreNew, AreRowsWithin, IsAddedAt, IsRowWithin, new_row, with_row_block};
ghost use Rattle.cluster_lost.specs.Passes.{IsFinished, IsPassWithin, IsPassed, IsSwitched, IsWhole, Marked, is_next, replica_of};

use crate::sources::{Source, first_row, left_without};
use crate::tally::Tally;
use bm_base::{BlockId, BlockInfo, Items, Rack, Replica, ReplicaId, Tag};
use std::alloc::{AllocError, Global};

/// The blocks of which a row loses a usable replica.
#[derive(Drop)]
pub struct RowTally {
    /// As they are.
    pub before: Tally,
    /// Without the replicas that the row loses.
    pub after: Tally,
    /// Those that then have no usable replica, ascending.
    pub lost: Items<BlockId>,
}

impl RowTally {
    fn new(alloc: Global) -> RowTally
        ensures { result ≡ new_row }
    {
        RowTally {
            before: Tally::new(),
            after: Tally::new(),
            lost: Items::from_vec(Vec::new(alloc)),
        }
    }

    /// Adds a block with these usable replicas, of which the row leaves some.
    fn add(
        &mut self,
        info: &BlockInfo,
        block: BlockId,
        sources: &[Source],
        left: &[Source],
    ) -> Result<(), AllocError>
        requires small { IsRowWithin (2 ^ 59) self.old }
        requires few { IsFew info.now }
        ensures { OnOk result (self.new
            ≡ with_row_block info.now block sources.now left.now self.old) }
    {
        self.before.add(info, sources);
        self.after.add(info, left);
        if left.is_empty() {
            self.lost.push(block)?;
        }
        Ok(())
    }
}

/// Adds a block to a row, if there is one at this index.
fn add_to_row(
    rows: &mut Vec<RowTally>,
    at: usize,
    info: &BlockInfo,
    block: BlockId,
    sources: &[Source],
    left: &[Source],
) -> Result<(), AllocError>
    requires small { AreRowsWithin (2 ^ 59) rows.old.items }
    requires few { IsFew info.now }
    ensures { OnOk result (IsAddedAt at
        (with_row_block info.now block sources.now left.now) rows.old.items rows.new.items) }
{
    if let Some(row) = rows.get_mut(at) {
        row.add(info, block, sources, left)?;
    }
    Ok(())
}

/// Adds a block to each row that loses one of its usable replicas.
fn add_to_rows(
    alloc: Global,
    rows: &mut Vec<RowTally>,
    info: &BlockInfo,
    block: BlockId,
    sources: &[Source],
) -> Result<(), AllocError>
    requires small { AreRowsWithin (2 ^ 59 - 1) rows.old.items }
    requires few { IsFew info.now }
    ensures { OnOk result (AreAdded info.now block sources.now sources.now
        rows.old.items rows.new.items) }
{
    for index in 0..sources.len() {
        if let Some(row) = first_row(sources, index) {
            let left = left_without(alloc, sources, row)?;
            add_to_row(rows, row, info, block, sources, left.as_slice())?;
        }
    }
    Ok(())
}

fn new_rows(alloc: Global, count: usize) -> Result<Vec<RowTally>, AllocError>
    ensures { IfOk result (λ v. AreNew count v.items) }
{
    let mut rows = Vec::new(alloc);
    for _at in 0..count {
        rows.push(RowTally::new(alloc))?;
    }
    Ok(rows)
}

/// The tallies while they are made.
#[derive(Drop)]
pub struct BlockPass {
    /// All blocks before the current one.
    pub all: Tally,
    pub rows: Vec<RowTally>,
    pub block: BlockId,
    /// The usable replicas of the current block so far.
    pub sources: Vec<Source>,
    /// Cursor: how many replicas in excess were passed.
    pub passed: usize,
}

impl BlockPass {
    /// No block, and this number of rows.
    pub fn new(alloc: Global, rows: usize) -> Result<BlockPass, AllocError>
        ensures started { IfOk result (λ p. (M : State) (row_of : _) (excess : List _)
            → IsLawfulHoldings M.cluster M.holdings → excess ≡ excess_replicas M.holdings
            → IsPassed M row_of rows excess (entries M.holdings.replicas) p) }
        ensures within { IfOk result (IsPassWithin 0) }
    {
        Ok(BlockPass {
            all: Tally::new(),
            rows: new_rows(alloc, rows)?,
            block: BlockId(0),
            sources: Vec::new(alloc),
            passed: 0,
        })
    }

    /// Takes the next replica. The replicas are sorted by block and storage, and `excess` has
    /// those of them that are in excess. `info` is of the current block; `source` is the replica,
    /// if it is usable.
    pub fn take(
        &mut self,
        alloc: Global,
        info: Option<BlockInfo>,
        excess: &[ReplicaId],
        replica: &Replica,
        source: Source,
    ) -> Result<(), AllocError>
        requires small { IsPassWithin (2 ^ 59 - 1) self.old }
        requires few { IfSome info IsFew }
        ensures passed { OnOk result ((M : State) (row_of : _) (n : ℕ) (e : Marked) (left : List _)
            → replica.now ≡ replica_of e → info ≡ get M.holdings.blocks self.old.block
            → source ≡ source_of M.cluster row_of e.0.storage
            → IsPassed M row_of n excess.now (e ∷ left) self.old
            → IsPassed M row_of n excess.now left self.new) }
        ensures within { OnOk result ((n : ℕ) → IsPassWithin n self.old
            → IsPassWithin (n + 1) self.new) }
    {
        self.switch_block(alloc, info, replica.block)?;
        let id = ReplicaId {
            block: replica.block,
            storage: replica.storage,
        };
        let is_excess = self.passes_excess(excess, id);
        let is_source = is_usable(replica.tag, is_excess);
        self.note(is_source, source.row, source.rack, source.live)?;
        Ok(())
    }

    /// Notes a replica of the current block, if it is usable.
    fn note(
        &mut self,
        is_usable: bool,
        row: Option<usize>,
        rack: Option<Rack>,
        live: bool,
    ) -> Result<(), AllocError>
        ensures sources { OnOk result (self.new.sources.items
            ≡ self.old.sources.items ++ (if is_usable then source_by row rack live ∷ [] else [])) }
        ensures all { self.new.all ≡ self.old.all }
        ensures rows { self.new.rows ≡ self.old.rows }
        ensures block { self.new.block ≡ self.old.block }
        ensures passed { self.new.passed ≡ self.old.passed }
    {
        if is_usable {
            self.sources.push(Source { row, rack, live })?;
        }
        Ok(())
    }

    /// Switches to `block`: adds the current block and forgets its replicas. Does nothing if it is
    /// the current block.
    fn switch_block(
        &mut self,
        alloc: Global,
        info: Option<BlockInfo>,
        block: BlockId,
    ) -> Result<(), AllocError>
        requires small { IsPassWithin (2 ^ 59 - 1) self.old }
        requires few { IfSome info IsFew }
        ensures { OnOk result (IsSwitched info block self.old self.new) }
    {
        if self.block != block {
            self.finish_block(alloc, info)?;
            self.block = block;
            self.sources.clear();
        }
        Ok(())
    }

    /// Adds the last block, which `info` is of.
    pub fn finish(&mut self, alloc: Global, info: Option<BlockInfo>) -> Result<(), AllocError>
        requires small { IsPassWithin (2 ^ 59 - 1) self.old }
        requires few { IfSome info IsFew }
        ensures whole { OnOk result ((M : State) (row_of : _) (n : ℕ) (excess : List _)
            → info ≡ get M.holdings.blocks self.old.block
            → IsPassed M row_of n excess [] self.old → IsWhole M row_of n self.new) }
        ensures within { OnOk result (IsPassWithin (2 ^ 59) self.new) }
    {
        self.finish_block(alloc, info)?;
        Ok(())
    }

    /// Adds the current block, which `info` is of.
    fn finish_block(&mut self, alloc: Global, info: Option<BlockInfo>) -> Result<(), AllocError>
        requires small { IsPassWithin (2 ^ 59 - 1) self.old }
        requires few { IfSome info IsFew }
        ensures { OnOk result (IsFinished info self.old self.new) }
    {
        let Some(info) = &info else {
            return Ok(());
        };
        self.all.add(info, self.sources.as_slice());
        add_to_rows(
            alloc,
            &mut self.rows,
            info,
            self.block,
            self.sources.as_slice(),
        )?;
        Ok(())
    }

    /// Whether a replica is the next one in excess. If so, the cursor in `excess` moves past it.
    fn passes_excess(&mut self, excess: &[ReplicaId], id: ReplicaId) -> bool
        ensures is { result ≡ is_next excess.now self.old.passed id }
        ensures passed { self.new ≡ record self.old {
          passed = if result then self.old.passed + 1 else self.old.passed;
        } }
    {
        let is_it = is_next(excess, self.passed, id);
        if is_it {
            self.passed += 1;
        }
        is_it
    }
}

fn is_next(excess: &[ReplicaId], passed: usize, id: ReplicaId) -> bool
    ensures { result ≡ is_next excess.now passed id }
{
    match excess.get(passed) {
        Some(next) => next.block == id.block && next.storage == id.storage,
        None => false,
    }
}

/// Whether a replica with this tag is usable.
fn is_usable(tag: Tag, is_excess: bool) -> bool
    ensures { result ≡ (is_good tag && not is_excess) }
{
    tag.is_good() && !is_excess
}
