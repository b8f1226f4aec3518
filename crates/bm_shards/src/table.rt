// The table that readers see: the rows of all shards, by block.
ghost use Rattle.std.specs.Prelude.{◌≡◌, length, IfOk, IfErr, flat_map};
ghost use Rattle.bm_base.specs.declared.refusal.Refusal.TheVariants.{Memory};
ghost use Rattle.bm_shards.specs.Answers.{each_answer};
ghost use Rattle.bm_shards.specs.Rows.{rows_of};
ghost use Rattle.bm_shards.specs.Whole.{AreShards, held_by};
ghost use Rattle.bm_base.specs.Promises.Versions as versions;

use crate::all_shards::AllShards;
use crate::answers::{ShardResult, gather_answers};
use crate::pass_buffers::reserve_pass;
use crate::workers::Workers;
use bm_base::{BlockId, Items, Places, Refusal};
use bm_shard::Shard;
use std::alloc::{AllocError, Global};
use std::mem;

/// A block, and the first `MAX_PLACES` of its places.
pub type Row = (BlockId, Places);

/// The rows of one shard.
pub type Rows = Items<Row>;

impl AllShards {
    /// For each known block, ascending, the first `MAX_PLACES` of its places: what readers see. The
    /// workers make the rows of each shard; those of several shards are sorted in one list.
    /// `Memory`. Nothing changes.
    pub fn table<W: Workers>(&mut self, workers: &W) -> Result<Vec<Row>, Refusal>
        ensures table { IfOk result (λ v. v.items ≡ versions.table self.old.holdings) }
        ensures refused { IfErr result (λ e. e ≡ Memory) }
        ensures same { self.new ≡ self.old }
    {
        make_table(self.alloc, workers, &mut self.shards)
    }
}

/// The table of all these shards, which stay unchanged.
fn make_table<W: Workers>(
    alloc: Global,
    workers: &W,
    shards: &mut Vec<(u32, Shard)>,
) -> Result<Vec<Row>, Refusal>
    requires shards { AreShards (length shards.old.items) shards.old.items }
    ensures table { IfOk result (λ v. v.items ≡ versions.table (held_by shards.old.items)) }
    ensures refused { IfErr result (λ e. e ≡ Memory) }
    ensures same { shards.new.items ≡ shards.old.items }
{
    let tables = gather_tables(alloc, workers, shards)?;
    let mut rows = join_tables(alloc, tables)?;
    rows.sort_by_key(|row| row.0)?;
    Ok(rows)
}

/// The rows of each of these shards, which stay unchanged.
fn gather_tables<W: Workers>(
    alloc: Global,
    workers: &W,
    shards: &mut Vec<(u32, Shard)>,
) -> Result<Vec<Rows>, Refusal>
    ensures shards { shards.new.items ≡ shards.old.items }
    ensures tables { IfOk result (λ v. v.items ≡ each_answer rows_of shards.old.items) }
    ensures refused { IfErr result (λ e. e ≡ Memory) }
{
    let answers = Vec::with_capacity(alloc, shards.len())?;
    let (asking, back) = reserve_pass::<ShardResult<Rows>>(alloc, shards.len(), workers.count())?;
    let items = mem::replace(shards, back);
    let made = workers.rows_of_all(asking, items);
    gather_answers(made, shards, answers)
}

/// The rows of these tables, one table after another. Those of a single table are moved.
fn join_tables(alloc: Global, mut tables: Vec<Rows>) -> Result<Vec<Row>, AllocError>
    ensures { IfOk result (λ v. v.items ≡ flat_map (λ rows. rows) tables.items) }
{
    if tables.len() == 1 {
        if let Some(only) = tables.pop() {
            return Ok(only.into_vec());
        }
    }
    copy_rows(alloc, tables.as_slice())
}

fn copy_rows(alloc: Global, tables: &[Rows]) -> Result<Vec<Row>, AllocError>
    ensures { IfOk result (λ v. v.items ≡ flat_map (λ rows. rows) tables.now) }
{
    let mut all = Vec::with_capacity(alloc, row_count(tables))?;
    for rows in tables {
        all.extend_from_slice(rows.as_slice())?;
    }
    Ok(all)
}

fn row_count(tables: &[Rows]) -> usize {
    let mut count = 0usize;
    for rows in tables {
        count = count.saturating_add(rows.as_slice().len());
    }
    count
}
