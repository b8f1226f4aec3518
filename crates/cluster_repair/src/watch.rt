// The blocks that have a level, counted by level from round to round.
ghost use Rattle.std.specs.Prelude.{◌≡◌, ◌++◌, ◌∷◌, [], ℕ, false, None, is_some, map, filter, IfOk, OnOk};
ghost use Rattle.bm_base.specs.Words.{has};
ghost use Rattle.cluster_report.specs.Catalogues.{Lists, info_in};
ghost use Rattle.laws_of_repairs.specs.Repairs.{Covers};
ghost use Rattle.cluster_repair.specs.Rows.{AreCounts, AreLeveled};

use bm_base::{BlockId, Refusal};
use bm_manager::Manager;
use cluster_report::catalogue::Catalogue;
use cluster_report::levels::{LevelCounts, Leveled, count_levels, query_levels};
use std::alloc::{AllocError, Global};

/// The numbers of blocks, among them all that have a level. Without further losses no other block
/// gets a level, if each block of a report is added.
#[derive(Drop)]
pub struct Watch {
    pub blocks: Vec<u64>,
}

impl Watch {
    /// The known blocks that have a level, by a query for each known block.
    pub fn new(alloc: Global, manager: &Manager, blocks: &Catalogue) -> Result<Watch, AllocError>
        requires { Lists blocks.now manager.now.holdings.blocks }
        ensures { IfOk result (λ w. Covers manager.now w.blocks.items) }
    {
        let numbers = collect_numbers(alloc, blocks)?;
        let levels = query_levels(alloc, manager, numbers.as_slice())?;
        let blocks = with_level(alloc, levels.as_slice())?;
        Ok(Watch { blocks })
    }

    /// Adds a block of which DataNodes report a replica.
    pub fn add(&mut self, block: BlockId) -> Result<(), AllocError>
        ensures { OnOk result (self.new.blocks.items ≡ self.old.blocks.items ++ block ∷ []) }
    {
        self.blocks.push(block.0)?;
        Ok(())
    }

    /// Counts all known blocks by level, by a query for each watched block, and forgets those that
    /// have no level.
    pub fn count(&mut self, alloc: Global, manager: &Manager) -> Result<LevelCounts, Refusal>
        requires { Covers manager.now self.old.blocks.items }
        ensures counts { IfOk result (AreCounts manager.now) }
        ensures blocks { OnOk result (AreLeveled manager.now self.new.blocks.items) }
    {
        self.blocks.sort()?;
        self.blocks.dedup();
        let missing = manager.missing()?;
        let levels = query_levels(alloc, manager, self.blocks.as_slice())?;
        let counts = count_levels(levels.as_slice(), missing.as_slice().len());
        self.blocks = with_level(alloc, levels.as_slice())?;
        Ok(counts)
    }
}

/// The numbers of the known blocks.
fn collect_numbers(alloc: Global, blocks: &Catalogue) -> Result<Vec<u64>, AllocError>
    ensures { IfOk result (λ v. (b : ℕ) → has v.items b ≡ false → info_in blocks.now b ≡ None) }
{
    let numbers: Vec<u64> = blocks.blocks.keys().copied().collect(alloc)?;
    Ok(numbers)
}

/// The numbers of the blocks that have a level.
fn with_level(alloc: Global, levels: &[Leveled]) -> Result<Vec<u64>, AllocError>
    ensures { IfOk result (λ v. v.items
        ≡ map (λ l. l.block) (filter (λ l. is_some l.level) levels.now)) }
{
    levels
        .iter()
        .filter(|found| has_level(found))
        .map(number_of)
        .collect(alloc)
}

fn has_level(found: &Leveled) -> bool
    ensures { result ≡ is_some found.now.level }
{
    found.level.is_some()
}

fn number_of(found: &Leveled) -> u64
    ensures { result ≡ found.now.block }
{
    found.block.0
}
