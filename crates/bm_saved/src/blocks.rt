// Laws of saved blocks.
ghost use Rattle.bm_saved.specs.Laws as law;

/// Restoring all that is saved of holdings, from empty ones on, gives the holdings.
pub fn holdings_are_restored()
    ensures { law.holdings_are_restored }
{}

/// No block that is saved of lawful holdings has a fault.
pub fn saved_blocks_have_no_faults()
    ensures { law.saved_blocks_have_no_faults }
{}

/// A block without a fault leaves lawful holdings lawful.
pub fn restored_block_is_lawful()
    ensures { law.restored_block_is_lawful }
{}

/// No transfer of a block without a fault is of a future round, and the block has the greatest
/// number of all.
pub fn restored_block_is_in_order()
    ensures { law.restored_block_is_in_order }
{}

/// Saving holdings with a restored block gives what was saved before, and then the block.
pub fn restored_block_is_saved()
    ensures { law.restored_block_is_saved }
{}

/// Blocks without faults make lawful holdings, of which they are saved again.
pub fn restored_blocks_are_saved()
    ensures { law.restored_blocks_are_saved }
{}

/// A restored block changes the part of the block's shard as it changes whole holdings, and no
/// other part.
pub fn restored_in_one_part()
    ensures { law.restored_in_one_part }
{}
