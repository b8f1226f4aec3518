// The replicas after notices and full block reports.
#![tactic(auto, unfolding(crate::specs::Runs::run_of))]

ghost use Rattle.worked_examples.specs.Reports as example;

/// One node, one block, one replica: the storage is the block's place.
pub fn four_lines()
    ensures { example.four_lines }
{}

/// The last entry of a block counts. A replica with another stamp than its block is stale; one of
/// an unknown block is stray, and is deleted; one that the report leaves out is gone.
pub fn wrong_stamp_in_report()
    ensures { example.wrong_stamp_in_report }
{}

/// An empty report removes all replicas on its storage, whatever their tags, and keeps those on
/// other storages.
pub fn empty_report_clears_storage()
    ensures { example.empty_report_clears_storage }
{}

/// A node has at most one replica of a block: one that is received or reported on another of its
/// storages has moved there, and gets its tag from scratch. A bad one that is reported where it was
/// stays bad.
pub fn block_moves_between_sister_storages()
    ensures { example.block_moves_between_sister_storages }
{}

/// If a report's last entry of a block has the right stamp, an excess replica stays in excess,
/// whatever the entries before. Its delete is commanded again, since it is still there.
pub fn report_ends_with_right_stamp()
    ensures { example.report_ends_with_right_stamp }
{}

/// If a report's last entry of a block has a wrong stamp, the replica is stale, and so no longer in
/// excess.
pub fn report_ends_with_wrong_stamp()
    ensures { example.report_ends_with_wrong_stamp }
{}

/// A run names each number from its first to its last, and a later entry for one of them replaces
/// it. A run that ends before it begins names none.
pub fn report_in_runs()
    ensures { example.report_in_runs }
{}

/// A run may end at the greatest 64-bit number. A run of all numbers is refused, and changes
/// nothing.
pub fn run_at_the_last_number()
    ensures { example.run_at_the_last_number }
{}
