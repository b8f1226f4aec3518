// Worked examples of the text of a snapshot, and of faults.
#![tactic(auto, unfolding(crate::specs::Runs::snapshot_after, crate::specs::Runs::fault_of_node, crate::specs::Runs::fault_of_block))]

ghost use Rattle.bm_saved.specs.Examples as example;

/// The snapshot of a state that has each word of the format.
pub fn snapshot_of_all_words()
    ensures { example.snapshot_of_all_words }
{}

/// The snapshot of a node without storages and a block without replicas.
pub fn snapshot_of_empty_lists()
    ensures { example.snapshot_of_empty_lists }
{}

/// Each fault of a node. Of two faults the first check names its own.
pub fn faults_of_nodes()
    ensures { example.faults_of_nodes }
{}

/// Each fault of a block. Of two faults the first check names its own.
pub fn faults_of_blocks()
    ensures { example.faults_of_blocks }
{}
