// Laws of saved nodes.
ghost use Rattle.bm_saved.specs.Laws as law;

/// Restoring all nodes of a lawful cluster, from an empty one with its limits on, gives the
/// cluster.
pub fn cluster_is_restored()
    ensures { law.cluster_is_restored }
{}

/// No node that is saved of a lawful cluster has a fault.
pub fn saved_nodes_have_no_faults()
    ensures { law.saved_nodes_have_no_faults }
{}

/// A node without a fault leaves a lawful cluster lawful, and has its greatest number.
pub fn restored_node_is_lawful()
    ensures { law.restored_node_is_lawful }
{}

/// Saving a cluster with a restored node gives what was saved before, and then the node.
pub fn restored_node_is_saved()
    ensures { law.restored_node_is_saved }
{}

/// Nodes without faults make a lawful cluster, of which they are saved again.
pub fn restored_nodes_are_saved()
    ensures { law.restored_nodes_are_saved }
{}

/// A node without a fault is restored by three events: it may register, it reports its remaining
/// bytes, and drains.
pub fn node_is_restored_by_events()
    ensures { law.node_is_restored_by_events }
{}
