// Decommissioning: a node drains until each of its blocks has enough replicas elsewhere.
#![tactic(auto)]

ghost use Rattle.bm_base.specs.Words.{InLawfulStates, AfterAllCalls};
ghost use Rattle.laws_of_events.specs.DrainingNodes as law;

/// After `Drain` the node drains, and other nodes drain as before.
pub fn node_begins_to_drain()
    ensures { law.node_begins_to_drain }
{}

/// After `Undrain` the node does not drain, and other nodes drain as before.
pub fn node_ceases_to_drain()
    ensures { law.node_ceases_to_drain }
{}

/// A node that registers does not drain, and other nodes drain as before.
pub fn registered_node_does_not_drain()
    ensures { law.registered_node_does_not_drain }
{}

/// A dead node does not drain, and other nodes drain as before.
pub fn dead_node_does_not_drain()
    ensures { law.dead_node_does_not_drain }
{}

/// No other event changes which nodes drain.
pub fn other_events_leave_draining()
    ensures { law.other_events_leave_draining }
{}

/// When a node begins to drain, exactly the pending transfers to its storages are dropped. Nodes,
/// storages, blocks, replicas and all other transfers stay, and the event answers that no replica
/// came or went.
pub fn drain_takes_transfers()
    ensures { law.drain_takes_transfers }
{}

/// When a node ceases to drain, nothing is dropped: nodes, storages, blocks, replicas and transfers
/// stay.
pub fn undrain_takes_nothing()
    ensures { law.undrain_takes_nothing }
{}

/// A second drain changes nothing but the number of calls.
pub fn second_drain_changes_nothing()
    ensures { law.second_drain_changes_nothing }
{}

/// `Undrain` of a node that does not drain changes nothing but the number of calls.
pub fn idle_undrain_changes_nothing()
    ensures { law.idle_undrain_changes_nothing }
{}

/// After every list of calls, no pending transfer goes to a node that drains.
pub fn no_transfer_to_draining()
    ensures { law.no_transfer_to_draining }
{}

/// A node is retired exactly if it drains and each known block with a usable replica on it has at
/// least the wanted number of live replicas. Usable is good and not in excess.
pub fn retired_is_said_plainly()
    ensures { law.retired_is_said_plainly }
{}

/// A retired node may die: each block keeps its live replicas, each block with too few live ones
/// keeps all its usable ones, and no further block is missing.
pub fn retired_node_may_die()
    ensures lawful { InLawfulStates law.retired_node_may_die }
    ensures reached { AfterAllCalls law.retired_node_may_die }
{}
