// Events and rounds that change no level or only that of one block, and replicas that stay on
// storages of alive nodes.
#![tactic(auto)]

ghost use Rattle.bm_parts.specs.LevelLaws as law;

/// A block's level depends only on its information and on its own replicas.
pub fn level_is_of_its_block()
    ensures { law.level_is_of_its_block }
{}

/// An event on one block keeps the levels of all others.
pub fn event_leaves_other_levels()
    ensures { law.event_leaves_other_levels }
{}

/// The end of a round changes no level.
pub fn round_end_leaves_levels()
    ensures { law.round_end_leaves_levels }
{}

/// A heartbeat keeps the rack of each storage, which storages are on nodes that drain, and whether
/// there are several racks.
pub fn heartbeat_leaves_racks()
    ensures { law.heartbeat_leaves_racks }
{}

/// A heartbeat keeps every level.
pub fn heartbeat_leaves_levels()
    ensures { law.heartbeat_leaves_levels }
{}

/// A new node with new storages keeps every level, unless it gives the cluster a second rack.
pub fn register_leaves_levels()
    ensures { law.register_leaves_levels }
{}

/// The death of a node keeps the levels of blocks with no usable replica there, unless it leaves
/// the cluster one rack.
pub fn death_leaves_levels()
    ensures { law.death_leaves_levels }
{}

/// The failure of a storage keeps the levels of blocks with no usable replica there.
pub fn failure_leaves_levels()
    ensures { law.failure_leaves_levels }
{}

/// A node that begins to drain keeps the levels of blocks with no usable replica there.
pub fn drain_leaves_levels()
    ensures { law.drain_leaves_levels }
{}

/// A node that ceases to drain keeps the levels of blocks with no usable replica there.
pub fn undrain_leaves_levels()
    ensures { law.undrain_leaves_levels }
{}

/// An event that the cluster does not refuse keeps the replicas of a part on storages of alive
/// nodes.
pub fn event_keeps_racked()
    ensures { law.event_keeps_racked }
{}

/// A round keeps the replicas of a part on storages of alive nodes.
pub fn round_keeps_racked()
    ensures { law.round_keeps_racked }
{}
