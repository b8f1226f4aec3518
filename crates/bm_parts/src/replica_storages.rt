// Laws on the storages of replicas, and on which are in excess, that events and rounds keep.
#![tactic(auto)]

ghost use Rattle.bm_parts.specs.PlacedLaws as law;

/// Replicas of lawful holdings are on known storages, a node has at most one of a block, and only
/// good ones are in excess.
pub fn lawful_is_placed()
    ensures { law.lawful_is_placed }
{}

/// An event that the cluster does not refuse keeps these laws in a part.
pub fn event_keeps_placed()
    ensures { law.event_keeps_placed }
{}

/// A report of a known storage keeps these laws in a part, whatever its entries.
pub fn report_keeps_placed()
    ensures { law.report_keeps_placed }
{}

/// A round keeps these laws in a part.
pub fn round_keeps_placed()
    ensures { law.round_keeps_placed }
{}
