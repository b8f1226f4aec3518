// The mark of a replica, after its place.
ghost use Rattle.std.specs.Prelude.{◌≡◌};
ghost use Rattle.fsck_text.specs.Marks.{mark_named, mark_of, is_domain};

use crate::cuts::{after_prefix, before_last, cut_at};

/// A mark of a replica, as `-replicaDetails` prints it.
#[derive(Clone, Copy, Debug, PartialEq, Drop)]
pub enum Mark {
    /// No mark, as without `-replicaDetails`.
    Absent,
    Live,
    Corrupt,
    Excess,
    Decommissioned,
    Decommissioning,
    EnteringMaintenance,
    InMaintenance,
    StaleNode,
    StaleContent,
}

/// The mark of this name.
fn mark_named(name: &str) -> Option<Mark>
    ensures { result ≡ mark_named name.now }
{
    match name {
        "LIVE" => Some(Mark::Live),
        "CORRUPT" => Some(Mark::Corrupt),
        "EXCESS" => Some(Mark::Excess),
        "DECOMMISSIONED" => Some(Mark::Decommissioned),
        "DECOMMISSIONING" => Some(Mark::Decommissioning),
        "ENTERING MAINTENANCE" => Some(Mark::EnteringMaintenance),
        "IN MAINTENANCE" => Some(Mark::InMaintenance),
        "STALE_NODE" => Some(Mark::StaleNode),
        "STALE_BLOCK_CONTENT" => Some(Mark::StaleContent),
        _ => None,
    }
}

/// The mark, from the text after its opening parenthesis. An upgrade domain, `(ud=NAME)`, may come
/// after it or in its place, and is ignored.
pub fn parse_mark(text: &str) -> Option<Mark>
    ensures { result ≡ mark_of text.now }
{
    let (name, rest) = cut_at(text, ')')?;
    if after_prefix(name, "ud=").is_some() {
        return if rest.is_empty() {
            Some(Mark::Absent)
        } else {
            None
        };
    }
    if rest.is_empty() || is_domain(rest) {
        mark_named(name)
    } else {
        None
    }
}

/// Whether a text is an upgrade domain.
fn is_domain(text: &str) -> bool
    ensures { result ≡ is_domain text.now }
{
    after_prefix(text, "(ud=").is_some() && before_last(text, ')').is_some()
}
