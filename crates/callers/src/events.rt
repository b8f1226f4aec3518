// Events from lists of the caller's own.
ghost use Rattle.std.specs.Prelude.{◌≡◌, ◌∷◌, [], IfOk};

use bm_base::{Entry, Event, NodeId, Rack, Remaining, StorageId};
use std::alloc::{AllocError, Global};

/// The events of a new DataNode with one storage: its registration, a heartbeat with the free
/// bytes, and a full report of the storage's blocks.
pub fn arrival(
    alloc: Global,
    node: NodeId,
    rack: Rack,
    storage: StorageId,
    bytes: u64,
    entries: &[Entry],
) -> Result<Vec<Event>, AllocError>
    ensures { IfOk result (λ events. events.items
        ≡ Event.Register node rack (storage ∷ [])
        ∷ Event.Heartbeat node (record { storage = storage; remaining = bytes } ∷ [])
        ∷ Event.FullReport storage entries.now ∷ []) }
{
    let free = Remaining {
        storage,
        remaining: bytes,
    };
    let mut events = Vec::new(alloc);
    events.push(Event::register(alloc, node, rack, &[storage])?)?;
    events.push(Event::heartbeat(alloc, node, &[free])?)?;
    events.push(Event::full_report(alloc, storage, entries)?)?;
    Ok(events)
}
