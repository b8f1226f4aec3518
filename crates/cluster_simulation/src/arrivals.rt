// Removes copies that arrived from the pending copies in the manager's book.

use bm_base::{Event, Transfer};
use bm_topo::Topology;
use cluster_repair::awaited_copies::Sent;
use cluster_report::transfers::Transfers;

/// Removes the copies that arrive by `now` from the pending ones.
pub fn note_arrivals(awaited: &mut Transfers, topology: &Topology, sent: &[Sent], now: u64) {
    for one in sent {
        if one.arrival <= now {
            note_arrival(awaited, topology, &one.transfer);
        }
    }
}

#[tactic(auto, unfolding(bm_base::specs::Machine::Refusals::cluster_checks))]
fn note_arrival(awaited: &mut Transfers, topology: &Topology, copied: &Transfer) {
    if topology.knows_storage(copied.target) {
        let received = Event::Received {
            storage: copied.target,
            id: copied.block,
            stamp: copied.stamp,
        };
        awaited.take_event(topology, &received);
    }
}
