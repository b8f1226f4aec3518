// What holds after every list of calls, in plain words.
#![tactic(auto)]

ghost use Rattle.laws_of_events.specs.PlainWords as law;

/// After every list of calls, whatever numbers they bring: replicas, and pending transfers, are on
/// storages of alive nodes. Only alive nodes drain, and no pending transfer goes to one that does.
/// A node has one replica of a block at most. A replica is stray exactly if its block is unknown;
/// only good ones are in excess. Pending transfers are of known blocks, and their replicas are not
/// there yet. There are no more nodes and storages than the limits allow, and 1 to 16 replicas of
/// each block are wanted.
pub fn calls_lead_to_sound()
    ensures { law.calls_lead_to_sound }
{}
