// A NameNode's loop: one turn of it, and the commands for each DataNode.
ghost use Rattle.std.specs.Prelude.{◌≡◌, ◌==◌, false, fold, All, Contains, IfOk, IfErr, IfSome, IfNone, OnOk};
ghost use Rattle.bm_base.specs.Words.{after_event, count_call, whole_round, SparesLastGood};
ghost use Rattle.callers.specs.Turns.{StopsAt};

use bm_base::{Commands, Event, NodeCommands, NodeId, Refusal};
use bm_crew::NoGate;
use bm_manager::Manager;
use std::sync::Wait;
use std::thread::Threads;

/// Applies the events since the last turn in their order, and then makes a round. [`for_node`]
/// gives the commands of one DataNode, which reports what it has done in a later turn.
///
/// Stops at the first refusal. Then only the events before it have been applied.
pub fn turn<R: Threads + Wait + Sync>(
    rt: &R,
    manager: &mut Manager,
    events: &[Event],
) -> Result<Commands, Refusal>
    ensures commands { IfOk result
        (λ k. k ≡ (whole_round (fold after_event manager.old events.now)).0) }
    ensures state { OnOk result
        (manager.new ≡ count_call (whole_round (fold after_event manager.old events.now)).1) }
    ensures last_good { IfOk result
        (λ k. SparesLastGood (fold after_event manager.old events.now) k) }
    ensures stopped { IfErr result (λ e. StopsAt manager.old events.now e manager.new) }
{
    for event in events {
        manager.apply(rt, &NoGate, event)?;
    }
    manager.round(rt, &NoGate)
}

/// The commands of a round for one DataNode, for the reply to its next heartbeat. `None` if there
/// are none.
pub fn for_node(commands: &Commands, node: NodeId) -> Option<&NodeCommands>
    ensures its_own { IfSome result (λ k. k.now.node ≡ node) }
    ensures commanded { IfSome result (λ k. Contains commands.now.nodes k.now) }
    ensures nothing { IfNone result (All (λ k. (k.node == node) ≡ false) commands.now.nodes) }
{
    own_part(commands.nodes.as_slice(), node)
}

fn own_part(nodes: &[NodeCommands], node: NodeId) -> Option<&NodeCommands>
    ensures its_own { IfSome result (λ k. k.now.node ≡ node) }
    ensures commanded { IfSome result (λ k. Contains nodes.now k.now) }
    ensures nothing { IfNone result (All (λ k. (k.node == node) ≡ false) nodes.now) }
{
    for commands in nodes {
        if commands.node == node {
            return Some(commands);
        }
    }
    None
}
