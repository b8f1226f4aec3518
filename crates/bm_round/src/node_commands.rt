// The commands for each DataNode.
ghost use Rattle.std.specs.Prelude.{◌≡◌, filter, IfOk, IfErr, All};
ghost use Rattle.bm_base.specs.declared.refusal.Refusal.TheVariants.{Memory};
ghost use Rattle.bm_base.specs.Machine.Rounds as rounds;
ghost use Rattle.bm_round.specs.RoundCommands as commanded;

use crate::groups::Groups;
use bm_base::{Chosen, Commands, Delete, Items, NodeCommands, Refusal, Transfer};
use bm_topo::Topology;
use std::alloc::{AllocError, Global};

/// Groups a round's commands by DataNode: the transfers whose source is on it, in the order of
/// choice, and the deletes on its storages, in their order. Nodes are in ascending order, and those
/// without a command are left out. Commands for storages outside the cluster are ignored. `Memory`
/// where a list cannot grow; nothing else is refused. Scans each transfer and each delete once,
/// with two binary searches, and no node where there is neither.
#[tactic(auto, unfolding(bm_base::specs::Machine::Rounds::commands_of))]
pub fn commands(
    alloc: Global,
    round: u64,
    chosen: &Chosen,
    topology: &Topology,
) -> Result<Commands, Refusal>
    ensures commands { IfOk result (λ k. k
        ≡ rounds.commands_of topology.now.cluster round chosen.now.transfers chosen.now.deletes) }
    ensures ascending { IfOk result (λ k. commanded.AscendByNode k.nodes) }
    ensures some_command { IfOk result (λ k. All commanded.HasCommands k.nodes) }
    ensures own_transfers { IfOk result
        (λ k. All (commanded.SendsItsOwn topology.now.cluster) k.nodes) }
    ensures own_deletes { IfOk result
        (λ k. All (commanded.DeletesItsOwn topology.now.cluster) k.nodes) }
    ensures refused { IfErr result (λ e. e ≡ Memory) }
{
    let transfers = chosen.transfers.as_slice();
    let deletes = chosen.deletes.as_slice();
    let nodes = nodes_with_commands(alloc, transfers, deletes, topology)?;
    Ok(Commands {
        round,
        nodes: Items::from_vec(nodes),
    })
}

/// The nodes that have a command, with their commands. Scans no node where nothing was chosen.
fn nodes_with_commands(
    alloc: Global,
    transfers: &[Transfer],
    deletes: &[Delete],
    topology: &Topology,
) -> Result<Vec<NodeCommands>, AllocError>
    ensures { IfOk result (λ v. v.items ≡ filter rounds.has_commands
        (commanded.commands_by_node topology.now.cluster transfers.now deletes.now)) }
{
    if transfers.is_empty() && deletes.is_empty() {
        return Ok(Vec::new(alloc));
    }
    let mut nodes = commands_by_node(alloc, transfers, deletes, topology)?;
    nodes.retain(|commands| has_commands(commands));
    Ok(nodes)
}

fn has_commands(commands: &NodeCommands) -> bool
    ensures { result ≡ rounds.has_commands commands.now }
{
    !commands.transfers.as_slice().is_empty() || !commands.deletes.as_slice().is_empty()
}

/// The commands of each alive node, whether it has any or not.
pub(crate) fn commands_by_node(
    alloc: Global,
    transfers: &[Transfer],
    deletes: &[Delete],
    topology: &Topology,
) -> Result<Vec<NodeCommands>, AllocError>
    ensures { IfOk result (λ v. v.items
        ≡ commanded.commands_by_node topology.now.cluster transfers.now deletes.now) }
{
    let mut groups = Groups::new(alloc, topology)?;
    for transfer in transfers {
        groups.add_transfer(topology, *transfer)?;
    }
    for delete in deletes {
        groups.add_delete(topology, *delete)?;
    }
    let Groups { nodes, .. } = groups;
    Ok(nodes)
}
