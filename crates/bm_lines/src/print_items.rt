// The items of an answer's line.
ghost use Rattle.std.specs.Prelude.{◌≡◌, ◌++◌, OnOk, string_bytes, flat_map};
ghost use Rattle.bm_lines.specs.Print.{number_item, replica_item, replica_id_item, level_item, transfer_item, delete_item, node_items};

use bm_base::{
    BlockId, Delete, Level, NodeCommands, NodeId, Replica, ReplicaId, StorageId, Transfer,
};
use std::alloc::AllocError;

pub fn write_replicas(line: &mut String, replicas: &[Replica]) -> Result<(), AllocError>
    ensures { OnOk result (string_bytes line.new ≡ string_bytes line.old
        ++ flat_map replica_item replicas.now) }
{
    for replica in replicas {
        let block = replica.block.0;
        let storage = replica.storage.0;
        let tag = replica.tag.name();
        write!(line, "; {block} {storage} {tag}")?;
    }
    Ok(())
}

pub fn write_replica_ids(line: &mut String, ids: &[ReplicaId]) -> Result<(), AllocError>
    ensures { OnOk result (string_bytes line.new ≡ string_bytes line.old
        ++ flat_map replica_id_item ids.now) }
{
    for id in ids {
        let block = id.block.0;
        let storage = id.storage.0;
        write!(line, "; {block} {storage}")?;
    }
    Ok(())
}

pub fn write_blocks(line: &mut String, blocks: &[BlockId]) -> Result<(), AllocError>
    ensures { OnOk result (string_bytes line.new ≡ string_bytes line.old
        ++ flat_map number_item blocks.now) }
{
    for block in blocks {
        let number = block.0;
        write!(line, "; {number}")?;
    }
    Ok(())
}

pub fn write_storages(line: &mut String, storages: &[StorageId]) -> Result<(), AllocError>
    ensures { OnOk result (string_bytes line.new ≡ string_bytes line.old
        ++ flat_map number_item storages.now) }
{
    for storage in storages {
        let number = storage.0;
        write!(line, "; {number}")?;
    }
    Ok(())
}

pub fn write_level(line: &mut String, level: Option<Level>) -> Result<(), AllocError>
    ensures { OnOk result (string_bytes line.new ≡ string_bytes line.old ++ level_item level) }
{
    match level {
        None => line.push_str("; none"),
        Some(level) => {
            let number = level.number();
            write!(line, "; {number}")
        }
    }
}

pub fn write_nodes(line: &mut String, nodes: &[NodeCommands]) -> Result<(), AllocError>
    ensures { OnOk result (string_bytes line.new ≡ string_bytes line.old
        ++ flat_map node_items nodes.now) }
{
    for node in nodes {
        write_node(line, node)?;
    }
    Ok(())
}

fn write_node(line: &mut String, commands: &NodeCommands) -> Result<(), AllocError>
    ensures { OnOk result (string_bytes line.new ≡ string_bytes line.old
        ++ node_items commands.now) }
{
    write_transfers(line, commands.node, commands.transfers.as_slice())?;
    write_deletes(line, commands.node, commands.deletes.as_slice())
}

fn write_transfers(
    line: &mut String,
    node: NodeId,
    transfers: &[Transfer],
) -> Result<(), AllocError>
    ensures { OnOk result (string_bytes line.new ≡ string_bytes line.old
        ++ flat_map (transfer_item node) transfers.now) }
{
    let node = node.0;
    for transfer in transfers {
        let block = transfer.block.0;
        let generation = transfer.stamp.generation.0;
        let len = transfer.stamp.len;
        let source = transfer.source.0;
        let target = transfer.target.0;
        write!(
            line,
            "; copy {node} {block} {generation} {len} {source} {target}"
        )?;
    }
    Ok(())
}

fn write_deletes(line: &mut String, node: NodeId, deletes: &[Delete]) -> Result<(), AllocError>
    ensures { OnOk result (string_bytes line.new ≡ string_bytes line.old
        ++ flat_map (delete_item node) deletes.now) }
{
    let node = node.0;
    for delete in deletes {
        let storage = delete.storage.0;
        let block = delete.block.0;
        write!(line, "; delete {node} {storage} {block}")?;
    }
    Ok(())
}
