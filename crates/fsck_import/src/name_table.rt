// The table of names: the number of each rack, node and storage.
ghost use Rattle.std.specs.Prelude.{◌≡◌, ◌++◌, IfOk, OnOk, string_bytes, flat_map};
ghost use Rattle.fsck_import.specs.NameTable.{node_line, storage_line, table_of};

use fsck_cluster::{Cluster, NodeRow, Row};
use fsck_text::escaped;
use std::alloc::{AllocError, Global};

/// One row for each node and each storage, in the order of their numbers.
#[tactic(auto, unfolding(crate::specs::NameTable::table_of))]
pub fn table_of(alloc: Global, cluster: &Cluster) -> Result<String, AllocError>
    ensures { IfOk result (λ s. string_bytes s ≡ table_of cluster.now) }
{
    let mut text = String::new(alloc);
    write_nodes(alloc, &mut text, cluster)?;
    write_storages(alloc, &mut text, cluster)?;
    Ok(text)
}

fn write_nodes(alloc: Global, text: &mut String, cluster: &Cluster) -> Result<(), AllocError>
    ensures { OnOk result (string_bytes text.new ≡ string_bytes text.old
        ++ flat_map (node_line cluster.now) cluster.now.node_rows) }
{
    for node in cluster.node_rows.as_slice() {
        write_node(alloc, text, cluster, node)?;
    }
    Ok(())
}

#[tactic(auto, unfolding(crate::specs::NameTable::node_line))]
fn write_node(
    alloc: Global,
    text: &mut String,
    cluster: &Cluster,
    row: &NodeRow,
) -> Result<(), AllocError>
    ensures { OnOk result (string_bytes text.new ≡ string_bytes text.old
        ++ node_line cluster.now row.now) }
{
    let number = row.number;
    let address = escaped(alloc, cluster.nodes.name(number))?;
    let rack = row.rack;
    let rack_name = escaped(alloc, cluster.racks.name(rack))?;
    write!(text, "node\t{number}\t{address}\t{rack}\t{rack_name}\n")
}

fn write_storages(alloc: Global, text: &mut String, cluster: &Cluster) -> Result<(), AllocError>
    ensures { OnOk result (string_bytes text.new ≡ string_bytes text.old
        ++ flat_map (storage_line cluster.now) cluster.now.rows) }
{
    for row in cluster.rows.as_slice() {
        write_storage(alloc, text, cluster, row)?;
    }
    Ok(())
}

#[tactic(auto, unfolding(crate::specs::NameTable::storage_line))]
fn write_storage(
    alloc: Global,
    text: &mut String,
    cluster: &Cluster,
    row: &Row,
) -> Result<(), AllocError>
    ensures { OnOk result (string_bytes text.new ≡ string_bytes text.old
        ++ storage_line cluster.now row.now) }
{
    let number = row.number;
    let storage = escaped(alloc, cluster.storages.name(number))?;
    let node = row.node;
    let address = escaped(alloc, cluster.nodes.name(node))?;
    write!(text, "storage\t{number}\t{storage}\t{node}\t{address}\n")
}
