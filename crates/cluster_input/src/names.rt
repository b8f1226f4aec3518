// The names of a loaded cluster.
ghost use Rattle.std.specs.Prelude.{◌≡◌, fold, IfOk, OnOk};
ghost use Rattle.cluster_input.specs.ClusterNames.{names_of, with_name, with_node, with_storage};

use cluster_names::{NameTable, Names};
use fsck_cluster::{Cluster, NodeRow, Row};
use fsck_text::escaped;
use std::alloc::{AllocError, Global};

/// The names of racks, nodes and storages as they are printed, by their numbers.
pub fn names_of(alloc: Global, cluster: &Cluster) -> Result<Names, AllocError>
    ensures { IfOk result (λ names. names ≡ names_of cluster.now) }
{
    let mut names = Names::new(alloc);
    add_nodes(alloc, &mut names, cluster)?;
    add_storages(alloc, &mut names, cluster)?;
    Ok(names)
}

fn add_nodes(alloc: Global, names: &mut Names, cluster: &Cluster) -> Result<(), AllocError>
    ensures { OnOk result (names.new
        ≡ fold (with_node cluster.now) names.old cluster.now.node_rows) }
{
    for row in cluster.node_rows.as_slice() {
        add_node(alloc, names, cluster, row)?;
    }
    Ok(())
}

/// Adds a node and its rack.
fn add_node(
    alloc: Global,
    names: &mut Names,
    cluster: &Cluster,
    row: &NodeRow,
) -> Result<(), AllocError>
    ensures { OnOk result (names.new ≡ with_node cluster.now names.old row.now) }
{
    add_name(
        alloc,
        &mut names.racks,
        row.rack,
        cluster.racks.name(row.rack),
    )?;
    add_name(
        alloc,
        &mut names.nodes,
        row.number,
        cluster.nodes.name(row.number),
    )
}

fn add_storages(alloc: Global, names: &mut Names, cluster: &Cluster) -> Result<(), AllocError>
    ensures { OnOk result (names.new
        ≡ fold (with_storage cluster.now) names.old cluster.now.rows) }
{
    for row in cluster.rows.as_slice() {
        add_storage(alloc, names, cluster, row)?;
    }
    Ok(())
}

fn add_storage(
    alloc: Global,
    names: &mut Names,
    cluster: &Cluster,
    row: &Row,
) -> Result<(), AllocError>
    ensures { OnOk result (names.new ≡ with_storage cluster.now names.old row.now) }
{
    add_name(
        alloc,
        &mut names.storages,
        row.number,
        cluster.storages.name(row.number),
    )
}

/// Adds a number with its name as it is printed, unless one of them is known.
fn add_name(alloc: Global, names: &mut NameTable, number: u32, name: &str) -> Result<(), AllocError>
    ensures { OnOk result (names.new ≡ with_name names.old number name.now) }
{
    let printed = escaped(alloc, name)?;
    let _ = names.add(alloc, number, printed.as_str())?;
    Ok(())
}
