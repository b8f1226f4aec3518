// Looks up the names of a command line: by the names of the cluster, or by number if it has none.
ghost use Rattle.std.specs.Prelude.{◌≡◌, IfOk};
ghost use Rattle.cluster_losses.specs.NamedStorages.{number_written, number_named, is_on_host, is_node_named, nodes_named, nodes_in};

use crate::failure_domains::nodes_on;
use bm_base::{NodeId, Rack, StorageId};
use cluster_input::loaded_cluster::Loaded;
use cluster_names::{NameTable, Names};
use cluster_report::nodes::all_nodes;
use fsck_text::last_cut_at;
use std::alloc::{AllocError, Global};

/// The alive nodes of the rack of this name, ascending.
pub fn nodes_in(alloc: Global, loaded: &Loaded, name: &str) -> Result<Vec<NodeId>, AllocError>
    ensures { IfOk result (λ v. v.items
        ≡ nodes_in loaded.now.session.book.topology.cluster loaded.now.names name.now) }
{
    match number_named(&loaded.names.racks, name) {
        Some(rack) => nodes_on(alloc, &loaded.session.book, Rack(rack)),
        None => Ok(Vec::new(alloc)),
    }
}

/// Returns the storage of this name or, if no storage is named, of this number. The cluster need
/// not know it.
pub fn storage_named(loaded: &Loaded, name: &str) -> Option<StorageId>
    ensures { result ≡ number_named loaded.now.names.storages name.now }
{
    Some(StorageId(number_named(&loaded.names.storages, name)?))
}

/// The alive nodes of this name, ascending: the one that has it, or else those on the host,
/// whatever their ports.
pub fn nodes_named(alloc: Global, loaded: &Loaded, name: &str) -> Result<Vec<NodeId>, AllocError>
    ensures { IfOk result (λ v. v.items
        ≡ nodes_named loaded.now.session.book.topology.cluster loaded.now.names name.now) }
{
    let number = number_named(&loaded.names.nodes, name);
    let all = all_nodes(alloc, &loaded.session.book.topology)?;
    all.iter()
        .filter(|node| is_node_named(&loaded.names, number, name, **node))
        .copied()
        .collect(alloc)
}

/// Whether a node has this name. `number` is the node's number by the name, if it has one; else the
/// name may be the host.
fn is_node_named(names: &Names, number: Option<u32>, name: &str, node: NodeId) -> bool
    requires { number ≡ number_named names.now.nodes name.now }
    ensures { result ≡ is_node_named names.now name.now node }
{
    match number {
        Some(number) => node.0 == number,
        None => match names.host(node) {
            Some(own) => is_on_host(own, name),
            None => false,
        },
    }
}

/// Whether the name of a node is this host, a colon, and a port.
fn is_on_host(name: &str, host: &str) -> bool
    ensures { result ≡ is_on_host name.now host.now }
{
    match last_cut_at(name, ':') {
        Some((own, _)) => own == host,
        None => false,
    }
}

/// The number with this name. If no name of the kind is known, the name is parsed as a number.
fn number_named(names: &NameTable, name: &str) -> Option<u32>
    ensures { result ≡ number_named names.now name.now }
{
    if 0 < names.len() {
        return names.number(name);
    }
    number_written(name)
}

fn number_written(text: &str) -> Option<u32>
    ensures { result ≡ number_written text.now }
{
    text.parse::<u32>().ok()
}
