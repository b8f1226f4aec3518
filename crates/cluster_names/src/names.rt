// The names of a cluster: racks, nodes and storages.
ghost use Rattle.std.specs.Prelude.{◌≡◌, ◌++◌, [], codes, option_map, option_copied, OnOk, string_bytes};
ghost use Rattle.cluster_names.specs.Rows.{name_of, name_or_number, shown};

use crate::name_table::NameTable;
use bm_base::{NodeId, Rack, StorageId};
use std::alloc::{AllocError, Global};

/// The names of racks, nodes and storages. A node's name is its host with the port.
#[derive(Drop)]
pub struct Names {
    pub racks: NameTable,
    pub nodes: NameTable,
    pub storages: NameTable,
}

impl Names {
    /// No names. Takes no memory.
    pub fn new(alloc: Global) -> Names
        ensures racks { result.racks ≡ [] }
        ensures nodes { result.nodes ≡ [] }
        ensures storages { result.storages ≡ [] }
    {
        Names {
            racks: NameTable::new(alloc),
            nodes: NameTable::new(alloc),
            storages: NameTable::new(alloc),
        }
    }

    /// Returns the host of a node, if it has a name.
    pub fn host(&self, node: NodeId) -> Option<&str>
        ensures { option_map (λ t. t.now) result ≡ name_of self.now.nodes node }
    {
        self.nodes.name(node.0)
    }

    /// Returns the name of a rack, if it has one.
    pub fn rack(&self, rack: Rack) -> Option<&str>
        ensures { option_map (λ t. t.now) result ≡ name_of self.now.racks rack }
    {
        self.racks.name(rack.0)
    }

    /// Returns the name of a storage, if it has one.
    pub fn storage(&self, storage: StorageId) -> Option<&str>
        ensures { option_map (λ t. t.now) result ≡ name_of self.now.storages storage }
    {
        self.storages.name(storage.0)
    }

    /// Appends the host of a node, or `node` and its number if it has no name.
    pub fn write_host(&self, text: &mut String, node: NodeId) -> Result<(), AllocError>
        ensures { OnOk result (string_bytes text.new ≡ string_bytes text.old
            ++ name_or_number (codes "node ") self.now.nodes node) }
    {
        write_name(text, self.host(node), "node ", node.0)
    }

    /// Appends the name of a rack, or `rack` and its number.
    pub fn write_rack(&self, text: &mut String, rack: Rack) -> Result<(), AllocError>
        ensures { OnOk result (string_bytes text.new ≡ string_bytes text.old
            ++ name_or_number (codes "rack ") self.now.racks rack) }
    {
        write_name(text, self.rack(rack), "rack ", rack.0)
    }

    /// Appends the name of a storage, or `storage` and its number.
    pub fn write_storage(&self, text: &mut String, storage: StorageId) -> Result<(), AllocError>
        ensures { OnOk result (string_bytes text.new ≡ string_bytes text.old
            ++ name_or_number (codes "storage ") self.now.storages storage) }
    {
        write_name(text, self.storage(storage), "storage ", storage.0)
    }
}

/// Appends the name, or the kind of the thing and its number.
fn write_name(
    text: &mut String,
    name: Option<&str>,
    kind: &str,
    number: u32,
) -> Result<(), AllocError>
    ensures { OnOk result (string_bytes text.new ≡ string_bytes text.old
        ++ shown (option_copied name.entry) kind.now number) }
{
    match name {
        Some(name) => text.push_str(name),
        None => write!(text, "{kind}{number}"),
    }
}
