// The size of the cluster, and the node and rack of each storage.
ghost use Rattle.std.specs.Prelude.{◌≡◌, ◌+◌, ◌*◌, ◌/◌, ◌%◌, ◌<◌, ◌≤◌};

/// Nodes, racks, storages and blocks are numbered from 0. Node `n` is on rack `n % racks`, and its
/// storages begin with `n * storages`.
#[derive(Clone, Copy)]
pub struct Shape {
    pub nodes: u32,
    pub racks: u32,
    /// The number of storages of each node.
    pub storages: u32,
    ghost nodes_fit: { (1 ≤ nodes) × (nodes ≤ 65536) },
    ghost racks_fit: { (1 ≤ racks) × (racks ≤ 65536) },
    ghost storages_fit: { (1 ≤ storages) × (storages ≤ 16) },
}

pub const MOST_NODES: u32 = 65_536;

pub const MOST_RACKS: u32 = 65_536;

pub const MOST_STORAGES: u32 = 16;

impl Shape {
    /// Clamps numbers to their ranges; the options refuse all others.
    pub fn new(nodes: u32, racks: u32, storages: u32) -> Shape {
        Shape {
            nodes: nodes.clamp(1, MOST_NODES),
            racks: racks.clamp(1, MOST_RACKS),
            storages: storages.clamp(1, MOST_STORAGES),
        }
    }

    /// Returns the rack of a node.
    pub fn rack_of(&self, node: u32) -> u32
        ensures rack { result ≡ node % self.now.racks }
        ensures known { result < self.now.racks }
    {
        node % self.racks
    }

    /// Returns the node of a storage.
    pub fn node_of(&self, storage: u32) -> u32
        ensures { result ≡ storage / self.now.storages }
    {
        storage / self.storages
    }

    /// The storage of a node at this index, from 0.
    pub fn storage_at(&self, node: u32, place: u32) -> u32
        requires node { node < self.now.nodes }
        requires place { place < self.now.storages }
        ensures storage { result ≡ node * self.now.storages + place }
        ensures known { result < self.now.nodes * self.now.storages }
    {
        node * self.storages + place
    }

    /// The number of storages of the cluster.
    pub fn all_storages(&self) -> u32
        ensures { result ≡ self.now.nodes * self.now.storages }
    {
        self.nodes * self.storages
    }

    /// The number of racks that have a node.
    pub fn used_racks(&self) -> u32
        ensures { 0 < result }
    {
        self.racks.min(self.nodes)
    }
}
