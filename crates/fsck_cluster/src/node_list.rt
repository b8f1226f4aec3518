// The DataNodes, from the report on them.
ghost use Rattle.std.specs.Prelude.{◌≡◌, Ok, Err, Some, OnOk, IfOk, IfErr};
ghost use Rattle.fsck_cluster.specs.NodeLists.{no_list, ended_row, counted, ended_section, after_name, after_rack, after_drains, after_remaining, after_section, after_line, at_end, IsCause};
ghost use Rattle.fsck_cluster.specs.declared.node_list.NodeRefusal.TheVariants as refusal;

use crate::cluster::{Cluster, DEFAULT_RACK, NodeRow};
use bm_base::MOST_NODES;
use fsck_text::{NodeLine, Wrong, parse_node_line};
use std::alloc::{AllocError, Global};
use thiserror::Error;

/// The live nodes read so far.
#[derive(Drop)]
pub struct NodeList {
    pub cluster: Cluster,
    /// Whether the section of the live nodes is being read.
    pub is_live: bool,
    /// The number of live nodes in its heading.
    pub announced: u64,
    /// Whether that section was begun.
    pub was_live: bool,
    /// The node that is being read; its rack is 0 until a line has it.
    pub row: Option<NodeRow>,
    /// Whether a line had the state of this node.
    pub has_status: bool,
}

/// Why a line of the report is refused though its words are understood.
#[derive(Clone, Copy, Debug, Drop, Error)]
pub enum NodeWhy {
    #[error("the node was read before: give the output of one hdfs dfsadmin -report")]
    NodeTwice,
    #[error("more than 65,536 live nodes")]
    TooManyNodes,
    #[error("the node before has no line 'DFS Remaining'")]
    NoRemaining,
    #[error("the node before has no line 'Decommission Status'")]
    NoStatus,
    #[error("the report says {live} live DataNodes, and {read} were read: give the whole output of hdfs dfsadmin -report")]
    OtherNumber { live: u64, read: usize },
    #[error("the report has no live DataNodes: --nodes reads the output of hdfs dfsadmin -report, and no text of fsck")]
    NoLiveNodes,
}

/// Why a line of the report is refused.
#[derive(Drop)]
pub enum NodeRefusal<'a> {
    /// A word is not understood.
    Wrong(Wrong<'a>),
    Why(NodeWhy),
}

/// Why a line is refused, or out of memory.
#[derive(Drop)]
pub enum NodeFault<'a> {
    Memory,
    Refused(NodeRefusal<'a>),
}

impl<'a> From<AllocError> for NodeFault<'a> {
    ghost use Rattle.std.specs.Prelude.{◌≡◌};
    ghost use Rattle.fsck_cluster.specs.declared.node_list.NodeFault.TheVariants.{Memory};

    ghost from_gives = { λ _ e. e ≡ Memory };

    fn from(_error: AllocError) -> Self {
        NodeFault::Memory
    }
}

impl<'a> From<Wrong<'a>> for NodeFault<'a> {
    ghost use Rattle.std.specs.Prelude.{◌≡◌};
    ghost use Rattle.fsck_cluster.specs.declared.node_list.NodeFault.TheVariants as fault;
    ghost use Rattle.fsck_cluster.specs.declared.node_list.NodeRefusal.TheVariants as refusal;

    ghost from_gives = { λ w e. e ≡ fault.Refused (refusal.Wrong w) };

    fn from(wrong: Wrong<'a>) -> Self {
        NodeFault::Refused(NodeRefusal::Wrong(wrong))
    }
}

impl NodeList {
    /// Makes an empty list of nodes. Takes no memory.
    pub fn new(alloc: Global) -> NodeList
        ensures { result ≡ no_list }
    {
        let mut cluster = Cluster::new(alloc);
        cluster.knows_nodes = true;
        NodeList {
            cluster,
            is_live: false,
            announced: 0,
            was_live: false,
            row: None,
            has_status: false,
        }
    }

    /// Takes one more line.
    pub fn take_line<'a>(&mut self, alloc: Global, line: &'a str) -> Result<(), NodeFault<'a>>
        ensures ok { OnOk result (after_line self.old line.entry.now ≡ Ok self.new) }
        ensures refused { IfErr result (λ f. IsCause f (after_line self.old line.entry.now)) }
    {
        match parse_node_line(line)? {
            NodeLine::Live(count) => self.take_section(alloc, true, count),
            NodeLine::NotLive => self.take_section(alloc, false, 0),
            NodeLine::Other => Ok(()),
            _ if !self.is_live => Ok(()),
            NodeLine::Node(address) => self.take_name(alloc, address.text()),
            NodeLine::Rack(rack) => Ok(self.take_rack(alloc, rack.text())?),
            NodeLine::Drains(drains) => Ok(self.take_drains(drains)?),
            NodeLine::Remaining(bytes) => {
                self.take_remaining(bytes);
                Ok(())
            }
        }
    }

    /// Ends the report, and returns the nodes.
    pub fn end<'a>(mut self, alloc: Global) -> Result<Cluster, NodeFault<'a>>
        ensures ok { IfOk result (λ c. at_end self ≡ Ok c) }
        ensures refused { IfErr result (λ f. IsCause f (at_end self)) }
    {
        self.end_report(alloc)?;
        Ok(self.into_cluster())
    }

    /// Ends the last section. One must have been of live nodes.
    fn end_report<'a>(&mut self, alloc: Global) -> Result<(), NodeFault<'a>>
        ensures ok { OnOk result (at_end self.old ≡ Ok self.new.cluster) }
        ensures refused { IfErr result (λ f. IsCause f (at_end self.old)) }
    {
        self.end_section(alloc)?;
        if self.was_live {
            Ok(())
        } else {
            Err(NodeFault::Refused(NodeRefusal::Why(NodeWhy::NoLiveNodes)))
        }
    }

    fn into_cluster(self) -> Cluster
        ensures { result ≡ self.cluster }
    {
        let NodeList { cluster, .. } = self;
        cluster
    }

    /// Adds the node that was being read.
    fn end_row<'a>(&mut self, alloc: Global) -> Result<(), NodeFault<'a>>
        ensures ok { OnOk result (ended_row self.old ≡ Ok self.new) }
        ensures refused { IfErr result (λ f. IsCause f (ended_row self.old)) }
    {
        let Some(row) = self.row else {
            return Ok(());
        };
        if row.remaining.is_none() {
            return Err(NodeFault::Refused(NodeRefusal::Why(NodeWhy::NoRemaining)));
        }
        if !self.has_status {
            return Err(NodeFault::Refused(NodeRefusal::Why(NodeWhy::NoStatus)));
        }
        let rack = if row.rack == 0 {
            self.cluster.racks.intern(alloc, DEFAULT_RACK)?.number
        } else {
            row.rack
        };
        self.cluster.node_rows.push(NodeRow { rack, ..row })?;
        self.row = None;
        Ok(())
    }

    /// Ends the section that was being read, and checks its number of nodes.
    fn end_section<'a>(&mut self, alloc: Global) -> Result<(), NodeFault<'a>>
        ensures ok { OnOk result (ended_section self.old ≡ Ok self.new) }
        ensures refused { IfErr result (λ f. IsCause f (ended_section self.old)) }
    {
        self.end_row(alloc)?;
        match self.check_node_count() {
            Ok(()) => Ok(()),
            Err(why) => Err(NodeFault::Refused(NodeRefusal::Why(why))),
        }
    }

    /// Checks that the number of live nodes read is the one in the heading of their section.
    fn check_node_count(&self) -> Result<(), NodeWhy>
        ensures ok { OnOk result (counted self.now ≡ Ok self.now) }
        ensures refused { IfErr result (λ why. counted self.now ≡ Err (refusal.Why why)) }
    {
        if !self.is_live {
            return Ok(());
        }
        let (live, read) = (self.announced, self.cluster.nodes.len());
        if read as u64 == live {
            Ok(())
        } else {
            Err(NodeWhy::OtherNumber { live, read })
        }
    }

    fn take_section<'a>(
        &mut self,
        alloc: Global,
        is_live: bool,
        announced: u64,
    ) -> Result<(), NodeFault<'a>>
        ensures ok { OnOk result (after_section self.old is_live announced ≡ Ok self.new) }
        ensures refused { IfErr result (λ f. IsCause f (after_section self.old is_live announced)) }
    {
        self.end_section(alloc)?;
        self.is_live = is_live;
        self.announced = announced;
        self.was_live = self.was_live || is_live;
        Ok(())
    }

    fn take_name<'a>(&mut self, alloc: Global, address: &str) -> Result<(), NodeFault<'a>>
        ensures ok { OnOk result (after_name self.old address.now ≡ Ok self.new) }
        ensures refused { IfErr result (λ f. IsCause f (after_name self.old address.now)) }
    {
        self.end_row(alloc)?;
        if self.cluster.nodes.index(address).is_some() {
            return Err(NodeFault::Refused(NodeRefusal::Why(NodeWhy::NodeTwice)));
        }
        if self.cluster.nodes.len() >= MOST_NODES as usize {
            return Err(NodeFault::Refused(NodeRefusal::Why(NodeWhy::TooManyNodes)));
        }
        let node = self.cluster.nodes.intern(alloc, address)?;
        self.row = Some(NodeRow {
            number: node.number,
            rack: 0,
            remaining: None,
        });
        self.has_status = false;
        Ok(())
    }

    fn take_rack(&mut self, alloc: Global, name: &str) -> Result<(), AllocError>
        ensures { OnOk result (self.new ≡ after_rack self.old name.now) }
    {
        if let Some(row) = self.row {
            let rack = self.cluster.racks.intern(alloc, name)?.number;
            self.row = Some(NodeRow { rack, ..row });
        }
        Ok(())
    }

    fn take_drains(&mut self, drains: bool) -> Result<(), AllocError>
        ensures { OnOk result (self.new ≡ after_drains self.old drains) }
    {
        let Some(row) = self.row else {
            return Ok(());
        };
        if drains {
            self.cluster.draining.add(u64::from(row.number))?;
        }
        self.has_status = true;
        Ok(())
    }

    fn take_remaining(&mut self, bytes: u64)
        ensures { self.new ≡ after_remaining self.old bytes }
    {
        if let Some(row) = self.row {
            self.row = Some(NodeRow {
                remaining: Some(bytes),
                ..row
            });
        }
    }
}
