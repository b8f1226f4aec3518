// Reads a whole text of fsck, and a whole report on DataNodes.
ghost use Rattle.std.specs.Prelude.{◌≡◌, [], Ok, Some, IfOk, OnOk, IfErr, IfSome};
ghost use Rattle.fsck_import.specs.Causes.{IsCause};
ghost use Rattle.fsck_import.specs.TextReading.{beginning, after_whole, after_taken, at_end, ended_nodes, nodes_of, reading_of, IsFileFault, IsNodeFault, IsFaultOfReading, IsFaultOfNodes};
ghost use Rattle.fsck_import.specs.Imports.{HasBlocks};
ghost use Rattle.fsck_import.specs.Laws.{IsFresh};
ghost use Rattle.fsck_import.specs.Lines.{IsReadFault};

use crate::fault::{Cause, Fault, LineFault, Quoted, Unread};
use crate::lines::{TakesLines, take_lines};
use crate::listed_files::Listing;
use fsck_cluster::{Cluster, ClusterFault, NodeFault, NodeList, NodeRefusal};
use fsck_files::{Block, Files, Refusal, Skips, Unclear, Why};
use fsck_text::{goes_on, whole_line};
use std::alloc::{AllocError, Global};
use std::io::BufRead;
use std::marker::Model;
use std::mem;

/// The state of reading a text of fsck, and the cluster so far.
#[derive(Drop)]
pub struct Reading {
    pub files: Files,
    pub cluster: Cluster,
    pub listing: Listing,
    /// The lines of a path with line feeds so far, if one is being read.
    pub path: PathLines,
}

/// The lines of a path so far; empty if none is being read.
#[derive(Drop)]
pub struct PathLines {
    text: String,
}

impl Model for PathLines {
    ghost use Rattle.std.specs.Prelude.{string_bytes};
    ghost use Rattle.fsck_text.specs.Cuts.{Text};

    ghost Value = { Text };

    ghost view = { λ p. string_bytes p.text };
}

impl PathLines {
    ghost use Rattle.std.specs.Prelude.{◌≡◌, [], OnOk};
    ghost use Rattle.fsck_text.specs.Cuts.{is_empty};
    ghost use Rattle.fsck_text.specs.Feeds.{joined};

    /// No line. Takes no memory.
    fn new(alloc: Global) -> PathLines
        ensures { result ≡ [] }
    {
        PathLines {
            text: String::new(alloc),
        }
    }

    fn is_empty(&self) -> bool
        ensures { result ≡ is_empty self.now }
    {
        self.text.is_empty()
    }

    /// Adds a line.
    fn add(&mut self, line: &str) -> Result<(), AllocError>
        ensures { OnOk result (self.new ≡ joined self.old line.now) }
    {
        if !self.text.is_empty() {
            self.text.push('\n')?;
        }
        self.text.push_str(line)
    }
}

impl TakesLines for Reading {
    ghost use Rattle.fsck_import.specs.TextReading.{after_line};

    ghost after = { after_line };

    fn take_line(&mut self, alloc: Global, line: &str) -> Result<(), LineFault> {
        if self.path.is_empty() && !goes_on(line) {
            return self.take_whole(alloc, line);
        }
        self.path.add(line)?;
        if goes_on(self.path.text.as_str()) {
            return Ok(());
        }
        let path = mem::replace(&mut self.path, PathLines::new(alloc));
        self.take_whole(alloc, whole_line(path.text.as_str(), line))
    }
}

/// The refusal of a line, with the word that cannot be parsed.
fn line_fault(alloc: Global, line: &str, fault: fsck_files::LineFault) -> LineFault
    ensures { IsFileFault result line.now fault.entry }
{
    match fault {
        fsck_files::LineFault::Memory => LineFault::Memory,
        fsck_files::LineFault::Refused(Refusal::Why(why)) => LineFault::Refused(Cause::File(why)),
        fsck_files::LineFault::Refused(Refusal::Wrong(wrong)) => {
            match Quoted::new(alloc, line, &wrong) {
                Ok(quoted) => LineFault::Refused(Cause::Word(quoted)),
                Err(_) => LineFault::Memory,
            }
        }
    }
}

impl Reading {
    /// The state before the first line. The cluster has the known nodes.
    pub fn new(
        alloc: Global,
        nodes: Cluster,
        skips: Skips,
        unclear: Unclear,
        keeps_files: bool,
    ) -> Reading
        ensures { result ≡ beginning nodes skips unclear keeps_files }
    {
        Reading {
            files: Files::new(alloc, skips, unclear),
            cluster: nodes,
            listing: Listing::new(alloc, keeps_files),
            path: PathLines::new(alloc),
        }
    }

    /// Takes a whole line.
    fn take_whole(&mut self, alloc: Global, line: &str) -> Result<(), LineFault>
        requires { self.old.path ≡ [] }
        ensures ok { OnOk result (after_whole self.old line.now ≡ Ok self.new) }
        ensures refused { IfErr result (λ f. IsCause f (after_whole self.old line.now)) }
    {
        self.listing.take_line(alloc, line)?;
        match self.files.take_line(alloc, line) {
            Ok(Some(block)) => self.take_block(alloc, &block),
            Ok(None) => Ok(()),
            Err(fault) => Err(line_fault(alloc, line, fault)),
        }
    }

    /// Adds a block.
    fn take_block(&mut self, alloc: Global, block: &Block) -> Result<(), LineFault>
        requires { self.old.path ≡ [] }
        ensures ok { OnOk result (after_taken self.old.files self.old.listing self.old.cluster block.now
            ≡ Ok self.new) }
        ensures refused { IfErr result
            (λ f. IsCause f (after_taken self.old.files self.old.listing self.old.cluster block.now)) }
    {
        let index = u64::from(self.files.file.read).saturating_sub(1);
        self.listing.take_block(alloc, block.id, index)?;
        match self.cluster.take_block(alloc, block) {
            Ok(()) => Ok(()),
            Err(ClusterFault::Memory) => Err(LineFault::Memory),
            Err(ClusterFault::Refused(why)) => Err(LineFault::Refused(Cause::Cluster(why))),
        }
    }

    /// Ends the text, whose last line must have been read. Each known node gets a storage.
    fn end(&mut self, alloc: Global) -> Result<(), LineFault>
        ensures ok { OnOk result (at_end self.old ≡ Ok self.new) }
        ensures refused { IfErr result (λ f. IsCause f (at_end self.old)) }
    {
        if !self.files.is_whole() {
            return Err(LineFault::Refused(Cause::File(Why::CutOff)));
        }
        self.path = PathLines::new(alloc);
        match self.cluster.add_spares(alloc) {
            Ok(()) => Ok(()),
            Err(ClusterFault::Memory) => Err(LineFault::Memory),
            Err(ClusterFault::Refused(why)) => Err(LineFault::Refused(Cause::Cluster(why))),
        }
    }
}

/// Reads a whole text of fsck. Holds one line at a time.
pub fn read_cluster<R: BufRead>(
    alloc: Global,
    reader: &mut R,
    reading: Reading,
) -> Result<Reading, Fault>
    ensures text { IfOk result (λ read. IfSome (R.remaining reader.old)
        (λ text. reading_of reading text ≡ Ok read)) }
    // For any number of free bytes, the calls for the cluster describe the text's blocks.
    ensures blocks { IfOk result (λ read. IfSome (R.remaining reader.old)
        (λ text. HasBlocks reading text read)) }
    ensures refused { IfErr result (λ f. IsFaultOfReading reading f (R.remaining reader.old)) }
{
    let mut read = reading;
    match take_whole(alloc, reader, &mut read) {
        Ok(()) => Ok(read),
        Err(fault) => {
            drop(read);
            Err(fault)
        }
    }
}

/// Takes all lines of a text of fsck, and ends it.
fn take_whole<R: BufRead>(alloc: Global, reader: &mut R, reading: &mut Reading) -> Result<(), Fault>
    ensures text { OnOk result (IfSome (R.remaining reader.old)
        (λ text. reading_of reading.old text ≡ Ok reading.new)) }
    ensures refused { IfErr result (λ f. IsFaultOfReading reading.old f (R.remaining reader.old)) }
{
    let number = take_lines(alloc, reader, reading)?;
    match reading.end(alloc) {
        Ok(()) => Ok(()),
        Err(LineFault::Memory) => Err(Fault::Memory),
        Err(LineFault::Refused(why)) => Err(Fault::Refused(Unread { line: number, why })),
    }
}

impl TakesLines for NodeList {
    ghost use Rattle.fsck_import.specs.TextReading.{after_node_line};

    ghost after = { after_node_line };

    fn take_line(&mut self, alloc: Global, line: &str) -> Result<(), LineFault> {
        match NodeList::take_line(self, alloc, line) {
            Ok(()) => Ok(()),
            Err(fault) => Err(node_fault(alloc, line, fault)),
        }
    }
}

/// The refusal of a line of the report, with the word that cannot be parsed.
fn node_fault(alloc: Global, line: &str, fault: NodeFault) -> LineFault
    ensures { IsNodeFault result line.now fault.entry }
{
    match fault {
        NodeFault::Memory => LineFault::Memory,
        NodeFault::Refused(NodeRefusal::Why(why)) => LineFault::Refused(Cause::Node(why)),
        NodeFault::Refused(NodeRefusal::Wrong(wrong)) => match Quoted::new(alloc, line, &wrong) {
            Ok(quoted) => LineFault::Refused(Cause::Word(quoted)),
            Err(_) => LineFault::Memory,
        },
    }
}

/// Reads a whole report on DataNodes.
pub fn read_nodes<R: BufRead>(alloc: Global, reader: &mut R) -> Result<Cluster, Fault>
    ensures text { IfOk result (λ c. IfSome (R.remaining reader.old) (λ text. nodes_of text ≡ Ok c)) }
    ensures fresh { IfOk result (λ c. IfSome (R.remaining reader.old) (λ text. IsFresh c)) }
    ensures refused { IfErr result (λ f. IsFaultOfNodes f (R.remaining reader.old)) }
{
    let mut list = NodeList::new(alloc);
    match take_lines(alloc, reader, &mut list) {
        Ok(number) => end_nodes(alloc, list, number),
        Err(fault) => {
            drop(list);
            Err(fault)
        }
    }
}

/// The nodes at the end of the report. A refusal gets `number`, that of the line after the last.
fn end_nodes(alloc: Global, list: NodeList, number: u64) -> Result<Cluster, Fault>
    ensures ok { IfOk result (λ c. ended_nodes (list, number) ≡ Ok c) }
    ensures refused { IfErr result (λ f. IsReadFault f (ended_nodes (list, number))) }
{
    match list.end(alloc) {
        Ok(cluster) => Ok(cluster),
        Err(fault) => Err(match node_fault(alloc, "", fault) {
            LineFault::Memory => Fault::Memory,
            LineFault::Refused(why) => Fault::Refused(Unread { line: number, why }),
        }),
    }
}
