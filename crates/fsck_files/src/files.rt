// The files of a text, line by line.
ghost use Rattle.std.specs.Prelude.{◌≡◌, ◌<◌, Ok, Err, Some, None, IfOk, OnOk, IfErr};
ghost use Rattle.fsck_files.specs.Files.{no_files, is_open, unended, is_next, is_whole, wanted, after_first, left_out, after_heading, after_corrupt, after_target, after_status, after_sum, after_unlisted, after_last, after_placed, after_indexed, after_passed, after_block, after_over, by_live, by_count, by_places, emitted, after_line, refused, IsCause};

use crate::counts::{Counts, Summed};
use crate::numbers::Numbers;
use crate::refusal::{Mismatch, Refusal, Why};
use crate::replicas::{Block, are_unmarked, count_in_maintenance, count_maybe_live};
use crate::skips::{Kind, LeftOut, Skips, Unclear, add_saturating, kind_of, over_replicated};
use bm_base::Items;
use fsck_text::{
    BlockLine, Count, Fault, Heading, Layout, Line, ListedReplica, Wrong, corrupt_block,
    is_being_written, is_missing, parse_block, parse_line, parse_list,
};
use std::alloc::{AllocError, Global};

/// The section of the text in which the next line is.
#[derive(Clone, Copy, Debug, PartialEq, Drop)]
pub enum Section {
    /// Before the first line of fsck, and before the first file.
    Before,
    /// After the first line of fsck, and before the first file.
    Begun,
    Files,
    Summary,
    /// After the last line of fsck.
    Behind,
}

/// The file that is being read.
#[derive(Clone, Copy, Drop)]
pub struct File {
    /// The number of wanted replicas of its blocks, if a line had it.
    pub target: Option<u32>,
    /// The number of its blocks by its heading.
    pub announced: u32,
    /// The number of its blocks that were read.
    pub read: u32,
    /// The number of these that fsck reports as corrupt; those of a file that is left out are not
    /// counted.
    pub corrupt_read: u64,
    pub is_coded: bool,
    pub is_left_out: bool,
}

impl File {
    ghost use Rattle.std.specs.Prelude.{◌≡◌, ◌<◌};
    ghost use Rattle.fsck_files.specs.Files.{with_one_read};

    /// The file with one more block read, which fsck reports as corrupt or not.
    fn with_one_read(self, is_corrupt: bool) -> File
        requires { self.read < self.announced }
        ensures { result ≡ with_one_read self is_corrupt }
    {
        let corrupt_read = if is_corrupt {
            add_saturating(self.corrupt_read, 1)
        } else {
            self.corrupt_read
        };
        File {
            read: self.read + 1,
            corrupt_read,
            ..self
        }
    }
}

/// The state of the reader: what was read so far.
#[derive(Drop)]
pub struct Files {
    pub skips: Skips,
    pub unclear: Unclear,
    pub section: Section,
    pub file: File,
    /// The blocks that fsck reports as corrupt under the heading of the file.
    pub corrupt: Numbers,
    pub counts: Counts,
    pub summed: Summed,
    /// Whether the first line of the summary reports all files as healthy.
    pub is_healthy: bool,
    /// Whether the last line was read, and is about the path `/`.
    pub is_of_all: bool,
    /// The number of open files that are not in the text, from the summary.
    pub unlisted: u64,
    pub left_out: LeftOut,
    /// The number of blocks with more unmarked places than live replicas.
    pub unclear_blocks: u64,
    /// The number of replicas on nodes in maintenance.
    pub maintained: u64,
}

/// Why a line is not taken.
#[derive(Drop)]
pub enum LineFault<'a> {
    Memory,
    Refused(Refusal<'a>),
}

impl<'a> From<AllocError> for LineFault<'a> {
    ghost use Rattle.std.specs.Prelude.{◌≡◌};
    ghost use Rattle.fsck_files.specs.declared.files.LineFault.TheVariants.{Memory};

    ghost from_gives = { λ _ e. e ≡ Memory };

    fn from(_error: AllocError) -> Self {
        LineFault::Memory
    }
}

impl<'a> From<Why> for LineFault<'a> {
    ghost use Rattle.std.specs.Prelude.{◌≡◌};
    ghost use Rattle.fsck_files.specs.declared.files.LineFault.TheVariants as fault;
    ghost use Rattle.fsck_files.specs.declared.refusal.Refusal.TheVariants as refusal;

    ghost from_gives = { λ why e. e ≡ fault.Refused (refusal.Why why) };

    fn from(why: Why) -> Self {
        LineFault::Refused(Refusal::Why(why))
    }
}

impl<'a> From<Wrong<'a>> for LineFault<'a> {
    ghost use Rattle.std.specs.Prelude.{◌≡◌};
    ghost use Rattle.fsck_files.specs.declared.files.LineFault.TheVariants as fault;
    ghost use Rattle.fsck_files.specs.declared.refusal.Refusal.TheVariants as refusal;

    ghost from_gives = { λ w e. e ≡ fault.Refused (refusal.Wrong w) };

    fn from(wrong: Wrong<'a>) -> Self {
        LineFault::Refused(Refusal::Wrong(wrong))
    }
}

impl<'a> From<Fault<'a>> for LineFault<'a> {
    ghost use Rattle.std.specs.Prelude.{◌≡◌};
    ghost use Rattle.fsck_files.specs.Files.{line_fault};

    ghost from_gives = { λ f e. e ≡ line_fault f };

    fn from(fault: Fault<'a>) -> Self {
        match fault {
            Fault::Memory => LineFault::Memory,
            Fault::Wrong(wrong) => LineFault::Refused(Refusal::Wrong(wrong)),
        }
    }
}

impl Files {
    /// The state before the first line. Takes no memory.
    pub fn new(alloc: Global, skips: Skips, unclear: Unclear) -> Files
        ensures { result ≡ no_files skips unclear }
    {
        Files {
            skips,
            unclear,
            section: Section::Before,
            file: File {
                target: None,
                announced: 0,
                read: 0,
                corrupt_read: 0,
                is_coded: false,
                is_left_out: false,
            },
            corrupt: Numbers::new(alloc),
            counts: Counts::new(),
            summed: Summed::new(),
            is_healthy: false,
            is_of_all: false,
            unlisted: 0,
            left_out: LeftOut {
                erasure_coded: 0,
                open_files: 0,
                snapshots: 0,
                over_replicated: 0,
            },
            unclear_blocks: 0,
            maintained: 0,
        }
    }

    /// Takes one more line, and returns the block that it adds, if any.
    pub fn take_line<'a>(
        &mut self,
        alloc: Global,
        line: &'a str,
    ) -> Result<Option<Block<'a>>, LineFault<'a>>
        ensures ok { IfOk result (λ block. after_line self.old line.entry.now ≡ Ok (self.new, block)) }
        ensures refused { IfErr result (λ f. IsCause f (after_line self.old line.entry.now)) }
    {
        match parse_line(line)? {
            Line::Block(index, text) => return self.take_placed(alloc, index, text.text()),
            Line::First => self.take_first()?,
            Line::Heading(heading) => self.take_heading(heading)?,
            Line::Corrupt(text) => self.take_corrupt(text.text())?,
            Line::Target(target) => self.take_target(target)?,
            Line::Status(is_healthy) => self.take_status(is_healthy)?,
            Line::Sum(count, sum) => self.take_sum(count, sum)?,
            Line::Unlisted(files) => self.take_unlisted(files),
            Line::Last(is_healthy, is_of_all) => self.take_last(is_healthy, is_of_all)?,
            Line::Other => {}
        }
        Ok(None)
    }

    fn take_first(&mut self) -> Result<(), Why>
        ensures ok { OnOk result (after_first self.old self.old.section ≡ Ok self.new) }
        ensures refused { IfErr result (λ why. after_first self.old self.old.section ≡ Err why) }
    {
        if !matches!(self.section, Section::Before) {
            return Err(Why::OutOfPlace);
        }
        self.section = Section::Begun;
        Ok(())
    }

    /// Leaves the file out, if its kind is left out.
    fn leave_out(&mut self, kind: Kind) -> Result<(), Why>
        ensures ok { OnOk result (left_out self.old kind ≡ Ok self.new) }
        ensures refused { IfErr result (λ why. left_out self.old kind ≡ Err why) }
    {
        if !self.skips.has(kind) {
            return Err(Why::Unsupported(kind));
        }
        self.file.is_left_out = true;
        self.left_out = self.left_out.with(kind);
        Ok(())
    }

    /// Why no heading and no summary may come here, if so.
    fn why_incomplete(&self) -> Option<Why>
        ensures { result ≡ unended self.now }
    {
        if matches!(self.section, Section::Summary | Section::Behind) {
            Some(Why::OutOfPlace)
        } else if self.file.read < self.file.announced {
            Some(Why::BlockLeftOut)
        } else if !self.file.is_left_out && self.file.corrupt_read < self.corrupt.len() as u64 {
            Some(Why::CorruptElsewhere)
        } else {
            None
        }
    }

    fn take_heading(&mut self, heading: Heading) -> Result<(), Why>
        ensures ok { OnOk result (after_heading self.old heading ≡ Ok self.new) }
        ensures refused { IfErr result (λ why. after_heading self.old heading ≡ Err why) }
    {
        if let Some(why) = self.why_incomplete() {
            return Err(why);
        }
        let is_coded = matches!(heading.layout, Layout::ErasureCoded);
        self.section = Section::Files;
        self.file = File {
            target: heading.target,
            announced: heading.blocks,
            read: 0,
            corrupt_read: 0,
            is_coded,
            is_left_out: false,
        };
        self.corrupt.clear();
        self.counts = self.counts.with_blocks(is_coded, heading.blocks);
        match kind_of(heading) {
            Some(kind) => self.leave_out(kind),
            None => Ok(()),
        }
    }

    /// Whether a line about the file may come here: after its heading, and before its blocks.
    fn is_open(&self) -> bool
        ensures { result ≡ is_open self.now }
    {
        matches!(self.section, Section::Files) && self.file.read == 0
    }

    fn take_corrupt<'a>(&mut self, text: &'a str) -> Result<(), LineFault<'a>>
        ensures ok { OnOk result (after_corrupt self.old text.entry.now ≡ Ok self.new) }
        ensures refused { IfErr result (λ f. IsCause f (after_corrupt self.old text.entry.now)) }
    {
        if !self.is_open() {
            return Err(LineFault::from(Why::OutOfPlace));
        }
        if !self.file.is_left_out {
            let id = corrupt_block(text)?;
            self.corrupt.add(id.0)?;
        }
        self.counts = self.counts.with_corrupt(self.file.is_coded);
        Ok(())
    }

    fn take_target(&mut self, target: u32) -> Result<(), Why>
        ensures ok { OnOk result (after_target self.old target ≡ Ok self.new) }
        ensures refused { IfErr result (λ why. after_target self.old target ≡ Err why) }
    {
        if !self.is_open() {
            return Err(Why::OutOfPlace);
        }
        if self.file.is_left_out {
            return Ok(());
        }
        if self.file.target.is_some_and(|before| before != target) {
            return Err(Why::TwoTargets);
        }
        self.file.target = Some(target);
        if over_replicated(target) {
            self.leave_out(Kind::OverReplicated)
        } else {
            Ok(())
        }
    }

    fn take_status(&mut self, is_healthy: bool) -> Result<(), Why>
        ensures ok { OnOk result (after_status self.old is_healthy ≡ Ok self.new) }
        ensures refused { IfErr result (λ why. after_status self.old is_healthy ≡ Err why) }
    {
        if let Some(why) = self.why_incomplete() {
            return Err(why);
        }
        self.section = Section::Summary;
        self.is_healthy = is_healthy;
        Ok(())
    }

    /// Compares a number of the summary with what was read.
    fn take_sum(&mut self, count: Count, sum: u64) -> Result<(), Why>
        ensures ok { OnOk result (after_sum self.old count sum ≡ Ok self.new) }
        ensures refused { IfErr result (λ why. after_sum self.old count sum ≡ Err why) }
    {
        if !matches!(self.section, Section::Summary) {
            return Ok(());
        }
        let read = self.counts.number_of(count);
        if sum != read {
            return Err(Why::Mismatch(Mismatch { count, sum, read }));
        }
        self.summed = self.summed.with(count);
        Ok(())
    }

    fn take_unlisted(&mut self, files: u64)
        ensures { self.new ≡ after_unlisted self.old files }
    {
        if matches!(self.section, Section::Summary) {
            self.unlisted = add_saturating(self.unlisted, files);
        }
    }

    fn take_last(&mut self, is_healthy: bool, is_of_all: bool) -> Result<(), Why>
        ensures ok { OnOk result (after_last self.old is_healthy is_of_all ≡ Ok self.new) }
        ensures refused { IfErr result (λ why. after_last self.old is_healthy is_of_all ≡ Err why) }
    {
        if !matches!(self.section, Section::Summary) {
            return Err(Why::OutOfPlace);
        }
        if !self.summed.blocks {
            return Err(Why::NoSum);
        }
        if !self.summed.corrupt {
            return Err(Why::NoCorruptSum);
        }
        if self.counts.is_healthy() != is_healthy || self.is_healthy != is_healthy {
            return Err(Why::OtherHealth);
        }
        if !is_of_all && !self.counts.has_blocks() {
            return Err(Why::NoBlock);
        }
        self.section = Section::Behind;
        self.is_of_all = is_of_all;
        Ok(())
    }

    /// Takes a line of a block with this index.
    fn take_placed<'a>(
        &mut self,
        alloc: Global,
        index: u64,
        text: &'a str,
    ) -> Result<Option<Block<'a>>, LineFault<'a>>
        ensures ok { IfOk result (λ block. after_placed self.old.section self.old index text.entry.now ≡ Ok (self.new, block)) }
        ensures refused { IfErr result (λ f. IsCause f (after_placed self.old.section self.old index text.entry.now)) }
    {
        match self.section {
            Section::Before | Section::Begun => Err(LineFault::from(Why::NoHeading)),
            Section::Files => self.take_indexed(alloc, index, text),
            Section::Summary | Section::Behind => Err(LineFault::from(Why::OutOfPlace)),
        }
    }

    fn take_indexed<'a>(
        &mut self,
        alloc: Global,
        index: u64,
        text: &'a str,
    ) -> Result<Option<Block<'a>>, LineFault<'a>>
        ensures ok { IfOk result (λ block. after_indexed self.old index text.entry.now ≡ Ok (self.new, block)) }
        ensures refused { IfErr result (λ f. IsCause f (after_indexed self.old index text.entry.now)) }
    {
        if self.file.is_left_out {
            self.take_passed(index, text)?;
            return Ok(None);
        }
        if !self.is_next(index) {
            return Err(LineFault::from(Why::NotNext));
        }
        let block = parse_block(text)?;
        self.take_block(alloc, block)
    }

    /// Skips a block of a file that is left out. After the blocks that the heading counts, a block
    /// may come that is being written and still empty.
    fn take_passed(&mut self, index: u64, text: &str) -> Result<(), Why>
        ensures ok { OnOk result (after_passed self.old index text.now ≡ Ok (self.new, None)) }
        ensures refused { IfErr result (λ why. after_passed self.old index text.now ≡ refused why) }
    {
        if self.is_next(index) {
            self.file = self.file.with_one_read(false);
            if is_missing(text) {
                self.counts = self.counts.with_missing(self.file.is_coded);
            }
            return Ok(());
        }
        if index == u64::from(self.file.read) && is_being_written(text) {
            Ok(())
        } else {
            Err(Why::NotNext)
        }
    }

    /// Whether a block of this index is the next one of the file.
    fn is_next(&self, index: u64) -> bool
        ensures { result ≡ is_next self.now.file index }
    {
        index == u64::from(self.file.read) && self.file.read < self.file.announced
    }

    /// Takes the next block of the file.
    fn take_block<'a>(
        &mut self,
        alloc: Global,
        block: BlockLine<'a>,
    ) -> Result<Option<Block<'a>>, LineFault<'a>>
        requires { self.old.file.read < self.old.file.announced }
        ensures ok { IfOk result (λ taken. after_block self.old block.entry ≡ Ok (self.new, taken)) }
        ensures refused { IfErr result (λ f. IsCause f (after_block self.old block.entry)) }
    {
        let repl = wanted_replicas(self.file.target, block.live);
        if repl == 0 {
            return Err(LineFault::from(Why::NoneWanted));
        }
        if over_replicated(repl) {
            return self.take_over_replicated();
        }
        let listed = parse_list(alloc, block.list.text())?;
        let is_corrupt = self.corrupt.has(block.id.0);
        self.file = self.file.with_one_read(is_corrupt);
        self.take_listed(block, repl, listed)
    }

    /// More than 16 replicas of a block are wanted: leaves its file out, if this is its first
    /// block.
    fn take_over_replicated<'a>(&mut self) -> Result<Option<Block<'a>>, LineFault<'a>>
        requires { self.old.file.read < self.old.file.announced }
        ensures ok { IfOk result (λ taken. after_over self.old ≡ Ok (self.new, taken)) }
        ensures refused { IfErr result (λ f. IsCause f (after_over self.old)) }
    {
        if self.file.read != 0 {
            return Err(LineFault::from(Why::Unsupported(Kind::OverReplicated)));
        }
        self.file = self.file.with_one_read(false);
        self.leave_out(Kind::OverReplicated)?;
        Ok(None)
    }

    /// Adds a block with its list of replicas.
    fn take_listed<'a>(
        &mut self,
        block: BlockLine<'a>,
        repl: u32,
        listed: Items<ListedReplica<'a>>,
    ) -> Result<Option<Block<'a>>, LineFault<'a>>
        ensures ok { IfOk result (λ taken. by_live self.old block.entry repl listed.entry block.entry.live ≡ Ok (self.new, taken)) }
        ensures refused { IfErr result (λ f. IsCause f (by_live self.old block.entry repl listed.entry block.entry.live)) }
    {
        let Some(live) = block.live else {
            self.counts = self.counts.with_missing(false);
            return Ok(Some(self.make_block(block, repl, listed)));
        };
        self.take_counted(block, repl, listed, live)
    }

    /// Adds a block with fsck's count of live replicas. If the block is corrupt and the places have
    /// no marks, the count is not compared: Hadoop 2.6 writes the number of the places.
    fn take_counted<'a>(
        &mut self,
        block: BlockLine<'a>,
        repl: u32,
        listed: Items<ListedReplica<'a>>,
        live: u32,
    ) -> Result<Option<Block<'a>>, LineFault<'a>>
        ensures ok { IfOk result (λ taken. by_count self.old block.entry repl listed.entry live ≡ Ok (self.new, taken)) }
        ensures refused { IfErr result (λ f. IsCause f (by_count self.old block.entry repl listed.entry live)) }
    {
        let is_corrupt = self.corrupt.has(block.id.0);
        if are_unmarked(is_corrupt, listed.as_slice()) {
            return Ok(Some(self.make_block(block, repl, listed)));
        }
        let places = count_maybe_live(is_corrupt, listed.as_slice());
        self.take_places(block, repl, listed, places, live)
    }

    /// Adds a block, after it compares the number of places that may be live with the number of
    /// live replicas.
    fn take_places<'a>(
        &mut self,
        block: BlockLine<'a>,
        repl: u32,
        listed: Items<ListedReplica<'a>>,
        places: usize,
        live: u32,
    ) -> Result<Option<Block<'a>>, LineFault<'a>>
        ensures ok { IfOk result (λ taken. by_places self.old block.entry repl listed.entry places live ≡ Ok (self.new, taken)) }
        ensures refused { IfErr result (λ f. IsCause f (by_places self.old block.entry repl listed.entry places live)) }
    {
        if places < live as usize {
            drop(listed);
            return Err(LineFault::from(Why::FewerThanLive { places, live }));
        }
        if places > live as usize {
            match self.unclear {
                Unclear::Refuse => {
                    drop(listed);
                    return Err(LineFault::from(Why::MoreThanLive { places, live }));
                }
                Unclear::Omit => {
                    drop(listed);
                    self.unclear_blocks = add_saturating(self.unclear_blocks, 1);
                    return Ok(None);
                }
                Unclear::Good => self.unclear_blocks = add_saturating(self.unclear_blocks, 1),
            }
        }
        Ok(Some(self.make_block(block, repl, listed)))
    }

    /// Makes the block that is added, and counts its replicas on nodes in maintenance.
    fn make_block<'a>(
        &mut self,
        block: BlockLine<'a>,
        repl: u32,
        listed: Items<ListedReplica<'a>>,
    ) -> Block<'a>
        ensures { emitted self.old block.entry repl listed.entry ≡ Ok (self.new, Some result) }
    {
        let is_corrupt = self.corrupt.has(block.id.0);
        let maintained = count_in_maintenance(is_corrupt, listed.as_slice());
        self.maintained = add_saturating(self.maintained, maintained as u64);
        Block {
            id: block.id,
            stamp: block.stamp,
            wanted: repl,
            is_corrupt,
            replicas: listed,
        }
    }

    /// Whether the last line of fsck was read.
    pub fn is_whole(&self) -> bool
        ensures { result ≡ is_whole self.now.section }
    {
        matches!(self.section, Section::Behind)
    }
}

/// The number of wanted replicas of a block.
fn wanted_replicas(target: Option<u32>, live: Option<u32>) -> u32
    ensures { result ≡ wanted target live }
{
    match target {
        Some(count) => count,
        None => live.unwrap_or(1).max(1),
    }
}
