// A loaded cluster.
ghost use Rattle.std.specs.Prelude.{◌≡◌, Some, true, IfOk, IfSome, OnOk};
ghost use Rattle.bm_base.specs.Words.{Appends};
ghost use Rattle.std.specs.Fmt.{option_append};
ghost use Rattle.bm_lines.specs.Lines.{lines_of};
ghost use Rattle.cluster_names.specs.FileTable.{no_blocks};
ghost use Rattle.cluster_report.specs.Sessions.{IsInStep, new_state};
ghost use Rattle.cluster_report.specs.LineNotes.{IsAllAccepted, notes_text};
ghost use Rattle.fsck_import.specs.CallsFor.{calls_for};
ghost use Rattle.cluster_input.specs.ClusterNames.{names_of, no_names};
ghost use Rattle.cluster_input.specs.Kinds.{are_lines, has_word};
ghost use Rattle.cluster_input.specs.Inputs.{IsAfter, IsRead, AreTaken, accepts, accepts_as, notes_as, notes_on};
ghost use Rattle.cluster_input.specs.MadeCalls.{Makes};

use crate::calls::make_calls;
use crate::fault::Fault;
use crate::kind::{are_lines, read_head};
use crate::names::names_of;
use bm_base::{Config, HashSecret};
use cluster_names::{Files, Names};
use cluster_report::line_reader::read_lines;
use cluster_report::session::Session;
use fsck_import::import::{Notes, notes_of};
use fsck_import::text_reader::{Reading, read_cluster};
use std::alloc::Global;
use std::io::{BufRead, Read, Write};
use std::sync::Wait;
use std::thread::Threads;

/// A loaded cluster: the manager with its book, and the names, if the text has them.
#[derive(Drop)]
pub struct Loaded {
    pub session: Session,
    pub names: Names,
    /// The file of each block.
    pub files: Files,
    /// Facts of a text of fsck that the user should know.
    pub notes: Option<Notes>,
}

impl Loaded {
    /// The cluster before the first text. The tables of its session hash by this secret.
    pub fn new(alloc: Global, config: &Config, secret: HashSecret) -> Result<Loaded, Fault>
        ensures state { IfOk result (λ it. it.session.manager ≡ new_state config.now) }
        ensures in_step { IfOk result (λ it. IsInStep it.session) }
        ensures names { IfOk result (λ it. it.names ≡ no_names) }
        ensures files { IfOk result (λ it. it.files ≡ no_blocks) }
    {
        let Ok(session) = Session::new(alloc, config, secret) else {
            return Err(Fault::Memory);
        };
        Ok(Loaded {
            session,
            names: Names::new(alloc),
            files: Files::new(alloc),
            notes: None,
        })
    }

    /// Reads a text of either kind and makes its calls. Returns whether all were accepted. A
    /// refused line gets a note with its number; a refused call of a text of fsck is a fault.
    /// `start` is the state before the first line of fsck, and `remaining` is the free bytes of a
    /// storage if those of its node are not known.
    pub fn take_text<R: BufRead, N: Write, H: Threads + Wait + Sync>(
        &mut self,
        rt: &H,
        start: Reading,
        remaining: u64,
        reader: &mut R,
        notes: &mut N,
    ) -> Result<bool, Fault>
        requires { IsInStep self.old.session }
        ensures state { OnOk result (IfSome (R.remaining reader.old) (λ text.
            IsAfter (are_lines text) start remaining text self.old self.new)) }
        ensures accepted { IfOk result (λ all. IfSome (R.remaining reader.old) (λ text.
            all ≡ accepts self.old.session.manager text)) }
        ensures notes { OnOk result (IfSome (R.remaining reader.old) (λ text.
            Appends (N.contents notes.old) (N.contents notes.new)
            (notes_on self.old.session.manager text))) }
        // A text with nothing but blanks is refused.
        ensures filled { OnOk result (IfSome (R.remaining reader.old) (λ text. has_word text ≡ true)) }
        ensures in_step { OnOk result (IsInStep self.new.session) }
    {
        let mut head = Vec::new(self.session.alloc);
        match read_head(reader, &mut head) {
            Ok(()) => self.take_behind(rt, start, remaining, head.as_slice(), reader, notes),
            Err(fault) => {
                drop(start);
                Err(fault)
            }
        }
    }

    /// Reads the rest of a text, whose head was read.
    fn take_behind<R: BufRead, N: Write, H: Threads + Wait + Sync>(
        &mut self,
        rt: &H,
        start: Reading,
        remaining: u64,
        head: &[u8],
        reader: &mut R,
        notes: &mut N,
    ) -> Result<bool, Fault>
        requires { IsInStep self.old.session }
        ensures state { OnOk result (IfSome (option_append (Some head.now) (R.remaining reader.old))
            (λ text. IsAfter (are_lines head.now) start remaining text self.old self.new)) }
        ensures accepted { IfOk result (λ all.
            IfSome (option_append (Some head.now) (R.remaining reader.old)) (λ text.
            all ≡ accepts_as (are_lines head.now) self.old.session.manager text)) }
        ensures notes { OnOk result
            (IfSome (option_append (Some head.now) (R.remaining reader.old)) (λ text.
            Appends (N.contents notes.old) (N.contents notes.new)
            (notes_as (are_lines head.now) self.old.session.manager text))) }
        ensures in_step { OnOk result (IsInStep self.new.session) }
    {
        let holds_lines = are_lines(head);
        let mut whole = head.chain(reader);
        self.take_kind(rt, holds_lines, start, remaining, &mut whole, notes)
    }

    /// Reads a text of a known kind.
    fn take_kind<R: BufRead, N: Write, H: Threads + Wait + Sync>(
        &mut self,
        rt: &H,
        holds_lines: bool,
        start: Reading,
        remaining: u64,
        reader: &mut R,
        notes: &mut N,
    ) -> Result<bool, Fault>
        requires { IsInStep self.old.session }
        ensures state { OnOk result (IfSome (R.remaining reader.old) (λ text.
            IsAfter holds_lines start remaining text self.old self.new)) }
        ensures accepted { IfOk result (λ all. IfSome (R.remaining reader.old) (λ text.
            all ≡ accepts_as holds_lines self.old.session.manager text)) }
        ensures notes { OnOk result (IfSome (R.remaining reader.old) (λ text.
            Appends (N.contents notes.old) (N.contents notes.new)
            (notes_as holds_lines self.old.session.manager text))) }
        ensures in_step { OnOk result (IsInStep self.new.session) }
    {
        if holds_lines {
            drop(start);
            return self.take_lines(rt, reader, notes);
        }
        self.take_fsck(rt, start, remaining, reader)?;
        Ok(true)
    }

    /// Reads lines of the tool from a text that is not blank.
    pub fn take_more<R: BufRead, N: Write, H: Threads + Wait + Sync>(
        &mut self,
        rt: &H,
        reader: &mut R,
        notes: &mut N,
    ) -> Result<bool, Fault>
        requires { IsInStep self.old.session }
        ensures state { OnOk result (IfSome (R.remaining reader.old) (λ text.
            AreTaken text self.old self.new)) }
        ensures accepted { IfOk result (λ all.
            IsAllAccepted all self.old.session.manager (R.remaining reader.old)) }
        ensures notes { OnOk result (IfSome (R.remaining reader.old) (λ text.
            Appends (N.contents notes.old) (N.contents notes.new)
            (notes_text 1 self.old.session.manager (lines_of text)))) }
        ensures filled { OnOk result (IfSome (R.remaining reader.old) (λ text. has_word text ≡ true)) }
        ensures in_step { OnOk result (IsInStep self.new.session) }
    {
        let mut head = Vec::new(self.session.alloc);
        read_head(reader, &mut head)?;
        let mut whole = head.as_slice().chain(reader);
        self.take_lines(rt, &mut whole, notes)
    }

    /// Reads lines of the tool.
    fn take_lines<R: BufRead, N: Write, H: Threads + Wait + Sync>(
        &mut self,
        rt: &H,
        reader: &mut R,
        notes: &mut N,
    ) -> Result<bool, Fault>
        requires { IsInStep self.old.session }
        ensures state { OnOk result (IfSome (R.remaining reader.old) (λ text.
            AreTaken text self.old self.new)) }
        ensures accepted { IfOk result (λ all.
            IsAllAccepted all self.old.session.manager (R.remaining reader.old)) }
        ensures notes { OnOk result (IfSome (R.remaining reader.old) (λ text.
            Appends (N.contents notes.old) (N.contents notes.new)
            (notes_text 1 self.old.session.manager (lines_of text)))) }
        ensures in_step { OnOk result (IsInStep self.new.session) }
    {
        let alloc = self.session.alloc;
        match read_lines(rt, alloc, &mut self.session, reader, notes) {
            Ok(all_accepted) => Ok(all_accepted),
            Err(fault) => Err(Fault::from(fault)),
        }
    }

    /// Reads a text of fsck. The names of its cluster replace the earlier ones.
    fn take_fsck<R: BufRead, H: Threads + Wait + Sync>(
        &mut self,
        rt: &H,
        start: Reading,
        remaining: u64,
        reader: &mut R,
    ) -> Result<(), Fault>
        requires { IsInStep self.old.session }
        ensures state { OnOk result (IfSome (R.remaining reader.old) (λ text.
            IsRead start remaining text self.old self.new)) }
        ensures in_step { OnOk result (IsInStep self.new.session) }
    {
        let mut read = read_cluster(self.session.alloc, reader, start)?;
        let taken = self.take_reading(rt, &mut read, remaining);
        drop(read);
        taken
    }

    /// Takes what was read of a text: its calls, its names and its files.
    fn take_reading<H: Threads + Wait + Sync>(
        &mut self,
        rt: &H,
        read: &mut Reading,
        remaining: u64,
    ) -> Result<(), Fault>
        requires { IsInStep self.old.session }
        ensures made { OnOk result (Makes (calls_for read.old.cluster remaining)
            self.old.session.manager self.new.session.manager) }
        ensures in_step { OnOk result (IsInStep self.new.session) }
        ensures names { OnOk result (self.new.names ≡ names_of read.old.cluster) }
        ensures files { OnOk result (self.new.files ≡ read.old.listing.files) }
    {
        make_calls(rt, &mut self.session, &read.cluster, remaining)?;
        self.names = names_of(self.session.alloc, &read.cluster)?;
        self.notes = Some(notes_of(read));
        read.listing.swap_files(&mut self.files);
        Ok(())
    }
}
