// One import, from a reader to a writer.
ghost use Rattle.std.specs.Prelude.{IfSome, IfErr, OnOk};
ghost use Rattle.bm_base.specs.Words.{Appends};
ghost use Rattle.fsck_import.specs.NameTable.{table_of};
ghost use Rattle.fsck_import.specs.FileTables.{files_text};
ghost use Rattle.fsck_import.specs.CallsFor.{calls_for};
ghost use Rattle.fsck_import.specs.WrittenCalls.{WritesCalls, IsOutputFault};
ghost use Rattle.fsck_import.specs.Imports.{WritesText, WritesNames, WritesFiles, IsFaultOfRun, WritesNoLine, WritesNothing};

use crate::destination::Destination;
use crate::fault::Fault;
use crate::file_table::files_text;
use crate::line_writer::write_flushed;
use crate::listed_files::Listing;
use crate::name_table::table_of;
use crate::text_reader::{Reading, read_cluster};
use bm_base::MAX_ENTRIES;
use fsck_cluster::Cluster;
use fsck_files::LeftOut;
use std::alloc::Global;
use std::io::{BufRead, Write};

/// Facts of an import that the user should know.
#[derive(Clone, Copy, Drop)]
pub struct Notes {
    pub left_out: LeftOut,
    /// The number of blocks with more unmarked places than live replicas.
    pub unclear_blocks: u64,
    /// The number of replicas on nodes in maintenance that were taken as live.
    pub maintained: u64,
    /// The number of files that are being written and are not in the text.
    pub unlisted: u64,
    /// Whether the text is about the path `/`.
    pub is_of_all: bool,
    /// The number of lines written.
    pub lines: u64,
}

/// Reads a whole text of fsck; then writes the table of names, the table of files and the lines for
/// the cluster. `remaining` is the free bytes of a storage if those of its node are not known.
/// Nothing is written before the whole text was read, and no line before both tables.
#[tactic(auto, using(crate::proofs::ImportLemmas::reading_refuses, crate::proofs::ImportLemmas::output_refuses, crate::proofs::ImportLemmas::output_writes, crate::proofs::ImportLemmas::unwritten, crate::proofs::ImportLemmas::whole_text, crate::proofs::ImportLemmas::whole_names, crate::proofs::ImportLemmas::whole_files))]
pub fn import<R: BufRead, W: Write, N: Destination, F: Destination>(
    alloc: Global,
    start: Reading,
    remaining: u64,
    reader: &mut R,
    writer: &mut W,
    names: &mut N,
    files: &mut F,
) -> Result<Notes, Fault>
    ensures writes { OnOk result (IfSome (R.remaining reader.old) (λ text.
        WritesText text start remaining (W.contents writer.old) (W.contents writer.new))) }
    ensures named { OnOk result (IfSome (R.remaining reader.old) (λ text.
        WritesNames text start (N.contents names.old) (N.contents names.new))) }
    ensures filed { OnOk result (IfSome (R.remaining reader.old) (λ text.
        WritesFiles text start (F.contents files.old) (F.contents files.new))) }
    ensures refused { IfErr result (λ f. IsFaultOfRun start f (R.remaining reader.old)) }
    // After a refused line or a failed read, the writer and the destinations of the tables are
    // unchanged. If a table cannot be written, the writer is unchanged.
    ensures nothing_written { IfErr result (λ f. WritesNoLine f writer.old writer.new) }
    ensures nothing_named { IfErr result (λ f. WritesNothing f names.old names.new) }
    ensures nothing_filed { IfErr result (λ f. WritesNothing f files.old files.new) }
{
    let read = read_cluster(alloc, reader, start)?;
    let written = write_all(alloc, &read, remaining, writer, names, files);
    let notes = notes_of(&read);
    drop(read);
    match written {
        Ok(()) => Ok(notes),
        Err(fault) => Err(fault),
    }
}

/// Writes the tables, and then the lines.
#[tactic(auto, using(crate::proofs::ImportLemmas::write_output, crate::proofs::ImportLemmas::unwritten, crate::proofs::ImportLemmas::write_lines))]
fn write_all<W: Write, N: Destination, F: Destination>(
    alloc: Global,
    read: &Reading,
    remaining: u64,
    writer: &mut W,
    names: &mut N,
    files: &mut F,
) -> Result<(), Fault>
    ensures writes { OnOk result (WritesCalls (calls_for read.now.cluster remaining)
        (W.contents writer.old) (W.contents writer.new)) }
    ensures named { OnOk result
        (Appends (N.contents names.old) (N.contents names.new) (table_of read.now.cluster)) }
    ensures filed { OnOk result
        (Appends (F.contents files.old) (F.contents files.new) (files_text read.now.listing.files)) }
    ensures faults { IfErr result IsOutputFault }
    ensures no_line { IfErr result (λ f. WritesNoLine f writer.old writer.new) }
{
    put_names(alloc, &read.cluster, names)?;
    put_files(alloc, &read.listing, files)?;
    write_flushed(alloc, writer, &read.cluster, remaining)
}

/// Writes the table of a cluster's names.
#[tactic(auto, using(crate::proofs::ImportLemmas::table_output))]
fn put_names<N: Destination>(alloc: Global, cluster: &Cluster, names: &mut N) -> Result<(), Fault>
    ensures held { OnOk result
        (Appends (N.contents names.old) (N.contents names.new) (table_of cluster.now)) }
    ensures faults { IfErr result IsOutputFault }
{
    let table = table_of(alloc, cluster)?;
    names.put(table.as_str())
}

/// Writes the table of the files.
#[tactic(auto, using(crate::proofs::ImportLemmas::table_output))]
fn put_files<F: Destination>(alloc: Global, listing: &Listing, files: &mut F) -> Result<(), Fault>
    ensures held { OnOk result
        (Appends (F.contents files.old) (F.contents files.new) (files_text listing.now.files)) }
    ensures faults { IfErr result IsOutputFault }
{
    let table = files_text(alloc, listing.files())?;
    files.put(table.as_str())
}

pub fn notes_of(read: &Reading) -> Notes {
    Notes {
        left_out: read.files.left_out,
        unclear_blocks: read.files.unclear_blocks,
        maintained: read.files.maintained,
        unlisted: read.files.unlisted,
        is_of_all: read.files.is_of_all,
        lines: count_lines(&read.cluster),
    }
}

/// The number of lines for a cluster.
fn count_lines(cluster: &Cluster) -> u64 {
    let nodes = cluster.node_rows.len() as u64;
    let mut lines = nodes
        .saturating_add(nodes)
        .saturating_add(cluster.blocks.len() as u64)
        .saturating_add(cluster.bad.len() as u64)
        .saturating_add(cluster.draining.len() as u64);
    for row in cluster.rows.as_slice() {
        let received = row.held.len().saturating_sub(MAX_ENTRIES);
        lines = lines.saturating_add(1).saturating_add(received as u64);
    }
    lines
}
