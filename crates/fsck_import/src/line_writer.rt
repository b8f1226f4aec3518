// Writes the lines for a cluster.
ghost use Rattle.std.specs.Prelude.{◌≡◌, ◌∷◌, [], true, map, take, drop, filter, option_to_list, slice_get, IfOk, OnOk, IfErr, string_bytes, flat_map};
ghost use Rattle.bm_lines.specs.CallText.{has_op, line_text};
ghost use Rattle.bm_lines.specs.Lines.{ended};
ghost use Rattle.bm_base.specs.declared.limits.TheConstants.{MAX_ENTRIES};
ghost use Rattle.fsck_import.specs.CallsFor.{register, free_on, remaining_on, heartbeat, add, entry, received, reports, corrupt, drain, drains, draining, calls_before, calls_after, calls_for};
ghost use Rattle.fsck_import.specs.WrittenCalls.{Written, WritesCalls, IsLineOf, IsWriteFault};

use crate::fault::Fault;
use bm_base::{
    BlockId, Call, Entry, Event, Items, MAX_ENTRIES, NodeId, Rack, Remaining, StorageId,
};
use bm_lines::{MAX_LINE, line_of};
use fsck_cluster::{Cluster, NodeRow, Row, Rows, StoredReplica};
use std::alloc::{AllocError, Global};
use std::io::Write;

/// Writes the line of each call for a cluster, and flushes. `remaining` is the free bytes of a
/// storage if those of its node are not known.
pub fn write_flushed<W: Write>(
    alloc: Global,
    writer: &mut W,
    cluster: &Cluster,
    remaining: u64,
) -> Result<(), Fault>
    ensures writes { OnOk result (WritesCalls (calls_for cluster.now remaining) (W.contents writer.old)
        (W.contents writer.new)) }
    ensures faults { IfErr result IsWriteFault }
{
    write_before(alloc, writer, cluster, remaining)?;
    write_after(alloc, writer, cluster)?;
    match writer.flush() {
        Ok(()) => Ok(()),
        Err(error) => Err(Fault::Write(error)),
    }
}

/// Writes the nodes with their storages, the free bytes, and the blocks.
#[tactic(auto, using(crate::proofs::WriteLemmas::written_more))]
fn write_before<W: Write>(
    alloc: Global,
    writer: &mut W,
    cluster: &Cluster,
    remaining: u64,
) -> Result<(), Fault>
    ensures written { OnOk result (Written (calls_before cluster.now remaining) (W.contents writer.old)
        (W.contents writer.new)) }
    ensures faults { IfErr result IsWriteFault }
{
    write_registers(alloc, writer, cluster)?;
    write_heartbeats(alloc, writer, cluster, remaining)?;
    write_adds(alloc, writer, cluster)
}

/// Writes the replicas, the corrupt ones among them, and the nodes that are decommissioned.
#[tactic(auto, using(crate::proofs::WriteLemmas::written_more))]
fn write_after<W: Write>(alloc: Global, writer: &mut W, cluster: &Cluster) -> Result<(), Fault>
    ensures written { OnOk result (Written (calls_after cluster.now) (W.contents writer.old)
        (W.contents writer.new)) }
    ensures faults { IfErr result IsWriteFault }
{
    write_reports(alloc, writer, cluster)?;
    write_corrupt(alloc, writer, cluster)?;
    write_drains(alloc, writer, cluster)
}

/// Registers each node with its storages.
#[tactic(auto, using(crate::proofs::WriteLemmas::written_more))]
fn write_registers<W: Write>(alloc: Global, writer: &mut W, cluster: &Cluster) -> Result<(), Fault>
    ensures written { OnOk result (Written (map (register cluster.now.rows) cluster.now.node_rows)
        (W.contents writer.old) (W.contents writer.new)) }
    ensures faults { IfErr result IsWriteFault }
{
    for node in cluster.node_rows.as_slice() {
        let call = register(alloc, &cluster.rows, node)?;
        write_call(alloc, writer, &call)?;
    }
    Ok(())
}

/// Makes the call that registers a node, with its storages among these rows. Refused only if out of
/// memory.
pub fn register(alloc: Global, rows: &Rows, node: &NodeRow) -> Result<Call, AllocError>
    ensures { IfOk result (λ call. call ≡ register rows.now node.now) }
{
    Ok(Call::Apply(Event::Register {
        node: NodeId(node.number),
        rack: Rack(node.rack),
        storages: Items::from_slice(alloc, rows.storages_of(node.number))?,
    }))
}

/// Writes the free bytes on the storages of each node.
#[tactic(auto, using(crate::proofs::WriteLemmas::written_more))]
fn write_heartbeats<W: Write>(
    alloc: Global,
    writer: &mut W,
    cluster: &Cluster,
    remaining: u64,
) -> Result<(), Fault>
    ensures written { OnOk result (Written (map (heartbeat cluster.now.rows remaining) cluster.now.node_rows)
        (W.contents writer.old) (W.contents writer.new)) }
    ensures faults { IfErr result IsWriteFault }
{
    for node in cluster.node_rows.as_slice() {
        let call = heartbeat(alloc, &cluster.rows, node, remaining)?;
        write_call(alloc, writer, &call)?;
    }
    Ok(())
}

/// Makes the heartbeat of a node: each storage has `remaining` free bytes, or its share of the
/// node's bytes if the row has them. Refused only if out of memory.
pub fn heartbeat(
    alloc: Global,
    rows: &Rows,
    node: &NodeRow,
    remaining: u64,
) -> Result<Call, AllocError>
    ensures { IfOk result (λ call. call ≡ heartbeat rows.now remaining node.now) }
{
    let storages = rows.storages_of(node.number);
    let bytes = free_on(remaining, node.remaining, storages.len());
    let free = remaining_on(alloc, storages, bytes)?;
    Ok(Call::Apply(Event::Heartbeat {
        node: NodeId(node.number),
        remaining: Items::from_vec(free),
    }))
}

/// The free bytes of each storage of a node: the node's bytes divided evenly, or the option's
/// value.
fn free_on(remaining: u64, of_node: Option<u64>, storages: usize) -> u64
    ensures { result ≡ free_on remaining of_node storages }
{
    match of_node {
        Some(bytes) => bytes / (storages as u64).max(1),
        None => remaining,
    }
}

/// The same number of free bytes for each of these storages.
fn remaining_on(
    alloc: Global,
    storages: &[StorageId],
    remaining: u64,
) -> Result<Vec<Remaining>, AllocError>
    ensures { IfOk result (λ v. v.items ≡ remaining_on remaining storages.now) }
{
    storages
        .iter()
        .map(|storage| Remaining {
            storage: *storage,
            remaining,
        })
        .collect(alloc)
}

/// Adds each block.
fn write_adds<W: Write>(alloc: Global, writer: &mut W, cluster: &Cluster) -> Result<(), Fault>
    ensures written { OnOk result (Written (map add cluster.now.blocks) (W.contents writer.old)
        (W.contents writer.new)) }
    ensures faults { IfErr result IsWriteFault }
{
    for index in 0..cluster.blocks.len() {
        write_add(alloc, writer, cluster, index)?;
    }
    Ok(())
}

/// Adds the block at an index.
#[tactic(auto, using(crate::proofs::WriteLemmas::nothing_written))]
fn write_add<W: Write>(
    alloc: Global,
    writer: &mut W,
    cluster: &Cluster,
    index: usize,
) -> Result<(), Fault>
    ensures written { OnOk result (Written (map add (option_to_list (slice_get cluster.now.blocks index)))
        (W.contents writer.old) (W.contents writer.new)) }
    ensures faults { IfErr result IsWriteFault }
{
    let Some((id, info)) = cluster.blocks.get(index) else {
        return Ok(());
    };
    let call = Call::Apply(Event::AddBlock {
        id,
        stamp: info.stamp,
        repl: info.repl,
    });
    write_call(alloc, writer, &call)
}

/// Reports the replicas on each storage.
fn write_reports<W: Write>(alloc: Global, writer: &mut W, cluster: &Cluster) -> Result<(), Fault>
    ensures written { OnOk result (Written (flat_map reports cluster.now.rows) (W.contents writer.old)
        (W.contents writer.new)) }
    ensures faults { IfErr result IsWriteFault }
{
    for row in cluster.rows.as_slice() {
        write_row(alloc, writer, row)?;
    }
    Ok(())
}

/// Reports the replicas on a storage: a report up to its limit, then each of the others by a
/// notice.
fn write_row<W: Write>(alloc: Global, writer: &mut W, row: &Row) -> Result<(), Fault>
    ensures written { OnOk result (Written (reports row.now) (W.contents writer.old)
        (W.contents writer.new)) }
    ensures faults { IfErr result IsWriteFault }
{
    let (first, rest) = split_at_report_limit(row.held.as_slice());
    let call = Call::Apply(Event::FullReport {
        storage: StorageId(row.number),
        entries: Items::from_vec(entries_of(alloc, first)?),
    });
    write_call(alloc, writer, &call)?;
    drop(call);
    write_received(alloc, writer, StorageId(row.number), rest)
}

/// The replicas that fit into a report, and the others.
pub fn split_at_report_limit(held: &[StoredReplica]) -> (&[StoredReplica], &[StoredReplica])
    ensures first { result.0.now ≡ take MAX_ENTRIES held.now }
    ensures others { result.1.now ≡ drop MAX_ENTRIES held.now }
{
    match held.split_at_checked(MAX_ENTRIES) {
        Some(parts) => parts,
        None => (held, &[]),
    }
}

/// Replicas, as the entries of a report.
pub fn entries_of(alloc: Global, held: &[StoredReplica]) -> Result<Vec<Entry>, AllocError>
    ensures { IfOk result (λ v. v.items ≡ map entry held.now) }
{
    held.iter()
        .map(|one| Entry::one(one.id, one.stamp))
        .collect(alloc)
}

/// Writes a notice for each of these replicas.
#[tactic(auto, using(crate::proofs::WriteLemmas::written_more))]
fn write_received<W: Write>(
    alloc: Global,
    writer: &mut W,
    storage: StorageId,
    held: &[StoredReplica],
) -> Result<(), Fault>
    ensures written { OnOk result (Written (map (received storage) held.now) (W.contents writer.old)
        (W.contents writer.new)) }
    ensures faults { IfErr result IsWriteFault }
{
    for one in held {
        let call = Call::Apply(Event::Received {
            storage,
            id: one.id,
            stamp: one.stamp,
        });
        write_call(alloc, writer, &call)?;
    }
    Ok(())
}

/// Marks each corrupt replica.
#[tactic(auto, using(crate::proofs::WriteLemmas::written_more))]
fn write_corrupt<W: Write>(alloc: Global, writer: &mut W, cluster: &Cluster) -> Result<(), Fault>
    ensures written { OnOk result (Written (map corrupt cluster.now.bad) (W.contents writer.old)
        (W.contents writer.new)) }
    ensures faults { IfErr result IsWriteFault }
{
    for bad in cluster.bad.as_slice() {
        let call = Call::Apply(Event::Corrupt {
            storage: bad.storage,
            id: bad.id,
        });
        write_call(alloc, writer, &call)?;
    }
    Ok(())
}

/// Decommissions each node that drains.
#[tactic(auto, using(crate::proofs::WriteLemmas::kept_more))]
fn write_drains<W: Write>(alloc: Global, writer: &mut W, cluster: &Cluster) -> Result<(), Fault>
    ensures written { OnOk result (Written (map drain (draining cluster.now)) (W.contents writer.old)
        (W.contents writer.new)) }
    ensures faults { IfErr result IsWriteFault }
{
    for node in cluster.node_rows.as_slice() {
        write_drain(alloc, writer, cluster, node)?;
    }
    Ok(())
}

/// Decommissions the node, if it drains.
#[tactic(auto, using(crate::proofs::WriteLemmas::nothing_written))]
fn write_drain<W: Write>(
    alloc: Global,
    writer: &mut W,
    cluster: &Cluster,
    node: &NodeRow,
) -> Result<(), Fault>
    ensures written { OnOk result (Written (map drain (filter (drains cluster.now) (node.now ∷ [])))
        (W.contents writer.old) (W.contents writer.new)) }
    ensures faults { IfErr result IsWriteFault }
{
    if !cluster.draining.has(u64::from(node.number)) {
        return Ok(());
    }
    let call = Call::Apply(Event::Drain {
        node: NodeId(node.number),
    });
    write_call(alloc, writer, &call)
}

/// Writes the line of a call.
#[tactic(auto, using(crate::proofs::WriteLemmas::one_written))]
fn write_call<W: Write>(alloc: Global, writer: &mut W, call: &Call) -> Result<(), Fault>
    requires { has_op call.now ≡ true }
    ensures written { OnOk result (Written (call.now ∷ []) (W.contents writer.old)
        (W.contents writer.new)) }
    ensures faults { IfErr result IsWriteFault }
{
    let line = make_line(alloc, call)?;
    match writer.write_all(line.as_bytes()) {
        Ok(()) => Ok(()),
        Err(error) => Err(Fault::Write(error)),
    }
}

/// Makes the line of a call, with its line end. Refuses a line that is too long for the line tool.
fn make_line(alloc: Global, call: &Call) -> Result<String, Fault>
    requires { has_op call.now ≡ true }
    ensures text { IfOk result (λ s. string_bytes s ≡ ended (line_text call.now)) }
    ensures read { OnOk result (IsLineOf call.now (line_text call.now)) }
    ensures faults { IfErr result IsWriteFault }
{
    let mut line = line_of(alloc, call)?;
    if line.len() > MAX_LINE {
        return Err(Fault::LongReport);
    }
    line.push_str("\n")?;
    Ok(line)
}
