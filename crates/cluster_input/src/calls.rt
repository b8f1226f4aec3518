// Makes the calls for a cluster of fsck, one after another.
ghost use Rattle.std.specs.Prelude.{◌∷◌, [], map, filter, option_to_list, slice_get, OnOk, flat_map};
ghost use Rattle.fsck_import.specs.CallsFor.{register, heartbeat, add, received, reports, corrupt, drain, drains, draining, calls_before, calls_after, calls_for};
ghost use Rattle.cluster_report.specs.Sessions.{IsInStep};
ghost use Rattle.cluster_input.specs.MadeCalls.{Makes};

use crate::fault::Fault;
use bm_base::{Call, Event, Items, NodeId, StorageId};
use cluster_report::session::Session;
use fsck_cluster::{Cluster, NodeRow, Row, StoredReplica};
use fsck_import::line_writer::{entries_of, heartbeat, register, split_at_report_limit};
use std::sync::Wait;
use std::thread::Threads;

/// Makes the calls that build a cluster in a manager. `remaining` is the free bytes of a storage if
/// those of its node are not known.
pub fn make_calls<H: Threads + Wait + Sync>(
    rt: &H,
    session: &mut Session,
    cluster: &Cluster,
    remaining: u64,
) -> Result<(), Fault>
    requires { IsInStep session.old }
    ensures made { OnOk result (Makes (calls_for cluster.now remaining)
        session.old.manager session.new.manager) }
    ensures in_step { OnOk result (IsInStep session.new) }
{
    make_before(rt, session, cluster, remaining)?;
    make_after(rt, session, cluster)
}

/// Adds the nodes with their storages, the free bytes, and the blocks.
fn make_before<H: Threads + Wait + Sync>(
    rt: &H,
    session: &mut Session,
    cluster: &Cluster,
    remaining: u64,
) -> Result<(), Fault>
    requires { IsInStep session.old }
    ensures made { OnOk result (Makes (calls_before cluster.now remaining)
        session.old.manager session.new.manager) }
    ensures in_step { OnOk result (IsInStep session.new) }
{
    make_registers(rt, session, cluster)?;
    make_heartbeats(rt, session, cluster, remaining)?;
    make_adds(rt, session, cluster)
}

/// Adds the replicas, the corrupt ones among them, and the nodes that are decommissioned.
fn make_after<H: Threads + Wait + Sync>(
    rt: &H,
    session: &mut Session,
    cluster: &Cluster,
) -> Result<(), Fault>
    requires { IsInStep session.old }
    ensures made { OnOk result (Makes (calls_after cluster.now)
        session.old.manager session.new.manager) }
    ensures in_step { OnOk result (IsInStep session.new) }
{
    make_reports(rt, session, cluster)?;
    make_corrupt(rt, session, cluster)?;
    make_drains(rt, session, cluster)
}

fn make_registers<H: Threads + Wait + Sync>(
    rt: &H,
    session: &mut Session,
    cluster: &Cluster,
) -> Result<(), Fault>
    requires { IsInStep session.old }
    ensures made { OnOk result (Makes (map (register cluster.now.rows) cluster.now.node_rows)
        session.old.manager session.new.manager) }
    ensures in_step { OnOk result (IsInStep session.new) }
{
    for node in cluster.node_rows.as_slice() {
        let call = register(session.alloc, &cluster.rows, node)?;
        make_call(rt, session, &call)?;
    }
    Ok(())
}

fn make_heartbeats<H: Threads + Wait + Sync>(
    rt: &H,
    session: &mut Session,
    cluster: &Cluster,
    remaining: u64,
) -> Result<(), Fault>
    requires { IsInStep session.old }
    ensures made { OnOk result (Makes
        (map (heartbeat cluster.now.rows remaining) cluster.now.node_rows)
        session.old.manager session.new.manager) }
    ensures in_step { OnOk result (IsInStep session.new) }
{
    for node in cluster.node_rows.as_slice() {
        let call = heartbeat(session.alloc, &cluster.rows, node, remaining)?;
        make_call(rt, session, &call)?;
    }
    Ok(())
}

fn make_adds<H: Threads + Wait + Sync>(
    rt: &H,
    session: &mut Session,
    cluster: &Cluster,
) -> Result<(), Fault>
    requires { IsInStep session.old }
    ensures made { OnOk result (Makes (map add cluster.now.blocks)
        session.old.manager session.new.manager) }
    ensures in_step { OnOk result (IsInStep session.new) }
{
    for index in 0..cluster.blocks.len() {
        make_add(rt, session, cluster, index)?;
    }
    Ok(())
}

/// Adds the block at an index.
#[tactic(auto, using(crate::proofs::MakeLemmas::none_made))]
fn make_add<H: Threads + Wait + Sync>(
    rt: &H,
    session: &mut Session,
    cluster: &Cluster,
    index: usize,
) -> Result<(), Fault>
    requires { IsInStep session.old }
    ensures made { OnOk result (Makes
        (map add (option_to_list (slice_get cluster.now.blocks index)))
        session.old.manager session.new.manager) }
    ensures in_step { OnOk result (IsInStep session.new) }
{
    let Some((id, info)) = cluster.blocks.get(index) else {
        return Ok(());
    };
    let call = Call::Apply(Event::AddBlock {
        id,
        stamp: info.stamp,
        repl: info.repl,
    });
    make_call(rt, session, &call)
}

fn make_reports<H: Threads + Wait + Sync>(
    rt: &H,
    session: &mut Session,
    cluster: &Cluster,
) -> Result<(), Fault>
    requires { IsInStep session.old }
    ensures made { OnOk result (Makes (flat_map reports cluster.now.rows)
        session.old.manager session.new.manager) }
    ensures in_step { OnOk result (IsInStep session.new) }
{
    for row in cluster.rows.as_slice() {
        make_row(rt, session, row)?;
    }
    Ok(())
}

/// Reports the replicas on a storage: a report up to its limit, then each of the others by a
/// notice.
fn make_row<H: Threads + Wait + Sync>(rt: &H, session: &mut Session, row: &Row) -> Result<(), Fault>
    requires { IsInStep session.old }
    ensures made { OnOk result (Makes (reports row.now)
        session.old.manager session.new.manager) }
    ensures in_step { OnOk result (IsInStep session.new) }
{
    let (first, rest) = split_at_report_limit(row.held.as_slice());
    let call = Call::Apply(Event::FullReport {
        storage: StorageId(row.number),
        entries: Items::from_vec(entries_of(session.alloc, first)?),
    });
    make_call(rt, session, &call)?;
    drop(call);
    make_received(rt, session, StorageId(row.number), rest)
}

fn make_received<H: Threads + Wait + Sync>(
    rt: &H,
    session: &mut Session,
    storage: StorageId,
    held: &[StoredReplica],
) -> Result<(), Fault>
    requires { IsInStep session.old }
    ensures made { OnOk result (Makes (map (received storage) held.now)
        session.old.manager session.new.manager) }
    ensures in_step { OnOk result (IsInStep session.new) }
{
    for one in held {
        let call = Call::Apply(Event::Received {
            storage,
            id: one.id,
            stamp: one.stamp,
        });
        make_call(rt, session, &call)?;
    }
    Ok(())
}

fn make_corrupt<H: Threads + Wait + Sync>(
    rt: &H,
    session: &mut Session,
    cluster: &Cluster,
) -> Result<(), Fault>
    requires { IsInStep session.old }
    ensures made { OnOk result (Makes (map corrupt cluster.now.bad)
        session.old.manager session.new.manager) }
    ensures in_step { OnOk result (IsInStep session.new) }
{
    for bad in cluster.bad.as_slice() {
        let call = Call::Apply(Event::Corrupt {
            storage: bad.storage,
            id: bad.id,
        });
        make_call(rt, session, &call)?;
    }
    Ok(())
}

fn make_drains<H: Threads + Wait + Sync>(
    rt: &H,
    session: &mut Session,
    cluster: &Cluster,
) -> Result<(), Fault>
    requires { IsInStep session.old }
    ensures made { OnOk result (Makes (map drain (draining cluster.now))
        session.old.manager session.new.manager) }
    ensures in_step { OnOk result (IsInStep session.new) }
{
    for node in cluster.node_rows.as_slice() {
        make_drain(rt, session, cluster, node)?;
    }
    Ok(())
}

/// Decommissions the node, if it drains.
#[tactic(auto, using(crate::proofs::MakeLemmas::none_made))]
fn make_drain<H: Threads + Wait + Sync>(
    rt: &H,
    session: &mut Session,
    cluster: &Cluster,
    node: &NodeRow,
) -> Result<(), Fault>
    requires { IsInStep session.old }
    ensures made { OnOk result (Makes (map drain (filter (drains cluster.now) (node.now ∷ [])))
        session.old.manager session.new.manager) }
    ensures in_step { OnOk result (IsInStep session.new) }
{
    if !cluster.draining.has(u64::from(node.number)) {
        return Ok(());
    }
    let call = Call::Apply(Event::Drain {
        node: NodeId(node.number),
    });
    make_call(rt, session, &call)
}

#[tactic(auto, using(crate::proofs::MakeLemmas::one_made))]
fn make_call<H: Threads + Wait + Sync>(
    rt: &H,
    session: &mut Session,
    call: &Call,
) -> Result<(), Fault>
    requires { IsInStep session.old }
    ensures made { OnOk result (Makes (call.now ∷ []) session.old.manager session.new.manager) }
    ensures in_step { OnOk result (IsInStep session.new) }
{
    match session.take_call(rt, call)? {
        None => Ok(()),
        Some(why) => Err(Fault::Call(why)),
    }
}
