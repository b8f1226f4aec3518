// Computes the effects of the losses of a command line: of all together, or of each alone.
ghost use Rattle.std.specs.Prelude.{◌≡◌, IfErr, IfOk, OnOk};
ghost use Rattle.cluster_report.specs.Sessions.{IsInStep};
ghost use Rattle.cluster_losses.specs.Faults.{IsRefusal};
ghost use Rattle.cluster_what_if.specs.Findings.{IsFindFault, IsFoundFor, AreFound, IsMended, IsMendedAt};

use crate::answers::{Answer, answer_to_losses};
use crate::options::Arguments;
use crate::text::write_lost;
use bm_base::{NodeId, Refusal};
use cluster_input::loaded_cluster::Loaded;
use cluster_losses::fault::Fault;
use cluster_losses::loss::{Kind, Question};
use cluster_losses::loss_events::Lost;
use cluster_losses::single_losses::{Row, make_rows, nodes_of, racks_of};
use cluster_progress::Progress;
use cluster_repair::reasons::{Unmended, unmended_of};
use cluster_repair::repair::{Pace, Repair, repair_cluster};
use cluster_report::session::Session;
use std::alloc::Global;
use std::sync::Wait;
use std::thread::Threads;

/// The findings.
#[derive(Drop)]
pub enum Findings {
    Losses(Losses),
    Table(Table),
}

/// The findings about losses that happen together.
#[derive(Drop)]
pub struct Losses {
    /// A line for each node and storage that is lost or drained, with its rack before.
    pub named: String,
    pub answer: Answer,
    /// The repair, if it is asked for.
    pub mended: Option<Mended>,
}

/// A repair: its rounds and copies, and the blocks that stay unrepaired.
#[derive(Drop)]
pub struct Mended {
    pub pace: Pace,
    pub repair: Repair,
    pub unmended: Vec<Unmended>,
}

/// The findings about each rack or each node, lost alone.
#[derive(Drop)]
pub struct Table {
    pub kind: Kind,
    /// The worst first.
    pub rows: Vec<Row>,
}

/// Answers a question. Losses that happen together stay in the cluster; a table changes nothing.
#[tactic(auto, using(crate::proofs::WholeAnswers::found_of, crate::proofs::WholeAnswers::racks_found, crate::proofs::WholeAnswers::nodes_found))]
pub fn find<R: Eprint + Threads + Wait + Sync>(
    rt: &R,
    alloc: Global,
    loaded: &mut Loaded,
    asked: &Arguments<'_>,
    progress: &mut Progress,
) -> Result<Findings, Fault>
    requires { IsInStep loaded.old.session }
    ensures answers { IfOk result (IsFoundFor asked.now.question asked.now.pace
        loaded.old loaded.new) }
    ensures fault { IfErr result (IsFindFault asked.now.question loaded.old loaded.new) }
    ensures names { OnOk result (loaded.new.names ≡ loaded.old.names) }
    ensures files { OnOk result (loaded.new.files ≡ loaded.old.files) }
{
    match &asked.question {
        Question::Losses(losses) => {
            let lost = Lost::named(alloc, loaded, losses.as_slice())?;
            let losses = find_losses(rt, alloc, loaded, &lost, asked.pace, progress)?;
            Ok(Findings::Losses(losses))
        }
        Question::EachRack => {
            let domains = racks_of(alloc, &loaded.session.book)?;
            let rows = make_rows(alloc, loaded, domains.as_slice())?;
            let kind = Kind::Rack;
            Ok(Findings::Table(Table { kind, rows }))
        }
        Question::EachNode => {
            let domains = nodes_of(alloc, &loaded.session.book)?;
            let rows = make_rows(alloc, loaded, domains.as_slice())?;
            let kind = Kind::Node;
            Ok(Findings::Table(Table { kind, rows }))
        }
    }
}

/// Makes the losses, and then repairs the cluster at this pace, if there is one.
#[tactic(auto, using(crate::proofs::WholeAnswers::found_at_once))]
fn find_losses<R: Eprint + Threads + Wait + Sync>(
    rt: &R,
    alloc: Global,
    loaded: &mut Loaded,
    lost: &Lost,
    pace: Option<Pace>,
    progress: &mut Progress,
) -> Result<Losses, Fault>
    requires { IsInStep loaded.old.session }
    ensures found { IfOk result (AreFound loaded.old loaded.new pace lost.now) }
    ensures fault { IfErr result IsRefusal }
    ensures names { OnOk result (loaded.new.names ≡ loaded.old.names) }
    ensures files { OnOk result (loaded.new.files ≡ loaded.old.files) }
{
    let mut named = String::new(alloc);
    write_lost(&mut named, loaded, lost)?;
    let events = lost.events(alloc)?;
    let session = &mut loaded.session;
    let answer = answer_to_losses(rt, alloc, session, &loaded.files, events.as_slice())?;
    let drained = lost.drained.as_slice();
    let mended = repair_if_asked(rt, alloc, &mut loaded.session, pace, drained, progress)?;
    Ok(Losses {
        named,
        answer,
        mended,
    })
}

/// Repairs the cluster at this pace, if there is one.
fn repair_if_asked<R: Eprint + Threads + Wait + Sync>(
    rt: &R,
    alloc: Global,
    session: &mut Session,
    pace: Option<Pace>,
    drained: &[NodeId],
    progress: &mut Progress,
) -> Result<Option<Mended>, Refusal>
    requires { IsInStep session.old }
    ensures { IfOk result (IsMendedAt pace drained.now session.new.book session.old.manager
        session.new.manager) }
{
    match pace {
        Some(pace) => Ok(Some(repair(rt, alloc, session, pace, drained, progress)?)),
        None => Ok(None),
    }
}

/// Takes rounds until nothing more is copied, and finds the reason for each block that stays
/// unrepaired.
#[tactic(auto, using(crate::proofs::WholeAnswers::mended_at_pace))]
fn repair<R: Eprint + Threads + Wait + Sync>(
    rt: &R,
    alloc: Global,
    session: &mut Session,
    pace: Pace,
    drained: &[NodeId],
    progress: &mut Progress,
) -> Result<Mended, Refusal>
    requires { IsInStep session.old }
    ensures { IfOk result (IsMended pace drained.now session.new.book session.old.manager
        session.new.manager) }
{
    let repair = repair_cluster(rt, alloc, session, pace, drained, progress)?;
    let blocks = repair.watch.blocks.as_slice();
    let unmended = unmended_of(alloc, session, &repair.datanodes.free, blocks)?;
    Ok(Mended {
        pace,
        repair,
        unmended,
    })
}
