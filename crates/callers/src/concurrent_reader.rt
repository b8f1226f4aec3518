// Changes, with a reader in a thread of its own that learns of each version.
ghost use Rattle.std.specs.Prelude.{◌≡◌, ◌<◌, ◌≤◌, fold, is_some, true, Some, All, IfOk, IfErr, OnOk};
ghost use Rattle.bm_base.specs.Words.{after_event};
ghost use Rattle.bm_base.specs.declared.refusal.Refusal.TheVariants.{Memory};
ghost use Rattle.bm_view.specs.History.{last_of};
ghost use Rattle.callers.specs.Turns.{StopsAmong};
ghost use Rattle.callers.specs.ConcurrentReader.{IsNoOlder, IsLearntAfter};

use bm_base::{BlockId, Event, Refusal};
use bm_crew::NoGate;
use bm_manager::Manager;
use bm_view::{Located, Locator, Publisher, Receipt};
use crossbeam_channel::{Receiver, Sender, unbounded};
use std::alloc::{AllocError, Global};
use std::marker::{Brand, PhantomData};
use std::sync::Wait;
use std::thread::{Threads, join_mut};

/// What a reader saw after it learned of a version.
#[derive(Clone, Copy, Debug, PartialEq, Eq)]
pub struct Seen {
    /// The number of calls of the version that it learned of.
    pub learnt: u64,
    /// The replicas of the block in this version or in a later one.
    pub found: Option<Located>,
}

/// The results of the changes and of the reader.
#[derive(Debug, Drop)]
pub struct SideBySide {
    /// The changes stop at the first refusal, and when out of memory.
    pub changes: Result<(), Refusal>,
    /// What the reader saw after each receipt, in the order of receipts.
    pub seen: Result<Vec<Seen>, AllocError>,
}

/// Names the view of one `open_view` and the number of calls before the changes, for receipts that
/// cross a channel. The call that passes `Brand` picks both.
trait Home {
    ghost use Rattle.std.specs.Prelude.{ℕ};
    ghost use Rattle.bm_view.specs.Holders.{Home};

    ghost home: { Home };

    ghost before: { ℕ };
}

impl Home for Brand {
    ghost use Rattle.bm_view.specs.Holders.{no_home};

    ghost home = { no_home };

    ghost before = { 0 };
}

/// A receipt on its way to another thread, for a version that a change has led to.
#[derive(Drop)]
struct Notice<J: Home> {
    receipt: Receipt,
    of: PhantomData<J>,
    ghost home_is: { receipt.home ≡ J.home },
    ghost is_new: { J.before < (last_of receipt.list).calls },
}

fn make_notice<J: Home>(receipt: Receipt) -> Notice<J>
    requires home { receipt.home ≡ J.home }
    requires new { J.before < (last_of receipt.list).calls }
{
    Notice {
        receipt,
        of: PhantomData,
    }
}

/// Applies the events in their order, and publishes after each. In parallel, a thread has the
/// locator learn each receipt, and then looks the block up.
pub fn apply_with_reader<R: Threads + Wait + Sync>(
    rt: &R,
    alloc: Global,
    manager: &mut Manager,
    publisher: &mut Publisher,
    locator: &mut Locator,
    events: &[Event],
    id: BlockId,
) -> SideBySide
    requires calls { (last_of publisher.old.list).calls ≤ manager.old.calls }
    requires home { locator.old.home ≡ publisher.old.home }
    ensures state { OnOk result.changes (manager.new ≡ fold after_event manager.old events.now) }
    ensures stopped { IfErr result.changes
        (λ e. StopsAmong manager.old events.now e manager.new) }
    ensures learnt { IfOk result.seen (λ seen. All (IsLearntAfter manager.old.calls) seen.items) }
    ensures no_older { IfOk result.seen (λ seen. All IsNoOlder seen.items) }
    ensures calls { (last_of publisher.new.list).calls ≤ manager.new.calls }
    ensures home { (publisher.new.home ≡ publisher.old.home)
        × (locator.new.home ≡ locator.old.home) }
{
    in_two_threads::<Brand, R>(rt, alloc, manager, publisher, locator, events, id)
}

fn in_two_threads<J: Home + Send + Sync, R: Threads + Wait + Sync>(
    rt: &R,
    alloc: Global,
    manager: &mut Manager,
    publisher: &mut Publisher,
    locator: &mut Locator,
    events: &[Event],
    id: BlockId,
) -> SideBySide
    requires calls { (last_of publisher.old.list).calls ≤ manager.old.calls }
    requires home { (publisher.old.home ≡ J.home) × (locator.old.home ≡ J.home) }
    requires before { manager.old.calls ≡ J.before }
    ensures state { OnOk result.changes (manager.new ≡ fold after_event manager.old events.now) }
    ensures stopped { IfErr result.changes
        (λ e. StopsAmong manager.old events.now e manager.new) }
    ensures learnt { IfOk result.seen (λ seen. All (IsLearntAfter J.before) seen.items) }
    ensures no_older { IfOk result.seen (λ seen. All IsNoOlder seen.items) }
    ensures calls { (last_of publisher.new.list).calls ≤ manager.new.calls }
    ensures home { (publisher.new.home ≡ J.home) × (locator.new.home ≡ J.home) }
{
    let Ok((to, from)) = unbounded(alloc) else {
        return SideBySide {
            changes: Err(Refusal::Memory),
            seen: Err(AllocError),
        };
    };
    let mut to = Some(to);
    let (seen, changes) = locate_during::<J, R, _>(
        rt,
        alloc,
        locator,
        &from,
        id,
        &mut || -> Result<(), Refusal>
            requires { ((last_of publisher.now.list).calls ≤ manager.now.calls)
                × (publisher.now.home ≡ J.home) × (manager.now.calls ≡ J.before)
                × (is_some to ≡ true) }
            ensures state { OnOk result
                (manager.exit.now ≡ fold after_event manager.entry.now events.entry.now) }
            ensures stopped { IfErr result
                (λ e. StopsAmong manager.entry.now events.entry.now e manager.exit.now) }
            ensures calls { (last_of publisher.exit.now.list).calls ≤ manager.exit.now.calls }
            ensures home { publisher.exit.now.home ≡ J.home }
        {
            match to.take() {
                Some(to) => apply_all::<J, R>(rt, manager, publisher, to, events),
                None => unreachable!(),
            }
        },
    );
    SideBySide { changes, seen }
}

/// Makes the changes in this thread. The reader is the first of the two closures: if no thread can
/// be started it runs last, and finds all receipts.
fn locate_during<
    J: Home + Send + Sync,
    R: Threads + Wait + Sync,
    G: FnMut() -> Result<(), Refusal>,
>(
    rt: &R,
    alloc: Global,
    locator: &mut Locator,
    from: &Receiver<Notice<J>>,
    id: BlockId,
    changes: &mut G,
) -> (Result<Vec<Seen>, AllocError>, Result<(), Refusal>)
    requires home { locator.old.home ≡ J.home }
    requires changes { G.pre changes.old }
    ensures home { locator.new.home ≡ J.home }
    ensures learnt { IfOk result.0 (λ seen. All (IsLearntAfter J.before) seen.items) }
    ensures no_older { IfOk result.0 (λ seen. All IsNoOlder seen.items) }
    ensures changed { G.step changes.old result.1 changes.new }
{
    join_mut(
        rt,
        &mut || -> Result<Vec<Seen>, AllocError>
            requires { locator.now.home ≡ J.home }
            ensures home { locator.exit.now.home ≡ J.home }
            ensures learnt { IfOk result (λ seen. All (IsLearntAfter J.before) seen.items) }
            ensures no_older { IfOk result (λ seen. All IsNoOlder seen.items) }
        { locate_after_each::<J, R>(rt, alloc, locator, from, id) },
        changes,
    )
}

/// Applies the events, publishes after each, and sends the receipt. Drops the sender at the end, so
/// that the reader ends too.
fn apply_all<J: Home, R: Threads + Wait + Sync>(
    rt: &R,
    manager: &mut Manager,
    publisher: &mut Publisher,
    to: Sender<Notice<J>>,
    events: &[Event],
) -> Result<(), Refusal>
    requires calls { (last_of publisher.old.list).calls ≤ manager.old.calls }
    requires home { publisher.old.home ≡ J.home }
    requires before { manager.old.calls ≡ J.before }
    ensures state { OnOk result (manager.new ≡ fold after_event manager.old events.now) }
    ensures stopped { IfErr result (λ e. StopsAmong manager.old events.now e manager.new) }
    ensures calls { (last_of publisher.new.list).calls ≤ manager.new.calls }
    ensures home { publisher.new.home ≡ J.home }
{
    for event in events {
        manager.apply(rt, &NoGate, event)?;
        publish_and_send::<J, R>(rt, manager, publisher, &to)?;
    }
    Ok(())
}

fn publish_and_send<J: Home, R: Threads + Wait + Sync>(
    rt: &R,
    manager: &mut Manager,
    publisher: &mut Publisher,
    to: &Sender<Notice<J>>,
) -> Result<(), Refusal>
    requires calls { (last_of publisher.old.list).calls ≤ manager.old.calls }
    requires home { publisher.old.home ≡ J.home }
    requires new { J.before < manager.old.calls }
    ensures same { manager.new ≡ manager.old }
    ensures refused { IfErr result (λ e. e ≡ Memory) }
    ensures calls { (last_of publisher.new.list).calls ≤ manager.new.calls }
    ensures home { publisher.new.home ≡ J.home }
{
    let receipt = manager.publish(rt, publisher)?;
    // The receiver lives as long as the sender, so only memory can be refused.
    match to.send(rt, make_notice::<J>(receipt)) {
        Ok(()) => Ok(()),
        Err(_) => Err(Refusal::Memory),
    }
}

fn locate_after_each<J: Home, R: Wait>(
    rt: &R,
    alloc: Global,
    locator: &mut Locator,
    from: &Receiver<Notice<J>>,
    id: BlockId,
) -> Result<Vec<Seen>, AllocError>
    requires { locator.old.home ≡ J.home }
    ensures home { locator.new.home ≡ J.home }
    ensures learnt { IfOk result (λ seen. All (IsLearntAfter J.before) seen.items) }
    ensures no_older { IfOk result (λ seen. All IsNoOlder seen.items) }
{
    let mut seen = Vec::new(alloc);
    for notice in from.iter(rt) {
        let Notice { receipt, of: _ } = notice;
        seen.push(locate_after(locator, receipt, id))?;
    }
    Ok(seen)
}

fn locate_after(locator: &mut Locator, receipt: Receipt, id: BlockId) -> Seen
    requires { locator.old.home ≡ receipt.home }
    ensures home { locator.new.home ≡ locator.old.home }
    ensures learnt { result.learnt ≡ (last_of receipt.list).calls }
    ensures no_older { IsNoOlder result }
{
    let learnt = receipt.calls();
    locator.learn(receipt);
    Seen {
        learnt,
        found: locator.locate(id),
    }
}
