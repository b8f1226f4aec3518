// Copies on their way, ordered by the time of their arrival.
ghost use Rattle.std.specs.Prelude.{◌≡◌, ◌+◌, ◌++◌, ◌∷◌, ◌==◌, ◌&&◌, not, min, [], ℕ, false, nat_lt, length, count_by, filter, IfOk, OnOk, if◌then◌else◌};
ghost use Rattle.bm_base.specs.Words.{list_any, IsPermutation, IsSortedByKey, by_pair};
ghost use Rattle.cluster_repair.specs.Copies.{is_copy_of, is_among, holds_target, has_arrived, when};
ghost use Rattle.cluster_repair.specs.LinkModel.{most};

use bm_base::{HashSecret, Transfer};
use std::alloc::{AllocError, Global};
use std::collections::HashSet;

/// A copy that was commanded and has not arrived.
#[derive(Clone, Copy)]
pub struct Sent {
    /// In microseconds.
    pub arrival: u64,
    /// The index of the copy, in the order of the commands.
    pub order: u64,
    pub transfer: Transfer,
}

/// Blocks with targets.
type Targets = HashSet<(u64, u32), HashSecret>;

/// The copies on their way.
#[derive(Drop)]
pub struct OnWay {
    pub sent: Vec<Sent>,
    /// Their blocks and targets.
    pub targets: Targets,
    pub next: u64,
    pub ghost once: { (b t : ℕ) → count_by (is_copy_of b t) sent.items
        ≡ (if holds_target targets b t then 1 else 0) },
}

impl OnWay {
    /// Makes an empty list of copies, whose table hashes by this secret. Takes no memory.
    pub fn new(alloc: Global, secret: HashSecret) -> OnWay
        ensures sent { result.sent.items ≡ [] }
        ensures next { result.next ≡ 0 }
    {
        OnWay {
            sent: Vec::new(alloc),
            targets: HashSet::with_hasher(alloc, secret),
            next: 0,
        }
    }

    /// Returns the number of copies on their way.
    pub fn len(&self) -> usize
        ensures { result ≡ length self.now.sent.items }
    {
        self.sent.len()
    }

    /// Returns whether no copy is on its way.
    pub fn is_empty(&self) -> bool
        ensures { result ≡ (length self.now.sent.items == 0) }
    {
        self.sent.is_empty()
    }

    /// Whether a copy of the block is on its way to this target.
    pub fn has(&self, transfer: &Transfer) -> bool
        ensures { result ≡ is_among self.now.sent.items transfer.now }
    {
        self.targets.contains(&key_of(transfer))
    }

    /// Adds a copy, which is not on its way yet.
    pub fn add(&mut self, arrival: u64, transfer: Transfer) -> Result<(), AllocError>
        requires { is_among self.old.sent.items transfer ≡ false }
        ensures sent { OnOk result (self.new.sent.items ≡ self.old.sent.items
            ++ record { arrival = arrival; order = self.old.next; transfer = transfer } ∷ []) }
        ensures next { OnOk result (self.new.next ≡ min (self.old.next + 1) most) }
    {
        let order = self.next;
        self.sent.push(Sent {
            arrival,
            order,
            transfer,
        })?;
        match self.targets.insert(key_of(&transfer)) {
            Ok(_) => {
                self.next = order.saturating_add(1);
                Ok(())
            }
            Err(_) => {
                let _ = self.sent.pop();
                Err(AllocError)
            }
        }
    }

    /// Removes and returns the copies that have arrived by `now`, sorted by arrival and then by
    /// command.
    pub fn take_due(&mut self, alloc: Global, now: u64) -> Result<Vec<Sent>, AllocError>
        ensures due { IfOk result (λ v.
            IsPermutation (filter (has_arrived now) self.old.sent.items) v.items) }
        ensures sorted { IfOk result (λ v. IsSortedByKey when by_pair.cmp v.items) }
        ensures left { OnOk result (self.new.sent.items
            ≡ filter (λ s. nat_lt now s.arrival) self.old.sent.items) }
        ensures next { self.new.next ≡ self.old.next }
    {
        let mut due = arrived_until(alloc, self.sent.as_slice(), now)?;
        due.sort_by_key(|sent| arrival_key(sent))?;
        let left = still_pending(alloc, self.sent.as_slice(), now)?;
        forget(&mut self.targets, due.as_slice());
        self.sent = left;
        Ok(due)
    }
}

/// Sort key: arrival time, then the copy's index.
fn arrival_key(sent: &Sent) -> (u64, u64)
    ensures { result ≡ when sent.now }
{
    (sent.arrival, sent.order)
}

fn forget(targets: &mut Targets, sent: &[Sent])
    ensures { (b t : ℕ) → holds_target targets.new b t
        ≡ (holds_target targets.old b t && not (list_any (is_copy_of b t) sent.now)) }
{
    for one in sent {
        let _ = targets.remove(&key_of(&one.transfer));
    }
}

/// The block and the target of a copy.
fn key_of(transfer: &Transfer) -> (u64, u32)
    ensures { result ≡ (transfer.now.block, transfer.now.target) }
{
    (transfer.block.0, transfer.target.0)
}

fn arrived_until(alloc: Global, sent: &[Sent], now: u64) -> Result<Vec<Sent>, AllocError>
    ensures { IfOk result (λ v. v.items ≡ filter (has_arrived now) sent.now) }
{
    sent.iter()
        .filter(|one| arrives_by(one, now))
        .copied()
        .collect(alloc)
}

fn still_pending(alloc: Global, sent: &[Sent], now: u64) -> Result<Vec<Sent>, AllocError>
    ensures { IfOk result (λ v. v.items ≡ filter (λ s. nat_lt now s.arrival) sent.now) }
{
    sent.iter()
        .filter(|one| arrives_after(one, now))
        .copied()
        .collect(alloc)
}

fn arrives_by(sent: &Sent, now: u64) -> bool
    ensures { result ≡ has_arrived now sent.now }
{
    sent.arrival <= now
}

pub(crate) fn arrives_after(sent: &Sent, now: u64) -> bool
    ensures { result ≡ nat_lt now sent.now.arrival }
{
    now < sent.arrival
}
