// The times at which copies arrive: a model. Each node has a link for sending and one for
// receiving. A link passes one copy after another.
ghost use Rattle.std.specs.Prelude.{◌≡◌, ℕ, nat_eq, IfOk, OnOk, if◌then◌else◌};
ghost use Rattle.cluster_repair.specs.LinkModel.{micros_for, sends_until, receives_until, sent_at, received_at, arrival};

use crate::numbers::{Numbers, put};
use bm_base::{HashSecret, NodeId};
use std::alloc::{AllocError, Global};
use std::collections::HashMap;

pub const MICROS: u64 = 1_000_000;

/// Until when each node sends and receives. Times are in microseconds.
#[derive(Drop)]
pub struct Links {
    /// In bytes a second.
    pub bandwidth: u64,
    pub sending: Numbers,
    pub receiving: Numbers,
}

impl Links {
    /// Every node is idle. The tables hash by this secret.
    pub fn new(alloc: Global, bandwidth: u64, secret: HashSecret) -> Links
        ensures sending { (n : ℕ) → sends_until result n ≡ 0 }
        ensures receiving { (n : ℕ) → receives_until result n ≡ 0 }
        ensures bandwidth { result.bandwidth ≡ bandwidth }
    {
        Links {
            bandwidth,
            sending: HashMap::with_hasher(alloc, secret),
            receiving: HashMap::with_hasher(alloc, secret),
        }
    }

    /// When a copy arrives that is commanded now: once the link of its source and that of its
    /// target have passed its bytes. Each passes them after those of the copies commanded before,
    /// and does not wait for the other.
    #[tactic(auto, using(crate::proofs::NumberLemmas::number_put))]
    pub fn send(
        &mut self,
        source: NodeId,
        target: NodeId,
        bytes: u64,
        now: u64,
    ) -> Result<u64, AllocError>
        ensures arrival { IfOk result (λ t. t ≡ arrival self.old source target bytes now) }
        ensures sending { OnOk result ((n : ℕ) → sends_until self.new n
            ≡ (if nat_eq source n then sent_at self.old source bytes now
            else sends_until self.old n)) }
        ensures receiving { OnOk result ((n : ℕ) → receives_until self.new n
            ≡ (if nat_eq target n then received_at self.old target bytes now
            else receives_until self.old n)) }
        ensures bandwidth { self.new.bandwidth ≡ self.old.bandwidth }
    {
        let micros = micros_for(self.bandwidth, bytes);
        let sent = now.max(self.sends_until(source)).saturating_add(micros);
        let received = now.max(self.receives_until(target)).saturating_add(micros);
        put(&mut self.sending, source.0, sent)?;
        put(&mut self.receiving, target.0, received)?;
        Ok(sent.max(received))
    }

    fn sends_until(&self, node: NodeId) -> u64
        ensures { result ≡ sends_until self.now node }
    {
        self.sending.get(&node.0).copied().unwrap_or(0)
    }

    fn receives_until(&self, node: NodeId) -> u64
        ensures { result ≡ receives_until self.now node }
    {
        self.receiving.get(&node.0).copied().unwrap_or(0)
    }
}

/// How long this number of bytes takes, rounded up.
fn micros_for(bandwidth: u64, bytes: u64) -> u64
    ensures { result ≡ micros_for bandwidth bytes }
{
    let micros = (u128::from(bytes) * 1_000_000).div_ceil(u128::from(bandwidth.max(1)));
    micros.min(u128::from(u64::MAX)) as u64
}
