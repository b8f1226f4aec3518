// All shards of a manager, and what a contract sees of them.
ghost use Rattle.std.specs.Prelude.{◌≡◌, None, length, IfOk, IfErr};
ghost use Rattle.bm_base.specs.Words.{config_refusal, Cluster, empty_holdings};
ghost use Rattle.bm_base.specs.declared.refusal.Refusal.TheVariants.{Memory};
ghost use Rattle.bm_shards.specs.Whole.{IsUpToDate, HasTaken};
ghost use Rattle.bm_shards.specs.ShardWork.{AreNew};

use bm_base::{Config, HashSecret, Refusal};
use bm_shard::Shard;
use std::alloc::Global;
use std::marker::Model;

/// All shards of a manager, each with its index.
///
/// A contract sees what the shards hold together. Two more facts are passed on by the caller from
/// call to call: each shard is up to date in a cluster (`IsUpToDate`), and has taken all rounds
/// (`HasTaken`).
#[derive(Drop)]
pub struct AllShards {
    pub(crate) alloc: Global,
    pub(crate) shards: Vec<(u32, Shard)>,
    // A hint: whether the next round asks for all wishes at once.
    pub(crate) is_scarce: bool,
}

impl Model for AllShards {
    ghost use Rattle.std.specs.Prelude.{length};
    ghost use Rattle.bm_shards.specs.Whole.{Whole, held_by, AreShards};
    ghost use Rattle.bm_shards.specs.Codes.{coded_whole};

    ghost Value = { Whole };

    ghost coded = { coded_whole };

    ghost view = { λ f. record { holdings = held_by f.shards.items; shards = f.shards.items } };

    ghost invariant = { λ f. AreShards (length f.shards.items) f.shards.items };
}

impl AllShards {
    /// The configured number of empty shards, whose tables hash by this secret. `Memory`.
    #[tactic(auto, unfolding(crate::specs::Whole::IsUpToDate, crate::specs::Whole::HasTaken))]
    pub fn new(alloc: Global, config: &Config, secret: HashSecret) -> Result<AllShards, Refusal>
        requires { config_refusal config.now ≡ None }
        ensures count { IfOk result (λ f. length f.shards ≡ config.now.shards) }
        ensures empty { IfOk result (λ f. f.holdings ≡ empty_holdings) }
        ensures up_to_date { IfOk result (λ f. (C : Cluster) → IsUpToDate C f) }
        ensures rounds { IfOk result (HasTaken config.now.first_round config.now.pend) }
        ensures refused { IfErr result (λ e. e ≡ Memory) }
    {
        let shards = new_shards(alloc, config, secret)?;
        Ok(AllShards {
            alloc,
            shards,
            is_scarce: false,
        })
    }
}

fn new_shards(
    alloc: Global,
    config: &Config,
    secret: HashSecret,
) -> Result<Vec<(u32, Shard)>, Refusal>
    ensures each { IfOk result (λ v. AreNew config.now 0 v.items) }
    ensures len { IfOk result (λ v. length v.items ≡ config.now.shards) }
    ensures refused { IfErr result (λ e. e ≡ Memory) }
{
    let mut shards = Vec::new(alloc);
    for index in 0..config.shards {
        let shard = Shard::with_secret(alloc, index, config, secret)?;
        shards.push((index, shard))?;
    }
    Ok(shards)
}
