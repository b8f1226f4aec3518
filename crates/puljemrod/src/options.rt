// The options by which C sets up a manager.
ghost use Rattle.std.specs.Prelude.{◌≡◌};
ghost use Rattle.puljemrod.specs.GivenOptions.{cluster_limits_of, config_of, given_or};

use bm_base::{Config, Limits};

/// The fields of [`bm_base::Config`] but the workers, of which there is one, the secret by which
/// tables hash, and the fields of [`bm_base::Limits`]. A limit of 0 is the standard one.
#[repr(C)]
#[derive(Clone, Copy)]
pub struct Options {
    pub shards: u32,
    pub work: u32,
    pub invalidate: u32,
    pub pend: u32,
    pub first_round: u64,
    pub first_call: u64,
    pub secret: u64,
    /// How many nodes may be alive at a time, 1 to 65,536; 0 for 256.
    pub nodes: u32,
    /// How many storages there may be at a time, 1 to 1,048,576; 0 for 4,096.
    pub storages: u32,
}

impl Options {
    pub fn config(&self) -> Config
        ensures { result ≡ config_of self.now }
    {
        Config {
            shards: self.shards,
            workers: 1,
            work: self.work,
            invalidate: self.invalidate,
            pend: self.pend,
            first_round: self.first_round,
            first_call: self.first_call,
        }
    }

    pub fn limits(&self) -> Limits
        ensures { result ≡ cluster_limits_of self.now }
    {
        let standard = Limits::standard();
        Limits {
            nodes: given_or(standard.nodes, self.nodes),
            storages: given_or(standard.storages, self.storages),
        }
    }
}

/// The given number, or the standard one where that is 0.
fn given_or(standard: u32, given: u32) -> u32
    ensures { result ≡ given_or standard given }
{
    if given == 0 { standard } else { given }
}
