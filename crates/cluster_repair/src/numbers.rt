// Hash maps from numbers to numbers.
ghost use Rattle.std.specs.Prelude.{◌≡◌, ℕ, nat_eq, Some, OnOk, if◌then◌else◌};
ghost use Rattle.std.specs.HashMap.{get};

use bm_base::HashSecret;
use std::alloc::AllocError;
use std::collections::HashMap;

pub type Numbers = HashMap<u32, u64, HashSecret>;

/// Sets the number of a key.
pub fn put(numbers: &mut Numbers, key: u32, number: u64) -> Result<(), AllocError>
    ensures { OnOk result ((k : ℕ) → get nat_eq numbers.new k
        ≡ (if nat_eq key k then Some number else get nat_eq numbers.old k)) }
{
    match numbers.insert(key, number) {
        Ok(_) => Ok(()),
        Err(_) => Err(AllocError),
    }
}
