// The arrays of the five levels.
ghost use Rattle.std.specs.Prelude.{◌≡◌, ◌≤◌, ℕ, [], ◌∷◌, length, IfOk, OnOk, All};
ghost use Rattle.bm_queues.specs.DenseLevels.{arrays_in, HaveCapacity};

use std::alloc::{AllocError, Global};

/// Five empty arrays.
pub(crate) fn new_arrays(alloc: Global) -> Result<Vec<Vec<u32>>, AllocError>
    ensures { IfOk result (λ arrays. arrays_in arrays.items ≡ [] ∷ [] ∷ [] ∷ [] ∷ [] ∷ []) }
{
    let mut arrays = Vec::new(alloc);
    arrays.push(Vec::new(alloc))?;
    arrays.push(Vec::new(alloc))?;
    arrays.push(Vec::new(alloc))?;
    arrays.push(Vec::new(alloc))?;
    arrays.push(Vec::new(alloc))?;
    Ok(arrays)
}

/// Reserves capacity for a number of slots in each array.
pub(crate) fn reserve_each(arrays: &mut Vec<Vec<u32>>, capacity: usize) -> Result<(), AllocError>
    requires { All (λ array. length array ≤ capacity) (arrays_in arrays.old.items) }
    ensures same { arrays_in arrays.new.items ≡ arrays_in arrays.old.items }
    ensures kept { (bound : ℕ) → HaveCapacity arrays.old.items bound
        → HaveCapacity arrays.new.items bound }
    ensures capacity { OnOk result (HaveCapacity arrays.new.items capacity) }
{
    for index in 0..arrays.len() {
        let array = &mut arrays[index];
        array.reserve(capacity - array.len())?;
    }
    Ok(())
}
