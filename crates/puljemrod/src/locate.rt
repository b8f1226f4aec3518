// Where a block is, by rows that C holds. Any number of threads may read the same rows.
ghost use Rattle.std.specs.Prelude.{◌≡◌, ◌++◌, ◌==◌, ◌+◌, ◌<◌, ◌≤◌, length, map, filter, take, drop, min, set, slice_index_or};
ghost use Rattle.puljemrod.specs.declared.lists.ReplicaRow.{ReplicaRow};
ghost use Rattle.puljemrod.specs.declared.locate.TheConstants.{GOOD};
ghost use Rattle.bm_base.specs.Words.{Holdings, IsNonDecreasingBy, all_replicas, places};
ghost use Rattle.puljemrod.specs.ListRows.{replica_row, good_storages};

use crate::lists::ReplicaRow;
use laws_of_events::queries::lists_ascend;

/// The number of the tag of a good replica.
const GOOD: u32 = 0;

/// Copies the storages of a block's good replicas, up to the end of `out`, and returns how many it
/// copied. The rows are all replicas of one state, in their order.
#[unsafe(no_mangle)]
pub extern "C" fn puljemrod_locate(rows: &[ReplicaRow], id: u64, out: &mut [u32]) -> usize
    requires { (H : Holdings) × (rows.now ≡ map (replica_row tt) (all_replicas H)) }
    ensures count { (H : Holdings) → rows.now ≡ map (replica_row tt) (all_replicas H)
        → result ≡ min (length out.old) (length (places H id)) }
    ensures copied { (H : Holdings) → rows.now ≡ map (replica_row tt) (all_replicas H)
        → out.new ≡ take result (places H id) ++ drop result out.old }
{
    lists_ascend();
    copy_good(rows_of(rows, id), out)
}

/// The rows of a block among rows that are sorted by block.
fn rows_of(rows: &[ReplicaRow], id: u64) -> &[ReplicaRow]
    requires { IsNonDecreasingBy (λ r. r.block) rows.now }
    ensures { result.now ≡ filter (λ r. r.block == id) rows.now }
{
    let from = rows.partition_point(|row| row.block < id);
    let rest = &rows[from..];
    let count = rest.partition_point(|row| row.block <= id);
    &rest[..count]
}

/// Copies the storages of the good rows, up to the end of `out`, and returns how many it copied.
fn copy_good(rows: &[ReplicaRow], out: &mut [u32]) -> usize
    ensures count { result ≡ min (length out.old) (length (good_storages rows.now)) }
    ensures copied { out.new ≡ take result (good_storages rows.now) ++ drop result out.old }
{
    let mut count = 0;
    for at in 0..rows.len() {
        count = put_good(rows, at, out, count);
    }
    count
}

/// Puts the storage of the row with index `at`, if it is good, at the index `count` of `out`, if
/// that has one. Returns the next index.
fn put_good(rows: &[ReplicaRow], at: usize, out: &mut [u32], count: usize) -> usize
    requires { at < length rows.now }
    ensures put { (r : ReplicaRow) → r ≡ slice_index_or rows.now at r → r.tag ≡ GOOD
        → count < length out.old
        → (result ≡ count + 1) × (out.new ≡ set out.old count r.storage) }
    ensures full { length out.old ≤ count → (result ≡ count) × (out.new ≡ out.old) }
    ensures other { (r : ReplicaRow) → r ≡ slice_index_or rows.now at r → (r.tag ≡ GOOD → ⊥)
        → (result ≡ count) × (out.new ≡ out.old) }
{
    let row = rows[at];
    if row.tag != GOOD || count >= out.len() {
        return count;
    }
    out[count] = row.storage;
    count + 1
}
