// The replicas counted by tag, and their blocks.
ghost use Rattle.std.specs.Prelude.{◌≡◌, IfOk, count_by, if◌then◌else◌};
ghost use Rattle.bm_base.specs.Words.{is_good, is_stale, is_bad, is_stray};
ghost use Rattle.cluster_report.specs.TagTotals.{tags_counted, tag_bytes, bytes_where, known_numbers, blocks_held};
ghost use Rattle.cluster_report.specs.Catalogues.{len_in};

use crate::catalogue::Catalogue;
use bm_base::Replica;
use std::alloc::{AllocError, Global};

/// The number of replicas of each tag.
#[derive(Clone, Copy)]
pub struct TagCounts {
    pub good: usize,
    pub stale: usize,
    pub bad: usize,
    pub stray: usize,
}

/// Counts these replicas by tag. Reads each four times. Takes no memory.
pub fn count_tags(replicas: &[Replica]) -> TagCounts
    ensures { result ≡ tags_counted replicas.now }
{
    TagCounts {
        good: count_good(replicas),
        stale: count_stale(replicas),
        bad: count_bad(replicas),
        stray: count_stray(replicas),
    }
}

fn count_good(replicas: &[Replica]) -> usize
    ensures { result ≡ count_by (λ r. is_good r.tag) replicas.now }
{
    replicas.iter().filter(|replica| is_good(replica)).count()
}

fn count_stale(replicas: &[Replica]) -> usize
    ensures { result ≡ count_by (λ r. is_stale r.tag) replicas.now }
{
    replicas.iter().filter(|replica| is_stale(replica)).count()
}

fn count_bad(replicas: &[Replica]) -> usize
    ensures { result ≡ count_by (λ r. is_bad r.tag) replicas.now }
{
    replicas.iter().filter(|replica| is_bad(replica)).count()
}

fn count_stray(replicas: &[Replica]) -> usize
    ensures { result ≡ count_by (λ r. is_stray r.tag) replicas.now }
{
    replicas.iter().filter(|replica| is_stray(replica)).count()
}

/// The bytes of the replicas of each tag: a replica has the length of its block. The length of a
/// stray one is unknown.
#[derive(Clone, Copy)]
pub struct TagBytes {
    pub good: u128,
    pub stale: u128,
    pub bad: u128,
}

/// Sums the bytes of replicas by tag; each replica has the length of its block.
pub fn tag_bytes(catalogue: &Catalogue, replicas: &[Replica]) -> TagBytes
    ensures { result ≡ tag_bytes (len_in catalogue.now) replicas.now }
{
    TagBytes {
        good: good_bytes(catalogue, replicas),
        stale: stale_bytes(catalogue, replicas),
        bad: bad_bytes(catalogue, replicas),
    }
}

fn good_bytes(catalogue: &Catalogue, replicas: &[Replica]) -> u128
    ensures { result ≡ bytes_where (len_in catalogue.now) is_good replicas.now }
{
    let mut total = 0u128;
    for replica in replicas {
        total += u128::from(len_if(catalogue, replica, is_good(replica)));
    }
    total
}

fn stale_bytes(catalogue: &Catalogue, replicas: &[Replica]) -> u128
    ensures { result ≡ bytes_where (len_in catalogue.now) is_stale replicas.now }
{
    let mut total = 0u128;
    for replica in replicas {
        total += u128::from(len_if(catalogue, replica, is_stale(replica)));
    }
    total
}

fn bad_bytes(catalogue: &Catalogue, replicas: &[Replica]) -> u128
    ensures { result ≡ bytes_where (len_in catalogue.now) is_bad replicas.now }
{
    let mut total = 0u128;
    for replica in replicas {
        total += u128::from(len_if(catalogue, replica, is_bad(replica)));
    }
    total
}

/// The length of a replica's block if it counts; else 0.
fn len_if(catalogue: &Catalogue, replica: &Replica, counts: bool) -> u64
    ensures { result ≡ (if counts then len_in catalogue.now replica.now.block else 0) }
{
    if counts {
        catalogue.len_of(replica.block)
    } else {
        0
    }
}

/// The blocks of these replicas without the stray ones, one of each run of equal numbers. All
/// replicas are sorted by block, so this lists each known block with a replica once, in ascending
/// order.
pub fn held_blocks(alloc: Global, replicas: &[Replica]) -> Result<Vec<u64>, AllocError>
    ensures { IfOk result (λ v. v.items ≡ blocks_held replicas.now) }
{
    let mut numbers = known_numbers(alloc, replicas)?;
    numbers.dedup();
    Ok(numbers)
}

/// The block of each replica that is not stray.
fn known_numbers(alloc: Global, replicas: &[Replica]) -> Result<Vec<u64>, AllocError>
    ensures { IfOk result (λ v. v.items ≡ known_numbers replicas.now) }
{
    replicas
        .iter()
        .filter(|replica| !is_stray(replica))
        .map(block_number)
        .collect(alloc)
}

fn block_number(replica: &Replica) -> u64
    ensures { result ≡ replica.now.block }
{
    replica.block.0
}

fn is_good(replica: &Replica) -> bool
    ensures { result ≡ is_good replica.now.tag }
{
    replica.tag.is_good()
}

fn is_stale(replica: &Replica) -> bool
    ensures { result ≡ is_stale replica.now.tag }
{
    replica.tag.is_stale()
}

fn is_bad(replica: &Replica) -> bool
    ensures { result ≡ is_bad replica.now.tag }
{
    replica.tag.is_bad()
}

fn is_stray(replica: &Replica) -> bool
    ensures { result ≡ is_stray replica.now.tag }
{
    replica.tag.is_stray()
}
