// The usable replicas of a block, from which it can be copied, and what they say of the block.
ghost use Rattle.std.specs.Prelude.{◌≡◌, ◌≤◌, ◌<◌, ◌*◌, None, length, IfOk, if◌then◌else◌};
ghost use Rattle.bm_base.specs.Spread.{spread};
ghost use Rattle.bm_base.specs.declared.limits.TheConstants.{MAX_REPLICATION};
ghost use Rattle.cluster_lost.specs.Sources.{IsFew, drained_by, first_row, is_of, lacking_by, left_without, level_by, live_by, racks_by, touches};

use bm_base::{BlockInfo, Level, Rack, level_of};
use std::alloc::{AllocError, Global};

/// A usable replica: the row that loses it, its rack, and whether it is live.
#[derive(Clone, Copy)]
pub struct Source {
    pub row: Option<usize>,
    pub rack: Option<Rack>,
    pub live: bool,
}

/// The level of a block with these usable replicas, in a cluster of several racks.
pub(crate) fn level_by(info: &BlockInfo, sources: &[Source]) -> Option<Level>
    ensures { result ≡ level_by info.now sources.now }
{
    level_of(
        count_live(sources),
        count_drained(sources),
        info.repl,
        spread_of(sources),
        true,
    )
}

/// The bytes of the copies that a block with these usable replicas lacks.
pub(crate) fn lacking_by(info: &BlockInfo, sources: &[Source]) -> u128
    requires { IsFew info.now }
    ensures { result ≡ lacking_by info.now sources.now }
{
    if sources.is_empty() {
        return 0;
    }
    let copies = (info.repl as usize).saturating_sub(count_live(sources));
    bytes_of(copies, info.stamp.len)
}

fn bytes_of(copies: usize, len: u64) -> u128
    requires { copies ≤ MAX_REPLICATION }
    ensures { result ≡ copies * len }
{
    copies as u128 * u128::from(len)
}

fn count_live(sources: &[Source]) -> usize
    ensures { result ≡ live_by sources.now }
{
    sources.iter().filter(|source| source.live).count()
}

fn count_drained(sources: &[Source]) -> usize
    ensures { result ≡ drained_by sources.now }
{
    sources.iter().filter(|source| !source.live).count()
}

/// The number of racks of the live ones, 2 for more.
fn spread_of(sources: &[Source]) -> usize
    ensures { result ≡ spread (racks_by sources.now) }
{
    let mut first: Option<Rack> = None;
    for source in sources {
        let Some(rack) = live_rack(source) else {
            continue;
        };
        match first {
            None => first = Some(rack),
            Some(seen) => {
                if rack != seen {
                    return 2;
                }
            }
        }
    }
    usize::from(first.is_some())
}

/// The rack of a live replica.
fn live_rack(source: &Source) -> Option<Rack>
    ensures { result ≡ (if source.now.live then source.now.rack else None) }
{
    if source.live { source.rack } else { None }
}

/// Whether a row loses a replica.
fn is_of(source: &Source, row: usize) -> bool
    ensures { result ≡ is_of row source.now }
{
    match source.row {
        Some(own) => own == row,
        None => false,
    }
}

/// Whether a row loses one of these.
pub(crate) fn touches(sources: &[Source], row: usize) -> bool
    ensures { result ≡ touches row sources.now }
{
    sources.iter().any(|source| is_of(source, row))
}

/// Those that a row does not lose.
pub(crate) fn left_without(
    alloc: Global,
    sources: &[Source],
    row: usize,
) -> Result<Vec<Source>, AllocError>
    ensures { IfOk result (λ v. v.items ≡ left_without row sources.now) }
{
    sources
        .iter()
        .filter(|source| !is_of(source, row))
        .copied()
        .collect(alloc)
}

/// The row that loses the replica at an index, unless it loses an earlier one too.
pub(crate) fn first_row(sources: &[Source], index: usize) -> Option<usize>
    requires { index < length sources.now }
    ensures { result ≡ first_row sources.now index }
{
    let row = sources[index].row?;
    if touches(&sources[..index], row) {
        None
    } else {
        Some(row)
    }
}
