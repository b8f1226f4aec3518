// The list of a block's replicas.
ghost use Rattle.std.specs.Prelude.{◌≡◌, Ok, IfOk, OnOk, IfErr, option_map};
ghost use Rattle.fsck_text.specs.Lists.{cut_item, pushed, listed_with, listed_of, listed_replicas, within, list_of};
ghost use Rattle.fsck_text.specs.Wrongs.{IsCause};

use crate::cuts::cut_at;
use crate::mark::{Mark, parse_mark};
use crate::place::{Place, parse_place};
use crate::reason::{Fault, Reason, Wrong, shown};
use bm_base::Items;
use std::alloc::Global;

/// A replica as fsck lists it.
#[derive(Drop)]
pub struct ListedReplica<'a> {
    pub place: Place<'a>,
    pub mark: Mark,
}

/// The replicas of a list, in order, from the text between its brackets; none from no text.
pub fn parse_list<'a>(alloc: Global, text: &'a str) -> Result<Items<ListedReplica<'a>>, Fault<'a>>
    ensures ok { IfOk result (λ v. list_of text.entry.now ≡ Ok v) }
    ensures wrong { IfErr result (λ f. IsCause f (list_of text.entry.now)) }
{
    if text.is_empty() {
        return Ok(Items::from_vec(Vec::new(alloc)));
    }
    match listed_replicas(alloc, text) {
        Ok(list) => Ok(list),
        Err(Fault::Memory) => Err(Fault::Memory),
        Err(Fault::Wrong(wrong)) => Err(Fault::Wrong(within(wrong, text))),
    }
}

/// The fault of an item of a list; the whole list is quoted for an empty item.
fn within<'a>(wrong: Wrong<'a>, text: &'a str) -> Wrong<'a>
    ensures { result ≡ within text.entry.now wrong.entry }
{
    Wrong::new(wrong.why, shown(wrong.word.text(), text))
}

/// The replicas of one item or more.
#[tactic(auto, using(crate::proofs::ListLemmas::next_listed, crate::proofs::ListLemmas::last_wrong))]
fn listed_replicas<'a>(alloc: Global, text: &'a str) -> Result<Items<ListedReplica<'a>>, Fault<'a>>
    ensures ok { IfOk result (λ v. listed_replicas text.entry.now ≡ Ok v) }
    ensures wrong { IfErr result (λ f. IsCause f (listed_replicas text.entry.now)) }
{
    let mut list = Items::from_vec(Vec::new(alloc));
    let mut rest = text;
    while let Some((item, after)) = cut_item(rest) {
        if let Err(fault) = push_item(&mut list, item) {
            return Err(fault);
        }
        rest = after;
    }
    match push_item(&mut list, rest) {
        Ok(()) => Ok(list),
        Err(fault) => Err(fault),
    }
}

/// Adds the replica of an item.
fn push_item<'a>(list: &mut Items<ListedReplica<'a>>, item: &'a str) -> Result<(), Fault<'a>>
    ensures ok { OnOk result (pushed list.old (listed_of item.entry.now) ≡ Ok list.new) }
    ensures wrong { IfErr result (λ f. IsCause f (listed_of item.entry.now)) }
{
    let one = parse_listed_replica(item)?;
    Ok(list.push(one)?)
}

/// The first item, and the items after it, if there are any.
fn cut_item(items: &str) -> Option<(&str, &str)>
    ensures { option_map (λ p. (p.0.now, p.1.now)) result ≡ cut_item items.now }
{
    items.split_once(", ")
}

/// A replica from its item: its place, and its mark in parentheses if there is one.
fn parse_listed_replica(item: &str) -> Result<ListedReplica<'_>, Wrong<'_>>
    ensures { result ≡ listed_of item.now }
{
    match cut_at(item, '(') {
        Some((place, mark)) => listed_with(item, place, parse_mark(mark)),
        None => listed_with(item, item, Some(Mark::Absent)),
    }
}

fn listed_with<'a>(
    item: &'a str,
    place: &'a str,
    mark: Option<Mark>,
) -> Result<ListedReplica<'a>, Wrong<'a>>
    ensures { result ≡ listed_with item.entry.now place.entry.now mark }
{
    match (parse_place(place), mark) {
        (Some(place), Some(mark)) => Ok(ListedReplica { place, mark }),
        (None, _) => Err(Wrong::new(Reason::NotAPlace, item)),
        (Some(_), None) => Err(Wrong::new(Reason::NotAMark, item)),
    }
}
