// Live and drained replicas: the terms of the other laws.
ghost use Rattle.laws_of_rounds.specs.Live as law;

/// A storage is among a block's live ones exactly if its replica of the block is good and not in
/// excess, and its node does not drain.
pub fn live_is_good_not_in_excess_and_not_draining()
    ensures { law.LiveIsGoodNotInExcessAndNotDraining }
{}

/// A storage is among a block's drained ones exactly if its replica of the block is good and not in
/// excess, and its node drains.
pub fn drained_is_good_not_in_excess_and_draining()
    ensures { law.DrainedIsGoodNotInExcessAndDraining }
{}

/// The usable ones are the live and the drained together.
pub fn usable_is_live_or_drained()
    ensures { law.UsableIsLiveOrDrained }
{}

/// Copies are made from the usable replicas, and from no others.
pub fn sources_are_usable()
    ensures { law.SourcesAreUsable }
{}

/// No storage occurs twice among a block's live ones.
pub fn live_is_distinct()
    ensures { law.LiveIsDistinct }
{}

/// No storage occurs twice among a block's drained ones.
pub fn drained_is_distinct()
    ensures { law.DrainedIsDistinct }
{}
