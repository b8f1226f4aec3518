// The whole of the parts of several shards.
#![tactic(auto)]

ghost use Rattle.bm_parts.specs.Whole as law;

/// The parts of holdings, put together, are the holdings, however many shards there are.
pub fn parts_are_the_whole()
    ensures { law.parts_are_the_whole }
{}

/// Parts that each hold only blocks of their own numbers are the parts of their whole.
pub fn whole_has_its_parts()
    ensures { law.whole_has_its_parts }
{}
