// Laws of whole states.
ghost use Rattle.bm_saved.specs.Laws as law;

/// Restoring all that is saved of a lawful state gives the state.
pub fn state_is_restored()
    ensures { law.state_is_restored }
{}

/// Lines without faults are the snapshot of the state that they make.
pub fn lines_are_a_snapshot()
    ensures { law.lines_are_a_snapshot }
{}
