// A law of later calls.
ghost use Rattle.bm_saved.specs.Laws as law;

/// Calls after a snapshot are answered as after all calls before it.
pub fn replay_goes_on()
    ensures { law.replay_goes_on }
{}
