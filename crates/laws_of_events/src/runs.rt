// Full reports whose entries are runs of block numbers.
#![tactic(auto)]

ghost use Rattle.laws_of_events.specs.Runs as law;

/// A report names exactly the numbers from the first to the last of each of its runs.
pub fn runs_name_their_numbers()
    ensures { law.runs_name_their_numbers }
{}

/// The count of numbers in a report, repeats counted, is the sum over its runs that limits its
/// length.
pub fn numbers_are_counted()
    ensures { law.numbers_are_counted }
{}

/// Two reports that agree on the last stamp of each number have the same next state and answer,
/// whatever their runs.
pub fn last_stamp_counts()
    ensures { law.last_stamp_counts }
{}

/// So do two reports with the same numbers and stamps in the same order, in whatever runs.
pub fn same_blocks_are_alike()
    ensures { law.same_blocks_are_alike }
{}

/// A report in runs has the same next state and answer as the report with an entry for each number.
pub fn runs_are_alike_one_by_one()
    ensures { law.runs_are_alike_one_by_one }
{}

/// Cutting a run in two anywhere changes neither the next state nor the answer.
pub fn run_may_be_cut()
    ensures { law.run_may_be_cut }
{}

/// A run that ends before it begins names nothing: without it the next state and the answer are the
/// same.
pub fn backward_run_names_none()
    ensures { law.backward_run_names_none }
{}
