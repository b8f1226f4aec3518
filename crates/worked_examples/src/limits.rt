// Limits of nodes, of storages, and of the entries and block numbers of a report.
#![tactic(auto, unfolding(crate::specs::Runs::run_of))]

ghost use Rattle.worked_examples.specs.Limits as example;

/// With 256 alive nodes, the standard limit, one has to die before another may register.
pub fn no_257th_node()
    ensures { example.no_257th_node }
{}

/// A report may have 65,536 entries, duplicates included, and no more.
pub fn no_report_of_65537_entries()
    ensures too_many { example.no_report_of_65537_entries }
    ensures as_many_as_may_be { example.report_of_65536_entries }
{}

/// There may be 4,096 storages, the standard limit, and one node may bring all that are still
/// allowed. A further node may then register without storages, and with one once a storage has
/// failed.
pub fn storages_at_the_limit()
    ensures { example.storages_at_the_limit }
{}

/// The runs of a report may name 1,048,576 numbers in total, and no more.
pub fn too_many_numbers_in_a_report()
    ensures { example.too_many_numbers_in_a_report }
{}

/// Within limits of two nodes and three storages, a third node and a fourth storage are refused,
/// and one more fits after a death. Other limits are kept alike.
pub fn other_limits_are_kept()
    ensures nodes { example.no_third_node }
    ensures storages { example.no_fourth_storage }
    ensures least { example.one_node_one_storage }
    ensures above_standard { example.no_258th_node }
{}
