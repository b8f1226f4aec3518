// The commands of nodes, and their effect on the state.
ghost use Rattle.bm_base.specs.Words.{InLawfulStates, AfterAllCalls};
ghost use Rattle.laws_of_rounds.specs.Commands as law;

/// A round commands each node transfers from its own storages, and deletes on its own storages.
pub fn each_node_its_own()
    ensures { law.EachNodeItsOwn }
{}

/// If a node does not drain, transfers of blocks at other levels than the highest are among the
/// first two that a round commands it. A node that drains may be commanded four at any level.
pub fn first_two_of_a_node()
    ensures { law.FirstTwoOfANode }
{}

/// In a lawful state, a round commands each transfer that it chooses.
pub fn chosen_transfer_is_commanded()
    ensures lawful { InLawfulStates law.ChosenTransferIsCommanded }
    ensures reached { AfterAllCalls law.ChosenTransferIsCommanded }
{}

/// A replica whose delete a round commands exists, and its delete is ordered after the round.
pub fn commanded_delete_is_ordered()
    ensures { law.CommandedDeleteIsOrdered }
{}

/// If a replica's delete was not ordered before a round, and is after it, the round commanded it.
pub fn ordered_is_commanded()
    ensures { law.OrderedIsCommanded }
{}

/// A transfer that a round commands is pending after the round, with the round's number.
pub fn commanded_transfer_is_pending()
    ensures { law.CommandedTransferIsPending }
{}

/// A round changes no replica's tag, and no replica comes or goes.
pub fn round_changes_no_tag()
    ensures { law.RoundChangesNoTag }
{}

/// A round changes no node, storage or block, and no limit; its number is one greater than that of
/// the last round.
pub fn round_keeps_the_rest()
    ensures { law.RoundKeepsTheRest }
{}
