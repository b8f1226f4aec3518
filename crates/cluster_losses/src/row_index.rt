// The row of each node: the index of the failure domain that has it.
ghost use Rattle.std.specs.Prelude.{◌≡◌, ℕ, Some, IfOk, OnOk, if◌then◌else◌};
ghost use Rattle.bm_base.specs.Maps.Map.{get};
ghost use Rattle.cluster_lost.specs.Deaths.{is_among};
ghost use Rattle.cluster_losses.specs.RowIndex.{AreApart, AreRowsOf};

use crate::failure_domains::FailureDomain;
use bm_base::NodeId;
use bm_maps::NumberMap;
use std::alloc::{AllocError, Global};

/// The row of each node of these domains, of which no two have a node in common.
pub(crate) fn rows_of_nodes(
    alloc: Global,
    domains: &[FailureDomain],
) -> Result<NumberMap<usize>, AllocError>
    requires { AreApart domains.now }
    ensures { IfOk result (λ m. AreRowsOf domains.now (get m.map)) }
{
    let mut rows = NumberMap::new(alloc);
    for index in 0..domains.len() {
        add_nodes(&mut rows, domains[index].nodes.as_slice(), index)?;
    }
    Ok(rows)
}

/// Gives these nodes to a row.
fn add_nodes(rows: &mut NumberMap<usize>, nodes: &[NodeId], row: usize) -> Result<(), AllocError>
    ensures { OnOk result ((n : ℕ) → get rows.new.map n
        ≡ (if is_among nodes.now n then Some row else get rows.old.map n)) }
{
    for node in nodes {
        rows.insert(number_of(node), row)?;
    }
    Ok(())
}

fn number_of(node: &NodeId) -> u64
    ensures { result ≡ node.now }
{
    u64::from(node.0)
}
