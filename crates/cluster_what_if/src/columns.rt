// Columns that both tables have.
ghost use Rattle.std.specs.Prelude.{◌≡◌, ◌++◌, OnOk, string_bytes};
ghost use Rattle.cluster_what_if.specs.Columns.{level_heads, level_numbers};

use cluster_report::levels::LevelCounts;
use std::alloc::AllocError;

/// The heads of the columns of `write_level_numbers`.
#[tactic(auto, unfolding(crate::specs::Columns::level_heads))]
pub fn write_level_heads(text: &mut String) -> Result<(), AllocError>
    ensures { OnOk result (string_bytes text.new ≡ string_bytes text.old ++ level_heads) }
{
    text.push_str("  highest very_under_replicated under_replicated badly_distributed ")
}

/// The blocks at each of the first four levels.
#[tactic(auto, unfolding(crate::specs::Columns::level_numbers))]
pub fn write_level_numbers(text: &mut String, levels: &LevelCounts) -> Result<(), AllocError>
    ensures { OnOk result (string_bytes text.new ≡ string_bytes text.old
        ++ level_numbers levels.now) }
{
    let highest = levels.highest;
    let very_under_replicated = levels.very_under_replicated;
    let under_replicated = levels.under_replicated;
    let badly_distributed = levels.badly_distributed;
    write!(text, "{highest:>9} {very_under_replicated:>21} ")?;
    write!(text, "{under_replicated:>16} {badly_distributed:>17} ")
}
