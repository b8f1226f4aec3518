// A line of a text.
ghost use Rattle.std.specs.Prelude.{◌≡◌, ◌++◌, OnOk, string_bytes};
ghost use Rattle.cluster_report.specs.Text.{count_line};

use std::alloc::AllocError;

/// Appends a name and its count.
#[tactic(auto, unfolding(crate::specs::Text::count_line))]
pub fn write_count(text: &mut String, what: &str, count: u128) -> Result<(), AllocError>
    ensures { OnOk result (string_bytes text.new ≡ string_bytes text.old
        ++ count_line what.now count) }
{
    write!(text, "{what} {count}\n")
}
