// A reader that learns of a published version and looks a block up.
ghost use Rattle.std.specs.Prelude.{◌≡◌, ◌≤◌};
ghost use Rattle.bm_base.specs.Words.{IfFound};
ghost use Rattle.bm_view.specs.History.{last_of};

use bm_base::{BlockId, Refusal};
use bm_manager::Manager;
use bm_view::{Located, Locator, Publisher};
use std::sync::Wait;
use std::thread::Threads;

/// Publishes the manager's state, lets the locator learn of it, and has it look a block up. The
/// answer is of this state or of a later one.
pub fn publish_and_locate<R: Threads + Wait + Sync>(
    rt: &R,
    manager: &mut Manager,
    publisher: &mut Publisher,
    locator: &mut Locator,
    id: BlockId,
) -> Result<Option<Located>, Refusal>
    requires calls { (last_of publisher.old.list).calls ≤ manager.old.calls }
    requires home { locator.old.home ≡ publisher.old.home }
    ensures same { manager.new ≡ manager.old }
    ensures no_older { IfFound result (λ found. manager.old.calls ≤ found.calls) }
{
    let receipt = manager.publish(rt, publisher)?;
    locator.learn(receipt);
    Ok(locator.locate(id))
}
