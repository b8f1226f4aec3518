//! Opens a publisher with its locators.
ghost use Rattle.std.specs.Prelude.{◌≡◌, ◌^◌, ◌<◌, ◌↔◌, ◌⊎◌, [], ◌∷◌, All, IfOk, IfErr, vec_len};
ghost use Rattle.bm_base.specs.Words.{arc_value};
ghost use Rattle.bm_view.specs.declared.opened_view.TheConstants.{MAX_READERS};
ghost use Rattle.bm_view.specs.Holders.{IsNewAt};
ghost use Rattle.bm_view.specs.Version.{opening};
ghost use Rattle.bm_view.specs.Journal.{opening_log};
ghost use Rattle.bm_view.specs.Rule.{HasSeen};
ghost use Rattle.left_right.specs.Sides.{view as sight};

use crate::count::Count;
use crate::journal::Journal;
use crate::locator::Locator;
use crate::publisher::{Publisher, show};
use crate::rule::{Note, VersionWriter};
use crate::shown_value::Shown;
use crate::table::Table;
use bm_base::Refusal;
use std::alloc::{AllocError, Global};
use std::sync::{Arc, Wait};

/// The maximum number of locators.
const MAX_READERS: usize = 16;

// The opening version: no calls and no rows.
fn first_table(alloc: Global) -> Result<Arc<Table>, AllocError>
    ensures { IfOk result (λ table. arc_value table ≡ opening) }
{
    Ok(Arc::new(alloc, Table::new(0, Vec::new(alloc)))?)
}

// Makes a writer with capacity for `readers` readers, and publishes the opening version. So its own
// view is the current one, and each locator can get it.
fn open_writer<R: Wait>(
    rt: &R,
    alloc: Global,
    table: Arc<Table>,
    journal: &Journal,
    readers: usize,
) -> Result<VersionWriter, AllocError>
    requires table { arc_value table ≡ opening }
    requires log { journal.now.log ≡ opening_log }
    requires readers { (0 < readers) × (readers < 2 ^ 32) }
    ensures shown { IfOk result (λ w. (w.desk.shown.value.home ≡ journal.now.home)
        × (w.desk.shown.value.log ≡ opening_log)) }
    ensures seen { IfOk result (λ w. HasSeen (sight w.desk.place) journal.now.home (opening ∷ [])) }
{
    let first = Shown::new(table, journal.evidence(), Count::one(alloc));
    let (second, third) = match first.copy_twice() {
        Ok(copies) => copies,
        Err(error) => {
            drop(first);
            return Err(error);
        }
    };
    let writer = match VersionWriter::new(alloc, first, second, readers) {
        Ok(writer) => writer,
        Err(error) => {
            drop(third);
            return Err(error);
        }
    };
    let (writer, shown) = show(writer, (rt, third));
    match shown {
        Ok(()) => Ok(writer),
        Err(error) => {
            drop(writer.take(rt));
            Err(error)
        }
    }
}

// Makes `readers` locators, each with the view of the writer.
fn make_locators(
    alloc: Global,
    writer: &mut VersionWriter,
    journal: &Journal,
    readers: usize,
) -> Result<Vec<Locator>, AllocError>
    requires log { journal.now.log ≡ opening_log }
    requires seen { HasSeen (sight writer.old.desk.place) journal.now.home (opening ∷ []) }
    ensures shown { writer.new.desk.shown.value ≡ writer.old.desk.shown.value }
    ensures count { IfOk result (λ made. vec_len made ≡ readers) }
    ensures each { IfOk result
        (λ made. All (IsNewAt journal.now.home) made.items) }
{
    let mut locators = Vec::new(alloc);
    for _ in 0..readers {
        let mut reader = writer.factory().reader()?;
        reader.learn::<Note>(writer.tell::<Note>());
        locators.push(Locator::new(alloc, reader, journal.evidence()))?;
    }
    Ok(locators)
}

/// Makes a publisher and `readers` locators, 0 to 16. The opening version, which has no calls and
/// no rows, is published: it is the list of each of them. The locators may go to other threads.
///
/// # Errors
/// `BadConfig` over 16 readers, and else `Memory`.
pub fn open_view<R: Wait>(
    rt: &R,
    alloc: Global,
    readers: usize,
) -> Result<(Publisher, Vec<Locator>), Refusal>
    ensures too_many { (result ≡ Err Refusal.BadConfig) ↔ (MAX_READERS < readers) }
    ensures refused { IfErr result (λ refusal. (refusal ≡ Refusal.BadConfig)
        ⊎ (refusal ≡ Refusal.Memory)) }
    ensures publisher { IfOk result (λ made. made.0.list ≡ opening ∷ []) }
    ensures count { IfOk result (λ made. vec_len made.1 ≡ readers) }
    ensures locators { IfOk result
        (λ made. All (IsNewAt made.0.home) made.1.items) }
{
    if readers > MAX_READERS {
        return Err(Refusal::BadConfig);
    }
    let table = first_table(alloc)?;
    let journal = Journal::open(&table);
    let mut writer = open_writer(rt, alloc, table, &journal, readers.max(1))?;
    match make_locators(alloc, &mut writer, &journal, readers) {
        Ok(locators) => Ok((Publisher::new(alloc, writer, journal), locators)),
        Err(error) => {
            drop(writer.take(rt));
            Err(Refusal::from(error))
        }
    }
}
