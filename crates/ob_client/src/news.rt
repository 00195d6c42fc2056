//! What the entries of a reply make of what is held, made before any of it is put in its place.
ghost use Rattle.std.specs.Prelude.{◌≡◌, true, false, map, is_some, IfOk, IsTrue};
ghost use Rattle.std.specs.List.{list_all};
ghost use Rattle.ob_watching.specs.WatchOuts.{entry_read};
ghost use Rattle.ob_client.specs.Entries.{text_of};
ghost use Rattle.ob_client.specs.Mirrors.{found, can_follow, all_follow};
ghost use Rattle.ob_client.specs.Tables.{without_errs, next};

use crate::entries::{is_err, text_of};
use crate::kept::Kept;
use crate::table::Table;
use ob_object::Obj;
use std::alloc::{AllocError, Global};

/// What the entries give.
pub(crate) fn all_whole(alloc: Global, entries: &[Obj]) -> Result<Vec<Kept>, AllocError>
    requires { IsTrue (list_all (λ o. is_some o.head.href) entries.now) }
    ensures { IfOk result (λ news. news.items ≡ map (entry_read false) entries.now) }
{
    let mut news = Vec::new(alloc);
    for entry in entries {
        news.push(Kept::whole(alloc, entry)?)?;
    }
    Ok(news)
}

/// What the entries but the errs give.
pub(crate) fn whole_but_errs(alloc: Global, entries: &[Obj]) -> Result<Vec<Kept>, AllocError>
    requires { IsTrue (list_all (λ o. is_some o.head.href) entries.now) }
    ensures { IfOk result (λ news. news.items ≡ map (entry_read false) (without_errs entries.now)) }
{
    let mut news = Vec::new(alloc);
    for entry in entries {
        if !is_err(entry) {
            news.push(Kept::whole(alloc, entry)?)?;
        }
    }
    Ok(news)
}

// Whether an entry can go on with what is held under its text.
fn can_follow(table: &Table, entry: &Obj) -> bool
    ensures { result ≡ can_follow (found (text_of entry.now) table.now) entry.now }
{
    match table.get(text_of(entry)) {
        Some(kept) => kept.follows(entry),
        None => true,
    }
}

/// Whether each entry can go on with what is held under its text.
pub(crate) fn all_follow(table: &Table, entries: &[Obj]) -> bool
    ensures { result ≡ all_follow table.now entries.now }
{
    for entry in entries {
        if !can_follow(table, entry) {
            return false;
        }
    }
    true
}

// What is held under the entry's text once it has come.
fn next(alloc: Global, table: &Table, entry: &Obj) -> Result<Kept, AllocError>
    requires href { IsTrue (is_some entry.now.head.href) }
    requires counted { IsTrue (can_follow (found (text_of entry.now) table.now) entry.now) }
    ensures { IfOk result (λ kept. kept ≡ next table.now (entry_read true entry.now)) }
{
    match table.get(text_of(entry)) {
        Some(old) => old.continued(alloc, entry),
        None => Kept::changed(alloc, entry),
    }
}

/// What is held under the texts of the entries but the errs, once they have come.
pub(crate) fn next_but_errs(
    alloc: Global,
    table: &Table,
    entries: &[Obj],
) -> Result<Vec<Kept>, AllocError>
    requires hrefs { IsTrue (list_all (λ o. is_some o.head.href) entries.now) }
    requires counted { IsTrue (all_follow table.now entries.now) }
    ensures { IfOk result (λ news. news.items ≡ map (λ o. next table.now (entry_read true o)) (without_errs entries.now)) }
{
    let mut news = Vec::new(alloc);
    for entry in entries {
        if !is_err(entry) {
            news.push(next(alloc, table, entry)?)?;
        }
    }
    Ok(news)
}
