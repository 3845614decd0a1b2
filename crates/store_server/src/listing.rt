//! All invocations of a store, listed.
ghost use Rattle.std.specs.Prelude.{IfErr, IfOk, OnOk};
ghost use Rattle.std.specs.Io.KnownBytes.{Appends};
ghost use Rattle.store_server.specs.Rows.{all_listed_text};
ghost use Rattle.store_server.specs.Pages.{GoesBehind, Lists, ListsAll, ListsPage, PagesAreAll, ShowsPage, StopsWriting};

use crate::asks::page;
use crate::fault::ServerFault;
use crate::rows::{ListedInvocation, ShownInvocations};
use crate::serving::send;
use bytes::ByteStr;
use journal_store::Store;
use script_lines::output::write_text;
use sqlite::Alter;
use std::alloc::{AllocError, Global};
use std::io::Write;

/// How many invocations are asked for at once.
const PAGE: usize = 1000;

/// Writes a page.
fn write_page<W: Write>(
    alloc: Global,
    writer: &mut W,
    shown: &ShownInvocations,
) -> Result<(), ServerFault>
    ensures ok { OnOk result (Appends (W.contents writer.old) (W.contents writer.new) (all_listed_text shown.now.invocations.items)) }
    ensures err { IfErr result (StopsWriting (all_listed_text shown.now.invocations.items) (W.contents writer.old) (W.contents writer.new)) }
{
    match format!(in alloc; "{shown}") {
        Ok(text) => {
            let sent = write_text(writer, text.as_bytes());
            drop(text);
            match sent {
                Ok(()) => Ok(()),
                Err(_) => Err(ServerFault::OutputUnwritable),
            }
        }
        Err(_) => Err(ServerFault::LineOutOfMemory),
    }
}

/// The id behind which the next page goes on; nothing where the page is not full.
fn next_after(page: &[ListedInvocation]) -> Result<Option<ByteStr>, AllocError>
    ensures { IfOk result (GoesBehind page.now) }
{
    if page.len() < PAGE {
        return Ok(None);
    }
    match page.last() {
        Some(last) => Ok(Some(last.row.id.clone()?)),
        None => Ok(None),
    }
}

/// Writes a page that was told, and tells where the next one goes on.
fn show_page<W: Write>(
    alloc: Global,
    writer: &mut W,
    invocations: Vec<ListedInvocation>,
) -> Result<Option<ByteStr>, ServerFault>
    ensures { ShowsPage invocations.items (W.contents writer.old) (W.contents writer.new) result }
{
    let shown = ShownInvocations { invocations };
    match write_page(alloc, writer, &shown) {
        Ok(()) => {
            let next = next_after(shown.invocations.as_slice());
            drop(shown);
            match next {
                Ok(next) => Ok(next),
                Err(_) => Err(ServerFault::LineOutOfMemory),
            }
        }
        Err(fault) => {
            drop(shown);
            Err(fault)
        }
    }
}

/// Lists a page.
fn list_page<W: Write, S: Alter + Drop>(
    alloc: Global,
    writer: &mut W,
    store: &mut Store<S>,
    after: &ByteStr,
) -> Result<Option<ByteStr>, ServerFault>
    ensures { ListsPage S.Store after.now (W.contents writer.old) (W.contents writer.new) store.old store.new result }
{
    match page(alloc, store, after, PAGE) {
        Ok(invocations) => show_page(alloc, writer, invocations),
        Err(_) => Err(ServerFault::Untold),
    }
}

/// Lists all pages.
fn list_pages<W: Write, S: Alter + Drop>(
    alloc: Global,
    writer: &mut W,
    store: &mut Store<S>,
) -> Result<(), ServerFault>
    ensures { ListsAll S.Store (W.contents writer.old) (W.contents writer.new) store.old store.new result }
{
    let mut after = ByteStr::new();
    for _ in 0..u64::MAX {
        match list_page(alloc, writer, store, &after) {
            Ok(Some(last)) => after = last,
            Ok(None) => return Ok(()),
            Err(fault) => return Err(fault),
        }
    }
    Err(ServerFault::Untold)
}

/// Lists all invocations of a store, a line each, by ascending ids, and then the end.
pub fn list_store<W: Write, S: Alter + Drop>(
    alloc: Global,
    writer: &mut W,
    store: &mut Store<S>,
) -> Result<(), ServerFault>
    // Page by page, each behind the last id of those before, until one is not full. Nothing is committed.
    ensures { Lists S.Store (W.contents writer.old) (W.contents writer.new) store.old store.new result }
{
    match list_pages(alloc, writer, store) {
        Ok(()) => send(writer, b"end\n"),
        Err(fault) => Err(fault),
    }
}

/// Pages of which the last is not full are all invocations. The function does nothing: its contract is the law.
pub fn pages_are_all()
    ensures { PagesAreAll }
{}
