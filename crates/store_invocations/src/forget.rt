//! What makes invocations forgotten.

ghost use Rattle.std.specs.Prelude.{◌≡◌, ◌++◌, List, IfErr, IfOk, OnOk};
ghost use Rattle.sqlite.specs.Held.{state};
ghost use Rattle.sqlite.specs.State.{HasCleanDisk};
ghost use Rattle.journal_model.specs.Event.{Event};
ghost use Rattle.journal_model.specs.Forgetting.{forget_tests};
ghost use Rattle.store_tables.specs.Looks.{OnlyAsks};
ghost use Rattle.store_refusals.specs.Causes.{TellsCause};
ghost use Rattle.store_refusals.specs.Forgetting.{forget_tests_of_all};
ghost use Rattle.store_invocations.specs.ForgottenRows.{forgetting_writes, forgetting_writes_of_all};
ghost use Rattle.store_invocations.specs.Rows.{Decides, IsStoreOf};

use crate::progress::is_open;
use bytes::ByteStr;
use sqlite::Alter;
use std::alloc::{AllocError, Global};
use store_refusals::{Cause, Refusal};
use store_tables::{StoreTables, Write};

/// What removes the rows of one: its own, those of its journal, and those of its sleeps. A closed one has none of the last, but nothing
/// has to be known of that.
fn add_removal(id: &ByteStr, writes: &mut Vec<Write>) -> Result<(), AllocError>
    ensures { OnOk result (writes.new.items ≡ writes.old.items ++ forgetting_writes id.now) }
{
    let own = id.clone()?;
    writes.push(Write::DropInvocation { id: own })?;
    let invocation = id.clone()?;
    writes.push(Write::DropEntries { invocation })?;
    let sleeper = id.clone()?;
    writes.push(Write::CloseSleeps {
        invocation: sleeper,
    })?;
    Ok(())
}

/// An invocation is known, and closed.
fn find_closed<S: Alter>(tables: &mut StoreTables<S>, id: &ByteStr) -> Result<(), Refusal>
    ensures decided { HasCleanDisk (state S.Store tables.new) → (events : List Event) → IsStoreOf events (state S.Store tables.old) → Decides (forget_tests events id.now) (λ _. Unit {0}) result }
    ensures looks { OnlyAsks S.Store tables.old tables.new }
    ensures cause { IfErr result (TellsCause (state S.Store tables.old) (state S.Store tables.new)) }
{
    let busy = is_open(tables, id)?;
    if busy {
        return Err(Refusal::Cause(Cause::ObjectBusy));
    }
    Ok(())
}

/// What removes the rows of a closed invocation.
fn forget_one<S: Alter>(
    tables: &mut StoreTables<S>,
    id: &ByteStr,
    writes: &mut Vec<Write>,
) -> Result<(), Refusal>
    ensures made { OnOk result (writes.new.items ≡ writes.old.items ++ forgetting_writes id.now) }
    ensures decided { HasCleanDisk (state S.Store tables.new) → (events : List Event) → IsStoreOf events (state S.Store tables.old) → Decides (forget_tests events id.now) (λ _. Unit {0}) result }
    ensures looks { OnlyAsks S.Store tables.old tables.new }
    ensures cause { IfErr result (TellsCause (state S.Store tables.old) (state S.Store tables.new)) }
{
    find_closed(tables, id)?;
    add_removal(id, writes)?;
    Ok(())
}

/// What is written to forget these invocations, or why none of them is: the first that is open or not known tells.
pub fn prepare_forget<S: Alter>(
    tables: &mut StoreTables<S>,
    ids: &[ByteStr],
) -> Result<Vec<Write>, Refusal>
    ensures made { IfOk result (λ writes. writes.items ≡ forgetting_writes_of_all ids.now) }
    ensures decided { HasCleanDisk (state S.Store tables.new) → (events : List Event) → IsStoreOf events (state S.Store tables.old) → Decides (forget_tests_of_all events ids.now) (λ _. Unit {0}) result }
    ensures looks { OnlyAsks S.Store tables.old tables.new }
    ensures cause { IfErr result (TellsCause (state S.Store tables.old) (state S.Store tables.new)) }
{
    let mut writes = Vec::new(tables.alloc());
    for id in ids {
        forget_one(tables, id, &mut writes)?;
    }
    Ok(writes)
}
