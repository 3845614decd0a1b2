//! What is recorded, as it is asked for. A question leaves the tables as they were. Where they hold records of which one at most
//! has the key, that one is found, and no row is foreign. What is answered was asked of an open connection, so questions in turn
//! are all about the same tables.

ghost use Rattle.std.specs.Prelude.{◌≡◌, ℕ, Bool, List, filter, IfErr, IfOk};
ghost use Rattle.std.specs.List.Sorted.{IsPermutation};
ghost use Rattle.sqlite.specs.Held.{state};
ghost use Rattle.sqlite.specs.State.{HasCleanDisk};
ghost use Rattle.sqlite.specs.Values.{bound};
ghost use Rattle.sqlite_keyed.specs.Lists.{sort_by};
ghost use Rattle.store_tables.specs.Asks.{AreTold, AsksRows, AsksFirst, AsksInOrder, by_cells};
ghost use Rattle.store_tables.specs.Looks.{OnlyAsks};
ghost use Rattle.sql_tables.specs.Statements.{IsFirst};
ghost use Rattle.store_tables.specs.Questions.{AreArrivals, AreAwake, AreFound, AreNoArrivals, IsAmbiguous, IsFound, IsJournal, IsNoJournal, answers, asks_for, asks_second_for, has_id, is_arrival_at, is_at_key, is_at_place, is_awake, is_of_object, is_open_of};
ghost use Rattle.store_tables.specs.Orders.{AreAlike, AreArrangedIds, AreDue, IsArranged, IsFirstSleep, IsNextInvocation, IsUnarranged};
ghost use Rattle.store_tables.specs.Records.{Holds, Records};
ghost use Rattle.store_tables.specs.Steps.{WasAsked};
ghost use Rattle.store_tables.specs.Tables.{store_schema};
ghost use Rattle.sql_tables.specs.Causes.{IsReadable, TellsReadCause};

use crate::order::{are_in_place, do_ids_ascend, do_states_ascend};
use crate::row::{EntryRow, IdRow, InvocationRow, SleepRow, StateRow};
use crate::tables::StoreTables;
use bytes::{ByteStr, Bytes};
use sql_tables::cell::{blob, flag, long, short, text};
use sql_tables::read::ReadError;
use sql_tables::stored::{Stored, all_by, one_by};
use sqlite::Alter;
use sqlite::types::ValueRef;

/// The record that a statement asks for, where there is one.
fn find_one<R: Stored, S: Alter>(
    tables: &mut StoreTables<S>,
    sql: &str,
    params: &[ValueRef<'_>],
) -> Result<Option<R>, ReadError>
    ensures found { HasCleanDisk (state S.Store tables.new) → IfOk result (λ o. (records : Records → List R) (test : R → Bool) → AsksRows R.Stored.cells R.Stored.fits records test sql.now (bound params.now) (state S.Store tables.old) → IsFound records test (state S.Store tables.old).now.trees o) }
    ensures foreign { HasCleanDisk (state S.Store tables.new) → IfErr result (λ e. e ≡ ReadError.Foreign → (records : Records → List R) (test : R → Bool) → AsksRows R.Stored.cells R.Stored.fits records test sql.now (bound params.now) (state S.Store tables.old) → IsAmbiguous records test (state S.Store tables.old).now.trees) }
    ensures looks { OnlyAsks S.Store tables.old tables.new }
    ensures cause { IsReadable store_schema sql.now (bound params.now) → IfErr result (TellsReadCause (state S.Store tables.old) (state S.Store tables.new)) }
    ensures open { HasCleanDisk (state S.Store tables.new) → WasAsked result (state S.Store tables.old) }
{
    one_by(tables.alloc, &mut tables.connection, sql, params)
}

/// The records that a statement asks for, in the order of some of their cells.
fn find_all<R: Stored, S: Alter>(
    tables: &mut StoreTables<S>,
    sql: &str,
    params: &[ValueRef<'_>],
) -> Result<Vec<R>, ReadError>
    ensures found { HasCleanDisk (state S.Store tables.new) → IfOk result (λ xs. (records : Records → List R) (test : R → Bool) → AsksRows R.Stored.cells R.Stored.fits records test sql.now (bound params.now) (state S.Store tables.old) → (r : Records) → Holds (state S.Store tables.old).now.trees r → IsPermutation (filter test (records r)) xs.items) }
    ensures arranged { HasCleanDisk (state S.Store tables.new) → IfOk result (λ xs. (records : Records → List R) (test : R → Bool) (order : List ℕ) → AsksInOrder R.Stored.cells R.Stored.fits records test order sql.now (bound params.now) (state S.Store tables.old) → (r : Records) → Holds (state S.Store tables.old).now.trees r → (zs : List R) → IsPermutation (filter test (records r)) zs → AreTold R.Stored.cells order zs → xs.items ≡ sort_by (by_cells R.Stored.cells order) zs) }
    ensures foreign { HasCleanDisk (state S.Store tables.new) → IfErr result (λ e. e ≡ ReadError.Foreign → (records : Records → List R) (test : R → Bool) (order : List ℕ) → AsksInOrder R.Stored.cells R.Stored.fits records test order sql.now (bound params.now) (state S.Store tables.old) → (r : Records) → Holds (state S.Store tables.old).now.trees r → (zs : List R) → IsPermutation (filter test (records r)) zs → AreTold R.Stored.cells order zs → ⊥) }
    ensures looks { OnlyAsks S.Store tables.old tables.new }
    ensures cause { IsReadable store_schema sql.now (bound params.now) → IfErr result (TellsReadCause (state S.Store tables.old) (state S.Store tables.new)) }
    ensures open { HasCleanDisk (state S.Store tables.new) → WasAsked result (state S.Store tables.old) }
{
    all_by(tables.alloc, &mut tables.connection, sql, params)
}

/// The record that a statement asks for that wants only the first, in the order of some of its cells.
fn find_first<R: Stored, S: Alter>(
    tables: &mut StoreTables<S>,
    sql: &str,
    params: &[ValueRef<'_>],
) -> Result<Option<R>, ReadError>
    ensures found { HasCleanDisk (state S.Store tables.new) → IfOk result (λ o. (records : Records → List R) (test : R → Bool) (order : List ℕ) → AsksFirst R.Stored.cells R.Stored.fits records test order sql.now (bound params.now) (state S.Store tables.old) → (r : Records) → Holds (state S.Store tables.old).now.trees r → IsFirst (by_cells R.Stored.cells order) (filter test (records r)) o) }
    ensures foreign { HasCleanDisk (state S.Store tables.new) → IfErr result (λ e. e ≡ ReadError.Foreign → (records : Records → List R) (test : R → Bool) (order : List ℕ) → AsksFirst R.Stored.cells R.Stored.fits records test order sql.now (bound params.now) (state S.Store tables.old) → (r : Records) → Holds (state S.Store tables.old).now.trees r → ⊥) }
    ensures looks { OnlyAsks S.Store tables.old tables.new }
    ensures cause { IsReadable store_schema sql.now (bound params.now) → IfErr result (TellsReadCause (state S.Store tables.old) (state S.Store tables.new)) }
    ensures open { HasCleanDisk (state S.Store tables.new) → WasAsked result (state S.Store tables.old) }
{
    one_by(tables.alloc, &mut tables.connection, sql, params)
}

/// The invocation of that id.
pub fn invocation_by_id<S: Alter>(
    tables: &mut StoreTables<S>,
    id: &ByteStr,
) -> Result<Option<InvocationRow>, ReadError>
    ensures found { HasCleanDisk (state S.Store tables.new) → IfOk result (IsFound (λ r. r.invocations) (has_id id.now) (state S.Store tables.old).now.trees) }
    ensures foreign { HasCleanDisk (state S.Store tables.new) → IfErr result (λ e. e ≡ ReadError.Foreign → IsAmbiguous (λ r. r.invocations) (has_id id.now) (state S.Store tables.old).now.trees) }
    ensures looks { OnlyAsks S.Store tables.old tables.new }
    ensures cause { IfErr result (TellsReadCause (state S.Store tables.old) (state S.Store tables.new)) }
    ensures open { HasCleanDisk (state S.Store tables.new) → WasAsked result (state S.Store tables.old) }
{
    find_one(
        tables,
        "SELECT * FROM invocation WHERE id = ?1",
        &[text(id)],
    )
}

/// The open invocation of an object.
pub fn open_invocation<S: Alter>(
    tables: &mut StoreTables<S>,
    object: &ByteStr,
) -> Result<Option<InvocationRow>, ReadError>
    ensures found { HasCleanDisk (state S.Store tables.new) → IfOk result (IsFound (λ r. r.invocations) (is_open_of object.now) (state S.Store tables.old).now.trees) }
    ensures foreign { HasCleanDisk (state S.Store tables.new) → IfErr result (λ e. e ≡ ReadError.Foreign → IsAmbiguous (λ r. r.invocations) (is_open_of object.now) (state S.Store tables.old).now.trees) }
    ensures looks { OnlyAsks S.Store tables.old tables.new }
    ensures cause { IfErr result (TellsReadCause (state S.Store tables.old) (state S.Store tables.new)) }
    ensures open { HasCleanDisk (state S.Store tables.new) → WasAsked result (state S.Store tables.old) }
{
    find_one(
        tables,
        "SELECT * FROM invocation WHERE open_object = ?1",
        &[text(object)],
    )
}

/// The ids of the invocations of which an attempt may go on, in order. No other column of theirs is read.
pub fn awake_id_rows<S: Alter>(tables: &mut StoreTables<S>) -> Result<Vec<IdRow>, ReadError>
    ensures found { HasCleanDisk (state S.Store tables.new) → IfOk result (λ ids. AreAwake (state S.Store tables.old).now.trees ids.items) }
    ensures arranged { HasCleanDisk (state S.Store tables.new) → IfOk result (λ ids. AreArrangedIds (state S.Store tables.old).now.trees ids.items) }
    ensures foreign { HasCleanDisk (state S.Store tables.new) → IfErr result (λ e. e ≡ ReadError.Foreign → IsUnarranged (λ r. r.invocations) is_awake (λ i. i.id) (state S.Store tables.old).now.trees) }
    ensures looks { OnlyAsks S.Store tables.old tables.new }
    ensures cause { IfErr result (TellsReadCause (state S.Store tables.old) (state S.Store tables.new)) }
    ensures open { HasCleanDisk (state S.Store tables.new) → WasAsked result (state S.Store tables.old) }
{
    let records: Vec<IdRow> = find_all(
        tables,
        "SELECT id FROM invocation WHERE awake = ?1 ORDER BY id",
        &[flag(true)],
    )?;
    if !do_ids_ascend(records.as_slice()) {
        return Err(ReadError::Foreign);
    }
    Ok(records)
}

/// The invocation with the least id.
pub fn first_invocation<S: Alter>(
    tables: &mut StoreTables<S>,
) -> Result<Option<InvocationRow>, ReadError>
    ensures found { HasCleanDisk (state S.Store tables.new) → IfOk result (IsNextInvocation None (state S.Store tables.old).now.trees) }
    ensures foreign { HasCleanDisk (state S.Store tables.new) → IfErr result (λ e. e ≡ ReadError.Foreign → (r : Records) → Holds (state S.Store tables.old).now.trees r → ⊥) }
    ensures looks { OnlyAsks S.Store tables.old tables.new }
    ensures cause { IfErr result (TellsReadCause (state S.Store tables.old) (state S.Store tables.new)) }
    ensures open { HasCleanDisk (state S.Store tables.new) → WasAsked result (state S.Store tables.old) }
{
    find_first(tables, "SELECT * FROM invocation ORDER BY id LIMIT 1", &[])
}

/// The invocation with the least of the ids above one, which need not be there.
pub fn invocation_after<S: Alter>(
    tables: &mut StoreTables<S>,
    id: &ByteStr,
) -> Result<Option<InvocationRow>, ReadError>
    ensures found { HasCleanDisk (state S.Store tables.new) → IfOk result (IsNextInvocation (Some id.now) (state S.Store tables.old).now.trees) }
    ensures foreign { HasCleanDisk (state S.Store tables.new) → IfErr result (λ e. e ≡ ReadError.Foreign → (r : Records) → Holds (state S.Store tables.old).now.trees r → ⊥) }
    ensures looks { OnlyAsks S.Store tables.old tables.new }
    ensures cause { IfErr result (TellsReadCause (state S.Store tables.old) (state S.Store tables.new)) }
    ensures open { HasCleanDisk (state S.Store tables.new) → WasAsked result (state S.Store tables.old) }
{
    find_first(
        tables,
        "SELECT * FROM invocation WHERE id > ?1 ORDER BY id LIMIT 1",
        &[text(id)],
    )
}

/// The entry at a place, the input at 0.
pub fn entry_at<S: Alter>(
    tables: &mut StoreTables<S>,
    invocation: &ByteStr,
    place: u32,
) -> Result<Option<EntryRow>, ReadError>
    ensures found { HasCleanDisk (state S.Store tables.new) → IfOk result (IsFound (λ r. r.entries) (is_at_place invocation.now place) (state S.Store tables.old).now.trees) }
    ensures foreign { HasCleanDisk (state S.Store tables.new) → IfErr result (λ e. e ≡ ReadError.Foreign → IsAmbiguous (λ r. r.entries) (is_at_place invocation.now place) (state S.Store tables.old).now.trees) }
    ensures looks { OnlyAsks S.Store tables.old tables.new }
    ensures cause { IfErr result (TellsReadCause (state S.Store tables.old) (state S.Store tables.new)) }
    ensures open { HasCleanDisk (state S.Store tables.new) → WasAsked result (state S.Store tables.old) }
{
    find_one(
        tables,
        "SELECT * FROM entry WHERE invocation = ?1 AND place = ?2",
        &[text(invocation), short(place)],
    )
}

/// The request that asks for a completion as its first.
pub fn entry_by_completion<S: Alter>(
    tables: &mut StoreTables<S>,
    invocation: &ByteStr,
    completion: u32,
) -> Result<Option<EntryRow>, ReadError>
    ensures found { HasCleanDisk (state S.Store tables.new) → IfOk result (IsFound (λ r. r.entries) (asks_for invocation.now completion) (state S.Store tables.old).now.trees) }
    ensures foreign { HasCleanDisk (state S.Store tables.new) → IfErr result (λ e. e ≡ ReadError.Foreign → IsAmbiguous (λ r. r.entries) (asks_for invocation.now completion) (state S.Store tables.old).now.trees) }
    ensures looks { OnlyAsks S.Store tables.old tables.new }
    ensures cause { IfErr result (TellsReadCause (state S.Store tables.old) (state S.Store tables.new)) }
    ensures open { HasCleanDisk (state S.Store tables.new) → WasAsked result (state S.Store tables.old) }
{
    find_one(
        tables,
        "SELECT * FROM entry WHERE invocation = ?1 AND completion = ?2",
        &[text(invocation), short(completion)],
    )
}

/// The request that asks for a completion as its second.
pub fn entry_by_second_completion<S: Alter>(
    tables: &mut StoreTables<S>,
    invocation: &ByteStr,
    completion: u32,
) -> Result<Option<EntryRow>, ReadError>
    ensures found { HasCleanDisk (state S.Store tables.new) → IfOk result (IsFound (λ r. r.entries) (asks_second_for invocation.now completion) (state S.Store tables.old).now.trees) }
    ensures foreign { HasCleanDisk (state S.Store tables.new) → IfErr result (λ e. e ≡ ReadError.Foreign → IsAmbiguous (λ r. r.entries) (asks_second_for invocation.now completion) (state S.Store tables.old).now.trees) }
    ensures looks { OnlyAsks S.Store tables.old tables.new }
    ensures cause { IfErr result (TellsReadCause (state S.Store tables.old) (state S.Store tables.new)) }
    ensures open { HasCleanDisk (state S.Store tables.new) → WasAsked result (state S.Store tables.old) }
{
    find_one(
        tables,
        "SELECT * FROM entry WHERE invocation = ?1 AND second_completion = ?2",
        &[text(invocation), short(completion)],
    )
}

/// The arrival that answers a completion.
pub fn entry_by_answered<S: Alter>(
    tables: &mut StoreTables<S>,
    invocation: &ByteStr,
    completion: u32,
) -> Result<Option<EntryRow>, ReadError>
    ensures found { HasCleanDisk (state S.Store tables.new) → IfOk result (IsFound (λ r. r.entries) (answers invocation.now completion) (state S.Store tables.old).now.trees) }
    ensures foreign { HasCleanDisk (state S.Store tables.new) → IfErr result (λ e. e ≡ ReadError.Foreign → IsAmbiguous (λ r. r.entries) (answers invocation.now completion) (state S.Store tables.old).now.trees) }
    ensures looks { OnlyAsks S.Store tables.old tables.new }
    ensures cause { IfErr result (TellsReadCause (state S.Store tables.old) (state S.Store tables.new)) }
    ensures open { HasCleanDisk (state S.Store tables.new) → WasAsked result (state S.Store tables.old) }
{
    find_one(
        tables,
        "SELECT * FROM entry WHERE invocation = ?1 AND answered = ?2",
        &[text(invocation), short(completion)],
    )
}

/// The arrival with an ordinal, the first one at 1.
pub fn arrival_at<S: Alter>(
    tables: &mut StoreTables<S>,
    invocation: &ByteStr,
    ordinal: u32,
) -> Result<Option<EntryRow>, ReadError>
    ensures found { HasCleanDisk (state S.Store tables.new) → IfOk result (IsFound (λ r. r.entries) (is_arrival_at invocation.now ordinal) (state S.Store tables.old).now.trees) }
    ensures foreign { HasCleanDisk (state S.Store tables.new) → IfErr result (λ e. e ≡ ReadError.Foreign → IsAmbiguous (λ r. r.entries) (is_arrival_at invocation.now ordinal) (state S.Store tables.old).now.trees) }
    ensures looks { OnlyAsks S.Store tables.old tables.new }
    ensures cause { IfErr result (TellsReadCause (state S.Store tables.old) (state S.Store tables.new)) }
    ensures open { HasCleanDisk (state S.Store tables.new) → WasAsked result (state S.Store tables.old) }
{
    find_one(
        tables,
        "SELECT * FROM entry WHERE invocation = ?1 AND arrival = ?2",
        &[text(invocation), short(ordinal)],
    )
}

/// The arrivals behind so many, in the order in which they came.
pub fn arrivals_after<S: Alter>(
    tables: &mut StoreTables<S>,
    invocation: &ByteStr,
    ordinal: u32,
) -> Result<Vec<EntryRow>, ReadError>
    ensures found { HasCleanDisk (state S.Store tables.new) → IfOk result (λ es. AreArrivals invocation.now ordinal (state S.Store tables.old).now.trees es.items) }
    ensures foreign { HasCleanDisk (state S.Store tables.new) → IfErr result (λ e. e ≡ ReadError.Foreign → AreNoArrivals invocation.now ordinal (state S.Store tables.old).now.trees) }
    ensures looks { OnlyAsks S.Store tables.old tables.new }
    ensures cause { IfErr result (TellsReadCause (state S.Store tables.old) (state S.Store tables.new)) }
    ensures open { HasCleanDisk (state S.Store tables.new) → WasAsked result (state S.Store tables.old) }
{
    find_all(
        tables,
        "SELECT * FROM entry WHERE invocation = ?1 AND arrival > ?2 ORDER BY arrival",
        &[text(invocation), short(ordinal)],
    )
}

/// The journal of an invocation, by place, where its places count up from 0.
pub fn journal<S: Alter>(
    tables: &mut StoreTables<S>,
    invocation: &ByteStr,
) -> Result<Vec<EntryRow>, ReadError>
    ensures found { HasCleanDisk (state S.Store tables.new) → IfOk result (λ es. IsJournal invocation.now (state S.Store tables.old).now.trees es.items) }
    ensures foreign { HasCleanDisk (state S.Store tables.new) → IfErr result (λ e. e ≡ ReadError.Foreign → IsNoJournal invocation.now (state S.Store tables.old).now.trees) }
    ensures looks { OnlyAsks S.Store tables.old tables.new }
    ensures cause { IfErr result (TellsReadCause (state S.Store tables.old) (state S.Store tables.new)) }
    ensures open { HasCleanDisk (state S.Store tables.new) → WasAsked result (state S.Store tables.old) }
{
    let records: Vec<EntryRow> = find_all(
        tables,
        "SELECT * FROM entry WHERE invocation = ?1 ORDER BY place",
        &[text(invocation)],
    )?;
    if !are_in_place(records.as_slice()) {
        return Err(ReadError::Foreign);
    }
    Ok(records)
}

/// The value that an object has for a key.
pub fn state_at<S: Alter>(
    tables: &mut StoreTables<S>,
    object: &ByteStr,
    key: &Bytes,
) -> Result<Option<StateRow>, ReadError>
    ensures found { HasCleanDisk (state S.Store tables.new) → IfOk result (IsFound (λ r. r.states) (is_at_key object.now key.now) (state S.Store tables.old).now.trees) }
    ensures foreign { HasCleanDisk (state S.Store tables.new) → IfErr result (λ e. e ≡ ReadError.Foreign → IsAmbiguous (λ r. r.states) (is_at_key object.now key.now) (state S.Store tables.old).now.trees) }
    ensures looks { OnlyAsks S.Store tables.old tables.new }
    ensures cause { IfErr result (TellsReadCause (state S.Store tables.old) (state S.Store tables.new)) }
    ensures open { HasCleanDisk (state S.Store tables.new) → WasAsked result (state S.Store tables.old) }
{
    find_one(
        tables,
        "SELECT * FROM state WHERE object = ?1 AND key = ?2",
        &[text(object), blob(key)],
    )
}

/// The state of an object, in the order of the bytes of its keys.
pub fn states_of<S: Alter>(
    tables: &mut StoreTables<S>,
    object: &ByteStr,
) -> Result<Vec<StateRow>, ReadError>
    ensures found { HasCleanDisk (state S.Store tables.new) → IfOk result (λ es. AreFound (λ r. r.states) (is_of_object object.now) (λ s. s.key) (state S.Store tables.old).now.trees es.items) }
    ensures arranged { HasCleanDisk (state S.Store tables.new) → IfOk result (λ es. IsArranged (λ r. r.states) (is_of_object object.now) (λ s. s.key) (state S.Store tables.old).now.trees es.items) }
    ensures foreign { HasCleanDisk (state S.Store tables.new) → IfErr result (λ e. e ≡ ReadError.Foreign → IsUnarranged (λ r. r.states) (is_of_object object.now) (λ s. s.key) (state S.Store tables.old).now.trees) }
    ensures looks { OnlyAsks S.Store tables.old tables.new }
    ensures cause { IfErr result (TellsReadCause (state S.Store tables.old) (state S.Store tables.new)) }
    ensures open { HasCleanDisk (state S.Store tables.new) → WasAsked result (state S.Store tables.old) }
{
    let records: Vec<StateRow> = find_all(
        tables,
        "SELECT * FROM state WHERE object = ?1 ORDER BY key",
        &[text(object)],
    )?;
    if !do_states_ascend(records.as_slice()) {
        return Err(ReadError::Foreign);
    }
    Ok(records)
}

/// The sleeps that end at a moment or before it, those of an invocation side by side, by moment, and of one moment by completion.
pub fn sleeps_until<S: Alter>(
    tables: &mut StoreTables<S>,
    moment: u64,
) -> Result<Vec<SleepRow>, ReadError>
    ensures found { HasCleanDisk (state S.Store tables.new) → IfOk result (λ ss. AreDue moment (state S.Store tables.old).now.trees ss.items) }
    ensures foreign { HasCleanDisk (state S.Store tables.new) → IfErr result (λ e. e ≡ ReadError.Foreign → AreAlike moment (state S.Store tables.old).now.trees) }
    ensures looks { OnlyAsks S.Store tables.old tables.new }
    ensures cause { IfErr result (TellsReadCause (state S.Store tables.old) (state S.Store tables.new)) }
    ensures open { HasCleanDisk (state S.Store tables.new) → WasAsked result (state S.Store tables.old) }
{
    find_all(
        tables,
        "SELECT * FROM sleep WHERE moment <= ?1 ORDER BY invocation, moment, completion",
        &[long(moment)],
    )
}

/// The sleep that ends first of those that end at a moment or after it.
pub fn first_sleep<S: Alter>(
    tables: &mut StoreTables<S>,
    moment: u64,
) -> Result<Option<SleepRow>, ReadError>
    ensures found { HasCleanDisk (state S.Store tables.new) → IfOk result (IsFirstSleep moment (state S.Store tables.old).now.trees) }
    ensures foreign { HasCleanDisk (state S.Store tables.new) → IfErr result (λ e. e ≡ ReadError.Foreign → (r : Records) → Holds (state S.Store tables.old).now.trees r → ⊥) }
    ensures looks { OnlyAsks S.Store tables.old tables.new }
    ensures cause { IfErr result (TellsReadCause (state S.Store tables.old) (state S.Store tables.new)) }
    ensures open { HasCleanDisk (state S.Store tables.new) → WasAsked result (state S.Store tables.old) }
{
    find_first(
        tables,
        "SELECT * FROM sleep WHERE moment >= ?1 ORDER BY moment LIMIT 1",
        &[long(moment)],
    )
}
