// What is known of the children that a cancellation is passed on to.
ghost use Rattle.std.specs.Prelude.{◌≡◌, ◌++◌, [], IfOk, OnOk, option_map};
ghost use Rattle.std.specs.Option.{option_copied};
ghost use Rattle.journal_model.specs.Value.{as_taken};
ghost use Rattle.attempt_model.specs.Children.{AreIds, child_value, children_state, with_child};
ghost use Rattle.vm_awaits.specs.Views.{results_of, ready_of};
ghost use Rattle.vm_awaits.specs.Children.{child_told};
ghost use Rattle.vm_waiting.specs.ChildCancellation.{state_as, LooksFor, id_in, with_id, ids_known};

use crate::taking::is_id;
use bytes::ByteStr;
use journal_model::NotificationResult;
use std::alloc::{AllocError, Global};
use vm_awaits::AsyncResultsState;
use vm_calls::Children;

/// What is known of all children, in their order.
#[derive(Clone, Copy, Debug, PartialEq, Eq)]
pub enum ChildrenKnown {
    /// Each has its invocation id.
    AllIds,
    /// Of the first that has none, by its completion, nothing has come.
    Unknown(u32),
    /// Of the first that has none something else has come.
    NoId,
}

// What is known of one of which nothing was taken.
fn known_by(brought: Option<&NotificationResult>, completion: u32) -> ChildrenKnown
    ensures { state_as result ≡ with_child (option_map as_taken (option_copied brought.entry)) completion AreIds }
{
    match brought {
        None => ChildrenKnown::Unknown(completion),
        Some(brought) => {
            if is_id(brought) {
                return ChildrenKnown::AllIds;
            }
            ChildrenKnown::NoId
        }
    }
}

// What is known of one of them.
fn known_of(results: &AsyncResultsState, completion: u32, taken: Option<&ByteStr>) -> ChildrenKnown
    ensures { state_as result ≡ with_child (child_value (ready_of results.now) (child_told (completion, option_copied taken.entry))) completion AreIds }
{
    match taken {
        Some(_) => ChildrenKnown::AllIds,
        None => known_by(results.value_of_child(completion), completion),
    }
}

fn children_known(children: &Children, results: &AsyncResultsState) -> ChildrenKnown
    ensures { state_as result ≡ children_state (ready_of results.now) children.now }
{
    for place in 0..children.len() {
        if let Some((completion, taken)) = children.get(place) {
            match known_of(results, completion, taken) {
                ChildrenKnown::AllIds => {}
                ChildrenKnown::Unknown(unknown) => return ChildrenKnown::Unknown(unknown),
                ChildrenKnown::NoId => return ChildrenKnown::NoId,
            }
        }
    }
    ChildrenKnown::AllIds
}

/// Looks at one notification a step, until all children are known, or nothing stands in line.
pub(crate) fn look_for_children(
    children: &Children,
    results: &mut AsyncResultsState,
) -> Result<ChildrenKnown, AllocError>
    ensures { IfOk result (λ known. LooksFor children.now (results_of results.old) known (results_of results.new)) }
{
    'steps: loop {
        match children_known(children, results) {
            ChildrenKnown::AllIds => return Ok(ChildrenKnown::AllIds),
            ChildrenKnown::NoId => return Ok(ChildrenKnown::NoId),
            ChildrenKnown::Unknown(completion) => {
                if !results.look_at_one()? {
                    return Ok(ChildrenKnown::Unknown(completion));
                }
            }
        }
    }
}

fn id_by(brought: Option<&NotificationResult>) -> Option<&ByteStr>
    ensures { option_copied result ≡ id_in (option_map as_taken (option_copied brought.entry)) }
{
    match brought? {
        NotificationResult::InvocationId(id) => Some(id),
        NotificationResult::Void => None,
        NotificationResult::Value(_) => None,
        NotificationResult::Failure(_) => None,
        NotificationResult::StateKeys(_) => None,
    }
}

// The invocation id of one of them, if it is known.
fn id_of<'a>(
    results: &'a AsyncResultsState,
    completion: u32,
    taken: Option<&'a ByteStr>,
) -> Option<&'a ByteStr>
    ensures { option_copied result ≡ id_in (child_value (ready_of results.now) (child_told (completion, option_copied taken.entry))) }
{
    match taken {
        Some(id) => Some(id),
        None => id_by(results.value_of_child(completion)),
    }
}

// One id more, where it is known.
fn push_id(ids: &mut Vec<ByteStr>, id: Option<&ByteStr>) -> Result<(), AllocError>
    ensures { OnOk result (ids.new.items ≡ ids.old.items ++ with_id (option_copied id.entry) []) }
{
    match id {
        Some(id) => {
            ids.push(id.clone()?)?;
            Ok(())
        }
        None => Ok(()),
    }
}

/// The invocation ids of the children, in their order.
pub(crate) fn ids_of(
    alloc: Global,
    children: &Children,
    results: &AsyncResultsState,
) -> Result<Vec<ByteStr>, AllocError>
    ensures { IfOk result (λ ids. ids.items ≡ ids_known (ready_of results.now) children.now) }
{
    let mut ids = Vec::new(alloc);
    for place in 0..children.len() {
        if let Some((completion, taken)) = children.get(place) {
            push_id(&mut ids, id_of(results, completion, taken))?;
        }
    }
    Ok(ids)
}
