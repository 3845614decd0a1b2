// The children that a cancellation is passed on to: which calls bring one.
ghost use Rattle.std.specs.Prelude.{◌≡◌, OnOk, IfOk, IfErr};
ghost use Rattle.vm_calls.specs.Active.{asking, IsAtCommand, TakesCompletion, LacksCompletions};
ghost use Rattle.vm_calls.specs.declared.call_error.NumberError.TheVariants.{IdsExhausted};
ghost use Rattle.vm_waiting.specs.TrackedChildren.{tracks_calls, tracks_sends, children_kept, Tracks};

use bytes::ByteStr;
use journal_model::{ImplicitCancellationOption, NotificationHandle};
use protocol_types::MessageType;
use std::alloc::AllocError;
use vm_calls::{Active, Children, NumberError};

/// Whether a cancellation is passed on to those that are called.
pub(crate) fn tracks_calls(cancellation: ImplicitCancellationOption) -> bool
    ensures { result ≡ tracks_calls cancellation }
{
    match cancellation {
        ImplicitCancellationOption::Disabled => false,
        ImplicitCancellationOption::Enabled {
            cancel_children_calls,
            ..
        } => cancel_children_calls,
    }
}

/// Whether a cancellation is passed on to those that are called without waiting for their answers.
pub(crate) fn tracks_sends(cancellation: ImplicitCancellationOption) -> bool
    ensures { result ≡ tracks_sends cancellation }
{
    match cancellation {
        ImplicitCancellationOption::Disabled => false,
        ImplicitCancellationOption::Enabled {
            cancel_children_one_way_calls,
            ..
        } => cancel_children_one_way_calls,
    }
}

/// Keeps the child whose invocation id this completion gives, where it is tracked.
pub(crate) fn keep_child(
    children: &mut Children,
    tracked: bool,
    completion: u32,
) -> Result<(), AllocError>
    ensures { OnOk result (children.new ≡ children_kept tracked completion children.old) }
{
    if tracked {
        return children.push(completion);
    }
    Ok(())
}

/// Begins a call of one completion, as `Active::begin`, that gives the invocation id of what is called.
pub(crate) fn begin_tracked(
    active: &mut Active,
    tracked: bool,
    ty: MessageType,
    name: ByteStr,
) -> Result<(ByteStr, u32, NotificationHandle), NumberError>
    ensures name { IfOk result (λ taken. taken.0 ≡ name) }
    ensures taken { IfOk result (λ taken. Tracks tracked taken.1 (TakesCompletion (taken.1, taken.2) (asking ty name active.old)) active.new) }
    ensures err { IfErr result (λ error. error ≡ IdsExhausted → LacksCompletions 1 active.old) }
    ensures output { active.new.output ≡ active.old.output }
    ensures told { IsAtCommand ty name active.old.journal active.new.journal }
{
    let (name, id, handle) = active.begin(ty, name)?;
    match keep_child(&mut active.children, tracked, id) {
        Ok(()) => Ok((name, id, handle)),
        Err(_) => {
            drop(name);
            Err(NumberError::OutOfMemory)
        }
    }
}
