// What an attempt waits for, as three lists.
ghost use Rattle.std.specs.Prelude.{◌≡◌, ◌++◌, IfOk, OnOk};
ghost use Rattle.protocol_messages.specs.Leaves.{with_leaves, three_lists};

use crate::encode::{RestateEncodableMessage, encode_record};
use crate::leaf_lengths::lists_len;
use bytes::{ByteStr, Bytes};
use protocol_records::{Future, SuspensionMessage, SuspensionMessageV6};
use protocol_stream::{EncodingError, Feature, MessageType, Version};
use sequence::Sequence;
use std::alloc::{AllocError, Global};

fn push_numbers(out: &mut Sequence<u32>, more: &[u32]) -> Result<(), AllocError>
    ensures { OnOk result (out.new ≡ out.old ++ more.now) }
{
    for number in more {
        out.push(*number)?;
    }
    Ok(())
}

fn push_names(out: &mut Sequence<ByteStr>, more: &[ByteStr]) -> Result<(), AllocError>
    ensures { OnOk result (out.new ≡ out.old ++ more.now) }
{
    for name in more {
        out.push(name.clone()?)?;
    }
    Ok(())
}

// Puts the leaves of a tree at the end of the lists: a node's own before those of the nodes in it.
fn push_leaves(future: &Future, lists: &mut SuspensionMessageV6) -> Result<(), AllocError>
    ensures { OnOk result (lists.new ≡ with_leaves lists.old future.now) }
{
    push_numbers(
        &mut lists.waiting_completions,
        future.waiting_completions.as_slice(),
    )?;
    push_numbers(
        &mut lists.waiting_signals,
        future.waiting_signals.as_slice(),
    )?;
    push_names(
        &mut lists.waiting_named_signals,
        future.waiting_named_signals.as_slice(),
    )?;
    for nested in future.nested_futures.as_slice() {
        push_leaves(nested, lists)?;
    }
    Ok(())
}

/// The same suspension as versions before 7 write it: the leaves of its tree in preorder, in a list for each kind.
pub fn to_suspension_v6(
    alloc: Global,
    suspension: &SuspensionMessage,
) -> Result<SuspensionMessageV6, AllocError>
    ensures { IfOk result (λ lists. lists ≡ three_lists suspension.now) }
{
    let mut lists = SuspensionMessageV6 {
        waiting_completions: Sequence::new(alloc),
        waiting_signals: Sequence::new(alloc),
        waiting_named_signals: Sequence::new(alloc),
    };
    if let Some(future) = &suspension.awaiting_on {
        push_leaves(future, &mut lists)?;
    }
    Ok(lists)
}

impl RestateEncodableMessage for SuspensionMessage {
    ghost use Rattle.protocol_messages.specs.Encodings.{suspension_message};

    ghost message_at = { suspension_message };

    fn encode(&self, alloc: Global, version: Version) -> Result<Bytes, EncodingError> {
        if Feature::AwaitTree.is_later_than(version.number()) {
            if lists_len(self) >= 1 << 32 {
                return Err(EncodingError::PayloadTooLong);
            }
            let lists = to_suspension_v6(alloc, self)?;
            encode_record(alloc, MessageType::Suspension, &lists, version)
        } else {
            encode_record(alloc, MessageType::Suspension, self, version)
        }
    }
}
