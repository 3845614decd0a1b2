// How long the payload of a suspension is as three lists, counted on its tree: that takes no memory.
ghost use Rattle.std.specs.Prelude.{◌≡◌, ℕ, List, length};
ghost use Rattle.std.specs.List.{flat_map};
ghost use Rattle.protocol_wire.specs.Spelling.{varint_spelling};
ghost use Rattle.protocol_wire.specs.Parts.{part_spelling, nonempty, repeated_bytes, payload_of};
ghost use Rattle.protocol_wire.specs.Lengths.{counted_bytes};
ghost use Rattle.protocol_table.specs.declared.table.suspension_v6.TheConstants.{WAITING_NAMED_SIGNALS as named_signals};
ghost use Rattle.protocol_records.specs.SuspensionV6.{suspension_v6_parts};
ghost use Rattle.protocol_messages.specs.Leaves.{completions_of, signals_of, named_signals_of, three_lists};

use protocol_records::{Future, SuspensionMessage};
use protocol_wire::table::suspension_v6::{
    WAITING_COMPLETIONS, WAITING_NAMED_SIGNALS, WAITING_SIGNALS,
};
use protocol_wire::{FieldDescriptor, len_present_u32, len_tagged_bytes, len_texts};

/// The bytes of the leaves of each kind: of the numbers alone, of the names with their tags and lengths.
///
/// A count that 64 bits don't hold stays at their last.
#[derive(Clone, Copy)]
struct LeafLengths {
    completions: u64,
    signals: u64,
    named_signals: u64,
}

// What is left of a field without its tag, which is one byte.
fn len_number(number: u32) -> u64
    ensures { result ≡ length (varint_spelling number) }
{
    len_present_u32(0, WAITING_COMPLETIONS, number).saturating_sub(1)
}

#[tactic(auto, using(protocol_wire::proofs::Lengths::counted_more))]
fn count_numbers(before: u64, numbers: &[u32]) -> u64
    ensures { result ≡ counted_bytes before (flat_map varint_spelling numbers.now) }
{
    let mut len = before;
    for number in numbers {
        len = len.saturating_add(len_number(*number));
    }
    len
}

fn count_leaves(future: &Future, lengths: &mut LeafLengths)
    ensures completions { lengths.new.completions ≡ counted_bytes lengths.old.completions (flat_map varint_spelling (completions_of future.now)) }
    ensures signals { lengths.new.signals ≡ counted_bytes lengths.old.signals (flat_map varint_spelling (signals_of future.now)) }
    ensures named_signals { lengths.new.named_signals ≡ counted_bytes lengths.old.named_signals (part_spelling (repeated_bytes named_signals.number (named_signals_of future.now))) }
{
    lengths.completions = count_numbers(lengths.completions, future.waiting_completions.as_slice());
    lengths.signals = count_numbers(lengths.signals, future.waiting_signals.as_slice());
    lengths.named_signals = len_texts(
        lengths.named_signals,
        WAITING_NAMED_SIGNALS,
        &future.waiting_named_signals,
    );
    for nested in future.nested_futures.as_slice() {
        count_leaves(nested, lengths);
    }
}

// The field that these bytes are packed into, left out where there is none.
fn len_packed(before: u64, field: FieldDescriptor, count: u64) -> u64
    ensures { (bs : List ℕ) → count ≡ counted_bytes 0 bs → result ≡ counted_bytes before (part_spelling (field.number, nonempty bs)) }
{
    if count == 0 {
        return before;
    }
    len_tagged_bytes(before, field, count)
}

fn leaf_lengths(suspension: &SuspensionMessage) -> LeafLengths
    ensures completions { result.completions ≡ counted_bytes 0 (flat_map varint_spelling (three_lists suspension.now).waiting_completions) }
    ensures signals { result.signals ≡ counted_bytes 0 (flat_map varint_spelling (three_lists suspension.now).waiting_signals) }
    ensures named_signals { result.named_signals ≡ counted_bytes 0 (part_spelling (repeated_bytes named_signals.number (three_lists suspension.now).waiting_named_signals)) }
{
    let mut lengths = LeafLengths {
        completions: 0,
        signals: 0,
        named_signals: 0,
    };
    if let Some(future) = &suspension.awaiting_on {
        count_leaves(future, &mut lengths);
    }
    lengths
}

/// How long the canonical spelling of the three lists is; a length that 64 bits don't hold is given as their last.
pub(crate) fn lists_len(suspension: &SuspensionMessage) -> u64
    ensures { result ≡ counted_bytes 0 (payload_of (suspension_v6_parts (three_lists suspension.now))) }
{
    let lengths = leaf_lengths(suspension);
    let len = len_packed(0, WAITING_COMPLETIONS, lengths.completions);
    let len = len_packed(len, WAITING_SIGNALS, lengths.signals);
    len.saturating_add(lengths.named_signals)
}
