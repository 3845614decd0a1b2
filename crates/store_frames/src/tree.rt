// The canonical payload of the tree that a suspension waits for.
ghost use Rattle.std.specs.List.{list_any};
ghost use Rattle.std.specs.Prelude.{◌≡◌, ◌++◌, ℕ, IfOk, OnOk};
ghost use Rattle.journal_model.specs.AwaitTree.{asks_number, has_number};
ghost use Rattle.journal_model.specs.Spelling.{bytes_field, combinator_number, future_payload, required_by, suspension_payload};
ghost use Rattle.protocol_trees.specs.Shape.{shape_combinator};
ghost use Rattle.protocol_trees.specs.Future.{shape_in, future_tree};

use bytes::Bytes;
use protocol_records::{CombinatorType, Future};
use protocol_wire::table::future::{
    COMBINATOR_TYPE, NESTED_FUTURES, REQUIRED, WAITING_COMPLETIONS, WAITING_NAMED_SIGNALS,
    WAITING_SIGNALS,
};
use protocol_wire::table::suspension::AWAITING_ON;
use protocol_wire::{put_numbers, put_tagged_bytes, put_texts, put_u32};
use std::alloc::{AllocError, Global};

// The number of what a combinator means: one that has no name is unknown.
fn meant_number(combinator: CombinatorType) -> u32
    ensures { (required : ℕ) → result ≡ combinator_number (shape_combinator (shape_in combinator required)) }
{
    match combinator {
        CombinatorType::Other(_) => CombinatorType::Unknown.number(),
        CombinatorType::Unknown
        | CombinatorType::FirstCompleted
        | CombinatorType::AllCompleted
        | CombinatorType::FirstSucceededOrAllFailed
        | CombinatorType::AllSucceededOrFirstFailed
        | CombinatorType::AtLeastSucceeded => combinator.number(),
    }
}

// How many successes a tree asks for: a record may tell a number that none of its combinators asks for.
fn meant_required(combinator: CombinatorType, required: u32) -> u32
    ensures { result ≡ required_by (shape_combinator (shape_in combinator required)) }
{
    if matches!(combinator, CombinatorType::AtLeastSucceeded) {
        required
    } else {
        0
    }
}

fn asks_number(combinator: CombinatorType) -> bool
    ensures { (required : ℕ) → result ≡ asks_number (shape_combinator (shape_in combinator required)) }
{
    matches!(combinator, CombinatorType::AtLeastSucceeded)
}

/// Whether some node of a future's tree asks for a number of successes.
#[cycle(asking)]
pub(crate) fn has_number(one: &Future) -> bool
    ensures { result ≡ has_number (future_tree one.now) }
{
    asks_number(one.combinator_type) || some_has_number(one.nested_futures.as_slice())
}

#[cycle(asking)]
fn some_has_number(nested: &[Future]) -> bool
    ensures { result ≡ list_any (λ one. has_number (future_tree one)) nested.now }
{
    for one in nested {
        if has_number(one) {
            return true;
        }
    }
    false
}

// A record would keep the number of a combinator that has no name; a tree does not.
fn spell_tree(alloc: Global, one: &Future, out: &mut Vec<u8>) -> Result<(), AllocError>
    ensures { OnOk result (out.new.items ≡ out.old.items ++ future_payload (future_tree one.now)) }
{
    put_numbers(alloc, out, WAITING_COMPLETIONS, &one.waiting_completions)?;
    put_numbers(alloc, out, WAITING_SIGNALS, &one.waiting_signals)?;
    put_texts(out, WAITING_NAMED_SIGNALS, &one.waiting_named_signals)?;
    for nested in one.nested_futures.as_slice() {
        let mut inner = Vec::new(alloc);
        spell_tree(alloc, nested, &mut inner)?;
        put_tagged_bytes(out, NESTED_FUTURES, &inner)?;
    }
    put_u32(out, COMBINATOR_TYPE, meant_number(one.combinator_type))?;
    let required = meant_required(one.combinator_type, one.required);
    put_u32(out, REQUIRED, required)?;
    Ok(())
}

// Puts the field of a suspension's tree, whose payload is this.
fn put_tree(out: &mut Vec<u8>, tree: &[u8]) -> Result<(), AllocError>
    ensures { OnOk result (out.new.items ≡ out.old.items ++ bytes_field 1 tree.now) }
{
    put_tagged_bytes(out, AWAITING_ON, tree)?;
    Ok(())
}

/// The canonical payload of a suspension that waits for the tree of a future.
pub(crate) fn tree_payload(alloc: Global, awaited: &Future) -> Result<Bytes, AllocError>
    ensures { IfOk result (λ payload. payload ≡ suspension_payload (future_tree awaited.now)) }
{
    let mut tree = Vec::new(alloc);
    spell_tree(alloc, awaited, &mut tree)?;
    let mut out = Vec::new(alloc);
    put_tree(&mut out, &tree)?;
    Ok(Bytes::from_vec(out)?)
}
