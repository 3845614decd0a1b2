//! The sleeps that are due, those of an invocation side by side, as one group an invocation.

ghost use Rattle.std.specs.Prelude.{◌≡◌, ◌∷◌, [], map, IfOk, OnOk};
ghost use Rattle.store_arrivals.specs.Groups.{grouped, put_first};
ghost use Rattle.store_arrivals.specs.SleepGroups.{as_group, is_first, groups_joined};

use bytes::ByteStr;
use std::alloc::{AllocError, Global};
use std::collections::VecDeque;
use store_tables::SleepRow;

/// The sleeps of an invocation that a tick ends, by their completions in order.
#[derive(Debug, Drop)]
pub struct SleepGroup {
    pub invocation: ByteStr,
    pub completions: VecDeque<u32>,
}

fn alone(alloc: Global, invocation: ByteStr, completion: u32) -> Result<SleepGroup, AllocError>
    ensures { IfOk result (λ group. as_group group ≡ (invocation, completion ∷ [])) }
{
    let mut completions = VecDeque::new(alloc);
    completions.push_front(completion)?;
    Ok(SleepGroup {
        invocation,
        completions,
    })
}

/// Whether the first group is that of this invocation.
fn is_first_of(groups: &VecDeque<SleepGroup>, invocation: &ByteStr) -> bool
    ensures { result ≡ is_first invocation.now (map as_group groups.now.items) }
{
    match groups.front() {
        Some(first) => first.invocation == *invocation,
        None => false,
    }
}

/// One more sleep of the first group.
fn join_first(groups: &mut VecDeque<SleepGroup>, completion: u32) -> Result<(), AllocError>
    ensures { OnOk result (map as_group groups.new.items ≡ groups_joined completion (map as_group groups.old.items)) }
{
    if let Some(first) = groups.front_mut() {
        first.completions.push_front(completion)?;
    }
    Ok(())
}

/// A sleep before those that are grouped.
fn put_first(
    alloc: Global,
    groups: &mut VecDeque<SleepGroup>,
    row: SleepRow,
) -> Result<(), AllocError>
    ensures { OnOk result (map as_group groups.new.items ≡ put_first row (map as_group groups.old.items)) }
{
    let SleepRow {
        moment: _,
        invocation,
        completion,
    } = row;
    let joins = is_first_of(groups, &invocation);
    if joins {
        drop(invocation);
        join_first(groups, completion)
    } else {
        groups.push_front(alone(alloc, invocation, completion)?)?;
        Ok(())
    }
}

/// The groups of sleeps that are in order.
pub fn groups_of(alloc: Global, mut rows: Vec<SleepRow>) -> Result<VecDeque<SleepGroup>, AllocError>
    ensures { IfOk result (λ groups. map as_group groups.items ≡ grouped rows.items) }
{
    let mut groups = VecDeque::new(alloc);
    while let Some(row) = rows.pop() {
        put_first(alloc, &mut groups, row)?;
    }
    Ok(groups)
}
