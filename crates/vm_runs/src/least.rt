// The least handle of what is awaited.
ghost use Rattle.std.specs.Prelude.{◌≡◌};
ghost use Rattle.journal_model.specs.Future.{tree_of};
ghost use Rattle.vm_runs.specs.Runs.{IsLeast, is_awaited, lesser};

use crate::run::Run;
use crate::table::has_run;
use journal_model::UnresolvedFuture;
use std::collections::BTreeMap;
use vm_flat_trees::opening::{Opened, open};

fn lesser(one: Option<u32>, other: Option<u32>) -> Option<u32>
    ensures { result ≡ lesser one other }
{
    match (one, other) {
        (Some(one), Some(other)) => Some(one.min(other)),
        (Some(one), None) => Some(one),
        (None, other) => other,
    }
}

/// The least handle of a future whose run is being executed, or is to be.
pub fn least_awaited(
    executing: bool,
    table: &BTreeMap<u32, Run>,
    awaited: &UnresolvedFuture,
) -> Option<u32>
    ensures { IsLeast (is_awaited executing table.now.entries (tree_of awaited.now)) result }
{
    match open(awaited) {
        Opened::Leaf(handle) => {
            if has_run(executing, table, handle.number()) {
                Some(handle.number())
            } else {
                None
            }
        }
        Opened::Node(_, children) => {
            let mut least = None;
            for child in children {
                least = lesser(least, least_awaited(executing, table, child));
            }
            least
        }
    }
}
