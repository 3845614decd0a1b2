// A node of a flat tree.
ghost use Rattle.std.specs.Prelude.{◌≡◌, ◌<◌, ◌-◌, ◌^◌};
ghost use Rattle.journal_model.specs.AwaitTree.{is_completed};
ghost use Rattle.vm_flat_trees.specs.Counts.{state_meant, no_counts, child_counted, at_least_by, state_by, is_ended, lowered_kind};

use protocol_trees::AwaitState;

/// A leaf over a handle, or how a node combines its children.
#[derive(Clone, Copy, Debug, PartialEq, Eq)]
pub enum Kind {
    Leaf(u32),
    Unknown,
    FirstCompleted,
    AllCompleted,
    FirstSucceededOrAllFailed,
    AllSucceededOrFirstFailed,
    /// So many have to succeed.
    AtLeast(u32),
}

/// How many children of a node have come to what. A leaf counts as one child of itself.
#[derive(Clone, Copy, Debug, PartialEq, Eq)]
pub struct Counts {
    pub pending: usize,
    pub succeeded: usize,
    pub failed: usize,
}

/// A node: its kind, the place of its parent, and its counts.
#[derive(Clone, Copy, Debug, PartialEq, Eq)]
pub struct FlatNode {
    pub kind: Kind,
    pub parent: Option<usize>,
    pub counts: Counts,
}

/// Of a node without children.
pub fn no_counts() -> Counts
    ensures { result ≡ no_counts }
{
    Counts {
        pending: 0,
        succeeded: 0,
        failed: 0,
    }
}

/// Counts one child more, which has come to this.
pub fn counted(state: AwaitState, counts: Counts) -> Counts
    requires pending { counts.pending < 2 ^ 63 }
    requires succeeded { counts.succeeded < 2 ^ 63 }
    requires failed { counts.failed < 2 ^ 63 }
    ensures { result ≡ child_counted (state_meant state) counts }
{
    match state {
        AwaitState::Pending => Counts {
            pending: counts.pending + 1,
            succeeded: counts.succeeded,
            failed: counts.failed,
        },
        AwaitState::Succeeded => Counts {
            pending: counts.pending,
            succeeded: counts.succeeded + 1,
            failed: counts.failed,
        },
        AwaitState::Failed => Counts {
            pending: counts.pending,
            succeeded: counts.succeeded,
            failed: counts.failed + 1,
        },
    }
}

fn by_first(counts: Counts) -> AwaitState
    ensures { state_meant result ≡ state_by Kind.Unknown counts }
{
    if counts.succeeded != 0 {
        AwaitState::Succeeded
    } else if counts.failed != 0 {
        AwaitState::Failed
    } else {
        AwaitState::Pending
    }
}

// Of a node that asks for a number of successes, by how many have succeeded, and how many have not failed.
fn by_number(required: u32, counts: Counts) -> AwaitState
    ensures { state_meant result ≡ at_least_by required counts }
{
    let required = u128::from(required);
    let succeeded = counts.succeeded as u128;
    if required <= succeeded {
        AwaitState::Succeeded
    } else if counts.pending as u128 + succeeded < required {
        AwaitState::Failed
    } else {
        AwaitState::Pending
    }
}

/// What a node has come to, by its counts.
pub fn state_by(kind: Kind, counts: Counts) -> AwaitState
    ensures { state_meant result ≡ state_by kind counts }
{
    match kind {
        Kind::Leaf(_) => by_first(counts),
        Kind::Unknown => by_first(counts),
        Kind::FirstCompleted => by_first(counts),
        Kind::AllCompleted => {
            if counts.pending == 0 {
                AwaitState::Succeeded
            } else {
                AwaitState::Pending
            }
        }
        Kind::FirstSucceededOrAllFailed => {
            if counts.succeeded != 0 {
                AwaitState::Succeeded
            } else if counts.pending == 0 {
                AwaitState::Failed
            } else {
                AwaitState::Pending
            }
        }
        Kind::AllSucceededOrFirstFailed => {
            if counts.failed != 0 {
                AwaitState::Failed
            } else if counts.pending == 0 {
                AwaitState::Succeeded
            } else {
                AwaitState::Pending
            }
        }
        Kind::AtLeast(required) => by_number(required, counts),
    }
}

fn is_completed(state: AwaitState) -> bool
    ensures { result ≡ is_completed (state_meant state) }
{
    !matches!(state, AwaitState::Pending)
}

// A number, less what is counted, or none where that is more.
fn lowered(required: u32, counted: usize) -> u32
    ensures { result ≡ required - counted }
{
    match u32::try_from(counted) {
        Ok(counted) => required.saturating_sub(counted),
        Err(_) => 0,
    }
}

/// How a node combines what is left of its children: a number of successes is lowered by those that have succeeded.
pub fn lowered_kind(kind: Kind, counts: Counts) -> Kind
    ensures { result ≡ lowered_kind kind counts }
{
    match kind {
        Kind::AtLeast(required) => Kind::AtLeast(lowered(required, counts.succeeded)),
        other => other,
    }
}

/// Whether the node has ended, by its counts: by a child at once, or, where it asks for a number, as soon as it is not pending.
pub fn is_ended(kind: Kind, counts: Counts) -> bool
    ensures { result ≡ is_ended kind counts }
{
    match kind {
        Kind::Leaf(_) => false,
        Kind::AllCompleted => false,
        Kind::Unknown => counts.succeeded != 0 || counts.failed != 0,
        Kind::FirstCompleted => counts.succeeded != 0 || counts.failed != 0,
        Kind::FirstSucceededOrAllFailed => counts.succeeded != 0,
        Kind::AllSucceededOrFirstFailed => counts.failed != 0,
        Kind::AtLeast(required) => is_completed(by_number(required, counts)),
    }
}
