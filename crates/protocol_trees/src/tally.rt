// What the children of a node have come to, one after another.
ghost use Rattle.std.specs.Prelude.{◌≡◌};
ghost use Rattle.journal_model.specs.AwaitTree.{is_completed, is_succeeded, is_failed, ends_at_once};
ghost use Rattle.protocol_trees.specs.Shape.{state_meant, shape_combinator};
ghost use Rattle.protocol_trees.specs.Tally.{first_ended_state, less, required_of, no_tally, added, looked_in, state_in, has_ended_in};

use crate::tree::{AwaitState, AwaitTreeShape};

/// What a tree has come to, and whether some node in it has ended at once.
#[derive(Clone, Copy, Debug)]
pub(crate) struct Looked {
    pub state: AwaitState,
    pub has_ended: bool,
}

/// What the children so far have come to.
#[derive(Clone, Copy, Debug)]
pub(crate) struct Tally {
    pub first_completed: AwaitState,
    pub is_one_succeeded: bool,
    pub is_one_failed: bool,
    pub are_all_completed: bool,
    pub are_all_succeeded: bool,
    pub are_all_failed: bool,
    /// How many successes are missing of those that are required, and how many children that have not failed.
    pub missing: u32,
    pub lacking: u32,
    pub has_ended: bool,
}

fn first_of(first: AwaitState, next: AwaitState) -> AwaitState
    ensures { result ≡ first_ended_state first next }
{
    match first {
        AwaitState::Pending => next,
        AwaitState::Succeeded => AwaitState::Succeeded,
        AwaitState::Failed => AwaitState::Failed,
    }
}

fn is_succeeded(state: AwaitState) -> bool
    ensures { result ≡ is_succeeded (state_meant state) }
{
    matches!(state, AwaitState::Succeeded)
}

fn is_failed(state: AwaitState) -> bool
    ensures { result ≡ is_failed (state_meant state) }
{
    matches!(state, AwaitState::Failed)
}

pub(crate) fn is_completed(state: AwaitState) -> bool
    ensures { result ≡ is_completed (state_meant state) }
{
    !matches!(state, AwaitState::Pending)
}

// Whether a child of this state ends a node at once, whatever its other children do.
fn ends_at_once(shape: AwaitTreeShape, state: AwaitState) -> bool
    ensures { result ≡ ends_at_once (shape_combinator shape) (state_meant state) }
{
    match shape {
        AwaitTreeShape::AllCompleted => false,
        AwaitTreeShape::AtLeast(_) => false,
        AwaitTreeShape::FirstSucceededOrAllFailed => is_succeeded(state),
        AwaitTreeShape::AllSucceededOrFirstFailed => is_failed(state),
        AwaitTreeShape::Single | AwaitTreeShape::FirstCompleted | AwaitTreeShape::Unknown =>
            is_completed(state),
    }
}

// How many successes a node of this shape asks for.
fn required_of(shape: AwaitTreeShape) -> u32
    ensures { result ≡ required_of shape }
{
    match shape {
        AwaitTreeShape::AtLeast(required) => required,
        _ => 0,
    }
}

// One less, where this holds.
fn less(number: u32, holds: bool) -> u32
    ensures { result ≡ less number holds }
{
    if holds {
        number.saturating_sub(1)
    } else {
        number
    }
}

impl Tally {
    /// No child yet.
    pub(crate) fn new(shape: AwaitTreeShape) -> Tally
        ensures { result ≡ no_tally shape }
    {
        Tally {
            first_completed: AwaitState::Pending,
            is_one_succeeded: false,
            is_one_failed: false,
            are_all_completed: true,
            are_all_succeeded: true,
            are_all_failed: true,
            missing: required_of(shape),
            lacking: required_of(shape),
            has_ended: false,
        }
    }

    /// One child more.
    pub(crate) fn with(self, shape: AwaitTreeShape, one: Looked) -> Tally
        ensures { result ≡ added shape self one }
    {
        let succeeded = is_succeeded(one.state);
        let failed = is_failed(one.state);
        Tally {
            first_completed: first_of(self.first_completed, one.state),
            is_one_succeeded: self.is_one_succeeded | succeeded,
            is_one_failed: self.is_one_failed | failed,
            are_all_completed: self.are_all_completed & is_completed(one.state),
            are_all_succeeded: self.are_all_succeeded & succeeded,
            are_all_failed: self.are_all_failed & failed,
            missing: less(self.missing, succeeded),
            lacking: less(self.lacking, !failed),
            has_ended: self.has_ended | (ends_at_once(shape, one.state) | one.has_ended),
        }
    }

    // The state of a node of this shape over these children.
    fn state(&self, shape: AwaitTreeShape) -> AwaitState
        ensures { result ≡ state_in shape self.now }
    {
        match shape {
            AwaitTreeShape::AllCompleted if self.are_all_completed => AwaitState::Succeeded,
            AwaitTreeShape::AllCompleted => AwaitState::Pending,
            AwaitTreeShape::FirstSucceededOrAllFailed if self.is_one_succeeded =>
                AwaitState::Succeeded,
            AwaitTreeShape::FirstSucceededOrAllFailed if self.are_all_failed => AwaitState::Failed,
            AwaitTreeShape::FirstSucceededOrAllFailed => AwaitState::Pending,
            AwaitTreeShape::AllSucceededOrFirstFailed if self.is_one_failed => AwaitState::Failed,
            AwaitTreeShape::AllSucceededOrFirstFailed if self.are_all_succeeded =>
                AwaitState::Succeeded,
            AwaitTreeShape::AllSucceededOrFirstFailed => AwaitState::Pending,
            AwaitTreeShape::AtLeast(_) if self.missing == 0 => AwaitState::Succeeded,
            AwaitTreeShape::AtLeast(_) if self.lacking == 0 => AwaitState::Pending,
            AwaitTreeShape::AtLeast(_) => AwaitState::Failed,
            AwaitTreeShape::Single | AwaitTreeShape::FirstCompleted | AwaitTreeShape::Unknown =>
                self.first_completed,
        }
    }

    fn has_ended(&self, shape: AwaitTreeShape) -> bool
        ensures { result ≡ has_ended_in shape self.now }
    {
        match shape {
            AwaitTreeShape::Single => false,
            AwaitTreeShape::AtLeast(_) => is_completed(self.state(shape)) | self.has_ended,
            _ => self.has_ended,
        }
    }

    /// What a node of this shape has come to over these children.
    pub(crate) fn looked(&self, shape: AwaitTreeShape) -> Looked
        ensures { result ≡ looked_in shape self.now }
    {
        Looked {
            state: self.state(shape),
            has_ended: self.has_ended(shape),
        }
    }
}
