// An await that the journal does not answer.
ghost use Rattle.std.specs.Prelude.{◌≡◌, IsPermutation, IsSorted, IsSortedBy, Some, option_copied};
ghost use Rattle.std.specs.Fmt.{WritesOnOk};
ghost use Rattle.std.specs.List.{flat_map};
ghost use Rattle.protocol_errors.specs.Code.{journal_mismatch};
ghost use Rattle.protocol_errors.specs.AwaitedIds.{awaited_id, comes_before};
ghost use Rattle.protocol_errors.specs.Texts.{unreplayed_text, same_awaited, metadata_of, awaited_line, uncompleted_text};

use crate::mismatch::write_mismatch;
use crate::{InvocationErrorCode, NotificationMetadata, WithInvocationErrorCode, codes};
use bytes::ByteStr;
use journal_model::NotificationId;
use std::fmt;

/// An id that is awaited. Completions come before signals, and signals with a number before those with a name.
#[derive(Debug, PartialEq, Eq, PartialOrd, Ord, Drop)]
pub enum AwaitedId {
    CompletionId(u32),
    SignalId(u32),
    SignalName(ByteStr),
}

impl From<NotificationId> for AwaitedId {
    ghost from_gives = { λ id awaited. awaited ≡ awaited_id id };

    fn from(id: NotificationId) -> AwaitedId {
        match id {
            NotificationId::CompletionId(number) => AwaitedId::CompletionId(number),
            NotificationId::SignalId(number) => AwaitedId::SignalId(number),
            NotificationId::SignalName(name) => AwaitedId::SignalName(name),
        }
    }
}

impl fmt::Display for AwaitedId {
    ghost use Rattle.protocol_errors.specs.Texts.{awaited_text};

    ghost output = { λ id. Some (awaited_text id) };

    fn fmt<W: fmt::Write>(&self, f: &mut fmt::Formatter<W>) -> fmt::Result {
        match self {
            AwaitedId::CompletionId(number) => write!(f, "completion id {number}"),
            AwaitedId::SignalId(number) => write!(f, "signal [{number}]"),
            AwaitedId::SignalName(name) => write!(f, "signal '{name}'"),
        }
    }
}

/// An await that is not over although the journal has more commands: it was not there when they were recorded.
#[derive(Debug, Drop)]
pub struct UncompletedDoProgressDuringReplay {
    awaited: Vec<AwaitedId>,
    known: Vec<(AwaitedId, NotificationMetadata)>,
}

impl UncompletedDoProgressDuringReplay {
    /// Of these ids, in whatever order they come, and what is known of some of them.
    pub fn new(
        mut awaited: Vec<AwaitedId>,
        known: Vec<(AwaitedId, NotificationMetadata)>,
    ) -> UncompletedDoProgressDuringReplay
        ensures same { IsPermutation awaited.items result.awaited.items }
        ensures ascending { IsSorted ⟦<AwaitedId as Ord>⟧.cmp result.awaited.items }
        ensures in_order { IsSortedBy comes_before result.awaited.items }
        ensures known { result.known ≡ known }
    {
        awaited.sort_unstable();
        UncompletedDoProgressDuringReplay { awaited, known }
    }
}

// Whether two ids are the same.
#[tactic(auto, unfolding(crate::specs::Texts::same_awaited))]
fn is_same(one: &AwaitedId, two: &AwaitedId) -> bool
    ensures { result ≡ same_awaited one.now two.now }
{
    match (one, two) {
        (AwaitedId::CompletionId(one), AwaitedId::CompletionId(two)) => *one == *two,
        (AwaitedId::SignalId(one), AwaitedId::SignalId(two)) => *one == *two,
        (AwaitedId::SignalName(one), AwaitedId::SignalName(two)) => one == two,
        _ => false,
    }
}

// What is known of an id.
fn metadata_of<'a>(
    known: &'a [(AwaitedId, NotificationMetadata)],
    id: &AwaitedId,
) -> Option<&'a NotificationMetadata>
    ensures { option_copied result ≡ metadata_of id.now known.now }
{
    for pair in known {
        let (one, metadata) = pair;
        if is_same(one, id) {
            return Some(metadata);
        }
    }
    None
}

// Writes a line with what is known of an id, or with the id where nothing is.
fn write_awaited<W: fmt::Write>(
    known: &[(AwaitedId, NotificationMetadata)],
    id: &AwaitedId,
    f: &mut fmt::Formatter<W>,
) -> fmt::Result
    ensures { WritesOnOk W.write_str_gives f.old result (awaited_line known.now id.now) f.new }
{
    match metadata_of(known, id) {
        Some(metadata) => write!(f, "\n - {metadata}"),
        None => write!(f, "\n - {id}"),
    }
}

// Writes the line of each id.
fn write_each<W: fmt::Write>(
    known: &[(AwaitedId, NotificationMetadata)],
    ids: &[AwaitedId],
    f: &mut fmt::Formatter<W>,
) -> fmt::Result
    ensures { WritesOnOk W.write_str_gives f.old result (flat_map (awaited_line known.now) ids.now) f.new }
{
    for id in ids {
        write_awaited(known, id, f)?;
    }
    Ok(())
}

// Writes how the text goes on behind the mismatch's.
#[tactic(auto, unfolding(crate::specs::Texts::unreplayed_text))]
fn write_unreplayed<W: fmt::Write>(f: &mut fmt::Formatter<W>) -> fmt::Result
    ensures { WritesOnOk W.write_str_gives f.old result unreplayed_text f.new }
{
    f.write_str(
        "\n'await' could not be replayed. This usually means the code was mutated adding an 'await' without registering a new service revision.\nNotifications awaited on this await point:",
    )
}

/// Prints a line for each id, in order: what is known of it, or the id where nothing is.
impl fmt::Display for UncompletedDoProgressDuringReplay {
    ghost output = { λ error. Some (uncompleted_text error) };

    fn fmt<W: fmt::Write>(&self, f: &mut fmt::Formatter<W>) -> fmt::Result {
        write_mismatch(f)?;
        write_unreplayed(f)?;
        write_each(self.known.as_slice(), self.awaited.as_slice(), f)
    }
}

impl std::error::Error for UncompletedDoProgressDuringReplay {}

impl WithInvocationErrorCode for UncompletedDoProgressDuringReplay {
    ghost code_of = { λ _. journal_mismatch };

    fn code(&self) -> InvocationErrorCode {
        codes::JOURNAL_MISMATCH
    }
}
