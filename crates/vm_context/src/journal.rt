// Which command of the journal an attempt is at, and which ids are next.
ghost use Rattle.std.specs.Prelude.{◌≡◌, ◌+◌, ◌-◌, ◌^◌, ◌<◌, ◌≤◌, ◌↔◌, ◌-ℤ◌, pos, min, true, IsErr, IfOk, OnOk, OnErr};
ghost use Rattle.vm_context.specs.Journal.{no_commands, more_commands, after_command, after_completions, after_signal, after_skip, name_told, has_name, command_told, copies_name};
ghost use Rattle.protocol_differences.specs.declared.relationship.CommandRelationship.TheVariants as related;

use crate::IdsExhausted;
use bytes::ByteStr;
use protocol_differences::{CommandMetadata, CommandRelationship};
use protocol_stream::MessageType;
use std::alloc::AllocError;
use std::marker::Model;

/// Counts an attempt's commands, and the ids of its completions and of its awakeables' signals.
///
/// The index of a command counts from 0, and is -1 before the first; completions count from 1. Signals count from 17, since
/// those up to 16 are reserved.
#[derive(Debug, Drop)]
pub struct Journal {
    commands: u64,
    /// The ids that were taken last.
    last_completion: u32,
    last_signal: u32,
    last_type: MessageType,
    last_name: ByteStr,
}

impl Model for Journal {
    ghost use Rattle.std.specs.Prelude.{◌+◌, ◌^◌, ◌<◌};
    ghost use Rattle.vm_context.specs.Journal.{JournalCounts};

    ghost Value = { JournalCounts };

    ghost view = { λ journal. record {
      commands = journal.commands;
      completions = journal.last_completion + 1;
      signals = journal.last_signal + 1;
      last_type = journal.last_type;
      last_name = journal.last_name;
    } };

    ghost invariant = { λ journal. journal.commands < 2 ^ 63 };
}

// So many commands, and so many more.
fn count_more(commands: u64, more: u32) -> u64
    ensures { result ≡ more_commands commands more }
{
    commands
        .saturating_add(u64::from(more))
        .min(i64::MAX as u64)
}

// An index, or the greatest that 32 bits hold.
fn to_index(index: u64) -> u32
    ensures { result ≡ min index (2 ^ 32 - 1) }
{
    u32::try_from(index).unwrap_or(u32::MAX)
}

// A copy of a name that is not empty.
fn copy_name(name: &ByteStr) -> Result<Option<ByteStr>, AllocError>
    ensures told { IfOk result (λ told. told ≡ name_told name.now) }
    ensures memory { OnErr result (has_name name.now ≡ true) }
{
    if name.is_empty() {
        return Ok(None);
    }
    Ok(Some(name.clone()?))
}

// The id behind this one.
fn id_behind(last: u32) -> Result<u32, IdsExhausted>
    ensures id { IfOk result (λ id. id ≡ last + 1) }
    ensures exhausted { IsErr result ↔ (2 ^ 32 ≤ last + 1) }
{
    last.checked_add(1).ok_or(IdsExhausted)
}

impl Journal {
    /// Before the first command.
    pub fn new() -> Journal
        ensures { result ≡ no_commands }
    {
        Journal {
            commands: 0,
            last_completion: 0,
            last_signal: 16,
            last_type: MessageType::Start,
            last_name: ByteStr::new(),
        }
    }

    /// The index of the last command, and -1 before the first. Past the greatest of 63 bits it stays there.
    pub fn command_index(&self) -> i64
        ensures { result ≡ pos self.now.commands -ℤ pos 1 }
    {
        self.commands as i64 - 1
    }

    /// A command of this type and name is asked for. What is no command is told in errors, and not counted.
    pub fn transition(&mut self, ty: MessageType, name: ByteStr)
        ensures { self.new ≡ after_command ty name self.old }
    {
        if ty.is_command() {
            self.commands = count_more(self.commands, 1);
        }
        self.last_type = ty;
        self.last_name = name;
    }

    /// Whether no completion id is left behind so many more.
    pub fn lacks_completions(&self, behind: u32) -> bool
        ensures { (result ≡ true) ↔ (2 ^ 32 ≤ self.now.completions + behind) }
    {
        u64::from(self.last_completion) + u64::from(behind) >= u64::from(u32::MAX)
    }

    /// Whether no id of an awakeable's signal is left.
    pub fn lacks_signal(&self) -> bool
        ensures { (result ≡ true) ↔ (2 ^ 32 ≤ self.now.signals) }
    {
        self.last_signal == u32::MAX
    }

    /// Takes the next completion id.
    pub fn next_completion_notification_id(&mut self) -> Result<u32, IdsExhausted>
        ensures id { IfOk result (λ id. id ≡ self.old.completions) }
        ensures ok { OnOk result (self.new ≡ after_completions 1 self.old) }
        ensures exhausted { IsErr result ↔ (2 ^ 32 ≤ self.old.completions) }
        ensures err { OnErr result (self.new ≡ self.old) }
    {
        let id = id_behind(self.last_completion)?;
        self.last_completion = id;
        Ok(id)
    }

    /// Takes the next two completion ids, or none where there are not two.
    pub fn next_two_completion_notification_ids(&mut self) -> Result<(u32, u32), IdsExhausted>
        ensures ids { IfOk result (λ ids. (ids.0 ≡ self.old.completions) × (ids.1 ≡ self.old.completions + 1)) }
        ensures ok { OnOk result (self.new ≡ after_completions 2 self.old) }
        ensures exhausted { IsErr result ↔ (2 ^ 32 ≤ self.old.completions + 1) }
        ensures err { OnErr result (self.new ≡ self.old) }
    {
        let first = id_behind(self.last_completion)?;
        let second = id_behind(first)?;
        self.last_completion = second;
        Ok((first, second))
    }

    /// Takes the next id of an awakeable's signal.
    pub fn next_signal_notification_id(&mut self) -> Result<u32, IdsExhausted>
        ensures id { IfOk result (λ id. id ≡ self.old.signals) }
        ensures ok { OnOk result (self.new ≡ after_signal self.old) }
        ensures exhausted { IsErr result ↔ (2 ^ 32 ≤ self.old.signals) }
        ensures err { OnErr result (self.new ≡ self.old) }
    {
        let id = id_behind(self.last_signal)?;
        self.last_signal = id;
        Ok(id)
    }

    /// Goes past so many recorded commands that are not matched. The ids that follow were taken by none of them, since a
    /// command takes two completions at most; where there are no such ids, none is left.
    pub fn skip_to(&mut self, skipped: u32)
        ensures { self.new ≡ after_skip skipped self.old }
    {
        self.commands = count_more(self.commands, skipped);
        self.last_completion = self
            .last_completion
            .saturating_add(skipped)
            .saturating_add(skipped);
    }

    /// The command that an error is about. Memory is asked for the copy of the last one's name alone.
    pub fn resolve_related_command(
        &self,
        relationship: CommandRelationship,
    ) -> Result<CommandMetadata, AllocError>
        ensures told { IfOk result (λ told. told ≡ command_told self.now relationship) }
        ensures memory { OnErr result (copies_name self.now relationship ≡ true) }
    {
        match relationship {
            CommandRelationship::Last => self.last_command_metadata(),
            CommandRelationship::Next { ty, name } => Ok(CommandMetadata {
                index: to_index(self.commands.saturating_sub(1) + 1),
                ty: ty.into(),
                name,
            }),
            CommandRelationship::Specific {
                command_index,
                ty,
                name,
            } => Ok(CommandMetadata {
                index: command_index,
                ty: ty.into(),
                name,
            }),
        }
    }

    /// The last command, as an error names it: index 0 and type `Start` where there was none.
    pub fn last_command_metadata(&self) -> Result<CommandMetadata, AllocError>
        ensures told { IfOk result (λ told. told ≡ command_told self.now related.Last) }
        ensures memory { OnErr result (has_name self.now.last_name ≡ true) }
    {
        Ok(CommandMetadata {
            index: to_index(self.commands.saturating_sub(1)),
            ty: self.last_type,
            name: copy_name(&self.last_name)?,
        })
    }
}
