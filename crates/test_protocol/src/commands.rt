//! Rows of commands.
//!
//! - `same TYPE ONE TWO`: whether two commands are header-equal with their payloads, and without.
//! - `differ TYPE ONE TWO`: the code and the text of the error that tells how they differ.
//! - `name TYPE ONE`: the name of a command.
//! - `shown TYPE ONE`: the text of a record that commands hold.
use crate::every_command::about_command;
use crate::every_record::type_named;
use crate::operands::{record, shown};
use crate::typed_errors::error;
use journal_protocol::messages::{Failure, Header, Value};
use journal_protocol::wire::{Record, RecordType};
use journal_protocol::{
    CommandMessageHeaderDiff, CommandMessageHeaderEq, CommandMismatchError, NamedCommandMessage,
};
use std::alloc::Global;

/// What is asked of two commands, or of the first of them.
#[derive(Clone, Copy)]
pub enum Question {
    Same,
    Differ,
    Name,
}

fn is_same<M: CommandMessageHeaderEq>(alloc: Global, one: &M, two: &M) -> Option<String> {
    let with_payloads = one.header_eq(two, false);
    let without = one.header_eq(two, true);
    format!(in alloc; "{with_payloads} {without}").ok()
}

fn name<M: NamedCommandMessage>(alloc: Global, one: &M) -> Option<String> {
    let name = one.name();
    format!(in alloc; "{name:?}").ok()
}

/// Answers the question about the commands that two payloads are.
pub fn about<M: Record + NamedCommandMessage + CommandMessageHeaderDiff>(
    alloc: Global,
    question: Question,
    one: &str,
    two: &str,
) -> Option<String> {
    let one: M = record(alloc, one)?;
    let two: M = record(alloc, two)?;
    let told = match question {
        Question::Same => is_same(alloc, &one, &two),
        Question::Name => name(alloc, &one),
        Question::Differ => return error(alloc, CommandMismatchError::new(3, one, two)),
    };
    drop((one, two));
    told
}

fn record_shown(alloc: Global, name: &str, payload: &str) -> Option<String> {
    match type_named(alloc, name)? {
        RecordType::Value => shown(alloc, record::<Value>(alloc, payload)?),
        RecordType::Header => shown(alloc, record::<Header>(alloc, payload)?),
        RecordType::Failure => shown(alloc, record::<Failure>(alloc, payload)?),
        _ => None,
    }
}

pub fn answer(alloc: Global, operation: &str, operands: &[&str]) -> Option<String> {
    let [name, one, others @ ..] = operands else {
        return None;
    };
    let two = *others.first().unwrap_or(one);
    match operation {
        "same" => about_command(alloc, *name, Question::Same, *one, two),
        "differ" => about_command(alloc, *name, Question::Differ, *one, two),
        "name" => about_command(alloc, *name, Question::Name, *one, two),
        "shown" => record_shown(alloc, *name, *one),
        _ => None,
    }
}
