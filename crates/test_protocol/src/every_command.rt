//! Each command of the table with the record that it is.
use crate::commands::{Question, about};
use crate::every_record::type_named;
use journal_protocol::messages;
use journal_protocol::wire::RecordType;
use std::alloc::Global;

macro_rules! about_in_list {
    ($of:expr, $alloc:expr, $question:expr, $one:expr, $two:expr; $($name:ident $record:ident),*) => {
        match $of {
            $(RecordType::$name => about::<messages::$record>($alloc, $question, $one, $two),)*
            _ => None,
        }
    };
}

/// Answers the question about the commands of the type of this name that two payloads are.
pub fn about_command(
    alloc: Global,
    name: &str,
    question: Question,
    one: &str,
    two: &str,
) -> Option<String> {
    about_in_list!(
        type_named(alloc, name)?, alloc, question, one, two;
        InputCommand InputCommandMessage,
        OutputCommand OutputCommandMessage,
        SleepCommand SleepCommandMessage,
        GetLazyStateCommand GetLazyStateCommandMessage,
        GetLazyStateKeysCommand GetLazyStateKeysCommandMessage,
        GetEagerStateCommand GetEagerStateCommandMessage,
        GetEagerStateKeysCommand GetEagerStateKeysCommandMessage,
        SetStateCommand SetStateCommandMessage,
        ClearStateCommand ClearStateCommandMessage,
        ClearAllStateCommand ClearAllStateCommandMessage,
        GetPromiseCommand GetPromiseCommandMessage,
        PeekPromiseCommand PeekPromiseCommandMessage,
        CompletePromiseCommand CompletePromiseCommandMessage,
        RunCommand RunCommandMessage,
        CallCommand CallCommandMessage,
        OneWayCallCommand OneWayCallCommandMessage,
        SendSignalCommand SendSignalCommandMessage,
        AttachInvocationCommand AttachInvocationCommandMessage,
        GetInvocationOutputCommand GetInvocationOutputCommandMessage,
        CompleteAwakeableCommand CompleteAwakeableCommandMessage
    )
}
