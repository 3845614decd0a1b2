//! What a machine is told, and what is asked of itself. `new REQUEST WORD ..` with the options that are not as they are by default:
//! `overwrite` for signals, `fresh` for a journal that is not replayed, `stays` where a cancellation ends no await, `sends` where it
//! is passed on to what was sent and not to what was called, `silent` where the machine is not told what is waited for, `always` where
//! it is told that also beside a run, `unchecked` where payloads are not compared, `pauses` and `fails` where a journal that does not
//! match asks for a pause and for the end; any other word changes nothing. `in HEX`, `close`, `fail CODE`, `out`, `head`, `state`,
//! `index`, `ready`.
use crate::answers::{debug, done, failed};
use crate::operands::{byte_str, bytes};
use crate::requests::{Unreadable, headers};
use bytes::ByteStr;
use invocation_vm::{
    AwaitingOnPolicy, Error, ImplicitCancellationOption, InvocationErrorCode,
    JournalMismatchRetryBehavior, JournalReplay, NonDeterministicChecksOption, SignalDelivery,
    State, VM, VMOptions, VMResult,
};
use std::alloc::Global;
use test_rows::{Hex, number, told};

fn choose_journal(options: &mut VMOptions, word: &str) {
    match word {
        "fresh" => options.journal_replay = JournalReplay::Disabled,
        "unchecked" => {
            options.non_determinism_checks = NonDeterministicChecksOption::PayloadChecksDisabled;
        }
        "pauses" => options.journal_mismatch_retry_behavior = JournalMismatchRetryBehavior::Pause,
        "fails" => {
            options.journal_mismatch_retry_behavior = JournalMismatchRetryBehavior::FailTerminally;
        }
        _ => {}
    }
}

fn choose_waiting(options: &mut VMOptions, word: &str) {
    match word {
        "overwrite" => options.signal_delivery = SignalDelivery::Overwrite,
        "stays" => options.implicit_cancellation = ImplicitCancellationOption::Disabled,
        "sends" => {
            options.implicit_cancellation = ImplicitCancellationOption::Enabled {
                cancel_children_calls: false,
                cancel_children_one_way_calls: true,
            };
        }
        "silent" => options.awaiting_on_policy = AwaitingOnPolicy::DontSend,
        "always" => options.awaiting_on_policy = AwaitingOnPolicy::SendAlways,
        _ => {}
    }
}

/// The options that words name.
pub fn options(words: &[&str]) -> VMOptions {
    let mut options = VMOptions::default();
    for word in words {
        choose_journal(&mut options, *word);
        choose_waiting(&mut options, *word);
    }
    options
}

fn begin_readable<V: VM>(alloc: Global, request: &str, words: &[&str]) -> Option<VMResult<V>> {
    let headers = headers(alloc, request)?;
    let made = V::new(alloc, &headers, options(words));
    drop(headers);
    Some(made)
}

/// A machine as it is asked for, or what refuses it.
pub fn begin<V: VM>(alloc: Global, operands: &[&str]) -> Option<VMResult<V>> {
    match operands {
        ["unreadable", words @ ..] => Some(V::new(alloc, &Unreadable, options(words))),
        [request, words @ ..] => begin_readable(alloc, *request, words),
        [] => None,
    }
}

fn come<V: VM>(alloc: Global, vm: &mut V, operand: &str) -> Option<String> {
    vm.notify_input(bytes(alloc, operand)?);
    debug(alloc, vm.state())
}

fn close<V: VM>(alloc: Global, vm: &mut V) -> Option<String> {
    vm.notify_input_closed();
    debug(alloc, vm.state())
}

fn fail<V: VM>(alloc: Global, vm: &mut V, code: &str) -> Option<String> {
    let code = u16::try_from(number(code)?).ok()?;
    let error = Error::new(
        InvocationErrorCode::new(code),
        ByteStr::from_static("failed"),
    );
    vm.notify_error(error, None);
    debug(alloc, vm.state())
}

fn out<V: VM>(alloc: Global, vm: &mut V) -> Option<String> {
    let bytes = vm.take_output().ok()?;
    format!(in alloc; "{}", Hex(bytes.as_slice())).ok()
}

fn head<V: VM>(alloc: Global, vm: &V) -> Option<String> {
    match vm.get_response_head() {
        Ok(head) => debug(alloc, head),
        Err(error) => failed(alloc, error),
    }
}

fn ready<V: VM>(alloc: Global, vm: &V) -> Option<String> {
    match vm.is_ready_to_execute() {
        Ok(ready) => debug(alloc, ready),
        Err(error) => failed(alloc, error),
    }
}

pub fn answer<V: VM>(alloc: Global, vm: &mut V, call: &str, operands: &[&str]) -> Option<String> {
    match operands {
        [] => match call {
            "close" => close(alloc, vm),
            "out" => out(alloc, vm),
            "head" => head(alloc, vm),
            "state" => debug(alloc, vm.state()),
            "index" => debug(alloc, vm.last_command_index()),
            "ready" => ready(alloc, vm),
            "end" => done(alloc, vm.sys_end()),
            _ => None,
        },
        [operand] if call == "in" => come(alloc, vm, *operand),
        [code] if call == "fail" => fail(alloc, vm, *code),
        _ => None,
    }
}
