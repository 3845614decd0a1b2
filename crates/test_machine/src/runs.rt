//! Runs: `run NAME`, `propose HANDLE END POLICY ..`, where an attempt at the body of a run has ended so, and `retries COUNT MILLIS POLICY
//! ..`, what becomes of a run that has failed so often and for so long, with the interval in nanoseconds. Ends and policies are spelled as
//! in `endings`.
use crate::answers::{debug, done, failed};
use crate::endings::{exit, millis, policy};
use crate::operands::byte_str;
use invocation_vm::retries::next_retry;
use invocation_vm::{EntryRetryInfo, NextRetry, NotificationHandle, VM};
use std::alloc::Global;
use test_rows::{number, told};

fn run<V: VM>(alloc: Global, vm: &mut V, name: &str) -> Option<String> {
    match vm.sys_run(byte_str(alloc, name)?) {
        Ok(run) => debug(alloc, run),
        Err(error) => failed(alloc, error),
    }
}

fn propose<V: VM>(
    alloc: Global,
    vm: &mut V,
    handle: &str,
    end: &str,
    words: &[&str],
) -> Option<String> {
    let handle = NotificationHandle::from(number(handle)?);
    let policy = policy(words)?;
    let end = exit(alloc, end)?;
    done(alloc, vm.propose_run_completion(handle, end, policy))
}

fn retry(alloc: Global, next: NextRetry) -> Option<String> {
    match next {
        NextRetry::Retry(Some(interval)) => {
            let nanos = interval.as_nanos();
            format!(in alloc; "retries after {nanos}").ok()
        }
        NextRetry::Retry(None) => told(alloc, "retries"),
        NextRetry::FailAsTerminal => told(alloc, "fails"),
        NextRetry::Pause => told(alloc, "pauses"),
    }
}

/// What becomes of a run that has failed.
pub fn retries(alloc: Global, operands: &[&str]) -> Option<String> {
    let [count, took, words @ ..] = operands else {
        return None;
    };
    let info = EntryRetryInfo {
        retry_count: number(*count)?,
        retry_loop_duration: millis(*took)?,
    };
    retry(alloc, next_retry(&policy(words)?, info))
}

pub fn answer<V: VM>(alloc: Global, vm: &mut V, call: &str, operands: &[&str]) -> Option<String> {
    match operands {
        [name] if call == "run" => run(alloc, vm, *name),
        [handle, end, words @ ..] if call == "propose" => {
            propose(alloc, vm, *handle, *end, words)
        }
        _ => None,
    }
}
