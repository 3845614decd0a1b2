//! The built-in handlers by the tables of their calls.
use crate::answers::{call_behind, calls, output};
use built_in_handlers::BuiltIn;
use built_in_handlers::handlers::Nap;
use journal_model::Call;
use std::test::Fail;
use std::time::Duration;

/// Handlers by their names, with answers, and the kinds of the calls before the first of these, behind it, and so on.
const CALLS: [(&str, &str, &str); 13] = [
    ("nap", "17 woken void done", "sleep await take output end "),
    ("nap", "17 cancelled done", "sleep await output end "),
    (
        "race",
        "17 18 woken not-completed done",
        "sleep sleep await is-completed output end ",
    ),
    ("both", "17 18 woken done", "sleep sleep await output end "),
    (
        "ask",
        "17,18 woken text done",
        "call await take output end ",
    ),
    (
        "pair",
        "17,18 19,20 woken done",
        "call call await output end ",
    ),
    ("effect", "17 woken text done", "run await take output end "),
    ("go", "17 woken text done", "signal await take output end "),
    (
        "hook",
        "17 woken text done",
        "awakeable await take output end ",
    ),
    ("twice", "done done done", "set set output end "),
    (
        "quorum",
        "17 18 19 woken done",
        "sleep sleep sleep await output end ",
    ),
    ("read", "17 woken void done", "read await take output end "),
    (
        "keys",
        "done done 17 woken void",
        "set clear keys await take output ",
    ),
];

/// Handlers with answers, and what they put out behind these.
const OUTPUTS: [(&str, &str, &str); 3] = [
    ("race", "17 18 woken not-completed", "success 2"),
    ("keys", "done done 17 woken keys", "success a,b"),
    ("nap99", "17 cancelled", "failure 409 cancelled"),
];

/// Whether a text was made, and is this one.
fn is_told(told: Option<String>, wanted: &str) -> bool {
    match told {
        Some(told) => told.as_str() == wanted,
        None => false,
    }
}

#[test]
fn calls_and_outputs(rt: HostRuntime) {
    for (name, words, wanted) in CALLS {
        assert!(rt; is_told(calls(rt.alloc(), name, words), wanted));
    }
    for (name, words, wanted) in OUTPUTS {
        assert!(rt; is_told(output(rt.alloc(), name, words), wanted));
    }
}

/// Whether a call is a sleep without a name until that moment.
fn is_sleep(call: &Call, until: Duration) -> bool {
    match call {
        Call::Sleep { name, wake_up, .. } => name.is_empty() && wake_up.duration() == until,
        _other => false,
    }
}

#[test]
fn sleep_of_nap(rt: HostRuntime) -> Result<(), Fail> {
    let nap = BuiltIn::Nap(Nap {
        alloc: rt.alloc(),
        until_ms: 10,
    });
    let call = call_behind(rt.alloc(), &nap, &[])?;
    let sleeps = is_sleep(&call, Duration::from_millis(10));
    drop(call);
    assert!(rt; sleeps);
    Ok(())
}
