//! The words of a call.

use crate::fault::ProgramFault;
use durable_script::ScriptFault;
use std::io::ErrorKind;
use std::rt::Env;
use std::{env, str};

/// What the program is called for.
#[derive(Drop)]
pub(crate) enum Mode {
    Help,
    Run { script: String, database: String },
    Serve { database: String },
    List { database: String },
}

/// Whether a word of the call is text, if there is one of this number. Behind it the buffer has zeros, which are text.
fn is_text_at<R: Env>(rt: &R, at: usize) -> bool {
    let mut buffer = [0u8; 4096];
    match rt.arg(at, &mut buffer) {
        Ok(_) => str::from_utf8(buffer.as_slice()).is_ok(),
        Err(_) => true,
    }
}

/// Whether the call has a second word.
fn has_second_word<R: Env>(rt: &R) -> bool {
    let mut buffer = [0u8; 4096];
    rt.arg(2, &mut buffer).is_ok()
}

fn unreadable() -> ProgramFault {
    ProgramFault::Script(ScriptFault::ScriptUnreadable, None)
}

/// Why the words of the call are not read. One that is no text names no script that can be read, and no database.
fn unread_words<R: Env>(rt: &R, kind: ErrorKind) -> ProgramFault {
    if kind != ErrorKind::InvalidData {
        unreadable()
    } else if !is_text_at(rt, 1) {
        if has_second_word(rt) {
            unreadable()
        } else {
            ProgramFault::PathNoText
        }
    } else if is_text_at(rt, 2) {
        ProgramFault::Usage
    } else {
        ProgramFault::PathNoText
    }
}

/// What a call of one word asks for.
fn mode_of_one(word: String) -> Result<Mode, ProgramFault> {
    if word.as_str() == "--help" {
        Ok(Mode::Help)
    } else if word.as_str() == "--serve" {
        Err(ProgramFault::Usage)
    } else {
        Ok(Mode::List { database: word })
    }
}

/// What a call of two words asks for.
fn mode_of_two(first: String, second: String) -> Mode {
    if first.as_str() == "--serve" {
        Mode::Serve { database: second }
    } else {
        Mode::Run {
            script: first,
            database: second,
        }
    }
}

/// What the words of the call ask for, without the program's own name.
pub(crate) fn read_words<R: Env + AllocGlobal>(rt: &R) -> Result<Mode, ProgramFault> {
    let mut words = match env::args(rt) {
        Ok(words) => words,
        Err(error) => return Err(unread_words(rt, error.kind())),
    };
    let _program = words.next();
    let Some(first) = words.next() else {
        return Err(ProgramFault::Usage);
    };
    let Some(second) = words.next() else {
        return mode_of_one(first);
    };
    if words.next().is_some() {
        return Err(ProgramFault::Usage);
    }
    Ok(mode_of_two(first, second))
}
