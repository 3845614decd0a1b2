//! What programs of rows have in common. A row is a line of a file that a word of the call names: an operation and its operands,
//! between single spaces. It is printed with its answer behind ` = `, and with a `?` where it is not understood.
#![tactic(auto)]

mod operands;
mod refusing;

/// Names items of a type, or those that it has by a trait, and calls none.
#[macro_export]
macro_rules! named {
    ($of:ty as $by:path: $($item:ident)*) => { $(let _ = <$of as $by>::$item;)* };
    ($of:ty: $($item:ident)*) => { $(let _ = <$of>::$item;)* };
}

pub use operands::{Hex, bytes, number, text, told};
use refusing::refuse_rows;
pub use refusing::{begin_round, end_round};
use std::alloc::Global;
use std::process::ExitCode;
use std::rt::{Env, Files};
use std::{env, fs, io};

/// What the rows of a file are answered by.
pub trait Answers: Drop {
    /// As it is before the first row of a file.
    fn begin() -> Self;

    /// What a row of the file asks, or nothing where it is not understood.
    fn answer(&mut self, alloc: Global, file: &str, words: &[&str]) -> Option<String>;
}

fn answer<A: Answers>(alloc: Global, answers: &mut A, file: &str, row: &str) -> Option<String> {
    let words: Vec<&str> = row.split(' ').collect(alloc).ok()?;
    answers.answer(alloc, file, words.as_slice())
}

fn print_all<A: Answers, R: Print + AllocGlobal>(
    rt: &R,
    answers: &mut A,
    file: &str,
    rows: &str,
) -> io::Result<()> {
    for row in rows.lines() {
        if row.is_empty() || row.starts_with('#') {
            continue;
        }
        match answer(rt.alloc(), answers, file, row) {
            Some(answer) => println!(rt; "{row} = {answer}")?,
            None => println!(rt; "{row} ?")?,
        }
    }
    Ok(())
}

/// Prints the rows of a file, without its empty lines and those that begin with a `#`.
fn print_rows<A: Answers, R: Files + Print + AllocGlobal>(rt: &R, file: &str) -> io::Result<()> {
    let rows = fs::read_to_string(rt, file)?;
    println!(rt; "== {file}")?;
    let mut answers = A::begin();
    let printed = print_all(rt, &mut answers, file, rows.as_str());
    drop(answers);
    printed
}

fn print_files<A: Answers, R: Files + Env + Print + AllocGlobal>(rt: &R) -> io::Result<()> {
    let mut files = env::args(rt)?;
    let _program = files.next();
    let mut is_refused = false;
    for file in files {
        if file.as_str() == "refused" {
            is_refused = true;
        } else if is_refused {
            let rows = fs::read_to_string(rt, file.as_str())?;
            refuse_rows::<A, R>(rt, file.as_str(), rows.as_str())?;
        } else {
            print_rows::<A, R>(rt, file.as_str())?;
        }
    }
    Ok(())
}

/// Prints the rows of each file that a word of the call names. Behind the word `refused` they are asked in rounds, in each of which one
/// allocation is refused.
pub fn run<A: Answers, R: Files + Env + Print + AllocGlobal>(rt: &R) -> ExitCode {
    match print_files::<A, R>(rt) {
        Ok(()) => ExitCode::SUCCESS,
        Err(_) => ExitCode::FAILURE,
    }
}
