//! Rows of the protocol: each file that a word of the call names has a row a line, an operation and its operands; printed is the
//! row and, behind ` = `, the answer. A row that is not understood is printed with a `?`.
#![tactic(auto)]

mod awaits;
mod commands;
mod conversions;
mod errors;
mod every_command;
mod every_record;
mod frames;
mod messages;
pub mod names;
mod operands;
mod records;
mod replay;
mod stream;
mod typed_errors;

use std::alloc::Global;
use std::process::ExitCode;
use test_rows::{Answers, run};

/// What a row of this file asks.
fn answer_to(alloc: Global, file: &str, operation: &str, operands: &[&str]) -> Option<String> {
    match file {
        "records" => records::answer(alloc, operation, operands),
        "commands" => commands::answer(alloc, operation, operands),
        "stream" | "header_words" | "frame_in_two_pieces" | "unknown_header" => {
            stream::answer(alloc, operation, operands)
        }
        "messages" | "hundred_levels" => messages::answer(alloc, operation, operands),
        "conversions" => conversions::answer(alloc, operation, operands),
        "awaits" => awaits::answer(alloc, operation, operands),
        "frames" => frames::answer(alloc, operation, operands),
        "errors" => errors::answer(alloc, operation, operands),
        "replay" => replay::answer(alloc, operation, operands),
        "typed_errors" => typed_errors::answer(alloc, operation, operands),
        _ => None,
    }
}

/// The rows of a file. None keeps anything for the next.
#[derive(Drop)]
struct Rows;

impl Answers for Rows {
    fn begin() -> Self {
        Rows
    }

    fn answer(&mut self, alloc: Global, file: &str, words: &[&str]) -> Option<String> {
        match words {
            [operation, operands @ ..] => answer_to(alloc, file, *operation, operands),
            [] => None,
        }
    }
}

fn main(rt: HostRuntime) -> ExitCode {
    run::<Rows, _>(&rt)
}
