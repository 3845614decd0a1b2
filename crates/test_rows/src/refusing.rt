//! Rounds in which one allocation is refused, and rows that are asked so.
//!
//! A block of `BEGINS` bytes begins a round and one of `ENDS` bytes ends it: the library of `.ci/refusing` refuses the Nth allocation of the
//! Nth round, and the second block exactly where it refused one. So the last round is whole. With no such library the first one is.
use crate::{Answers, answer};
use std::alloc::Global;
use std::io;

const BEGINS: usize = 1_000_003;

const ENDS: usize = 1_000_033;

/// How many rounds there are at most.
const MOST: u32 = 1_000_000;

/// Begins a round.
pub fn begin_round(alloc: Global) {
    let block: Result<Vec<u8>, _> = Vec::with_capacity(alloc, BEGINS);
    drop(block);
}

/// Ends a round, and answers whether an allocation was refused in it.
pub fn end_round(alloc: Global) -> bool {
    let block: Result<Vec<u8>, _> = Vec::with_capacity(alloc, ENDS);
    block.is_err()
}

/// Whether a line is a row.
fn is_row(line: &str) -> bool {
    !line.is_empty() && !line.starts_with('#')
}

/// How many rows there are.
fn rows_in(rows: &str) -> usize {
    let mut count = 0usize;
    for line in rows.lines() {
        if is_row(line) {
            count = count.saturating_add(1);
        }
    }
    count
}

/// Puts the answers to the rows of a file behind one another, for which there is room.
fn answer_all<A: Answers>(alloc: Global, file: &str, rows: &str, told: &mut Vec<Option<String>>) {
    let mut answers = A::begin();
    for row in rows.lines() {
        if is_row(row) {
            let _ = told.push(answer(alloc, &mut answers, file, row));
        }
    }
    drop(answers);
}

/// Whether an answer tells that memory was refused: by its text, by the code of an attempt that fails for it, or by the state of one that has
/// failed.
fn tells_refusal(told: &str) -> bool {
    told.contains("out of memory") || told.starts_with("failed 500") || told == "Closed"
}

/// Whether answers are the wanted ones, but for those that tell the refusal. Where a row could not be asked or told, what comes behind it is
/// not looked at.
fn are_so(wanted: &[Option<String>], told: &[Option<String>]) -> bool {
    let mut wanted_ones = wanted.iter();
    for each in told {
        let Some(text) = each else {
            return true;
        };
        let is_wanted = match wanted_ones.next() {
            Some(Some(other)) => text.as_str() == other.as_str(),
            _ => false,
        };
        if !is_wanted && !tells_refusal(text.as_str()) {
            return false;
        }
    }
    true
}

/// Asks the rows of a file in rounds, and prints each that changes an answer and does not tell the refusal.
pub fn refuse_rows<A: Answers, R: Print + AllocGlobal>(
    rt: &R,
    file: &str,
    rows: &str,
) -> io::Result<()> {
    let alloc = rt.alloc();
    let count = rows_in(rows);
    let mut wanted = Vec::with_capacity(alloc, count)?;
    answer_all::<A>(alloc, file, rows, &mut wanted);
    println!(rt; "== {file}, refused")?;
    let mut rounds = "one round";
    for round in 1..MOST {
        let mut told = Vec::with_capacity(alloc, count)?;
        begin_round(alloc);
        answer_all::<A>(alloc, file, rows, &mut told);
        let is_refused = end_round(alloc);
        if !are_so(&wanted, &told) {
            println!(rt; "amiss in round {round}")?;
        }
        if !is_refused {
            break;
        }
        rounds = "many rounds";
    }
    println!(rt; "{rounds}")
}
