//! A row: what it does, and what is recorded behind each of its lines where nothing stops or fails.
use crate::disks::{FusedStore, end, open_copies, open_new};
use crate::fault::Fault;
use durable_script::{ScriptEnd, ScriptFault, run_script};
use journal_store::Store;
use sqlite::Alter;
use std::alloc::Global;
use std::io;

/// How many bytes what a script prints may take without a further allocation.
const ROOM: usize = 10_000;

/// How the remark begins in front of lines that are left out where the rest of the remark is shown.
const UNLESS: &str = "# unless ";

/// The scripts of a row.
#[derive(Drop)]
pub struct Row {
    /// What is stopped, or refused. Each of its lines prints one.
    pub first: String,
    /// What shows all that is recorded.
    pub shows: String,
    /// What comes from outside, again, and new attempts, as many as it may need. What may come once alone stands behind a remark.
    pub again: String,
}

/// What comes of a script.
pub struct Ran<S: Alter> {
    pub printed: Vec<u8>,
    pub result: Result<(), ScriptFault>,
    pub store: Store<S>,
}

/// A row that nothing stops.
#[derive(Drop)]
pub struct Whole {
    /// What its lines print.
    pub printed: Vec<u8>,
    /// What is shown behind so many of its lines, from none of them on to all.
    pub shown: Vec<Vec<u8>>,
}

/// What was printed, as text.
pub fn text(printed: &[u8]) -> &str {
    match str::from_utf8(printed) {
        Ok(text) => text,
        Err(_) => "no text",
    }
}

/// How many lines were printed.
pub fn lines_in(printed: &[u8]) -> usize {
    let mut lines = 0usize;
    for byte in printed {
        if *byte == b'\n' {
            lines = lines.saturating_add(1);
        }
    }
    lines
}

/// Runs a script, which prints into this room.
pub fn run_into<S: Alter + Drop>(
    alloc: Global,
    store: Store<S>,
    lines: &[u8],
    room: Vec<u8>,
) -> Ran<S> {
    let mut reader = lines;
    let mut printed = room;
    let ScriptEnd {
        store,
        script,
        result,
    } = run_script(alloc, &mut reader, &mut printed, store);
    drop(script);
    Ran {
        printed,
        result,
        store,
    }
}

/// Runs a script.
pub fn run<S: Alter + Drop>(alloc: Global, store: Store<S>, lines: &[u8]) -> (Vec<u8>, Store<S>) {
    let Ran {
        printed,
        result: _,
        store,
    } = run_into(alloc, store, lines, Vec::new(alloc));
    (printed, store)
}

/// Room for what a script prints.
pub fn room(alloc: Global) -> Result<Vec<u8>, Fault> {
    Ok(Vec::with_capacity(alloc, ROOM)?)
}

/// So many of the first lines of a script.
fn first_lines(script: &[u8], count: usize) -> &[u8] {
    let mut left = count;
    let mut end = 0usize;
    for byte in script {
        if left == 0 {
            break;
        }
        end = end.saturating_add(1);
        if *byte == b'\n' {
            left -= 1;
        }
    }
    script.get(..end).unwrap_or(script)
}

/// What is shown of a store that is opened again, so that no attempt of it is live.
pub fn shown_again(alloc: Global, row: &Row, store: FusedStore) -> Result<Vec<u8>, Fault> {
    let store = open_copies(alloc, store)?;
    let (shown, store) = run(alloc, store, row.shows.as_bytes());
    end(store);
    Ok(shown)
}

/// What so many lines of a row print, and what is shown behind them.
fn begun(alloc: Global, row: &Row, count: usize) -> Result<(Vec<u8>, Vec<u8>), Fault> {
    let store = open_new(alloc)?;
    let (printed, store) = run(alloc, store, first_lines(row.first.as_bytes(), count));
    let shown = shown_again(alloc, row, store)?;
    Ok((printed, shown))
}

/// A row that nothing stops.
pub fn run_whole(alloc: Global, row: &Row) -> Result<Whole, Fault> {
    let mut shown = Vec::new(alloc);
    let mut printed = Vec::new(alloc);
    let lines = lines_in(row.first.as_bytes());
    for count in 0..lines.saturating_add(1) {
        let (of_lines, then) = begun(alloc, row, count)?;
        printed = of_lines;
        shown.push(then)?;
    }
    Ok(Whole { printed, shown })
}

/// Does the lines of a part, where its first line is not shown.
fn do_unless_shown<S: Alter + Drop>(
    alloc: Global,
    row: &Row,
    store: Store<S>,
    part: &str,
) -> Store<S> {
    let (words, lines) = part.split_once('\n').unwrap_or((part, ""));
    let (shown, store) = run(alloc, store, row.shows.as_bytes());
    if text(&shown).find(words).is_some() {
        return store;
    }
    let (told, store) = run(alloc, store, lines.as_bytes());
    drop(told);
    store
}

/// Gives again what came from outside.
fn give_again<S: Alter + Drop>(alloc: Global, row: &Row, store: Store<S>) -> Store<S> {
    let mut parts = row.again.split(UNLESS);
    let always = parts.next().unwrap_or("");
    let (told, mut store) = run(alloc, store, always.as_bytes());
    drop(told);
    for part in parts {
        store = do_unless_shown(alloc, row, store, part);
    }
    store
}

/// What is shown, what is shown once the row was gone on with, and the store then.
fn go_on_over<S: Alter + Drop>(
    alloc: Global,
    row: &Row,
    store: Store<S>,
) -> (Vec<u8>, Vec<u8>, Store<S>) {
    let (shown, store) = run(alloc, store, row.shows.as_bytes());
    let store = give_again(alloc, row, store);
    let (ended, store) = run(alloc, store, row.shows.as_bytes());
    (shown, ended, store)
}

/// What is shown, and what is shown once the row was gone on with.
pub fn go_on(alloc: Global, row: &Row, store: FusedStore) -> (Vec<u8>, Vec<u8>) {
    let (shown, ended, store) = go_on_over(alloc, row, store);
    end(store);
    (shown, ended)
}

impl Whole {
    /// Whether that is what stands behind so many lines.
    pub fn stands_behind(&self, lines: usize, shown: &[u8]) -> bool {
        match self.shown.get(lines) {
            Some(wanted) => wanted.as_slice() == shown,
            None => false,
        }
    }

    /// Whether that is what stands in the end.
    pub fn ends_so(&self, shown: &[u8]) -> bool {
        match self.shown.last() {
            Some(wanted) => wanted.as_slice() == shown,
            None => false,
        }
    }
}

/// Prints what is shown of a row in the end.
pub fn print_end<R: Print>(rt: &R, whole: &Whole) -> io::Result<()> {
    match whole.shown.last() {
        Some(shown) => print!(rt; "{}", text(shown)),
        None => Ok(()),
    }
}

/// Prints each line of the row with what it prints, and what is shown in the end.
pub fn print_whole<R: Print>(rt: &R, row: &Row, whole: &Whole) -> io::Result<()> {
    let mut told = text(&whole.printed).lines();
    for line in row.first.lines() {
        println!(rt; "{line} = {}", told.next().unwrap_or("nothing"))?;
    }
    print_end(rt, whole)
}
