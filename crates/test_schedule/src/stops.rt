//! A row whose files stop at a call, for each call of each of them. What stands then is what stood behind the lines that were answered, or
//! behind one more, which was stopped; and gone on with, it ends as with no stop.
use crate::disks::{
    Fused, NEVER, have_stopped, leave, left_by_machine, left_by_process, new_files, open,
    open_again,
};
use crate::fault::Fault;
use crate::row::{Row, Whole, go_on, print_whole, room, run, run_whole, text};
use sqlite::Files;
use std::alloc::Global;

/// How many calls are tried of a file at most.
const MOST: u64 = 10_000;

/// What a stop leaves.
struct Stopped {
    /// How many lines were answered as with no stop. Nothing where the store was not opened.
    answered: Option<usize>,
    files: Files<Fused>,
}

/// How many lines are printed as wanted before the first that is not.
fn answered(wanted: &str, printed: &str) -> usize {
    let mut lines = 0usize;
    let mut wanted = wanted.lines();
    for line in printed.lines() {
        if wanted.next().unwrap_or("") != line {
            break;
        }
        lines = lines.saturating_add(1);
    }
    lines
}

fn stop_at(alloc: Global, row: &Row, wanted: &Whole, files: Files<Fused>) -> Stopped {
    match open(alloc, files) {
        Ok(store) => {
            let (printed, store) = run(alloc, store, row.first.as_bytes());
            let lines = answered(text(&wanted.printed), text(&printed));
            drop(printed);
            Stopped {
                answered: Some(lines),
                files: leave(store),
            }
        }
        Err(files) => Stopped {
            answered: None,
            files,
        },
    }
}

/// What is found of a stop: how many lines stand, with a `+` where one of them was not answered, and a `-` where the store was not opened.
fn finding(
    alloc: Global,
    wanted: &Whole,
    answered: Option<usize>,
    shown: &[u8],
    ended: &[u8],
) -> Result<String, Fault> {
    let lines = answered.unwrap_or(0);
    let is_behind = wanted.stands_behind(lines, shown);
    let is_one_more = wanted.stands_behind(lines.saturating_add(1), shown);
    if !wanted.ends_so(ended) {
        return Ok(format!(in alloc; " {lines} ENDS OTHERWISE")?);
    }
    if answered.is_none() && is_behind {
        return Ok(String::from_str(alloc, " -")?);
    }
    if is_behind {
        return Ok(format!(in alloc; " {lines}")?);
    }
    if is_one_more {
        return Ok(format!(in alloc; " {lines}+")?);
    }
    Ok(format!(in alloc; " {lines} LOST")?)
}

/// Findings, each that is not the one before; and what the last was found of.
#[derive(Drop)]
struct Findings {
    told: Vec<u8>,
    /// How many there are of an opened store.
    opened: u64,
    last: String,
    answered: Option<usize>,
    log: Vec<u8>,
    database: Vec<u8>,
}

impl Findings {
    fn new(alloc: Global) -> Result<Findings, Fault> {
        Ok(Findings {
            told: room(alloc)?,
            opened: 0,
            last: String::new(alloc),
            answered: Some(usize::MAX),
            log: Vec::new(alloc),
            database: Vec::new(alloc),
        })
    }

    /// Whether the last finding is of such files. A call that reads leaves the files as the one before.
    fn is_of(&self, answered: Option<usize>, files: &Files<Fused>) -> bool {
        self.answered == answered
            && self.log.as_slice() == files.log.inner().bytes()
            && self.database.as_slice() == files.db.inner().bytes()
    }

    fn keep(&mut self, answered: Option<usize>, files: &Files<Fused>) -> Result<(), Fault> {
        self.answered = answered;
        self.log.clear();
        self.log.extend_from_slice(files.log.inner().bytes())?;
        self.database.clear();
        self.database.extend_from_slice(files.db.inner().bytes())?;
        Ok(())
    }

    fn add(&mut self, finding: String) -> Result<(), Fault> {
        if finding != self.last {
            self.told.extend_from_slice(finding.as_bytes())?;
            self.last = finding;
            if self.answered.is_some() {
                self.opened = self.opened.saturating_add(1);
            }
        }
        Ok(())
    }
}

/// Looks at files that a stop has left.
fn look(
    alloc: Global,
    row: &Row,
    wanted: &Whole,
    answered: Option<usize>,
    files: Files<Fused>,
    findings: &mut Findings,
) -> Result<(), Fault> {
    if findings.is_of(answered, &files) {
        drop(files);
        return Ok(());
    }
    let kept = findings.keep(answered, &files);
    let store = open_again(alloc, files)?;
    let (shown, ended) = go_on(alloc, row, store);
    kept?;
    findings.add(finding(alloc, wanted, answered, &shown, &ended)?)
}

/// Stops the files behind so many calls of each, looks at what the end of the process and that of the machine leave, and answers whether no
/// call was stopped.
fn look_at_both(
    alloc: Global,
    row: &Row,
    wanted: &Whole,
    files: Files<Fused>,
    by_process: &mut Findings,
    by_machine: &mut Findings,
) -> Result<bool, Fault> {
    let Stopped {
        answered,
        mut files,
    } = stop_at(alloc, row, wanted, files);
    let is_whole = !have_stopped(&mut files);
    let copied = left_by_process(alloc, &files)?;
    look(alloc, row, wanted, answered, copied, by_process)?;
    look(
        alloc,
        row,
        wanted,
        answered,
        left_by_machine(files),
        by_machine,
    )?;
    Ok(is_whole)
}

/// Stops one file at each of its calls.
fn stop_each<R: Print + AllocGlobal>(
    rt: &R,
    row: &Row,
    wanted: &Whole,
    is_log: bool,
) -> Result<(), Fault> {
    let alloc = rt.alloc();
    let mut by_process = Findings::new(alloc)?;
    let mut by_machine = Findings::new(alloc)?;
    for calls in 0..MOST {
        let (log, db) = if is_log {
            (calls, NEVER)
        } else {
            (NEVER, calls)
        };
        let files = new_files(alloc, log, db);
        if look_at_both(alloc, row, wanted, files, &mut by_process, &mut by_machine)? {
            break;
        }
    }
    let file = if is_log { "log" } else { "database" };
    println!(rt; "{file} stops, process ends:{}", text(&by_process.told))?;
    println!(rt; "{file} stops, machine ends:{}", text(&by_machine.told))?;
    if is_log {
        // of an opened store each commit makes one finding more
        println!(rt; "commits: {}", by_machine.opened.saturating_sub(1))?;
    }
    Ok(())
}

/// Stops each file of a row at each of its calls.
pub fn stop_row<R: Print + AllocGlobal>(rt: &R, name: &str, row: &Row) -> Result<(), Fault> {
    let wanted = run_whole(rt.alloc(), row)?;
    println!(rt; "== {name}, stopped")?;
    print_whole(rt, row, &wanted)?;
    stop_each(rt, row, &wanted, true)?;
    stop_each(rt, row, &wanted, false)
}
