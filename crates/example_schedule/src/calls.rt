//! Every call that asks for something and waits for nothing, made in one attempt, and what is recorded of it.
use crate::desk::Desk;
use crate::every_call::EveryCall;
use crate::invocation;
use crate::work::{Work, straight};
use durable_schedule::{Alter, ByteStr, Event, RecordedEntry, Scheduler, Straight};
use std::io;

fn order() -> ByteStr {
    ByteStr::from_static("order-11")
}

/// The commands that are recorded, in their order.
fn print_types<R: Print>(rt: &R, entries: &[RecordedEntry]) -> io::Result<()> {
    for entry in entries {
        println!(rt; "{:?}", entry.ty)?;
    }
    Ok(())
}

fn print_commands<R: Print, S: Alter + Drop>(
    rt: &R,
    scheduler: &mut Scheduler<Straight<Work>, S>,
) -> io::Result<()> {
    match scheduler.entries(&order()) {
        Ok(entries) => {
            let printed = print_types(rt, entries.as_slice());
            drop(entries);
            printed
        }
        Err(refusal) => println!(rt; "{refusal:?}"),
    }
}

/// Makes all these calls in the first attempt of an invocation.
pub fn make_calls<R: Print, S: Alter + Drop>(
    rt: &R,
    scheduler: &mut Scheduler<Straight<Work>, S>,
) -> io::Result<()> {
    let alloc = scheduler.alloc;
    let handler = straight(alloc, Work::EveryCall(EveryCall));
    scheduler.apply(Event::Invoke(invocation(alloc, order())));
    let mut desk = Desk::new(alloc);
    let outcome = scheduler.go_on(&order(), handler, 10, &mut desk);
    println!(rt; "{outcome:?}")?;
    print_commands(rt, scheduler)
}
