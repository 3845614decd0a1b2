//! `example_schedule`: a handler of one's own, stopped while it sleeps, by the schedule whose contract is the headline, and gone on with by
//! the scheduler that this leaves; one that keeps something in its object's state; one that has something done outside; and one that makes
//! every call that waits for nothing.
#![tactic(auto)]

mod attempt;
mod calls;
mod desk;
mod every_call;
mod options;
mod orders;
mod payment;
mod reminder;
mod stamp;
mod values;
mod work;

use anyhow::{Result, bail};
use attempt::{begin, feed, go_on, move_output, stop, turn};
use calls::make_calls;
use durable_schedule::{
    Alter, ByteStr, Bytes, Event, NewInvocation, NoRoom, Reply, Scheduler, Store, Straight,
    open_in_memory, run_new_schedule,
};
use options::chosen_options;
use orders::take_orders;
use payment::pay;
use reminder::Reminder;
use std::alloc::{AllocError, Global};
use std::io;
use work::{Work, straight};

const ID: &str = "order-7";

fn id() -> ByteStr {
    ByteStr::from_static(ID)
}

fn customer() -> ByteStr {
    ByteStr::from_static("Ada")
}

fn invocation(alloc: Global, id: ByteStr) -> NewInvocation {
    NewInvocation::new(alloc, id, customer(), Bytes::new())
}

// The first attempt is stopped where it sleeps. A second one makes no turn before it is begun.
fn events(alloc: Global) -> Result<Vec<Event<Straight<Work>>>, AllocError> {
    Ok(vec![in alloc;
        Event::Invoke(invocation(alloc, id())),
        begin(ID, straight(alloc, Work::Reminder(Reminder))),
        feed(ID, 1),
        turn(ID, 1),
        turn(ID, 1),
        turn(ID, 1),
        move_output(ID, 1),
        stop(ID, 1),
        turn(ID, 2),
    ]?)
}

fn print_replies<R: Print>(rt: &R, replies: &[Reply]) -> io::Result<()> {
    for reply in replies {
        println!(rt; "{reply:?}")?;
    }
    Ok(())
}

// Whether the invocation is open, what it has answered, which error it was told last, and what is recorded of it behind its input.
fn print_told<R: Print, S: Alter + Drop>(
    rt: &R,
    scheduler: &mut Scheduler<Straight<Work>, S>,
) -> io::Result<()> {
    println!(rt; "{:?}", scheduler.is_open(&id()))?;
    println!(rt; "{:?}", scheduler.answer(&id()))?;
    println!(rt; "{:?}", scheduler.failure(&id()))?;
    println!(rt; "{:?}", scheduler.entries(&id()))
}

// Goes on with each invocation that is due ten milliseconds later: with the one that sleeps.
fn wake<R: Print, S: Alter + Drop>(
    rt: &R,
    scheduler: &mut Scheduler<Straight<Work>, S>,
) -> io::Result<()> {
    let outcomes = go_on(scheduler, 10);
    println!(rt; "{outcomes:?}")?;
    print_told(rt, scheduler)
}

// Lets go of a store. Each library lets go of its own part, so that nothing is proved here of how that is done.
fn close<S: Alter + Drop>(store: Store<S>) {
    drop(store.into_connection().into_store());
}

// All that is done behind the schedule.
fn do_all<R: Print, S: Alter + Drop>(
    rt: &R,
    scheduler: &mut Scheduler<Straight<Work>, S>,
) -> io::Result<()> {
    wake(rt, scheduler)?;
    take_orders(rt, scheduler)?;
    pay(rt, scheduler)?;
    make_calls(rt, scheduler)
}

fn run<R: Print>(rt: &R, alloc: Global) -> Result<()> {
    let Ok(store) = open_in_memory(alloc) else {
        bail!("no store was made");
    };
    let Ok(events) = events(alloc) else {
        close(store);
        bail!("memory was refused");
    };
    let (mut scheduler, replies) = match run_new_schedule(alloc, store, chosen_options(), events) {
        Ok(done) => done,
        Err(NoRoom { store }) => {
            close(store);
            bail!("memory was refused");
        }
    };
    let printed = print_replies(rt, replies.as_slice());
    drop(replies);
    let done = do_all(rt, &mut scheduler);
    close(scheduler.into_store());
    printed?;
    Ok(done?)
}

fn main(rt: HostRuntime) -> Result<()> {
    run(&rt, rt.alloc())
}
