//! Orders of one customer, which share her state.
use crate::attempt::cut_off;
use crate::desk::Desk;
use crate::stamp::Stamp;
use crate::work::{Work, straight};
use crate::{customer, invocation};
use durable_schedule::{Alter, ByteStr, Event, Scheduler, Straight};
use std::alloc::Global;
use std::io;

fn invoke<S: Alter + Drop>(scheduler: &mut Scheduler<Straight<Work>, S>, order: &'static str) {
    let new = invocation(scheduler.alloc, ByteStr::from_static(order));
    scheduler.apply(Event::Invoke(new));
}

fn stamp(alloc: Global) -> Straight<Work> {
    straight(alloc, Work::Stamp(Stamp))
}

/// Goes on with an order, as far as it comes.
fn go_on<S: Alter + Drop>(scheduler: &mut Scheduler<Straight<Work>, S>, order: &'static str) {
    let alloc = scheduler.alloc;
    let mut desk = Desk::new(alloc);
    scheduler.go_on(&ByteStr::from_static(order), stamp(alloc), 10, &mut desk);
}

fn print_card<R: Print, S: Alter + Drop>(
    rt: &R,
    scheduler: &mut Scheduler<Straight<Work>, S>,
) -> io::Result<()> {
    println!(rt; "{:?}", scheduler.state(&customer()))
}

/// Takes two orders.
pub fn take_orders<R: Print, S: Alter + Drop>(
    rt: &R,
    scheduler: &mut Scheduler<Straight<Work>, S>,
) -> io::Result<()> {
    invoke(scheduler, "order-8");
    // The first attempt comes as far as the stamp, and not to the answer.
    cut_off(scheduler, "order-8", stamp(scheduler.alloc), 5);
    print_card(rt, scheduler)?;
    // The second one is fed what was recorded. It puts no second stamp.
    go_on(scheduler, "order-8");
    print_card(rt, scheduler)?;
    // A later order finds that card.
    invoke(scheduler, "order-9");
    go_on(scheduler, "order-9");
    print_card(rt, scheduler)
}
