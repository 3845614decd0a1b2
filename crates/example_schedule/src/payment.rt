//! A handler that has something done outside.
ghost use Rattle.durable_schedule.specs.Straight as steps;

use crate::attempt::cut_off;
use crate::desk::Desk;
use crate::invocation;
use crate::work::{Work, straight};
use durable_schedule::{
    Alter, ByteStr, Bytes, Calls, Event, Input, Scheduler, Straight, StraightLine, Told,
};
use std::io;

/// Has an order paid, and answers the receipt.
#[derive(Debug, Drop)]
pub struct Payment;

impl StraightLine for Payment {
    ghost use Rattle.example_schedule.specs.Payment.{payment};

    ghost makes = { λ handler. payment };

    fn run(&self, input: &Input, calls: &mut Calls) -> Told<Bytes> {
        calls.run(ByteStr::from_static("pay"))
    }
}

const ORDER: &str = "order-10";

fn order() -> ByteStr {
    ByteStr::from_static(ORDER)
}

/// Has an order paid in its first attempt, which is stopped behind that, and answered in its second one.
pub fn pay<R: Print, S: Alter + Drop>(
    rt: &R,
    scheduler: &mut Scheduler<Straight<Work>, S>,
) -> io::Result<()> {
    let alloc = scheduler.alloc;
    scheduler.apply(Event::Invoke(invocation(alloc, order())));
    cut_off(scheduler, ORDER, straight(alloc, Work::Payment(Payment)), 3);
    // The receipt is recorded, so the desk is not asked for another.
    let mut desk = Desk::new(alloc);
    let payment = straight(alloc, Work::Payment(Payment));
    let outcome = scheduler.go_on(&order(), payment, 10, &mut desk);
    let paid = desk.paid;
    println!(rt; "{outcome:?} {paid}")?;
    println!(rt; "{:?}", scheduler.answer(&order()))
}
