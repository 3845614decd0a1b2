// What messages of one type take, apart from their framing.
use crate::fault::Fault;
use crate::protocol::commands::{read, read_as, write};
use crate::timing::Stopwatch;
use journal_protocol::{PlainMessage, RawMessage};
use std::alloc::Global;
use std::rt::HostRuntime;
use std::time::Duration;

/// How many records are written between two looks at the clock: so many that a look costs none of them a nanosecond.
const BLOCK: usize = 512;

/// The processor time that messages took.
#[derive(Clone, Copy)]
pub struct Took {
    pub reading: Duration,
    pub writing: Duration,
}

fn write_records<M: PlainMessage>(alloc: Global, records: &[M]) -> Result<(), Fault> {
    for record in records {
        drop(write(alloc, record)?);
    }
    Ok(())
}

// The time of writing alone.
fn time_writing<M: PlainMessage>(
    rt: &HostRuntime,
    block: &[RawMessage],
    records: &mut Vec<M>,
) -> Result<Duration, Fault> {
    for message in block {
        records.push(read(rt.alloc(), message)?)?;
    }
    let mut watch = Stopwatch::start(rt)?;
    write_records(rt.alloc(), records.as_slice())?;
    watch.lap(rt)
}

// Lets the records go, too.
fn time_block<M: PlainMessage>(rt: &HostRuntime, block: &[RawMessage]) -> Result<Duration, Fault> {
    let mut records: Vec<M> = Vec::with_capacity(rt.alloc(), block.len())?;
    let took = time_writing(rt, block, &mut records);
    drop(records);
    took
}

/// How long these messages take to be read as this record, with letting it go again, and how long to be written.
pub fn time_records<M: PlainMessage>(
    rt: &HostRuntime,
    messages: &[RawMessage],
) -> Result<Took, Fault> {
    let mut watch = Stopwatch::start(rt)?;
    for message in messages {
        read_as::<M>(rt.alloc(), message)?;
    }
    let reading = watch.lap(rt)?;
    let mut writing = Duration::ZERO;
    for block in messages.chunks(BLOCK) {
        writing = writing.saturating_add(time_block::<M>(rt, block)?);
    }
    Ok(Took { reading, writing })
}
