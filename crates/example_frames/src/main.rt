//! `example_frames JOURNAL`: prints the frames of a journal, and until when it sleeps.
#![tactic(auto)]

use anyhow::Result;
use journal_protocol::messages::SleepCommandMessage;
use journal_protocol::{Decoder, MessageType, RawMessageExt};
use std::alloc::Global;
use std::{env, fs};

fn show_journal<R: Print>(rt: &R, alloc: Global, journal: &[u8]) -> Result<()> {
    let mut decoder = Decoder::new(alloc);
    decoder.push(journal)?;
    for _ in 0..u64::MAX {
        let Some(message) = decoder.consume_next()? else {
            break;
        };
        let ty = message.ty();
        println!(rt; "{ty}, {} bytes", message.payload.len())?;
        if ty == MessageType::SleepCommand {
            let sleep: SleepCommandMessage = message.decode_to(alloc, 0)?;
            println!(rt; "  until {}", sleep.wake_up_time)?;
        }
    }
    Ok(())
}

fn main(rt: HostRuntime) -> Result<()> {
    let mut words = env::args(&rt)?;
    let _program = words.next();
    if let Some(journal) = words.next() {
        let bytes = fs::read(&rt, journal.as_str())?;
        show_journal(&rt, rt.alloc(), bytes.as_slice())?;
    }
    Ok(())
}
