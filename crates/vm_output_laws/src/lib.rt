//! What an attempt writes, as a store reads it. Each function does nothing: its contract is the law.
#![tactic(auto)]

ghost use Rattle.vm_output_laws.specs.OutputMeaning.{ErrorsAreMeant, FramesAreRead, StreamsAreRead, StreamsJoin};
ghost use Rattle.vm_output_laws.specs.SuspensionContent.{SuspensionsTell};
ghost use Rattle.vm_output_laws.specs.TurnFrames.{TurnsSend};
ghost use Rattle.vm_output_laws.specs.WrittenFrames.{FramesAreWritten};

/// Each frame that an attempt writes is read as what it was meant as.
pub fn frames_are_read()
    ensures { FramesAreRead }
{}

/// So is a stream of them, in any cut of its bytes.
pub fn streams_are_read()
    ensures { StreamsAreRead }
{}

/// Two streams, one behind the other, are the stream of all their frames.
pub fn streams_join()
    ensures { StreamsJoin }
{}

/// A suspension tells the tree that is left, or before version 7 all its ids.
pub fn suspensions_tell()
    ensures { SuspensionsTell }
{}

/// An error is read with its code, its text, the command that it is about, its delay and its behaviour.
pub fn errors_are_meant()
    ensures { ErrorsAreMeant }
{}

/// What is written of calls, of outcomes, of awaits, at a suspension, of errors and at the end are such frames.
pub fn frames_are_written()
    ensures { FramesAreWritten }
{}

/// What one turn writes, by the relation of its call, is a list of such frames, and they are what the abstract machine's reply sends; of an
/// outcome that is proposed it is that frame. Of a call that stops midway they are the requests that were written by then, and what is sent
/// behind them.
pub fn turns_send()
    ensures { TurnsSend }
{}
