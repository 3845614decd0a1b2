//! A store that keeps no frames in memory reads an attempt's input from the rows of its entries, one at a time. From which row is each frame
//! read, what do the rows tell of which invocations are due, and is the little that is kept of the live attempts in memory what the accepted
//! events say, step by step? Laws over the rows that `store_model` says are kept; the functions do nothing, and their contracts are the laws.
#![tactic(auto)]

ghost use Rattle.store_live_laws.specs.RowLaws.{AwakeAreArranged, ChangedCovers, DueFromRecords, DueFromRows, NextFromRecords, RowsAreNotHeard};
ghost use Rattle.store_live_laws.specs.Memory.{AllArrivalsAreTold, AllInputsCount, InputAgrees};
ghost use Rattle.store_live_laws.specs.InputRows.{AllFramesAreRead, HandedIsRead, KnownAtBegin};
ghost use Rattle.store_live_laws.specs.LiveAttempts.{AgreesAtFirst, AgreesBegun, AgreesElsewhere, AgreesForgotten, AgreesInvoked, AllLeftIsTold, CausesAreTold, KeepsEnded, KeepsInput, KeepsRecorded, LiveIsOpen, LiveIsTold, PartIsTold, StaleIsTold};

/// Each frame of an attempt's input is read from one row, by its place or by its ordinal among the arrivals.
pub fn frames_are_read()
    ensures frames { AllFramesAreRead }
    ensures known { KnownAtBegin }
{}

/// How far an attempt was handed its input is told by how many rows were read.
pub fn handed_is_read()
    ensures { HandedIsRead }
{}

/// The rows behind those that were heard are the arrivals that were not handed, and what is noted changes where progress is written.
pub fn kept_rows_tell()
    ensures not_heard { RowsAreNotHeard }
    ensures covers { ChangedCovers }
    ensures due { DueFromRows }
{}

/// The records tell which invocations are due, but for those with a live attempt, and when the next sleep ends.
pub fn kept_records_tell()
    ensures due { DueFromRecords }
    ensures arranged { AwakeAreArranged }
    ensures next { NextFromRecords }
{}

/// What is kept in memory of an input that is read by the row agrees with the accepted events.
pub fn inputs_agree()
    ensures steps { InputAgrees }
    ensures counts { AllInputsCount }
    ensures arrivals { AllArrivalsAreTold }
{}

/// Before any event no attempt is live; an event of another invocation, that is no tick, changes nothing, nor does it that others are
/// forgotten.
pub fn elsewhere_kept()
    ensures first { AgreesAtFirst }
    ensures elsewhere { AgreesElsewhere }
    ensures forgotten { AgreesForgotten }
{}

/// A new invocation has no live attempt; and of one that is begun it is kept how many entries and arrivals are recorded then.
pub fn begun_kept()
    ensures invoked { AgreesInvoked }
    ensures begun { AgreesBegun }
{}

/// Rows are read, bytes of them are handed out, and the input is closed.
pub fn input_kept()
    ensures { KeepsInput }
{}

/// What is recorded changes nothing, but that an outcome is to be acknowledged.
pub fn recorded_kept()
    ensures { KeepsRecorded }
{}

/// A frame ends the attempt, as a stop does.
pub fn ended_kept()
    ensures { KeepsEnded }
{}

/// Which attempt is live is told by its number, and then the invocation is open.
pub fn live_told()
    ensures live { LiveIsTold }
    ensures is_open { LiveIsOpen }
{}

/// Whether anything of its input is left, and what is handed out of it.
pub fn left_told()
    ensures left { AllLeftIsTold }
    ensures part { PartIsTold }
{}

/// Why an event of an attempt is refused is told by whether it is live, what is left of its input, and whether that is closed.
pub fn causes_told()
    ensures live { CausesAreTold }
    ensures stale { StaleIsTold }
{}
