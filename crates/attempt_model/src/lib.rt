//! One attempt as a machine without bytes: what a call makes of recorded requests and arrivals, in replay and behind it, and what it is
//! that an attempt stands to the run of its handler. Definitions, in `specs/`, and rows of
//! single calls, in `proofs/ReplyRows.antt`; the laws are in `attempt_laws`.
#![tactic(auto)]
