// Which type of message each record is the payload of.
mod calls;
mod commands;
mod control;
