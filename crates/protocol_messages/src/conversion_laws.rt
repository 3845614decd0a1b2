//! Laws of what is carried. Each function does nothing: its contract is the law.
ghost use Rattle.protocol_messages.specs.ConversionLaws.{OutputsReadBack};

/// A value that is turned into what an output command holds and back is unchanged, failures too.
pub fn outputs_read_back()
    ensures { OutputsReadBack }
{}
