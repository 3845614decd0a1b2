//! What holds of the lines of all clients.
ghost use Rattle.call_lines.specs.Line.{ReadsBack};

/// Each line is read from what it is printed as. Other texts may spell it too: an escape is never wrong.
pub const fn client_lines_read_back()
    ensures { ReadsBack }
{}
