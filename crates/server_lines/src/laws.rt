//! What holds of the lines of all requests.
ghost use Rattle.server_lines.specs.Request.{ReadsBack};

/// Each request is read from the line by which it is printed. Other lines may spell it too: an escape is never wrong.
pub const fn requests_read_back()
    ensures { ReadsBack }
{}
