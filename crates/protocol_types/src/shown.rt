// Values with a text of their own.
ghost use Rattle.std.specs.Prelude.{List, ℕ};
ghost use Rattle.std.specs.Fmt.{WritesOnOk};

use std::fmt;

/// Values with a text of their own: fields of records, and what these hold.
pub trait Shown {
    ghost text: { Self → List ℕ };

    /// Writes the text.
    fn show<W: fmt::Write>(&self, f: &mut fmt::Formatter<W>) -> fmt::Result
        ensures { WritesOnOk W.write_str_gives f.old result (text self.now) f.new };
}
