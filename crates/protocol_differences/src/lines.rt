// The line of a field, which is written where the field differs.
ghost use Rattle.std.specs.Fmt.{WritesOnOk};
ghost use Rattle.std.specs.Prelude.{false};
ghost use Rattle.protocol_differences.specs.Lines.{compared_line, id_line};

use protocol_equality::{Same, SameBesidesPayload};
use protocol_types::{Shown, show_labelled};
use std::fmt;
use std::fmt::Write;

#[tactic(auto, unfolding(crate::specs::Lines::compared_line))]
/// Writes the field, where it is not the same in both.
pub(crate) fn write_field<T: Same + Shown, W: fmt::Write>(
    f: &mut fmt::Formatter<W>,
    field: &str,
    actual: &T,
    expected: &T,
) -> fmt::Result
    ensures { WritesOnOk W.write_str_gives f.old result (compared_line (T.same actual.now expected.now) field.now (T.text actual.now) (T.text expected.now)) f.new }
{
    if actual.is_same(expected) {
        return Ok(());
    }
    write!(f, "\n   {field}")?;
    show_labelled(": ", actual, f)?;
    show_labelled(" != ", expected, f)
}

#[tactic(auto, unfolding(crate::specs::Lines::compared_line))]
/// Writes the field, which holds a payload, where it is not the same in both.
pub(crate) fn write_payload<T: SameBesidesPayload + Shown, W: fmt::Write>(
    f: &mut fmt::Formatter<W>,
    field: &str,
    actual: &T,
    expected: &T,
) -> fmt::Result
    ensures { WritesOnOk W.write_str_gives f.old result (compared_line (T.same_besides false actual.now expected.now) field.now (T.text actual.now) (T.text expected.now)) f.new }
{
    if actual.is_same_besides_payload(expected, false) {
        return Ok(());
    }
    write!(f, "\n   {field}")?;
    show_labelled(": ", actual, f)?;
    show_labelled(" != ", expected, f)
}

/// Writes the number of the completion that answers the command, where it is not the same in both.
pub(crate) fn write_id<W: fmt::Write>(
    f: &mut fmt::Formatter<W>,
    actual: u32,
    expected: u32,
) -> fmt::Result
    ensures { WritesOnOk W.write_str_gives f.old result (id_line actual expected).text f.new }
{
    write_field(f, "result_completion_id", &actual, &expected)
}
