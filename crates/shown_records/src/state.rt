//! The state of an object, as a line shows it.
ghost use Rattle.std.specs.Prelude.{◌≡◌, Some};
ghost use Rattle.script_lines.specs.Text.{state_line, state_text};
ghost use Rattle.shown_records.specs.Rows.{rows_text};

use script_lines::text::ShownState;
use std::fmt;
use store_tables::StateRow;

/// The values of an object, by ascending keys.
#[derive(Drop)]
pub struct ShownStates {
    pub rows: Vec<StateRow>,
}

fn shown_row(row: &StateRow) -> ShownState<'_>
    ensures { state_text result ≡ state_line row.now.key row.now.value }
{
    ShownState {
        key: row.key.as_slice(),
        value: row.value.as_slice(),
    }
}

impl fmt::Display for ShownStates {
    ghost output = { λ shown. Some (rows_text shown.rows.items) };

    fn fmt<W: fmt::Write>(&self, f: &mut fmt::Formatter<W>) -> fmt::Result {
        for row in &self.rows {
            let state = shown_row(row);
            write!(f, "{state}\n")?;
        }
        write!(f, "end\n")
    }
}
