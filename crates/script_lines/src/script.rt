//! The lines of a whole script.

ghost use Rattle.std.specs.Prelude.{◌≡◌, ◌==◌, ℕ, ◌+◌, ◌<◌, ◌≤◌, ◌^◌, length, [], ◌∷◌, IfSome};
ghost use Rattle.std.specs.List.{position, slice_split};
ghost use Rattle.std.specs.Option.{option_map_or};
ghost use Rattle.script_lines.specs.Script.{is_skipped, lines_of_rest, numbered_lines};

/// A line that says something, without its line feed. Skipped lines are counted: the first line of the
/// script has the number 1.
#[derive(Clone, Copy)]
pub struct NumberedLine<'a> {
    pub number: usize,
    pub bytes: &'a [u8],
}

/// The lines of a script that are still to come. Empty lines and those that begin with `#` are left out.
#[derive(Drop)]
pub struct ScriptLines<'a> {
    rest: Option<&'a [u8]>,
    passed: usize,
    ghost counted: { passed + length (lines_of_rest rest) ≤ 2 ^ 63 + 1 },
}

impl<'a> ScriptLines<'a> {
    ghost use Rattle.script_lines.specs.ScriptLines.{lines_left};

    /// All lines of a script.
    pub fn new(script: &'a [u8]) -> ScriptLines<'a>
        ensures { lines_left result ≡ numbered_lines script.now }
    {
        ScriptLines {
            rest: Some(script),
            passed: 0,
        }
    }
}

/// The place of the first line feed.
fn place_of_feed(script: &[u8]) -> Option<usize>
    ensures place { result ≡ position (λ byte. byte == 10) script.now }
    ensures within { IfSome result (λ place. place < length script.now) }
{
    script.iter().position(|byte| *byte == b'\n')
}

/// The first line, and what stands behind its line feed, if it has one.
fn first_line(script: &[u8]) -> (&[u8], Option<&[u8]>)
    ensures { slice_split (λ byte. byte == 10) script.now ≡ result.0.now ∷ option_map_or (λ rest. slice_split (λ byte. byte == 10) rest.now) result.1 [] }
{
    let Some(place) = place_of_feed(script) else {
        return (script, None);
    };
    (&script[..place], Some(&script[place + 1..]))
}

/// Whether a line says nothing.
fn is_skipped(line: &[u8]) -> bool
    ensures { result ≡ is_skipped line.now }
{
    match line {
        [] => true,
        [first, ..] => *first == b'#',
    }
}

impl<'a> Iterator for ScriptLines<'a> {
    type Item = NumberedLine<'a>;

    ghost use Rattle.std.specs.Iterator.{YieldsFirstBy, item_count};
    ghost use Rattle.script_lines.specs.ScriptLines.{lines_left, line_numbered};

    ghost next_gives = { YieldsFirstBy line_numbered lines_left };

    ghost remaining = { item_count lines_left };

    fn next(&mut self) -> Option<NumberedLine<'a>> {
        while let Some(rest) = self.rest {
            let (bytes, rest) = first_line(rest);
            self.rest = rest;
            self.passed += 1;
            if !is_skipped(bytes) {
                let number = self.passed;
                return Some(NumberedLine { number, bytes });
            }
        }
        None
    }
}
