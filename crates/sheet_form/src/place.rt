// A place in the text of a sheet.
ghost use Rattle.std.specs.Prelude.{◌+◌, ◌≤◌};

// A place in the text of a sheet, and the number of the line that begins there. A line takes a byte or more.
#[derive(Clone, Copy)]
pub struct Place {
    pub at: usize,
    pub line: u32,
    ghost few_lines: { line ≤ at + 1 },
}
