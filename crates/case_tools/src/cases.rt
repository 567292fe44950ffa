// Cases found in one text, and run one after another.
use crate::report;
use std::io;

// Prints the name of each case of these bytes, and runs it. What begins with no case is said to be none.
pub fn run_all<F: Fn(&[u8]) -> io::Result<()>>(
    rt: &impl Print,
    bytes: &[u8],
    word: &[u8],
    run: F,
) -> io::Result<()>
    requires { F.IsAlwaysCallable run }
{
    let mut rest = bytes;
    while let Some(case) = case_files::first_case(rest, word) {
        report::title(rt, case.name)?;
        run(case.text)?;
        rest = case.behind;
    }
    if rest.is_empty() {
        return Ok(());
    }
    report::text(rt, b"no ")?;
    report::text(rt, word)?;
    report::line(rt)
}
