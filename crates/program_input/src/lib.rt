// What the programs read their standard input with: a buffer filled from a reader.
#![tactic(auto)]

ghost use Rattle.std.specs.Prelude.{◌+◌, ◌≤◌, IfOk, length};

use std::io;
use std::io::Read;

// Reads more after the first `filled` bytes of a buffer; returns how many bytes came, 0 at the end of the input.
pub fn read_more(reader: &mut impl Read, buffer: &mut [u8], filled: usize) -> io::Result<usize>
    requires { filled ≤ length buffer.old }
    ensures { IfOk result (λ got. filled + got ≤ length buffer.old) }
{
    reader.read(&mut buffer[filled..])
}

// Reads until a buffer is full or the input ends; returns how many bytes came.
pub fn read_full(reader: &mut impl Read, buffer: &mut [u8]) -> io::Result<usize>
    ensures { IfOk result (λ count. count ≤ length buffer.new) }
{
    let mut filled = 0;
    while filled < buffer.len() {
        let got = read_more(reader, buffer, filled)?;
        if got == 0 {
            return Ok(filled);
        }
        filled += got;
    }
    Ok(filled)
}
