// Room for a program to lend, and input read into it.
#![tactic(auto)]

ghost use Rattle.std.specs.Prelude.{◌≡◌, ◌≤◌, length, IfOk};

use std::io::{Read, Result};

// Reads until the buffer is full or the input ends; how many bytes it put at the buffer's start.
pub fn read_full(reader: &mut impl Read, buffer: &mut [u8]) -> Result<usize>
    ensures { IfOk result (λ n. n ≤ length buffer.new) }
{
    let mut done = 0;
    // A read says how many bytes it put, so no range walks the buffer.
    while done < buffer.len() {
        let n = reader.read(&mut buffer[done..])?;
        if n == 0 {
            break;
        }
        done += n;
    }
    Ok(done)
}

// Room for N bytes. The contract tells the length alone, so no proof of a caller computes on the zeros.
pub fn byte_room<const N: usize>() -> [u8; N]
    ensures { N ≡ length result }
{
    [0; N]
}

// Room for N numbers.
pub fn number_room<const N: usize>() -> [u64; N]
    ensures { N ≡ length result }
{
    [0; N]
}
