//! What the programs share: reading a table file from standard input, and printing a refusal.
//! No contract can say which bytes a program reads or prints, so these calls say what they leave in memory, and the bytes to print are made by functions whose contracts define them.
#![tactic(auto)]

ghost use Rattle.std.specs.Prelude.{◌≡◌, ◌≤◌, min, length, take, IfOk};
ghost use Rattle.console.specs.Came.{Came};

use report::{REFUSAL_BYTES, put_bytes, put_refusal};
use std::io;
use std::io::{Read, Write};
use table::Refusal;

/// The longest table file has 440 bytes; one more shows that something follows.
pub const INPUT_BYTES: usize = 441;

// Fills the first `most` bytes from standard input as far as there is input, and answers how many came.
fn fill(rt: &HostRuntime, bytes: &mut [u8], most: usize) -> io::Result<usize>
    ensures { IfOk result (λ n. n ≤ min most (length bytes.old)) }
{
    let end = most.min(bytes.len());
    let mut filled = 0;
    // A loop: `read_exact` fails where the input is shorter, and `read_to_end` wants the heap.
    while filled < end {
        let got = rt.stdin().read(&mut bytes[filled..end])?;
        if got == 0 {
            break;
        }
        filled += got;
    }
    Ok(filled)
}

/// Reads at most `INPUT_BYTES` bytes of standard input into the buffer, as far as there are so many and they fit, and answers how many came.
/// What lies behind them is as it was; so is the whole buffer where reading fails.
pub fn read_input(rt: &HostRuntime, buffer: &mut [u8]) -> io::Result<usize>
    ensures { Came buffer.old buffer.new result }
{
    let mut room = [0u8; INPUT_BYTES];
    let len = fill(rt, &mut room, buffer.len())?;
    Ok(put_bytes(buffer, 0, front(&room, len)))
}

/// The first bytes; all of them where there are fewer.
pub fn front(bytes: &[u8], len: usize) -> &[u8]
    ensures { result.now ≡ take (min len (length bytes.now)) bytes.now }
{
    bytes.get(..len).unwrap_or(bytes)
}

/// Prints the line that `report::put_refusal` writes.
pub fn print_refusal(rt: &HostRuntime, refusal: Refusal) -> io::Result<()> {
    let mut line = [0u8; REFUSAL_BYTES];
    let len = put_refusal(&mut line, refusal);
    rt.stdout().write_all(front(&line, len))
}
