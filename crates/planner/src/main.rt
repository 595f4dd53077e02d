//! Reads a table file from standard input and prints its report, or why it is refused.
#![tactic(auto)]

use console::{INPUT_BYTES, front, read_input};
use planning::answer;
use report::OUTPUT_BYTES;
use std::io;
use std::io::Write;

fn main(rt: HostRuntime) -> io::Result<()> {
    let mut buffer = [0u8; INPUT_BYTES];
    let len = read_input(&rt, &mut buffer)?;
    let mut out = [0u8; OUTPUT_BYTES];
    let written = answer(front(&buffer, len), &mut out);
    rt.stdout().write_all(front(&out, written))
}
