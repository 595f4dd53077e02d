//! A lent output that is written word by word.
ghost use Rattle.std.specs.Prelude.{◌≡◌, decimal};
ghost use Rattle.report.specs.Text.{followed};

use crate::place::{put_bytes, put_number};

pub(crate) const SPACE: u8 = b' ';

pub(crate) const NEWLINE: u8 = b'\n';

// A lent output, and the place from which on it is free.
// Text goes onto it by these calls and not by `write!`: the library does not promise when a write by `write!` succeeds, and a
// report always comes where 1,024 bytes are lent.
#[derive(Drop)]
pub(crate) struct Page<'a> {
    out: &'a mut [u8],
    free: usize,
}

impl<'a> Page<'a> {
    ghost use Rattle.report.specs.Written.{Written};

    pub(crate) fn new(out: &'a mut [u8]) -> Page<'a>
        ensures same { result.out.now ≡ out.old }
        ensures same_reference { result.out.ghost_name ≡ out.entry.ghost_name }
        ensures start { result.free ≡ 0 }
    {
        Page { out, free: 0 }
    }

    // How many bytes were written, where all had room.
    pub(crate) fn written(&self) -> usize
        ensures { result ≡ self.now.free }
    {
        self.free
    }

    // Writes a word and the byte behind it.
    pub(crate) fn word(&mut self, word: &[u8], end: u8)
        ensures { Written self.old (followed word.now end) self.new }
    {
        self.free += put_bytes(self.out, self.free, word);
        self.free += put_bytes(self.out, self.free, &[end]);
    }

    // Writes a number in decimal and the byte behind it.
    pub(crate) fn number(&mut self, number: u32, end: u8)
        ensures { Written self.old (followed (decimal number) end) self.new }
    {
        self.free += put_number(self.out, self.free, number);
        self.free += put_bytes(self.out, self.free, &[end]);
    }
}
