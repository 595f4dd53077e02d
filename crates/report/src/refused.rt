//! The line that tells a refusal.
ghost use Rattle.std.specs.Prelude.{◌≤◌, length};
ghost use Rattle.report.specs.Pasted.{Put, Appended};
ghost use Rattle.report.specs.RefusalText.{place_word, refusal_text, refusal_bytes};
ghost use Rattle.report.specs.Text.{followed};
ghost use Rattle.report.specs.Written.{Written};

use crate::page::{NEWLINE, Page, SPACE};
use crate::place::put_bytes;
use itoa::Buffer;
use table::Refusal;

/// The longest refusal line: `refused`, a number of two digits, a place of twenty.
pub const REFUSAL_BYTES: usize = 32;

// The place, and a dash where there is none.
fn put_place(page: &mut Page, place: Option<usize>)
    ensures written { Written page.old (followed (place_word place) 10) page.new }
    ensures few { length (place_word place) ≤ 20 }
{
    match place {
        // By the library and not by `put_number`: a place may take more than 32 bits.
        Some(place) => page.word(Buffer::new().format(place).as_bytes(), NEWLINE),
        None => page.word(b"-", NEWLINE),
    }
}

// The whole line at the start of the output, and its length where it fits.
fn put_line(out: &mut [u8], refusal: Refusal) -> usize
    ensures line { Appended out.old 0 (refusal_text refusal) out.new result }
    ensures short { length (refusal_text refusal) ≤ refusal_bytes }
{
    let mut page = Page::new(out);
    page.word(b"refused", SPACE);
    page.number(u32::from(refusal.number()), SPACE);
    put_place(&mut page, refusal.place());
    page.written()
}

/// Writes the line of the refusal at the start of the output and answers its length; where it does not fit it writes nothing and answers 0.
/// In `REFUSAL_BYTES` bytes every line fits.
// Not an Option: the answer is a count of bytes, as of `put_bytes`.
pub fn put_refusal(out: &mut [u8], refusal: Refusal) -> usize
    ensures line { Put out.old 0 (refusal_text refusal) out.new result }
    ensures short { length (refusal_text refusal) ≤ refusal_bytes }
{
    let mut line = [0u8; REFUSAL_BYTES];
    let len = put_line(&mut line, refusal);
    put_bytes(out, 0, &line[..len])
}

#[cfg(test)]
mod tests {
    use super::*;

    #[test]
    fn with_a_place_and_without(rt: HostRuntime) {
        let mut out = [46u8; 14];
        assert_eq!(rt; put_refusal(&mut out, Refusal::TaskRange { place: 12 }), 13);
        assert!(rt; out == *b"refused 4 12\n.");
        assert_eq!(rt; put_refusal(&mut out, Refusal::NoBusyPeriod), 13);
        assert!(rt; out == *b"refused 10 -\n.");
        assert_eq!(rt;
            put_refusal(&mut out, Refusal::Trailing { place: 4_400 }),
            0
        );
        assert!(rt; out == *b"refused 10 -\n.");
    }

    #[test]
    fn the_longest_place(rt: HostRuntime) {
        let mut out = [46u8; REFUSAL_BYTES];
        assert_eq!(rt;
            put_refusal(&mut out, Refusal::Ended { place: usize::MAX }),
            31
        );
        assert!(rt; out == *b"refused 1 18446744073709551615\n.");
    }
}
