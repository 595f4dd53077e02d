//! Writing bytes and numbers into lent output from a place on.
ghost use Rattle.std.specs.Prelude.{decimal};
ghost use Rattle.report.specs.Pasted.{Put};

use itoa::Buffer;

/// Writes all the bytes from the place on and answers how many; where they do not fit it writes nothing and answers 0.
// Not an Option: the answer is a count, and 0 is how many bytes were written then, which callers add to their place as any other.
pub fn put_bytes(out: &mut [u8], at: usize, bytes: &[u8]) -> usize
    ensures { Put out.old at bytes.now out.new result }
{
    let len = bytes.len();
    match at.checked_add(len) {
        Some(end) if end <= out.len() => {
            out[at..end].copy_from_slice(bytes);
            len
        }
        _ => 0,
    }
}

/// Writes the number in decimal from the place on and answers how many digits; where they do not fit it writes nothing and answers 0.
// Not an Option: a count, as above.
pub fn put_number(out: &mut [u8], at: usize, number: u32) -> usize
    ensures { Put out.old at (decimal number) out.new result }
{
    put_bytes(out, at, Buffer::new().format(number).as_bytes())
}

#[cfg(test)]
mod tests {
    use super::*;

    #[test]
    fn all_or_nothing(rt: HostRuntime) {
        let mut out = [46u8; 7];
        assert_eq!(rt; put_number(&mut out, 1, 60_000), 5);
        assert!(rt; out == *b".60000.");
        assert_eq!(rt; put_number(&mut out, 3, 60_000), 0);
        assert_eq!(rt; put_bytes(&mut out, 4, b"ab"), 2);
        assert_eq!(rt; put_number(&mut out, 6, 0), 1);
        assert!(rt; out == *b".600ab0");
    }
}
