//! Making a name from its letters, and reading them.
ghost use Rattle.std.specs.Prelude.{◌≡◌, ℕ, [], ◌∷◌, length, codes};
ghost use Rattle.table.specs.Content.{letters, Named};
ghost use Rattle.table.specs.Sporadic.{name_byte, name_in_range, every};

use super::{MOST_LETTERS, Name};

/// Whether a byte may stand in a name: A-Z and 0-9.
pub fn is_name_byte(byte: u8) -> bool
    ensures { result ≡ name_byte byte }
{
    matches!(byte, b'A'..=b'Z' | b'0'..=b'9')
}

fn all_name_bytes(bytes: &[u8]) -> bool
    ensures { result ≡ every name_byte bytes.now }
{
    bytes.iter().all(|&byte| is_name_byte(byte))
}

impl Name {
    /// The name with these letters; none where they are not 1 to 8 of A-Z and 0-9.
    pub fn new(bytes: &[u8]) -> Option<Name>
        ensures { Named bytes.now result }
    {
        let len = bytes.len();
        if !(1..=MOST_LETTERS).contains(&len) || !all_name_bytes(bytes) {
            return None;
        }
        let mut room = [0u8; MOST_LETTERS];
        room[..len].copy_from_slice(bytes);
        Some(Name { bytes: room, len })
    }

    /// The name of one letter A, as a fresh table has it.
    pub fn single() -> Name
        ensures { letters result ≡ codes "A" }
    {
        Name {
            bytes: [b'A', 0, 0, 0, 0, 0, 0, 0],
            len: 1,
        }
    }

    /// The letters of the name.
    pub fn as_bytes(&self) -> &[u8]
        ensures { result.now ≡ letters self.now }
    {
        &self.bytes[..self.len]
    }

    /// The letters as text.
    pub fn as_str(&self) -> &str
        ensures { result.now ≡ letters self.now }
    {
        str::from_utf8(self.as_bytes()).unwrap()
    }
}
