//! The fields of a table file, each read at the reader's place, which then stands behind it.
ghost use Rattle.std.specs.Prelude.{◌≡◌, ◌+◌, map, length, Ok, Err, MatchResult, OnOk, IfOk};
ghost use Rattle.table.specs.Content.{sporadic};
ghost use Rattle.tablefile.specs.Fields.{Tested, Decoded, byte_at, number_at, rank_at, letter_at, letters_at, name_at};

use super::Reader;
use table::checked::build::{rank_in_range, rank_is_free};
use table::{Refusal, Task, is_name_byte};

impl<'a> Reader<'a> {
    fn byte(&mut self) -> Result<u8, Refusal>
        ensures value { result ≡ byte_at self.old.src.now self.old.pos }
        ensures place { OnOk result (self.new.pos ≡ self.old.pos + 1) }
        ensures input { self.new.src ≡ self.old.src }
    {
        let place = self.src.len();
        let byte = *self.src.get(self.pos).ok_or(Refusal::Ended { place })?;
        self.pos += 1;
        Ok(byte)
    }

    // A number of one byte that passes the test.
    pub(super) fn small<F: FnOnce(usize) -> bool>(
        &mut self,
        passes: F,
        refusal: Refusal,
    ) -> Result<usize, Refusal>
        requires { F.IsAlwaysCallable passes }
        ensures value { Tested (byte_at self.old.src.now self.old.pos) (F.post passes) refusal result }
        ensures place { OnOk result (self.new.pos ≡ self.old.pos + 1) }
        ensures input { self.new.src ≡ self.old.src }
    {
        let number = usize::from(self.byte()?);
        passes(number).then_some(number).ok_or(refusal)
    }

    // A number of two bytes, the high one first, that passes the test. What is read differs from `small`, not the
    // type alone: one generic function would need a trait for these two lines.
    pub(super) fn number<F: FnOnce(u32) -> bool>(
        &mut self,
        passes: F,
        refusal: Refusal,
    ) -> Result<u32, Refusal>
        requires { F.IsAlwaysCallable passes }
        ensures value { Tested (number_at self.old.src.now self.old.pos) (F.post passes) refusal result }
        ensures place { OnOk result (self.new.pos ≡ self.old.pos + 2) }
        ensures input { self.new.src ≡ self.old.src }
    {
        let number = u32::from(u16::from_be_bytes([self.byte()?, self.byte()?]));
        passes(number).then_some(number).ok_or(refusal)
    }

    // What a byte stands for.
    pub(super) fn code<T: TryFrom<u8> + Drop>(&mut self) -> Result<T, Refusal>
    where
        T::Error: Drop,
        ensures value { Decoded (byte_at self.old.src.now self.old.pos) T.try_from_gives (Refusal.HeaderRange self.old.pos) result }
        ensures place { OnOk result (self.new.pos ≡ self.old.pos + 1) }
        ensures input { self.new.src ≡ self.old.src }
    {
        let place = self.pos;
        T::try_from(self.byte()?).map_err(|_| Refusal::HeaderRange { place })
    }

    // In range first, then different from every earlier rank.
    pub(super) fn rank(&mut self, count: usize, earlier: &[Task]) -> Result<u8, Refusal>
        ensures value { result ≡ rank_at self.old.src.now self.old.pos count (map sporadic earlier.now) }
        ensures place { OnOk result (self.new.pos ≡ self.old.pos + 1) }
        ensures input { self.new.src ≡ self.old.src }
    {
        let place = self.pos;
        let rank = self.byte()?;
        if !rank_in_range(count, rank) {
            return Err(Refusal::TaskRange { place });
        }
        rank_is_free(rank, earlier)
            .then_some(rank)
            .ok_or(Refusal::RankTaken { place })
    }

    fn letter(&mut self) -> Result<u8, Refusal>
        ensures value { result ≡ letter_at self.old.src.now self.old.pos }
        ensures place { OnOk result (self.new.pos ≡ self.old.pos + 1) }
        ensures input { self.new.src ≡ self.old.src }
    {
        let place = self.pos;
        let byte = self.byte()?;
        is_name_byte(byte)
            .then_some(byte)
            .ok_or(Refusal::NameByte { place })
    }

    fn letters(&mut self, len: usize) -> Result<&'a [u8], Refusal>
        ensures value { MatchResult result (λ name. letters_at self.old.src.now self.old.pos len ≡ Ok name.now) (λ why. letters_at self.old.src.now self.old.pos len ≡ Err why) }
        ensures place { IfOk result (λ name. self.new.pos ≡ self.old.pos + length name.now) }
        ensures input { self.new.src ≡ self.old.src }
    {
        let from = self.pos;
        for _ in 0..len {
            self.letter()?;
        }
        Ok(&self.src[from..self.pos])
    }

    // The length of the name, then its letters.
    pub(super) fn name(&mut self) -> Result<&'a [u8], Refusal>
        ensures value { MatchResult result (λ name. name_at self.old.src.now self.old.pos ≡ Ok name.now) (λ why. name_at self.old.src.now self.old.pos ≡ Err why) }
        ensures place { IfOk result (λ name. self.new.pos ≡ self.old.pos + 1 + length name.now) }
        ensures input { self.new.src ≡ self.old.src }
    {
        let len = self.small(
            |len| (1..=8).contains(&len),
            Refusal::TaskRange { place: self.pos },
        )?;
        self.letters(len)
    }
}
