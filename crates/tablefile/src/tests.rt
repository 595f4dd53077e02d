//! A file of two tasks, and one damage of it for each refusal.
use crate::read_table;
use table::{Refusal, Table};

// The file, and a byte behind it.
const LEN: usize = 37;

const FILE: [u8; 38] =
    *b"HT\x01\x01\x02\x00TK\x00\x02\x00\x05\x00\x05\x01\x05METERTK\x00\x04\x00\x0a\x00\x0a\x02\x04LINEEN.";

#[test]
fn a_good_file(rt: HostRuntime) {
    assert_eq!(rt; tasks(&FILE[..LEN]), Ok(2));
}

#[test]
fn each_refusal(rt: HostRuntime) {
    assert_eq!(rt; tasks(&FILE[..36]), Err(Refusal::Ended { place: 36 }));
    assert_eq!(rt; damaged(7, 0x54), Err(Refusal::WrongMark { place: 6 }));
    assert_eq!(rt; damaged(5, 1), Err(Refusal::HeaderRange { place: 5 }));
    assert_eq!(rt; damaged(12, 1), Err(Refusal::TaskRange { place: 12 }));
    assert_eq!(rt; damaged(29, 1), Err(Refusal::RankTaken { place: 29 }));
    assert_eq!(rt; damaged(18, 0x6d), Err(Refusal::NameByte { place: 18 }));
    assert_eq!(rt; tasks(&FILE), Err(Refusal::Trailing { place: LEN }));
}

// How many tasks the table has that the bytes say.
fn tasks(bytes: &[u8]) -> Result<usize, Refusal> {
    let mut table = Table::fresh();
    read_table(bytes, &mut table)?;
    Ok(table.count())
}

fn damaged(at: usize, byte: u8) -> Result<usize, Refusal> {
    let mut file = FILE;
    if at < LEN {
        file[at] = byte;
    }
    tasks(&file[0..LEN])
}
