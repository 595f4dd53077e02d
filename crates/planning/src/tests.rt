//! Whole answers: a report, a refusal with a place and one without, and too little room.
use crate::answer;

const GOOD: [u8; 37] =
    *b"HT\x01\x01\x02\x00TK\x00\x02\x00\x05\x00\x05\x01\x05METERTK\x00\x04\x00\x07\x00\x07\x02\x04LINEEN";

const OVERLOADED: [u8; 30] =
    *b"HT\x01\x01\x02\x00TK\x00\x01\x00\x01\x00\x01\x01\x01ATK\x00\x01\x00\x02\x00\x02\x02\x01BEN";

// Whether the answer in so much room is this text, with the rest of the room as it was.
fn answers(input: &[u8], room: usize, text: &[u8]) -> bool {
    let mut out = [46u8; 1024];
    let most = room.min(1024);
    let len = answer(input, &mut out[..most]);
    len == text.len()
        && out.starts_with(text)
        && out
            .get(len..)
            .is_some_and(|rest| rest.iter().all(|&byte| byte == 46))
}

#[test]
fn a_report(rt: HostRuntime) {
    assert!(rt;
        answers(
            &GOOD,
            1024,
            b"fixed displacing tasks 2\nstretch 14\n0 METER 2 0 5 meets\n1 LINE 8 0 7 late\nlate\n",
        )
    );
}

#[test]
fn refusals(rt: HostRuntime) {
    assert!(rt; answers(&GOOD[0..12], 1024, b"refused 1 12\n"));
    assert!(rt; answers(&OVERLOADED, 1024, b"refused 10 -\n"));
    assert!(rt; answers(&GOOD, 1023, b"refused 9 -\n"));
    assert!(rt; answers(&GOOD, 11, b""));
}
