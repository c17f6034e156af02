// The UEB table, row by row.
use crate::braille::is_string;
use signs::listing::Listing;
use signs::table::{Match, SignTable};
use tables::ueb::{Ueb, string_number};

// Each print sign with its string in Braille ASCII.
const ROWS: [(char, &str); 50] = [
    (';', "2"),
    (':', "3"),
    ('!', "6"),
    ('?', "8"),
    ('\'', "'"),
    ('-', "-"),
    ('(', "\"<"),
    (')', "\">"),
    ('[', ".<"),
    (']', ".>"),
    ('{', "_<"),
    ('}', "_>"),
    ('<', "@<"),
    ('>', "@>"),
    ('/', "_/"),
    ('\\', "_*"),
    ('|', "_\\"),
    ('_', ".-"),
    ('\u{2014}', ",-"),
    ('"', ",7"),
    ('“', "^8"),
    ('”', "^0"),
    ('‘', ",8"),
    ('’', ",0"),
    ('«', "_8"),
    ('»', "_0"),
    ('@', "@A"),
    ('&', "@&"),
    ('#', "_?"),
    ('%', ".0"),
    ('*', "\"9"),
    ('•', "_4"),
    ('~', "@9"),
    ('^', "@5"),
    ('+', "\"6"),
    ('\u{2212}', "\"-"),
    ('×', "\"8"),
    ('÷', "\"/"),
    ('=', "\"7"),
    ('°', "^J"),
    ('$', "@S"),
    ('£', "@L"),
    ('€', "@E"),
    ('¥', "@Y"),
    ('¢', "@C"),
    ('§', "^S"),
    ('¶', "^P"),
    ('©', "^C"),
    ('®', "^R"),
    ('™', "^T"),
];

fn found(number: usize, sign: char, cells: &str) -> bool {
    let code = u32::from(sign);
    let (Some(string), Some(listed)) = (Ueb.string_of(code), Ueb.listed(number)) else {
        return false;
    };
    string_number(sign) == Some(number)
        && is_string(string, cells)
        && listed.code == code
        && is_string(listed.string, cells)
        && Ueb.look_up(string) == Match::Whole(code)
}

#[test]
fn fifty_signs_there_and_back(rt: HostRuntime) {
    assert!(rt; Ueb.count() == 50 && Ueb.listed(50).is_none());
    for (number, (sign, cells)) in ROWS.iter().enumerate() {
        assert!(rt; found(number, *sign, cells));
    }
}

#[test]
fn nothing_else_is_listed(rt: HostRuntime) {
    let listed = (0..0x3000u32)
        .filter(|code| Ueb.string_of(*code).is_some())
        .count();
    assert!(rt; listed == 50);
    for code in [0x41, 0x20, 0xD800, 0x2600, 0x110000, u32::MAX] {
        assert!(rt; Ueb.string_of(code).is_none());
    }
}

// The first cells of strings, cells of no string, no cells and four cells.
#[test]
fn beginnings(rt: HostRuntime) {
    for first in [8, 16, 24, 32, 40, 56] {
        assert!(rt; Ueb.look_up(&[first]) == Match::Beginning);
    }
    assert!(rt; Ueb.look_up(&[38]) == Match::Whole(u32::from('?')));
    assert!(rt; Ueb.look_up(&[1]) == Match::Neither && Ueb.look_up(&[60]) == Match::Neither);
    assert!(rt;
        Ueb.look_up(&[38, 38]) == Match::Neither && Ueb.look_up(&[8, 60]) == Match::Neither
    );
    assert!(rt; Ueb.look_up(&[]) == Match::Neither && Ueb.look_up(&[8, 1, 1, 1]) == Match::Neither);
}
