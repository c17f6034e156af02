// What the commands do.
use crate::alike::alike;
use cells::refusal::CopyRefusal;
use cells::strip::Place;
use console::carrier::Carrier;
use console::convert::convert;
use console::show::Notation;
use std::test::Fail;

#[test]
fn converted_there_and_back(rt: HostRuntime) -> Result<(), Fail> {
    let label = b"BIN #B,B OR #E;B";
    let mut wide = [0; 48];
    let mut narrow = [0; 16];
    let dots = convert(Carrier::Ascii, label, Carrier::Unicode, &mut wide)?;
    let back = convert(Carrier::Unicode, dots, Carrier::Ascii, &mut narrow)?;
    assert!(rt; alike(dots, "⠃⠊⠝⠀⠼⠃⠠⠃⠀⠕⠗⠀⠼⠑⠰⠃".as_bytes()) && alike(back, label));
    Ok(())
}

#[test]
fn conversion_refused(rt: HostRuntime) {
    let mut memory = [0; 8];
    let cut = [0xE2, 0xA0, 0x81, 0xE2, 0xA0];
    assert_eq!(rt;
        convert(Carrier::Ascii, b"ABC", Carrier::Unicode, &mut memory).err(),
        Some(CopyRefusal::NoRoomFor(3))
    );
    assert_eq!(rt;
        convert(Carrier::Unicode, &cut, Carrier::Ascii, &mut memory).err(),
        Some(CopyRefusal::SpoiltAt(1))
    );
    assert!(rt;
        alike(Carrier::Unicode.group(&cut, 1), &[0xE2, 0xA0])
            && alike(Carrier::Ascii.group(&cut, 2), &[0x81])
    );
    assert!(rt;
        Carrier::Ascii.group(&cut, 5).is_empty()
            && Carrier::Unicode.group(&cut, usize::MAX).is_empty()
    );
}

#[test]
fn shown_to_a_person(rt: HostRuntime) {
    let cells = [
        (0, ' ', '⠀'),
        (1, 'a', '⠁'),
        (53, 'z', '⠵'),
        (60, '#', '⠼'),
        (63, '=', '⠿'),
        (64, '~', '~'),
    ];
    for (cell, character, dots) in cells {
        let place = Place::Cell(cell);
        assert!(rt;
            Notation::BrailleAscii.show(place) == character && Notation::Dots.show(place) == dots
        );
    }
    assert!(rt;
        Notation::BrailleAscii.show(Place::Spoilt) == '~'
            && Notation::Dots.show(Place::Spoilt) == '~'
    );
}
