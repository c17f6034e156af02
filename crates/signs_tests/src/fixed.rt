// Fixed signs, accents and typeforms.
use crate::braille::is_string;
use cells::ascii;
use signs::accent::Accent;
use signs::kind::Kind;
use signs::typeform::{Typeform, Typeforms};
use std::test::Fail;

// Signs with their cells: letters by the cells a to z, digits by a to j.
const FIXED: [(&str, &str); 4] = [
    ("ABCDEFGHIJKLMNOPQRSTUVWXYZ", "ABCDEFGHIJKLMNOPQRSTUVWXYZ"),
    ("abcdefghijklmnopqrstuvwxyz", "ABCDEFGHIJKLMNOPQRSTUVWXYZ"),
    ("1234567890", "ABCDEFGHIJ"),
    (" ,.", " 14"),
];

#[test]
fn fixed_signs_and_their_cells(rt: HostRuntime) {
    for (signs, cells) in FIXED {
        for (sign, cell) in signs.bytes().zip(cells.bytes()) {
            let kind = Kind::from(u32::from(sign));
            assert!(rt; kind.is_fixed() && kind.cell().is_some());
            assert_eq!(rt; kind.cell(), ascii::cell_of(cell));
        }
    }
}

#[test]
fn all_other_codes_are_free(rt: HostRuntime) {
    let fixed = (0..0x200u32)
        .filter(|code| Kind::from(*code).is_fixed())
        .count();
    assert!(rt;
        fixed == 65 && Kind::from(0xE9) == Kind::Other && Kind::from(u32::MAX) == Kind::Other
    );
    assert!(rt; Kind::Small(26).cell() == None && Kind::Other.cell() == None);
    assert!(rt; Kind::from(0x30) == Kind::Digit(9) && Kind::from(0x42) == Kind::Capital(1));
}

const ACCENTS: [&str; 10] = ["^*", "^/", "^%", "^]", "@-", "@+", "^3", "^$", "^+", "^&"];

#[test]
fn accents_by_number(rt: HostRuntime) -> Result<(), Fail> {
    for (number, cells) in (1u8..).zip(ACCENTS) {
        let accent = Accent::try_from(number)?;
        assert!(rt; is_string(&accent.cells(), cells));
    }
    assert!(rt; Accent::try_from(0).is_err() && Accent::try_from(11).is_err());
    Ok(())
}

#[test]
fn typeforms_and_their_sets(rt: HostRuntime) {
    let forms = [
        (Typeform::Italic, 1, "."),
        (Typeform::Bold, 2, "^"),
        (Typeform::Underline, 4, "_"),
        (Typeform::Script, 8, "@"),
    ];
    for (number, (form, weight, mark)) in (0u8..).zip(forms) {
        assert!(rt; Typeform::try_from(number) == Ok(form) && form.weight() == weight);
        assert!(rt; is_string(&[form.mark()], mark));
        assert!(rt;
            Typeforms { set: weight }.has(form) && !Typeforms { set: 15 - weight }.has(form)
        );
    }
    assert!(rt; Typeform::try_from(4).is_err());
}
