// House signs: their check, and what they answer.
use crate::braille::is_string;
use crate::small_tables::{NoSigns, OneSign};
use signs::table::{Match, SignTable};
use std::process::Abort;
use std::test::Fail;
use tables::clash::{Clash, HouseRefusal};
use tables::house::{HouseSigns, check_house};
use tables::ueb::Ueb;

const SUN: u32 = 0x2600;

const CLOUD: u32 = 0x2601;

const UMBRELLA: u32 = 0x2602;

fn clash<T: SignTable>(rt: &impl Abort, below: &T, codes: &[u32], position: usize, why: Clash) {
    assert_eq!(rt;
        check_house(below, codes),
        Err(HouseRefusal::ClashAt(position, why))
    );
}

#[test]
fn lists_that_may_be_laid(rt: HostRuntime) {
    assert_eq!(rt; check_house(&Ueb, &[]), Ok(()));
    assert_eq!(rt;
        check_house(&Ueb, &[SUN, CLOUD, 0xE9, 0x10FFFF, 0xE000]),
        Ok(())
    );
    assert_eq!(rt;
        check_house(&NoSigns, &[u32::from('?'), SUN, CLOUD]),
        Ok(())
    );
    assert_eq!(rt; check_house(&OneSign, &[SUN, CLOUD]), Ok(()));
}

#[test]
fn each_kind_of_clash(rt: HostRuntime) {
    for code in [0xD800, 0xDFFF, 0x110000, u32::MAX] {
        clash(&rt, &Ueb, &[SUN, code], 1, Clash::NoScalar);
    }
    for code in [0x41, 0x5A, 0x61, 0x7A, 0x30, 0x39, 0x20, 0x2C, 0x2E] {
        clash(&rt, &NoSigns, &[code], 0, Clash::Fixed);
    }
    clash(&rt, &Ueb, &[SUN, CLOUD, 0x3F], 2, Clash::ListedBelow);
    clash(
        &rt,
        &Ueb,
        &[SUN, CLOUD, UMBRELLA, CLOUD],
        1,
        Clash::StandsTwice,
    );
    clash(
        &rt,
        &OneSign,
        &[SUN, CLOUD, UMBRELLA],
        2,
        Clash::StringTaken,
    );
}

// Too many codes are told first; then the lowest position, of whatever kind; and of one code the first kind.
#[test]
fn the_order_among_clashes(rt: HostRuntime) {
    assert_eq!(rt;
        check_house(&Ueb, &[0x41, SUN, SUN, 0xD800, 0x3F, CLOUD]),
        Err(HouseRefusal::TooMany)
    );
    clash(&rt, &Ueb, &[SUN, 0x41, 0xD800], 1, Clash::Fixed);
    clash(&rt, &Ueb, &[SUN, CLOUD, SUN], 0, Clash::StandsTwice);
    clash(&rt, &Ueb, &[SUN, 0x3F, SUN], 0, Clash::StandsTwice);
    clash(&rt, &Ueb, &[CLOUD, 0x3F, 0x3F], 1, Clash::ListedBelow);
    clash(&rt, &Ueb, &[CLOUD, 0x41, 0x41], 1, Clash::Fixed);
    clash(&rt, &OneSign, &[SUN, CLOUD, 0x2604], 2, Clash::ListedBelow);
}

fn has<T: SignTable>(table: &T, code: u32, cells: &str) -> bool {
    match table.string_of(code) {
        Some(string) => is_string(string, cells) && table.look_up(string) == Match::Whole(code),
        None => false,
    }
}

#[test]
fn five_signs_by_position(rt: HostRuntime) {
    let codes = [SUN, CLOUD, UMBRELLA, 0xE9, 0x1F600];
    let table = HouseSigns::lay(Ueb, &codes);
    for (code, cells) in codes.iter().zip(["@#?", "^#?", "_#?", "\"#?", ".#?"]) {
        assert!(rt; has(&table, *code, cells));
    }
    assert!(rt;
        has(&table, 0x3F, "8") && has(&table, 0x40, "@A") && table.string_of(0x2603).is_none()
    );
    assert!(rt;
        table.look_up(&[8, 60]) == Match::Beginning && table.look_up(&[8]) == Match::Beginning
    );
    assert!(rt;
        table.look_up(&[8, 60, 1]) == Match::Neither && table.look_up(&[60]) == Match::Neither
    );
}

#[test]
fn a_failing_list_lays_nothing(rt: HostRuntime) {
    let table = HouseSigns::lay(Ueb, &[SUN, 0x41]);
    assert!(rt; table.string_of(SUN).is_none() && table.look_up(&[8, 60]) == Match::Neither);
    assert!(rt; table.string_of(0x41).is_none() && has(&table, 0x3F, "8"));
    let many = HouseSigns::lay(NoSigns, &[0x2600, 0x2601, 0x2602, 0x2603, 0x2605, 0x2606]);
    assert!(rt; many.string_of(SUN).is_none() && many.look_up(&[8]) == Match::Neither);
}

// Every house list takes the first string, so none but the empty one goes over another.
#[test]
fn house_signs_over_house_signs(rt: HostRuntime) {
    let below = HouseSigns::lay(Ueb, &[SUN]);
    clash(&rt, &below, &[CLOUD], 0, Clash::StringTaken);
    clash(&rt, &below, &[SUN], 0, Clash::ListedBelow);
    assert_eq!(rt; check_house(&below, &[]), Ok(()));
    let table = HouseSigns::lay(below, &[CLOUD]);
    assert!(rt;
        has(&table, SUN, "@#?") && table.string_of(CLOUD).is_none() && has(&table, 0x3F, "8")
    );
}

#[test]
fn house_signs_over_nothing(rt: HostRuntime) {
    let empty = HouseSigns::lay(NoSigns, &[]);
    assert!(rt; empty.string_of(SUN).is_none() && empty.look_up(&[8]) == Match::Neither);
    let table = HouseSigns::lay(NoSigns, &[SUN]);
    assert!(rt; has(&table, SUN, "@#?") && table.look_up(&[24]) == Match::Neither);
    assert!(rt;
        table.look_up(&[]) == Match::Neither && table.look_up(&[8, 60, 57, 57]) == Match::Neither
    );
}

#[test]
fn refusals_as_they_are_told(rt: HostRuntime) -> Result<(), Fail> {
    let told = [
        (
            HouseRefusal::TooMany,
            "refusal 19: there are more than 5 house codes",
        ),
        (
            HouseRefusal::ClashAt(0, Clash::NoScalar),
            "refusal 20 at position 0: the code is no Unicode scalar value",
        ),
        (
            HouseRefusal::ClashAt(1, Clash::Fixed),
            "refusal 20 at position 1: the code is a fixed sign",
        ),
        (
            HouseRefusal::ClashAt(2, Clash::ListedBelow),
            "refusal 20 at position 2: the table below has the code",
        ),
        (
            HouseRefusal::ClashAt(3, Clash::StandsTwice),
            "refusal 20 at position 3: the code stands twice in the list",
        ),
        (
            HouseRefusal::ClashAt(4, Clash::StringTaken),
            "refusal 20 at position 4: its string begins one of the table below, or one of those begins it",
        ),
    ];
    for (refusal, text) in told {
        let shown = refusal.to_string(rt.alloc())?;
        assert!(rt; shown.as_str() == text);
    }
    Ok(())
}
