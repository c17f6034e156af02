// What the traits leave to whoever uses them: a listing may own its strings, may stand behind `dyn`, and may be an
// `ArrayVec`, which lends its signs; and a generic struct may hold house signs over house signs.
ghost use Rattle.std.specs.Prelude.{[], ◌∷◌};

use arrayvec::ArrayVec;
use signs::listing;
use signs::listing::{Listed, Listing, Written};
use signs::table::{Match, SignTable};
use std::test::Fail;
use tables::house::HouseSigns;
use tables::ueb::Ueb;

#[derive(Drop)]
struct Own {
    code: u32,
    string: Vec<u8>,
}

impl Listing for Own {
    ghost entries = { λ o. (o.code, o.string.items) ∷ [] };

    fn count(&self) -> usize {
        1
    }

    fn listed(&self, number: usize) -> Option<Listed<'_>> {
        match number {
            0 => Some(Listed {
                code: self.code,
                string: self.string.as_slice(),
            }),
            _ => None,
        }
    }
}

fn how_many(listing: &dyn Listing) -> usize {
    listing.count()
}

fn code_at(listing: &dyn Listing, number: usize) -> Option<u32> {
    Some(listing.listed(number)?.code)
}

#[test]
fn a_listing_that_owns_its_string(rt: HostRuntime) -> Result<(), Fail> {
    let own = Own {
        code: 0x2604,
        string: vec![in rt.alloc(); 56, 60]?,
    };
    assert!(rt; how_many(&own) == 1 && how_many(&Ueb) == 50);
    assert!(rt; code_at(&own, 0) == Some(0x2604) && code_at(&own, 1) == None);
    assert!(rt; code_at(&Ueb, 1) == Some(0x3A) && code_at(&Ueb, 50) == None);
    assert_eq!(rt; listing::look_up(&own, &[56]), Match::Beginning);
    assert_eq!(rt; listing::look_up(&own, &[56, 60]), Match::Whole(0x2604));
    assert_eq!(rt; listing::look_up(&own, &[56, 60, 57]), Match::Neither);
    assert!(rt; listing::string_of(&own, 0x2604) == Some(&[56, 60]));
    assert!(rt; listing::string_of(&own, 0x2605) == None);
    Ok(())
}

#[test]
fn a_listing_that_is_written_out(rt: HostRuntime) {
    let mut signs: ArrayVec<Listed<'static>, 2> = ArrayVec::new();
    signs.push(Listed {
        code: 0x2604,
        string: &[56, 60],
    });
    assert!(rt; signs.signs().len() == 1 && signs.count() == 1 && signs.listed(1).is_none());
    assert_eq!(rt; listing::look_up(&signs, &[56, 60]), Match::Whole(0x2604));
}

// A shop's own signs over those of its chain.
#[derive(Drop)]
struct Shop<T: SignTable> {
    table: HouseSigns<HouseSigns<T>>,
}

fn knows<T: SignTable>(shop: &Shop<T>, code: u32) -> bool {
    shop.table.string_of(code).is_some()
}

#[test]
fn house_signs_over_a_table_of_choice(rt: HostRuntime) {
    let shop = Shop {
        table: HouseSigns::lay(HouseSigns::lay(Ueb, &[]), &[0x2600]),
    };
    assert!(rt; knows(&shop, 0x2600) && knows(&shop, 0x3A) && !knows(&shop, 0x2601));
}
