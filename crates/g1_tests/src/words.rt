//! Addresses, and where regions and cards start.
use crate::expecting::expect_equal;
use g1_words::{Fault, Geometry, Object, card_of, header, region_of, slots_of};

#[test]
fn addresses_by_division(rt: HostRuntime) -> Result<(), Fault> {
    let geometry = Geometry::new(16, 4, 4)?;
    for (address, region, card) in [
        (0, 0, 0),
        (15, 0, 3),
        (16, 1, 4),
        (63, 3, 15),
        (640, 40, 160),
    ] {
        let found = (region_of(&geometry, address), card_of(&geometry, address));
        expect_equal(&rt, found, (region, card));
    }
    Ok(())
}

#[test]
fn an_object_by_its_header(rt: HostRuntime) {
    let (size, refs) = (5, 3);
    expect_equal(&rt, slots_of(&Object { at: 16, size, refs }), (17, 3));
    let found = header(&[0, 5 * 4_294_967_296 + 3], 1);
    expect_equal(&rt, found, Object { at: 1, size, refs });
}

#[test]
fn starts_of_regions_and_cards(rt: HostRuntime) -> Result<(), Fault> {
    let geometry = Geometry::new(32, 8, 6)?;
    expect_equal(&rt, geometry.words(), 192);
    for (region, start) in [(0, 0), (1, 32), (5, 160)] {
        expect_equal(&rt, geometry.start(region), start);
    }
    expect_equal(&rt, geometry.cards(), 24);
    for (card, start, region) in [(0, 0, 0), (3, 24, 0), (4, 32, 1), (23, 184, 5)] {
        let found = (geometry.card_start(card), geometry.region_of_card(card));
        expect_equal(&rt, found, (start, region));
    }
    Ok(())
}
