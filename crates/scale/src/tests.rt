// The scales by number: readings at every edge, sums, comparisons, lists.
use crate::ceiling::Ceiling;
use crate::weight::{at_least, best, better_of, combine, raise, strictly_better};
use crate::yes::Yes;
use crate::{Ceilings, Distances, Nearest, Scale};
use credential::Record;
use std::cmp::Ordering::{Equal, Greater, Less};

fn bytes<const MOST: u32>(weight: Option<Ceiling<MOST>>) -> Option<u32> {
    weight.map(|ceiling| ceiling.bytes)
}

fn points(weight: Option<Distances>) -> Option<u32> {
    weight.map(|distance| distance.points)
}

fn parts(weight: Option<Nearest>) -> Option<(u32, u32)> {
    weight.map(|pair| (pair.first.points, pair.second.bytes))
}

fn far(distance: i32) -> Option<Distances> {
    Distances::read_credential(Record {
        ceiling: -1,
        distance,
    })
}

fn near(distance: i32, ceiling: i32) -> Option<Nearest> {
    Nearest::read_credential(Record { ceiling, distance })
}

#[test]
fn ceilings_are_read(rt: HostRuntime) {
    // The field, as a credential's, as a threshold's, and as a credential's up to 1,000,000.
    let table = [
        (i32::MIN, None, None, None),
        (-2, None, None, None),
        (-1, Some(2_147_483_647), Some(0), Some(1_000_000)),
        (0, Some(0), Some(0), Some(0)),
        (1, Some(1), Some(1), Some(1)),
        (999_999, Some(999_999), Some(999_999), Some(999_999)),
        (1_000_000, Some(1_000_000), Some(1_000_000), Some(1_000_000)),
        (1_000_001, Some(1_000_001), Some(1_000_001), None),
        (i32::MAX, Some(2_147_483_647), Some(2_147_483_647), None),
    ];
    for (ceiling, credential, threshold, low) in table {
        // The distance is unreadable, and another scale's matter.
        let stated = Record {
            ceiling,
            distance: -2,
        };
        assert_eq!(rt; bytes(Ceilings::read_credential(stated)), credential);
        assert_eq!(rt; bytes(Ceilings::read_threshold(stated)), threshold);
        assert_eq!(rt; bytes(Ceiling::<1_000_000>::read_credential(stated)), low);
    }
}

#[test]
fn distances_are_read(rt: HostRuntime) {
    // The field, as a credential's and as a threshold's.
    let table = [
        (i32::MIN, None, None),
        (-2, None, None),
        (-1, None, Some(1_000_000)),
        (0, Some(0), Some(0)),
        (1, Some(1), Some(1)),
        (999_999, Some(999_999), Some(999_999)),
        (1_000_000, Some(1_000_000), Some(1_000_000)),
        (1_000_001, None, None),
        (i32::MAX, None, None),
    ];
    for (distance, credential, threshold) in table {
        let stated = Record {
            ceiling: -2,
            distance,
        };
        assert_eq!(rt; points(Distances::read_credential(stated)), credential);
        assert_eq!(rt; points(Distances::read_threshold(stated)), threshold);
    }
}

#[test]
fn yes_and_pairs_are_read(rt: HostRuntime) {
    // Distance and ceiling, as a credential's and as a threshold's.
    let table = [
        (0, -1, Some((0, 2_147_483_647)), Some((0, 0))),
        (1_000_000, 0, Some((1_000_000, 0)), Some((1_000_000, 0))),
        (-1, -1, None, Some((1_000_000, 0))),
        (-1, i32::MAX, None, Some((1_000_000, 2_147_483_647))),
        (1_000_001, 5, None, None),
        (5, -2, None, None),
        (i32::MIN, i32::MIN, None, None),
    ];
    for (distance, ceiling, credential, threshold) in table {
        let stated = Record { ceiling, distance };
        assert_eq!(rt; parts(Nearest::read_credential(stated)), credential);
        assert_eq!(rt; parts(Nearest::read_threshold(stated)), threshold);
        assert_eq!(rt; Yes::read_credential(stated), Some(Yes));
        assert_eq!(rt; Yes::read_threshold(stated), Some(Yes));
    }
}

#[test]
fn sums_come_out(rt: HostRuntime) {
    assert_eq!(rt;
        points(combine(far(600_000), far(400_000))),
        Some(1_000_000)
    );
    assert_eq!(rt; combine(far(600_000), far(400_001)), None);
    assert_eq!(rt; combine(far(1_000_000), far(1_000_000)), None);
    assert_eq!(rt; combine(far(0), None), None);
    assert_eq!(rt; combine(far(7), Some(Distances::full())), far(7));
    assert_eq!(rt; combine(near(1, 800), near(3, 2000)), near(4, 800));
    assert_eq!(rt; combine(near(1_000_000, 800), near(1, 2000)), None);
    assert_eq!(rt; combine(Some(Yes), Some(Yes)), Some(Yes));
    assert_eq!(rt; combine(Some(Yes), None), None);
}

#[test]
fn weights_compare(rt: HostRuntime) {
    // Two pairs, and how good the first is beside the second.
    let table = [
        (near(1, 800), near(3, 2000), Greater),
        (near(3, 2000), near(1, 800), Less),
        (near(3, 800), near(3, 2000), Less),
        (near(3, 2000), near(3, 2000), Equal),
        (near(0, 0), near(1, i32::MAX), Greater),
        (near(1_000_000, 0), None, Greater),
        (None, near(1_000_000, 0), Less),
        (None, None, Equal),
        (near(0, -1), Some(Nearest::full()), Equal),
    ];
    for (x, y, order) in table {
        assert_eq!(rt; strictly_better(x, y), order == Greater);
        assert_eq!(rt; strictly_better(y, x), order == Less);
        assert_eq!(rt; at_least(x, y), order != Less);
        assert_eq!(rt; at_least(y, x), order != Greater);
        assert_eq!(rt; better_of(x, y), if order == Less { y } else { x });
    }
    assert!(rt; at_least(far(7), far(7)));
    assert!(rt; strictly_better(far(7), far(8)));
    assert_eq!(rt; better_of(Some(Yes), None), Some(Yes));
}

#[test]
fn lists_are_raised(rt: HostRuntime) {
    let mut list = [near(3, 2000), None, near(1, 800), near(1, 700)];
    assert_eq!(rt; best(&list), near(1, 800));
    assert_eq!(rt; best::<Nearest>(&[]), None);
    assert!(rt; raise(&mut list, 1, near(2, 0)));
    assert!(rt; !raise(&mut list, 1, near(2, 0)));
    assert!(rt; !raise(&mut list, 2, near(1, 799)));
    assert!(rt; !raise(&mut list, 3, None));
    assert!(rt; !raise(&mut list, 4, near(0, 0)));
    assert_eq!(rt;
        list,
        [near(3, 2000), near(2, 0), near(1, 800), near(1, 700)]
    );
}
