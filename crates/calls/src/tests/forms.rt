//! How forms are added, replaced and compared, and how their ranges are found.
use crate::tests::assertions::assert_same;
use linear_facts::{Atom, Atoms, Change, Form, Multiple, Range, Split, is_at_least};
use std::process::Abort;

/// `constant + coefficient * atom`.
fn form(rt: &impl Abort, constant: u32, atom: u16, coefficient: u32) -> Form<8> {
    let term: Form<8> = Form::<8>::atom(atom)
        .scale(coefficient)
        .expect(rt, "one term has room");
    term.add(&Form::<8>::number(constant))
        .expect(rt, "one term has room")
}

fn sum(rt: &impl Abort, one: &Form<8>, other: &Form<8>) -> Form<8> {
    one.add(other).expect(rt, "two terms have room")
}

const MINUS_ONE: u32 = 0xffff_ffff;

const ZERO: Atom = Atom {
    range: Range { lo: 0, hi: 0 },
    split: None,
};

/// Atom 1 is the sum of atoms 2 and 3.
const SUM: [Atom; 4] = [
    ZERO,
    Atom {
        range: Range { lo: 0, hi: 100 },
        split: Some(Split {
            first: 2,
            second: 3,
        }),
    },
    Atom {
        range: Range { lo: 0, hi: 16 },
        split: None,
    },
    Atom {
        range: Range { lo: 0, hi: 90 },
        split: None,
    },
];

const COUNT: [Atom; 2] = [
    ZERO,
    Atom {
        range: Range { lo: 1, hi: 1024 },
        split: None,
    },
];

#[test]
fn adds_and_replaces(rt: HostRuntime) {
    let x = form(&rt, 7, 1, 2);
    let none = sum(&rt, &x, &form(&rt, 0, 1, 0xffff_fffe));
    // Equal terms cancel.
    assert_same!(rt; none.same(&Form::<8>::number(7)), true);
    let both = sum(&rt, &x, &form(&rt, MINUS_ONE, 2, 1));
    // Two terms are one too many.
    assert_same!(rt; both.add::<8, 1>(&none).is_none(), true);
    // Atoms 1 and 2 change places.
    let forms = [Form::<8>::number(0), Form::<8>::atom(2), Form::<8>::atom(1)];
    let replaced: Form<8> = both.substitute(&forms).expect(&rt, "two terms have room");
    let expected = sum(&rt, &form(&rt, 6, 1, 1), &form(&rt, 0, 2, 2));
    assert_same!(rt; replaced.same(&expected), true);
}

#[test]
fn finds_ranges(rt: HostRuntime) {
    let list = SUM;
    let atoms = Atoms {
        atoms: &list,
        first: None,
        second: None,
    };
    // [0, 100] - [0, 16] alone may be below 0; it is [0, 90] after the split.
    let rest = sum(&rt, &form(&rt, 0, 1, 1), &form(&rt, 0, 2, MINUS_ONE));
    assert_same!(rt; rest.range_of(&atoms), Some(Range { lo: 0, hi: 90 }));
    // 8 - [0, 16] holds 0 and numbers below it.
    let around = form(&rt, 8, 2, MINUS_ONE);
    assert_same!(rt; around.range_of(&atoms), None);
    let changed = Atoms {
        atoms: &list,
        first: None,
        second: Some(Change {
            atom: 2,
            range: Range { lo: 1, hi: 5 },
        }),
    };
    assert_same!(rt; around.range_of(&changed), Some(Range { lo: 3, hi: 7 }));
}

#[test]
fn compares_by_differences(rt: HostRuntime) {
    let list = COUNT;
    let atoms = Atoms {
        atoms: &list,
        first: None,
        second: None,
    };
    let count = form(&rt, 0, 1, 1);
    let less_one = form(&rt, MINUS_ONE, 1, 1);
    let eight = |form| Multiple { factor: 8, form };
    // 2 + 8 * n is at least 10 + 8 * (n - 1), and not at least 11 + 8 * (n - 1).
    assert_same!(rt; is_at_least(2, &[eight(&count)], 10, &[eight(&less_one)], &atoms), true);
    assert_same!(rt; is_at_least(2, &[eight(&count)], 11, &[eight(&less_one)], &atoms), false);
}
