//! Worked numbers. Signs at convergents of root 2 were computed elsewhere.

use cqp_ring::{Amp, Root, Sign, Weight, weight_text};
use std::test::Fail;

const MOST: i128 = 1 << 126;

const ONE: Amp = Amp {
    a: 1,
    b: 0,
    c: 0,
    d: 0,
};

const X: Amp = Amp {
    a: 1,
    b: -2,
    c: 3,
    d: -4,
};

const Y: Amp = Amp {
    a: 2,
    b: 1,
    c: -1,
    d: 3,
};

fn amp(a: i128, b: i128, c: i128, d: i128) -> Amp {
    Amp { a, b, c, d }
}

pub(crate) fn whole(a: i128) -> Amp {
    amp(a, 0, 0, 0)
}

#[test]
fn sums_products_and_norms(rt: HostRuntime) {
    assert_eq!(rt; X.add(Y), amp(3, -1, 2, -1));
    assert_eq!(rt; X.sub(Y), amp(-1, -3, 4, -7));
    assert_eq!(rt; X.mul(Y), amp(15, -16, 15, 0));
    assert_eq!(rt; X.norm(), Root { p: 30, q: -16 });
    let norm = Root { p: 30, q: -16 };
    assert_eq!(rt; norm.add(Root { p: -1, q: 20 }), Root { p: 29, q: 4 });
    assert_eq!(rt;
        norm.root_mul(Root { p: 15, q: 3 }),
        Root { p: 354, q: -150 }
    );
}

#[test]
fn turns_and_quotients(rt: HostRuntime) {
    // The fourth power of w is -1.
    let w = ONE.times_w(1);
    assert_eq!(rt; w, amp(0, 1, 0, 0));
    assert_eq!(rt; w.mul(w).mul(w).mul(w), whole(-1));
    assert_eq!(rt; ONE.times_w(4), whole(-1));
    assert_eq!(rt; X.times_w(15), amp(-2, 3, -4, -1));
    let root2 = Amp {
        a: 0,
        b: 1,
        c: 0,
        d: -1,
    };
    assert!(rt; root2.halves_root2() && X.halves_root2() && !ONE.halves_root2());
    assert!(rt; ONE.has_odd_sum() && Y.has_odd_sum() && !X.has_odd_sum());
    assert_eq!(rt; root2.by_root2(), ONE);
    assert_eq!(rt; X.by_root2(), amp(1, 2, -3, 1));
}

#[test]
fn signs_at_the_edges(rt: HostRuntime) {
    let p = 39243058951466341909004733505464609607;
    let q = 27749033099085295754434173207717704165;
    let least = 60153992292001127886258443119406264231;
    let cases = [
        (7, -5, Sign::Minus),
        (0, 0, Sign::Zero),
        (3, -2, Sign::Plus),
        (-3, 2, Sign::Minus),
        (p, -q, Sign::Minus),
        (-p, q, Sign::Plus),
        (p + 1, -q, Sign::Plus),
        (p, -q - 1, Sign::Minus),
        (
            16255007246704249599863612909970798723,
            -11494025852381046154570560297746905442,
            Sign::Plus,
        ),
        (MOST, -MOST, Sign::Minus),
        (-MOST, MOST, Sign::Plus),
        (MOST, MOST, Sign::Plus),
        (0, -MOST, Sign::Minus),
        (MOST, -least, Sign::Plus),
        (MOST, -least - 1, Sign::Minus),
        (-MOST, least + 1, Sign::Plus),
    ];
    for (p, q, sign) in cases {
        assert_eq!(rt; Root { p, q }.sign(), sign, "{p} {q}");
    }
}

#[test]
fn least_weights_and_their_text(rt: HostRuntime) -> Result<(), Fail> {
    let alloc = rt.alloc();
    let cases = [
        ((4, -2, 3), (2, -1, 2)),
        ((8, 0, 2), (2, 0, 0)),
        ((1, 0, 90), (1, 0, 90)),
        ((0, 0, 5), (0, 0, 0)),
        ((6, 3, 4), (6, 3, 4)),
    ];
    for ((p, q, below), (least_p, least_q, least_below)) in cases {
        let least = Weight {
            top: Root { p, q },
            below,
        }
        .least();
        assert_eq!(rt;
            least.top,
            Root {
                p: least_p,
                q: least_q
            }
        );
        assert_eq!(rt; least.below, least_below);
    }
    let quarter = Weight {
        top: Root { p: 2, q: -1 },
        below: 2,
    };
    assert_eq!(rt;
        weight_text(alloc, quarter)?.as_slice(),
        b"(2-1r)/2^2".as_slice()
    );
    let one = Weight {
        top: Root { p: 1, q: 0 },
        below: 0,
    };
    assert_eq!(rt;
        weight_text(alloc, one)?.as_slice(),
        b"(1+0r)/2^0".as_slice()
    );
    let most = Weight {
        top: Root { p: MOST, q: -MOST },
        below: 90,
    };
    let text =
        b"(85070591730234615865843651857942052864-85070591730234615865843651857942052864r)/2^90";
    assert_eq!(rt; weight_text(alloc, most)?.as_slice(), text.as_slice());
    Ok(())
}
