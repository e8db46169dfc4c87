//! Operations on words at the ends of 64 bits, with values from outside.

use nvm_base::{BinOp, add, div, less, mul, rem, shl, shr, sub, udiv, ule, ult, urem, ushr};

#[test]
fn operations_wrap(rt: HostRuntime) {
    let min = i64::MIN;
    let max = i64::MAX;
    for (op, a, b, want) in [
        (BinOp::Add, max, 1, min),
        (BinOp::Add, min, -1, max),
        (BinOp::Sub, min, 1, max),
        (BinOp::Mul, max, 2, -2),
        (BinOp::Mul, min, -1, min),
        (
            BinOp::Mul,
            3_037_000_500,
            3_037_000_500,
            -9_223_372_036_709_301_616,
        ),
        (BinOp::Div, min, -1, min),
        (BinOp::Div, -7, 2, -3),
        (BinOp::Div, 7, -2, -3),
        (BinOp::Div, 7, 0, 0),
        (BinOp::Rem, min, -1, 0),
        (BinOp::Rem, -7, 2, -1),
        (BinOp::Rem, 7, -2, 1),
        (BinOp::Rem, 7, 0, 0),
        (BinOp::Shl, 1, 63, min),
        (BinOp::Shl, 1, 64, 1),
        (BinOp::Shl, 1, -1, min),
        (BinOp::Shl, 3, 62, -4_611_686_018_427_387_904),
        (BinOp::Shr, min, 63, -1),
        (BinOp::Shr, -5, 1, -3),
        (BinOp::Shr, max, 62, 1),
        (BinOp::Shr, 8, -61, 1),
        (BinOp::And, min, -1, min),
        (BinOp::Or, min, 1, -9_223_372_036_854_775_807),
        (BinOp::Xor, -1, max, min),
        (BinOp::Lt, min, max, 1),
        (BinOp::Lt, 0, 0, 0),
        (BinOp::Le, 0, 0, 1),
        (BinOp::Le, 1, min, 0),
        (BinOp::Eq, -1, -1, 1),
        (BinOp::Eq, min, max, 0),
        (BinOp::Ne, -1, -1, 0),
        (BinOp::Ne, min, max, 1),
        (BinOp::Ult, -1, 0, 0),
        (BinOp::Ult, max, min, 1),
        (BinOp::Ule, -1, 0, 0),
        (BinOp::Ule, min, min, 1),
        (BinOp::Udiv, -1, 2, max),
        (BinOp::Udiv, min, -1, 0),
        (BinOp::Udiv, 7, 0, 0),
        (BinOp::Urem, -1, 10, 5),
        (BinOp::Urem, 7, -1, 7),
        (BinOp::Urem, 7, 0, 0),
        (BinOp::Ushr, min, 63, 1),
        (BinOp::Ushr, -16, 68, 1_152_921_504_606_846_975),
    ] {
        assert_eq!(rt; op.apply(a, b), want, "{op:?} at {a}, {b}");
    }
    let named = [add(max, 1), sub(0, 1), mul(3, 4), div(-7, 2), rem(-7, 2)];
    assert_eq!(rt; named, [min, -1, 12, -3, -1]);
    let named = [shl(1, 65), shr(-8, 2), less(-1, 0), ult(-1, 0)];
    assert_eq!(rt; named, [2, -2, 1, 0]);
    let named = [ule(-1, 0), udiv(-1, 2), urem(-1, 10), ushr(-8, 62)];
    assert_eq!(rt; named, [0, max, 5, 3]);
}
