//! Worked values, all from Python: `pow(x, -1, p)`, `math.gcd(x, p)`, `x * y % p`.

use field_word::{BadModulus, Modulus};
use std::process::Abort;
use std::test::Fail;

#[test]
fn takes_odd_numbers_from_3_below_2_to_the_63(rt: HostRuntime) -> Result<(), Fail> {
    for p in [0, 1, 2, 4, 1 << 63, (1 << 63) + 1, u64::MAX] {
        assert!(rt; Modulus::new(p).is_err(), "{p}");
    }
    for p in [3, 9, 15, (1 << 63) - 1] {
        assert_eq!(rt; Modulus::new(p)?.value(), p);
    }
    Ok(())
}

#[test]
fn works_modulo_the_greatest_prime_below_2_to_the_63(rt: HostRuntime) -> Result<(), Fail> {
    let modulus = Modulus::new(9_223_372_036_854_775_783)?;
    let x = 1_000_000_000_000_000_000;
    let y = 1_234_567_890_123_456_789;
    assert_eq!(rt;
        modulus.add(9_223_372_036_854_775_778, 9_223_372_036_854_775_776),
        9_223_372_036_854_775_771
    );
    assert_eq!(rt; modulus.sub(2, 3), 9_223_372_036_854_775_782);
    assert_eq!(rt; modulus.mul(x, x), 6_406_728_241_469_678_131);
    assert_eq!(rt; modulus.mul(y, y), 4_618_345_020_393_569_314);
    assert_eq!(rt; modulus.neg(x), 8_223_372_036_854_775_783);
    assert_eq!(rt; modulus.neg(0), 0);
    assert_eq!(rt; modulus.reduce((1 << 127) - 1), 1249);
    Ok(())
}

/// Each residue with its inverse, or with the divisor that it shares with p.
fn compare_inverses(
    rt: &impl Abort,
    p: u64,
    rows: &[(u64, Result<u64, u64>)],
) -> Result<(), BadModulus> {
    let modulus = Modulus::new(p)?;
    for (x, want) in rows {
        assert!(rt; 0 < *x && *x < modulus.value(), "{x}");
        assert_eq!(rt;
            modulus.inverse(*x).map_err(|fault| fault.divisor),
            *want,
            "{x}"
        );
    }
    Ok(())
}

#[test]
fn inverts_or_names_the_greatest_common_divisor(rt: HostRuntime) -> Result<(), Fail> {
    let modulo_15 = [
        (1, Ok(1)),
        (2, Ok(8)),
        (3, Err(3)),
        (4, Ok(4)),
        (5, Err(5)),
        (6, Err(3)),
        (7, Ok(13)),
        (8, Ok(2)),
        (9, Err(3)),
        (10, Err(5)),
        (11, Ok(11)),
        (12, Err(3)),
        (13, Ok(7)),
        (14, Ok(14)),
    ];
    let modulo_2_to_the_61_minus_1 = [
        (2, Ok(1_152_921_504_606_846_976)),
        (3, Ok(1_537_228_672_809_129_301)),
        (1_000_000_000_000_000_000, Ok(1_371_061_761_237_538_415)),
        (1_234_567_890_123_456_789, Ok(2_179_019_607_881_955_056)),
        (2_305_843_009_213_693_950, Ok(2_305_843_009_213_693_950)),
    ];
    let modulo_the_greatest_prime = [
        (2, Ok(4_611_686_018_427_387_892)),
        (3, Ok(6_148_914_691_236_517_189)),
        (1_000_000_000_000_000_000, Ok(1_434_720_068_516_596_341)),
        (1_234_567_890_123_456_789, Ok(8_179_392_165_194_571_983)),
        (9_223_372_036_854_775_781, Ok(4_611_686_018_427_387_891)),
    ];
    // 2^63 - 1 is 7 * 7 * 73 * 127 * 337 * 92737 * 649657.
    let modulo_2_to_the_63_minus_1 = [
        (10, Ok(6_456_360_425_798_343_065)),
        (17_885, Err(3577)),
        (1_948_971, Err(649_657)),
        (14_197_294_936_951, Err(14_197_294_936_951)),
    ];
    compare_inverses(&rt, 15, &modulo_15)?;
    compare_inverses(&rt, (1 << 61) - 1, &modulo_2_to_the_61_minus_1)?;
    compare_inverses(&rt, 9_223_372_036_854_775_783, &modulo_the_greatest_prime)?;
    compare_inverses(&rt, (1 << 63) - 1, &modulo_2_to_the_63_minus_1)?;
    Ok(())
}
