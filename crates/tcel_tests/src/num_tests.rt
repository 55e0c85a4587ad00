use std::test::Fail;
use tcel_num::{Name, add, ceil_div, div, lcm_within, may_follow, may_start, mul, neg, rem, sub};

#[test]
fn arithmetic_wraps(rt: HostRuntime) {
    let (least, greatest) = (i64::MIN, i64::MAX);
    assert_eq!(rt; add(greatest, 1), least);
    assert_eq!(rt; sub(least, 1), greatest);
    assert_eq!(rt; mul(greatest, 2), -2);
    assert_eq!(rt; neg(least), least);
    assert_eq!(rt;
        [div(7, -2), div(-7, 2), div(4, 0), div(least, -1)],
        [-3, -3, 0, least]
    );
    assert_eq!(rt;
        [rem(7, -2), rem(-7, 2), rem(4, 0), rem(least, -1)],
        [1, -1, 0, 0]
    );
}

#[test]
fn names_are_words_that_are_not_reserved(rt: HostRuntime) -> Result<(), Fail> {
    let long = [b'a'; 33];
    for good in [b"x".as_slice(), b"_9", b"Task", b"whiles", &long[..32]] {
        let name = Name::new(good).ok_or("a name")?;
        assert_eq!(rt; name.bytes(), good);
    }
    for bad in [
        b"".as_slice(),
        b"9a",
        b"a-b",
        b"\xc3\xa4",
        b"while",
        b"not",
        &long,
    ] {
        assert!(rt; Name::new(bad).is_none());
    }
    Ok(())
}

#[test]
fn names_are_ordered_by_bytes(rt: HostRuntime) -> Result<(), Fail> {
    let short = Name::new(b"ab").ok_or("a name")?;
    let long = Name::new(b"abc").ok_or("a name")?;
    assert!(rt; short < long);
    assert_eq!(rt; short, short.clone()?);
    Ok(())
}

#[test]
fn digits_follow_in_names_and_start_none(rt: HostRuntime) {
    assert_eq!(rt;
        [b'z', b'A', b'_', b'0', b'-'].map(|byte| may_start(byte)),
        [true, true, true, false, false]
    );
    assert_eq!(rt;
        [b'z', b'A', b'_', b'9', b'-'].map(|byte| may_follow(byte)),
        [true, true, true, true, false]
    );
}

#[test]
fn quotients_are_rounded_up(rt: HostRuntime) {
    assert_eq!(rt; [ceil_div(0, 3), ceil_div(6, 3), ceil_div(7, 3)], [0, 2, 3]);
}

#[test]
fn least_common_multiples_are_within_a_limit(rt: HostRuntime) {
    let cases: [(&[u64], u64, Option<u64>); 6] = [
        (&[4, 6], 12, Some(12)),
        (&[4, 6], 11, None),
        (
            &[499_999, 500_000],
            1_000_000_000_000,
            Some(249_999_500_000),
        ),
        (&[1_000_000_000, 999_999_999], 1_000_000_000_000, None),
        (&[], 1, Some(1)),
        (&[], 0, None),
    ];
    for (numbers, limit, wanted) in cases {
        assert_eq!(rt; lcm_within(numbers, limit), wanted, "{numbers:?} {limit}");
    }
}
