use std::test::Fail;
use tcel_num::Op;
use tcel_word::{binary, clear, copy, element, holds, set_element, unary};

#[test]
fn operators_take_their_operands_in_order(rt: HostRuntime) {
    let cases = [
        (Op::Add, i64::MAX, 1, i64::MIN),
        (Op::Sub, 7, 2, 5),
        (Op::Mul, -7, 2, -14),
        (Op::Div, -7, 2, -3),
        (Op::Rem, -7, 2, -1),
        (Op::And, 3, 0, 0),
        (Op::Or, 3, 0, 1),
        (Op::Equal, 3, 3, 1),
        (Op::Unequal, 3, 3, 0),
        (Op::Less, 2, 3, 1),
        (Op::LessOrEqual, 3, 2, 0),
        (Op::Greater, 3, 2, 1),
        (Op::GreaterOrEqual, 2, 3, 0),
    ];
    for (op, left, right, wanted) in cases {
        assert_eq!(rt; binary(op, left, right), wanted, "{op:?}");
    }
    assert_eq!(rt; [unary(Op::Neg, 5), unary(Op::Not, 5)], [-5, 0]);
    assert_eq!(rt; [holds(-1), holds(0)], [true, false]);
}

#[test]
fn arrays_end_at_their_size(rt: HostRuntime) -> Result<(), Fail> {
    let mut cells = [1, 2, 3, 4, 5, 6];
    assert_eq!(rt; element(&cells, 2, 2, 1), 4);
    assert_eq!(rt; element(&cells, 2, 2, 2), 0);
    assert_eq!(rt; element(&cells, 2, 2, -1), 0);
    set_element(&mut cells, 2, 2, 1, 40);
    set_element(&mut cells, 2, 2, 2, 50);
    set_element(&mut cells, 2, 2, -1, 20);
    assert_eq!(rt; cells, [1, 2, 3, 40, 5, 6]);
    copy(&mut cells, 1, 4, 2);
    assert_eq!(rt; cells, [1, 2, 3, 40, 2, 3]);
    clear(&mut cells, 4);
    assert_eq!(rt; cells, [1, 2, 3, 40, 0, 0]);
    Ok(())
}
