use std::test::Fail;
use tcel_num::At;
use tcel_token::LexFail::{self, BadByte, BadNumber, NameTooLong};
use tcel_token::{Keyword, Sign, TokenKind, tokens};

#[test]
fn each_reserved_word_is_a_token(rt: HostRuntime) -> Result<(), Fail> {
    let cases: [(&[u8], Keyword); 29] = [
        (b"task", Keyword::Task),
        (b"priority", Keyword::Priority),
        (b"input", Keyword::Input),
        (b"output", Keyword::Output),
        (b"state", Keyword::State),
        (b"local", Keyword::Local),
        (b"int", Keyword::Int),
        (b"bool", Keyword::Bool),
        (b"every", Keyword::Every),
        (b"finish", Keyword::Finish),
        (b"within", Keyword::Within),
        (b"start", Keyword::Start),
        (b"after", Keyword::After),
        (b"before", Keyword::Before),
        (b"do", Keyword::Do),
        (b"receive", Keyword::Receive),
        (b"from", Keyword::From),
        (b"send", Keyword::Send),
        (b"to", Keyword::To),
        (b"if", Keyword::If),
        (b"else", Keyword::Else),
        (b"for", Keyword::For),
        (b"while", Keyword::While),
        (b"limit", Keyword::Limit),
        (b"true", Keyword::True),
        (b"false", Keyword::False),
        (b"and", Keyword::And),
        (b"or", Keyword::Or),
        (b"not", Keyword::Not),
    ];
    for (text, word) in cases {
        assert_eq!(rt; word.bytes(), text);
        assert!(rt; text.len() <= 32);
        let found = tokens(rt.alloc(), text)?;
        assert!(rt; found.list.len() == 1);
        let kind = found.list.get(0).map(|token| token.kind);
        assert!(rt; matches!(kind, Some(TokenKind::Word(found)) if found == word));
    }
    Ok(())
}

#[test]
fn each_sign_is_a_token(rt: HostRuntime) -> Result<(), Fail> {
    let cases: [(&[u8], Sign); 20] = [
        (b"{", Sign::LeftBrace),
        (b"}", Sign::RightBrace),
        (b"(", Sign::LeftRound),
        (b")", Sign::RightRound),
        (b"[", Sign::LeftSquare),
        (b"]", Sign::RightSquare),
        (b";", Sign::Semicolon),
        (b":=", Sign::Becomes),
        (b"=", Sign::Is),
        (b"==", Sign::Equal),
        (b"!=", Sign::Unequal),
        (b"<", Sign::Less),
        (b"<=", Sign::LessOrEqual),
        (b">", Sign::Greater),
        (b">=", Sign::GreaterOrEqual),
        (b"+", Sign::Plus),
        (b"-", Sign::Minus),
        (b"*", Sign::Star),
        (b"/", Sign::Slash),
        (b"%", Sign::Percent),
    ];
    for (text, sign) in cases {
        assert_eq!(rt; sign.bytes(), text);
        assert!(rt; text.len() <= 32);
        let found = tokens(rt.alloc(), text)?;
        assert!(rt; found.list.len() == 1);
        let kind = found.list.get(0).map(|token| token.kind);
        assert!(rt; matches!(kind, Some(TokenKind::Sign(found)) if found == sign));
    }
    Ok(())
}

#[test]
fn tokens_stand_at_their_places(rt: HostRuntime) -> Result<(), Fail> {
    // Offset, length, line and column of each token; then line and column of the end.
    let cases: [(&[u8], &[(usize, usize, u32, u32)], (u32, u32)); 9] = [
        (b"", &[], (1, 1)),
        (b" \t\r\n", &[], (2, 1)),
        (b"// none\n\n//", &[], (3, 3)),
        (b"a //x", &[(0, 1, 1, 1)], (1, 6)),
        (b"a<=b", &[(0, 1, 1, 1), (1, 2, 1, 2), (3, 1, 1, 4)], (1, 5)),
        (b"===", &[(0, 2, 1, 1), (2, 1, 1, 3)], (1, 4)),
        (b"12ab_3", &[(0, 2, 1, 1), (2, 4, 1, 3)], (1, 7)),
        (
            b"\r\tx\n- /\n/",
            &[(2, 1, 1, 3), (4, 1, 2, 1), (6, 1, 2, 3), (8, 1, 3, 1)],
            (3, 2),
        ),
        (
            b"// \xff\x00 \"\n00000000000000000000009",
            &[(8, 23, 2, 1)],
            (2, 24),
        ),
    ];
    for (text, wanted, end) in cases {
        assert!(rt; text.len() <= 64);
        let found = tokens(rt.alloc(), text)?;
        assert_eq!(rt; found.list.len(), wanted.len());
        for (token, place) in found.list.as_slice().iter().zip(wanted) {
            assert_eq!(rt;
                (token.start, token.length, token.at.line, token.at.column),
                *place
            );
        }
        assert_eq!(rt; (found.end.line, found.end.column), end);
    }
    Ok(())
}

#[test]
fn names_and_numbers_are_read(rt: HostRuntime) -> Result<(), Fail> {
    let wanted: [(&[u8], i64); 5] = [
        (b"_tasks", 0),
        (b"x9", 0),
        (b"", i64::MAX),
        (b"", 0),
        (b"", 7),
    ];
    let found = tokens(rt.alloc(), b"_tasks x9 9223372036854775807 0 007")?;
    assert_eq!(rt; found.list.len(), 5);
    for (token, (name, number)) in found.list.as_slice().iter().zip(&wanted) {
        match token.kind {
            TokenKind::Name(found) => assert_eq!(rt; found.bytes(), *name),
            TokenKind::Number(found) => assert_eq!(rt; found, *number),
            _ => assert!(rt; false),
        }
    }
    Ok(())
}

#[test]
fn the_first_fault_is_told(rt: HostRuntime) {
    let cases: [(&[u8], LexFail); 12] = [
        (
            b"\0",
            BadByte {
                at: At { line: 1, column: 1 },
            },
        ),
        (
            b"a\n :",
            BadByte {
                at: At { line: 2, column: 2 },
            },
        ),
        (
            b"a != !",
            BadByte {
                at: At { line: 1, column: 6 },
            },
        ),
        (
            b"x := : =",
            BadByte {
                at: At { line: 1, column: 6 },
            },
        ),
        (
            b"\xc3\xa9",
            BadByte {
                at: At { line: 1, column: 1 },
            },
        ),
        (
            b"a.b",
            BadByte {
                at: At { line: 1, column: 2 },
            },
        ),
        (
            b"9223372036854775808",
            BadNumber {
                at: At { line: 1, column: 1 },
            },
        ),
        (
            b"-00000000009223372036854775808",
            BadNumber {
                at: At { line: 1, column: 2 },
            },
        ),
        (
            b"340282366920938463463374607431768211456 ?",
            BadNumber {
                at: At { line: 1, column: 1 },
            },
        ),
        (
            b" abcdefghijklmnopqrstuvwxyz0123456",
            NameTooLong {
                at: At { line: 1, column: 2 },
            },
        ),
        (
            b"a12345678901234567890123456789012 9223372036854775808",
            NameTooLong {
                at: At { line: 1, column: 1 },
            },
        ),
        (
            b"? abcdefghijklmnopqrstuvwxyz0123456",
            BadByte {
                at: At { line: 1, column: 1 },
            },
        ),
    ];
    for (text, wanted) in cases {
        assert!(rt; text.len() <= 64);
        let found = tokens(rt.alloc(), text).err();
        assert_eq!(rt; found, Some(wanted));
    }
}

#[test]
fn each_other_byte_alone_is_bad(rt: HostRuntime) {
    for byte in 0..=255u8 {
        let good = byte.is_ascii_alphanumeric() || b"_ \t\r\n{}()[];=<>+-*/%".contains(&byte);
        let found = tokens(rt.alloc(), &[byte]).err();
        let bad = BadByte {
            at: At { line: 1, column: 1 },
        };
        assert_eq!(rt; found, if good { None } else { Some(bad) });
    }
}
