//! The rules by example. What is wanted was written down from the rules; the values of expressions
//! are those of gcc.

use c_constants::{ConstFault, constants};
use c_lexer::{LexFault, Token, TokenList, tokens};
use std::alloc::{AllocError, Global};
use std::test::Fail;

/// A token in a word: a name is itself.
fn token_word(alloc: Global, token: &Token) -> Result<String, AllocError> {
    match token {
        Token::Name(name) => String::from_str(alloc, name.as_str()),
        Token::Number(value) => format!(in alloc; "#{value}"),
        Token::Mark(mark) => format!(in alloc; "{mark:?}"),
        Token::Word(word) => format!(in alloc; "[{word:?}]"),
        Token::Reserved => String::from_str(alloc, "[reserved]"),
    }
}

/// The tokens in words, each line's after its number, and the end.
fn list_words(alloc: Global, list: &TokenList) -> Result<String, AllocError> {
    let mut words = String::new(alloc);
    let mut line = 0;
    for place in 0..list.len() {
        if list.line(place) != line {
            line = list.line(place);
            let number = format!(in alloc; "{line}: ")?;
            words.push_str(number.as_str())?;
        }
        if let Some(placed) = list.get(place) {
            words.push_str(token_word(alloc, &placed.token)?.as_str())?;
            words.push_str(" ")?;
        }
    }
    let end = list.line(list.len());
    if end != line {
        let number = format!(in alloc; "{end}: ")?;
        words.push_str(number.as_str())?;
    }
    words.push_str("end")?;
    Ok(words)
}

/// A refusal, with its line.
fn fault_word(alloc: Global, fault: ConstFault) -> Result<String, AllocError> {
    match fault {
        ConstFault::Syntax { line, .. } => format!(in alloc; "Syntax({line})"),
        ConstFault::TooDeep { line, .. } => format!(in alloc; "TooDeep({line})"),
        ConstFault::Twice { line, .. } => format!(in alloc; "Twice({line})"),
        ConstFault::UnknownName { line, .. } => format!(in alloc; "UnknownName({line})"),
        ConstFault::BadNumber { line, .. } => format!(in alloc; "BadNumber({line})"),
        ConstFault::TooLong | ConstFault::NoMemory => format!(in alloc; "{fault:?}"),
    }
}

fn left_words(alloc: Global, list: &TokenList) -> Result<String, AllocError> {
    match constants(alloc, list) {
        Ok(left) => list_words(alloc, &left),
        Err(fault) => fault_word(alloc, fault),
    }
}

fn lex_word(alloc: Global, fault: LexFault) -> Result<String, AllocError> {
    format!(in alloc; "{fault:?}")
}

fn words_of(alloc: Global, text: &[u8]) -> Result<String, AllocError> {
    match tokens(alloc, text) {
        Ok(list) => left_words(alloc, &list),
        Err(fault) => lex_word(alloc, fault),
    }
}

/// A text, a piece many times, and another text.
fn repeated(
    alloc: Global,
    first: &str,
    piece: &str,
    times: u64,
    last: &str,
) -> Result<String, AllocError> {
    let mut text = String::from_str(alloc, first)?;
    for _ in 0..times {
        text.push_str(piece)?;
    }
    text.push_str(last)?;
    Ok(text)
}

/// Texts, and what their constants leave in words or the refusal.
const TEXTS: [(&str, &str); 57] = [
    ("", "1: end"),
    ("a\nb", "1: a 2: b end"),
    ("enum { };", "Syntax(1)"),
    ("enum { A, A };", "Twice(1)"),
    ("enum { A,\nB = A + C };", "UnknownName(2)"),
    ("enum { A = 4,\nB = A / (A - 4) };", "BadNumber(2)"),
    ("enum { A = 0x8000000000000000 };", "BadNumber(1)"),
    ("enum { A = 1 < 2 };", "Syntax(1)"),
    ("enum Color { A };", "Syntax(1)"),
    ("enum { A } a;", "Syntax(1)"),
    (
        "enum { n = 1 };\nstruct R { int64_t n; };",
        "2: [Struct] R OpenBrace [Int64] #1 Semicolon CloseBrace Semicolon end",
    ),
    (
        "enum { A = -1 };\nstruct R { int64_t t[A]; };",
        "2: [Struct] R OpenBrace [Int64] t OpenSquare OpenRound Minus #1 CloseRound CloseSquare \
            Semicolon CloseBrace Semicolon end",
    ),
    ("enum { A };\nA\n", "2: #0 3: end"),
    ("x ;\nenum { A = B };", "UnknownName(2)"),
    (
        "}\nenum { A = B };",
        "1: CloseBrace 2: [Enum] OpenBrace A Assign B CloseBrace Semicolon end",
    ),
    (
        "{ ; enum { A }; } A",
        "1: OpenBrace Semicolon [Enum] OpenBrace A CloseBrace Semicolon CloseBrace A end",
    ),
    ("{ } enum { A = 7, }; A", "1: OpenBrace CloseBrace #7 end"),
    (
        "} { ; enum { A }; A",
        "1: CloseBrace OpenBrace Semicolon #0 end",
    ),
    (
        "x enum { A };",
        "1: x [Enum] OpenBrace A CloseBrace Semicolon end",
    ),
    (
        "struct R { int64_t n; enum Color c; };",
        "1: [Struct] R OpenBrace [Int64] n Semicolon [Enum] Color c Semicolon CloseBrace \
            Semicolon end",
    ),
    (
        "A enum; enum { A = 3 }; enum { B = A, C }; A B\nC",
        "1: A [Enum] Semicolon #3 #3 2: #4 end",
    ),
    (
        "enum { A = 9223372036854775807, B, C }; A B C",
        "1: #9223372036854775807 OpenRound Tilde #9223372036854775807 CloseRound OpenRound Minus \
            #9223372036854775807 CloseRound end",
    ),
    ("enum { A = 2 }; enum { B }; B", "1: #0 end"),
    ("enum { A = A };", "UnknownName(1)"),
    ("enum { A, B = 1, A = B };", "Twice(1)"),
    ("enum { A,, };", "Syntax(1)"),
    ("enum { , };", "Syntax(1)"),
    ("enum { A = };", "Syntax(1)"),
    ("enum { A = 1 +\n};", "Syntax(2)"),
    ("enum { A = (1\n};", "Syntax(2)"),
    ("enum { A\n", "Syntax(2)"),
    ("enum\n", "Syntax(2)"),
    ("enum { A = 1 }\n", "Syntax(2)"),
    ("enum { 1 };", "Syntax(1)"),
    ("enum { A = 1 2 };", "Syntax(1)"),
    ("enum { A = + 1 };", "Syntax(1)"),
    ("enum { A = 1\n/ 0\n] };", "BadNumber(2)"),
    ("enum { A = 1\n/\n(0 * B) };", "UnknownName(3)"),
    ("enum { A = 1\n/\n(0\n] };", "Syntax(4)"),
    ("enum { A = 1\n/ (2\n/ 0) };", "BadNumber(3)"),
    ("enum { A = 1\n% - - 0 * B };", "BadNumber(2)"),
    ("enum { A = 1\n/ 0 * B };", "BadNumber(2)"),
    (
        "enum { A = -5 / 2, B = -5 % 2, C = -5 >> 1, D = 1 << 65 }; A B C D",
        "1: OpenRound Minus #2 CloseRound OpenRound Minus #1 CloseRound OpenRound Minus #3 \
            CloseRound #2 end",
    ),
    (
        "enum { A = (1 << 63) / -1 }; A",
        "1: OpenRound Tilde #9223372036854775807 CloseRound end",
    ),
    (
        "enum { A = 10 - 3 - 2, B = 100 / 5 / 2, C = 2 + 3 * 4, D = 1 | 6 ^ 2 & 3 << 1 }; A B C D",
        "1: #5 #10 #14 #5 end",
    ),
    (
        "enum { ORDER = 8, MIN = ORDER / 2 - 1, NEXT };\nenum { LOW = 1 << 63, LESS = -ORDER, \
            ABOVE, };\nORDER MIN NEXT LOW\nLESS ABOVE",
        "3: #8 #3 #4 OpenRound Tilde #9223372036854775807 CloseRound 4: OpenRound Minus #8 \
            CloseRound OpenRound Minus #7 CloseRound end",
    ),
    (
        "{ int64_t a, b[2], c; d, e }",
        "1: OpenBrace [Int64] a Semicolon [Int64] b OpenSquare #2 CloseSquare Semicolon [Int64] c \
            Semicolon d Comma e CloseBrace end",
    ),
    (
        "{ struct N *p = f(a, b),\n*q; }",
        "1: OpenBrace [Struct] N Star p Assign f OpenRound a Comma b CloseRound Semicolon \
            [Struct] N 2: Star q Semicolon CloseBrace end",
    ),
    (
        "; int64_t a\n, b",
        "1: Semicolon [Int64] a 2: Semicolon 1: [Int64] 2: b end",
    ),
    (
        "; uint64_t a\n, b",
        "1: Semicolon [Uint64] a 2: Semicolon 1: [Uint64] 2: b end",
    ),
    ("int64_t a, b", "1: [Int64] a Comma b end"),
    (
        "{ ) int64_t a, b",
        "1: OpenBrace CloseRound [Int64] a Comma b end",
    ),
    (
        "} int64_t f(int64_t a, b) { c, d",
        "1: CloseBrace [Int64] f OpenRound [Int64] a Comma b CloseRound OpenBrace c Comma d end",
    ),
    (
        "; int64_t a) , [1, (2, 3), 4], ,",
        "1: Semicolon [Int64] a CloseRound Semicolon [Int64] OpenSquare #1 Comma OpenRound #2 \
            Comma #3 CloseRound Comma #4 CloseSquare Semicolon [Int64] Semicolon [Int64] end",
    ),
    (
        "; struct 5, a; struct, b",
        "1: Semicolon [Struct] #5 Comma a Semicolon [Struct] Comma b end",
    ),
    (
        "{ int64_t a = { 1, 2 }, b",
        "1: OpenBrace [Int64] a Assign OpenBrace #1 Comma #2 CloseBrace Comma b end",
    ),
    (
        "; enum { A = 3 }; int64_t A, b",
        "1: Semicolon [Int64] #3 Semicolon [Int64] b end",
    ),
];

#[test]
fn texts_have_what_is_left(rt: HostRuntime) -> Result<(), Fail> {
    for (text, want) in TEXTS {
        let words = words_of(rt.alloc(), text.as_bytes())?;
        assert_eq!(rt; words.as_str(), want, "at {text:?}");
    }
    Ok(())
}

/// Expressions over A, which is 5, B, which is -3, and C, which is -2^63, with their values.
const VALUES: [(&str, &str); 32] = [
    (
        "B * 3 * A + 1 | ! ~ 255 % 0x7fffffffffffffff | ( 0 )",
        "OpenRound Minus #44 CloseRound",
    ),
    ("- 2 - - ( 3 )", "#1"),
    ("~ ( ~ 0x7fffffffffffffff | 9223372036854775807 )", "#0"),
    ("64 - ( ~ ( 7 ) )", "#72"),
    ("- ! ( ~ 1 )", "#0"),
    (
        "~ 0 / ( 3 ) | ~ 255 % 9223372036854775807",
        "OpenRound Minus #256 CloseRound",
    ),
    (
        "! ( 1 ) & ! 64 / 9223372036854775807 * 64 ^ A - C",
        "OpenRound Minus #9223372036854775803 CloseRound",
    ),
    (
        "- ( B ) - ~ ( 9223372036854775807 ) << ! ~ - C",
        "OpenRound Minus #9223372036854775805 CloseRound",
    ),
    ("( ~ ( ( 64 ) ) )", "OpenRound Minus #65 CloseRound"),
    ("2 / - ( 255 ) & ! ( 64 ) * ~ 1", "#0"),
    ("! ( ! ~ A )", "#1"),
    ("! - ( ~ 255 )", "#0"),
    (
        "( ~ 9223372036854775807 )",
        "OpenRound Tilde #9223372036854775807 CloseRound",
    ),
    (
        "( - B ^ A ) * ~ A | B | 0 % B",
        "OpenRound Minus #3 CloseRound",
    ),
    (
        "( ( 2 ) & 64 ^ 0x7fffffffffffffff ) ^ 3 - 0 << 1 >> 1 + 1",
        "#9223372036854775806",
    ),
    ("7 & 0x7fffffffffffffff", "#7"),
    ("( - 1 | 1 ) / ( ( ~ 64 ) )", "#0"),
    ("- ( 1 & 2 ) | - ! 255", "#0"),
    (
        "! 64 ^ 0x7fffffffffffffff + 1 * 3 + A",
        "OpenRound Minus #9223372036854775801 CloseRound",
    ),
    ("~ ( 255 << 1 ) + 2", "OpenRound Minus #509 CloseRound"),
    (
        "( 255 & - 3 ) % 3 / 1 ^ 2 | C",
        "OpenRound Minus #9223372036854775805 CloseRound",
    ),
    (
        "- ( ~ ( 9223372036854775807 ) )",
        "OpenRound Tilde #9223372036854775807 CloseRound",
    ),
    ("! C % ( 64 & A | ( 9223372036854775807 ) )", "#0"),
    (
        "( ( 255 ) * - 0x7fffffffffffffff ) + ( - 3 - ( 3 ) )",
        "OpenRound Minus #9223372036854775559 CloseRound",
    ),
    ("~ ( ( 0x7fffffffffffffff ^ B ) )", "#9223372036854775805"),
    (
        "- 7 - 2 / 2 + ( 9223372036854775807 ) ^ 255 & 3 - ( 64 )",
        "#9223372036854775604",
    ),
    ("~ C | A / 9223372036854775807 % 64", "#9223372036854775807"),
    ("0x7fffffffffffffff", "#9223372036854775807"),
    ("! ( 0x7fffffffffffffff ) << 0 & ~ C - A", "#0"),
    ("64 >> A / ( ~ 255 * 3 )", "#64"),
    ("( ( 255 ) ) + 64", "#319"),
    ("( ( 64 ) )", "#64"),
];

/// A text that uses a constant of an expression, and what is left of it.
fn value_row(alloc: Global, expr: &str, value: &str) -> Result<(String, String), AllocError> {
    let text = format!(in alloc; "enum {{ A = 5, B = -3, C = 1 << 63, X = {expr} }}; X")?;
    let want = format!(in alloc; "1: {value} end")?;
    Ok((text, want))
}

#[test]
fn expressions_have_their_values(rt: HostRuntime) -> Result<(), Fail> {
    for (expr, value) in VALUES {
        let (text, want) = value_row(rt.alloc(), expr, value)?;
        let words = words_of(rt.alloc(), text.as_bytes())?;
        assert_eq!(rt; words.as_str(), want.as_str(), "at {expr:?}");
    }
    Ok(())
}

#[test]
fn limits_are_exact(rt: HostRuntime) -> Result<(), Fail> {
    let rows: [(&str, &str, u64, &str, &str); 16] = [
        ("enum { A = -1 };", " A", 4097, "", "TooLong"),
        ("enum { A = -1 };", " A", 4096, " x", "TooLong"),
        (
            "enum { A = -1 };",
            " A",
            4096,
            ";\nenum { B = 1 / 0 };",
            "TooLong",
        ),
        ("{ int64_t a", ", a", 5461, "", "TooLong"),
        ("{ int64_t a", ", a", 5460, " b c", "TooLong"),
        ("enum { A = ", "(", 64, "1", "TooDeep(1)"),
        ("enum { A = ", "(", 63, "\n]", "Syntax(2)"),
        ("enum { A = ", "- ", 64, "1 };", "TooDeep(1)"),
        ("enum { A = 1 ", "+ 1 ", 64, "};", "TooDeep(1)"),
        ("enum { A = 1 ", "+ 1 ", 63, ", B = -B };", "UnknownName(1)"),
        ("enum { A = 1 ", "+ 1 ", 63, "\n/ 0 };", "TooDeep(2)"),
        (
            "enum { A = (1 ",
            "+ 1 ",
            62,
            ") + 1, B = C };",
            "UnknownName(1)",
        ),
        ("enum { A = (1 ", "+ 1 ", 63, ") };", "TooDeep(1)"),
        ("enum { A = ", "(1 + ", 31, "1 + (", "TooDeep(1)"),
        ("enum { A = ", "(1 + ", 31, "1 +\n]", "Syntax(2)"),
        (
            "enum { A = -1 };",
            " A",
            4095,
            ";\nenum { B = 1 / 0 };",
            "BadNumber(2)",
        ),
    ];
    for (first, piece, times, last, want) in rows {
        let text = repeated(rt.alloc(), first, piece, times, last)?;
        let words = words_of(rt.alloc(), text.as_bytes())?;
        assert_eq!(rt; words.as_str(), want, "at {times} of {piece:?}");
    }
    Ok(())
}

/// How many tokens are left of a text; 0 if it is refused.
fn left_count(alloc: Global, text: &[u8]) -> u64 {
    match tokens(alloc, text) {
        Ok(list) => match constants(alloc, &list) {
            Ok(left) => left.len(),
            Err(_) => 0,
        },
        Err(_) => 0,
    }
}

#[test]
fn lists_fill_a_text(rt: HostRuntime) -> Result<(), Fail> {
    let text = repeated(rt.alloc(), "{ int64_t a", ", a", 5460, " b")?;
    assert_eq!(rt; left_count(rt.alloc(), text.as_bytes()), 16384);
    Ok(())
}
