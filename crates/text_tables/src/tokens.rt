//! The rules by example. What is wanted was written down from the rules.

use c_lexer::{Token, TokenList, tokens};
use std::alloc::{AllocError, Global};
use std::test::Fail;

/// A token in a word: a name is itself.
fn token_word(alloc: Global, token: &Token) -> Result<String, AllocError> {
    match token {
        Token::Name(name) => String::from_str(alloc, name.as_str()),
        Token::Number(value) => format!(in alloc; "#{value}"),
        Token::Mark(mark) => format!(in alloc; "{mark:?}"),
        Token::Word(word) => format!(in alloc; "[{word:?}]"),
        Token::Reserved => String::from_str(alloc, "[reserved]"),
    }
}

/// The tokens in words, each line's after its number, and the end.
fn list_words(alloc: Global, list: &TokenList) -> Result<String, AllocError> {
    let mut words = String::new(alloc);
    let mut line = 0;
    for place in 0..list.len() {
        if list.line(place) != line {
            line = list.line(place);
            let number = format!(in alloc; "{line}: ")?;
            words.push_str(number.as_str())?;
        }
        if let Some(placed) = list.get(place) {
            words.push_str(token_word(alloc, &placed.token)?.as_str())?;
            words.push_str(" ")?;
        }
    }
    let end = list.line(list.len());
    if end != line {
        let number = format!(in alloc; "{end}: ")?;
        words.push_str(number.as_str())?;
    }
    words.push_str("end")?;
    Ok(words)
}

fn words_of(alloc: Global, text: &[u8]) -> Result<String, AllocError> {
    match tokens(alloc, text) {
        Ok(list) => list_words(alloc, &list),
        Err(_) => String::from_str(alloc, "refused"),
    }
}

/// The bytes before each token and before the end.
fn starts_of(alloc: Global, text: &[u8]) -> Result<String, AllocError> {
    let mut starts = String::new(alloc);
    let Ok(list) = tokens(alloc, text) else {
        return Ok(starts);
    };
    for place in 0..list.len() {
        let start = format!(in alloc; "{} ", list.start(place))?;
        starts.push_str(start.as_str())?;
    }
    let size = format!(in alloc; "end {}", list.start(list.len()))?;
    starts.push_str(size.as_str())?;
    Ok(starts)
}

/// Texts, and their tokens in words.
const TEXTS: [(&str, &str); 44] = [
    ("", "1: end"),
    ("a+++b", "1: a Increment Plus b end"),
    ("a-->b", "1: a Decrement Greater b end"),
    ("a--->b", "1: a Decrement Arrow b end"),
    ("a<<=b", "1: a ShiftLeftAssign b end"),
    ("a>>=b", "1: a ShiftRightAssign b end"),
    ("a<<<=b", "1: a ShiftLeft LessEqual b end"),
    ("a>>==b", "1: a ShiftRightAssign Assign b end"),
    ("a&&=b|||=c", "1: a AndAnd Assign b OrOr OrAssign c end"),
    (
        "*=/=%=&=^=|=<<=>>=",
        "1: MulAssign DivAssign RemAssign AndAssign XorAssign OrAssign ShiftLeftAssign \
            ShiftRightAssign end",
    ),
    ("a<=>=b", "1: a LessEqual GreaterEqual b end"),
    ("===!==", "1: Equal Assign NotEqual Assign end"),
    ("&&&|||^~!", "1: AndAnd And OrOr Or Xor Tilde Not end"),
    ("a?b:c", "1: a Question b Colon c end"),
    (
        "?:::=??/* : */",
        "1: Question Colon Colon Colon Assign Question Question end",
    ),
    (
        "+=-=+-*/%.,;(){}[]",
        "1: AddAssign SubAssign Plus Minus Star Slash Percent Dot Comma Semicolon OpenRound \
            CloseRound OpenBrace CloseBrace OpenSquare CloseSquare end",
    ),
    (
        "0 7 10 9223372036854775807",
        "1: #0 #7 #10 #9223372036854775807 end",
    ),
    (
        "0x7fffffffffffffff 0XFFf 0x0 0x00a",
        "1: #9223372036854775807 #4095 #0 #10 end",
    ),
    ("0x000000000000000000001", "1: #1 end"),
    ("1.5", "1: #1 Dot #5 end"),
    (
        "_ _a a_1 A9 tx_ xtx int64_t1",
        "1: _ _a a_1 A9 tx_ xtx int64_t1 end",
    ),
    (
        "int64_t void struct enum persistent root tx const if else while do for break continue \
            return NULL pm_new pm_free abort",
        "1: [Int64] [Void] [Struct] [Enum] [Persistent] [Root] [Tx] [Const] [If] [Else] [While] \
            [Do] [For] [Break] [Continue] [Return] [Null] [PmNew] [PmFree] [Abort] end",
    ),
    (
        "auto case char default double extern float goto inline int long register restrict \
            short signed sizeof static switch typedef union unsigned volatile null main",
        "1: [reserved] [reserved] [reserved] [reserved] [reserved] [reserved] [reserved] \
            [reserved] [reserved] [reserved] [reserved] [reserved] [reserved] [reserved] \
            [reserved] [reserved] [reserved] [reserved] [reserved] [reserved] [reserved] \
            [reserved] null main end",
    ),
    ("a // b\nc", "1: a 2: c end"),
    ("a // b", "1: a end"),
    ("a /* b\n\nc */ d", "1: a 3: d end"),
    ("a /* b */", "1: a end"),
    ("a/**/b", "1: a b end"),
    ("a /***/ b /* * / **/ c", "1: a b c end"),
    ("a /*/ b */ c", "1: a c end"),
    ("/* // */ a", "1: a end"),
    ("// /* a\nb", "2: b end"),
    ("// a \\\nb", "2: b end"),
    ("a /* /* */ b", "1: a b end"),
    ("a */ b", "1: a Star Slash b end"),
    ("#include <a.h>\nb", "2: b end"),
    (" \t# \tinclude \"x\" /* \nb", "2: b end"),
    ("#includes\n#include", "2: end"),
    ("/*\n#include */ a\n #include */ b\nc", "2: a 4: c end"),
    ("a\r\nb\r\n", "1: a 2: b 3: end"),
    ("a\n", "1: a 2: end"),
    ("a\nb", "1: a 2: b end"),
    ("// é\na", "2: a end"),
    (
        "struct R { int64_t n; };\n\
         persistent struct R root;\n\
         tx int64_t inc(int64_t d) { root.n = root.n + d; return root.n; }\n",
        "1: [Struct] R OpenBrace [Int64] n Semicolon CloseBrace Semicolon 2: [Persistent] \
            [Struct] R [Root] Semicolon 3: [Tx] [Int64] inc OpenRound [Int64] d CloseRound \
            OpenBrace [Root] Dot n Assign [Root] Dot n Plus d Semicolon [Return] [Root] Dot n \
            Semicolon CloseBrace 4: end",
    ),
];

#[test]
fn texts_have_their_tokens(rt: HostRuntime) -> Result<(), Fail> {
    for (text, want) in TEXTS {
        let words = words_of(rt.alloc(), text.as_bytes())?;
        assert_eq!(rt; words.as_str(), want, "at {text:?}");
    }
    Ok(())
}

/// Texts, and the number of bytes before each of their tokens and the end.
const STARTS: [(&str, &str); 14] = [
    ("", "end 0"),
    ("a", "0 end 1"),
    (" a ", "1 end 3"),
    ("a+++b", "0 1 3 4 end 5"),
    ("\n\n a\n", "3 end 5"),
    ("a\r\nb\r\n", "0 3 end 6"),
    ("\ta\t\tb", "1 4 end 5"),
    ("a /* b */ c", "0 10 end 11"),
    ("a // b\nc", "0 7 end 8"),
    ("/* \n */x", "7 end 8"),
    ("#include <a.h>\nb", "15 end 16"),
    ("// \u{e9}\na", "6 end 7"),
    ("0x1f 10", "0 5 end 7"),
    ("root.n=1;", "0 4 5 6 7 8 end 9"),
];

#[test]
fn starts_are_exact(rt: HostRuntime) -> Result<(), Fail> {
    for (text, want) in STARTS {
        let starts = starts_of(rt.alloc(), text.as_bytes())?;
        assert_eq!(rt; starts.as_str(), want, "at {text:?}");
    }
    Ok(())
}

const MARKS: [&str; 45] = [
    "<<=", ">>=", "->", "++", "--", "+=", "-=", "*=", "/=", "%=", "&=", "^=", "|=", "<<", ">>",
    "<=", ">=", "==", "!=", "&&", "||", "+", "-", "*", "/", "%", "<", ">", "&", "^", "|", "!", "~",
    "=", "?", ":", ".", ",", ";", "(", ")", "{", "}", "[", "]",
];

/// Each mark beside each other, a pair a line, but for `/` beside `*` and `*=`, which opens a
/// comment.
fn pairs(alloc: Global) -> Result<String, AllocError> {
    let mut text = String::new(alloc);
    for first in MARKS {
        for second in MARKS {
            let opens = first == "/" && (second == "*" || second == "*=");
            if !opens {
                text.push_str(first)?;
                text.push_str(second)?;
                text.push_str("\n")?;
            }
        }
    }
    Ok(text)
}

#[test]
fn many_tokens_are_read(rt: HostRuntime) -> Result<(), Fail> {
    let mut many = String::new(rt.alloc());
    for _ in 0..16_384 {
        many.push_str(";")?;
    }
    let marks = pairs(rt.alloc())?;
    for (text, count, end) in [(many.as_str(), 16_384, 1), (marks.as_str(), 4019, 2024)] {
        let list = tokens(rt.alloc(), text.as_bytes())?;
        assert_eq!(rt; list.len(), count);
        assert_eq!(rt; list.line(list.len()), end, "after {count} tokens");
    }
    Ok(())
}
