//! What a token is: a name, a number, a mark or a reserved word.

use nvm_base::Text;

/// A mark, named as in C.
#[derive(Clone, Copy, Debug)]
pub enum Mark {
    /// `->`
    Arrow,
    /// `++`
    Increment,
    /// `--`
    Decrement,
    /// `+=`
    AddAssign,
    /// `-=`
    SubAssign,
    /// `*=`
    MulAssign,
    /// `/=`
    DivAssign,
    /// `%=`
    RemAssign,
    /// `&=`
    AndAssign,
    /// `^=`
    XorAssign,
    /// `|=`
    OrAssign,
    /// `<<=`
    ShiftLeftAssign,
    /// `>>=`
    ShiftRightAssign,
    /// `<<`
    ShiftLeft,
    /// `>>`
    ShiftRight,
    /// `<=`
    LessEqual,
    /// `>=`
    GreaterEqual,
    /// `==`
    Equal,
    /// `!=`
    NotEqual,
    /// `&&`
    AndAnd,
    /// `||`
    OrOr,
    /// `+`
    Plus,
    /// `-`
    Minus,
    /// `*`
    Star,
    /// `/`
    Slash,
    /// `%`
    Percent,
    /// `<`
    Less,
    /// `>`
    Greater,
    /// `&`
    And,
    /// `^`
    Xor,
    /// `|`
    Or,
    /// `!`
    Not,
    /// `~`
    Tilde,
    /// `=`
    Assign,
    /// `?`
    Question,
    /// `:`
    Colon,
    /// `.`
    Dot,
    /// `,`
    Comma,
    /// `;`
    Semicolon,
    /// `(`
    OpenRound,
    /// `)`
    CloseRound,
    /// `{`
    OpenBrace,
    /// `}`
    CloseBrace,
    /// `[`
    OpenSquare,
    /// `]`
    CloseSquare,
}

/// A reserved word of the profile.
#[derive(Clone, Copy, Debug)]
pub enum Word {
    /// `int64_t`
    Int64,
    /// `uint64_t`
    Uint64,
    /// `void`
    Void,
    /// `struct`
    Struct,
    /// `enum`
    Enum,
    /// `persistent`
    Persistent,
    /// `root`
    Root,
    /// `tx`
    Tx,
    /// `const`
    Const,
    /// `if`
    If,
    /// `else`
    Else,
    /// `while`
    While,
    /// `do`
    Do,
    /// `for`
    For,
    /// `break`
    Break,
    /// `continue`
    Continue,
    /// `return`
    Return,
    /// `NULL`
    Null,
    /// `pm_new`
    PmNew,
    /// `pm_free`
    PmFree,
    /// `abort`
    Abort,
}

/// One token.
#[derive(Drop)]
pub enum Token {
    /// A name that isn't reserved.
    Name(Text),
    /// A number from 0 to 2^64 - 1, as the word with its bits: from 2^63 on it is less by 2^64.
    Number(i64),
    Mark(Mark),
    Word(Word),
    /// A word that C reserves and this profile never accepts. The grammar has no place for it.
    Reserved,
}

/// A token and its place in the text.
#[derive(Drop)]
pub struct Placed {
    pub token: Token,
    /// The line on which it begins, counted from 1.
    pub line: u64,
    /// The number of bytes before it.
    pub start: u64,
}
