// How the words, the marks and the operators are spelled.
ghost use Rattle.std.specs.Prelude.{◌≡◌, find, bytes_eq};
ghost use Rattle.thread_tokens.specs.Spelling.{word_text, mark_text, operator_text, words, marks, operators};

use thread_tree::{Mark, Op, Word};

/// The word of the languages.
const WORDS: [Word; 35] = [
    Word::Type,
    Word::Object,
    Word::Queue,
    Word::Input,
    Word::Semaphore,
    Word::Max,
    Word::Fn,
    Word::Thread,
    Word::Priority,
    Word::Start,
    Word::Let,
    Word::If,
    Word::Else,
    Word::While,
    Word::Ploop,
    Word::Break,
    Word::Return,
    Word::Atomic,
    Word::Give,
    Word::Abort,
    Word::New,
    Word::Free,
    Word::Spawn,
    Word::Delete,
    Word::Delay,
    Word::Setprio,
    Word::Getprio,
    Word::Own,
    Word::Send,
    Word::Receive,
    Word::Take,
    Word::Print,
    Word::Now,
    Word::Yield,
    Word::Waiting,
];

/// How a word of the language is spelled.
pub fn word_text(word: Word) -> &'static [u8]
    ensures same { result.now ≡ word_text word }
{
    match word {
        Word::Type => b"type",
        Word::Object => b"object",
        Word::Queue => b"queue",
        Word::Input => b"input",
        Word::Semaphore => b"semaphore",
        Word::Max => b"max",
        Word::Fn => b"fn",
        Word::Thread => b"thread",
        Word::Priority => b"priority",
        Word::Start => b"start",
        Word::Let => b"let",
        Word::If => b"if",
        Word::Else => b"else",
        Word::While => b"while",
        Word::Ploop => b"ploop",
        Word::Break => b"break",
        Word::Return => b"return",
        Word::Atomic => b"atomic",
        Word::Give => b"give",
        Word::Abort => b"abort",
        Word::New => b"new",
        Word::Free => b"free",
        Word::Spawn => b"spawn",
        Word::Delete => b"delete",
        Word::Delay => b"delay",
        Word::Setprio => b"setprio",
        Word::Getprio => b"getprio",
        Word::Own => b"self",
        Word::Send => b"send",
        Word::Receive => b"receive",
        Word::Take => b"take",
        Word::Print => b"print",
        Word::Now => b"now",
        Word::Yield => b"yield",
        Word::Waiting => b"waiting",
    }
}

/// The word of the language that is spelled so, if one is.
pub fn word_of(bytes: &[u8]) -> Option<Word>
    ensures first { result ≡ find (λ word. bytes_eq (word_text word) bytes.now) words }
{
    WORDS.iter().copied().find(|word| word_text(*word) == bytes)
}

/// The marks.
const MARKS: [Mark; 12] = [
    Mark::OpenBrace,
    Mark::CloseBrace,
    Mark::OpenParenthesis,
    Mark::CloseParenthesis,
    Mark::OpenBracket,
    Mark::CloseBracket,
    Mark::Semicolon,
    Mark::Comma,
    Mark::Colon,
    Mark::Dot,
    Mark::Equals,
    Mark::Arrow,
];

/// How a mark is spelled.
pub fn mark_text(mark: Mark) -> &'static [u8]
    ensures same { result.now ≡ mark_text mark }
{
    match mark {
        Mark::OpenBrace => b"{",
        Mark::CloseBrace => b"}",
        Mark::OpenParenthesis => b"(",
        Mark::CloseParenthesis => b")",
        Mark::OpenBracket => b"[",
        Mark::CloseBracket => b"]",
        Mark::Semicolon => b";",
        Mark::Comma => b",",
        Mark::Colon => b":",
        Mark::Dot => b".",
        Mark::Equals => b"=",
        Mark::Arrow => b"->",
    }
}

/// The mark that is spelled so, if one is.
pub fn mark_of(bytes: &[u8]) -> Option<Mark>
    ensures first { result ≡ find (λ mark. bytes_eq (mark_text mark) bytes.now) marks }
{
    MARKS.iter().copied().find(|mark| mark_text(*mark) == bytes)
}

/// The operators.
const OPERATORS: [Op; 18] = [
    Op::Or,
    Op::Xor,
    Op::And,
    Op::Same,
    Op::Other,
    Op::Less,
    Op::AtMost,
    Op::More,
    Op::AtLeast,
    Op::Left,
    Op::Right,
    Op::Plus,
    Op::Minus,
    Op::Times,
    Op::Over,
    Op::Rest,
    Op::Not,
    Op::Flip,
];

/// How an operator is spelled.
pub fn operator_text(operator: Op) -> &'static [u8]
    ensures same { result.now ≡ operator_text operator }
{
    match operator {
        Op::Or => b"|",
        Op::Xor => b"^",
        Op::And => b"&",
        Op::Same => b"==",
        Op::Other => b"!=",
        Op::Less => b"<",
        Op::AtMost => b"<=",
        Op::More => b">",
        Op::AtLeast => b">=",
        Op::Left => b"<<",
        Op::Right => b">>",
        Op::Plus => b"+",
        Op::Minus => b"-",
        Op::Times => b"*",
        Op::Over => b"/",
        Op::Rest => b"%",
        Op::Not => b"!",
        Op::Flip => b"~",
    }
}

/// The operator that is spelled so, if one is.
pub fn operator_of(bytes: &[u8]) -> Option<Op>
    ensures first { result ≡ find (λ operator. bytes_eq (operator_text operator) bytes.now) operators }
{
    OPERATORS
        .iter()
        .copied()
        .find(|operator| operator_text(*operator) == bytes)
}
