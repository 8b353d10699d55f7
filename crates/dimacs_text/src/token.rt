ghost use Rattle.std.specs.Prelude.{◌≡◌, ◌<◌, ◌^◌};
ghost use Rattle.dimacs_text.specs.Walk.{is_blank};
ghost use Rattle.dimacs_text.specs.Words.{first_digit, first_byte, format_more, extended, token_of, is_begun, number_of, is_format, is_p, IsNamable};

use sat_lits::{Lit, Var};

/// What a token is where literals are read.
#[derive(Clone, Copy)]
pub enum Token {
    /// A zero without a minus, which ends a list.
    Ending,
    Literal(Lit),
    /// A well-formed number that is greater than the limit on variables.
    TooLarge,
    NoLiteral,
}

/// What has come of a token.
#[derive(Clone, Copy)]
pub enum Word {
    Empty,
    Minus,
    /// A number that stops growing once it is greater than the limit on variables.
    Digits { negative: bool, value: u64 },
    /// The first bytes of `cnf`, so many.
    Cnf(u8),
    /// The byte `p`.
    P,
    NoNumber,
}

#[tactic(auto, unfolding(crate::specs::Walk::is_blank))]
pub fn is_blank(byte: u8) -> bool
    ensures { result ≡ is_blank byte }
{
    byte == b' ' || (b'\t' <= byte && byte <= b'\r')
}

fn first_digit(negative: bool, byte: u8) -> Word
    ensures { result ≡ first_digit negative byte }
{
    if b'0' <= byte && byte <= b'9' {
        Word::Digits {
            negative,
            value: (byte - b'0') as u64,
        }
    } else {
        Word::NoNumber
    }
}

/// The first byte of a token.
fn first_byte(byte: u8) -> Word
    ensures { result ≡ first_byte byte }
{
    if byte == b'-' {
        Word::Minus
    } else if byte == b'p' {
        Word::P
    } else if byte == b'c' {
        Word::Cnf(1)
    } else {
        first_digit(false, byte)
    }
}

/// A byte more of the word `cnf`.
fn format_more(count: u8, byte: u8) -> Word
    ensures { result ≡ format_more count byte }
{
    if count == 1 {
        if byte == b'n' {
            Word::Cnf(2)
        } else {
            Word::NoNumber
        }
    } else if count == 2 {
        if byte == b'f' {
            Word::Cnf(3)
        } else {
            Word::NoNumber
        }
    } else {
        Word::NoNumber
    }
}

/// The word with one byte more, which is no blank.
#[tactic(auto, unfolding(crate::specs::Words::extended))]
pub fn extended(word: Word, byte: u8, vars: u32) -> Word
    ensures { result ≡ extended vars word byte }
{
    match word {
        Word::Empty => first_byte(byte),
        Word::Minus => first_digit(true, byte),
        Word::Digits { negative, value } => {
            if byte < b'0' || b'9' < byte {
                Word::NoNumber
            } else if (vars as u64) < value {
                word
            } else {
                Word::Digits {
                    negative,
                    value: value * 10 + (byte - b'0') as u64,
                }
            }
        }
        Word::Cnf(count) => format_more(count, byte),
        Word::P => Word::NoNumber,
        Word::NoNumber => Word::NoNumber,
    }
}

/// Whether a token has begun.
pub fn is_begun(word: Word) -> bool
    ensures { result ≡ is_begun word }
{
    match word {
        Word::Empty => false,
        _ => true,
    }
}

/// What a whole word stands for.
#[tactic(auto, unfolding(crate::specs::Words::token_of, crate::specs::Tokens::signed))]
pub fn token_of(word: Word, vars: u32) -> Token
    requires { vars < 2 ^ 31 }
    ensures value { result ≡ token_of vars word }
    ensures namable { IsNamable result }
{
    match word {
        Word::Digits { negative, value } => {
            if value == 0 {
                if negative {
                    Token::NoLiteral
                } else {
                    Token::Ending
                }
            } else if value - 1 < vars as u64 {
                Token::Literal(Lit {
                    var: Var((value - 1) as u32),
                    negative,
                })
            } else {
                Token::TooLarge
            }
        }
        _ => Token::NoLiteral,
    }
}

/// The number that a whole word stands for, if it is digits alone.
pub fn number_of(word: Word) -> Option<u64>
    ensures { result ≡ number_of word }
{
    match word {
        Word::Digits { negative, value } => { if negative { None } else { Some(value) } }
        _ => None,
    }
}

/// Whether a whole word is `cnf`.
pub fn is_format(word: Word) -> bool
    ensures { result ≡ is_format word }
{
    match word {
        Word::Cnf(count) => count == 3,
        _ => false,
    }
}

/// Whether a whole word is `p`.
pub fn is_p(word: Word) -> bool
    ensures { result ≡ is_p word }
{
    match word {
        Word::P => true,
        _ => false,
    }
}
