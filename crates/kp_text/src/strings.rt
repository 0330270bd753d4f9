ghost use Rattle.std.specs.Prelude.{◌≡◌, ℕ, zero, suc, ◌+◌, ◌*◌, ◌-◌, ◌<◌, ◌≤◌, ◌^◌, List, [], length, IfOk};
ghost use Rattle.kp_kore.specs.Syntax.{Text};
ghost use Rattle.kp_text.specs.Tokens.{lexed, in_string, after_escape, in_number};
ghost use Rattle.kp_text.specs.Ahead.{ahead_view, piece_view, IsPieceWithin, IsRestWithin};

use crate::fault::FaultKind;
use crate::lexer::{Ahead, Token, first_character};
use crate::tail::Tail;
use std::alloc::{AllocError, Global};

/// What stands next in a string.
#[derive(Clone, Copy)]
enum Piece<'a> {
    /// A character that the string stands for, and what comes behind what is written for it.
    Character(char, &'a str),
    /// The quote that ends the string, and what comes behind it.
    End(&'a str),
    Broken { left: usize, kind: FaultKind },
}

/// A number's hexadecimal digits, and behind them what comes next.
fn number(text: &str, tail: Tail, quote: usize, digits: u32) -> Piece<'_>
    requires some { 0 < digits }
    requires few { digits ≤ 8 }
    ensures same { (t : Text) → piece_view tail quote t result ≡ lexed tail text.now (in_number quote t digits 0) }
    ensures within { IsPieceWithin result (length text.now) }
{
    let mut rest = text;
    let mut value: u32 = 0;
    for i in 0..digits {
        let Some((c, after)) = first_character(rest) else {
            return Piece::Broken {
                left: 0,
                kind: tail.kind(),
            };
        };
        let Some(digit) = c.to_digit(16) else {
            return Piece::Broken {
                left: quote,
                kind: FaultKind::String,
            };
        };
        value = value * 16 + digit;
        rest = after;
    }
    match char::from_u32(value) {
        Some(c) => Piece::Character(c, rest),
        None => Piece::Broken {
            left: quote,
            kind: FaultKind::String,
        },
    }
}

/// From behind a backslash on.
#[tactic(auto, using(crate::proofs::InStrings::escape_character, crate::proofs::InStrings::equal, crate::proofs::InStrings::escape_breaks))]
fn escape(text: &str, tail: Tail, quote: usize) -> Piece<'_>
    ensures same { (t : Text) → piece_view tail quote t result ≡ lexed tail text.now (after_escape quote t) }
    ensures within { IsPieceWithin result (length text.now) }
{
    let Some((c, after)) = first_character(text) else {
        return Piece::Broken {
            left: 0,
            kind: tail.kind(),
        };
    };
    match c {
        'n' => Piece::Character('\n', after),
        'r' => Piece::Character('\r', after),
        't' => Piece::Character('\t', after),
        'f' => Piece::Character('\x0c', after),
        '"' | '\\' => Piece::Character(c, after),
        'x' => number(after, tail, quote, 2),
        'u' => number(after, tail, quote, 4),
        'U' => number(after, tail, quote, 8),
        _ => Piece::Broken {
            left: quote,
            kind: FaultKind::String,
        },
    }
}

/// What stands next in a string.
#[tactic(auto, using(crate::proofs::InStrings::string_ends, crate::proofs::InStrings::string_escapes, crate::proofs::InStrings::string_breaks, crate::proofs::Characters::string_goes_on))]
fn next_piece(text: &str, tail: Tail, quote: usize) -> Piece<'_>
    ensures same { (t : Text) → piece_view tail quote t result ≡ lexed tail text.now (in_string quote t) }
    ensures within { IsPieceWithin result (length text.now) }
{
    let Some((c, after)) = first_character(text) else {
        return Piece::Broken {
            left: 0,
            kind: tail.kind(),
        };
    };
    match c {
        '"' => Piece::End(after),
        '\\' => escape(after, tail, quote),
        '\n' => Piece::Broken {
            left: quote,
            kind: FaultKind::String,
        },
        _ => Piece::Character(c, after),
    }
}

/// From behind the quote that begins a string on.
pub fn string<'a>(
    alloc: Global,
    text: &'a str,
    tail: Tail,
    quote: usize,
) -> Result<Ahead<'a>, AllocError>
    ensures same { IfOk result (λ x. ahead_view tail x ≡ lexed tail text.now (in_string quote [])) }
    ensures within { IfOk result (λ x. IsRestWithin x (length text.now)) }
{
    let mut rest = text;
    let mut characters = String::new(alloc);
    loop {
        match next_piece(rest, tail, quote) {
            Piece::Character(c, after) => {
                characters.push(c)?;
                rest = after;
            }
            Piece::End(after) => {
                return Ok(Ahead::Token {
                    left: quote,
                    token: Token::Text(characters),
                    rest: after,
                });
            }
            Piece::Broken { left, kind } => {
                return Ok(Ahead::BrokenString { quote, left, kind });
            }
        }
    }
}
