ghost use Rattle.std.specs.Prelude.{◌≡◌, ℕ, List, [], ◌∷◌, length, IfOk, IfErr, string_bytes, codes};
ghost use Rattle.kp_text.specs.Tokens.{KoreToken, string_token, lexed, between, lexeme};
ghost use Rattle.kp_text.specs.Ahead.{token_view};
ghost use Rattle.kp_text.specs.Next.{Place, faulty, step, refused, goes, at_end, a_mark, a_defined_as, a_word, a_name, a_string};
ghost use Rattle.kp_text.specs.Reads.{run_text, failed, Leads, StopsAt, Finds, Stops, IsBehind, IsMarkAhead, IsSeparator, IsSeparated};
ghost use Rattle.kp_text.specs.declared.fault.FaultKind.TheVariants as kind;
ghost use Rattle.kp_text.specs.declared.fault.TextFailure.TheVariants as failure;

use crate::fault::{FaultKind, TextFailure};
use crate::lexer::{Ahead, Token, look_ahead};
use crate::tail::Tail;
use std::alloc::Global;

/// The next token, where it begins and what comes behind it, at a place where no string may stand.
pub fn next_token(
    alloc: Global,
    text: &str,
    tail: Tail,
) -> Result<(usize, Token, &str), TextFailure>
    ensures found { IfOk result (λ x. lexed tail text.now between ≡ lexeme x.0 (token_view x.1) (lexed tail x.2.now between)) }
    ensures fault { IfErr result (λ e. (g : Place) → let outcome = run_text tail text.now g in at_end g ≡ faulty 0 kind.End → step g (string_token []) ≡ refused → outcome ≡ failed e outcome) }
    ensures behind { IfOk result (λ x. IsBehind x.2.now text.now) }
{
    match look_ahead(alloc, text, tail)? {
        Ahead::Token { left, token, rest } => Ok((left, token, rest)),
        Ahead::Finished => Err(TextFailure::Fault {
            left: 0,
            kind: FaultKind::End,
        }),
        Ahead::Broken { left, kind } => Err(TextFailure::Fault { left, kind }),
        Ahead::BrokenString { quote, .. } => Err(TextFailure::Fault {
            left: quote,
            kind: FaultKind::Token,
        }),
    }
}

/// What comes behind a mark.
pub fn mark<'a>(
    alloc: Global,
    wanted: char,
    text: &'a str,
    tail: Tail,
) -> Result<&'a str, TextFailure>
    ensures found { IfOk result (λ rest. Leads tail text.now (a_mark wanted) rest.now) }
    ensures fault { IfErr result (StopsAt tail text.now (a_mark wanted)) }
    ensures behind { IfOk result (λ rest. IsBehind rest.now text.now) }
{
    let (left, token, rest) = next_token(alloc, text, tail)?;
    match token {
        Token::Mark(c) if c == wanted => Ok(rest),
        _ => Err(TextFailure::Fault {
            left,
            kind: FaultKind::Token,
        }),
    }
}

/// A name, and what comes behind it.
pub fn name(alloc: Global, text: &str, tail: Tail) -> Result<(String, &str), TextFailure>
    ensures found { IfOk result (λ x. Finds tail text.now a_name (string_bytes x.0) x.1.now) }
    ensures fault { IfErr result (Stops tail text.now a_name) }
    ensures behind { IfOk result (λ x. IsBehind x.1.now text.now) }
{
    let (left, token, rest) = next_token(alloc, text, tail)?;
    match token {
        Token::Identifier(name) => Ok((name, rest)),
        _ => Err(TextFailure::Fault {
            left,
            kind: FaultKind::Token,
        }),
    }
}

/// What comes behind a mark, where it stands next.
pub fn mark_ahead<'a>(
    alloc: Global,
    wanted: char,
    text: &'a str,
    tail: Tail,
) -> Result<Option<&'a str>, TextFailure>
    ensures found { IfOk result (IsMarkAhead tail text.now wanted) }
    ensures fault { IfErr result (λ e. e ≡ failure.Memory) }
{
    match look_ahead(alloc, text, tail)? {
        Ahead::Token {
            token: Token::Mark(c),
            rest,
            ..
        } => {
            if c == wanted {
                Ok(Some(rest))
            } else {
                Ok(None)
            }
        }
        _ => Ok(None),
    }
}

/// What stands next in a list, and what comes behind it.
#[derive(Clone, Copy)]
pub enum Separator<'a> {
    Comma(&'a str),
    Close(&'a str),
}

/// The comma or the closing mark that stands next.
#[tactic(auto, using(crate::proofs::Marks::refuses))]
pub fn next_separator<'a>(
    alloc: Global,
    close: char,
    text: &'a str,
    tail: Tail,
) -> Result<Separator<'a>, TextFailure>
    ensures found { IfOk result (IsSeparator tail text.now close) }
    ensures fault { IfErr result (λ e. (g : Place) → IsSeparated close g → run_text tail text.now g ≡ failed e (run_text tail text.now g)) }
{
    let (left, token, rest) = next_token(alloc, text, tail)?;
    match token {
        Token::Mark(c) => {
            if c == close {
                return Ok(Separator::Close(rest));
            }
            if c == ',' {
                return Ok(Separator::Comma(rest));
            }
            Err(TextFailure::Fault {
                left,
                kind: FaultKind::Token,
            })
        }
        _ => Err(TextFailure::Fault {
            left,
            kind: FaultKind::Token,
        }),
    }
}
