ghost use Rattle.std.specs.Prelude.{◌≡◌, ℕ, List, [], ◌∷◌, map, length, IfOk, IfErr, string_bytes};
ghost use Rattle.kp_kore.specs.View.{names_view};
ghost use Rattle.kp_text.specs.Next.{names, more_names};
ghost use Rattle.kp_text.specs.Reads.{Finds, Stops, IsBehind};
ghost use Rattle.kp_text.specs.Sentences.{braced_names};

use crate::expected::{Separator, mark, name, next_separator, next_token};
use crate::fault::{FaultKind, TextFailure};
use crate::lexer::Token;
use crate::tail::Tail;
use kp_kore::sort::Name;
use std::alloc::Global;

/// Names with commas between them, and what comes behind the brace that closes them.
#[tactic(auto, using(crate::proofs::InSentences::names_are_none, crate::proofs::InSentences::names_begin, crate::proofs::InSentences::names_refused))]
fn names(alloc: Global, text: &str, tail: Tail) -> Result<(Vec<Name>, &str), TextFailure>
    ensures found { IfOk result (λ x. Finds tail text.now names (names_view x.0.items) x.1.now) }
    ensures fault { IfErr result (Stops tail text.now names) }
    ensures behind { IfOk result (λ x. IsBehind x.1.now text.now) }
{
    let (left, token, rest) = next_token(alloc, text, tail)?;
    match token {
        Token::Mark(c) => {
            if c == '}' {
                return Ok((Vec::new(alloc), rest));
            }
            Err(TextFailure::Fault {
                left,
                kind: FaultKind::Token,
            })
        }
        Token::Identifier(first) => more_names(alloc, first, rest, tail),
        _ => Err(TextFailure::Fault {
            left,
            kind: FaultKind::Token,
        }),
    }
}

/// Names of which the first was read.
#[tactic(auto, using(crate::proofs::InSentences::names_close, crate::proofs::InSentences::names_go_on, crate::proofs::InSentences::names_separated))]
fn more_names<'a>(
    alloc: Global,
    first: Name,
    text: &'a str,
    tail: Tail,
) -> Result<(Vec<Name>, &'a str), TextFailure>
    ensures found { IfOk result (λ x. Finds tail text.now (more_names (string_bytes first ∷ [])) (names_view x.0.items) x.1.now) }
    ensures fault { IfErr result (Stops tail text.now (more_names (string_bytes first ∷ []))) }
    ensures behind { IfOk result (λ x. IsBehind x.1.now text.now) }
{
    let mut names = Vec::new(alloc);
    names.push(first)?;
    let mut rest = text;
    loop {
        match next_separator(alloc, '}', rest, tail)? {
            Separator::Close(behind) => return Ok((names, behind)),
            Separator::Comma(behind) => {
                let (next, after) = name(alloc, behind, tail)?;
                names.push(next)?;
                rest = after;
            }
        }
    }
}

/// Names in braces, and what comes behind them.
pub fn braced_names(alloc: Global, text: &str, tail: Tail) -> Result<(Vec<Name>, &str), TextFailure>
    ensures found { IfOk result (λ x. Finds tail text.now braced_names (names_view x.0.items) x.1.now) }
    ensures fault { IfErr result (Stops tail text.now braced_names) }
    ensures behind { IfOk result (λ x. IsBehind x.1.now text.now) }
{
    let rest = mark(alloc, '{', text, tail)?;
    names(alloc, rest, tail)
}
