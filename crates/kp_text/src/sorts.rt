ghost use Rattle.std.specs.Prelude.{◌≡◌, ℕ, ◌+◌, ◌≤◌, List, [], ◌∷◌, map, length, IfOk, IfErr, string_bytes};
ghost use Rattle.kp_kore.specs.View.{sort_view};
ghost use Rattle.kp_text.specs.Next.{a_sort, after_sort_name, sorts};
ghost use Rattle.kp_text.specs.Reads.{Finds, Stops, IsBehind, IsNotBefore, some_sorts};

use crate::expected::{Separator, mark_ahead, next_separator, next_token};
use crate::fault::{FaultKind, TextFailure};
use crate::lexer::Token;
use crate::tail::Tail;
use kp_kore::Sort;
use std::alloc::Global;

/// A sort at a level of its own, and what comes behind it.
#[cycle(sort)]
#[tactic(auto, using(crate::proofs::InSorts::sort_named))]
pub fn a_sort<'a>(
    alloc: Global,
    level: usize,
    text: &'a str,
    tail: Tail,
) -> Result<(Sort, &'a str), TextFailure>
    requires { level ≤ 257 }
    ensures found { IfOk result (λ x. Finds tail text.now (a_sort level) (sort_view x.0) x.1.now) }
    ensures fault { IfErr result (Stops tail text.now (a_sort level)) }
    ensures behind { IfOk result (λ x. IsBehind x.1.now text.now) }
{
    let (left, token, rest) = next_token(alloc, text, tail)?;
    match token {
        Token::Identifier(name) => {
            if level > 256 {
                return Err(TextFailure::Fault {
                    left,
                    kind: FaultKind::Deep,
                });
            }
            named_sort(alloc, level, name, rest, tail)
        }
        _ => Err(TextFailure::Fault {
            left,
            kind: FaultKind::Token,
        }),
    }
}

/// A sort whose name was read.
#[cycle(sort)]
#[tactic(auto, using(crate::proofs::InSorts::sort_opens, crate::proofs::InSorts::sort_is_variable))]
fn named_sort<'a>(
    alloc: Global,
    level: usize,
    name: String,
    text: &'a str,
    tail: Tail,
) -> Result<(Sort, &'a str), TextFailure>
    requires { level ≤ 256 }
    ensures found { IfOk result (λ x. Finds tail text.now (after_sort_name level (string_bytes name)) (sort_view x.0) x.1.now) }
    ensures fault { IfErr result (Stops tail text.now (after_sort_name level (string_bytes name))) }
    ensures behind { IfOk result (λ x. IsNotBefore x.1.now text.now) }
{
    match mark_ahead(alloc, '{', text, tail)? {
        None => Ok((Sort::Variable { name }, text)),
        Some(rest) => {
            let (arguments, rest) = sorts(alloc, level + 1, '}', rest, tail)?;
            Ok((Sort::App { name, arguments }, rest))
        }
    }
}

/// Sorts with commas between them, and what comes behind the mark that closes them.
#[cycle(sort)]
#[tactic(auto, using(crate::proofs::InSorts::sorts_are_none, crate::proofs::InSorts::sorts_begin))]
pub fn sorts<'a>(
    alloc: Global,
    level: usize,
    close: char,
    text: &'a str,
    tail: Tail,
) -> Result<(Vec<Sort>, &'a str), TextFailure>
    requires { level ≤ 257 }
    ensures found { IfOk result (λ x. Finds tail text.now (sorts level close) (map sort_view x.0.items) x.1.now) }
    ensures fault { IfErr result (Stops tail text.now (sorts level close)) }
    ensures behind { IfOk result (λ x. IsBehind x.1.now text.now) }
{
    match mark_ahead(alloc, close, text, tail)? {
        Some(rest) => Ok((Vec::new(alloc), rest)),
        None => some_sorts(alloc, level, close, text, tail),
    }
}

/// Sorts with commas between them, one at least, and what comes behind the mark that closes them.
#[cycle(sort)]
#[tactic(auto, using(crate::proofs::InSorts::sorts_close, crate::proofs::InSorts::sorts_go_on, crate::proofs::InSorts::sorts_separated))]
fn some_sorts<'a>(
    alloc: Global,
    level: usize,
    close: char,
    text: &'a str,
    tail: Tail,
) -> Result<(Vec<Sort>, &'a str), TextFailure>
    requires { level ≤ 257 }
    ensures found { IfOk result (λ x. Finds tail text.now (some_sorts level close) (map sort_view x.0.items) x.1.now) }
    ensures fault { IfErr result (Stops tail text.now (some_sorts level close)) }
    ensures behind { IfOk result (λ x. IsBehind x.1.now text.now) }
{
    let mut sorts = Vec::new(alloc);
    let mut rest = text;
    loop {
        let (sort, after) = a_sort(alloc, level, rest, tail)?;
        sorts.push(sort)?;
        match next_separator(alloc, close, after, tail)? {
            Separator::Close(behind) => return Ok((sorts, behind)),
            Separator::Comma(behind) => rest = behind,
        }
    }
}
