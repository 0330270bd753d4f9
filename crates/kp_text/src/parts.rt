ghost use Rattle.std.specs.Prelude.{◌≡◌, ℕ, List, [], map, length, IfOk, IfErr, string_bytes};
ghost use Rattle.kp_kore.specs.View.{sort_view};
ghost use Rattle.kp_text.specs.Next.{a_variable, a_string, keyword_of};
ghost use Rattle.kp_text.specs.Reads.{run_text, failed, Finds, Stops, Finds2, Stops2, IsBehind};

use crate::expected::{mark, name};
use crate::fault::{FaultKind, TextFailure};
use crate::keyword::{
    Binary, ComparisonKeyword, Constant, FixedPoint, FoldSide, Keyword, Quantifier, Rounding,
    Unary, Variadic,
};
use crate::lexer::{Ahead, Token, look_ahead};
use crate::sentences::is_word;
use crate::sorts::a_sort;
use crate::tail::Tail;
use kp_kore::Sort;
use std::alloc::Global;

/// `x:S`.
pub fn variable(alloc: Global, text: &str, tail: Tail) -> Result<(String, Sort, &str), TextFailure>
    ensures found { IfOk result (λ x. Finds2 tail text.now a_variable (string_bytes x.0) (sort_view x.1) x.2.now) }
    ensures fault { IfErr result (Stops2 tail text.now a_variable) }
    ensures behind { IfOk result (λ x. IsBehind x.2.now text.now) }
{
    let (name, rest) = name(alloc, text, tail)?;
    let rest = mark(alloc, ':', rest, tail)?;
    let (sort, rest) = a_sort(alloc, 1, rest, tail)?;
    Ok((name, sort, rest))
}

/// A string, and what comes behind it.
pub fn string_literal(alloc: Global, text: &str, tail: Tail) -> Result<(String, &str), TextFailure>
    ensures found { IfOk result (λ x. Finds tail text.now a_string (string_bytes x.0) x.1.now) }
    ensures fault { IfErr result (Stops tail text.now a_string) }
    ensures behind { IfOk result (λ x. IsBehind x.1.now text.now) }
{
    match look_ahead(alloc, text, tail)? {
        Ahead::Token { left, token, rest } => match token {
            Token::Text(characters) => Ok((characters, rest)),
            _ => Err(TextFailure::Fault {
                left,
                kind: FaultKind::Token,
            }),
        },
        Ahead::Finished => Err(TextFailure::Fault {
            left: 0,
            kind: FaultKind::End,
        }),
        Ahead::Broken { left, kind } => Err(TextFailure::Fault { left, kind }),
        Ahead::BrokenString { left, kind, .. } => Err(TextFailure::Fault { left, kind }),
    }
}

/// The word behind a backslash.
pub fn keyword(word: &str) -> Option<Keyword>
    ensures { result ≡ keyword_of word.now }
{
    if is_word(word, "top") {
        Some(Keyword::Constant(Constant::Top))
    } else if is_word(word, "bottom") {
        Some(Keyword::Constant(Constant::Bottom))
    } else if is_word(word, "not") {
        Some(Keyword::Unary(Unary::Not))
    } else if is_word(word, "next") {
        Some(Keyword::Unary(Unary::Next))
    } else if is_word(word, "and") {
        Some(Keyword::Variadic(Variadic::And))
    } else if is_word(word, "or") {
        Some(Keyword::Variadic(Variadic::Or))
    } else if is_word(word, "implies") {
        Some(Keyword::Binary(Binary::Implies))
    } else if is_word(word, "iff") {
        Some(Keyword::Binary(Binary::Iff))
    } else if is_word(word, "rewrites") {
        Some(Keyword::Binary(Binary::Rewrites))
    } else if is_word(word, "exists") {
        Some(Keyword::Quantifier(Quantifier::Exists))
    } else if is_word(word, "forall") {
        Some(Keyword::Quantifier(Quantifier::Forall))
    } else if is_word(word, "ceil") {
        Some(Keyword::Rounding(Rounding::Ceil))
    } else if is_word(word, "floor") {
        Some(Keyword::Rounding(Rounding::Floor))
    } else if is_word(word, "equals") {
        Some(Keyword::Comparison(ComparisonKeyword::Equals))
    } else if is_word(word, "in") {
        Some(Keyword::Comparison(ComparisonKeyword::In))
    } else if is_word(word, "dv") {
        Some(Keyword::Literal)
    } else if is_word(word, "mu") {
        Some(Keyword::FixedPoint(FixedPoint::Mu))
    } else if is_word(word, "nu") {
        Some(Keyword::FixedPoint(FixedPoint::Nu))
    } else if is_word(word, "left-assoc") {
        Some(Keyword::Fold(FoldSide::Left))
    } else if is_word(word, "right-assoc") {
        Some(Keyword::Fold(FoldSide::Right))
    } else {
        None
    }
}
