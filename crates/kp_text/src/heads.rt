ghost use Rattle.std.specs.Prelude.{◌≡◌, ℕ, ◌≤◌, List, [], ◌∷◌, map, length, IfOk, IfErr, string_bytes};
ghost use Rattle.kp_kore.specs.Syntax.{Text, KorePattern};
ghost use Rattle.kp_kore.specs.View.{view, sort_view, sorts_view};
ghost use Rattle.kp_text.specs.Ahead.{token_view};
ghost use Rattle.kp_text.specs.declared.level.Level.{Level};
ghost use Rattle.kp_text.specs.declared.keyword.Keyword.TheVariants as keyword;
ghost use Rattle.kp_text.specs.Next.{Place, a_mark, a_pattern, after_name, a_braced_sort, folded, by_folded};
ghost use Rattle.kp_text.specs.Reads.{run_text, failed, begun_place, Finds, Stops, Finds2, Stops2, Leads, StopsAt, IsBehind, IsNotBefore};
ghost use Rattle.kp_text.specs.Heads.{one_meaning, two_meaning, many_meaning, head_place, FindsHead, sort_opened, sorts_opened, none_opened, a_bound, one_place, a_fold, symbol_opened, begun_fold, begun_fold_step, literal_place, fixed_place, keyword_place, IsBehindName};

use crate::expected::{mark, next_token};
use crate::fault::{FaultKind, TextFailure};
use crate::forms::{binary, compared, constant, fixed, quantified, rounded, unary, variadic};
use crate::keyword::{
    Binary, ComparisonKeyword, FixedPoint, FoldSide, Keyword, Quantifier, Rounding, Unary, Variadic,
};
use crate::level::Level;
use crate::lexer::Token;
use crate::parts::{keyword, string_literal, variable};
use crate::patterns::Beginning;
use crate::sorts::{a_sort, sorts};
use crate::tail::Tail;
use kp_kore::sort::Name;
use kp_kore::{Pattern, Sort};
use std::alloc::Global;

/// A form with one pattern in it, without that pattern.
#[derive(Drop)]
pub enum OfOne {
    Unary {
        unary: Unary,
        sort: Sort,
    },
    Quantified {
        quantifier: Quantifier,
        sort: Sort,
        name: Name,
        name_sort: Sort,
    },
    Rounded {
        rounding: Rounding,
        argument_sort: Sort,
        sort: Sort,
    },
    Fixed {
        fixed_point: FixedPoint,
        name: Name,
        sort: Sort,
    },
}

impl OfOne {
    /// The form with its pattern.
    pub fn with(self, pattern: Box<Pattern>) -> Pattern
        ensures { view result ≡ one_meaning self (view pattern.value) }
    {
        match self {
            OfOne::Unary { unary: form, sort } => unary(form, sort, pattern),
            OfOne::Quantified {
                quantifier,
                sort,
                name,
                name_sort,
            } => quantified(quantifier, sort, name, name_sort, pattern),
            OfOne::Rounded {
                rounding,
                argument_sort,
                sort,
            } => rounded(rounding, argument_sort, sort, pattern),
            OfOne::Fixed {
                fixed_point,
                name,
                sort,
            } => fixed(fixed_point, name, sort, pattern),
        }
    }
}

/// A form with two patterns in it, without those.
#[derive(Drop)]
pub enum OfTwo {
    Binary {
        binary: Binary,
        sort: Sort,
    },
    Compared {
        comparison: ComparisonKeyword,
        argument_sort: Sort,
        sort: Sort,
    },
}

impl OfTwo {
    /// The form with its patterns.
    pub fn with(self, left: Box<Pattern>, right: Box<Pattern>) -> Pattern
        ensures { view result ≡ two_meaning self (view left.value) (view right.value) }
    {
        match self {
            OfTwo::Binary { binary: form, sort } => binary(form, sort, left, right),
            OfTwo::Compared {
                comparison,
                argument_sort,
                sort,
            } => compared(comparison, argument_sort, sort, left, right),
        }
    }
}

/// A form with any number of patterns in it, without those.
#[derive(Drop)]
pub enum OfMany {
    Application { symbol: Name, sorts: Vec<Sort> },
    Variadic { variadic: Variadic, sort: Sort },
}

impl OfMany {
    /// The form with its patterns.
    pub fn with(self, patterns: Vec<Pattern>) -> Pattern
        ensures { view result ≡ many_meaning self (map view patterns.items) }
    {
        match self {
            OfMany::Application { symbol, sorts } => Pattern::Application {
                symbol,
                sorts,
                arguments: patterns,
            },
            OfMany::Variadic {
                variadic: form,
                sort,
            } => variadic(form, sort, patterns),
        }
    }
}

/// A pattern up to where patterns begin in it.
#[derive(Drop)]
pub enum PatternStart {
    Whole(Pattern),
    One(OfOne),
    Two(OfTwo),
    Many(OfMany),
    /// A fold of the members of an application.
    Fold {
        side: FoldSide,
        symbol: Name,
        sorts: Vec<Sort>,
    },
    /// A fold of `\and` or `\or`.
    VariadicFold {
        variadic: Variadic,
        sort: Sort,
    },
}

/// What stands behind a name that begins a pattern.
#[derive(Clone, Copy)]
enum BehindName<'a> {
    Brace(&'a str),
    Colon(&'a str),
}

/// The mark behind a name that begins a pattern.
fn behind_name(alloc: Global, text: &str, tail: Tail) -> Result<BehindName<'_>, TextFailure>
    ensures found { IfOk result (IsBehindName tail text.now) }
    ensures fault { IfErr result (λ e. (l : Level) (x : Text) → Stops tail text.now (after_name l x) e) }
{
    let (left, token, rest) = next_token(alloc, text, tail)?;
    match token {
        Token::Mark(c) => {
            if c == '{' {
                return Ok(BehindName::Brace(rest));
            }
            if c == ':' {
                return Ok(BehindName::Colon(rest));
            }
            Err(TextFailure::Fault {
                left,
                kind: FaultKind::Token,
            })
        }
        _ => Err(TextFailure::Fault {
            left,
            kind: FaultKind::Token,
        }),
    }
}

/// A variable or the head of an application, whose name was read.
fn named_head<'a>(
    alloc: Global,
    name: Name,
    text: &'a str,
    tail: Tail,
) -> Result<(PatternStart, &'a str), TextFailure>
    ensures found { IfOk result (λ x. (l : Level) → FindsHead tail text.now (after_name l (string_bytes name)) l x.0 x.1.now) }
    ensures fault { IfErr result (λ e. (l : Level) → Stops tail text.now (after_name l (string_bytes name)) e) }
    ensures behind { IfOk result (λ x. IsBehind x.1.now text.now) }
{
    match behind_name(alloc, text, tail)? {
        BehindName::Brace(rest) => {
            let (sorts, rest) = sorts(alloc, 1, '}', rest, tail)?;
            let rest = mark(alloc, '(', rest, tail)?;
            Ok((
                PatternStart::Many(OfMany::Application {
                    symbol: name,
                    sorts,
                }),
                rest,
            ))
        }
        BehindName::Colon(rest) => {
            let (sort, rest) = a_sort(alloc, 1, rest, tail)?;
            Ok((PatternStart::Whole(Pattern::Variable { name, sort }), rest))
        }
    }
}

/// `{S}(`.
fn opened(alloc: Global, text: &str, tail: Tail) -> Result<(Sort, &str), TextFailure>
    ensures found { IfOk result (λ x. Finds tail text.now sort_opened (sort_view x.0) x.1.now) }
    ensures fault { IfErr result (Stops tail text.now sort_opened) }
    ensures behind { IfOk result (λ x. IsBehind x.1.now text.now) }
{
    let rest = mark(alloc, '{', text, tail)?;
    let (sort, rest) = a_sort(alloc, 1, rest, tail)?;
    let rest = mark(alloc, '}', rest, tail)?;
    let rest = mark(alloc, '(', rest, tail)?;
    Ok((sort, rest))
}

/// `{A,S}(`.
fn two_opened(alloc: Global, text: &str, tail: Tail) -> Result<(Sort, Sort, &str), TextFailure>
    ensures found { IfOk result (λ x. Finds2 tail text.now sorts_opened (sort_view x.0) (sort_view x.1) x.2.now) }
    ensures fault { IfErr result (Stops2 tail text.now sorts_opened) }
    ensures behind { IfOk result (λ x. IsBehind x.2.now text.now) }
{
    let rest = mark(alloc, '{', text, tail)?;
    let (argument_sort, rest) = a_sort(alloc, 1, rest, tail)?;
    let rest = mark(alloc, ',', rest, tail)?;
    let (sort, rest) = a_sort(alloc, 1, rest, tail)?;
    let rest = mark(alloc, '}', rest, tail)?;
    let rest = mark(alloc, '(', rest, tail)?;
    Ok((argument_sort, sort, rest))
}

/// `x:S,`.
fn bound(alloc: Global, text: &str, tail: Tail) -> Result<(Name, Sort, &str), TextFailure>
    ensures found { IfOk result (λ x. Finds2 tail text.now a_bound (string_bytes x.0) (sort_view x.1) x.2.now) }
    ensures fault { IfErr result (Stops2 tail text.now a_bound) }
    ensures behind { IfOk result (λ x. IsBehind x.2.now text.now) }
{
    let (name, sort, rest) = variable(alloc, text, tail)?;
    let rest = mark(alloc, ',', rest, tail)?;
    Ok((name, sort, rest))
}

/// `{}(`.
fn no_sorts_opened(alloc: Global, text: &str, tail: Tail) -> Result<&str, TextFailure>
    ensures found { IfOk result (λ rest. Leads tail text.now none_opened rest.now) }
    ensures fault { IfErr result (StopsAt tail text.now none_opened) }
    ensures behind { IfOk result (λ rest. IsBehind rest.now text.now) }
{
    let rest = mark(alloc, '{', text, tail)?;
    let rest = mark(alloc, '}', rest, tail)?;
    mark(alloc, '(', rest, tail)
}

/// `{S}("text")`.
fn literal(alloc: Global, text: &str, tail: Tail) -> Result<(PatternStart, &str), TextFailure>
    ensures found { IfOk result (λ x. (l : Level) → FindsHead tail text.now literal_place l x.0 x.1.now) }
    ensures fault { IfErr result (Stops tail text.now literal_place) }
    ensures behind { IfOk result (λ x. IsBehind x.1.now text.now) }
{
    let (sort, rest) = opened(alloc, text, tail)?;
    let (text, rest) = string_literal(alloc, rest, tail)?;
    let rest = mark(alloc, ')', rest, tail)?;
    Ok((PatternStart::Whole(Pattern::Literal { sort, text }), rest))
}

/// `{}(@x:S,`.
fn fixed_head(
    alloc: Global,
    fixed_point: FixedPoint,
    text: &str,
    tail: Tail,
) -> Result<(PatternStart, &str), TextFailure>
    ensures found { IfOk result (λ x. (l : Level) → FindsHead tail text.now (fixed_place l fixed_point) l x.0 x.1.now) }
    ensures fault { IfErr result (λ e. (l : Level) → Stops tail text.now (fixed_place l fixed_point) e) }
    ensures behind { IfOk result (λ x. IsBehind x.1.now text.now) }
{
    let rest = no_sorts_opened(alloc, text, tail)?;
    let rest = mark(alloc, '@', rest, tail)?;
    let (name, sort, rest) = bound(alloc, rest, tail)?;
    Ok((
        PatternStart::One(OfOne::Fixed {
            fixed_point,
            name,
            sort,
        }),
        rest,
    ))
}

/// How what a fold holds begins.
#[derive(Drop)]
enum FoldBeginning {
    Symbol(Name),
    Variadic(Variadic),
}

/// How a token begins what a fold holds.
fn begins_fold(token: Token) -> Option<FoldBeginning>
    ensures { (level : Level) (side : FoldSide) (k : KorePattern → Place) → by_folded level side k (token_view token) ≡ begun_fold_step level side k result }
{
    match token {
        Token::Identifier(symbol) => Some(FoldBeginning::Symbol(symbol)),
        Token::Backslashed(word) => match keyword(&word) {
            Some(Keyword::Variadic(variadic)) => Some(FoldBeginning::Variadic(variadic)),
            Some(_) => None,
            None => None,
        },
        Token::Text(_) | Token::Mark(_) | Token::DefinedAs => None,
    }
}

/// How what a fold holds begins, and what comes behind that.
fn fold_begin(
    alloc: Global,
    level: Level,
    text: &str,
    tail: Tail,
) -> Result<(FoldBeginning, &str), TextFailure>
    requires { level.written ≤ 256 }
    ensures found { let text' = text.now in IfOk result (λ x. (side : FoldSide) (k : KorePattern → Place) → run_text tail x.1.now (begun_fold level side k x.0) ≡ run_text tail text' (folded level side k)) }
    ensures fault { IfErr result (λ e. (side : FoldSide) → Stops tail text.now (folded level side) e) }
    ensures behind { IfOk result (λ x. IsBehind x.1.now text.now) }
{
    let (left, token, rest) = next_token(alloc, text, tail)?;
    match begins_fold(token) {
        None => Err(TextFailure::Fault {
            left,
            kind: FaultKind::Token,
        }),
        Some(beginning) => {
            if level.written > 255 {
                return Err(TextFailure::Fault {
                    left,
                    kind: FaultKind::Deep,
                });
            }
            Ok((beginning, rest))
        }
    }
}

/// What a fold holds, up to where patterns begin in it.
fn fold_head(
    alloc: Global,
    level: Level,
    side: FoldSide,
    text: &str,
    tail: Tail,
) -> Result<(PatternStart, &str), TextFailure>
    requires { level.written ≤ 256 }
    ensures found { IfOk result (λ x. FindsHead tail text.now (a_fold level side) level x.0 x.1.now) }
    ensures fault { IfErr result (Stops tail text.now (a_fold level side)) }
    ensures behind { IfOk result (λ x. IsBehind x.1.now text.now) }
{
    let (beginning, rest) = fold_begin(alloc, level, text, tail)?;
    match beginning {
        FoldBeginning::Symbol(symbol) => {
            let (sorts, rest) = sorts_in_braces(alloc, rest, tail)?;
            Ok((
                PatternStart::Fold {
                    side,
                    symbol,
                    sorts,
                },
                rest,
            ))
        }
        FoldBeginning::Variadic(variadic) => {
            let (sort, rest) = opened(alloc, rest, tail)?;
            Ok((PatternStart::VariadicFold { variadic, sort }, rest))
        }
    }
}

/// `{}(` and what a fold holds, up to where patterns begin in it.
fn opened_fold_head(
    alloc: Global,
    level: Level,
    side: FoldSide,
    text: &str,
    tail: Tail,
) -> Result<(PatternStart, &str), TextFailure>
    requires { level.written ≤ 256 }
    ensures found { IfOk result (λ x. FindsHead tail text.now (keyword_place level (keyword.Fold side)) level x.0 x.1.now) }
    ensures fault { IfErr result (Stops tail text.now (keyword_place level (keyword.Fold side))) }
    ensures behind { IfOk result (λ x. IsBehind x.1.now text.now) }
{
    let rest = no_sorts_opened(alloc, text, tail)?;
    fold_head(alloc, level, side, rest, tail)
}

/// `{sorts}(`.
fn sorts_in_braces(alloc: Global, text: &str, tail: Tail) -> Result<(Vec<Sort>, &str), TextFailure>
    ensures found { IfOk result (λ x. Finds tail text.now symbol_opened (map sort_view x.0.items) x.1.now) }
    ensures fault { IfErr result (Stops tail text.now symbol_opened) }
    ensures behind { IfOk result (λ x. IsBehind x.1.now text.now) }
{
    let rest = mark(alloc, '{', text, tail)?;
    let (sorts, rest) = sorts(alloc, 1, '}', rest, tail)?;
    let rest = mark(alloc, '(', rest, tail)?;
    Ok((sorts, rest))
}

/// What follows a keyword, up to where patterns begin in it.
fn keyword_head(
    alloc: Global,
    level: Level,
    keyword: Keyword,
    text: &str,
    tail: Tail,
) -> Result<(PatternStart, &str), TextFailure>
    requires { level.written ≤ 256 }
    ensures found { IfOk result (λ x. FindsHead tail text.now (keyword_place level keyword) level x.0 x.1.now) }
    ensures fault { IfErr result (Stops tail text.now (keyword_place level keyword)) }
    ensures behind { IfOk result (λ x. IsBehind x.1.now text.now) }
{
    match keyword {
        Keyword::Constant(form) => {
            let (sort, rest) = opened(alloc, text, tail)?;
            let rest = mark(alloc, ')', rest, tail)?;
            Ok((PatternStart::Whole(constant(form, sort)), rest))
        }
        Keyword::Unary(unary) => {
            let (sort, rest) = opened(alloc, text, tail)?;
            Ok((PatternStart::One(OfOne::Unary { unary, sort }), rest))
        }
        Keyword::Variadic(variadic) => {
            let (sort, rest) = opened(alloc, text, tail)?;
            Ok((
                PatternStart::Many(OfMany::Variadic { variadic, sort }),
                rest,
            ))
        }
        Keyword::Binary(binary) => {
            let (sort, rest) = opened(alloc, text, tail)?;
            Ok((PatternStart::Two(OfTwo::Binary { binary, sort }), rest))
        }
        Keyword::Quantifier(quantifier) => {
            let (sort, rest) = opened(alloc, text, tail)?;
            let (name, name_sort, rest) = bound(alloc, rest, tail)?;
            Ok((
                PatternStart::One(OfOne::Quantified {
                    quantifier,
                    sort,
                    name,
                    name_sort,
                }),
                rest,
            ))
        }
        Keyword::Rounding(rounding) => {
            let (argument_sort, sort, rest) = two_opened(alloc, text, tail)?;
            Ok((
                PatternStart::One(OfOne::Rounded {
                    rounding,
                    argument_sort,
                    sort,
                }),
                rest,
            ))
        }
        Keyword::Comparison(comparison) => {
            let (argument_sort, sort, rest) = two_opened(alloc, text, tail)?;
            Ok((
                PatternStart::Two(OfTwo::Compared {
                    comparison,
                    argument_sort,
                    sort,
                }),
                rest,
            ))
        }
        Keyword::Literal => literal(alloc, text, tail),
        Keyword::FixedPoint(form) => fixed_head(alloc, form, text, tail),
        Keyword::Fold(side) => opened_fold_head(alloc, level, side, text, tail),
    }
}

/// What follows the beginning of a pattern, up to where patterns begin in it.
#[tactic(auto, using(crate::proofs::InPatterns::keyword_runs))]
pub fn pattern_head(
    alloc: Global,
    level: Level,
    beginning: Beginning,
    text: &str,
    tail: Tail,
) -> Result<(PatternStart, &str), TextFailure>
    requires { level.written ≤ 256 }
    ensures found { IfOk result (λ x. FindsHead tail text.now (λ k. begun_place level k beginning) level x.0 x.1.now) }
    ensures fault { IfErr result (Stops tail text.now (λ k. begun_place level k beginning)) }
    ensures behind { IfOk result (λ x. IsNotBefore x.1.now text.now) }
{
    match beginning {
        Beginning::Name(name) => named_head(alloc, name, text, tail),
        Beginning::SetVariable => {
            let (name, sort, rest) = variable(alloc, text, tail)?;
            Ok((
                PatternStart::Whole(Pattern::SetVariable { name, sort }),
                rest,
            ))
        }
        Beginning::Text(characters) => Ok((
            PatternStart::Whole(Pattern::StringLiteral { text: characters }),
            text,
        )),
        Beginning::Keyword(keyword) => keyword_head(alloc, level, keyword, text, tail),
    }
}
