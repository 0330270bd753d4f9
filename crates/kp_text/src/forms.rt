ghost use Rattle.std.specs.Prelude.{◌≡◌, ℕ, List, [], ◌∷◌, map, length, string_bytes, Some, None};
ghost use Rattle.kp_kore.specs.View.{view, sort_view};
ghost use Rattle.kp_text.specs.Grammar.{constant_meaning, unary_meaning, variadic_meaning, binary_meaning, quantifier_meaning, rounding_meaning, comparison_meaning, fixed_point_meaning};

use crate::keyword::{
    Binary, ComparisonKeyword, Constant, FixedPoint, Quantifier, Rounding, Unary, Variadic,
};
use kp_kore::{Pattern, Sort};

/// `\top{S}()` and `\bottom{S}()`.
pub fn constant(constant: Constant, sort: Sort) -> Pattern
    ensures { view result ≡ constant_meaning constant (sort_view sort) }
{
    match constant {
        Constant::Top => Pattern::Top { sort },
        Constant::Bottom => Pattern::Bottom { sort },
    }
}

/// `\not{S}(p)` and `\next{S}(p)`.
pub fn unary(unary: Unary, sort: Sort, pattern: Box<Pattern>) -> Pattern
    ensures { view result ≡ unary_meaning unary (sort_view sort) (view pattern.value) }
{
    match unary {
        Unary::Not => Pattern::Not { sort, pattern },
        Unary::Next => Pattern::Next { sort, pattern },
    }
}

/// `\and{S}(..)` and `\or{S}(..)`: of none it is top or bottom, and of one that member.
#[tactic(auto, using(crate::proofs::Members::none_or, crate::proofs::Members::one_only, crate::proofs::Members::of_many))]
pub fn variadic(variadic: Variadic, sort: Sort, patterns: Vec<Pattern>) -> Pattern
    ensures { view result ≡ variadic_meaning variadic (sort_view sort) (map view patterns.items) }
{
    let mut patterns = patterns;
    if patterns.is_empty() {
        return match variadic {
            Variadic::And => Pattern::Top { sort },
            Variadic::Or => Pattern::Bottom { sort },
        };
    }
    if patterns.len() == 1 {
        if let Some(pattern) = patterns.pop() {
            return pattern;
        }
    }
    match variadic {
        Variadic::And => Pattern::And { sort, patterns },
        Variadic::Or => Pattern::Or { sort, patterns },
    }
}

/// `\implies{S}(p,q)`, `\iff{S}(p,q)` and `\rewrites{S}(p,q)`.
pub fn binary(binary: Binary, sort: Sort, left: Box<Pattern>, right: Box<Pattern>) -> Pattern
    ensures { view result ≡ binary_meaning binary (sort_view sort) (view left.value) (view right.value) }
{
    match binary {
        Binary::Implies => Pattern::Implies { sort, left, right },
        Binary::Iff => Pattern::Iff { sort, left, right },
        Binary::Rewrites => Pattern::Rewrites { sort, left, right },
    }
}

/// `\exists{S}(x:T,p)` and `\forall{S}(x:T,p)`.
pub fn quantified(
    quantifier: Quantifier,
    sort: Sort,
    name: String,
    name_sort: Sort,
    pattern: Box<Pattern>,
) -> Pattern
    ensures { view result ≡ quantifier_meaning quantifier (sort_view sort) (string_bytes name) (sort_view name_sort) (view pattern.value) }
{
    match quantifier {
        Quantifier::Exists => Pattern::Exists {
            sort,
            name,
            name_sort,
            pattern,
        },
        Quantifier::Forall => Pattern::Forall {
            sort,
            name,
            name_sort,
            pattern,
        },
    }
}

/// `\ceil{A,S}(p)` and `\floor{A,S}(p)`.
pub fn rounded(
    rounding: Rounding,
    argument_sort: Sort,
    sort: Sort,
    pattern: Box<Pattern>,
) -> Pattern
    ensures { view result ≡ rounding_meaning rounding (sort_view argument_sort) (sort_view sort) (view pattern.value) }
{
    match rounding {
        Rounding::Ceil => Pattern::Ceil {
            argument_sort,
            sort,
            pattern,
        },
        Rounding::Floor => Pattern::Floor {
            argument_sort,
            sort,
            pattern,
        },
    }
}

/// `\equals{A,S}(p,q)` and `\in{A,S}(p,q)`.
pub fn compared(
    comparison: ComparisonKeyword,
    argument_sort: Sort,
    sort: Sort,
    left: Box<Pattern>,
    right: Box<Pattern>,
) -> Pattern
    ensures { view result ≡ comparison_meaning comparison (sort_view argument_sort) (sort_view sort) (view left.value) (view right.value) }
{
    match comparison {
        ComparisonKeyword::Equals => Pattern::Equals {
            argument_sort,
            sort,
            left,
            right,
        },
        ComparisonKeyword::In => Pattern::In {
            argument_sort,
            sort,
            left,
            right,
        },
    }
}

/// `\mu{}(@x:S,p)` and `\nu{}(@x:S,p)`.
pub fn fixed(fixed_point: FixedPoint, name: String, sort: Sort, pattern: Box<Pattern>) -> Pattern
    ensures { view result ≡ fixed_point_meaning fixed_point (string_bytes name) (sort_view sort) (view pattern.value) }
{
    match fixed_point {
        FixedPoint::Mu => Pattern::Mu {
            name,
            sort,
            pattern,
        },
        FixedPoint::Nu => Pattern::Nu {
            name,
            sort,
            pattern,
        },
    }
}
