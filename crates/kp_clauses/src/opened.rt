// A predicate opened with both signs at once: connectives are gone through down to the predicates that have none, and
// what is kept of the clauses of a part is made once, however often the whole needs it.
ghost use Rattle.std.specs.Prelude.{◌≡◌, [], ◌∷◌, true, false, not, Bool, IfOk, IfErr, map};
ghost use Rattle.std.specs.List.{AllByRecursion};
ghost use Rattle.kp_compile.specs.declared.error.CompileError.TheVariants.{Memory};
ghost use Rattle.kp_kore.specs.Syntax.{KoreSort, conjunction, disjunction};
ghost use Rattle.kp_kore.specs.View.{view, patterns_view};
ghost use Rattle.kp_symbolic.specs.Opening as model;
ghost use Rattle.kp_symbolic.specs.Faultless.{IsFaultless};
ghost use Rattle.kp_symbolic.specs.Languages.{language_view};
ghost use Rattle.kp_symbolic.specs.View.{replaced_view};
ghost use Rattle.kp_formulas.specs.Distribution.{distribution_of, distributions_of, all_distributed, one_distributed, agreement_of as both_agree};
ghost use Rattle.kp_formulas.specs.DistributionView.{distributed_view};
ghost use Rattle.kp_clauses.specs.OpenedPredicates.{opened_by};

use kp_compile::{CompileError, is_conjoined_pair, is_term};
use kp_formulas::distributed::{agreement_of, all_of, all_of_two, make_fixed, one_of, one_of_two};
use kp_formulas::{Distributed, distribute, open_leaf};
use kp_kore::Pattern;
use kp_symbolic::{Language, Replaced};
use std::alloc::{AllocError, Global};

/// What is kept of the clauses of a predicate, and of those of its opposite.
#[derive(Drop)]
pub struct Opened {
    pub yes: Distributed,
    pub no: Distributed,
}

/// Whether a predicate's literals stand in clauses of their own, and whether its opposite's do.
#[derive(Clone, Copy)]
pub struct Alone {
    pub yes: bool,
    pub no: bool,
}

/// The same of several predicates.
#[derive(Drop)]
struct Parts {
    yes: Vec<Distributed>,
    no: Vec<Distributed>,
}

/// What always holds, or never, and its opposite.
fn open_fixed(alloc: Global, holds: bool) -> Result<Opened, AllocError>
    ensures yes { IfOk result (λ o. distributed_view o.yes ≡ distribution_of (model.fixed holds)) }
    ensures no { IfOk result (λ o. distributed_view o.no ≡ distribution_of (model.fixed (not holds))) }
{
    Ok(Opened {
        yes: make_fixed(alloc, holds)?,
        no: make_fixed(alloc, !holds)?,
    })
}

/// What is kept of the clauses of a predicate without connectives, with a sign.
fn open_signed(
    alloc: Global,
    language: &Language,
    replaced: &[Replaced],
    alone: bool,
    sign: bool,
    pattern: &Pattern,
) -> Result<Distributed, CompileError>
    ensures opened { let g = language_view language.now in let replaced' = map replaced_view replaced.now in IfOk result (λ d. distributed_view d ≡ distribution_of (model.opened_leaf g replaced' alone sign (view pattern.now))) }
    ensures refused { IfErr result (λ e. IsFaultless (language_view language.now) (view pattern.now) → e ≡ Memory) }
{
    let formula = open_leaf(alloc, language, replaced, alone, sign, pattern)?;
    Ok(distribute(&formula, alloc)?)
}

/// A predicate without connectives, and its opposite.
fn open_both(
    alloc: Global,
    language: &Language,
    replaced: &[Replaced],
    alone: Alone,
    pattern: &Pattern,
) -> Result<Opened, CompileError>
    ensures yes { let g = language_view language.now in let replaced' = map replaced_view replaced.now in IfOk result (λ o. distributed_view o.yes ≡ distribution_of (model.opened_leaf g replaced' alone.yes true (view pattern.now))) }
    ensures no { let g = language_view language.now in let replaced' = map replaced_view replaced.now in IfOk result (λ o. distributed_view o.no ≡ distribution_of (model.opened_leaf g replaced' alone.no false (view pattern.now))) }
    ensures refused { IfErr result (λ e. IsFaultless (language_view language.now) (view pattern.now) → e ≡ Memory) }
{
    let yes = open_signed(alloc, language, replaced, alone.yes, true, pattern)?;
    let no = open_signed(alloc, language, replaced, alone.no, false, pattern)?;
    Ok(Opened { yes, no })
}

/// The same with the opposite sign.
fn turned(opened: Opened) -> Opened
    ensures yes { distributed_view result.yes ≡ distributed_view opened.no }
    ensures no { distributed_view result.no ≡ distributed_view opened.yes }
{
    let Opened { yes, no } = opened;
    Opened { yes: no, no: yes }
}

/// An implication and its opposite, of what is kept of both sides.
fn implication(alloc: Global, left: &Opened, right: &Opened) -> Result<Opened, AllocError>
    ensures yes { IfOk result (λ o. distributed_view o.yes ≡ one_distributed (distributed_view left.now.no ∷ distributed_view right.now.yes ∷ [])) }
    ensures no { IfOk result (λ o. distributed_view o.no ≡ all_distributed (distributed_view left.now.yes ∷ distributed_view right.now.no ∷ [])) }
{
    Ok(Opened {
        yes: one_of_two(alloc, &left.no, &right.yes)?,
        no: all_of_two(alloc, &left.yes, &right.no)?,
    })
}

/// Both hold or both fail, and the opposite, of what is kept of both.
fn agreement(alloc: Global, left: &Opened, right: &Opened) -> Result<Opened, AllocError>
    ensures yes { let agreed = both_agree (distributed_view left.now.yes) (distributed_view left.now.no) (distributed_view right.now.yes) (distributed_view right.now.no) in IfOk result (λ o. distributed_view o.yes ≡ agreed) }
    ensures no { let opposed = both_agree (distributed_view left.now.yes) (distributed_view left.now.no) (distributed_view right.now.no) (distributed_view right.now.yes) in IfOk result (λ o. distributed_view o.no ≡ opposed) }
{
    Ok(Opened {
        yes: agreement_of(alloc, &left.yes, &left.no, &right.yes, &right.no)?,
        no: agreement_of(alloc, &left.yes, &left.no, &right.no, &right.yes)?,
    })
}

/// A predicate and its opposite.
#[cycle(open)]
fn open_whole(
    pattern: &Pattern,
    alloc: Global,
    language: &Language,
    replaced: &[Replaced],
    alone: Alone,
) -> Result<Opened, CompileError>
    ensures yes { let g = language_view language.now in let replaced' = map replaced_view replaced.now in IfOk result (λ o. distributed_view o.yes ≡ distribution_of (opened_by g replaced' alone.yes true (view pattern.now))) }
    ensures no { let g = language_view language.now in let replaced' = map replaced_view replaced.now in IfOk result (λ o. distributed_view o.no ≡ distribution_of (opened_by g replaced' alone.no false (view pattern.now))) }
    ensures refused { IfErr result (λ e. IsFaultless (language_view language.now) (view pattern.now) → e ≡ Memory) }
{
    match pattern {
        Pattern::Top { .. } => Ok(open_fixed(alloc, true)?),
        Pattern::Bottom { .. } => Ok(open_fixed(alloc, false)?),
        Pattern::Not { pattern, .. } => { open_negation(pattern, alloc, language, replaced, alone) }
        Pattern::And { patterns, .. } => {
            open_conjunction(patterns, alloc, language, replaced, alone.yes)
        }
        Pattern::Or { patterns, .. } => {
            open_disjunction(patterns, alloc, language, replaced, alone.no)
        }
        Pattern::Implies { left, right, .. } => {
            let first = Alone {
                yes: alone.no,
                no: false,
            };
            let second = Alone {
                yes: false,
                no: alone.no,
            };
            let left = open_whole(left, alloc, language, replaced, first)?;
            let right = open_whole(right, alloc, language, replaced, second)?;
            Ok(implication(alloc, &left, &right)?)
        }
        Pattern::Iff { left, right, .. } => {
            let members = Alone {
                yes: false,
                no: false,
            };
            let left = open_whole(left, alloc, language, replaced, members)?;
            let right = open_whole(right, alloc, language, replaced, members)?;
            Ok(agreement(alloc, &left, &right)?)
        }
        Pattern::Ceil { pattern: inner, .. } => {
            if is_term(inner) || is_conjoined_pair(inner) {
                return open_both(alloc, language, replaced, alone, pattern);
            }
            open_whole(inner, alloc, language, replaced, alone)
        }
        Pattern::Floor { pattern: inner, .. } => {
            if is_term(inner) {
                return open_both(alloc, language, replaced, alone, pattern);
            }
            open_whole(inner, alloc, language, replaced, alone)
        }
        Pattern::Variable { .. }
        | Pattern::SetVariable { .. }
        | Pattern::Application { .. }
        | Pattern::StringLiteral { .. }
        | Pattern::Literal { .. }
        | Pattern::Next { .. }
        | Pattern::Rewrites { .. }
        | Pattern::Exists { .. }
        | Pattern::Forall { .. }
        | Pattern::Equals { .. }
        | Pattern::In { .. }
        | Pattern::Mu { .. }
        | Pattern::Nu { .. } => open_both(alloc, language, replaced, alone, pattern),
    }
}

/// A negation and its opposite, the predicate itself.
#[cycle(open)]
fn open_negation(
    pattern: &Pattern,
    alloc: Global,
    language: &Language,
    replaced: &[Replaced],
    alone: Alone,
) -> Result<Opened, CompileError>
    ensures yes { let g = language_view language.now in let replaced' = map replaced_view replaced.now in IfOk result (λ o. distributed_view o.yes ≡ distribution_of (opened_by g replaced' alone.yes false (view pattern.now))) }
    ensures no { let g = language_view language.now in let replaced' = map replaced_view replaced.now in IfOk result (λ o. distributed_view o.no ≡ distribution_of (opened_by g replaced' alone.no true (view pattern.now))) }
    ensures refused { IfErr result (λ e. IsFaultless (language_view language.now) (view pattern.now) → e ≡ Memory) }
{
    let alone = Alone {
        yes: alone.no,
        no: alone.yes,
    };
    Ok(turned(open_whole(pattern, alloc, language, replaced, alone)?))
}

/// A conjunction and its opposite.
#[cycle(open)]
fn open_conjunction(
    patterns: &[Pattern],
    alloc: Global,
    language: &Language,
    replaced: &[Replaced],
    alone: bool,
) -> Result<Opened, CompileError>
    ensures yes { let g = language_view language.now in (s : KoreSort) → IfOk result (λ o. distributed_view o.yes ≡ distribution_of (opened_by g (map replaced_view replaced.now) alone true (conjunction s (patterns_view patterns.now)))) }
    ensures no { let g = language_view language.now in (s : KoreSort) (a : Bool) → IfOk result (λ o. distributed_view o.no ≡ distribution_of (opened_by g (map replaced_view replaced.now) a false (conjunction s (patterns_view patterns.now)))) }
    ensures refused { IfErr result (λ e. AllByRecursion (λ p. IsFaultless (language_view language.now) (view p)) patterns.now → e ≡ Memory) }
{
    let members = Alone {
        yes: alone,
        no: false,
    };
    let parts = open_each(patterns, alloc, language, replaced, members)?;
    Ok(Opened {
        yes: all_of(alloc, &parts.yes)?,
        no: one_of(alloc, &parts.no)?,
    })
}

/// A disjunction and its opposite.
#[cycle(open)]
fn open_disjunction(
    patterns: &[Pattern],
    alloc: Global,
    language: &Language,
    replaced: &[Replaced],
    alone: bool,
) -> Result<Opened, CompileError>
    ensures yes { let g = language_view language.now in (s : KoreSort) (a : Bool) → IfOk result (λ o. distributed_view o.yes ≡ distribution_of (opened_by g (map replaced_view replaced.now) a true (disjunction s (patterns_view patterns.now)))) }
    ensures no { let g = language_view language.now in (s : KoreSort) → IfOk result (λ o. distributed_view o.no ≡ distribution_of (opened_by g (map replaced_view replaced.now) alone false (disjunction s (patterns_view patterns.now)))) }
    ensures refused { IfErr result (λ e. AllByRecursion (λ p. IsFaultless (language_view language.now) (view p)) patterns.now → e ≡ Memory) }
{
    let members = Alone {
        yes: false,
        no: alone,
    };
    let parts = open_each(patterns, alloc, language, replaced, members)?;
    Ok(Opened {
        yes: one_of(alloc, &parts.yes)?,
        no: all_of(alloc, &parts.no)?,
    })
}

/// The predicates and their opposites, one by one.
#[cycle(open)]
fn open_each(
    patterns: &[Pattern],
    alloc: Global,
    language: &Language,
    replaced: &[Replaced],
    alone: Alone,
) -> Result<Parts, CompileError>
    ensures yes { let g = language_view language.now in IfOk result (λ o. map distributed_view o.yes.items ≡ distributions_of (model.all_opened (model.opened_leaf g (map replaced_view replaced.now)) alone.yes true (patterns_view patterns.now))) }
    ensures no { let g = language_view language.now in IfOk result (λ o. map distributed_view o.no.items ≡ distributions_of (model.all_opened (model.opened_leaf g (map replaced_view replaced.now)) alone.no false (patterns_view patterns.now))) }
    ensures refused { IfErr result (λ e. AllByRecursion (λ p. IsFaultless (language_view language.now) (view p)) patterns.now → e ≡ Memory) }
{
    let mut holding = Vec::new(alloc);
    let mut failing = Vec::new(alloc);
    for pattern in patterns {
        let Opened { yes, no } = open_whole(pattern, alloc, language, replaced, alone)?;
        holding.push(yes)?;
        failing.push(no)?;
    }
    Ok(Parts {
        yes: holding,
        no: failing,
    })
}

/// What is kept of the clauses of a predicate, with terms in the place of variables. A predicate without verify faults is
/// refused for want of memory alone, another also where a literal in it can't be read.
pub fn open_predicate(
    alloc: Global,
    language: &Language,
    replaced: &[Replaced],
    pattern: &Pattern,
) -> Result<Distributed, CompileError>
    ensures opened { let g = language_view language.now in let replaced' = map replaced_view replaced.now in IfOk result (λ d. distributed_view d ≡ distribution_of (model.opened_predicate g replaced' true (view pattern.now))) }
    ensures refused { IfErr result (λ e. IsFaultless (language_view language.now) (view pattern.now) → e ≡ Memory) }
{
    match pattern {
        Pattern::Equals { .. } => open_signed(alloc, language, replaced, true, true, pattern),
        _ => {
            let alone = Alone {
                yes: true,
                no: false,
            };
            let Opened { yes, .. } = open_whole(pattern, alloc, language, replaced, alone)?;
            Ok(yes)
        }
    }
}
