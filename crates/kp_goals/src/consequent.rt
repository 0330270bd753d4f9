// The consequent of an implication, read.
ghost use Rattle.std.specs.Prelude.{◌≡◌, [], ◌∷◌, Some, IfErr, IfOk};
ghost use Rattle.kp_compile.specs.declared.error.CompileError.TheVariants.{Memory};
ghost use Rattle.kp_kore.specs.Syntax.{KorePattern};
ghost use Rattle.kp_kore.specs.Rules.{constrained_term, top_binders, under_binders as what_is_bound};
ghost use Rattle.kp_kore.specs.View.{view};
ghost use Rattle.kp_symbolic.specs.Faultless.{IsFaultless};
ghost use Rattle.kp_rules.specs.Shapes.{seen, side_view, variables_seen};
ghost use Rattle.kp_symbolic.specs.Languages.{language_view};
ghost use Rattle.kp_symbolic.specs.View.{variable_view, variables_view};
ghost use Rattle.kp_goals.specs.Consequents.{IsConsequent};
ghost use Rattle.kp_goals.specs.View.{consequent_view, consequent_with};

use kp_compile::CompileError;
use kp_kore::Pattern;
use kp_rules::shape::{Binder, RuleSide, constrained_side, under_binders};
use kp_symbolic::fold::term_under;
use kp_symbolic::{Language, Term, Variable};
use std::alloc::{AllocError, Global};
use std::sync::Arc;

/// The consequent of an implication: its term, the predicates beside it, and the variables that it binds.
#[derive(Drop)]
pub struct Consequent<'a> {
    pub term: Term,
    pub predicates: Vec<&'a Pattern>,
    pub bound: Vec<Arc<Variable>>,
}

/// A variable that a binder binds.
fn bound_variable(alloc: Global, binder: &Binder<'_>) -> Result<Arc<Variable>, AllocError>
    ensures { IfOk result (λ x. variables_seen (binder.now ∷ []) ≡ variable_view x.value ∷ []) }
{
    let name = binder.name.clone()?;
    let sort = binder.sort.copy(alloc)?;
    Ok(Arc::new(alloc, Variable { name, sort })?)
}

/// The variables that these binders bind.
fn bound_variables(alloc: Global, binders: &[Binder<'_>]) -> Result<Vec<Arc<Variable>>, AllocError>
    ensures { IfOk result (λ xs. variables_view xs.items ≡ variables_seen binders.now) }
{
    let mut found = Vec::new(alloc);
    for binder in binders {
        found.push(bound_variable(alloc, binder)?)?;
    }
    Ok(found)
}

/// The same predicates.
fn same_predicates<'a>(
    alloc: Global,
    predicates: &[&'a Pattern],
) -> Result<Vec<&'a Pattern>, AllocError>
    ensures { IfOk result (λ ps. seen ps.items ≡ seen predicates.now) }
{
    let mut found = Vec::new(alloc);
    for predicate in predicates {
        found.push(*predicate)?;
    }
    Ok(found)
}

/// The consequent of this side, with these variables bound.
fn read<'a>(
    alloc: Global,
    language: &Language,
    side: &RuleSide<'a>,
    bound: Vec<Arc<Variable>>,
) -> Result<Consequent<'a>, CompileError>
    ensures read { IfOk result (λ k. consequent_view k ≡ consequent_with (language_view language.now) (side_view side.now) (variables_view bound.items)) }
    ensures refused { IfErr result (λ e. IsFaultless (language_view language.now) (side_view side.now).0 → e ≡ Memory) }
{
    let term = term_under(side.term, alloc, language, &[])?;
    let predicates = same_predicates(alloc, &side.predicates)?;
    Ok(Consequent {
        term,
        predicates,
        bound,
    })
}

/// The consequent that is a conjunction of one term and predicates under its binders.
///
/// # Errors
/// Where memory runs out; a Shape of any other pattern, or of one with a verify fault.
pub fn consequent_of<'a>(
    alloc: Global,
    language: &Language,
    pattern: &'a Pattern,
) -> Result<Consequent<'a>, CompileError>
    ensures read { IfOk result (λ k. IsConsequent (language_view language.now) (view pattern.now) (consequent_view k)) }
    ensures refused { IfErr result (λ e. (t : KorePattern) → constrained_term (what_is_bound (view pattern.now)) ≡ Some t → IsFaultless (language_view language.now) t → e ≡ Memory) }
{
    let under = under_binders(alloc, pattern)?;
    let bound = bound_variables(alloc, &under.variables)?;
    match constrained_side(alloc, under.pattern)? {
        Some(side) => read(alloc, language, &side, bound),
        None => Err(CompileError::Shape),
    }
}
