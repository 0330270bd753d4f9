// A left side against a part, on its way.
ghost use Rattle.std.specs.Prelude.{◌≡◌, ◌∷◌, ◌++◌, [], IfOk, OnOk, length, map};
ghost use Rattle.kp_rules.specs.Skeletons.{skeleton_view};
ghost use Rattle.kp_symbolic.specs.Languages.{language_view};
ghost use Rattle.kp_symbolic.specs.View.{term_view, replaced_view};
ghost use Rattle.kp_case_laws.specs.Courses as model;
ghost use Rattle.kp_unify.specs.Forms.{form_view, members_view};
ghost use Rattle.kp_unify.specs.Replaced.{binding_put, equality_put, pair_put, pairs_of};
ghost use Rattle.kp_unify.specs.Views.{part_view, pair_view, equality_view, course_view};

use crate::left_parts::{LeftPart, Members};
use crate::part::Part;
use crate::refined::replacement;
use kp_compile::CompileError;
use kp_kore::Sort;
use kp_literals::equation::Equation;
use kp_rules::skeleton::Skeleton;
use kp_symbolic::{Language, Replaced, Term};
use std::alloc::{AllocError, Global};
use std::sync::Arc;

/// A part of a left side, and the term that it is to stand for.
#[derive(Drop)]
pub struct Pair<'a> {
    pub form: LeftPart<'a>,
    pub term: Term,
}

/// Two terms of a sort that are to be equal.
#[derive(Drop)]
pub struct Equality {
    pub sort: Arc<Sort>,
    pub left: Term,
    pub right: Term,
}

/// What is found, the pairs to come (the next is the last), and the parts that were split off.
#[derive(Drop)]
pub struct Course<'a> {
    pub part: Part,
    pub equalities: Vec<Equality>,
    pub bindings: Vec<Replaced>,
    pub pairs: Vec<Pair<'a>>,
    pub apart: Vec<Part>,
}

/// A form and a term.
fn make_pair<'a>(alloc: Global, form: LeftPart<'a>, term: &Term) -> Result<Pair<'a>, AllocError>
    ensures { IfOk result (λ q. pair_view q ≡ record { form = form_view form.entry; term = term_view term.now }) }
{
    Ok(Pair {
        form,
        term: term.share(alloc)?,
    })
}

/// The pair with which a left side begins.
fn first_pairs<'a>(
    alloc: Global,
    left: &'a Skeleton,
    term: &Term,
) -> Result<Vec<Pair<'a>>, AllocError>
    ensures { IfOk result (λ qs. map pair_view qs.items ≡ record { form = skeleton_view left.now; term = term_view term.now } ∷ []) }
{
    let mut pairs = Vec::new(alloc);
    pairs.push(make_pair(alloc, LeftPart::Skeleton { skeleton: left }, term)?)?;
    Ok(pairs)
}

/// A left side before its first pair.
pub fn begin<'a>(alloc: Global, left: &'a Skeleton, part: &Part) -> Result<Course<'a>, AllocError>
    ensures course { IfOk result (λ k. course_view k ≡ model.beginning (skeleton_view left.now) (part_view part.now)) }
    ensures apart { IfOk result (λ k. k.apart.items ≡ []) }
    ensures next { IfOk result (λ k. k.part.next ≡ part.now.next) }
{
    let pairs = first_pairs(alloc, left, &part.state.term)?;
    Ok(Course {
        part: part.share(alloc)?,
        equalities: Vec::new(alloc),
        bindings: Vec::new(alloc),
        pairs,
        apart: Vec::new(alloc),
    })
}

/// Adds each form with its term, the first as the last.
pub fn add_members<'a>(
    pairs: &mut Vec<Pair<'a>>,
    alloc: Global,
    members: Members<'a>,
    terms: &[Term],
) -> Result<(), AllocError>
    requires { length terms.now ≡ length (members_view members) }
    ensures { OnOk result (map pair_view pairs.new.items ≡ map pair_view pairs.old.items ++ pairs_of (members_view members.entry) (map term_view terms.now)) }
{
    let mut left = terms.len();
    while left > 0 {
        left -= 1;
        pairs.push(make_pair(alloc, members.at(left), &terms[left])?)?;
    }
    Ok(())
}

/// The binding with terms in the place of variables.
fn replaced_binding(
    alloc: Global,
    language: &Language,
    by: &[Replaced],
    binding: &Replaced,
) -> Result<Replaced, CompileError>
    ensures { IfOk result (λ b. replaced_view b ≡ binding_put (language_view language.now) (map replaced_view by.now) (replaced_view binding.now)) }
{
    Ok(Replaced {
        name: binding.name.clone()?,
        term: binding.term.replaced(alloc, language, by)?,
    })
}

/// The bindings with terms in the place of variables.
fn replaced_bindings(
    alloc: Global,
    language: &Language,
    by: &[Replaced],
    bindings: &[Replaced],
) -> Result<Vec<Replaced>, CompileError>
    ensures { IfOk result (λ bs. map replaced_view bs.items ≡ map (binding_put (language_view language.now) (map replaced_view by.now)) (map replaced_view bindings.now)) }
{
    let mut found = Vec::new(alloc);
    for binding in bindings {
        found.push(replaced_binding(alloc, language, by, binding)?)?;
    }
    Ok(found)
}

/// The equality with terms in the place of variables.
fn replaced_equality(
    alloc: Global,
    language: &Language,
    by: &[Replaced],
    equality: &Equality,
) -> Result<Equality, CompileError>
    ensures { IfOk result (λ e. equality_view e ≡ equality_put (language_view language.now) (map replaced_view by.now) (equality_view equality.now)) }
{
    Ok(Equality {
        sort: equality.sort.clone()?,
        left: equality.left.replaced(alloc, language, by)?,
        right: equality.right.replaced(alloc, language, by)?,
    })
}

/// The equalities with terms in the place of variables.
fn replaced_equalities(
    alloc: Global,
    language: &Language,
    by: &[Replaced],
    equalities: &[Equality],
) -> Result<Vec<Equality>, CompileError>
    ensures { IfOk result (λ es. map equality_view es.items ≡ map (equality_put (language_view language.now) (map replaced_view by.now)) (map equality_view equalities.now)) }
{
    let mut found = Vec::new(alloc);
    for equality in equalities {
        found.push(replaced_equality(alloc, language, by, equality)?)?;
    }
    Ok(found)
}

/// The pair with terms in the place of variables.
fn replaced_pair<'a>(
    alloc: Global,
    language: &Language,
    by: &[Replaced],
    pair: &Pair<'a>,
) -> Result<Pair<'a>, CompileError>
    ensures { IfOk result (λ q. pair_view q ≡ pair_put (language_view language.now) (map replaced_view by.now) (pair_view pair.now)) }
{
    Ok(Pair {
        form: pair.form,
        term: pair.term.replaced(alloc, language, by)?,
    })
}

/// The pairs with terms in the place of variables.
fn replaced_pairs<'a>(
    alloc: Global,
    language: &Language,
    by: &[Replaced],
    pairs: &[Pair<'a>],
) -> Result<Vec<Pair<'a>>, CompileError>
    ensures { IfOk result (λ qs. map pair_view qs.items ≡ map (pair_put (language_view language.now) (map replaced_view by.now)) (map pair_view pairs.now)) }
{
    let mut found = Vec::new(alloc);
    for pair in pairs {
        found.push(replaced_pair(alloc, language, by, pair)?)?;
    }
    Ok(found)
}

impl<'a> Course<'a> {
    ghost use Rattle.std.specs.Prelude.{◌≡◌, OnOk};
    ghost use Rattle.kp_symbolic.specs.Languages.{language_view};
    ghost use Rattle.kp_literals.specs.Equations.{equation_view};
    ghost use Rattle.kp_unify.specs.Promises.{IsReplacedBy};

    /// A term in the variable's place in all that was found and is to come.
    pub fn replace(
        &mut self,
        alloc: Global,
        language: &Language,
        equation: &Equation<'_>,
    ) -> Result<(), CompileError>
        ensures course { OnOk result (IsReplacedBy (language_view language.now) (equation_view equation.now) self.old self.new) }
        ensures apart { OnOk result (self.new.apart ≡ self.old.apart) }
        ensures next { OnOk result (self.new.part.next ≡ self.old.part.next) }
    {
        let by = replacement(alloc, equation)?;
        self.bindings = replaced_bindings(alloc, language, &by, &self.bindings)?;
        self.equalities = replaced_equalities(alloc, language, &by, &self.equalities)?;
        self.pairs = replaced_pairs(alloc, language, &by, &self.pairs)?;
        Ok(())
    }
}
