// One narrowing of a variable: the course goes on in the part with it, and the part without it is split off.
ghost use Rattle.std.specs.Prelude.{◌≡◌, false, IfOk, map, string_bytes};
ghost use Rattle.kp_kore.specs.Signature.{construction, meaning_of as named};
ghost use Rattle.kp_kore.specs.View.{sort_view};
ghost use Rattle.kp_kore.specs.Value.{constructed, no_values};
ghost use Rattle.kp_signature.specs.View.{signature_view};
ghost use Rattle.kp_symbolic.specs.States.{one_head, head_of_sort};
ghost use Rattle.kp_symbolic.specs.Terms.{unknown, known};
ghost use Rattle.kp_symbolic.specs.Languages.{language_view};
ghost use Rattle.kp_symbolic.specs.View.{variable_view, term_view, clauses_view};
ghost use Rattle.kp_literals.specs.Equations.{equation_view};
ghost use Rattle.kp_case_laws.specs.Parts.{with_clauses};
ghost use Rattle.kp_case_laws.specs.Narrowings as model;
ghost use Rattle.kp_unify.specs.Narrowed.{equation_of, another};
ghost use Rattle.kp_unify.specs.Views.{part_view};
ghost use Rattle.kp_unify.specs.Promises.{IsPartWith, TellsOtherHead, BuildsOfNew};

use crate::course::Course;
use crate::head_clauses::{inside, outside};
use crate::literals::{
    are_never, constructor_test, head_clauses, make_unknown, sort_test, variable_is,
};
use crate::new_names::{New, alone, new_variable, new_variables};
use crate::part::{Part, Setting};
use crate::refined::{behind, kept_with, put_term};
use kp_compile::CompileError;
use kp_formulas::equality_sides::places_of;
use kp_kore::Sort;
use kp_literals::equation::Equation;
use kp_signature::Signature;
use kp_symbolic::state::share_variables;
use kp_symbolic::{Clause, Language, State, Term, Variable, apply};
use std::alloc::{AllocError, Global};
use std::sync::Arc;

/// The part in which these clauses are true, too.
fn constrained(alloc: Global, part: &Part, clauses: &[Clause]) -> Result<Part, AllocError>
    ensures view { IfOk result (λ p. part_view p ≡ with_clauses (part_view part.now) (clauses_view clauses.now)) }
    ensures next { IfOk result (λ p. p.next ≡ part.now.next) }
{
    let state = State {
        term: part.state.term.share(alloc)?,
        sort: part.state.sort.clone()?,
        clauses: kept_with(alloc, &part.state.clauses, clauses)?,
        variables: share_variables(alloc, &part.state.variables)?,
    };
    Ok(Part {
        state,
        added: behind(alloc, &part.added, clauses)?,
        next: part.next,
    })
}

/// An equation of a variable and a term.
fn make_equation<'a>(variable: &'a Variable, term: &'a Term) -> Equation<'a>
    ensures { equation_view result ≡ equation_of (variable_view variable.now) (term_view term.now) }
{
    Equation { variable, term }
}

/// The part in which the variable is the term of new variables. Refused where a sum can't be written, or for want of memory.
fn refined(
    alloc: Global,
    language: &Language,
    part: &Part,
    variable: &Arc<Variable>,
    term: &Term,
    new: &New,
) -> Result<Part, CompileError>
    ensures view { IfOk result (IsPartWith (language_view language.now) part.now (variable_view variable.now.value) (term_view term.now) new.now) }
    ensures next { IfOk result (λ p. p.next ≡ new.now.next) }
{
    let is = variable_is(alloc, true, variable, term)?;
    let equation = make_equation(variable, term);
    let state = put_term(alloc, language, &part.state, &equation, &is, &new.variables)?;
    Ok(Part {
        state,
        added: behind(alloc, &part.added, &is)?,
        next: new.next,
    })
}

/// Variables as terms.
fn as_terms(alloc: Global, variables: &[Arc<Variable>]) -> Result<Vec<Term>, AllocError>
    ensures { IfOk result (λ ts. map term_view ts.items ≡ map (λ x. unknown (variable_view x.value)) variables.now) }
{
    let mut terms = Vec::new(alloc);
    for variable in variables {
        terms.push(make_unknown(variable)?)?;
    }
    Ok(terms)
}

/// A constructor without arguments as a term.
fn constant(alloc: Global, language: &Language, symbol: &Arc<String>) -> Result<Term, AllocError>
    ensures { let c = string_bytes symbol.now.value in named (language_view language.now) c ≡ construction → IfOk result (λ t. term_view t ≡ known (constructed c no_values)) }
{
    let arguments = Arc::new(alloc, Vec::new(alloc))?;
    apply(alloc, language, symbol.clone()?, arguments)
}

/// The clauses that the variable's head isn't the constructor.
fn without_head(
    alloc: Global,
    signature: &Signature,
    variable: &Arc<Variable>,
    symbol: &Arc<String>,
) -> Result<Vec<Clause>, AllocError>
    ensures { let g = signature_view signature.now in let x = variable_view variable.now.value in
        IfOk result (λ cs. clauses_view cs.items ≡ model.head_clauses g false x (one_head (string_bytes symbol.now.value))) }
{
    let test = constructor_test(symbol)?;
    head_clauses(alloc, signature, false, variable, &test)
}

/// The clauses that the variable's head is none of the sort's.
fn without_sort(
    alloc: Global,
    signature: &Signature,
    variable: &Arc<Variable>,
    sort: &Sort,
) -> Result<Vec<Clause>, AllocError>
    ensures { let g = signature_view signature.now in let x = variable_view variable.now.value in
        IfOk result (λ cs. clauses_view cs.items ≡ model.head_clauses g false x (head_of_sort (sort_view sort.now))) }
{
    let test = sort_test(alloc, sort)?;
    head_clauses(alloc, signature, false, variable, &test)
}

/// The clause that the variable isn't the constructor's only value.
fn another_value(
    alloc: Global,
    language: &Language,
    variable: &Arc<Variable>,
    symbol: &Arc<String>,
) -> Result<Vec<Clause>, AllocError>
    ensures { let c = string_bytes symbol.now.value in named (language_view language.now) c ≡ construction → IfOk result (λ cs. clauses_view cs.items ≡ another (variable_view variable.now.value) c) }
{
    let term = constant(alloc, language, symbol)?;
    variable_is(alloc, false, variable, &term)
}

/// The clauses that the variable has another head; of a constructor without arguments, that it is another value.
fn other_head(
    alloc: Global,
    language: &Language,
    variable: &Arc<Variable>,
    symbol: &Arc<String>,
    arguments: usize,
) -> Result<Vec<Clause>, AllocError>
    ensures { TellsOtherHead (language_view language.now) (variable_view variable.now.value) (string_bytes symbol.now.value) arguments result }
{
    let clauses = without_head(alloc, language.signature, variable, symbol)?;
    if arguments > 0 {
        return Ok(clauses);
    }
    if are_never(&clauses) {
        return Ok(clauses);
    }
    another_value(alloc, language, variable, symbol)
}

/// The constructor of these variables.
fn constructor_of(
    alloc: Global,
    language: &Language,
    symbol: &Arc<String>,
    terms: &[Term],
) -> Result<Term, AllocError>
    ensures { BuildsOfNew (language_view language.now) (string_bytes symbol.now.value) terms.now result }
{
    let arguments = Arc::new(alloc, Term::share_all(alloc, terms)?)?;
    apply(alloc, language, symbol.clone()?, arguments)
}

impl<'a> Course<'a> {
    ghost use Rattle.std.specs.Prelude.{◌≡◌, OnOk, string_bytes};
    ghost use Rattle.kp_kore.specs.Signature.{construction, meaning_of as named};
    ghost use Rattle.kp_kore.specs.View.{sort_view};
    ghost use Rattle.kp_symbolic.specs.Languages.{language_view};
    ghost use Rattle.kp_symbolic.specs.View.{variable_view, term_view, clauses_view};
    ghost use Rattle.kp_unify.specs.Way.{IsAsked};
    ghost use Rattle.kp_unify.specs.Views.{course_view, stage_view, signature_of};
    ghost use Rattle.kp_unify.specs.Promises.{IsCourseWith, IsSplitBy, NarrowsToSort, NarrowsToConstructor};

    /// Splits off the part in which these clauses are true; none, where they never are.
    fn split_off(&mut self, alloc: Global, clauses: &[Clause]) -> Result<(), AllocError>
        ensures course { OnOk result (course_view self.new ≡ course_view self.old) }
        ensures next { OnOk result (self.new.part.next ≡ self.old.part.next) }
        ensures apart { OnOk result (IsSplitBy self.old (clauses_view clauses.now) self.new) }
    {
        if are_never(clauses) {
            return Ok(());
        }
        let part = constrained(alloc, &self.part, clauses)?;
        self.apart.push(part)?;
        Ok(())
    }

    /// Goes on where the variable is the term of new variables.
    fn narrow(
        &mut self,
        alloc: Global,
        language: &Language,
        variable: &Arc<Variable>,
        term: &Term,
        new: &New,
    ) -> Result<(), CompileError>
        ensures course { OnOk result (IsCourseWith (language_view language.now) self.old (variable_view variable.now.value) (term_view term.now) new.now self.new) }
        ensures next { OnOk result (self.new.part.next ≡ new.now.next) }
        ensures apart { OnOk result (self.new.apart ≡ self.old.apart) }
    {
        self.part = refined(alloc, language, &self.part, variable, term, new)?;
        let equation = make_equation(variable, term);
        self.replace(alloc, language, &equation)
    }

    /// Narrows the variable to a new one of the sort, which lies below its own: the new one as a term.
    pub fn narrow_to_sort(
        &mut self,
        alloc: Global,
        setting: &Setting<'_>,
        variable: &Arc<Variable>,
        sort: &Sort,
    ) -> Result<Term, CompileError>
        ensures { NarrowsToSort setting.now self.old (variable_view variable.now.value) (sort_view sort.now) result self.new }
    {
        let others = without_sort(alloc, setting.language.signature, variable, sort)?;
        self.split_off(alloc, &others)?;
        let new = new_variable(alloc, setting.met, self.part.next, sort)?;
        let term = make_unknown(&new.variable)?;
        let alone = alone(alloc, &new)?;
        self.narrow(alloc, setting.language, variable, &term, &alone)?;
        Ok(term)
    }

    /// Narrows the variable to the constructor of new variables, which are the result.
    pub fn narrow_to_constructor(
        &mut self,
        alloc: Global,
        setting: &Setting<'_>,
        variable: &Arc<Variable>,
        symbol: &Arc<String>,
    ) -> Result<Vec<Term>, CompileError>
        requires { named (language_view setting.now.language.now) (string_bytes symbol.now.value) ≡ construction }
        ensures { NarrowsToConstructor setting.now self.old (variable_view variable.now.value) (string_bytes symbol.now.value) result self.new }
    {
        let language = setting.language;
        let sorts = places_of(language.signature, symbol);
        let others = other_head(alloc, language, variable, symbol, sorts.len())?;
        self.split_off(alloc, &others)?;
        let new = new_variables(alloc, setting.met, self.part.next, sorts)?;
        let terms = as_terms(alloc, &new.variables)?;
        let term = constructor_of(alloc, language, symbol, &terms)?;
        self.narrow(alloc, language, variable, &term, &new)?;
        Ok(terms)
    }

    /// Goes on where the variable's head is one of the sort's, and splits off the part in which it isn't.
    pub fn ask_head(
        &mut self,
        alloc: Global,
        setting: &Setting<'_>,
        variable: &Arc<Variable>,
        sort: &Sort,
    ) -> Result<(), CompileError>
        ensures { OnOk result (IsAsked (signature_of setting.now) (variable_view variable.now.value) (sort_view sort.now) (stage_view self.old) (stage_view self.new)) }
    {
        let signature = setting.language.signature;
        let others = outside(alloc, signature, variable, sort)?;
        self.split_off(alloc, &others)?;
        let passed = inside(alloc, signature, variable, sort)?;
        self.part = constrained(alloc, &self.part, &passed)?;
        Ok(())
    }
}
