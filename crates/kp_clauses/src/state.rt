// A pattern read as a symbolic state, before its equations are solved.
ghost use Rattle.std.specs.Prelude.{◌≡◌, not, false, Option, Some, None, IfOk, IfErr, OnOk, map};
ghost use Rattle.std.specs.List.{AllByRecursion, filter, find};
ghost use Rattle.std.specs.Option.{option_map};
ghost use Rattle.kp_kore.specs.Parts.{is_term as term_test, free_variables};
ghost use Rattle.kp_kore.specs.Syntax.{KorePattern};
ghost use Rattle.kp_kore.specs.View.{view, sort_view, sorted_variable_view};
ghost use Rattle.kp_signature.specs.Verify.{VerifiesAs};
ghost use Rattle.kp_signature.specs.View.{signature_view};
ghost use Rattle.kp_symbolic.specs.Solving.{opened_state};
ghost use Rattle.kp_symbolic.specs.States.{HasInstancesOf};
ghost use Rattle.kp_symbolic.specs.Faultless.{IsFaultless};
ghost use Rattle.kp_symbolic.specs.Languages.{language_view};
ghost use Rattle.kp_symbolic.specs.View.{state_view, variable_view, variables_view};
ghost use Rattle.kp_compile.specs.Parts.{seen};
ghost use Rattle.kp_compile.specs.declared.error.CompileError.TheVariants.{Memory};
ghost use Rattle.kp_clauses.specs.Faults as model;
ghost use Rattle.kp_clauses.specs.Opened.{opened_of};
ghost use Rattle.kp_clauses.specs.View.{IsToldOf, IsUnread, misplaced_view};

use crate::conjunct::clauses_of_all;
use crate::fault::{Misplaced, members_fault};
use kp_compile::{CompileError, conjuncts, is_term};
use kp_kore::{Name, Pattern, Sort, SortedVariable};
use kp_signature::Signature;
use kp_symbolic::{Language, State, Variable, term_under};
use std::alloc::{AllocError, Global};
use std::sync::Arc;

/// Why a pattern isn't read as a state. `IsToldOf` in specs/View.antt says what is told.
#[derive(Drop)]
pub enum TermFault {
    Memory,
    /// A literal in it can't be read: the pattern has a verify fault.
    Unread,
    /// T1: a foreign symbol or an alias, by its name.
    ForeignSymbol { name: Name },
    /// T2: not one term and predicates.
    OtherShape,
}

impl From<AllocError> for TermFault {
    ghost use Rattle.std.specs.Prelude.{◌≡◌};
    ghost use Rattle.kp_clauses.specs.declared.state.TermFault.TheVariants as error;

    ghost from_gives = { λ _ e. e ≡ error.Memory };

    fn from(_error: AllocError) -> Self {
        TermFault::Memory
    }
}

/// What is told of a fault.
fn told(fault: Misplaced<'_>) -> TermFault
    ensures told { IsToldOf (Some (misplaced_view fault.entry)) result }
    ensures read { ¬ IsUnread result }
{
    match fault {
        Misplaced::OtherShape => TermFault::OtherShape,
        Misplaced::ForeignSymbol { name } => match name.clone() {
            Ok(name) => TermFault::ForeignSymbol { name },
            Err(_) => TermFault::Memory,
        },
    }
}

/// What is told where the parts of a state aren't opened: nothing of its shape.
fn refused(error: CompileError) -> TermFault
    ensures told { (first : Option model.StateFault) → IsToldOf first result }
    ensures read { error ≡ Memory → ¬ IsUnread result }
{
    match error {
        CompileError::Memory => TermFault::Memory,
        CompileError::Shape => TermFault::Unread,
    }
}

/// Refused where something can't stand in a state with these members.
fn check_members(
    alloc: Global,
    signature: &Signature,
    members: &[&Pattern],
) -> Result<(), TermFault>
    ensures clear { OnOk result (model.members_fault (signature_view signature.now) false (seen members.now) ≡ None) }
    ensures refused { IfErr result (IsToldOf (model.members_fault (signature_view signature.now) false (seen members.now))) }
    ensures read { IfErr result (λ e. ¬ IsUnread e) }
{
    match members_fault(alloc, signature, members)? {
        Some(fault) => Err(told(fault)),
        None => Ok(()),
    }
}

/// The first term among the members.
fn first_term<'a>(members: &[&'a Pattern]) -> Option<&'a Pattern>
    ensures { option_map (λ p. view p.now) result ≡ find term_test (seen members.now) }
{
    for i in 0..members.len() {
        if is_term(members[i]) {
            return Some(members[i]);
        }
    }
    None
}

/// The members that are no terms.
fn predicates_among<'a>(
    alloc: Global,
    members: &[&'a Pattern],
) -> Result<Vec<&'a Pattern>, AllocError>
    ensures { IfOk result (λ ps. seen ps.items ≡ filter (λ p. not (term_test p)) (seen members.now)) }
{
    let mut found = Vec::new(alloc);
    for member in members {
        if !is_term(member) {
            found.push(*member)?;
        }
    }
    Ok(found)
}

/// A variable that is shared.
fn shared(alloc: Global, variable: SortedVariable) -> Result<Arc<Variable>, AllocError>
    ensures { IfOk result (λ x. variable_view x.value ≡ sorted_variable_view variable) }
{
    let SortedVariable { name, sort } = variable;
    Ok(Arc::new(alloc, Variable { name, sort })?)
}

/// The variables, each shared.
fn share_each(
    alloc: Global,
    variables: Vec<SortedVariable>,
) -> Result<Vec<Arc<Variable>>, AllocError>
    ensures { IfOk result (λ xs. variables_view xs.items ≡ map sorted_variable_view variables.items) }
{
    let mut found = Vec::new(alloc);
    for variable in variables {
        found.push(shared(alloc, variable)?)?;
    }
    Ok(found)
}

/// The free variables, one for each place where one stands.
fn variables_of(alloc: Global, pattern: &Pattern) -> Result<Vec<Arc<Variable>>, AllocError>
    ensures { IfOk result (λ xs. variables_view xs.items ≡ free_variables (view pattern.now)) }
{
    let variables = pattern.free_vars(alloc)?;
    share_each(alloc, variables)
}

/// The state of a pattern's term and its predicates, at this sort.
fn open_term(
    alloc: Global,
    language: &Language,
    pattern: &Pattern,
    sort: Sort,
    term: &Pattern,
    predicates: &[&Pattern],
) -> Result<State, CompileError>
    ensures opened { IfOk result (λ s. state_view s ≡ opened_of (language_view language.now) (view pattern.now) (sort_view sort) (view term.now) (seen predicates.now)) }
    ensures refused { let g = language_view language.now in IfErr result (λ e. IsFaultless g (view term.now) → AllByRecursion (IsFaultless g) (seen predicates.now) → e ≡ Memory) }
{
    let sort = Arc::new(alloc, sort)?;
    let variables = variables_of(alloc, pattern)?;
    let clauses = clauses_of_all(alloc, language, &[], predicates)?;
    let term = term_under(term, alloc, language, &[])?;
    Ok(State {
        term,
        sort,
        clauses,
        variables,
    })
}

/// The state of a pattern with these members: of its first term and of those that are none.
fn open_members(
    alloc: Global,
    language: &Language,
    pattern: &Pattern,
    sort: Sort,
    members: &[&Pattern],
) -> Result<State, CompileError>
    ensures opened { let predicates = filter (λ p. not (term_test p)) (seen members.now) in IfOk result (λ s. (t : KorePattern) → find term_test (seen members.now) ≡ Some t → state_view s ≡ opened_of (language_view language.now) (view pattern.now) (sort_view sort) t predicates) }
    ensures refused { let members' = seen members.now in IfErr result (λ e. (t : KorePattern) → find term_test members' ≡ Some t → AllByRecursion (IsFaultless (language_view language.now)) members' → e ≡ Memory) }
{
    let predicates = predicates_among(alloc, members)?;
    match first_term(members) {
        Some(term) => open_term(alloc, language, pattern, sort, term, &predicates),
        None => Err(CompileError::Shape),
    }
}

/// The state that a verified pattern of this sort is opened as, its equations unsolved: it has the pattern's instances. T1 or
/// T2 where something can't stand in it, of the first such thing from the left; `Unread` of a pattern with a verify fault alone.
pub fn open_state(
    alloc: Global,
    language: &Language,
    pattern: &Pattern,
    sort: Sort,
) -> Result<State, TermFault>
    ensures state { let g = language_view language.now in let pattern' = view pattern.now in VerifiesAs g pattern' (sort_view sort) → IfOk result (λ s. opened_state g pattern' ≡ Some (state_view s)) }
    ensures instances { let g = language_view language.now in let pattern' = view pattern.now in VerifiesAs g pattern' (sort_view sort) → IfOk result (λ s. HasInstancesOf g pattern' (state_view s)) }
    ensures clear { OnOk result (model.state_fault (language_view language.now) (view pattern.now) ≡ None) }
    ensures refused { IfErr result (IsToldOf (model.state_fault (language_view language.now) (view pattern.now))) }
    ensures unread { IfErr result (λ e. IsUnread e → ¬ IsFaultless (language_view language.now) (view pattern.now)) }
{
    let members = conjuncts(alloc, pattern)?;
    check_members(alloc, language.signature, &members)?;
    match open_members(alloc, language, pattern, sort, &members) {
        Ok(state) => Ok(state),
        Err(error) => Err(refused(error)),
    }
}
