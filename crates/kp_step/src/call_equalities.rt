// What follows of two equalities with the same call on a side, whatever the call stands for: that their other sides are equal.
ghost use Rattle.std.specs.Prelude.{◌≡◌, ◌∷◌, [], IfOk, IfSome};
ghost use Rattle.kp_kore.specs.View.{sort_view};
ghost use Rattle.kp_signature.specs.View.{signature_view};
ghost use Rattle.kp_symbolic.specs.View.{term_view, literal_view, clause_view, clauses_view, state_view};
ghost use Rattle.kp_solving.specs.Further.{constrained};
ghost use Rattle.kp_satisfiability.specs.Read.{HasSortedClauses};
ghost use Rattle.kp_unify.specs.Views.{signature_of, HasItsTable};
ghost use Rattle.kp_step.specs.Answers.{IsRightAnswerOf};
ghost use Rattle.kp_step.specs.Implied.{equality_alone, equal_sides_view, SaysEqual, IsSaidEqual, FollowFrom, FollowIfSaid, FollowIfAmong, CanBeAsWell, TellsNever, TellsOfUndecided};

use crate::kept_parts::is_empty;
use crate::part_answers::{PartAnswer, UndecidedClauses, answer_of};
use kp_kore::Sort;
use kp_signature::Signature;
use kp_solving::constrain;
use kp_symbolic::{Atom, Clause, Literal, State, Term};
use kp_unify::Setting;
use kp_unify::literals::equal_clauses;
use std::alloc::{AllocError, Global};

/// So often what follows is added to a state.
const MOST_ROUNDS: usize = 4;

/// What follows of more clauses isn't looked for.
const MOST_CLAUSES: usize = 128;

/// An equality of two terms of a sort. `equal_sides_view` in specs/Implied.antt says which one it is.
#[derive(Clone, Copy)]
struct EqualSides<'a> {
    sort: &'a Sort,
    left: &'a Term,
    right: &'a Term,
}

/// The equality that a literal tells.
fn told_by(literal: &Literal) -> Option<EqualSides<'_>>
    ensures { IfSome result (λ e. literal_view literal.now ∷ [] ≡ equality_alone (equal_sides_view e)) }
{
    if !literal.holds {
        return None;
    }
    match &literal.atom {
        Atom::Same { sort, left, right } => Some(EqualSides { sort, left, right }),
        Atom::Head { .. } | Atom::Quoted { .. } => None,
    }
}

/// The equality that is a clause's only literal.
fn equal_sides(clause: &Clause) -> Option<EqualSides<'_>>
    ensures { IfSome result (λ e. clause_view clause.now ≡ equality_alone (equal_sides_view e)) }
{
    if clause.literals.len() != 1 {
        return None;
    }
    told_by(&clause.literals[0])
}

/// The other side of an equality, where this term is a side of it.
fn other_side<'a>(sides: EqualSides<'a>, term: &Term) -> Option<&'a Term>
    ensures { let e = equal_sides_view sides.entry in IfSome result (λ u. SaysEqual e.sort (term_view term.now) (term_view u.now) (equality_alone e)) }
{
    if sides.left.same(term) {
        return Some(sides.right);
    }
    if sides.right.same(term) {
        return Some(sides.left);
    }
    None
}

/// What the clause says that the term is equal to, at the sort.
fn equal_to<'a>(sort: &Sort, term: &Term, clause: &'a Clause) -> Option<&'a Term>
    ensures { IfSome result (λ u. SaysEqual (sort_view sort.now) (term_view term.now) (term_view u.now) (clause_view clause.now)) }
{
    match equal_sides(clause) {
        Some(sides) => {
            if sort.equal(sides.sort) {
                return other_side(sides, term);
            }
            None
        }
        None => None,
    }
}

/// The same, but for a call or a constructor's term where none is asked for.
fn equal_if<'a>(sort: &Sort, term: &Term, clause: &'a Clause, calls: bool) -> Option<&'a Term>
    ensures { IfSome result (λ u. SaysEqual (sort_view sort.now) (term_view term.now) (term_view u.now) (clause_view clause.now)) }
{
    match equal_to(sort, term, clause) {
        Some(other) => {
            if !calls && matches!(other, Term::Headed { .. }) {
                return None;
            }
            Some(other)
        }
        None => None,
    }
}

/// The first that one of the clauses says so.
fn first_equal<'a>(sort: &Sort, term: &Term, clauses: &'a [Clause], calls: bool) -> Option<&'a Term>
    ensures { IfSome result (λ u. IsSaidEqual (clauses_view clauses.now) (sort_view sort.now) (term_view term.now) (term_view u.now)) }
{
    for clause in clauses {
        if let Some(other) = equal_if(sort, term, clause, calls) {
            return Some(other);
        }
    }
    None
}

/// What a call or a constructor's term is equal to, by the first clause that says that of it: of what is neither, if there is one.
fn first_of_call<'a>(sort: &Sort, term: &Term, clauses: &'a [Clause]) -> Option<&'a Term>
    ensures { IfSome result (λ u. IsSaidEqual (clauses_view clauses.now) (sort_view sort.now) (term_view term.now) (term_view u.now)) }
{
    match term {
        Term::Headed { .. } => match first_equal(sort, term, clauses, false) {
            Some(other) => Some(other),
            None => first_equal(sort, term, clauses, true),
        },
        Term::Unknown { .. } | Term::Offset { .. } | Term::Known { .. } => None,
    }
}

/// The clauses that what an equality says of its side, and what the first one with that side says of it, are equal; none where
/// both say the same.
fn of_side(
    alloc: Global,
    signature: &Signature,
    sort: &Sort,
    term: &Term,
    other: &Term,
    clauses: &[Clause],
) -> Result<Vec<Clause>, AllocError>
    ensures { IfOk result (FollowIfSaid (signature_view signature.now) clauses.now (sort_view sort.now) (term_view term.now) (term_view other.now)) }
{
    match first_of_call(sort, term, clauses) {
        Some(first) => {
            if first.same(other) {
                return Ok(Vec::new(alloc));
            }
            equal_clauses(alloc, signature, sort, first, other)
        }
        None => Ok(Vec::new(alloc)),
    }
}

/// What follows so of an equality, of either side of it.
fn of_sides(
    alloc: Global,
    signature: &Signature,
    sides: EqualSides<'_>,
    clauses: &[Clause],
) -> Result<Vec<Clause>, AllocError>
    ensures { IfOk result (FollowIfAmong (signature_view signature.now) clauses.now (equality_alone (equal_sides_view sides.entry))) }
{
    let EqualSides { sort, left, right } = sides;
    let mut more = of_side(alloc, signature, sort, left, right, clauses)?;
    let mut others = of_side(alloc, signature, sort, right, left, clauses)?;
    more.append(&mut others)?;
    Ok(more)
}

/// The same of a clause.
fn of_clause(
    alloc: Global,
    signature: &Signature,
    clause: &Clause,
    clauses: &[Clause],
) -> Result<Vec<Clause>, AllocError>
    ensures { IfOk result (FollowIfAmong (signature_view signature.now) clauses.now (clause_view clause.now)) }
{
    match equal_sides(clause) {
        Some(sides) => of_sides(alloc, signature, sides, clauses),
        None => Ok(Vec::new(alloc)),
    }
}

/// The same of each clause.
fn implied(
    alloc: Global,
    signature: &Signature,
    clauses: &[Clause],
) -> Result<Vec<Clause>, AllocError>
    ensures { IfOk result (λ more. FollowFrom (signature_view signature.now) (clauses_view clauses.now) (clauses_view more.items)) }
{
    let mut found = Vec::new(alloc);
    for clause in clauses {
        let mut more = of_clause(alloc, signature, clause, clauses)?;
        found.append(&mut more)?;
    }
    Ok(found)
}

/// The state with these clauses, if it has more clauses so.
fn with_more(alloc: Global, state: &State, more: &[Clause]) -> Result<Option<State>, AllocError>
    ensures { IfOk result (λ o. IfSome o (λ r. state_view r ≡ constrained (state_view state.now) (clauses_view more.now))) }
{
    let grown = constrain(alloc, state, more)?;
    if grown.clauses.len() == state.clauses.len() {
        return Ok(None);
    }
    Ok(Some(grown))
}

/// The state with what follows of its clauses, if anything is found that does.
fn further(alloc: Global, signature: &Signature, state: &State) -> Result<Option<State>, AllocError>
    ensures { IfOk result (λ o. IfSome o (λ r. CanBeAsWell (signature_view signature.now) (state_view state.now) (state_view r))) }
{
    if state.clauses.len() > MOST_CLAUSES {
        return Ok(None);
    }
    let more = implied(alloc, signature, &state.clauses)?;
    if more.is_empty() {
        return Ok(None);
    }
    with_more(alloc, state, &more)
}

/// The same again and again, with what is found so far.
fn all_further(alloc: Global, signature: &Signature, state: State) -> Result<State, AllocError>
    ensures { IfOk result (λ r. CanBeAsWell (signature_view signature.now) (state_view state) (state_view r)) }
{
    let mut all = state;
    for _round in 1..MOST_ROUNDS {
        match further(alloc, signature, &all)? {
            Some(more) => all = more,
            None => return Ok(all),
        }
    }
    Ok(all)
}

/// Whether it is known that the state's clauses can't be true, with what follows of them.
fn never_further(alloc: Global, setting: Setting<'_>, state: State) -> Result<bool, AllocError>
    requires { HasItsTable setting }
    ensures { TellsNever setting.entry state result }
{
    let all = all_further(alloc, setting.language.signature, state)?;
    is_empty(alloc, setting.language.signature, setting.table, &all)
}

/// The same, where anything follows of them.
fn never_together(alloc: Global, setting: Setting<'_>, state: &State) -> Result<bool, AllocError>
    requires { HasItsTable setting }
    ensures { TellsNever setting.entry state.now result }
{
    match further(alloc, setting.language.signature, state)? {
        Some(more) => never_further(alloc, setting, more),
        None => Ok(false),
    }
}

/// What is answered of a part that is left open: nothing, where what follows of its clauses can't be true with them.
fn open_answer(
    alloc: Global,
    setting: Setting<'_>,
    part: &State,
    told: UndecidedClauses,
) -> Result<PartAnswer, AllocError>
    requires { HasItsTable setting }
    ensures { TellsOfUndecided setting.entry part.now told result }
{
    if never_together(alloc, setting, part)? {
        return Ok(PartAnswer::Nothing);
    }
    Ok(PartAnswer::UndecidedClauses { told })
}

/// Whether a part of the state has an instance, with what follows of its clauses.
pub fn answer_with_implied(
    alloc: Global,
    setting: Setting<'_>,
    state: &State,
    part: &State,
) -> Result<PartAnswer, AllocError>
    requires { HasItsTable setting }
    ensures { let g = signature_of setting.entry in let p = state_view part.now in IfOk result (λ a. HasSortedClauses g p → IsRightAnswerOf g (state_view state.now) p a) }
{
    match answer_of(alloc, setting, state, part)? {
        PartAnswer::Instance => Ok(PartAnswer::Instance),
        PartAnswer::Nothing => Ok(PartAnswer::Nothing),
        PartAnswer::UndecidedClauses { told } => open_answer(alloc, setting, part, told),
    }
}
