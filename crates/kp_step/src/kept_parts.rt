// Parts of a state, with further clauses and without those that aren't decided.
ghost use Rattle.std.specs.Prelude.{◌≡◌, IfOk, map};
ghost use Rattle.kp_kore.specs.Signature.{KoreSignature};
ghost use Rattle.kp_signature.specs.View.{signature_view};
ghost use Rattle.kp_heads.specs.Made.{IsHeadTableOf};
ghost use Rattle.kp_symbolic.specs.Plain as model;
ghost use Rattle.kp_symbolic.specs.States.{SymbolicState};
ghost use Rattle.kp_symbolic.specs.View as terms;
ghost use Rattle.kp_symbolic.specs.View.{clause_view, literal_view, state_view};
ghost use Rattle.kp_literals.specs.Readings.{read_view, clauses_view};
ghost use Rattle.kp_satisfiability.specs.Answers.{IsRightAnswer};
ghost use Rattle.kp_satisfiability.specs.Read.{HasSortedClauses};
ghost use Rattle.kp_case_laws.specs.Parts.{with_clauses};
ghost use Rattle.kp_unify.specs.Views.{part_view};
ghost use Rattle.kp_step.specs.Opposites.{plain_state, TellsNone};

use kp_heads::HeadTable;
use kp_literals::ReadLiteral;
use kp_literals::clauses::read_clauses;
use kp_literals::plain_clauses::plain_clauses;
use kp_satisfiability::{Verdict, decide};
use kp_signature::Signature;
use kp_solving::constrain;
use kp_symbolic::state::share_variables;
use kp_symbolic::{Clause, Literal, State};
use kp_unify::part::Part;
use kp_unify::refined::behind;
use std::alloc::{AllocError, Global};
use std::sync::Arc;

/// The part in which these clauses are true, too.
pub fn constrained(alloc: Global, part: &Part, clauses: &[Clause]) -> Result<Part, AllocError>
    ensures view { IfOk result (λ p. part_view p ≡ with_clauses (part_view part.now) (terms.clauses_view clauses.now)) }
    ensures next { IfOk result (λ p. p.next ≡ part.now.next) }
{
    Ok(Part {
        state: constrain(alloc, &part.state, clauses)?,
        added: behind(alloc, &part.added, clauses)?,
        next: part.next,
    })
}

/// Whether the verdict is that no values of the variables at hand make the clauses true; it isn't where they aren't decided.
fn is_none(verdict: &Verdict) -> bool
    ensures { (g : KoreSignature) (s : SymbolicState) → IsRightAnswer g s verdict.now → TellsNone g s result }
{
    match verdict {
        Verdict::NoValuation => true,
        Verdict::SomeValuation => false,
        Verdict::Undecided { .. } => false,
    }
}

/// Whether it is known that no values of the variables at hand make the state's clauses true: only where a right verdict says another thing
/// it isn't.
pub fn is_empty(
    alloc: Global,
    signature: &Signature,
    table: &HeadTable,
    state: &State,
) -> Result<bool, AllocError>
    requires { IsHeadTableOf (signature_view signature.now) table.now }
    ensures { let g = signature_view signature.now in let s = state_view state.now in IfOk result (λ b. HasSortedClauses g s → TellsNone g s b) }
{
    let verdict = decide(alloc, signature, table, state)?;
    Ok(is_none(&verdict))
}

/// The literals of a clause, without what they say.
fn literals_of(alloc: Global, clause: &[ReadLiteral]) -> Result<Vec<Literal>, AllocError>
    ensures { IfOk result (λ ls. map literal_view ls.items ≡ model.literals_of (map read_view clause.now)) }
{
    let mut literals = Vec::new(alloc);
    for literal in clause {
        literals.push(literal.literal.share(alloc)?)?;
    }
    Ok(literals)
}

/// The clause of these literals.
fn clause_of(alloc: Global, clause: &[ReadLiteral]) -> Result<Clause, AllocError>
    ensures { IfOk result (λ c. clause_view c ≡ model.literals_of (map read_view clause.now)) }
{
    let literals = literals_of(alloc, clause)?;
    Ok(Clause {
        literals: Arc::new(alloc, literals)?,
    })
}

/// The same of each clause.
fn clauses_of(alloc: Global, clauses: &[Vec<ReadLiteral>]) -> Result<Vec<Clause>, AllocError>
    ensures { IfOk result (λ cs. terms.clauses_view cs.items ≡ map model.literals_of (clauses_view clauses.now)) }
{
    let mut found = Vec::new(alloc);
    for clause in clauses {
        found.push(clause_of(alloc, clause)?)?;
    }
    Ok(found)
}

/// The clauses all of whose literals are decided.
fn decided_clauses(
    alloc: Global,
    signature: &Signature,
    state: &State,
) -> Result<Vec<Clause>, AllocError>
    ensures { IfOk result (λ cs. terms.clauses_view cs.items ≡ model.plain_clauses (signature_view signature.now) (state_view state.now)) }
{
    let read = read_clauses(alloc, signature, state)?;
    let plain = plain_clauses(alloc, &read)?;
    clauses_of(alloc, &plain)
}

/// The state without the clauses in which some literal isn't decided.
pub fn plain_part(alloc: Global, signature: &Signature, state: &State) -> Result<State, AllocError>
    ensures { IfOk result (λ s. state_view s ≡ plain_state (signature_view signature.now) (state_view state.now)) }
{
    Ok(State {
        term: state.term.share(alloc)?,
        sort: state.sort.clone()?,
        clauses: decided_clauses(alloc, signature, state)?,
        variables: share_variables(alloc, &state.variables)?,
    })
}
