// The clauses by which a part is narrowed.
ghost use Rattle.std.specs.Prelude.{◌≡◌, not, [], ◌∷◌, IfOk, string_bytes};
ghost use Rattle.kp_kore.specs.View.{sort_view};
ghost use Rattle.kp_signature.specs.View.{signature_view};
ghost use Rattle.kp_symbolic.specs.Clauses.{is_too_large};
ghost use Rattle.kp_symbolic.specs.Formulas.{Formula};
ghost use Rattle.kp_symbolic.specs.States as states;
ghost use Rattle.kp_symbolic.specs.Terms.{unknown};
ghost use Rattle.kp_symbolic.specs.View.{variable_view, term_view, test_view, literal_view, clauses_view};
ghost use Rattle.kp_formulas.specs.Distribution.{distribution_of};
ghost use Rattle.kp_formulas.specs.DistributionView.{distributed_view};
ghost use Rattle.kp_case_laws.specs.Narrowings as narrowings;
ghost use Rattle.kp_case_laws.specs.Courses.{equality_clauses};
ghost use Rattle.kp_unify.specs.Replaced.{equality_of};

use kp_formulas::count::is_too_large;
use kp_formulas::head_test::open_test;
use kp_formulas::joined::make_clause;
use kp_formulas::{Distributed, distribute, open_same};
use kp_kore::Sort;
use kp_signature::Signature;
use kp_symbolic::{Atom, Clause, HeadTest, Literal, Term, Variable};
use std::alloc::{AllocError, Global};
use std::sync::Arc;

/// A variable as a term.
pub fn make_unknown(variable: &Arc<Variable>) -> Result<Term, AllocError>
    ensures { IfOk result (λ t. term_view t ≡ unknown (variable_view variable.now.value)) }
{
    Ok(Term::Unknown {
        variable: variable.clone()?,
    })
}

/// The literal that two terms of a sort are equal, or not.
fn equality(
    alloc: Global,
    holds: bool,
    sort: &Sort,
    left: &Term,
    right: &Term,
) -> Result<Literal, AllocError>
    ensures { IfOk result (λ l. literal_view l ≡ record { holds = holds; atom = states.same (sort_view sort.now) (term_view left.now) (term_view right.now) }) }
{
    let atom = Atom::Same {
        sort: Arc::new(alloc, sort.copy(alloc)?)?,
        left: left.share(alloc)?,
        right: right.share(alloc)?,
    };
    Ok(Literal { holds, atom })
}

/// A clause of this literal, alone.
fn only_clause(alloc: Global, literal: Literal) -> Result<Vec<Clause>, AllocError>
    ensures { IfOk result (λ cs. clauses_view cs.items ≡ (literal_view literal ∷ []) ∷ []) }
{
    let mut clauses = Vec::new(alloc);
    clauses.push(make_clause(alloc, literal)?)?;
    Ok(clauses)
}

/// The clause that a variable is a term, or isn't.
pub fn variable_is(
    alloc: Global,
    holds: bool,
    variable: &Arc<Variable>,
    term: &Term,
) -> Result<Vec<Clause>, AllocError>
    ensures { let x = variable_view variable.now.value in IfOk result (λ cs. clauses_view cs.items ≡ (record { holds = holds; atom = states.same x.sort (unknown x) (term_view term.now) } ∷ []) ∷ []) }
{
    let left = make_unknown(variable)?;
    let literal = equality(alloc, holds, &variable.sort, &left, term)?;
    only_clause(alloc, literal)
}

/// Whether the clauses of a formula aren't too many for a state.
pub fn is_room(opened: &Distributed) -> bool
    ensures { (f : Formula states.Literal) → distributed_view opened.now ≡ distribution_of f → result ≡ not (is_too_large 0 f) }
{
    !is_too_large(opened.count)
}

/// The clauses that are kept of a formula.
pub fn clauses_of(opened: Distributed) -> Vec<Clause>
    ensures { clauses_view result.items ≡ (distributed_view opened).clauses }
{
    let Distributed { clauses, .. } = opened;
    clauses
}

/// The clauses that two terms of a sort are equal: none where they always are, one without literals where they never are.
pub fn equal_clauses(
    alloc: Global,
    signature: &Signature,
    sort: &Sort,
    left: &Term,
    right: &Term,
) -> Result<Vec<Clause>, AllocError>
    ensures { let equal = equality_of (sort_view sort.now) (term_view left.now) (term_view right.now) in
        IfOk result (λ cs. clauses_view cs.items ≡ equality_clauses (signature_view signature.now) equal) }
{
    let formula = open_same(alloc, signature, true, true, sort, left, right)?;
    let opened = distribute(&formula, alloc)?;
    if is_room(&opened) {
        return Ok(clauses_of(opened));
    }
    let literal = equality(alloc, true, sort, left, right)?;
    only_clause(alloc, literal)
}

/// The literal that the variable's head passes the test, or doesn't.
pub fn head_literal(
    holds: bool,
    variable: &Arc<Variable>,
    test: &HeadTest,
) -> Result<Literal, AllocError>
    ensures { IfOk result (λ l. literal_view l ≡ record { holds = holds; atom = states.has_head (variable_view variable.now.value) (test_view test.now) }) }
{
    let atom = Atom::Head {
        variable: variable.clone()?,
        test: test.share()?,
    };
    Ok(Literal { holds, atom })
}

/// The clauses that the variable's head passes the test, or doesn't: decided where all heads of its sort do, or none.
pub fn head_clauses(
    alloc: Global,
    signature: &Signature,
    holds: bool,
    variable: &Arc<Variable>,
    test: &HeadTest,
) -> Result<Vec<Clause>, AllocError>
    ensures { IfOk result (λ cs. clauses_view cs.items ≡ narrowings.head_clauses (signature_view signature.now) holds (variable_view variable.now.value) (test_view test.now)) }
{
    let term = make_unknown(variable)?;
    let kept = head_literal(holds, variable, test)?;
    let formula = open_test(alloc, signature, holds, test, &kept, &term)?;
    Ok(clauses_of(distribute(&formula, alloc)?))
}

/// Whether one of the clauses has no literal, so that they are never true.
pub fn are_never(clauses: &[Clause]) -> bool
    ensures { result ≡ narrowings.are_never (clauses_view clauses.now) }
{
    for clause in clauses {
        if clause.literals.is_empty() {
            return true;
        }
    }
    false
}

/// The test for a constructor.
pub fn constructor_test(symbol: &Arc<String>) -> Result<HeadTest, AllocError>
    ensures { IfOk result (λ t. test_view t ≡ states.one_head (string_bytes symbol.now.value)) }
{
    Ok(HeadTest::Constructor {
        symbol: symbol.clone()?,
    })
}

/// The test for any head of a sort.
pub fn sort_test(alloc: Global, sort: &Sort) -> Result<HeadTest, AllocError>
    ensures { IfOk result (λ t. test_view t ≡ states.head_of_sort (sort_view sort.now)) }
{
    Ok(HeadTest::Sort {
        sort: Arc::new(alloc, sort.copy(alloc)?)?,
    })
}
