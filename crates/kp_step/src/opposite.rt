// The opposite of clauses.
ghost use Rattle.std.specs.Prelude.{◌≡◌, false, IfOk, OnOk, map};
ghost use Rattle.std.specs.List.{AllByRecursion};
ghost use Rattle.kp_kore.specs.View.{patterns_view, sort_view};
ghost use Rattle.kp_signature.specs.View.{signature_view};
ghost use Rattle.kp_symbolic.specs.Clauses.{denied, denied_clauses, opened_atom, opened_literal, opened_literals};
ghost use Rattle.kp_symbolic.specs.Formulas.{all_of as all_together};
ghost use Rattle.kp_symbolic.specs.Solving.{negated};
ghost use Rattle.kp_symbolic.specs.Writing.{written_clauses};
ghost use Rattle.kp_symbolic_laws.specs.Kept.{CanBeWrittenAt};
ghost use Rattle.kp_symbolic.specs.Languages.{language_view};
ghost use Rattle.kp_symbolic.specs.View.{clause_view, clauses_view, literal_view};
ghost use Rattle.kp_formulas.specs.FormulaView.{formula_view};
ghost use Rattle.kp_formulas.specs.Distribution.{distribution_of, distributions_of};
ghost use Rattle.kp_formulas.specs.DistributionView.{distributed_view};
ghost use Rattle.kp_step.specs.Opposites.{opposite_of_literal, denying_written};
ghost use Rattle.kp_step.specs.Laws.{CanBeDenied};

use kp_compile::CompileError;
use kp_formulas::distributed::{all_of, one_of};
use kp_formulas::formula::kept_fact;
use kp_formulas::head_test::open_test;
use kp_formulas::joined::make_clause;
use kp_formulas::{Distributed, Formula, distribute, open_same};
use kp_kore::{Pattern, Sort};
use kp_signature::Signature;
use kp_solving::quoted_clause::kept_out;
use kp_symbolic::{Atom, Clause, Language, Literal};
use kp_unify::literals::{clauses_of, is_room, make_unknown};
use std::alloc::{AllocError, Global};
use std::sync::Arc;

/// The opposite of a literal.
fn opposite(alloc: Global, literal: &Literal) -> Result<Literal, AllocError>
    ensures { IfOk result (λ o. literal_view o ≡ opposite_of_literal (literal_view literal.now)) }
{
    Ok(Literal {
        holds: !literal.holds,
        atom: literal.atom.share(alloc)?,
    })
}

/// A literal opened again.
fn open_again(
    alloc: Global,
    signature: &Signature,
    literal: &Literal,
) -> Result<Formula, AllocError>
    ensures { let l = literal_view literal.now in IfOk result (λ f. formula_view f ≡ opened_atom (signature_view signature.now) false l.holds l.atom) }
{
    let sign = literal.holds;
    match &literal.atom {
        Atom::Same { sort, left, right } => {
            open_same(alloc, signature, false, sign, sort, left, right)
        }
        Atom::Head { variable, test } => {
            let term = make_unknown(variable)?;
            open_test(alloc, signature, sign, test, literal, &term)
        }
        Atom::Quoted { .. } => kept_fact(alloc, literal),
    }
}

/// What is kept of the clauses of a literal's opposite.
fn deny_literal(
    alloc: Global,
    signature: &Signature,
    literal: &Literal,
) -> Result<Distributed, AllocError>
    ensures { IfOk result (λ d. distributed_view d ≡ distribution_of (opened_literal (signature_view signature.now) false false (literal_view literal.now))) }
{
    let opposite = opposite(alloc, literal)?;
    let formula = open_again(alloc, signature, &opposite)?;
    distribute(&formula, alloc)
}

/// The same of each literal.
fn deny_literals(
    alloc: Global,
    signature: &Signature,
    literals: &[Literal],
) -> Result<Vec<Distributed>, AllocError>
    ensures { let opened = opened_literals (signature_view signature.now) false false (map literal_view literals.now) in
        IfOk result (λ ds. map distributed_view ds.items ≡ distributions_of opened) }
{
    let mut found = Vec::new(alloc);
    for literal in literals {
        found.push(deny_literal(alloc, signature, literal)?)?;
    }
    Ok(found)
}

/// What is kept of the opposites of all literals of a clause.
#[tactic(auto, using(crate::proofs::NegateLemmas::all_of_literals))]
fn deny_clause(
    alloc: Global,
    signature: &Signature,
    clause: &Clause,
) -> Result<Distributed, AllocError>
    ensures { IfOk result (λ d. distributed_view d ≡ distribution_of (all_together (opened_literals (signature_view signature.now) false false (clause_view clause.now)))) }
{
    let parts = deny_literals(alloc, signature, &clause.literals)?;
    all_of(alloc, &parts)
}

/// The same of each clause.
fn deny_clauses(
    alloc: Global,
    signature: &Signature,
    clauses: &[Clause],
) -> Result<Vec<Distributed>, AllocError>
    ensures { IfOk result (λ ds. map distributed_view ds.items ≡ distributions_of (denied_clauses (signature_view signature.now) (clauses_view clauses.now))) }
{
    let mut found = Vec::new(alloc);
    for clause in clauses {
        found.push(deny_clause(alloc, signature, clause)?)?;
    }
    Ok(found)
}

/// What is kept of one of the opposites of the clauses.
#[tactic(auto, using(crate::proofs::NegateLemmas::one_of_clauses))]
fn deny(alloc: Global, signature: &Signature, clauses: &[Clause]) -> Result<Distributed, AllocError>
    ensures { IfOk result (λ d. distributed_view d ≡ distribution_of (denied (signature_view signature.now) (clauses_view clauses.now))) }
{
    let parts = deny_clauses(alloc, signature, clauses)?;
    one_of(alloc, &parts)
}

/// What is written for the clauses, one by one, each as a predicate that can stand in its place.
fn clauses_out(
    alloc: Global,
    language: &Language,
    sort: &Sort,
    clauses: &[Clause],
) -> Result<Vec<Pattern>, CompileError>
    ensures written { IfOk result (λ ps. patterns_view ps.items ≡ written_clauses (language_view language.now) (sort_view sort.now) (clauses_view clauses.now)) }
    ensures right { OnOk result (AllByRecursion (λ c. CanBeWrittenAt (language_view language.now) (sort_view sort.now) (clause_view c)) clauses.now) }
{
    let mut found = Vec::new(alloc);
    for clause in clauses {
        found.push(kept_out(alloc, language, sort, clause)?)?;
    }
    Ok(found)
}

/// `\not` of a conjunction, as one clause of one literal.
fn deny_pattern(
    alloc: Global,
    sort: &Sort,
    patterns: Vec<Pattern>,
) -> Result<Vec<Clause>, AllocError>
    ensures { IfOk result (λ cs. clauses_view cs.items ≡ denying_written (sort_view sort.now) (patterns_view patterns.items)) }
{
    let pattern = Arc::new(
        alloc,
        Pattern::And {
            sort: sort.copy(alloc)?,
            patterns,
        },
    )?;
    let atom = Atom::Quoted {
        pattern,
        replaced: Arc::new(alloc, Vec::new(alloc))?,
    };
    let mut denied = Vec::new(alloc);
    denied.push(make_clause(alloc, Literal { holds: false, atom })?)?;
    Ok(denied)
}

/// `\not` of what is written for the clauses, as one literal.
fn quote_denied(
    alloc: Global,
    language: &Language,
    sort: &Sort,
    clauses: &[Clause],
) -> Result<Vec<Clause>, CompileError>
    ensures quoted { let s = sort_view sort.now in IfOk result (λ cs. clauses_view cs.items ≡ denying_written s (written_clauses (language_view language.now) s (clauses_view clauses.now))) }
    ensures right { OnOk result (AllByRecursion (CanBeWrittenAt (language_view language.now) (sort_view sort.now)) (clauses_view clauses.now)) }
{
    let patterns = clauses_out(alloc, language, sort, clauses)?;
    Ok(deny_pattern(alloc, sort, patterns)?)
}

/// Clauses that are true exactly where not all of these are: one of the opposites of each; where that makes too many literals,
/// `\not` of what is written for them.
pub fn negate(
    alloc: Global,
    language: &Language,
    sort: &Sort,
    clauses: &[Clause],
) -> Result<Vec<Clause>, CompileError>
    ensures negated { IfOk result (λ cs. clauses_view cs.items ≡ negated (language_view language.now) (sort_view sort.now) (clauses_view clauses.now)) }
    ensures right { OnOk result (CanBeDenied (language_view language.now) (sort_view sort.now) (clauses_view clauses.now)) }
{
    let opened = deny(alloc, language.signature, clauses)?;
    if is_room(&opened) {
        return Ok(clauses_of(opened));
    }
    quote_denied(alloc, language, sort, clauses)
}
