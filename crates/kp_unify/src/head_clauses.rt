// Clauses on the head of a variable, for a sort that shares some of its heads where no sort has exactly these.
ghost use Rattle.std.specs.Prelude.{◌≡◌, ◌&&◌, ◌∷◌, [], ◌++◌, false, IfOk, OnOk, map, string_bytes};
ghost use Rattle.std.specs.Option.{option_map};
ghost use Rattle.kp_kore.specs.Signature.{is_head as model_head};
ghost use Rattle.kp_kore.specs.Syntax.{sort_of, no_sorts};
ghost use Rattle.kp_kore.specs.View.{sort_view};
ghost use Rattle.kp_signature.specs.View.{signature_view};
ghost use Rattle.kp_symbolic.specs.Heads.{passes_head};
ghost use Rattle.kp_symbolic.specs.States.{one_head, head_of_sort};
ghost use Rattle.kp_sort_heads.specs.Views.{head_view};
ghost use Rattle.kp_symbolic.specs.View.{variable_view, test_view, literal_view, clause_view, clauses_view};
ghost use Rattle.kp_case_laws.specs.Narrowings as model;
ghost use Rattle.kp_unify.specs.Heads.{clause_without};
ghost use Rattle.kp_unify.specs.Promises.{shared_literals};

use crate::literals::{head_literal, sort_test};
use kp_formulas::joined::{kept_once, make_clause};
use kp_kore::{Name, Sort, SymbolSentence};
use kp_signature::Signature;
use kp_sort_heads::{SortHead, heads, is_head, is_named};
use kp_symbolic::{Clause, HeadTest, Literal, Variable};
use std::alloc::{AllocError, Global};
use std::sync::Arc;

/// The sort of this name, if there is one.
fn sort_named(alloc: Global, name: Option<&Name>) -> Result<Sort, AllocError>
    ensures { IfOk result (λ s. sort_view s ≡ model.sort_or_none (option_map (λ n. sort_of (string_bytes n.now) no_sorts) name.entry)) }
{
    match name {
        Some(name) => Ok(Sort::App {
            name: name.clone()?,
            arguments: Vec::new(alloc),
        }),
        None => Ok(Sort::Variable {
            name: String::new(alloc),
        }),
    }
}

/// The test for any head of the sort of this name.
fn named_test(alloc: Global, name: Option<&Name>) -> Result<HeadTest, AllocError>
    ensures { IfOk result (λ t. test_view t ≡ head_of_sort (model.sort_or_none (option_map (λ n. sort_of (string_bytes n.now) no_sorts) name.entry))) }
{
    let sort = sort_named(alloc, name)?;
    Ok(HeadTest::Sort {
        sort: Arc::new(alloc, sort)?,
    })
}

/// The test for a constructor's declaration.
fn declared_test(alloc: Global, declaration: &SymbolSentence) -> Result<HeadTest, AllocError>
    ensures { IfOk result (λ t. test_view t ≡ one_head (string_bytes declaration.now.name)) }
{
    Ok(HeadTest::Constructor {
        symbol: Arc::new(alloc, declaration.name.clone()?)?,
    })
}

/// The test for a head: for a constructor, or for any head of the literals' sort.
fn test_of(alloc: Global, signature: &Signature, head: &SortHead) -> Result<HeadTest, AllocError>
    ensures { IfOk result (λ t. test_view t ≡ model.test_of (signature_view signature.now) (head_view head.now)) }
{
    match head {
        SortHead::Integers => named_test(alloc, signature.integer_sort()),
        SortHead::Booleans => named_test(alloc, signature.boolean_sort()),
        SortHead::Tokens { sort } => sort_test(alloc, sort),
        SortHead::Constructor { declaration } => declared_test(alloc, declaration),
    }
}

/// Whether the head passes the test.
fn passes(signature: &Signature, head: &SortHead, test: &HeadTest) -> bool
    ensures { result ≡ passes_head (signature_view signature.now) (test_view test.now) (head_view head.now) }
{
    match test {
        HeadTest::Constructor { symbol } => is_named(head, symbol),
        HeadTest::Sort { sort } => is_head(signature, sort, head),
    }
}

/// Whether the sort has the head, and it passes the test.
fn is_shared(signature: &Signature, sort: &Sort, head: &SortHead, test: &HeadTest) -> bool
    ensures { let g = signature_view signature.now in let h = head_view head.now in result ≡ (model_head g (sort_view sort.now) h && passes_head g (test_view test.now) h) }
{
    is_head(signature, sort, head) && passes(signature, head, test)
}

/// The literal that the variable's head passes the test for this head, or doesn't.
fn tested(
    alloc: Global,
    signature: &Signature,
    holds: bool,
    variable: &Arc<Variable>,
    head: &SortHead,
) -> Result<Literal, AllocError>
    ensures { IfOk result (λ l. literal_view l ≡ model.tested (signature_view signature.now) holds (variable_view variable.now.value) (head_view head.now)) }
{
    let test = test_of(alloc, signature, head)?;
    head_literal(holds, variable, &test)
}

/// Adds the literals for the heads that the variable's sort shares with the other, and that pass the test.
fn add_shared(
    alloc: Global,
    signature: &Signature,
    found: &mut Vec<Literal>,
    variable: &Arc<Variable>,
    sort: &Sort,
    test: &HeadTest,
) -> Result<(), AllocError>
    ensures { let g = signature_view signature.now in OnOk result (map literal_view found.new.items ≡ map literal_view found.old.items ++ shared_literals g (variable_view variable.now.value) (sort_view sort.now) (test_view test.now)) }
{
    let mut left = heads(signature, &variable.sort);
    while let Some(head) = left.next() {
        if is_shared(signature, sort, &head, test) {
            found.push(tested(alloc, signature, true, variable, &head)?)?;
        }
    }
    Ok(())
}

/// The clause that the variable hasn't a head that the sort hasn't: it fails the test for it, or has one that both sorts share.
fn hasnt(
    alloc: Global,
    signature: &Signature,
    variable: &Arc<Variable>,
    sort: &Sort,
    head: &SortHead,
) -> Result<Clause, AllocError>
    ensures { IfOk result (λ c. clause_view c ≡ clause_without (signature_view signature.now) (variable_view variable.now.value) (sort_view sort.now) (head_view head.now)) }
{
    let test = test_of(alloc, signature, head)?;
    let mut literals = Vec::new(alloc);
    literals.push(head_literal(false, variable, &test)?)?;
    add_shared(alloc, signature, &mut literals, variable, sort, &test)?;
    Ok(Clause {
        literals: Arc::new(alloc, literals)?,
    })
}

/// The clauses that the variable's head is one of the sort's: it has none of its own sort's others.
pub fn inside(
    alloc: Global,
    signature: &Signature,
    variable: &Arc<Variable>,
    sort: &Sort,
) -> Result<Vec<Clause>, AllocError>
    ensures { IfOk result (λ cs. clauses_view cs.items ≡ model.heads_inside (signature_view signature.now) (variable_view variable.now.value) (sort_view sort.now)) }
{
    let mut found = Vec::new(alloc);
    let mut left = heads(signature, &variable.sort);
    while let Some(head) = left.next() {
        if !is_head(signature, sort, &head) {
            found.push(hasnt(alloc, signature, variable, sort, &head)?)?;
        }
    }
    kept_once(alloc, found)
}

/// The clause that the variable's head fails the test for this head.
fn fails(
    alloc: Global,
    signature: &Signature,
    variable: &Arc<Variable>,
    head: &SortHead,
) -> Result<Clause, AllocError>
    ensures { IfOk result (λ c. clause_view c ≡ model.tested (signature_view signature.now) false (variable_view variable.now.value) (head_view head.now) ∷ []) }
{
    let literal = tested(alloc, signature, false, variable, head)?;
    make_clause(alloc, literal)
}

/// The clauses that the variable's head is none of the sort's: it has none of those that both sorts share.
pub fn outside(
    alloc: Global,
    signature: &Signature,
    variable: &Arc<Variable>,
    sort: &Sort,
) -> Result<Vec<Clause>, AllocError>
    ensures { IfOk result (λ cs. clauses_view cs.items ≡ model.heads_outside (signature_view signature.now) (variable_view variable.now.value) (sort_view sort.now)) }
{
    let mut found = Vec::new(alloc);
    let mut left = heads(signature, &variable.sort);
    while let Some(head) = left.next() {
        if is_head(signature, sort, &head) {
            found.push(fails(alloc, signature, variable, &head)?)?;
        }
    }
    kept_once(alloc, found)
}
