// A test of the head of a term, opened with a sign.
ghost use Rattle.std.specs.Prelude.{◌≡◌, [], ◌∷◌, map, IfOk};
ghost use Rattle.std.specs.Bool.{beq};
ghost use Rattle.kp_ground.specs.View.{value_view};
ghost use Rattle.kp_kore.specs.HookView.{hook_view};
ghost use Rattle.kp_kore.specs.Signature as head;
ghost use Rattle.kp_kore.specs.Signature.{possible_heads, tokens, constructor_of};
ghost use Rattle.kp_kore.specs.View.{sort_view, symbol_sentence_view};
ghost use Rattle.kp_signature.specs.Pairs.{subsort_view};
ghost use Rattle.kp_signature.specs.View.{signature_view};
ghost use Rattle.kp_symbolic.specs.Formulas.{fact};
ghost use Rattle.kp_symbolic.specs.Heads.{head_answer as answer, passes_head as passes_test};
ghost use Rattle.kp_symbolic.specs.Opening as model;
ghost use Rattle.kp_symbolic.specs.States.{has_head};
ghost use Rattle.kp_symbolic.specs.Terms.{SymbolicTerms, headed};
ghost use Rattle.kp_symbolic.specs.View.{term_view, test_view, literal_view, variable_view};
ghost use Rattle.kp_formulas.specs.FormulaView.{formula_view};
ghost use Rattle.kp_formulas.specs.Answers.{agrees as agrees_with, all_agree as all_agree_with};
ghost use Rattle.kp_formulas.specs.LeafView.{head_view};

use crate::Formula;
use crate::equality_sides::fixed_or;
use crate::formula::{kept_fact, make_fixed};
use crate::head::{LeafHead, head_of, is_head, passes_head};
use kp_kore::{Hook, Sort, SymbolSentence};
use kp_signature::{Function, Meaning, Signature, Subsort, meaning_of};
use kp_symbolic::{Atom, HeadTest, Literal, Term, Variable};
use std::alloc::{AllocError, Global};
use std::sync::Arc;

/// Whether a head, where it is one of the sort's, passes the test or doesn't, as asked.
fn agrees(
    alloc: Global,
    signature: &Signature,
    sort: &Sort,
    test: &HeadTest,
    wanted: bool,
    head: LeafHead<'_>,
) -> Result<bool, AllocError>
    ensures { IfOk result (λ b. b ≡ agrees_with (signature_view signature.now) (sort_view sort.now) (test_view test.now) wanted (head_view head.entry)) }
{
    if is_head(alloc, signature, sort, head)? {
        let passes = passes_head(alloc, signature, test, head)?;
        return Ok(passes == wanted);
    }
    Ok(true)
}

/// The same of the tokens of each lower sort of the pairs.
fn lower_agree(
    alloc: Global,
    signature: &Signature,
    sort: &Sort,
    test: &HeadTest,
    wanted: bool,
    pairs: &[Subsort],
) -> Result<bool, AllocError>
    ensures { let heads = map tokens (map (λ p. p.0) (map subsort_view pairs.now)) in IfOk result (λ b. b ≡ all_agree_with (signature_view signature.now) (sort_view sort.now) (test_view test.now) wanted heads) }
{
    for pair in pairs {
        let head = LeafHead::Tokens { sort: &pair.lower };
        if !agrees(alloc, signature, sort, test, wanted, head)? {
            return Ok(false);
        }
    }
    Ok(true)
}

/// The same of each symbol, as a head.
fn symbols_agree(
    alloc: Global,
    signature: &Signature,
    sort: &Sort,
    test: &HeadTest,
    wanted: bool,
    symbols: &[SymbolSentence],
) -> Result<bool, AllocError>
    ensures { let heads = map (λ d. constructor_of d.name) (map symbol_sentence_view symbols.now) in IfOk result (λ b. b ≡ all_agree_with (signature_view signature.now) (sort_view sort.now) (test_view test.now) wanted heads) }
{
    for symbol in symbols {
        let head = LeafHead::Constructor {
            symbol: &symbol.name,
        };
        if !agrees(alloc, signature, sort, test, wanted, head)? {
            return Ok(false);
        }
    }
    Ok(true)
}

/// The same of the heads of numbers, of truth values, and of the sort's own tokens.
fn first_agree(
    alloc: Global,
    signature: &Signature,
    sort: &Sort,
    test: &HeadTest,
    wanted: bool,
) -> Result<bool, AllocError>
    ensures { let sort' = sort_view sort.now in IfOk result (λ b. b ≡ all_agree_with (signature_view signature.now) sort' (test_view test.now) wanted (head.integers ∷ head.booleans ∷ tokens sort' ∷ [])) }
{
    if !agrees(alloc, signature, sort, test, wanted, LeafHead::Integers)? {
        return Ok(false);
    }
    if !agrees(alloc, signature, sort, test, wanted, LeafHead::Booleans)? {
        return Ok(false);
    }
    agrees(
        alloc,
        signature,
        sort,
        test,
        wanted,
        LeafHead::Tokens { sort },
    )
}

/// Whether each head of the sort passes the test, or none does, as asked.
fn all_agree(
    alloc: Global,
    signature: &Signature,
    sort: &Sort,
    test: &HeadTest,
    wanted: bool,
) -> Result<bool, AllocError>
    ensures { let g = signature_view signature.now in let sort' = sort_view sort.now in IfOk result (λ b. b ≡ all_agree_with g sort' (test_view test.now) wanted (possible_heads g sort')) }
{
    if !first_agree(alloc, signature, sort, test, wanted)? {
        return Ok(false);
    }
    if !lower_agree(alloc, signature, sort, test, wanted, signature.subsorts())? {
        return Ok(false);
    }
    symbols_agree(alloc, signature, sort, test, wanted, signature.symbols())
}

/// What a test says of every value of a sort: yes, no, or neither.
fn head_answer(
    alloc: Global,
    signature: &Signature,
    sort: &Sort,
    test: &HeadTest,
) -> Result<Option<bool>, AllocError>
    ensures { IfOk result (λ o. o ≡ answer (signature_view signature.now) (sort_view sort.now) (test_view test.now)) }
{
    if all_agree(alloc, signature, sort, test, true)? {
        return Ok(Some(true));
    }
    if all_agree(alloc, signature, sort, test, false)? {
        return Ok(Some(false));
    }
    Ok(None)
}

/// The literal that a variable's head passes the test, or doesn't.
fn head_literal(
    alloc: Global,
    sign: bool,
    variable: &Arc<Variable>,
    test: &HeadTest,
) -> Result<Literal, AllocError>
    ensures { IfOk result (λ l. fact (literal_view l) ≡ model.literal_fact sign (has_head (variable_view variable.now.value) (test_view test.now))) }
{
    let atom = Atom::Head {
        variable: variable.clone()?,
        test: test.share()?,
    };
    Ok(Literal { holds: sign, atom })
}

/// A test of a variable's head.
fn open_variable(
    alloc: Global,
    signature: &Signature,
    sign: bool,
    variable: &Arc<Variable>,
    test: &HeadTest,
) -> Result<Formula, AllocError>
    ensures { let test' = test_view test.now in let g = signature_view signature.now in IfOk result (λ f. formula_view f ≡ model.fixed_or (answer g (sort_view variable.now.value.sort) test') sign (model.literal_fact sign (has_head (variable_view variable.now.value) test'))) }
{
    let decided = head_answer(alloc, signature, &variable.sort, test)?;
    let kept = head_literal(alloc, sign, variable, test)?;
    fixed_or(alloc, decided, sign, &kept)
}

/// A test of a head that is known.
fn open_head(
    alloc: Global,
    signature: &Signature,
    sign: bool,
    test: &HeadTest,
    head: LeafHead<'_>,
) -> Result<Formula, AllocError>
    ensures { IfOk result (λ f. formula_view f ≡ model.fixed (beq (passes_test (signature_view signature.now) (test_view test.now) (head_view head.entry)) sign)) }
{
    let passes = passes_head(alloc, signature, test, head)?;
    make_fixed(alloc, passes == sign)
}

/// The head of a call's values.
fn head_of_call<'a>(hook: Hook) -> LeafHead<'a>
    ensures { head_view result ≡ model.head_of_call (hook_view hook) }
{
    match hook {
        Hook::Arithmetic(_) => LeafHead::Integers,
        Hook::Comparison(_) | Hook::Connective(_) | Hook::Equal | Hook::Different =>
            LeafHead::Booleans,
    }
}

/// A test of the head of an application.
fn open_applied(
    alloc: Global,
    signature: &Signature,
    sign: bool,
    test: &HeadTest,
    kept: &Literal,
    symbol: &str,
) -> Result<Formula, AllocError>
    ensures { let g = signature_view signature.now in let kept' = literal_view kept.now in (ts : SymbolicTerms) → IfOk result (λ f. formula_view f ≡ model.opened_test g sign (test_view test.now) (fact kept') (headed symbol.now ts)) }
{
    match meaning_of(signature, symbol) {
        Meaning::Constructor => open_head(
            alloc,
            signature,
            sign,
            test,
            LeafHead::Constructor { symbol },
        ),
        Meaning::Interpreted(Function::Negation) => open_head(
            alloc,
            signature,
            sign,
            test,
            LeafHead::Booleans,
        ),
        Meaning::Interpreted(Function::Two(hook)) => open_head(
            alloc,
            signature,
            sign,
            test,
            head_of_call(hook),
        ),
        Meaning::Injection | Meaning::Foreign => kept_fact(alloc, kept),
    }
}

/// A test of a term's head, where this literal is kept if it isn't decided and the term is no variable.
pub fn open_test(
    alloc: Global,
    signature: &Signature,
    sign: bool,
    test: &HeadTest,
    kept: &Literal,
    term: &Term,
) -> Result<Formula, AllocError>
    ensures { let g = signature_view signature.now in let kept' = literal_view kept.now in IfOk result (λ f. formula_view f ≡ model.opened_test g sign (test_view test.now) (fact kept') (term_view term.now)) }
{
    match term {
        Term::Unknown { variable } => open_variable(alloc, signature, sign, variable, test),
        Term::Offset { .. } => open_head(alloc, signature, sign, test, LeafHead::Integers),
        Term::Known { value } => open_head(alloc, signature, sign, test, head_of(value)),
        Term::Headed { symbol, .. } => open_applied(alloc, signature, sign, test, kept, symbol),
    }
}
