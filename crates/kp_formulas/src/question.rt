// A question for the head of a term, as a quantified equality asks it.
ghost use Rattle.std.specs.Prelude.{◌≡◌, IfOk, map, string_bytes};
ghost use Rattle.std.specs.Option.{option_map};
ghost use Rattle.kp_kore.specs.Syntax.{no_sorts, next_sort, application, no_patterns, next_pattern};
ghost use Rattle.kp_kore.specs.View.{view, sort_view, sorts_view, patterns_view};
ghost use Rattle.kp_signature.specs.Meanings.{meaning_view};
ghost use Rattle.kp_kore.specs.Instance.{is_named as named_among};
ghost use Rattle.kp_signature.specs.View.{signature_view};
ghost use Rattle.kp_symbolic.specs.States.{one_head, head_of_sort};
ghost use Rattle.kp_symbolic.specs.Opening as model;
ghost use Rattle.kp_symbolic.specs.View.{test_view};
ghost use Rattle.kp_formulas.specs.Answers.{is_variable_at, asked_sort, asked_of_application};
ghost use Rattle.kp_formulas.specs.LeafView.{bound_view, question_view};

use crate::bound_variables::BoundVariable;
use crate::equality::is_same_sort;
use crate::equality_sides::places_of;
use kp_kore::{Name, Pattern, Sort};
use kp_signature::{Meaning, Signature, meaning_of};
use kp_symbolic::HeadTest;
use std::alloc::{AllocError, Global};
use std::sync::Arc;

/// A question for the head of a term. `question_view` in specs/View.antt says which question of kp_symbolic it is.
#[derive(Drop)]
pub struct HeadQuestion<'a> {
    pub subject: &'a Pattern,
    pub test: HeadTest,
}

/// Whether a variable of this name is among them.
fn is_bound(name: &str, bound: &[BoundVariable<'_>]) -> bool
    ensures { result ≡ named_among name.now (map bound_view bound.now) }
{
    for variable in bound {
        if variable.name.as_str() == name {
            return true;
        }
    }
    false
}

/// Whether the pattern is this variable, at a place of its sort.
fn is_variable(pattern: &Pattern, variable: BoundVariable<'_>, sort: &Sort) -> bool
    ensures { result ≡ is_variable_at (bound_view variable.entry) (sort_view sort.now) (view pattern.now) }
{
    match pattern {
        Pattern::Variable { name, sort: own } => {
            variable.name == name
                && is_same_sort(variable.sort, own)
                && is_same_sort(variable.sort, sort)
        }
        _ => false,
    }
}

/// Whether the arguments are these variables, in order, each of another name, at these sorts.
#[tactic(auto, using(crate::proofs::QuestionLemmas::sorts_differ, crate::proofs::QuestionLemmas::arguments_differ, crate::proofs::QuestionLemmas::other_variable, crate::proofs::QuestionLemmas::named_again, crate::proofs::QuestionLemmas::next_variable, crate::proofs::QuestionLemmas::no_more_variables))]
fn are_variables(bound: &[BoundVariable<'_>], sorts: &[Sort], arguments: &[Pattern]) -> bool
    ensures { result ≡ model.are_variables (map bound_view bound.now) (sorts_view sorts.now) (patterns_view arguments.now) }
{
    if bound.len() != sorts.len() {
        return false;
    }
    if bound.len() != arguments.len() {
        return false;
    }
    for i in 0..bound.len() {
        if !is_variable(&arguments[i], bound[i], &sorts[i]) {
            return false;
        }
        if is_bound(bound[i].name, &bound[i + 1..]) {
            return false;
        }
    }
    true
}

/// Whether an application's head is this constructor.
fn constructor_test(alloc: Global, symbol: &Name) -> Result<HeadTest, AllocError>
    ensures { IfOk result (λ t. test_view t ≡ one_head (string_bytes symbol.now)) }
{
    Ok(HeadTest::Constructor {
        symbol: Arc::new(alloc, symbol.clone()?)?,
    })
}

/// Whether the head is one of the sort's.
fn sort_test(alloc: Global, sort: &Sort) -> Result<HeadTest, AllocError>
    ensures { IfOk result (λ t. test_view t ≡ head_of_sort (sort_view sort.now)) }
{
    Ok(HeadTest::Sort {
        sort: Arc::new(alloc, sort.copy(alloc)?)?,
    })
}

/// The question for a constructor of the bound variables.
fn ask_constructor<'a>(
    alloc: Global,
    signature: &Signature,
    bound: &[BoundVariable<'_>],
    subject: &'a Pattern,
    meaning: Meaning,
    symbol: &Name,
    arguments: &[Pattern],
) -> Result<Option<HeadQuestion<'a>>, AllocError>
    ensures { let g = signature_view signature.now in IfOk result (λ q. option_map question_view q ≡ model.asked_constructor g (map bound_view bound.now) (view subject.now) (meaning_view meaning) (string_bytes symbol.now) (patterns_view arguments.now)) }
{
    match meaning {
        Meaning::Constructor => {
            if are_variables(bound, places_of(signature, symbol), arguments) {
                let test = constructor_test(alloc, symbol)?;
                return Ok(Some(HeadQuestion { subject, test }));
            }
            Ok(None)
        }
        Meaning::Injection | Meaning::Interpreted(_) | Meaning::Foreign => Ok(None),
    }
}

/// The question for a head of the bound variable's sort, as inj of it asks it.
#[tactic(auto, using(crate::proofs::QuestionLemmas::not_one_bound, crate::proofs::QuestionLemmas::no_sort_given, crate::proofs::QuestionLemmas::sort_asked, crate::proofs::QuestionLemmas::sort_not_asked))]
fn ask_sort<'a>(
    alloc: Global,
    bound: &[BoundVariable<'_>],
    subject: &'a Pattern,
    sorts: &[Sort],
    argument: &Pattern,
) -> Result<Option<HeadQuestion<'a>>, AllocError>
    ensures { IfOk result (λ q. option_map question_view q ≡ asked_sort (map bound_view bound.now) (view subject.now) (sorts_view sorts.now) (view argument.now)) }
{
    if bound.len() != 1 {
        return Ok(None);
    }
    if sorts.len() == 0 {
        return Ok(None);
    }
    if is_variable(argument, bound[0], &sorts[0]) {
        let test = sort_test(alloc, &sorts[0])?;
        return Ok(Some(HeadQuestion { subject, test }));
    }
    Ok(None)
}

/// The question that the one argument of inj asks: an application, or a variable.
#[tactic(auto, using(crate::proofs::QuestionLemmas::no_application))]
fn ask_argument<'a>(
    alloc: Global,
    signature: &Signature,
    bound: &[BoundVariable<'_>],
    subject: &'a Pattern,
    sorts: &[Sort],
    argument: &Pattern,
) -> Result<Option<HeadQuestion<'a>>, AllocError>
    ensures { let g = signature_view signature.now in IfOk result (λ q. option_map question_view q ≡ model.asked_under_inj g (map bound_view bound.now) (view subject.now) (sorts_view sorts.now) (next_pattern (view argument.now) no_patterns)) }
{
    match argument {
        Pattern::Application {
            symbol,
            arguments,
            ..
        } => {
            let meaning = meaning_of(signature, symbol);
            ask_constructor(alloc, signature, bound, subject, meaning, symbol, arguments)
        }
        _ => ask_sort(alloc, bound, subject, sorts, argument),
    }
}

/// The question that what stands under inj asks.
#[tactic(auto, using(crate::proofs::QuestionLemmas::one_argument, crate::proofs::QuestionLemmas::not_one_argument))]
fn ask_under_injection<'a>(
    alloc: Global,
    signature: &Signature,
    bound: &[BoundVariable<'_>],
    subject: &'a Pattern,
    sorts: &[Sort],
    arguments: &[Pattern],
) -> Result<Option<HeadQuestion<'a>>, AllocError>
    ensures { let g = signature_view signature.now in let bound' = map bound_view bound.now in IfOk result (λ q. option_map question_view q ≡ model.asked_under_inj g bound' (view subject.now) (sorts_view sorts.now) (patterns_view arguments.now)) }
{
    if arguments.len() == 1 {
        return ask_argument(alloc, signature, bound, subject, sorts, &arguments[0]);
    }
    Ok(None)
}

/// The question that an equality with an application asks.
fn ask_application<'a>(
    alloc: Global,
    signature: &Signature,
    bound: &[BoundVariable<'_>],
    subject: &'a Pattern,
    symbol: &Name,
    sorts: &[Sort],
    arguments: &[Pattern],
) -> Result<Option<HeadQuestion<'a>>, AllocError>
    ensures { let g = signature_view signature.now in IfOk result (λ q. option_map question_view q ≡ asked_of_application g (map bound_view bound.now) (view subject.now) (string_bytes symbol.now) (sorts_view sorts.now) (patterns_view arguments.now)) }
{
    match meaning_of(signature, symbol) {
        Meaning::Injection => ask_under_injection(
            alloc, signature, bound, subject, sorts, arguments,
        ),
        meaning => ask_constructor(alloc, signature, bound, subject, meaning, symbol, arguments),
    }
}

/// The question for a head of the bound variable's sort, as that variable asks it.
#[tactic(auto, using(crate::proofs::QuestionLemmas::not_one_bound, crate::proofs::QuestionLemmas::variable_asked, crate::proofs::QuestionLemmas::variable_not_asked))]
fn ask_variable<'a>(
    alloc: Global,
    bound: &[BoundVariable<'_>],
    subject: &'a Pattern,
    sort: &Sort,
    side: &Pattern,
) -> Result<Option<HeadQuestion<'a>>, AllocError>
    ensures { let bound' = map bound_view bound.now in let own = next_sort (sort_view sort.now) no_sorts in IfOk result (λ q. option_map question_view q ≡ asked_sort bound' (view subject.now) own (view side.now)) }
{
    if bound.len() != 1 {
        return Ok(None);
    }
    if is_variable(side, bound[0], sort) {
        let test = sort_test(alloc, sort)?;
        return Ok(Some(HeadQuestion { subject, test }));
    }
    Ok(None)
}

/// The question that the other side of an equality asks of this one.
fn ask_side<'a>(
    alloc: Global,
    signature: &Signature,
    bound: &[BoundVariable<'_>],
    subject: &'a Pattern,
    side: &Pattern,
) -> Result<Option<HeadQuestion<'a>>, AllocError>
    ensures { let g = signature_view signature.now in let bound' = map bound_view bound.now in IfOk result (λ q. option_map question_view q ≡ model.asked_side g bound' (view subject.now) (view side.now)) }
{
    match side {
        Pattern::Application {
            symbol,
            sorts,
            arguments,
        } => ask_application(alloc, signature, bound, subject, symbol, sorts, arguments),
        Pattern::Variable { sort, .. } => ask_variable(alloc, bound, subject, sort, side),
        _ => Ok(None),
    }
}

/// The question that it asks of a variable that isn't bound.
fn ask_unbound<'a>(
    alloc: Global,
    signature: &Signature,
    bound: &[BoundVariable<'_>],
    subject: &'a Pattern,
    side: &Pattern,
) -> Result<Option<HeadQuestion<'a>>, AllocError>
    ensures { let g = signature_view signature.now in let bound' = map bound_view bound.now in IfOk result (λ q. option_map question_view q ≡ model.asked_of_variable g bound' (view subject.now) (view side.now)) }
{
    match subject {
        Pattern::Variable { name, .. } => {
            if is_bound(name, bound) {
                return Ok(None);
            }
            ask_side(alloc, signature, bound, subject, side)
        }
        _ => Ok(None),
    }
}

/// The question that it asks of the argument of a symbol that is inj.
fn ask_injected<'a>(
    alloc: Global,
    signature: &Signature,
    bound: &[BoundVariable<'_>],
    meaning: Meaning,
    argument: &'a Pattern,
    side: &Pattern,
) -> Result<Option<HeadQuestion<'a>>, AllocError>
    ensures { let g = signature_view signature.now in let bound' = map bound_view bound.now in IfOk result (λ q. option_map question_view q ≡ model.under_injection (meaning_view meaning) (model.asked_of_variable g bound' (view argument.now) (view side.now))) }
{
    match meaning {
        Meaning::Injection => ask_unbound(alloc, signature, bound, argument, side),
        Meaning::Constructor | Meaning::Interpreted(_) | Meaning::Foreign => Ok(None),
    }
}

/// The question that it asks of a symbol's application.
#[tactic(auto, using(crate::proofs::QuestionLemmas::one_injected, crate::proofs::QuestionLemmas::not_one_injected))]
fn ask_under<'a>(
    alloc: Global,
    signature: &Signature,
    bound: &[BoundVariable<'_>],
    symbol: &Name,
    sorts: &[Sort],
    arguments: &'a [Pattern],
    side: &Pattern,
) -> Result<Option<HeadQuestion<'a>>, AllocError>
    ensures { let g = signature_view signature.now in let bound' = map bound_view bound.now in IfOk result (λ q. option_map question_view q ≡ model.question_of_sides g bound' (application (string_bytes symbol.now) (sorts_view sorts.now) (patterns_view arguments.now)) (view side.now)) }
{
    if arguments.len() == 1 {
        let meaning = meaning_of(signature, symbol);
        return ask_injected(alloc, signature, bound, meaning, &arguments[0], side);
    }
    Ok(None)
}

/// The question that the other side asks of a variable that isn't bound, as it stands or under inj.
fn ask_sides<'a>(
    alloc: Global,
    signature: &Signature,
    bound: &[BoundVariable<'_>],
    subject: &'a Pattern,
    side: &Pattern,
) -> Result<Option<HeadQuestion<'a>>, AllocError>
    ensures { let g = signature_view signature.now in let bound' = map bound_view bound.now in IfOk result (λ q. option_map question_view q ≡ model.question_of_sides g bound' (view subject.now) (view side.now)) }
{
    match subject {
        Pattern::Application {
            symbol,
            sorts,
            arguments,
        } => ask_under(alloc, signature, bound, symbol, sorts, arguments, side),
        Pattern::Variable { .. } => ask_unbound(alloc, signature, bound, subject, side),
        _ => Ok(None),
    }
}

/// The question that an equality asks under these bound variables: of the one side, else of the other.
fn ask_equality<'a>(
    alloc: Global,
    signature: &Signature,
    bound: &[BoundVariable<'_>],
    left: &'a Pattern,
    right: &'a Pattern,
) -> Result<Option<HeadQuestion<'a>>, AllocError>
    ensures { let g = signature_view signature.now in let bound' = map bound_view bound.now in let left' = view left.now in let right' = view right.now in IfOk result (λ q. option_map question_view q ≡ model.first_question (model.question_of_sides g bound' left' right') (model.question_of_sides g bound' right' left')) }
{
    match ask_sides(alloc, signature, bound, left, right)? {
        Some(question) => Ok(Some(question)),
        None => ask_sides(alloc, signature, bound, right, left),
    }
}

/// The question for a head that a quantified equality asks, under these bound variables.
#[cycle(question)]
pub fn head_question<'a>(
    pattern: &'a Pattern,
    alloc: Global,
    signature: &Signature,
    mut bound: Vec<BoundVariable<'a>>,
) -> Result<Option<HeadQuestion<'a>>, AllocError>
    ensures { IfOk result (λ q. option_map question_view q ≡ model.head_question (signature_view signature.now) (map bound_view bound.entry.items) (view pattern.now)) }
{
    match pattern {
        Pattern::Exists {
            name,
            name_sort,
            pattern,
            ..
        } => {
            bound.push(BoundVariable {
                name,
                sort: name_sort,
            })?;
            head_question(pattern, alloc, signature, bound)
        }
        Pattern::Equals { left, right, .. } => ask_equality(alloc, signature, &bound, left, right),
        Pattern::In { left, right, .. } => ask_equality(alloc, signature, &bound, left, right),
        _ => Ok(None),
    }
}

/// The question for a head whose opposite a pattern under \forall says, under these bound variables.
#[cycle(denied)]
pub fn denied_question<'a>(
    pattern: &'a Pattern,
    alloc: Global,
    signature: &Signature,
    mut bound: Vec<BoundVariable<'a>>,
) -> Result<Option<HeadQuestion<'a>>, AllocError>
    ensures { IfOk result (λ q. option_map question_view q ≡ model.denied_question (signature_view signature.now) (map bound_view bound.entry.items) (view pattern.now)) }
{
    match pattern {
        Pattern::Forall {
            name,
            name_sort,
            pattern,
            ..
        } => {
            bound.push(BoundVariable {
                name,
                sort: name_sort,
            })?;
            denied_question(pattern, alloc, signature, bound)
        }
        Pattern::Not { pattern, .. } => head_question(pattern, alloc, signature, bound),
        _ => Ok(None),
    }
}
