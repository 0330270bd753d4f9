// An equality at a sort, and a Boolean expression, opened with a sign: members of constructors and the arguments of the
// Boolean functions are opened in turn.
ghost use Rattle.std.specs.Prelude.{◌≡◌, ℕ, ◌<◌, ◌≤◌, [], not, Bool, if◌then◌else◌, IfOk, map, string_bytes};
ghost use Rattle.kp_kore.specs.HookView.{hook_view, connective_view};
ghost use Rattle.kp_ground.specs.View.{value_view};
ghost use Rattle.kp_kore.specs.Attributes.{sorts_equal};
ghost use Rattle.kp_kore.specs.Hooks.{truth_negation};
ghost use Rattle.kp_kore.specs.Signature.{interpretation, meaning_of as named};
ghost use Rattle.kp_kore.specs.Syntax.{sort_of, sort_variable, no_sorts};
ghost use Rattle.kp_kore.specs.View.{sort_view, sorts_view};
ghost use Rattle.kp_signature.specs.View.{signature_view};
ghost use Rattle.kp_compile.specs.Spelled as spelled;
ghost use Rattle.kp_symbolic.specs.Formulas.{fact};
ghost use Rattle.kp_symbolic.specs.Opening as model;
ghost use Rattle.kp_symbolic.specs.View.{term_view, literal_view};
ghost use Rattle.kp_formulas.specs.Seen.{told, members_seen, seen_of, all_seen_of, connected_by, opened_constructed, opened_listed};
ghost use Rattle.kp_formulas.specs.FormulaView.{formula_view, formula_list};

use crate::equality_sides::{
    are_same, compared_at_once, constructor_of, fixed_or, is_never, keeps_truth, members_of,
    places_of, truth_known, unconstructed,
};
use crate::formula::{Formula, kept_fact, make_all_if, make_fixed};
use kp_ground::Value;
use kp_kore::{Connective, Hook, Name, Sort};
use kp_signature::{Function, Meaning, Signature, meaning_of};
use kp_symbolic::{Atom, Literal, Term};
use std::alloc::{AllocError, Global};
use std::sync::Arc;

/// A sort without arguments.
fn named_sort(alloc: Global, name: &Name) -> Result<Sort, AllocError>
    ensures { IfOk result (λ s. sort_view s ≡ sort_of (string_bytes name.now) no_sorts) }
{
    Ok(Sort::App {
        name: name.clone()?,
        arguments: Vec::new(alloc),
    })
}

/// A sort that no term has.
fn no_sort(alloc: Global) -> Sort
    ensures { sort_view result ≡ sort_variable [] }
{
    Sort::Variable {
        name: String::new(alloc),
    }
}

/// The truth sort; where there is none, no expression is Boolean.
fn truth_sort(alloc: Global, signature: &Signature) -> Result<Sort, AllocError>
    ensures { IfOk result (λ s. sort_view s ≡ model.truth_sort (signature_view signature.now)) }
{
    match signature.boolean_sort() {
        Some(name) => named_sort(alloc, name),
        None => Ok(no_sort(alloc)),
    }
}

/// The sort of both arguments of a symbol of two, if they have one.
#[tactic(auto, using(crate::proofs::Firsts::few_sorts, crate::proofs::Firsts::first_of_same, crate::proofs::Firsts::none_of_others))]
fn common_sort(alloc: Global, sorts: &[Sort]) -> Result<Sort, AllocError>
    ensures { IfOk result (λ s. sort_view s ≡ model.common_sort (sorts_view sorts.now)) }
{
    if sorts.len() < 2 {
        return Ok(no_sort(alloc));
    }
    if is_same_sort(&sorts[0], &sorts[1]) {
        return sorts[0].copy(alloc);
    }
    Ok(no_sort(alloc))
}

/// Whether both are the same sort.
pub fn is_same_sort(sort: &Sort, other: &Sort) -> bool
    ensures { result ≡ sorts_equal (sort_view sort.now) (sort_view other.now) }
{
    sort.equal(other)
}

/// The literal that the sides are equal at the sort, or aren't.
fn equality(
    alloc: Global,
    sign: bool,
    sort: Sort,
    left: &Term,
    right: &Term,
) -> Result<Literal, AllocError>
    ensures { IfOk result (λ l. fact (literal_view l) ≡ model.equality_fact sign (sort_view sort) (term_view left.now) (term_view right.now)) }
{
    let atom = Atom::Same {
        sort: Arc::new(alloc, sort)?,
        left: left.share(alloc)?,
        right: right.share(alloc)?,
    };
    Ok(Literal { holds: sign, atom })
}

/// The literal that a Boolean expression is true, or isn't.
fn truth_literal(
    alloc: Global,
    signature: &Signature,
    sign: bool,
    term: &Term,
) -> Result<Literal, AllocError>
    ensures { IfOk result (λ l. fact (literal_view l) ≡ model.is_true (signature_view signature.now) sign (term_view term.now)) }
{
    let sort = truth_sort(alloc, signature)?;
    let yes = Term::Known {
        value: Value::Truth { holds: true },
    };
    equality(alloc, sign, sort, term, &yes)
}

/// The literal that two members are equal at the sort of their place, or aren't.
fn member_equality(
    alloc: Global,
    sign: bool,
    sort: &Sort,
    left: &Term,
    right: &Term,
) -> Result<Literal, AllocError>
    ensures { IfOk result (λ l. fact (literal_view l) ≡ model.equality_fact sign (sort_view sort.now) (term_view left.now) (term_view right.now)) }
{
    equality(alloc, sign, sort.copy(alloc)?, left, right)
}

/// A Boolean expression, where this literal is kept if it isn't opened.
#[cycle(open)]
pub fn open_told(
    term: &Term,
    alloc: Global,
    signature: &Signature,
    alone: bool,
    sign: bool,
    kept: &Literal,
) -> Result<Formula, AllocError>
    ensures { let kept' = literal_view kept.now in IfOk result (λ f. formula_view f ≡ told alone sign (fact kept') (model.seen_term (signature_view signature.now) (term_view term.now))) }
{
    match term {
        Term::Known { value } => open_value(alloc, value, sign, kept),
        Term::Headed { symbol, arguments } => {
            open_call(arguments, alloc, signature, symbol, alone, sign, kept)
        }
        Term::Unknown { .. } | Term::Offset { .. } => kept_fact(alloc, kept),
    }
}

/// A value as a Boolean expression.
fn open_value(
    alloc: Global,
    value: &Value,
    sign: bool,
    kept: &Literal,
) -> Result<Formula, AllocError>
    ensures { (alone : Bool) → IfOk result (λ f. formula_view f ≡ told alone sign (fact (literal_view kept.now)) (model.seen_value (value_view value.now))) }
{
    match value {
        Value::Truth { holds } => make_fixed(alloc, *holds == sign),
        Value::Whole { .. } | Value::Token { .. } | Value::Constructed { .. } => {
            kept_fact(alloc, kept)
        }
    }
}

/// A call as a Boolean expression.
#[cycle(open)]
fn open_call(
    arguments: &[Term],
    alloc: Global,
    signature: &Signature,
    symbol: &str,
    alone: bool,
    sign: bool,
    kept: &Literal,
) -> Result<Formula, AllocError>
    ensures { let g = signature_view signature.now in let kept' = literal_view kept.now in IfOk result (λ f. formula_view f ≡ model.opened_call g (spelled.places_of g symbol.now) (named g symbol.now) (all_seen_of g arguments.now) alone sign (fact kept')) }
{
    match meaning_of(signature, symbol) {
        Meaning::Interpreted(Function::Negation) => {
            open_negation(arguments, alloc, signature, symbol, alone, sign, kept)
        }
        Meaning::Interpreted(Function::Two(hook)) => {
            open_two(arguments, alloc, signature, symbol, hook, alone, sign, kept)
        }
        Meaning::Injection | Meaning::Constructor | Meaning::Foreign => kept_fact(alloc, kept),
    }
}

/// The opposite of a Boolean expression.
#[cycle(open)]
#[tactic(auto, using(crate::proofs::SeenLemmas::negation_of_one, crate::proofs::SeenLemmas::negation_of_others, crate::proofs::Sizes::size_at))]
fn open_negation(
    arguments: &[Term],
    alloc: Global,
    signature: &Signature,
    symbol: &str,
    alone: bool,
    sign: bool,
    kept: &Literal,
) -> Result<Formula, AllocError>
    ensures { let g = signature_view signature.now in let kept' = literal_view kept.now in IfOk result (λ f. formula_view f ≡ model.opened_call g (spelled.places_of g symbol.now) (interpretation truth_negation) (all_seen_of g arguments.now) alone sign (fact kept')) }
{
    if arguments.len() == 1 {
        return open_asked(&arguments[0], alloc, signature, alone, !sign);
    }
    kept_fact(alloc, kept)
}

/// A call of two arguments as a Boolean expression.
#[cycle(open)]
#[tactic(auto, using(crate::proofs::SeenLemmas::are_two_seen, crate::proofs::SeenLemmas::compared_two, crate::proofs::SeenLemmas::connected_two, crate::proofs::SeenLemmas::call_of_others, crate::proofs::Sizes::size_of_two))]
fn open_two(
    arguments: &[Term],
    alloc: Global,
    signature: &Signature,
    symbol: &str,
    hook: Hook,
    alone: bool,
    sign: bool,
    kept: &Literal,
) -> Result<Formula, AllocError>
    ensures { let g = signature_view signature.now in let kept' = literal_view kept.now in IfOk result (λ f. formula_view f ≡ model.opened_call g (spelled.places_of g symbol.now) (interpretation (hook_view hook)) (all_seen_of g arguments.now) alone sign (fact kept')) }
{
    if arguments.len() != 2 {
        return kept_fact(alloc, kept);
    }
    let left = &arguments[0];
    let right = &arguments[1];
    match hook {
        Hook::Arithmetic(_) => kept_fact(alloc, kept),
        Hook::Comparison(comparison) => {
            let decided = compared_at_once(signature, comparison, left, right);
            fixed_or(alloc, decided, sign, kept)
        }
        Hook::Connective(connective) => {
            open_connected(left, right, alloc, signature, connective, alone, sign)
        }
        Hook::Equal => { open_compared(left, right, alloc, signature, symbol, alone, sign, kept) }
        Hook::Different => {
            open_compared(left, right, alloc, signature, symbol, alone, !sign, kept)
        }
    }
}

/// Whether two values are the same, at the sort of both arguments of the symbol.
#[cycle(open)]
fn open_compared(
    left: &Term,
    right: &Term,
    alloc: Global,
    signature: &Signature,
    symbol: &str,
    alone: bool,
    sign: bool,
    kept: &Literal,
) -> Result<Formula, AllocError>
    ensures { let g = signature_view signature.now in let kept' = literal_view kept.now in IfOk result (λ f. formula_view f ≡ model.opened_seen g alone sign (model.common_sort (spelled.places_of g symbol.now)) (fact kept') (seen_of g left.now) (seen_of g right.now)) }
{
    let sort = common_sort(alloc, places_of(signature, symbol))?;
    open_sides(left, right, alloc, signature, &sort, alone, sign, kept)
}

/// A Boolean function of two Boolean expressions.
#[cycle(open)]
fn open_connected(
    left: &Term,
    right: &Term,
    alloc: Global,
    signature: &Signature,
    connective: Connective,
    alone: bool,
    sign: bool,
) -> Result<Formula, AllocError>
    ensures { let g = signature_view signature.now in let connective' = connective_view connective in IfOk result (λ f. formula_view f ≡ connected_by g connective' alone sign (seen_of g left.now) (seen_of g right.now)) }
{
    match connective {
        Connective::Both => {
            open_pair(
                left,
                right,
                alloc,
                signature,
                alone && sign,
                sign,
                sign,
                sign,
            )
        }
        Connective::Either => {
            open_pair(
                left,
                right,
                alloc,
                signature,
                alone && !sign,
                sign,
                sign,
                !sign,
            )
        }
        Connective::Implies => {
            open_pair(
                left,
                right,
                alloc,
                signature,
                alone && !sign,
                !sign,
                sign,
                !sign,
            )
        }
        Connective::Same => open_agreement(left, right, alloc, signature, sign),
        Connective::Other => open_agreement(left, right, alloc, signature, !sign),
    }
}

/// A Boolean expression as a part of another.
#[cycle(open)]
#[tactic(auto, using(crate::proofs::SeenLemmas::told_when_asked))]
fn open_asked(
    term: &Term,
    alloc: Global,
    signature: &Signature,
    alone: bool,
    sign: bool,
) -> Result<Formula, AllocError>
    ensures { let g = signature_view signature.now in IfOk result (λ f. formula_view f ≡ model.asked g alone sign (model.seen_term g (term_view term.now))) }
{
    let kept = truth_literal(alloc, signature, sign, term)?;
    open_told(term, alloc, signature, alone, sign, &kept)
}

/// Both expressions, each with its sign, or one of them.
#[cycle(open)]
fn open_pair(
    left: &Term,
    right: &Term,
    alloc: Global,
    signature: &Signature,
    alone: bool,
    first: bool,
    second: bool,
    both: bool,
) -> Result<Formula, AllocError>
    ensures { let g = signature_view signature.now in let left' = seen_of g left.now in let right' = seen_of g right.now in IfOk result (λ f. formula_view f ≡ model.all_if both (model.pair (model.asked g alone first left') (model.asked g alone second right'))) }
{
    let mut parts = Vec::new(alloc);
    parts.push(open_asked(left, alloc, signature, alone, first)?)?;
    parts.push(open_asked(right, alloc, signature, alone, second)?)?;
    make_all_if(alloc, both, parts)
}

/// Both expressions are true, or both are false.
#[cycle(open)]
fn open_agreement(
    left: &Term,
    right: &Term,
    alloc: Global,
    signature: &Signature,
    sign: bool,
) -> Result<Formula, AllocError>
    ensures { let g = signature_view signature.now in let left' = term_view left.now in IfOk result (λ f. formula_view f ≡ model.opened_agreement g sign (model.seen_term g left') (model.seen_term g (term_view right.now))) }
{
    let mut parts = Vec::new(alloc);
    parts.push(open_pair(left, right, alloc, signature, false, false, sign, false)?)?;
    parts.push(open_pair(left, right, alloc, signature, false, true, !sign, false)?)?;
    make_all_if(alloc, true, parts)
}

/// An equality of two terms at a sort, where this literal is kept if it isn't opened.
#[cycle(open)]
#[tactic(auto, using(crate::proofs::SeenLemmas::same_sides, crate::proofs::SeenLemmas::truth_sides, crate::proofs::SeenLemmas::other_sides))]
fn open_sides(
    left: &Term,
    right: &Term,
    alloc: Global,
    signature: &Signature,
    sort: &Sort,
    alone: bool,
    sign: bool,
    kept: &Literal,
) -> Result<Formula, AllocError>
    ensures { let g = signature_view signature.now in let sort' = sort_view sort.now in let kept' = literal_view kept.now in IfOk result (λ f. formula_view f ≡ model.opened_seen g alone sign sort' (fact kept') (seen_of g left.now) (seen_of g right.now)) }
{
    if are_same(left, right) {
        return make_fixed(alloc, sign);
    }
    if signature.is_truth_sort(sort) {
        return open_truths(left, right, alloc, signature, alone, sign, kept);
    }
    open_constructed(left, right, alloc, signature, alone, sign, kept)
}

/// An equality of two terms of the truth sort that aren't the same.
#[cycle(open)]
#[tactic(auto, using(crate::proofs::SeenLemmas::right_truth, crate::proofs::SeenLemmas::left_truth, crate::proofs::SeenLemmas::kept_truth, crate::proofs::SeenLemmas::agreeing_truths))]
fn open_truths(
    left: &Term,
    right: &Term,
    alloc: Global,
    signature: &Signature,
    alone: bool,
    sign: bool,
    kept: &Literal,
) -> Result<Formula, AllocError>
    ensures { let g = signature_view signature.now in let kept' = literal_view kept.now in IfOk result (λ f. formula_view f ≡ model.opened_truths g alone sign (fact kept') (seen_of g left.now) (seen_of g right.now)) }
{
    if let Some(holds) = truth_known(right) {
        return open_told(left, alloc, signature, alone, holds == sign, kept);
    }
    if let Some(holds) = truth_known(left) {
        return open_told(right, alloc, signature, alone, holds == sign, kept);
    }
    if keeps_truth(left, right, alone && sign) {
        return kept_fact(alloc, kept);
    }
    open_agreement(left, right, alloc, signature, sign)
}

/// An equality of two terms of another sort that aren't the same.
#[cycle(open)]
#[tactic(auto, using(crate::proofs::SeenLemmas::one_constructor, crate::proofs::SeenLemmas::two_constructors, crate::proofs::SeenLemmas::left_constructor, crate::proofs::SeenLemmas::right_constructor, crate::proofs::SeenLemmas::no_constructor))]
fn open_constructed(
    left: &Term,
    right: &Term,
    alloc: Global,
    signature: &Signature,
    alone: bool,
    sign: bool,
    kept: &Literal,
) -> Result<Formula, AllocError>
    ensures { let g = signature_view signature.now in let kept' = literal_view kept.now in IfOk result (λ f. formula_view f ≡ opened_constructed g alone sign (fact kept') (term_view left.now) (term_view right.now)) }
{
    match constructor_of(signature, left) {
        Some(first) => match constructor_of(signature, right) {
            Some(second) => {
                if first.as_str() == second.as_str() {
                    open_alike(left, right, alloc, signature, first, alone && sign, sign)
                } else {
                    make_fixed(alloc, !sign)
                }
            }
            None => never_or(alloc, is_never(signature, left, right), sign, kept),
        },
        None => match constructor_of(signature, right) {
            Some(_) => never_or(alloc, is_never(signature, right, left), sign, kept),
            None => unconstructed(alloc, signature, sign, kept, left, right),
        },
    }
}

/// What is never true, with its sign, else the literal that is kept.
fn never_or(alloc: Global, never: bool, sign: bool, kept: &Literal) -> Result<Formula, AllocError>
    ensures { IfOk result (λ f. formula_view f ≡ (if never then model.fixed (not sign) else fact (literal_view kept.now))) }
{
    if never {
        return make_fixed(alloc, !sign);
    }
    kept_fact(alloc, kept)
}

/// An equality of two terms of one constructor, member by member.
#[cycle(open)]
#[tactic(auto, using(crate::proofs::Sizes::members_size))]
fn open_alike(
    left: &Term,
    right: &Term,
    alloc: Global,
    signature: &Signature,
    constructor: &str,
    alone: bool,
    sign: bool,
) -> Result<Formula, AllocError>
    ensures { let g = signature_view signature.now in let lefts = members_seen (seen_of g left.now) in let rights = members_seen (seen_of g right.now) in IfOk result (λ f. formula_view f ≡ opened_listed g alone sign constructor.now lefts rights) }
{
    let lefts = members_of(alloc, left)?;
    let rights = members_of(alloc, right)?;
    open_listed(&lefts, &rights, alloc, signature, constructor, alone, sign)
}

/// Equalities of members at the places of a constructor, all of them or one of their opposites.
#[cycle(open)]
fn open_listed(
    lefts: &[Term],
    rights: &[Term],
    alloc: Global,
    signature: &Signature,
    constructor: &str,
    alone: bool,
    sign: bool,
) -> Result<Formula, AllocError>
    ensures { let g = signature_view signature.now in let lefts' = all_seen_of g lefts.now in let rights' = all_seen_of g rights.now in IfOk result (λ f. formula_view f ≡ opened_listed g alone sign constructor.now lefts' rights') }
{
    let sorts = places_of(signature, constructor);
    let parts = open_members(lefts, rights, alloc, signature, sorts, alone, sign)?;
    make_all_if(alloc, sign, parts)
}

/// An equality of two members, at the sort of their place.
#[cycle(open)]
fn open_member(
    left: &Term,
    right: &Term,
    alloc: Global,
    signature: &Signature,
    sort: &Sort,
    alone: bool,
    sign: bool,
) -> Result<Formula, AllocError>
    ensures { let g = signature_view signature.now in let left' = term_view left.now in let right' = term_view right.now in IfOk result (λ f. formula_view f ≡ model.opened_same g alone sign (sort_view sort.now) left' right') }
{
    let kept = member_equality(alloc, sign, sort, left, right)?;
    open_sides(left, right, alloc, signature, sort, alone, sign, &kept)
}

/// The lesser of two numbers.
fn lesser(first: usize, second: usize) -> usize
    ensures first { result ≤ first }
    ensures second { result ≤ second }
    ensures reached { (i : ℕ) → i < first → i < second → i < result }
{
    if first < second {
        return first;
    }
    second
}

/// Equalities of members, one by one, at the sorts of their places.
#[cycle(open)]
#[tactic(auto, using(crate::proofs::Sizes::size_at))]
fn open_members(
    lefts: &[Term],
    rights: &[Term],
    alloc: Global,
    signature: &Signature,
    sorts: &[Sort],
    alone: bool,
    sign: bool,
) -> Result<Vec<Formula>, AllocError>
    ensures { let g = signature_view signature.now in let sorts' = sorts_view sorts.now in IfOk result (λ fs. map formula_view fs.items ≡ formula_list (model.opened_members g alone sign sorts' (all_seen_of g lefts.now) (all_seen_of g rights.now))) }
{
    let both = lesser(lefts.len(), rights.len());
    let most = lesser(both, sorts.len());
    let mut parts = Vec::new(alloc);
    for place in 0..most {
        let member = open_member(
            &lefts[place],
            &rights[place],
            alloc,
            signature,
            &sorts[place],
            alone,
            sign,
        )?;
        parts.push(member)?;
    }
    Ok(parts)
}

/// An equality of two terms at a sort, with a sign, as a clause's only literal or one of several.
pub fn open_same(
    alloc: Global,
    signature: &Signature,
    alone: bool,
    sign: bool,
    sort: &Sort,
    left: &Term,
    right: &Term,
) -> Result<Formula, AllocError>
    ensures { let g = signature_view signature.now in IfOk result (λ f. formula_view f ≡ model.opened_same g alone sign (sort_view sort.now) (term_view left.now) (term_view right.now)) }
{
    let kept = member_equality(alloc, sign, sort, left, right)?;
    open_sides(left, right, alloc, signature, sort, alone, sign, &kept)
}

/// A Boolean expression, with a sign, as a clause's only literal or one of several.
pub fn open_truth(
    alloc: Global,
    signature: &Signature,
    alone: bool,
    sign: bool,
    term: &Term,
) -> Result<Formula, AllocError>
    ensures { IfOk result (λ f. formula_view f ≡ model.opened_truth (signature_view signature.now) alone sign (term_view term.now)) }
{
    open_asked(term, alloc, signature, alone, sign)
}
