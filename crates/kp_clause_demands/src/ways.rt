// The ways for what a literal says to hold, each a list of demands that are met together.
ghost use Rattle.std.specs.Prelude.{◌≡◌, ◌∷◌, ◌++◌, [], IfOk, OnOk};
ghost use Rattle.kp_kore.specs.HookView.{comparison_view};
ghost use Rattle.kp_signature.specs.View.{signature_view};
ghost use Rattle.kp_clause_demands.specs.Ways as spec;
ghost use Rattle.kp_clause_demands.specs.Ways.{items_of_ways, IsNear, AreNearIn};

use crate::places::{place_of_name, place_of_part, whole_number};
use crate::tokens::are_alike;
use crate::unknowns::Unknowns;
use crate::{ComparedPart, comparison_ways};
use kp_demands::Demand;
use kp_kore::Comparison;
use kp_literals::{LiteralForm, ReadLiteral, TokenPart, WholePart};
use kp_signature::Signature;
use kp_symbolic::Variable;
use std::alloc::{AllocError, Global};

/// One way without demands where it holds, else none.
fn decided(alloc: Global, holds: bool) -> Result<Vec<Vec<Demand>>, AllocError>
    ensures { IfOk result (λ ways. items_of_ways ways.items ≡ spec.decided holds) }
{
    let mut ways = Vec::new(alloc);
    if holds {
        ways.push(Vec::new(alloc))?;
    }
    Ok(ways)
}

/// One way of one demand.
fn one(alloc: Global, demand: Demand) -> Result<Vec<Vec<Demand>>, AllocError>
    ensures { IfOk result (λ ways. items_of_ways ways.items ≡ (demand ∷ []) ∷ []) }
{
    let mut way = Vec::new(alloc);
    way.push(demand)?;
    let mut ways = Vec::new(alloc);
    ways.push(way)?;
    Ok(ways)
}

/// A side with its number.
fn part(unknowns: &Unknowns, side: WholePart) -> ComparedPart
    ensures { result ≡ spec.part_of unknowns.now side.entry }
{
    ComparedPart {
        place: whole_number(&unknowns.wholes, side.variable),
        constant: side.constant,
    }
}

/// Whether neither side has a variable.
fn are_constants(first: WholePart, second: WholePart) -> bool
    ensures { result ≡ spec.are_constants first.entry second.entry }
{
    first.variable.is_none() && second.variable.is_none()
}

/// The ways for a comparison to hold. Of two constants it is decided.
fn comparing(
    alloc: Global,
    unknowns: &Unknowns,
    comparison: Comparison,
    first: WholePart,
    second: WholePart,
) -> Result<Vec<Vec<Demand>>, AllocError>
    requires { spec.AreSidesNear unknowns.now first second }
    ensures { IfOk result (λ ways. items_of_ways ways.items ≡ spec.comparing unknowns.now (comparison_view comparison) first.entry second.entry) }
{
    if are_constants(first, second) {
        return decided(alloc, comparison.holds(first.constant, second.constant));
    }
    comparison_ways(
        alloc,
        comparison,
        part(unknowns, first),
        part(unknowns, second),
    )
}

/// The number of a Boolean variable.
fn truth_number(unknowns: &Unknowns, variable: &Variable) -> usize
    ensures { result ≡ spec.truth_number unknowns.now variable.now }
{
    place_of_name(&unknowns.truths, &variable.name)
}

/// The number of a token.
fn token_number(unknowns: &Unknowns, part: TokenPart) -> usize
    ensures { result ≡ spec.token_number unknowns.now part.entry }
{
    place_of_part(&unknowns.tokens, part)
}

/// That two classes are one, or two.
fn equating(holds: bool, first: usize, second: usize) -> Demand
    ensures { result ≡ spec.equating holds first second }
{
    if holds {
        Demand::Same { first, second }
    } else {
        Demand::Apart { first, second }
    }
}

/// The ways for two tokens to be equal, or to differ. Tokens of two sorts differ.
fn token_ways(
    alloc: Global,
    signature: &Signature,
    unknowns: &Unknowns,
    holds: bool,
    first: TokenPart,
    second: TokenPart,
) -> Result<Vec<Vec<Demand>>, AllocError>
    ensures { IfOk result (λ ways. items_of_ways ways.items ≡ spec.token_ways (signature_view signature.now) unknowns.now holds first.entry second.entry) }
{
    if !are_alike(signature, first, second) {
        return decided(alloc, !holds);
    }
    let first = token_number(unknowns, first);
    let second = token_number(unknowns, second);
    one(alloc, equating(holds, first, second))
}

/// The ways for what a literal says to hold: heads and solved equations ask nothing of unknowns.
fn form_ways(
    alloc: Global,
    signature: &Signature,
    unknowns: &Unknowns,
    form: LiteralForm,
) -> Result<Vec<Vec<Demand>>, AllocError>
    requires { IsNear unknowns.now form }
    ensures { IfOk result (λ ways. items_of_ways ways.items ≡ spec.form_ways (signature_view signature.now) unknowns.now form.entry) }
{
    match form {
        LiteralForm::Compares {
            comparison,
            first,
            second,
        } => comparing(alloc, unknowns, comparison, first, second),
        LiteralForm::Truth { variable, value } => {
            let name = truth_number(unknowns, variable);
            one(alloc, Demand::Truth { name, value })
        }
        LiteralForm::Equates {
            holds,
            first,
            second,
        } => token_ways(alloc, signature, unknowns, holds, first, second),
        LiteralForm::Asks { .. } | LiteralForm::Gives { .. } => decided(alloc, true),
    }
}

/// The ways of a literal; one that isn't decided has none.
fn literal_ways(
    alloc: Global,
    signature: &Signature,
    unknowns: &Unknowns,
    form: Option<LiteralForm>,
) -> Result<Vec<Vec<Demand>>, AllocError>
    requires { spec.IsSaidNear unknowns.now form }
    ensures { IfOk result (λ ways. items_of_ways ways.items ≡ spec.said_ways (signature_view signature.now) unknowns.now form.entry) }
{
    match form {
        Some(form) => form_ways(alloc, signature, unknowns, form),
        None => Ok(Vec::new(alloc)),
    }
}

/// Adds the ways behind others.
fn add_all(ways: &mut Vec<Vec<Demand>>, more: Vec<Vec<Demand>>) -> Result<(), AllocError>
    ensures { OnOk result (items_of_ways ways.new.items ≡ items_of_ways ways.old.items ++ items_of_ways more.items) }
{
    for way in more {
        ways.push(way)?;
    }
    Ok(())
}

/// The ways of all literals of a clause.
pub fn clause_ways(
    alloc: Global,
    signature: &Signature,
    unknowns: &Unknowns,
    clause: &[ReadLiteral],
) -> Result<Vec<Vec<Demand>>, AllocError>
    requires { AreNearIn unknowns.now clause.now }
    ensures { IfOk result (λ ways. items_of_ways ways.items ≡ spec.clause_ways (signature_view signature.now) unknowns.now clause.now) }
{
    let mut ways = Vec::new(alloc);
    for literal in clause {
        let more = literal_ways(alloc, signature, unknowns, literal.form)?;
        add_all(&mut ways, more)?;
    }
    Ok(ways)
}
