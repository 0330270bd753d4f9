// The sides of a claim, where it has the shape of one.
ghost use Rattle.std.specs.Prelude.{◌≡◌, ◌&&◌, Some, None, IfOk, IfErr, OnOk};
ghost use Rattle.std.specs.Option.{option_map, is_some};
ghost use Rattle.kp_kore.specs.View.{axiom_sentence_view};
ghost use Rattle.kp_claims.specs.Claims.{is_without_parameters};
ghost use Rattle.kp_claims.specs.Faults.{TellsOf};
ghost use Rattle.kp_claims.specs.Sides.{sides_view};
ghost use Rattle.kp_claim_sentences.specs.Claims.{dependencies_of, clear_sides as stated_clear, if_clear as stated_if_clear};
ghost use Rattle.kp_claim_sentences.specs.Faults.{shape_fault};

use crate::chosen::are_in_term;
use crate::depends::has_dependencies;
use crate::names::are_clear;
use kp_claims::outline::{ClaimOutline, is_one_path, sides_of};
use kp_claims::{ClaimError, ClaimFault};
use kp_kore::AxiomSentence;
use std::alloc::{AllocError, Global};

/// The sides of a claim; C1 where it speaks of one path, C2 where it has another shape.
pub fn outline<'a>(
    alloc: Global,
    statement: &'a AxiomSentence,
) -> Result<ClaimOutline<'a>, ClaimError>
    ensures ok { IfOk result (λ c. stated_clear (axiom_sentence_view statement.now) ≡ Some (sides_view c)) }
    ensures none { OnOk result (shape_fault (axiom_sentence_view statement.now) ≡ None) }
    ensures err { IfErr result (TellsOf (λ f. shape_fault (axiom_sentence_view statement.now) ≡ Some f)) }
{
    if is_one_path(&statement.pattern) {
        return Err(ClaimError::Fault(ClaimFault::OnePath));
    }
    match clear_sides(alloc, statement)? {
        Some(sides) => Ok(sides),
        None => Err(ClaimError::Fault(ClaimFault::OtherShape)),
    }
}

/// The sides of a claim without sort parameters, whose `depends` has a text and whose names are clear.
fn clear_sides<'a>(
    alloc: Global,
    statement: &'a AxiomSentence,
) -> Result<Option<ClaimOutline<'a>>, AllocError>
    ensures { IfOk result (λ o. option_map sides_view o ≡ stated_clear (axiom_sentence_view statement.now)) }
{
    if !has_read_head(statement) {
        return Ok(None);
    }
    match sides_of(&statement.pattern) {
        Some(sides) => if_clear(alloc, sides),
        None => Ok(None),
    }
}

/// Whether a claim has no sort parameters, and its `depends` a text.
fn has_read_head(statement: &AxiomSentence) -> bool
    ensures { let statement' = axiom_sentence_view statement.now in result ≡ (is_without_parameters statement'.parameters && is_some (dependencies_of statement'.attributes)) }
{
    statement.parameters.is_empty() && has_dependencies(&statement.attributes)
}

/// The sides, where their names are clear.
fn if_clear<'a>(
    alloc: Global,
    sides: ClaimOutline<'a>,
) -> Result<Option<ClaimOutline<'a>>, AllocError>
    ensures { IfOk result (λ o. option_map sides_view o ≡ stated_if_clear (Some (sides_view sides.entry))) }
{
    if !are_clear(alloc, sides)? {
        return Ok(None);
    }
    if !are_in_term(alloc, sides)? {
        return Ok(None);
    }
    Ok(Some(sides))
}
