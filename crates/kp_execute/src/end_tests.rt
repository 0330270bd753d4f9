// What is tested of a run's end: what was added to parts can be written right, and no open call stands in a state.
ghost use Rattle.std.specs.Prelude.{◌≡◌, IfOk, IsTrue, true};
ghost use Rattle.std.specs.List.{AllByRecursion};
ghost use Rattle.kp_kore.specs.Syntax.{KoreSort};
ghost use Rattle.kp_kore.specs.Theory.{Theory};
ghost use Rattle.kp_kore.specs.Replies.{IsComputed};
ghost use Rattle.kp_results.specs.View.{state_view as parts_view};
ghost use Rattle.kp_signature.specs.View.{signature_view};
ghost use Rattle.kp_symbolic.specs.Languages.{language_view};
ghost use Rattle.kp_unify.specs.Views.{part_view};
ghost use Rattle.kp_execute.specs.Told.{AreTold, IsAddedRight, IsToldEnd};
ghost use Rattle.kp_execute.specs.Written.{pattern_of};

use crate::ending::Ending;
use crate::part_tests::{are_added_right, is_computed};
use kp_results::ReplyState;
use kp_signature::Signature;
use kp_step::Next;
use kp_symbolic::Language;
use kp_unify::Part;
use std::alloc::{AllocError, Global};

/// Whether each literal that was added is written right where there is room for new names. False, too, for want of memory.
fn is_added_right(alloc: Global, language: &Language, part: &Part) -> bool
    ensures { IsTrue result → IsAddedRight (language_view language.now) (part_view part.now) }
{
    match are_added_right(alloc, language, &part.added) {
        Ok(right) => right,
        Err(_error) => false,
    }
}

/// The same of the parts of these next states.
fn are_nexts_right(alloc: Global, language: &Language, nexts: &[Next]) -> bool
    ensures { IsTrue result → AllByRecursion (λ n. IsAddedRight (language_view language.now) (part_view n.part)) nexts.now }
{
    for next in nexts {
        if !is_added_right(alloc, language, &next.part) {
            return false;
        }
    }
    true
}

/// The same of these parts.
fn are_parts_right(alloc: Global, language: &Language, parts: &[Part]) -> bool
    ensures { IsTrue result → AllByRecursion (λ p. IsAddedRight (language_view language.now) (part_view p)) parts.now }
{
    for part in parts {
        if !is_added_right(alloc, language, part) {
            return false;
        }
    }
    true
}

/// Whether what was added to the parts of this end is written right. False, too, for want of memory.
pub fn is_end_right(alloc: Global, language: &Language, ending: &Ending) -> bool
    ensures { (t : Theory) → language_view language.now ≡ t.signature → IsTrue result → IsToldEnd t ending.now }
{
    match ending {
        Ending::Branching { nexts, remainder } => {
            are_nexts_right(alloc, language, nexts) && are_parts_right(alloc, language, remainder)
        }
        Ending::CutPoint { next } => is_added_right(alloc, language, &next.part),
        _ => true,
    }
}

/// Whether no open call stands in a state's term and predicate, but one of a number beyond 128 bits.
fn are_computed(
    alloc: Global,
    signature: &Signature,
    state: &ReplyState,
) -> Result<bool, AllocError>
    ensures { IfOk result (λ all. all ≡ true → (sort : KoreSort) → IsComputed (signature_view signature.now) (pattern_of sort (parts_view state.now))) }
{
    if !is_computed(alloc, signature, &state.term)? {
        return Ok(false);
    }
    match &state.predicate {
        Some(predicate) => is_computed(alloc, signature, predicate),
        None => Ok(true),
    }
}

/// The same. False, too, for want of memory.
pub fn is_state_computed(alloc: Global, signature: &Signature, state: &ReplyState) -> bool
    ensures { IsTrue result → (sort : KoreSort) → IsComputed (signature_view signature.now) (pattern_of sort (parts_view state.now)) }
{
    match are_computed(alloc, signature, state) {
        Ok(all) => all,
        Err(_error) => false,
    }
}
