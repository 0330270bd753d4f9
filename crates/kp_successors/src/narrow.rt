// Numbers beyond 128 bits in the right term of a rule that chooses.
ghost use Rattle.std.specs.Prelude.{◌≡◌, true, false, OnOk, IfErr};
ghost use Rattle.std.specs.List.{list_all};
ghost use Rattle.kp_compile.specs.Names.{names_seen};
ghost use Rattle.kp_kore.specs.Instance.{Valuation};
ghost use Rattle.kp_ground.specs.Slots.{term_reads};
ghost use Rattle.kp_ground.specs.Solves.{Solves, bound_names};
ghost use Rattle.kp_ground.specs.Terms.{stays_narrow};
ghost use Rattle.kp_ground.specs.TermView.{term_view};
ghost use Rattle.kp_ground.specs.declared.evaluate.EvaluationError.TheVariants.{Number};
ghost use Rattle.kp_rules.specs.WideParts.{all_narrow};

use kp_ground::{Binding, CompiledTerm, EvaluationError};
use kp_rules::RightSide;
use std::alloc::Global;

/// No part of the right term in which no new variable stands computes a number beyond 128 bits.
pub fn narrow(alloc: Global, side: &RightSide, bindings: &[Binding]) -> Result<(), EvaluationError>
    requires { names_seen side.now.left_names ≡ bound_names bindings.now }
    ensures narrow { OnOk result ((v : Valuation) → Solves v bindings.now → all_narrow v side.now.parts.items ≡ true) }
    ensures wide { IfErr result (λ e. e ≡ Number → (v : Valuation) → Solves v bindings.now → all_narrow v side.now.parts.items ≡ false) }
{
    evaluate_each(alloc, &side.parts, bindings)
}

/// Each of the terms has a value under the bindings.
fn evaluate_each(
    alloc: Global,
    terms: &[CompiledTerm],
    bindings: &[Binding],
) -> Result<(), EvaluationError>
    requires { list_all (term_reads (bound_names bindings.now)) terms.now ≡ true }
    ensures narrow { OnOk result ((v : Valuation) → Solves v bindings.now → all_narrow v terms.now ≡ true) }
    ensures wide { IfErr result (λ e. e ≡ Number → (v : Valuation) → Solves v bindings.now → all_narrow v terms.now ≡ false) }
{
    for term in terms {
        evaluates(alloc, term, bindings)?;
    }
    Ok(())
}

/// The term has a value under the bindings.
fn evaluates(
    alloc: Global,
    term: &CompiledTerm,
    bindings: &[Binding],
) -> Result<(), EvaluationError>
    requires { term_reads (bound_names bindings.now) term.now ≡ true }
    ensures narrow { OnOk result ((v : Valuation) → Solves v bindings.now → stays_narrow v (term_view term.now) ≡ true) }
    ensures wide { IfErr result (λ e. e ≡ Number → (v : Valuation) → Solves v bindings.now → stays_narrow v (term_view term.now) ≡ false) }
{
    let _value = term.evaluate(alloc, bindings)?;
    Ok(())
}
