// Where a rule that is read fires.
ghost use Rattle.std.specs.Prelude.{◌≡◌, ◌↔◌, string_bytes, IfOk, IfErr, IsTrue, IfSome, MatchOption, true, false};
ghost use Rattle.std.specs.List.{AllByRecursion};
ghost use Rattle.kp_kore.specs.Signature.{KoreSignature};
ghost use Rattle.kp_signature.specs.View.{signature_view};
ghost use Rattle.kp_kore.specs.Value as model;
ghost use Rattle.kp_kore.specs.Instance.{Valuation};
ghost use Rattle.kp_ground.specs.Solves.{Solves, bound_names};
ghost use Rattle.kp_ground.specs.Matches.{IsSolvable};
ghost use Rattle.kp_ground.specs.Slots.{stands_at, left_variables};
ghost use Rattle.kp_ground.specs.Terms.{left_value};
ghost use Rattle.kp_ground.specs.LeftView.{left_view};
ghost use Rattle.kp_ground.specs.View.{value_view};
ghost use Rattle.kp_ground.specs.Conditions.{condition_narrow};
ghost use Rattle.kp_ground.specs.ConditionView.{condition_view};
ghost use Rattle.kp_ground.specs.declared.evaluate.EvaluationError.TheVariants.{Number};
ghost use Rattle.kp_rules.specs.Bound.{tests_read};
ghost use Rattle.kp_rules.specs.Heads.{HasHead, Meets, FindsFiring, IsWide, Binds, PassAs};

use crate::rule::{Rewrite, SortTest};
use crate::values::has_sort;
use kp_ground::binding::bound_at;
use kp_ground::{Binding, EvaluationError, Value};
use kp_signature::Signature;
use std::alloc::{AllocError, Global};

/// Whether a tested variable is bound to a value of its sort.
fn passes(
    test: &SortTest,
    alloc: Global,
    signature: &Signature,
    bindings: &[Binding],
) -> Result<bool, AllocError>
    requires { stands_at (bound_names bindings.now) (string_bytes test.now.name) test.now.slot ≡ true }
    ensures { IfOk result (λ b. (v : Valuation) → Solves v bindings.now → IsTrue b ↔ HasHead (signature_view signature.now) v test.now) }
{
    let value = bound_at(bindings, test.slot);
    Ok(has_sort(alloc, signature, value, &test.sort)?)
}

/// The same of all tested variables.
fn pass(
    tests: &[SortTest],
    alloc: Global,
    signature: &Signature,
    bindings: &[Binding],
) -> Result<bool, AllocError>
    requires { tests_read (bound_names bindings.now) tests.now ≡ true }
    ensures { IfOk result (λ b. (v : Valuation) → Solves v bindings.now → IsTrue b ↔ AllByRecursion (HasHead (signature_view signature.now) v) tests.now) }
{
    for test in tests {
        let passed = passes(test, alloc, signature, bindings)?;
        if !passed {
            return Ok(false);
        }
    }
    Ok(true)
}

impl Rewrite {
    /// The bindings under which the rule fires on the value: the left term's instance is the value, the tested variables
    /// have values of their sorts, and the condition holds.
    pub fn fires(
        &self,
        alloc: Global,
        signature: &Signature,
        value: &Value,
    ) -> Result<Option<Vec<Binding>>, EvaluationError>
        ensures firing { FindsFiring result (signature_view signature.now) self.now (value_view value.now) }
        ensures solvable { IfOk result (λ o. IfSome o (λ new. IsSolvable new.items)) }
        ensures bound { IfOk result (λ o. IfSome o (λ new. bound_names new.items ≡ left_variables self.now.left)) }
        ensures number { IfErr result (λ e. e ≡ Number → IsWide (signature_view signature.now) self.now (value_view value.now)) }
        ensures narrow { let g = signature_view signature.now in let value' = value_view value.now in IfOk result (λ o. (v : Valuation) → Meets g self.now v value' → condition_narrow v (condition_view self.now.condition) ≡ true) }
    {
        match self.left.match_value(alloc, value, Vec::new(alloc))? {
            Some(bindings) => self.fires_with(alloc, signature, bindings),
            None => Ok(None),
        }
    }

    /// The bindings of a match, where the tests pass and the condition holds.
    fn fires_with(
        &self,
        alloc: Global,
        signature: &Signature,
        bindings: Vec<Binding>,
    ) -> Result<Option<Vec<Binding>>, EvaluationError>
        requires { bound_names bindings.items ≡ left_variables self.now.left }
        ensures bound { IfOk result (λ o. IfSome o (λ new. bound_names new.items ≡ left_variables self.now.left)) }
        ensures solvable { IsSolvable bindings.items → IfOk result (λ o. IfSome o (λ new. IsSolvable new.items)) }
        ensures firing { (u : model.Value) → Binds self.now bindings.items u → IsSolvable bindings.items → FindsFiring result (signature_view signature.now) self.now u }
        ensures number { let g = signature_view signature.now in (u : model.Value) → Binds self.now bindings.items u → IsSolvable bindings.items → IfErr result (λ e. e ≡ Number → IsWide g self.now u) }
        ensures narrow { let g = signature_view signature.now in (u : model.Value) → Binds self.now bindings.items u → IfOk result (λ o. (v : Valuation) → Meets g self.now v u → condition_narrow v (condition_view self.now.condition) ≡ true) }
    {
        let passed = pass(&self.tests, alloc, signature, &bindings)?;
        self.fires_where(alloc, passed, bindings)
    }

    /// What the rule's variables are bound to, where its condition holds under these bindings.
    fn fires_where(
        &self,
        alloc: Global,
        passed: bool,
        bindings: Vec<Binding>,
    ) -> Result<Option<Vec<Binding>>, EvaluationError>
        requires { bound_names bindings.items ≡ left_variables self.now.left }
        ensures bound { IfOk result (λ o. IfSome o (λ new. bound_names new.items ≡ left_variables self.now.left)) }
        ensures solvable { IsSolvable bindings.items → IfOk result (λ o. IfSome o (λ new. IsSolvable new.items)) }
        ensures firing { let found = bindings.items in (g : KoreSignature) (u : model.Value) → Binds self.now found u → PassAs g self.now found passed → IsSolvable found → FindsFiring result g self.now u }
        ensures number { let found = bindings.items in (g : KoreSignature) (u : model.Value) → Binds self.now found u → PassAs g self.now found passed → IsSolvable found → IfErr result (λ e. e ≡ Number → IsWide g self.now u) }
        ensures narrow { let found = bindings.items in (g : KoreSignature) (u : model.Value) → Binds self.now found u → PassAs g self.now found passed → IfOk result (λ o. (v : Valuation) → Meets g self.now v u → condition_narrow v (condition_view self.now.condition) ≡ true) }
    {
        if !passed {
            return Ok(None);
        }
        match self.condition.holds(alloc, &bindings) {
            Ok(holds) => Ok(keep_if(holds, bindings)),
            Err(error) => Err(error),
        }
    }
}

/// The bindings where this is so.
fn keep_if(is_so: bool, bindings: Vec<Binding>) -> Option<Vec<Binding>>
    ensures { MatchOption result (is_so ≡ false) (λ kept. (kept.items ≡ bindings.items) × (is_so ≡ true)) }
{
    if is_so { Some(bindings) } else { None }
}
