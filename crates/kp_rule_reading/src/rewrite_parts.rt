// The rule that the parts of a rewrite axiom make.
ghost use Rattle.std.specs.Prelude.{◌≡◌, true, false, IfOk, IfErr};
ghost use Rattle.std.specs.List.{list_all, AllByRecursion};
ghost use Rattle.kp_kore.specs.Parts.{free_variables};
ghost use Rattle.kp_kore.specs.View.{view, sort_view};
ghost use Rattle.kp_kore.specs.Instance.{is_named};
ghost use Rattle.kp_signature.specs.View.{signature_view};
ghost use Rattle.kp_compile.specs.Names.{names_seen};
ghost use Rattle.kp_compile.specs.declared.error.CompileError.TheVariants as compiling;
ghost use Rattle.kp_rules.specs.Shapes.{seen, rewrite_seen};
ghost use Rattle.kp_compile.specs.Exact.{are_named};
ghost use Rattle.kp_rule_reading.specs.Compiled.{IsKnownRight, IsRightOf, ArePartsOf};
ghost use Rattle.kp_rule_reading.specs.ReadRules.{IsMadeOf, IsSound};

use crate::choice::choice_of;
use crate::sides::sides_of;
use crate::sort_test::sort_tests;
use kp_compile::{CompileError, NameSet, compile_condition, compile_left, compile_term};
use kp_ground::{CompiledTerm, Condition};
use kp_kore::{Pattern, Sort};
use kp_rules::shape::Shape;
use kp_rules::{Rewrite, RightSide, SortTest};
use kp_signature::Signature;
use std::alloc::Global;

/// What is compiled of a rewrite beside its left term.
#[derive(Drop)]
pub struct Parts {
    pub tests: Vec<SortTest>,
    pub condition: Condition,
    pub right: CompiledTerm,
    pub choice: Option<RightSide>,
}

/// The rule that its parts make.
pub fn compiled(
    alloc: Global,
    signature: &Signature,
    sort: &Sort,
    shape: &Shape<'_>,
    right: &Pattern,
    chooses: bool,
) -> Result<Rewrite, CompileError>
    requires condition { let left_variables = free_variables (view shape.now.left.term.now) in AllByRecursion (λ p. list_all (λ x. is_named x.name left_variables) (free_variables p) ≡ true) (seen shape.now.left.predicates.items) }
    requires right { chooses ≡ false → list_all (λ x. is_named x.name (free_variables (view shape.now.left.term.now))) (free_variables (view shape.now.right.term.now)) ≡ true }
    requires known { IsKnownRight (rewrite_seen (view right.now) shape.now) }
    ensures made { let the_rewrite_seen = rewrite_seen (view right.now) shape.now in let g = signature_view signature.now in IfOk result (λ w. IsMadeOf g (sort_view sort.now) the_rewrite_seen w × (w.chooses ≡ chooses)) }
    ensures sound { IfErr result (λ e. IsSound (signature_view signature.now) (rewrite_seen (view right.now) shape.now) → e ≡ compiling.Memory) }
{
    let right_sort = sort.copy(alloc)?;
    let sides = sides_of(alloc, signature, shape, right)?;
    let (left, names) = compile_left(alloc, signature, shape.left.term)?;
    let parts = compile_parts(alloc, signature, shape, right, names, chooses)?;
    Ok(Rewrite {
        left,
        tests: parts.tests,
        condition: parts.condition,
        right: parts.right,
        right_sort,
        chooses,
        choice: parts.choice,
        sides,
    })
}

/// What is compiled beside a left term whose variables have these names.
fn compile_parts(
    alloc: Global,
    signature: &Signature,
    shape: &Shape<'_>,
    right: &Pattern,
    names: NameSet,
    chooses: bool,
) -> Result<Parts, CompileError>
    requires named { are_named (names_seen names) (free_variables (view shape.now.left.term.now)) ≡ true }
    requires known { IsKnownRight (rewrite_seen (view right.now) shape.now) }
    ensures made { let the_rewrite_seen = rewrite_seen (view right.now) shape.now in IfOk result (ArePartsOf (signature_view signature.now) (names_seen names) the_rewrite_seen chooses) }
    ensures sound { IfErr result (λ e. IsSound (signature_view signature.now) (rewrite_seen (view right.now) shape.now) → e ≡ compiling.Memory) }
{
    let tests = sort_tests(alloc, signature, &names, shape.left.term)?;
    let condition = compile_condition(alloc, signature, &names, &shape.left.predicates)?;
    let (term, choice) = compile_right(alloc, signature, shape, right, names, chooses)?;
    Ok(Parts {
        tests,
        condition,
        right: term,
        choice,
    })
}

/// The right term, and what is kept of the right side where the rule chooses.
fn compile_right(
    alloc: Global,
    signature: &Signature,
    shape: &Shape<'_>,
    right: &Pattern,
    names: NameSet,
    chooses: bool,
) -> Result<(CompiledTerm, Option<RightSide>), CompileError>
    requires named { are_named (names_seen names) (free_variables (view shape.now.left.term.now)) ≡ true }
    requires known { IsKnownRight (rewrite_seen (view right.now) shape.now) }
    ensures made { let the_rewrite_seen = rewrite_seen (view right.now) shape.now in IfOk result (λ o. IsRightOf (signature_view signature.now) (names_seen names) the_rewrite_seen chooses o.0 o.1) }
    ensures sound { IfErr result (λ e. IsSound (signature_view signature.now) (rewrite_seen (view right.now) shape.now) → e ≡ compiling.Memory) }
{
    let term = compile_term(alloc, signature, &names, shape.right.term)?;
    let choice = choice_of(alloc, signature, shape, right, names, chooses)?;
    Ok((term, choice))
}
