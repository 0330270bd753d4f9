// From a rewrite axiom to its rule.
ghost use Rattle.std.specs.Prelude.{◌≡◌, ℕ, not, true, false, min, Some, None, Ok, Option, unwrap_or, IfOk, IfErr, OnOk, MatchBool, IsTrue};
ghost use Rattle.std.specs.List.{list_all, AllByRecursion};
ghost use Rattle.indexmap.specs.IndexSet.{contains_text};
ghost use Rattle.kp_kore.specs.Syntax.{KoreSort, rewriting};
ghost use Rattle.kp_kore.specs.Parts.{free_variables};
ghost use Rattle.kp_kore.specs.View.{view, sort_view, axiom_sentence_view};
ghost use Rattle.kp_kore.specs.Instance.{is_named};
ghost use Rattle.kp_kore.specs.Rules.{is_rewriting, constrained_term, foreign_rule, usual_priority, most_priority};
ghost use Rattle.kp_kore.specs.Foreign.{applies_undeclared, is_read_priority, none_within};
ghost use Rattle.kp_signature.specs.Faults.{fault_view};
ghost use Rattle.kp_signature.specs.Places.{the_top};
ghost use Rattle.kp_signature.specs.Verify.{first_fault};
ghost use Rattle.kp_signature.specs.View.{signature_view};
ghost use Rattle.kp_compile.specs.Verified.{misapplies_injection};
ghost use Rattle.kp_compile.specs.declared.error.CompileError.TheVariants as compiling;
ghost use Rattle.kp_rules.specs.Bodies.{IsReadAs, IsBodyOf, HasFault, IsFaulty};
ghost use Rattle.kp_rules.specs.Index.{IsIndexOf};
ghost use Rattle.kp_rule_reading.specs.Compiled.{IsKnownRight};
ghost use Rattle.kp_rule_reading.specs.Priorities.{Tells};
ghost use Rattle.kp_rule_reading.specs.ReadRules.{IsStatementRead, rule_error, IsReadBody, IsMadeOf, IsSound, IsShapeRead, IsLeftSideRead, is_left_read, is_predicate_read, is_side_read, RightPasses, is_binder as binder_test, is_top_pattern, is_plain_by, is_plain_over};
ghost use Rattle.kp_rules.specs.Shapes.{seen, rewrite_seen};
ghost use Rattle.kp_rule_reading.specs.declared.read.RuleError.TheVariants.{Memory, Fault};
ghost use Rattle.kp_rules.specs.declared.rule.RuleBody.TheVariants as body;
ghost use Rattle.kp_rules.specs.declared.skeleton.Skeleton.TheVariants as skeleton;

use crate::lone::is_lone_split;
use crate::names::{are_named, names_of, repeats_literals_only};
use crate::parts_read::{
    all_split, are_condition_parts, are_declared, are_read_parts, are_uninterpreted, inject_one,
};
use crate::priority::{Priority, USUAL_PRIORITY, priority_of};
use crate::rewrite_parts::compiled;
use kp_compile::{CompileError, NameSet, subpatterns};
use kp_kore::{AxiomSentence, Pattern, Sort};
use kp_rules::rule::{Rewrite, RuleBody};
use kp_rules::shape::{RuleSide, Shape, shape_of};
use kp_rules::skeleton::{Skeleton, skeleton_of_left};
use kp_rules::sort_index::SortIndex;
use kp_signature::{Signature, VerifyError, verify};
use std::alloc::{AllocError, Global};

/// Why a rewrite axiom makes no rule.
#[derive(Clone, Copy, Debug)]
pub enum RuleError {
    Memory,
    /// M6: the axiom has a verify fault (a name that nothing declares is one), or applies `inj` to another number of
    /// arguments than one, and isn't foreign.
    Fault,
}

impl From<AllocError> for RuleError {
    ghost use Rattle.std.specs.Prelude.{◌≡◌};
    ghost use Rattle.kp_rule_reading.specs.declared.read.RuleError.TheVariants as reading;

    ghost from_gives = { λ _ e. e ≡ reading.Memory };

    fn from(_error: AllocError) -> Self {
        RuleError::Memory
    }
}

/// The priority and the rule of an axiom whose pattern is a `\rewrites`. The priority is 50 where the text of
/// `priority{}` is no number, and 4294967295 where it is larger; such a rule is foreign. Of another axiom: that of a
/// rule about which nothing is known.
pub fn read_rule(
    alloc: Global,
    signature: &Signature,
    index: &SortIndex,
    statement: &AxiomSentence,
) -> Result<(u32, RuleBody), RuleError>
    requires index { IsIndexOf (signature_view signature.now) index.now }
    ensures read { let pattern' = view statement.now.pattern in let g = signature_view signature.now in IsTrue (is_rewriting pattern') → IfOk result (λ out. IsReadAs g (axiom_sentence_view statement.now) out.0 out.1) }
    ensures fault { let pattern' = view statement.now.pattern in IsTrue (is_rewriting pattern') → IfErr result (λ e. e ≡ Fault → IsFaulty (signature_view signature.now) (axiom_sentence_view statement.now)) }
    ensures unfaulty { let pattern' = view statement.now.pattern in IsTrue (is_rewriting pattern') → OnOk result (¬ IsFaulty (signature_view signature.now) (axiom_sentence_view statement.now)) }
    ensures other { is_rewriting (view statement.now.pattern) ≡ false → result ≡ Ok (usual_priority, body.Foreign skeleton.Anything) }
{
    match &statement.pattern {
        Pattern::Rewrites { sort, left, right } => {
            let body = body_of(alloc, signature, index, statement, sort, left, right)?;
            Ok((number_of(priority_of(&statement.attributes)), body))
        }
        _ => Ok((USUAL_PRIORITY, RuleBody::Foreign(Skeleton::Anything))),
    }
}

/// The number of a priority, else the one that a rule without it is kept with.
fn number_of(priority: Priority) -> u32
    ensures stated { (stated : Option ℕ) → Tells priority stated → IsTrue (is_read_priority stated) → stated ≡ Some result }
    ensures kept { (stated : Option ℕ) → Tells priority stated → min (unwrap_or stated usual_priority) most_priority ≡ result }
{
    match priority {
        Priority::Number(number) => number,
        Priority::TooLarge => u32::MAX,
        Priority::NoNumber => USUAL_PRIORITY,
    }
}

/// The body of the rule of a statement whose pattern is the `\rewrites` of these.
fn body_of(
    alloc: Global,
    signature: &Signature,
    index: &SortIndex,
    statement: &AxiomSentence,
    sort: &Sort,
    left: &Pattern,
    right: &Pattern,
) -> Result<RuleBody, RuleError>
    requires index { IsIndexOf (signature_view signature.now) index.now }
    requires sides { view statement.now.pattern ≡ rewriting (sort_view sort.now) (view left.now) (view right.now) }
    ensures read { IfOk result (IsReadBody (signature_view signature.now) (axiom_sentence_view statement.now)) }
    ensures fault { IfErr result (λ e. e ≡ Fault → IsFaulty (signature_view signature.now) (axiom_sentence_view statement.now)) }
    ensures unfaulty { OnOk result (¬ IsFaulty (signature_view signature.now) (axiom_sentence_view statement.now)) }
{
    if !is_read_statement(alloc, signature, index, statement)? {
        return foreign_body(alloc, signature, index, sort, left);
    }
    match read_shape(alloc, signature, index, left, right)? {
        Some(shape) => {
            check(alloc, signature, &statement.pattern)?;
            let rewrite = rewrite_from(alloc, signature, sort, &shape, right)?;
            Ok(RuleBody::Rewrite(rewrite))
        }
        None => foreign_body(alloc, signature, index, sort, left),
    }
}

/// The body of a rule that isn't read: what its left side may stand for.
fn foreign_body(
    alloc: Global,
    signature: &Signature,
    index: &SortIndex,
    sort: &Sort,
    left: &Pattern,
) -> Result<RuleBody, RuleError>
    requires index { IsIndexOf (signature_view signature.now) index.now }
    ensures body { let g = signature_view signature.now in IfOk result (IsBodyOf g (foreign_rule (record { sort = sort_view sort.now; term = constrained_term (view left.now) }))) }
    ensures fault { IfErr result (λ e. e ≡ Memory) }
{
    let skeleton = skeleton_of_left(alloc, signature, index, sort, left)?;
    Ok(RuleBody::Foreign(skeleton))
}

/// The axiom's pattern has no verify fault, applies `inj` to one argument alone, and no undeclared name.
fn check(alloc: Global, signature: &Signature, pattern: &Pattern) -> Result<(), RuleError>
    ensures verified { OnOk result (first_fault (signature_view signature.now) the_top (view pattern.now) ≡ None) }
    ensures injections { OnOk result (none_within (misapplies_injection (signature_view signature.now)) (view pattern.now) ≡ true) }
    ensures declared { OnOk result (none_within (applies_undeclared (signature_view signature.now)) (view pattern.now) ≡ true) }
    ensures fault { IfErr result (λ e. e ≡ Fault → HasFault (signature_view signature.now) (view pattern.now)) }
{
    check_verified(alloc, signature, pattern)?;
    let parts = subpatterns(alloc, pattern)?;
    if !are_declared(signature, &parts) {
        return Err(RuleError::Fault);
    }
    if inject_one(signature, &parts) {
        Ok(())
    } else {
        Err(RuleError::Fault)
    }
}

/// The pattern has no verify fault.
fn check_verified(alloc: Global, signature: &Signature, pattern: &Pattern) -> Result<(), RuleError>
    ensures verified { OnOk result (first_fault (signature_view signature.now) the_top (view pattern.now) ≡ None) }
    ensures fault { IfErr result (λ e. e ≡ Fault → HasFault (signature_view signature.now) (view pattern.now)) }
{
    match verify(alloc, signature, pattern) {
        Ok(_) => Ok(()),
        Err(error) => Err(fault_of(&error)),
    }
}

/// What the error of a verification says of the axiom.
fn fault_of(error: &VerifyError) -> RuleError
    ensures { result ≡ rule_error (fault_view error.now) }
{
    match error {
        VerifyError::Memory => RuleError::Memory,
        VerifyError::UnknownSort { .. }
        | VerifyError::UnknownSymbol { .. }
        | VerifyError::WrongNumber { .. }
        | VerifyError::SortDiffers { .. }
        | VerifyError::NumberTooWide { .. }
        | VerifyError::TermTooDeep
        | VerifyError::NoLiteral { .. } => RuleError::Fault,
    }
}

/// Whether what doesn't depend on the shape is read: no sort parameters, a priority that is a number and not too large,
/// and each part by itself.
fn is_read_statement(
    alloc: Global,
    signature: &Signature,
    index: &SortIndex,
    statement: &AxiomSentence,
) -> Result<bool, AllocError>
    requires index { IsIndexOf (signature_view signature.now) index.now }
    ensures { let statement' = axiom_sentence_view statement.now in let g = signature_view signature.now in IfOk result (λ b. MatchBool b (IsStatementRead g statement') (¬ IsStatementRead g statement')) }
{
    if !statement.parameters.is_empty() {
        return Ok(false);
    }
    if !is_number(priority_of(&statement.attributes)) {
        return Ok(false);
    }
    let parts = subpatterns(alloc, &statement.pattern)?;
    if !are_read_parts(signature, &parts) {
        return Ok(false);
    }
    all_split(alloc, signature, index, &parts)
}

/// Whether the priority is a number that is read.
fn is_number(priority: Priority) -> bool
    ensures { (stated : Option ℕ) → Tells priority stated → result ≡ is_read_priority stated }
{
    match priority {
        Priority::Number(_) => true,
        Priority::TooLarge => false,
        Priority::NoNumber => false,
    }
}

/// Whether the left term has no interpreted symbol, and repeats only variables of sorts with literals.
fn is_read_left(alloc: Global, signature: &Signature, left: &Pattern) -> Result<bool, AllocError>
    ensures { IfOk result (λ b. b ≡ is_left_read (signature_view signature.now) (view left.now)) }
{
    let parts = subpatterns(alloc, left)?;
    if !are_uninterpreted(signature, &parts) {
        return Ok(false);
    }
    let variables = left.free_vars(alloc)?;
    repeats_literals_only(alloc, signature, &variables)
}

/// Whether the predicate has no quantifiers, no `\floor` of a term, and no variables but these.
fn is_read_predicate(
    alloc: Global,
    predicate: &Pattern,
    names: &NameSet,
) -> Result<bool, AllocError>
    ensures { IfOk result (λ b. b ≡ is_predicate_read (contains_text names.now) (view predicate.now)) }
{
    let parts = subpatterns(alloc, predicate)?;
    if !are_condition_parts(&parts) {
        return Ok(false);
    }
    let variables = predicate.free_vars(alloc)?;
    Ok(are_named(&variables, names))
}

/// Whether each predicate of the condition is read over these variables.
fn is_read_condition(
    alloc: Global,
    condition: &[&Pattern],
    names: &NameSet,
) -> Result<bool, AllocError>
    ensures { IfOk result (λ b. b ≡ list_all (is_predicate_read (contains_text names.now)) (seen condition.now)) }
{
    for predicate in condition {
        if !is_read_predicate(alloc, predicate, names)? {
            return Ok(false);
        }
    }
    Ok(true)
}

/// Whether the left term is read, and the condition with no variables but those of the left term.
fn is_read_side(
    alloc: Global,
    signature: &Signature,
    side: &RuleSide<'_>,
) -> Result<bool, AllocError>
    ensures { IfOk result (λ b. b ≡ is_side_read (signature_view signature.now) (view side.now.term.now) (seen side.now.predicates.items)) }
{
    if !is_read_left(alloc, signature, side.term)? {
        return Ok(false);
    }
    let variables = side.term.free_vars(alloc)?;
    let names = names_of(alloc, &variables)?;
    is_read_condition(alloc, &side.predicates, &names)
}

/// Whether the left side is read: its term and its condition, and a variable alone as its term splits.
fn is_read_left_side(
    alloc: Global,
    signature: &Signature,
    index: &SortIndex,
    side: &RuleSide<'_>,
) -> Result<bool, AllocError>
    requires index { IsIndexOf (signature_view signature.now) index.now }
    ensures { let g = signature_view signature.now in let term' = view side.now.term.now in let condition' = seen side.now.predicates.items in IfOk result (λ b. MatchBool b (IsLeftSideRead g term' condition') (¬ IsLeftSideRead g term' condition')) }
{
    if !is_read_side(alloc, signature, side)? {
        return Ok(false);
    }
    is_lone_split(alloc, signature, index, side.term)
}

/// The parts of the sides, where they have the shape of a rule's, and the left side is read.
fn read_shape<'a>(
    alloc: Global,
    signature: &Signature,
    index: &SortIndex,
    left: &'a Pattern,
    right: &'a Pattern,
) -> Result<Option<Shape<'a>>, AllocError>
    requires index { IsIndexOf (signature_view signature.now) index.now }
    ensures { (s : KoreSort) → IfOk result (IsShapeRead (signature_view signature.now) (rewriting s (view left.now) (view right.now)) (view right.now)) }
{
    match shape_of(alloc, left, right)? {
        Some(shape) => {
            if !is_read_left_side(alloc, signature, index, &shape.left)? {
                return Ok(None);
            }
            Ok(Some(shape))
        }
        None => Ok(None),
    }
}

/// The rule of a verified axiom that is read.
fn rewrite_from(
    alloc: Global,
    signature: &Signature,
    sort: &Sort,
    shape: &Shape<'_>,
    right: &Pattern,
) -> Result<Rewrite, RuleError>
    requires condition { let left_variables = free_variables (view shape.now.left.term.now) in AllByRecursion (λ p. list_all (λ x. is_named x.name left_variables) (free_variables p) ≡ true) (seen shape.now.left.predicates.items) }
    requires right { RightPasses (view shape.now.left.term.now) (view right.now) (view shape.now.right.term.now) }
    requires known { IsKnownRight (rewrite_seen (view right.now) shape.now) }
    ensures made { let right' = view right.now in let shape' = rewrite_seen right' shape.now in IfOk result (λ w. IsMadeOf (signature_view signature.now) (sort_view sort.now) shape' w × (w.chooses ≡ not (is_plain_over shape'.left right' shape'.ensured))) }
    ensures sound { IfErr result (λ e. IsSound (signature_view signature.now) (rewrite_seen (view right.now) shape.now) → e ≡ Memory) }
{
    let chooses = chooses_beside(alloc, shape, right)?;
    match compiled(alloc, signature, sort, shape, right, chooses) {
        Ok(rewrite) => Ok(rewrite),
        Err(error) => Err(refused(&error)),
    }
}

/// What a refusal to compile says of the axiom: want of memory, which alone refuses a verified one, or a fault.
fn refused(error: &CompileError) -> RuleError
    ensures { error.now ≡ compiling.Memory → result ≡ Memory }
{
    match error {
        CompileError::Memory => RuleError::Memory,
        CompileError::Shape => RuleError::Fault,
    }
}

/// Whether the right side has a variable that the left term hasn't, or an ensured condition other than `\top`.
fn chooses_beside(alloc: Global, shape: &Shape<'_>, right: &Pattern) -> Result<bool, AllocError>
    ensures { IfOk result (λ b. b ≡ not (is_plain_over (view shape.now.left.term.now) (view right.now) (seen shape.now.right.predicates.items))) }
{
    let variables = shape.left.term.free_vars(alloc)?;
    let names = names_of(alloc, &variables)?;
    chooses(alloc, &shape.right.predicates, right, &names)
}

/// Whether the right side has a new variable, or an ensured condition other than `\top`.
fn chooses(
    alloc: Global,
    ensured: &[&Pattern],
    right: &Pattern,
    names: &NameSet,
) -> Result<bool, AllocError>
    ensures { IfOk result (λ b. b ≡ not (is_plain_by (contains_text names.now) (view right.now) (seen ensured.now))) }
{
    if is_binder(right) {
        return Ok(true);
    }
    if !are_tops(ensured) {
        return Ok(true);
    }
    let variables = right.free_vars(alloc)?;
    Ok(!are_named(&variables, names))
}

/// Whether it is `\exists`.
fn is_binder(pattern: &Pattern) -> bool
    ensures { result ≡ binder_test (view pattern.now) }
{
    match pattern {
        Pattern::Exists { .. } => true,
        _ => false,
    }
}

/// Whether it is `\top`.
fn is_top(pattern: &Pattern) -> bool
    ensures { result ≡ is_top_pattern (view pattern.now) }
{
    match pattern {
        Pattern::Top { .. } => true,
        _ => false,
    }
}

/// Whether each of them is `\top`.
fn are_tops(patterns: &[&Pattern]) -> bool
    ensures { result ≡ list_all is_top_pattern (seen patterns.now) }
{
    for pattern in patterns {
        if !is_top(pattern) {
            return false;
        }
    }
    true
}
