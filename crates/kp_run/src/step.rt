ghost use Rattle.std.specs.Prelude.{◌≡◌, ◌↔◌, ◌++◌, List, [], ◌∷◌, IfOk, IfErr, IsTrue, MatchOption, false, slice_get};
ghost use Rattle.std.specs.List.{AllByRecursion};
ghost use Rattle.kp_kore.specs.Syntax.{KoreSort};
ghost use Rattle.kp_kore.specs.Signature.{KoreSignature};
ghost use Rattle.kp_kore.specs.View.{sort_view};
ghost use Rattle.kp_signature.specs.View.{signature_view};
ghost use Rattle.kp_kore.specs.Value as model;
ghost use Rattle.kp_kore.specs.Value.{HasSort};
ghost use Rattle.kp_kore.specs.Sorted.{IsSorted};
ghost use Rattle.kp_kore.specs.Theory.{Theory};
ghost use Rattle.kp_kore.specs.Steps.{AnyByRecursion, IsUnknown};
ghost use Rattle.kp_kore.specs.Instance.{Valuation};
ghost use Rattle.kp_ground.specs.Solves.{Solves};
ghost use Rattle.kp_ground.specs.View.{value_view};
ghost use Rattle.kp_rule_sets.specs.RuleSets.{RunsAs};
ghost use Rattle.kp_rule_sets.specs.Turns.{with_first};
ghost use Rattle.kp_run.specs.Causes.{TwoAmong, IsWrittenAt, IsNotStepped, StopsUntold};
ghost use Rattle.kp_run.specs.Runs.{IsNext, IsWrittenNext, written_of};
ghost use Rattle.kp_run.specs.Shallow.{HasDepths, IsMatchOf, left_instance, right_instance};
ghost use Rattle.kp_run.specs.Turns.{BodyFires, BodyIsWide, MightRewrite, IsFirstForeign, TellsForeign, GoesNotBefore, FiresAt, IsFiring, TellsFiring, TakesRuleAt, IsTurn, IsAfterFiring, IsFollowed, NotFollowed};
ghost use Rattle.kp_run.specs.View.{AreDepthsOf};
ghost use Rattle.kp_run.specs.declared.step.GroundNext.TheVariants.{Stepped};
ghost use Rattle.kp_run.specs.declared.step.Turn.TheVariants.{One};
ghost use Rattle.kp_run.specs.declared.error.RunError.TheVariants.{NotAnswered};

use crate::error::RunError;
use crate::firing::GroundFiring;
use crate::fit::parts_fit;
use crate::{Depths, bound_depths, depths_of, is_shallow_at, right_depths};
use kp_compile::GroundState;
use kp_ground::Value;
use kp_kore::Sort;
use kp_rule_sets::{RuleSet, head_of};
use kp_rules::{Rule, RuleBody};
use kp_signature::Signature;
use std::alloc::{AllocError, Global};

/// What comes after a state.
#[derive(Drop)]
pub enum GroundNext {
    /// Nothing: no rule fires, and no foreign rule might.
    Stuck,
    /// A foreign rule might rewrite it: the rule's id.
    ForeignRule { id: String },
    /// The only state that follows, and the depths of its value.
    Stepped { state: GroundState, depths: Depths },
}

/// What the rules that fire come to.
#[derive(Drop)]
enum Turn<'a> {
    Nobody,
    One(GroundFiring<'a>),
    Several(u32),
}

/// Whether a rule is foreign and might rewrite the value.
fn might_rewrite(
    alloc: Global,
    signature: &Signature,
    body: &RuleBody,
    value: &Value,
) -> Result<bool, AllocError>
    ensures { let g = signature_view signature.now in let value' = value_view value.now in IsSorted g value' → IfOk result (λ b. IsTrue b ↔ MightRewrite g value' body.now) }
{
    match body {
        RuleBody::Rewrite(_) => Ok(false),
        RuleBody::Foreign(skeleton) => skeleton.admits(alloc, signature, value),
    }
}

/// Of a foreign rule and those before it, the one that is told: of the smallest priority number the first.
fn told_of<'a>(first: Option<&'a Rule>, rule: &'a Rule) -> &'a Rule
    ensures { (g : KoreSignature) (u : model.Value) (rules : List Rule) → let asked = rules ++ rule.now ∷ [] in TellsForeign g u rules first.entry → MightRewrite g u rule.now.body.value → IsFirstForeign g u result.now asked }
{
    match first {
        Some(first) => {
            if rule.priority < first.priority {
                rule
            } else {
                first
            }
        }
        None => rule,
    }
}

/// The foreign rule that is told, when one more rule is asked.
fn told_after<'a>(first: Option<&'a Rule>, rule: &'a Rule, might: bool) -> Option<&'a Rule>
    ensures { (g : KoreSignature) (u : model.Value) (rules : List Rule) → let asked = rules ++ rule.now ∷ [] in TellsForeign g u rules first.entry → IsTrue might ↔ MightRewrite g u rule.now.body.value → TellsForeign g u asked result }
{
    if might {
        return Some(told_of(first, rule));
    }
    first
}

/// The foreign rule that is told, when the rule at one more place is asked.
fn told_with<'a>(
    alloc: Global,
    rules: &'a RuleSet,
    place: usize,
    value: &Value,
    first: Option<&'a Rule>,
) -> Result<Option<&'a Rule>, AllocError>
    ensures { let g = signature_view rules.now.signature.value in let value' = value_view value.now in
        IsSorted g value' →
        IfOk result (λ next. TakesRuleAt rules.now.rules.items place (λ rs. TellsForeign g value' rs first.entry) (λ rs. TellsForeign g value' rs next)) }
{
    match rules.rule_at(place) {
        Some(rule) => {
            let might = might_rewrite(alloc, &rules.signature, &rule.body, value)?;
            Ok(told_after(first, rule, might))
        }
        None => Ok(first),
    }
}

/// The foreign rule that is told of those that might rewrite the value: of the smallest priority number the first. Rules
/// of other heads aren't looked at.
pub fn foreign_on<'a>(
    alloc: Global,
    rules: &'a RuleSet,
    value: &Value,
) -> Result<Option<&'a Rule>, AllocError>
    ensures { let g = signature_view rules.now.signature.value in let value' = value_view value.now in IsSorted g value' → IfOk result (TellsForeign g value' rules.now.rules.items) }
{
    let mut places = rules.rules_at(&head_of(value));
    let mut first = None;
    while let Some(place) = places.next() {
        first = told_with(alloc, rules, place, value, first)?;
    }
    Ok(first)
}

/// Who has the turn of two rules that fire: the smaller priority number.
fn sooner<'a>(first: GroundFiring<'a>, second: GroundFiring<'a>) -> Turn<'a>
    ensures { (g : KoreSignature) (u : model.Value) (rules : List Rule) (r : Rule) → let asked = rules ++ r ∷ [] in IsTurn g u rules (One first.entry) → IsFiring g u second.entry r → IsTurn g u asked result }
{
    if first.priority < second.priority {
        return Turn::One(first);
    }
    if second.priority < first.priority {
        return Turn::One(second);
    }
    Turn::Several(first.priority)
}

/// Who has the turn when one more rule fires beside several of this priority number.
fn beside_several<'a>(priority: u32, firing: GroundFiring<'a>) -> Turn<'a>
    ensures { (g : KoreSignature) (u : model.Value) (rules : List Rule) (r : Rule) → let asked = rules ++ r ∷ [] in AllByRecursion (GoesNotBefore g u priority) rules → TwoAmong (FiresAt g u priority) rules → IsFiring g u firing.entry r → IsTurn g u asked result }
{
    if firing.priority < priority {
        return Turn::One(firing);
    }
    Turn::Several(priority)
}

/// Who has the turn when one more rule fires.
fn joined<'a>(turn: Turn<'a>, firing: GroundFiring<'a>) -> Turn<'a>
    ensures { (g : KoreSignature) (u : model.Value) (rules : List Rule) (r : Rule) → let asked = rules ++ r ∷ [] in IsTurn g u rules turn.entry → IsFiring g u firing.entry r → IsTurn g u asked result }
{
    match turn {
        Turn::Nobody => Turn::One(firing),
        Turn::One(first) => sooner(first, firing),
        Turn::Several(priority) => beside_several(priority, firing),
    }
}

/// The rule's firing on a value, where it fires.
fn firing_of<'a>(
    alloc: Global,
    signature: &Signature,
    rule: &'a Rule,
    value: &Value,
) -> Result<Option<GroundFiring<'a>>, RunError>
    ensures firing { let g = signature_view signature.now in let value' = value_view value.now in IfOk result (λ o. MatchOption o (¬ BodyFires g value' rule.now.body.value) (λ f. IsFiring g value' f rule.now)) }
    ensures wide { IfErr result (λ e. e ≡ NotAnswered → BodyIsWide (signature_view signature.now) (value_view value.now) rule.now.body.value) }
    ensures narrow { IfOk result (λ _. ¬ BodyIsWide (signature_view signature.now) (value_view value.now) rule.now.body.value) }
{
    match &*rule.body {
        RuleBody::Foreign(_) => Ok(None),
        RuleBody::Rewrite(rewrite) => match rewrite.fires(alloc, signature, value)? {
            Some(bindings) => Ok(Some(GroundFiring {
                priority: rule.priority,
                rewrite,
                bindings,
            })),
            None => Ok(None),
        },
    }
}

/// Who has the turn when one more rule is asked.
fn turn_after<'a>(turn: Turn<'a>, firing: Option<GroundFiring<'a>>) -> Turn<'a>
    ensures { (g : KoreSignature) (u : model.Value) (rules : List Rule) (r : Rule) → let asked = rules ++ r ∷ [] in IsTurn g u rules turn.entry → TellsFiring g u firing.entry r → IsTurn g u asked result }
{
    match firing {
        Some(firing) => joined(turn, firing),
        None => turn,
    }
}

/// Who has the turn when the rule at one more place is asked.
fn turn_with<'a>(
    alloc: Global,
    rules: &'a RuleSet,
    place: usize,
    value: &Value,
    turn: Turn<'a>,
) -> Result<Turn<'a>, RunError>
    ensures turn { let g = signature_view rules.now.signature.value in let value' = value_view value.now in IfOk result (λ next. TakesRuleAt rules.now.rules.items place (λ rs. IsTurn g value' rs turn.entry) (λ rs. IsTurn g value' rs next)) }
    ensures wide { let g = signature_view rules.now.signature.value in let value' = value_view value.now in IfErr result (λ e. e ≡ NotAnswered → AnyByRecursion (λ r. BodyIsWide g value' r.body.value) rules.now.rules.items) }
    ensures narrow { let g = signature_view rules.now.signature.value in let value' = value_view value.now in let asked = with_first (slice_get rules.now.rules.items place) [] in IfOk result (λ _. AllByRecursion (λ r. ¬ BodyIsWide g value' r.body.value) asked) }
{
    match rules.rule_at(place) {
        Some(rule) => {
            let firing = firing_of(alloc, &rules.signature, rule, value)?;
            Ok(turn_after(turn, firing))
        }
        None => Ok(turn),
    }
}

/// Whether a rule may fire on a value: each that fires may, and each whose condition computes a number beyond 128 bits.
/// No variable is bound.
fn may_fire(body: &RuleBody, value: &Value) -> bool
    ensures fires { (g : KoreSignature) → BodyFires g (value_view value.now) body.now → IsTrue result }
    ensures wide { (g : KoreSignature) → BodyIsWide g (value_view value.now) body.now → IsTrue result }
{
    match body {
        RuleBody::Rewrite(rewrite) => parts_fit(&rewrite.left, value),
        RuleBody::Foreign(_) => false,
    }
}

/// Whether the rule at a place is to be matched.
fn is_to_match(rules: &RuleSet, place: usize, value: &Value) -> bool
    ensures rests { let value' = value_view value.now in let asked = with_first (slice_get rules.now.rules.items place) [] in (g : KoreSignature) → result ≡ false → AllByRecursion (λ r. ¬ BodyFires g value' r.body.value) asked }
    ensures narrow { let value' = value_view value.now in let asked = with_first (slice_get rules.now.rules.items place) [] in (g : KoreSignature) → result ≡ false → AllByRecursion (λ r. ¬ BodyIsWide g value' r.body.value) asked }
{
    match rules.rule_at(place) {
        Some(rule) => may_fire(&rule.body, value),
        None => false,
    }
}

/// The rules that have their turn on a value. Rules of other heads aren't looked at, nor matched those of other parts.
fn turn_on<'a>(alloc: Global, rules: &'a RuleSet, value: &Value) -> Result<Turn<'a>, RunError>
    ensures turn { IfOk result (λ turn. IsTurn (signature_view rules.now.signature.value) (value_view value.now) rules.now.rules.items turn) }
    ensures wide { let g = signature_view rules.now.signature.value in let value' = value_view value.now in IfErr result (λ e. e ≡ NotAnswered → AnyByRecursion (λ r. BodyIsWide g value' r.body.value) rules.now.rules.items) }
    ensures narrow { let g = signature_view rules.now.signature.value in let value' = value_view value.now in IfOk result (λ _. AllByRecursion (λ r. ¬ BodyIsWide g value' r.body.value) rules.now.rules.items) }
{
    let mut places = rules.rules_at(&head_of(value));
    let mut turn = Turn::Nobody;
    while let Some(place) = places.next() {
        if is_to_match(rules, place, value) {
            turn = turn_with(alloc, rules, place, value, turn)?;
        }
    }
    Ok(turn)
}

/// The sort that a rule's right side is written at: the state's, where the rule's own is it or below it.
fn written_sort(
    alloc: Global,
    signature: &Signature,
    right: &Sort,
    state: &Sort,
) -> Result<Sort, AllocError>
    ensures sort { (u : model.Value) → HasSort (signature_view signature.now) (sort_view right.now) u → IfOk result (λ s. HasSort (signature_view signature.now) (sort_view s) u) }
    ensures written { IfOk result (λ s. IsWrittenAt (signature_view signature.now) (sort_view right.now) (sort_view state.now) (sort_view s)) }
{
    if right.equal(state) {
        return right.copy(alloc);
    }
    if signature.subsort(right, state) {
        return state.copy(alloc);
    }
    right.copy(alloc)
}

/// What comes after a state: a foreign rule is told before any condition is looked at.
pub fn next_state(
    alloc: Global,
    rules: &RuleSet,
    state: &GroundState,
) -> Result<GroundNext, RunError>
    ensures next { (t : Theory) → RunsAs t rules.now → IsSorted t.signature (value_view state.now.value) → IfOk result (IsNext t (value_view state.now.value)) }
    ensures written { (t : Theory) → RunsAs t rules.now → IsSorted t.signature (value_view state.now.value) → IfOk result (IsWrittenNext t (written_of state.now)) }
    ensures answered { (t : Theory) → RunsAs t rules.now → IsSorted t.signature (value_view state.now.value) → IfOk result (λ _. ¬ StopsUntold t (written_of state.now) 1) }
    ensures not_answered { let value' = value_view state.now.value in (t : Theory) → RunsAs t rules.now → IsSorted t.signature value' → IfErr result (λ e. e ≡ NotAnswered → StopsUntold t (written_of state.now) 1) }
{
    let depths = depths_of(&state.value, alloc, &rules.signature)?;
    next_of(alloc, rules, state, &depths)
}

/// What comes after a state whose value has these depths: what a step keeps of it isn't counted again.
pub fn next_of(
    alloc: Global,
    rules: &RuleSet,
    state: &GroundState,
    depths: &Depths,
) -> Result<GroundNext, RunError>
    requires counted { AreDepthsOf (signature_view rules.now.signature.value) (value_view state.now.value) depths.now }
    ensures next { (t : Theory) → RunsAs t rules.now → IsSorted t.signature (value_view state.now.value) → IfOk result (IsNext t (value_view state.now.value)) }
    ensures written { (t : Theory) → RunsAs t rules.now → IsSorted t.signature (value_view state.now.value) → IfOk result (IsWrittenNext t (written_of state.now)) }
    ensures answered { (t : Theory) → RunsAs t rules.now → IsSorted t.signature (value_view state.now.value) → IfOk result (λ _. ¬ StopsUntold t (written_of state.now) 1) }
    ensures not_answered { let value' = value_view state.now.value in (t : Theory) → RunsAs t rules.now → IsSorted t.signature value' → IfErr result (λ e. e ≡ NotAnswered → StopsUntold t (written_of state.now) 1) }
    ensures counted { IfOk result (HasDepths (signature_view rules.now.signature.value)) }
{
    match foreign_on(alloc, rules, &state.value)? {
        Some(rule) => Ok(GroundNext::ForeignRule {
            id: String::from_str(alloc, rule.id.as_str())?,
        }),
        None => known_next(alloc, rules, state, depths),
    }
}

/// What comes after a state that no foreign rule might rewrite.
fn known_next(
    alloc: Global,
    rules: &RuleSet,
    state: &GroundState,
    depths: &Depths,
) -> Result<GroundNext, RunError>
    requires counted { AreDepthsOf (signature_view rules.now.signature.value) (value_view state.now.value) depths.now }
    ensures next { let value' = value_view state.now.value in (t : Theory) → RunsAs t rules.now → IsSorted t.signature value' → ¬ IsUnknown t value' → IfOk result (IsNext t value') }
    ensures written { let value' = value_view state.now.value in (t : Theory) → RunsAs t rules.now → IsSorted t.signature value' → ¬ IsUnknown t value' → IfOk result (IsWrittenNext t (written_of state.now)) }
    ensures answered { let value' = value_view state.now.value in (t : Theory) → RunsAs t rules.now → IsSorted t.signature value' → ¬ IsUnknown t value' → IfOk result (λ _. ¬ IsNotStepped t (written_of state.now)) }
    ensures not_answered { let value' = value_view state.now.value in (t : Theory) → RunsAs t rules.now → IsSorted t.signature value' → ¬ IsUnknown t value' → IfErr result (λ e. e ≡ NotAnswered → IsNotStepped t (written_of state.now)) }
    ensures counted { IfOk result (HasDepths (signature_view rules.now.signature.value)) }
{
    match turn_on(alloc, rules, &state.value)? {
        Turn::Nobody => Ok(GroundNext::Stuck),
        Turn::Several(_) => Err(RunError::NotAnswered),
        Turn::One(firing) => Ok(stepped(after(alloc, &rules.signature, state, &firing, depths)?)),
    }
}

/// That a state follows, of which the depths are at hand.
fn stepped(after: (GroundState, Depths)) -> GroundNext
    ensures { result ≡ Stepped after.0 after.1 }
{
    let (state, depths) = after;
    GroundNext::Stepped { state, depths }
}

/// The state after the step by a rule that has its turn, and the depths of its value.
fn after(
    alloc: Global,
    signature: &Signature,
    state: &GroundState,
    firing: &GroundFiring,
    depths: &Depths,
) -> Result<(GroundState, Depths), RunError>
    requires counted { AreDepthsOf (signature_view signature.now) (value_view state.now.value) depths.now }
    requires matched { IsMatchOf firing.now (value_view state.now.value) }
    ensures after { IfOk result (λ next. IsAfterFiring (signature_view signature.now) firing.now next.0) }
    ensures written { let g = signature_view signature.now in let right' = sort_view firing.now.rewrite.now.right_sort in let state' = sort_view state.now.sort in IfOk result (λ next. IsWrittenAt g right' state' (sort_view next.0.sort)) }
    ensures followed { IfOk result (λ next. IsFollowed (signature_view signature.now) firing.now next.0) }
    ensures not_followed { IfErr result (λ e. e ≡ NotAnswered → NotFollowed (signature_view signature.now) firing.now (sort_view state.now.sort)) }
    ensures counted { IfOk result (λ next. AreDepthsOf (signature_view signature.now) (value_view next.0.value) next.1) }
{
    if firing.rewrite.chooses {
        return Err(RunError::NotAnswered);
    }
    let value = firing.rewrite.right.evaluate(alloc, &firing.bindings)?;
    let sort = written_sort(alloc, signature, &firing.rewrite.right_sort, &state.sort)?;
    let next = depths_after(alloc, signature, firing, &value, depths)?;
    if !is_shallow_at(&value, &next, signature, &sort) {
        return Err(RunError::NotAnswered);
    }
    Ok((GroundState { value, sort }, next))
}

/// The depths of the value after a step, from those of the value before it.
fn depths_after(
    alloc: Global,
    signature: &Signature,
    firing: &GroundFiring,
    value: &Value,
    depths: &Depths,
) -> Result<Depths, AllocError>
    requires plain { firing.now.rewrite.now.chooses ≡ false }
    ensures { let g = signature_view signature.now in let value' = value_view value.now in IfOk result (λ d. (v : Valuation) → AreDepthsOf g (left_instance firing.now v) depths.now → value' ≡ right_instance firing.now v → AreDepthsOf g value' d) }
{
    let bound = bound_depths(alloc, &firing.rewrite.left, depths)?;
    right_depths(&firing.rewrite.right, value, alloc, signature, &bound)
}
