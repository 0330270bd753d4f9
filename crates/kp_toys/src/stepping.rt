// Steps of the example.
ghost use Rattle.std.specs.Prelude.{◌≡◌, ◌↔◌, ℤ, pos, [], List};
ghost use Rattle.kp_kore.specs.Value.{Value, whole};
ghost use Rattle.kp_kore.specs.Steps.{Steps, StepsIn, IsFinal, IsUnknown, HasTurn, Fires, NoneFires};
ghost use Rattle.kp_toys.specs.ToysTheory.{toys, toys_signature, num_rule, done};
ghost use Rattle.kp_toys.specs.ToysValues.{count, done_value, odd, vg_value, vh_value, lone_value, goal_value, num_value, nil_value};
ghost use Rattle.kp_toys.specs.SmallTheories.{two_priorities, blocked, choosing, shadowed, from_call, from_lone, goal_of_lone};

/// count(2) steps to count(1) and to nothing else.
pub fn count_two_steps_to_count_one()
    ensures { (next : Value) → Steps toys (count (pos 2)) next ↔ (next ≡ count (pos 1)) }
{}

/// count(0) steps to done and to nothing else.
pub fn count_zero_steps_to_done()
    ensures { (next : Value) → Steps toys (count (pos 0)) next ↔ (next ≡ done_value) }
{}

/// done is final, and isn't unknown.
#[tactic(auto, using(crate::proofs::Matching::done_final, crate::proofs::Matching::done_known))]
pub fn done_is_final()
    ensures is_final { IsFinal toys done_value }
    ensures known { ¬ IsUnknown toys done_value }
{}

/// odd(k) is unknown, so it is final and steps nowhere.
#[tactic(auto, using(crate::proofs::Matching::odd_final, crate::proofs::Matching::odd_steps_nowhere))]
pub fn odd_is_unknown()
    ensures unknown { (k : ℤ) → IsUnknown toys (odd k) }
    ensures is_final { (k : ℤ) → IsFinal toys (odd k) }
    ensures nowhere { (k : ℤ) (next : Value) → ¬ Steps toys (odd k) next }
{}

/// vg steps to vh(k) for every whole number k, and to nothing else.
pub fn vg_steps_to_each_vh()
    ensures { (next : Value) → Steps toys vg_value next ↔ ((k : ℤ) × (next ≡ vh_value k)) }
{}

/// Of two rules that fire, 20 and 50, the one of 20 has its turn and steps.
pub fn the_smaller_number_has_its_turn()
    ensures steps { (next : Value) → Steps two_priorities lone_value next ↔ (next ≡ goal_value) }
    ensures turn { HasTurn two_priorities (from_lone 20 goal_of_lone []) lone_value }
    ensures no_turn { ¬ HasTurn two_priorities (from_lone 50 done []) lone_value }
{}

/// A rule whose ensured condition no choice meets leads nowhere, and its configuration isn't final.
#[tactic(auto, using(crate::proofs::Choosing::blocked_leads_nowhere, crate::proofs::Choosing::blocked_is_not_final))]
pub fn an_ensured_condition_that_fails_ends_the_run()
    ensures nowhere { (next : Value) → ¬ Steps blocked lone_value next }
    ensures not_final { ¬ IsFinal blocked lone_value }
{}

/// Two steps by one rule may choose different values for its new variable.
pub fn each_step_chooses_anew()
    ensures { StepsIn choosing 2 (vh_value (pos 0)) (vh_value (pos 2)) }
{}

/// What a foreign rule might rewrite steps nowhere and is final, also where another rule fires.
#[tactic(auto, using(crate::proofs::Choosing::shadowed_steps_nowhere, crate::proofs::Choosing::shadowed_is_final))]
pub fn a_foreign_rule_stops_the_others()
    ensures nowhere { (next : Value) → ¬ Steps shadowed lone_value next }
    ensures is_final { IsFinal shadowed lone_value }
{}

/// In a foreign rule's left term a call stands for any value of its sort; its constructors still have to match.
pub fn a_call_in_a_foreign_left_is_any_value()
    ensures any { (k : ℤ) → IsUnknown from_call (count k) }
    ensures other_head { ¬ IsUnknown from_call lone_value }
{}

/// num(inj(N)) fires on each whole number, and on nothing else of its sort: a variable has values of its sort alone.
pub fn a_rule_fires_on_values_of_its_sorts()
    ensures number { (k : ℤ) → Fires toys_signature num_rule.body (num_value (whole k)) }
    ensures nil { NoneFires toys (num_value nil_value) }
{}
