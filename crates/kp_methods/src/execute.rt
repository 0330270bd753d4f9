// The line of a reply to execute.
ghost use Rattle.std.specs.Prelude.{◌≡◌, IfOk};
ghost use Rattle.kp_json.specs.Faults as faults;
ghost use Rattle.kp_kore.specs.View.{view, sort_view};
ghost use Rattle.kp_requests.specs.View.{reading_view};
ghost use Rattle.kp_rpc.specs.View.{id_view, options_view};
ghost use Rattle.kp_rule_sets.specs.RuleSets.{RunsAs};
ghost use Rattle.kp_methods.specs.ServedTheory.{IsElsewhere, ServedTheory};
ghost use Rattle.kp_signature.specs.Verify.{VerifiesAs};
ghost use Rattle.kp_methods.specs.Prepared.{IsPrepared, signature_in};
ghost use Rattle.kp_methods.specs.Executed.{IsExecutedLine, IsUnderstoodLine};

use crate::execute_by_steps::symbolic_line;
use crate::execute_by_values::ground_line;
use crate::{Prepared, unverified_line};
use kp_kore::{Pattern, Sort};
use kp_requests::Reading;
use kp_rpc::{ExecuteOptions, Id, StateFault, fault_text};
use kp_rule_sets::RuleSet;
use kp_signature::verify;
use std::alloc::{AllocError, Global};

/// The reply to a request of execute over these rules, and what is looked up of their signature.
/// Source: the K Haskell backend's JSON-RPC documentation (execute).
///
/// # Errors
/// Where memory runs out.
pub fn executed_line(
    alloc: Global,
    prepared: &Prepared,
    rules: &RuleSet,
    id: &Id,
    state: Reading,
    options: ExecuteOptions,
) -> Result<Vec<u8>, AllocError>
    requires { IsPrepared prepared.now }
    ensures { let options' = options_view options in
        (s : ServedTheory) → RunsAs s.theory rules.now → signature_in prepared.now ≡ s.theory.signature → ¬ IsElsewhere s.main options'.module_name →
        IfOk result (IsExecutedLine s (id_view id.now) options' (reading_view state)) }
{
    match state {
        Reading::Pattern(pattern) => pattern_line(alloc, prepared, rules, id, &pattern, options),
        Reading::Fault(fault) => fault_text(alloc, id, &StateFault::Json(fault)),
    }
}

/// The same of a pattern that was read.
fn pattern_line(
    alloc: Global,
    prepared: &Prepared,
    rules: &RuleSet,
    id: &Id,
    pattern: &Pattern,
    options: ExecuteOptions,
) -> Result<Vec<u8>, AllocError>
    requires { IsPrepared prepared.now }
    ensures { let options' = options_view options in
        (s : ServedTheory) → RunsAs s.theory rules.now → signature_in prepared.now ≡ s.theory.signature → ¬ IsElsewhere s.main options'.module_name →
        IfOk result (IsExecutedLine s (id_view id.now) options' (faults.read (view pattern.now))) }
{
    match verify(alloc, &rules.signature, pattern) {
        Ok(sort) => verified_line(alloc, prepared, rules, id, pattern, sort, options),
        Err(error) => unverified_line(alloc, id, error),
    }
}

/// The line that replies to a pattern that verifies: by values where they tell the run, else by symbolic steps.
fn verified_line(
    alloc: Global,
    prepared: &Prepared,
    rules: &RuleSet,
    id: &Id,
    pattern: &Pattern,
    sort: Sort,
    options: ExecuteOptions,
) -> Result<Vec<u8>, AllocError>
    requires { IsPrepared prepared.now }
    ensures { let options' = options_view options in let pattern' = view pattern.now in
        (s : ServedTheory) → RunsAs s.theory rules.now → signature_in prepared.now ≡ s.theory.signature → ¬ IsElsewhere s.main options'.module_name → VerifiesAs s.theory.signature pattern' (sort_view sort) →
        IfOk result (IsUnderstoodLine s (id_view id.now) options' pattern') }
{
    let own = sort.copy(alloc)?;
    match ground_line(alloc, rules, id, pattern, own, &options)? {
        Some(line) => Ok(line),
        None => symbolic_line(alloc, prepared, rules, id, pattern, sort, options),
    }
}
