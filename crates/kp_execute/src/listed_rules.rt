// Whether a rule's id is listed.
ghost use Rattle.std.specs.Prelude.{◌≡◌, map, string_bytes};
ghost use Rattle.kp_kore.specs.Executions as model;
ghost use Rattle.kp_kore.specs.Rules.{RewriteRule};
ghost use Rattle.kp_kore.specs.Theory.{Theory};
ghost use Rattle.kp_rule_sets.specs.RuleSets.{RunsAs};
ghost use Rattle.kp_step.specs.Places.{IsAt};

use kp_rule_sets::RuleSet;

/// Whether the id is one of these.
fn is_among(ids: &[String], id: &str) -> bool
    ensures { result ≡ model.is_among (map string_bytes ids.now) id.now }
{
    for one in ids {
        if id == one.as_str() {
            return true;
        }
    }
    false
}

/// Whether the id of the rule at this place is one of these. Nothing is compared where there are none.
pub fn is_listed(rules: &RuleSet, ids: &[String], place: usize) -> bool
    ensures { (t : Theory) (r : RewriteRule) → RunsAs t rules.now → IsAt t place r → result ≡ model.is_among (map string_bytes ids.now) r.id }
{
    if ids.is_empty() {
        return false;
    }
    match rules.rule_at(place) {
        Some(rule) => is_among(ids, rule.id.as_str()),
        None => false,
    }
}
