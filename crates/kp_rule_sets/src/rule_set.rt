// The rules of a definition with their turns.
ghost use Rattle.std.specs.Prelude.{◌≡◌, IfOk, option_map, slice_get, true};
ghost use Rattle.std.proofs.Props.{props};
ghost use Rattle.kp_rule_sets.specs.HeadView.{head_view};
ghost use Rattle.kp_rule_sets.specs.Merged.{left_of};
ghost use Rattle.kp_rule_sets.specs.Rows.{places_at};
ghost use Rattle.kp_rule_sets.specs.Tops.{Top, may_have};
ghost use Rattle.kp_rule_sets.specs.Turns.{AreInTurn};

use crate::head::ValueTop;
use crate::index::{Index, index_of};
use crate::places::Places;
use crate::turn::turn_order;
use kp_rules::Rule;
use kp_signature::Signature;
use std::alloc::{AllocError, Global};
use std::sync::Arc;

/// The rules of a definition in the order of its modules, and its signature. In which turn they come, and which of them
/// may rewrite a value of a head, is noted once.
pub struct RuleSet {
    pub signature: Arc<Signature>,
    pub rules: Vec<Rule>,
    order: Vec<usize>,
    index: Index,
    ghost in_turn: { AreInTurn rules.items (λ _. true) order.items } by { Prim.hlevel props },
    ghost by_head: { (h : Top) → AreInTurn rules.items (may_have h) (places_at index h) } by { Prim.hlevel props },
}

// Written out: a derived one is proved again, with those of all that it holds, in each crate that owns a rule set.
impl Drop for RuleSet {
    fn drop(self) {
        let RuleSet {
            signature: _signature,
            rules: _rules,
            order: _order,
            index: _index,
        } = self;
    }
}

impl RuleSet {
    /// The rule set of these rules over the signature.
    pub fn new(
        alloc: Global,
        signature: Arc<Signature>,
        rules: Vec<Rule>,
    ) -> Result<RuleSet, AllocError>
        ensures signature { IfOk result (λ set. set.signature ≡ signature) }
        ensures rules { IfOk result (λ set. set.rules ≡ rules) }
    {
        let order = turn_order(alloc, &rules)?;
        let index = index_of(alloc, &rules, &order)?;
        Ok(RuleSet {
            signature,
            rules,
            order,
            index,
        })
    }

    /// The rule at a place.
    pub fn rule_at(&self, place: usize) -> Option<&Rule>
        ensures { option_map (λ r. r.now) result ≡ slice_get self.now.rules.items place }
    {
        self.rules.get(place)
    }

    /// The places of all rules, by priority number, and of one number in order.
    pub fn in_turn(&self) -> &[usize]
        ensures { AreInTurn self.now.rules.items (λ _. true) result.now }
    {
        &self.order
    }

    /// The places of exactly the rules that may have the head: those whose left term, without `inj`, has it or is a
    /// variable. They come by turn, and are found without memory.
    pub fn rules_at(&self, head: &ValueTop<'_>) -> Places<'_>
        ensures { AreInTurn self.now.rules.items (may_have (head_view head.now)) (left_of result) }
    {
        self.index.places(head)
    }
}
