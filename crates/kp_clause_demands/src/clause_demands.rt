// What clauses ask of unknowns: demands, and choices of one way each.
ghost use Rattle.std.specs.Prelude.{◌≡◌, ◌↔◌, ◌≤◌, ◌+◌, IfOk, IsTrue, OnOk, false};
ghost use Rattle.std.specs.List.{AllByRecursion};
ghost use Rattle.kp_demands.specs.Demands.{Assignment, CanBeMet, HasWay, Sizes, choices_of};
ghost use Rattle.kp_demands.specs.Tabled.{AreSizesOf};
ghost use Rattle.kp_signature.specs.View.{signature_view};
ghost use Rattle.kp_clause_demands.specs.Ways as spec;
ghost use Rattle.kp_clause_demands.specs.Ways.{items_of_ways, AreNearIn, IsAskedMet, IsAskedSized, AreWaysSized};

use crate::unknowns::Unknowns;
use crate::ways::clause_ways;
use kp_demands::{Demand, Tables, can_be_met};
use kp_literals::ReadLiteral;
use kp_signature::Signature;
use std::alloc::{AllocError, Global};

/// Demands of clauses with one way, and the ways of the others.
#[derive(Drop)]
pub struct AskedDemands {
    pub demands: Vec<Demand>,
    pub choices: Vec<Vec<Vec<Demand>>>,
}

/// Adds the ways of a clause: where there is one, its demands.
fn add_ways(asked: &mut AskedDemands, ways: Vec<Vec<Demand>>) -> Result<(), AllocError>
    ensures met { OnOk result ((a : Assignment) → IsAskedMet a asked.new ↔ (IsAskedMet a asked.old × HasWay a (items_of_ways ways.items))) }
    ensures sized { OnOk result ((s : Sizes) → IsAskedSized s asked.new ↔ (IsAskedSized s asked.old × AreWaysSized s (items_of_ways ways.items))) }
{
    if let [way] = ways.as_slice() {
        asked.demands.extend_from_slice(way)?;
        return Ok(());
    }
    asked.choices.push(ways)?;
    Ok(())
}

/// What the clauses ask.
pub fn asked_by(
    alloc: Global,
    signature: &Signature,
    unknowns: &Unknowns,
    clauses: &[Vec<ReadLiteral>],
) -> Result<AskedDemands, AllocError>
    requires { AllByRecursion (λ c. AreNearIn unknowns.now c.items) clauses.now }
    ensures met { IfOk result (λ asked. (a : Assignment) → IsAskedMet a asked ↔ spec.HasWays (signature_view signature.now) a unknowns.now clauses.now) }
    ensures sized { IfOk result (λ asked. (s : Sizes) → IsAskedSized s asked ↔ spec.HasSizedWays (signature_view signature.now) s unknowns.now clauses.now) }
{
    let mut asked = AskedDemands {
        demands: Vec::new(alloc),
        choices: Vec::new(alloc),
    };
    for clause in clauses {
        add_ways(&mut asked, clause_ways(alloc, signature, unknowns, clause)?)?;
    }
    Ok(asked)
}

/// Whether some values meet all that is asked.
pub fn can_all_be_met(
    alloc: Global,
    asked: &mut AskedDemands,
    tables: &mut Tables,
) -> Result<bool, AllocError>
    requires { (s : Sizes) × AreSizesOf s tables.old × (s.wholes + s.bits ≤ 126) × IsAskedSized s asked.old }
    ensures yes { IfOk result (λ b. IsTrue b → CanBeMet tables.old.fixed asked.old.demands.items (choices_of asked.old.choices.items)) }
    ensures no { IfOk result (λ b. b ≡ false → ¬ CanBeMet tables.old.fixed asked.old.demands.items (choices_of asked.old.choices.items)) }
{
    can_be_met(alloc, &asked.choices, &mut asked.demands, tables)
}
