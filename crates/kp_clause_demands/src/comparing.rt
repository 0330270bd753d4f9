// Comparisons of whole numbers.
ghost use Rattle.std.specs.Prelude.{◌≡◌, ◌∷◌, [], ℤ, ◌+ℤ◌, ◌-ℤ◌, true, false, IfOk, FitsSigned, map, pos, negsuc};
ghost use Rattle.std.specs.Int.{w128};
ghost use Rattle.kp_kore.specs.HookView.{comparison_view};
ghost use Rattle.kp_clause_demands.specs.Comparing as spec;

use kp_demands::Demand;
use kp_kore::Comparison;
use std::alloc::{AllocError, Global};

/// A side of a comparison: a whole number's place, 0 for none, and a constant.
#[derive(Clone, Copy)]
pub struct ComparedPart {
    pub place: usize,
    pub constant: i128,
}

/// How much more one constant is than another, less one where the comparison is strict.
fn gap(second: i128, first: i128, is_strict: bool) -> i128
    requires { FitsSigned w128 (second -ℤ first) × FitsSigned w128 ((second -ℤ first) +ℤ negsuc 0) }
    ensures loose { is_strict ≡ false → result ≡ (second -ℤ first) +ℤ pos 0 }
    ensures strict { is_strict ≡ true → result ≡ (second -ℤ first) +ℤ negsuc 0 }
{
    let gap = second - first;
    if is_strict { gap - 1 } else { gap }
}

/// That the first side is at most the second, or less.
fn below(first: ComparedPart, second: ComparedPart, is_strict: bool) -> Demand
    requires { spec.AreNear first second }
    ensures loose { is_strict ≡ false → result ≡ spec.below first second (pos 0) }
    ensures strict { is_strict ≡ true → result ≡ spec.below first second (negsuc 0) }
{
    Demand::Bound {
        first: first.place,
        second: second.place,
        most: gap(second.constant, first.constant, is_strict),
    }
}

/// A way of one demand.
fn one(alloc: Global, demand: Demand) -> Result<Vec<Demand>, AllocError>
    ensures { IfOk result (λ way. way.items ≡ demand ∷ []) }
{
    let mut way = Vec::new(alloc);
    way.push(demand)?;
    Ok(way)
}

/// A way of two demands.
fn two(alloc: Global, demand: Demand, other: Demand) -> Result<Vec<Demand>, AllocError>
    ensures { IfOk result (λ way. way.items ≡ demand ∷ other ∷ []) }
{
    let mut way = one(alloc, demand)?;
    way.push(other)?;
    Ok(way)
}

/// One way.
fn only(alloc: Global, way: Vec<Demand>) -> Result<Vec<Vec<Demand>>, AllocError>
    ensures { IfOk result (λ ways. ways.items ≡ way ∷ []) }
{
    let mut ways = Vec::new(alloc);
    ways.push(way)?;
    Ok(ways)
}

/// One way of one demand.
fn alone(alloc: Global, demand: Demand) -> Result<Vec<Vec<Demand>>, AllocError>
    ensures { IfOk result (λ ways. map (λ w. w.items) ways.items ≡ (demand ∷ []) ∷ []) }
{
    only(alloc, one(alloc, demand)?)
}

/// One way of two demands.
fn both(alloc: Global, demand: Demand, other: Demand) -> Result<Vec<Vec<Demand>>, AllocError>
    ensures { IfOk result (λ ways. map (λ w. w.items) ways.items ≡ (demand ∷ other ∷ []) ∷ []) }
{
    only(alloc, two(alloc, demand, other)?)
}

/// Two ways of one demand each.
fn either(alloc: Global, demand: Demand, other: Demand) -> Result<Vec<Vec<Demand>>, AllocError>
    ensures { IfOk result (λ ways. map (λ w. w.items) ways.items ≡ (demand ∷ []) ∷ (other ∷ []) ∷ []) }
{
    let mut ways = alone(alloc, demand)?;
    ways.push(one(alloc, other)?)?;
    Ok(ways)
}

/// The ways for a comparison of two sides to hold, each a list of bounds that are met together.
pub fn comparison_ways(
    alloc: Global,
    comparison: Comparison,
    first: ComparedPart,
    second: ComparedPart,
) -> Result<Vec<Vec<Demand>>, AllocError>
    requires { spec.AreNear first second × spec.AreNear second first }
    ensures { IfOk result (λ ways. map (λ w. w.items) ways.items ≡ spec.ways_of (comparison_view comparison) first second) }
{
    match comparison {
        Comparison::AtMost => alone(alloc, below(first, second, false)),
        Comparison::Less => alone(alloc, below(first, second, true)),
        Comparison::AtLeast => alone(alloc, below(second, first, false)),
        Comparison::Greater => alone(alloc, below(second, first, true)),
        Comparison::Equal => both(
            alloc,
            below(first, second, false),
            below(second, first, false),
        ),
        Comparison::Different => either(
            alloc,
            below(first, second, true),
            below(second, first, true),
        ),
    }
}
