// Whether demands are on unknowns that tables have, for callers that don't know it.
ghost use Rattle.std.specs.Prelude.{◌≡◌, ◌↔◌, ◌^◌, IsTrue, map};
ghost use Rattle.std.specs.List.{AllByRecursion};
ghost use Rattle.kp_demands.specs.Demands.{Sizes, IsSized, choices_of};

use crate::demand::Demand;

/// How many unknowns there are of each kind, and what bounds are below, without their sign.
#[derive(Clone, Copy)]
pub struct Limits {
    pub wholes: usize,
    pub truths: usize,
    pub classes: usize,
    pub bound: u128,
}

impl Limits {
    ghost use Rattle.kp_demands.specs.Tabled.{AreLimitsOf};

    /// Whether a demand is on unknowns that there are, with a bound below the limit.
    pub fn allow(self, demand: Demand) -> bool
        ensures { (s : Sizes) → AreLimitsOf s self → IsTrue result ↔ IsSized s demand }
    {
        match demand {
            Demand::Bound {
                first,
                second,
                most,
            } => {
                first <= self.wholes && second <= self.wholes && most.unsigned_abs() < self.bound
            }
            Demand::Truth { name, .. } => name < self.truths,
            Demand::Same { first, second } => first < self.classes && second < self.classes,
            Demand::Apart { first, second } => first < self.classes && second < self.classes,
        }
    }

    /// Whether all demands are.
    pub fn allow_all(self, demands: &[Demand]) -> bool
        ensures { (s : Sizes) → AreLimitsOf s self → IsTrue result ↔ AllByRecursion (IsSized s) demands.now }
    {
        for demand in demands {
            if !self.allow(*demand) {
                return false;
            }
        }
        true
    }

    /// Whether all demands of each way are.
    pub fn allow_ways(self, ways: &[Vec<Demand>]) -> bool
        ensures { (s : Sizes) → AreLimitsOf s self → IsTrue result ↔ AllByRecursion (AllByRecursion (IsSized s)) (map (λ w. w.items) ways.now) }
    {
        for way in ways {
            if !self.allow_all(way) {
                return false;
            }
        }
        true
    }

    /// Whether all demands of each way of each choice are.
    pub fn allow_choices(self, choices: &[Vec<Vec<Demand>>]) -> bool
        ensures { (s : Sizes) → AreLimitsOf s self → IsTrue result ↔ AllByRecursion (AllByRecursion (AllByRecursion (IsSized s))) (choices_of choices.now) }
    {
        for ways in choices {
            if !self.allow_ways(ways) {
                return false;
            }
        }
        true
    }
}
