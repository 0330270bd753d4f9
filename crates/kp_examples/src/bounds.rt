// Which constant of a comparison is weighed.
ghost use Rattle.std.specs.Prelude.{◌≡◌, true, codes};
ghost use Rattle.kp_examples.specs.Clauses.{alone, is_above};
ghost use Rattle.kp_symbolic.specs.Weights.{largest, all_bounds};
ghost use Rattle.kp_examples.specs.Weights.{count_with, read, x_to};

/// The constant of the bound is weighed, not the one that is written: 1 of X > 0, 0 of X < 1, 5 of X >= 5.
pub fn the_constant_of_the_bound_is_weighed()
    ensures above { largest (all_bounds (read (count_with (alone (is_above true 0))))) ≡ 1 }
    ensures below { largest (all_bounds (read (count_with (alone (x_to true (codes "Lbllt") 1))))) ≡ 0 }
    ensures at_least { largest (all_bounds (read (count_with (alone (x_to true (codes "Lblge") 5))))) ≡ 5 }
{}
