// What layers say of cycles.
ghost use Rattle.std.specs.Prelude.{◌≡◌, ℕ, List};
ghost use Rattle.kp_layers.specs.Layers.{DependsOn, AreLayers};

/// Where claims have layers, none depends on itself, at once or over others.
pub fn claims_in_layers_stand_in_no_cycle()
    ensures { (needs : List (List ℕ)) (layers : List ℕ) (i : ℕ) → AreLayers needs layers → ¬ DependsOn needs i i }
{}
