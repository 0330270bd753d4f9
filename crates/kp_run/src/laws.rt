// What a run says of the reply to it.
ghost use Rattle.std.specs.Prelude.{◌≡◌, []};
ghost use Rattle.kp_kore.specs.Syntax.{KorePattern};
ghost use Rattle.kp_kore.specs.Parts.{free_variables};
ghost use Rattle.kp_kore.specs.Value.{Value};
ghost use Rattle.kp_kore.specs.Theory.{Theory};
ghost use Rattle.kp_kore.specs.Replies.{IsComputed};
ghost use Rattle.kp_kore.specs.Executions.{Options, listed_in, IsRightExecuted};
ghost use Rattle.kp_ground.specs.View.{value_view};
ghost use Rattle.kp_run.specs.Runs.{IsRunOf, IsOnlyInstance, reason_of};
ghost use Rattle.kp_run.specs.declared.run.GroundRun.{GroundRun};

/// Between two states without variables, whose only instances are where a run begins and where it ends, the reply that
/// tells the run is right, where no cut point or terminal rule is asked for.
pub fn a_run_is_told_rightly()
    ensures { (t : Theory) (o : Options) (s s' : KorePattern) (c : Value) (e : GroundRun) → IsRunOf t c o.bound e → listed_in o ≡ [] →
        IsOnlyInstance t s c → IsOnlyInstance t s' (value_view e.state.value) →
        free_variables s ≡ [] → free_variables s' ≡ [] → IsComputed t.signature s' →
        IsRightExecuted t o s (record { depth = e.depth; reason = reason_of e.stop; state = s' }) }
{}
