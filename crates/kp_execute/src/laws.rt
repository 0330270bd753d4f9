// Laws of what is written for the end of a run.
ghost use Rattle.kp_kore.specs.Signature.{KoreSignature};
ghost use Rattle.kp_kore.specs.Theory.{Theory};
ghost use Rattle.kp_execute.specs.Laws.{BeginsReady, ReadsRequest, SaysRight};

/// A right run of the request's state means, as it is written, a right result of execute: for each of the six reasons that say what
/// follows.
pub fn a_run_as_it_is_written_means_a_right_result()
    ensures { (t : Theory) → SaysRight t }
{}

/// A run may begin with the state that a verified request is read as, which is the request's.
pub fn a_run_begins_with_what_is_read()
    ensures ready { (g : KoreSignature) → BeginsReady g }
    ensures request { (g : KoreSignature) → ReadsRequest g }
{}
