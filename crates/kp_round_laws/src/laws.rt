// Laws of proofs by rounds of questions, where the exchanges are right.
ghost use Rattle.kp_kore.specs.Syntax.{Text, KoreDefinition};
ghost use Rattle.kp_kore.specs.Claims.{ReachabilityClaim};
ghost use Rattle.kp_kore.specs.Theory.{Theory};
ghost use Rattle.kp_book.specs.Books.{Opening};
ghost use Rattle.kp_rounds.specs.Jobs.{ProofJob};
ghost use Rattle.kp_rounds.specs.Sound.{IsMainTheory};
ghost use Rattle.kp_round_laws.specs.Laws.{AxiomsStandOnce, AddedMeansClaims, OwnEntriesAreTold, RoundSays, TreeBegins, PartsStayWhole, ArcsSay, PassedHolds, FailedIsFailed, BindsOnce, PassedClaimsHold};

/// The rewrite axioms of the modules that a main module reaches stand there once each, so that a module which imports it has them as
/// they are.
pub fn reached_axioms_stand_once()
    ensures { (d : KoreDefinition) (main : Text) → AxiomsStandOnce d main }
{}

/// A module of claims that was added means main's theory with the claims as rules, at each later book.
pub fn an_added_module_means_its_claims_as_rules()
    ensures { (o : Opening) (t : Theory) → IsMainTheory o t → AddedMeansClaims o t }
{}

/// Exchanges that are served enter what they tell and nothing else.
pub fn own_entries_are_told()
    ensures { (o : Opening) → OwnEntriesAreTold o }
{}

/// A round whose exchanges are right gives its node an arc that says what it says.
pub fn the_arc_of_a_round_says_what_it_says()
    ensures { (o : Opening) (t : Theory) (job : ProofJob) → RoundSays o t job }
{}

/// So does each arc of a whole proof, whose tree begins with the claim's left side.
pub fn the_arcs_of_a_proof_say_what_they_say()
    ensures begins { (job : ProofJob) → TreeBegins job }
    ensures says { (o : Opening) (t : Theory) (job : ProofJob) → ArcsSay o t job }
{}

/// No part of a split is split again, so a state is divided by the cases of one step and no further.
pub fn a_part_is_not_split_again()
    ensures { (job : ProofJob) → PartsStayWhole job }
{}

/// A proof whose exchanges are right and that passed makes its claim hold, if its dependencies hold.
pub fn a_passed_proof_makes_its_claim_hold()
    ensures { (o : Opening) (t : Theory) (job : ProofJob) → PassedHolds o t job }
{}

/// One that failed has, at the node that is told, a state that isn't covered: each of its instances is final, or a run came to it by a
/// terminal rule of the options.
pub fn a_failed_proof_fails_at_its_node()
    ensures { (o : Opening) (t : Theory) (job : ProofJob) → FailedIsFailed o t job }
{}

/// The pattern that a node's state is to imply binds each variable that the claim's right side has alone, once.
pub fn a_target_binds_each_name_once()
    ensures { (claim : ReachabilityClaim) → BindsOnce claim }
{}

/// The claims of a file that passed hold, layer by layer.
pub fn passed_claims_hold()
    ensures { (o : Opening) (t : Theory) → PassedClaimsHold o t }
{}
