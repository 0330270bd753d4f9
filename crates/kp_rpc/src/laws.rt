// Laws of requests.
ghost use Rattle.std.specs.Prelude.{◌≡◌, Some, ℕ, List};
ghost use Rattle.serde_json.specs.Written.{compact_text};
ghost use Rattle.serde_json.specs.Data.{Data, object, Members};
ghost use Rattle.kp_kore.specs.Syntax.{Text};
ghost use Rattle.kp_json.specs.Trees.{SpellsWrapped};
ghost use Rattle.kp_rpc.specs.Frame.{IsFrame};
ghost use Rattle.kp_rpc.specs.Request.{RequestId, ExecuteRequest, ImpliesRequest, IsExecute, IsImplies, IsAddModule};
ghost use Rattle.kp_rpc.specs.Questions.{IsAskable, IsLawfulId, question_tree, to_execute, to_imply, to_add};
ghost use Rattle.kp_rpc.specs.View.{id_view};
ghost use Rattle.kp_rpc.specs.declared.id.Id.{Id as SpecId};

/// The tree of a question of execute is that request, where some tree spells its state.
#[tactic(auto, using(crate::proofs::Asked::execute_asked))]
pub fn what_is_asked_is_that_request()
    ensures { (q : ExecuteRequest) (tree d : Data) → IsLawfulId q.id → SpellsWrapped tree q.state
        → question_tree (to_execute q) ≡ Some d → (o : Members) × (d ≡ object o) × IsExecute o q }
{}

/// The tree of a question of implies is that request, where some trees spell its sides.
#[tactic(auto, using(crate::proofs::Asked::implies_asked))]
pub fn what_is_asked_to_imply_is_that_request()
    ensures { (q : ImpliesRequest) (tree other d : Data) → IsLawfulId q.id → SpellsWrapped tree q.antecedent → SpellsWrapped other q.consequent
        → question_tree (to_imply q) ≡ Some d → (o : Members) × (d ≡ object o) × IsImplies o q }
{}

/// The tree of a question of add-module is that request.
#[tactic(auto, using(crate::proofs::Asked::add_module_asked))]
pub fn what_is_asked_to_add_is_that_request()
    ensures { (id : RequestId) (text : Text) (d : Data) → IsLawfulId id → question_tree (to_add id text) ≡ Some d → (o : Members) × (d ≡ object o) × IsAddModule o id text }
{}

/// Each id of the code is lawful.
#[tactic(auto, using(crate::proofs::Asked::ids_are_lawful))]
pub fn each_id_is_lawful()
    ensures { (id : SpecId) → IsLawfulId (id_view id) }
{}

/// What is read of the text of a question of execute is that question, however deep it nests.
pub fn what_is_read_of_a_question()
    ensures { (q r : ExecuteRequest) (d : Data) (o : Members) (frame : List ℕ) → IsAskable (to_execute q) → question_tree (to_execute q) ≡ Some d
        → frame ≡ compact_text d → IsFrame frame (object o) → IsExecute o r → r ≡ q }
{}

/// What is read of the text of a question of implies is that question, however deep it nests.
pub fn what_is_read_of_a_question_to_imply()
    ensures { (q r : ImpliesRequest) (d : Data) (o : Members) (frame : List ℕ) → IsAskable (to_imply q) → question_tree (to_imply q) ≡ Some d
        → frame ≡ compact_text d → IsFrame frame (object o) → IsImplies o r → r ≡ q }
{}

/// What is read of the text of a question of add-module is that question: the tree that was written, and its id and its text.
pub fn what_is_read_of_a_question_to_add()
    ensures tree { (id : RequestId) (text : Text) (d e : Data) (frame : List ℕ) → IsAskable (to_add id text) → question_tree (to_add id text) ≡ Some d
        → frame ≡ compact_text d → IsFrame frame e → e ≡ d }
    ensures request { (id i : RequestId) (text t : Text) (d : Data) (o : Members) (frame : List ℕ) → IsAskable (to_add id text) → question_tree (to_add id text) ≡ Some d
        → frame ≡ compact_text d → IsFrame frame (object o) → IsAddModule o i t → (i ≡ id) × (t ≡ text) }
{}
