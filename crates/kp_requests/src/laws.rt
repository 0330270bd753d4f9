// Laws of requests: bytes ask one thing, and what a client writes asks what it was written of.
ghost use Rattle.std.specs.Prelude.{◌≡◌, ◌≢◌, ℕ, Bool, false, List, Option, Some, codes};
ghost use Rattle.serde_json.specs.Data.{Data, object, Members};
ghost use Rattle.serde_json.specs.Written.{compact_text};
ghost use Rattle.kp_kore.specs.Syntax.{Text, KorePattern};
ghost use Rattle.kp_json.specs.Faults.{read};
ghost use Rattle.kp_json.specs.Trees.{SpellsWrapped};
ghost use Rattle.kp_rpc.specs.Frame.{IsFrame};
ghost use Rattle.kp_rpc.specs.Request.{RequestId, ExecuteRequest, ImpliesRequest};
ghost use Rattle.kp_rpc.specs.Readings.{read_object};
ghost use Rattle.kp_rpc.specs.Reply.{invalid_request, method_not_found};
ghost use Rattle.kp_rpc.specs.Questions.{IsAskable, IsLawfulId, question_tree, to_execute, to_imply, to_add};
ghost use Rattle.kp_requests.specs.Asked.{simplify_tree, add_module_tree};
ghost use Rattle.kp_requests.specs.Frames.{Asks, IsJson};
ghost use Rattle.kp_requests.specs.Calls.{asked_of, echoed, read_call, read_frame};
ghost use Rattle.kp_requests.specs.Objects.{IsRequestObject};
ghost use Rattle.kp_requests.specs.Requests.{Frame, execute, implies, simplify, add_module, asks, refused, single};

/// Bytes ask one thing.
#[tactic(auto, using(crate::proofs::Frames::one_frame))]
pub fn bytes_ask_one_thing()
    ensures { (bytes : List ℕ) (f g : Frame) → Asks bytes f → Asks bytes g → f ≡ g }
{}

/// Bytes that are JSON ask what their JSON value asks.
#[tactic(auto, using(crate::proofs::Frames::asks_of))]
pub fn json_asks_what_its_value_asks()
    ensures { (bytes : List ℕ) (d : Data) (f : Frame) → IsJson bytes d → Asks bytes f → f ≡ read_frame d }
{}

/// The text of one object or array asks what its JSON value asks: so the text that a client writes of a request of execute
/// or implies, which is that of its tree, asks what the two laws below say.
#[tactic(auto, using(crate::proofs::Frames::frame_asks))]
pub fn a_text_asks_what_its_value_asks()
    ensures { (bytes : List ℕ) (d : Data) → IsFrame bytes d → Asks bytes (read_frame d) }
{}

/// What a client writes of a request of execute asks that request.
#[tactic(auto, using(crate::proofs::Back::execute_back))]
pub fn what_is_written_of_execute_asks_it()
    ensures { (q : ExecuteRequest) (tree d : Data) → IsLawfulId q.id → SpellsWrapped tree q.state → question_tree (to_execute q) ≡ Some d
        → read_frame d ≡ single (record { id = Some q.id; asked = asks (execute (read q.state) q.options) }) }
{}

/// What a client writes of a request of implies asks that request.
#[tactic(auto, using(crate::proofs::Back::implies_back))]
pub fn what_is_written_of_implies_asks_it()
    ensures { (q : ImpliesRequest) (tree other d : Data) → IsLawfulId q.id → SpellsWrapped tree q.antecedent → SpellsWrapped other q.consequent
        → question_tree (to_imply q) ≡ Some d
        → read_frame d ≡ single (record { id = Some q.id; asked = asks (implies (read q.antecedent) (read q.consequent) q.module_name) }) }
{}

/// What a client writes of a request of simplify asks that request.
#[tactic(auto, using(crate::proofs::Back::simplify_back))]
pub fn what_is_written_of_simplify_asks_it()
    ensures { (id : RequestId) (p : KorePattern) (name : Option Text) (tree d : Data) → IsLawfulId id → SpellsWrapped tree p → simplify_tree id p name ≡ Some d
        → read_frame d ≡ single (record { id = Some id; asked = asks (simplify (read p) name) }) }
{}

/// What a client writes of a request of add-module asks that request.
#[tactic(auto, using(crate::proofs::Back::add_module_back))]
pub fn what_is_written_of_add_module_asks_it()
    ensures { (id : RequestId) (text : Text) (name_as_id : Bool) → IsLawfulId id
        → read_frame (add_module_tree id text name_as_id) ≡ single (record { id = Some id; asked = asks (add_module text name_as_id) }) }
{}

/// What is read of the text of a question to add a module asks to add it, under its id for a name alone.
pub fn what_is_read_of_a_question_to_add_asks_it()
    ensures { (id : RequestId) (text : Text) (d e : Data) (frame : List ℕ) → IsAskable (to_add id text) → question_tree (to_add id text) ≡ Some d
        → frame ≡ compact_text d → IsJson frame e → read_frame e ≡ single (record { id = Some id; asked = asks (add_module text false) }) }
{}

/// A request object asks what its method is asked by its params, and its reply carries its id; without an id it is a
/// notification.
#[tactic(auto, using(crate::proofs::Objects::request_object_read))]
pub fn a_request_object_asks_by_its_method()
    ensures { (o : Members) (id : Option RequestId) (method : Text) → IsRequestObject o id method
        → read_call (object o) ≡ record { id = id; asked = asked_of method (read_object (codes "params") (object o)) } }
{}

/// Every other value is an invalid request, whose reply carries its id where that is lawful, else null.
#[tactic(auto, using(crate::proofs::Objects::other_value_read))]
pub fn any_other_value_is_an_invalid_request()
    ensures { (d : Data) → ((o : Members) (id : Option RequestId) (method : Text) → d ≡ object o → ¬ IsRequestObject o id method)
        → read_call d ≡ record { id = Some (echoed d); asked = refused invalid_request } }
{}

/// A method of any other name isn't found.
#[tactic(auto, using(crate::proofs::Objects::other_method_read))]
pub fn any_other_method_is_not_found()
    ensures { (method : Text) (params : Option Data) → method ≢ codes "execute" → method ≢ codes "implies" → method ≢ codes "simplify" → method ≢ codes "add-module"
        → asked_of method params ≡ refused method_not_found }
{}
