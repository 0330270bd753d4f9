// Laws of the definitions: what the arcs say stays said, and a tree that passes makes its claim hold.
ghost use Rattle.std.specs.Prelude.{◌≡◌, ℕ, Bool, List, [], ◌∷◌, Some, None};
ghost use Rattle.std.specs.List.{AllByRecursion};
ghost use Rattle.kp_kore.specs.Syntax.{KorePattern};
ghost use Rattle.kp_kore.specs.Theory.{Theory};
ghost use Rattle.kp_kore.specs.Claims.{ReachabilityClaim, Holds, HoldsAfter};
ghost use Rattle.kp_kore.specs.Arcs.{EdgeSays, SplitSays, BranchChild, BranchSays, CoverSays, VacuousSays, StuckSays, HasNoFreshName};
ghost use Rattle.kp_kore.specs.ClaimRules.{with_rules};
ghost use Rattle.kp_graph.specs.Tree.{ProofNode, HeldBy, cover, vacuous, stuck, terminal, node_at, IsTree, first_nodes, with_arc, with_hold, with_edge, with_split, with_branch, arc_fault, status_of};
ghost use Rattle.kp_graph.specs.Says.{Asked, TreeSays};
ghost use Rattle.kp_graph.specs.declared.status.Status.TheVariants.{Passed};

/// A tree from a claim's left side whose arcs say so and that passes makes the claim hold one step further than its
/// circularities, if its dependencies hold.
pub fn a_passed_tree_makes_its_claim_hold()
    ensures { (t : Theory) (dependencies circularities : List ReachabilityClaim) (claim : ReachabilityClaim) (tree : List ProofNode) (first : ProofNode) →
        HasNoFreshName claim → AllByRecursion (Holds t) dependencies → IsTree tree → node_at tree 1 ≡ Some first → first.state ≡ claim.left →
        TreeSays t dependencies circularities claim tree → status_of tree ≡ Passed → HoldsAfter t circularities claim }
{}

/// So it holds, where it alone is its circularity or it has none.
pub fn a_passed_tree_of_one_claim_makes_it_hold()
    ensures by_itself { (t : Theory) (dependencies : List ReachabilityClaim) (claim : ReachabilityClaim) (tree : List ProofNode) (first : ProofNode) →
        HasNoFreshName claim → AllByRecursion (Holds t) dependencies → IsTree tree → node_at tree 1 ≡ Some first → first.state ≡ claim.left →
        TreeSays t dependencies (claim ∷ []) claim tree → status_of tree ≡ Passed → Holds t claim }
    ensures alone { (t : Theory) (dependencies : List ReachabilityClaim) (claim : ReachabilityClaim) (tree : List ProofNode) (first : ProofNode) →
        HasNoFreshName claim → AllByRecursion (Holds t) dependencies → IsTree tree → node_at tree 1 ≡ Some first → first.state ≡ claim.left →
        TreeSays t dependencies [] claim tree → status_of tree ≡ Passed → Holds t claim }
{}

/// A new tree has no arc, so its arcs say so.
pub fn a_new_tree_says_so()
    ensures { (t : Theory) (dependencies circularities : List ReachabilityClaim) (claim : ReachabilityClaim) → TreeSays t dependencies circularities claim (first_nodes claim.left) }
{}

/// An edge that says so leaves a tree that says so.
pub fn an_edge_keeps_what_is_said()
    ensures { (t : Theory) (dependencies circularities : List ReachabilityClaim) (claim : ReachabilityClaim) (tree : List ProofNode) (n d : ℕ) (x : ProofNode) (s : KorePattern) (flagged : Bool) → TreeSays t dependencies circularities claim tree → arc_fault tree n ≡ None → node_at tree n ≡ Some x →
        (asked : Asked dependencies circularities x.progress) → EdgeSays (with_rules t asked.rules) asked.listed x.state s d → TreeSays t dependencies circularities claim (with_edge n d s flagged tree) }
{}

/// So does a split.
pub fn a_split_keeps_what_is_said()
    ensures { (t : Theory) (dependencies circularities : List ReachabilityClaim) (claim : ReachabilityClaim) (tree : List ProofNode) (n : ℕ) (x : ProofNode) (states : List KorePattern) → TreeSays t dependencies circularities claim tree → arc_fault tree n ≡ None → node_at tree n ≡ Some x →
        SplitSays t x.state states → TreeSays t dependencies circularities claim (with_split n states tree) }
{}

/// So does a branch.
pub fn a_branch_keeps_what_is_said()
    ensures { (t : Theory) (dependencies circularities : List ReachabilityClaim) (claim : ReachabilityClaim) (tree : List ProofNode) (n : ℕ) (x : ProofNode) (children : List BranchChild) → TreeSays t dependencies circularities claim tree → arc_fault tree n ≡ None → node_at tree n ≡ Some x →
        (asked : Asked dependencies circularities x.progress) → BranchSays (with_rules t asked.rules) x.state children → TreeSays t dependencies circularities claim (with_branch n children tree) }
{}

/// So does a cover.
pub fn a_cover_keeps_what_is_said()
    ensures { (t : Theory) (dependencies circularities : List ReachabilityClaim) (claim : ReachabilityClaim) (tree : List ProofNode) (n : ℕ) (x : ProofNode) → TreeSays t dependencies circularities claim tree → arc_fault tree n ≡ None → node_at tree n ≡ Some x → CoverSays t claim x.state → TreeSays t dependencies circularities claim (with_arc n cover tree) }
{}

/// So does a vacuous leaf.
pub fn a_vacuous_leaf_keeps_what_is_said()
    ensures { (t : Theory) (dependencies circularities : List ReachabilityClaim) (claim : ReachabilityClaim) (tree : List ProofNode) (n : ℕ) (x : ProofNode) → TreeSays t dependencies circularities claim tree → arc_fault tree n ≡ None → node_at tree n ≡ Some x → VacuousSays t claim x.state → TreeSays t dependencies circularities claim (with_arc n vacuous tree) }
{}

/// So does a stuck leaf.
pub fn a_stuck_leaf_keeps_what_is_said()
    ensures { (t : Theory) (dependencies circularities : List ReachabilityClaim) (claim : ReachabilityClaim) (tree : List ProofNode) (n : ℕ) (x : ProofNode) → TreeSays t dependencies circularities claim tree → arc_fault tree n ≡ None → node_at tree n ≡ Some x → StuckSays t x.state → TreeSays t dependencies circularities claim (with_arc n stuck tree) }
{}

/// A terminal leaf says nothing, so what is said stays.
pub fn a_terminal_leaf_keeps_what_is_said()
    ensures { (t : Theory) (dependencies circularities : List ReachabilityClaim) (claim : ReachabilityClaim) (tree : List ProofNode) (n : ℕ) (x : ProofNode) → TreeSays t dependencies circularities claim tree → arc_fault tree n ≡ None → node_at tree n ≡ Some x → TreeSays t dependencies circularities claim (with_arc n terminal tree) }
{}

/// A node that is held has no arc, so what is said stays.
pub fn a_hold_keeps_what_is_said()
    ensures { (t : Theory) (dependencies circularities : List ReachabilityClaim) (claim : ReachabilityClaim) (tree : List ProofNode) (n : ℕ) (why : HeldBy) → TreeSays t dependencies circularities claim tree → arc_fault tree n ≡ None → TreeSays t dependencies circularities claim (with_hold n why tree) }
{}
