// What every way to cut a stream has in common.
ghost use Rattle.std.specs.Prelude.{◌≡◌, ◌++◌, ℕ, Bool, List};
ghost use Rattle.kp_frames.specs.Frames.{Cuts};
ghost use Rattle.kp_frames.specs.Held.{Cutting, HasCut};

/// Each stream has frames and a rest, whatever the limit.
pub fn every_stream_is_cut()
    ensures { (limit : ℕ) → (bytes : List ℕ) → (frames : List (List ℕ)) × (rest : List ℕ) × (is_full : Bool) × Cuts limit bytes frames rest is_full }
{}

/// A stream's frames, its rest and whether that is full are determined by its bytes and the limit.
pub fn a_stream_is_cut_in_one_way()
    ensures { (limit : ℕ) → (bytes : List ℕ) → (fs gs : List (List ℕ)) → (r s : List ℕ) → (f g : Bool) → Cuts limit bytes fs r f → Cuts limit bytes gs s g → (fs ≡ gs) × (r ≡ s) × (f ≡ g) }
{}

/// More bytes behind a stream take no frame back.
pub fn what_is_cut_stays_cut()
    ensures { (limit : ℕ) → (bytes more : List ℕ) → (fs gs : List (List ℕ)) → (r s : List ℕ) → (f g : Bool) → Cuts limit bytes fs r f → Cuts limit (bytes ++ more) gs s g → (new : List (List ℕ)) × (gs ≡ fs ++ new) }
{}

/// Two cutters of one limit, fed the same bytes in whatever pieces, gave the same frames and hold the same rest.
pub fn pieces_do_not_matter()
    ensures { (c d : Cutting) → (bytes : List ℕ) → (fs gs : List (List ℕ)) → c.limit ≡ d.limit → HasCut c bytes fs → HasCut d bytes gs → (fs ≡ gs) × (c.rest ≡ d.rest) × (c.is_full ≡ d.is_full) }
{}
