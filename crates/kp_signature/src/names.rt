// Where names stand first in a list.
ghost use Rattle.std.specs.Prelude.{◌≡◌, OnOk, length, string_bytes, ◌++◌, ◌∷◌, []};
ghost use Rattle.kp_signature.specs.Names.{Indexes};
ghost use Rattle.kp_kore.specs.Syntax.{Text};
ghost use Rattle.std.specs.Prelude.{List};

use indexmap::IndexMap;
use kp_kore::Name;
use std::alloc::AllocError;

/// The first place of each name.
pub type NamePlaces = IndexMap<Name, usize>;

/// Notes that a name stands at a place, the one after those of the names that are noted.
pub fn note_name(places: &mut NamePlaces, name: &Name, place: usize) -> Result<(), AllocError>
    ensures { (names : List Text) → Indexes names places.old → place ≡ length names → OnOk result (Indexes (names ++ string_bytes name.now ∷ []) places.new) }
{
    if !places.contains_key(name.as_str()) {
        places.insert(name.clone()?, place)?;
    }
    Ok(())
}
