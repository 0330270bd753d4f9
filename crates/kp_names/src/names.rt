// Names that were met.
ghost use Rattle.std.specs.Prelude.{◌≡◌, ◌++◌, ◌∷◌, [], List, OnOk, string_bytes};
ghost use Rattle.std.specs.List.{list_any};
ghost use Rattle.std.specs.Str.{bytes_eq};
ghost use Rattle.kp_kore.specs.Syntax.{Text};
ghost use Rattle.kp_names.specs.Met.{Lists};

use indexmap::IndexMap;
use kp_kore::Name;
use std::alloc::AllocError;

/// The names so far, each once.
pub type Names = IndexMap<Name, ()>;

/// Whether the name was met before.
pub fn is_noted(names: &Names, name: &Name) -> bool
    ensures { (before : List Text) → Lists before names.now → result ≡ list_any (bytes_eq (string_bytes name.now)) before }
{
    names.contains_key(name.as_str())
}

/// Notes a name.
pub fn note(names: &mut Names, name: &Name) -> Result<(), AllocError>
    ensures { (before : List Text) → Lists before names.old → OnOk result (Lists (before ++ string_bytes name.now ∷ []) names.new) }
{
    names.insert(name.clone()?, ())?;
    Ok(())
}
