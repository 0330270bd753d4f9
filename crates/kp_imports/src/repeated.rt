// Names that stand twice in a list.
ghost use Rattle.std.specs.Prelude.{◌≡◌, ◌++◌, ◌∷◌, [], List, IfOk, MatchOption, not, string_bytes};
ghost use Rattle.kp_kore.specs.Syntax.{Text};
ghost use Rattle.kp_imports.specs.Names.{IsFirstRepeated, AreOnce, Lists, texts_of};
ghost use Rattle.kp_imports.specs.Reaching.{has};

use indexmap::IndexMap;
use kp_kore::Name;
use std::alloc::{AllocError, Global};

/// The names that were met so far.
pub type Met = IndexMap<Name, ()>;

/// The first name that stands a second time, where there is one.
pub fn repeated_name(alloc: Global, names: &[&Name]) -> Result<Option<Name>, AllocError>
    ensures { IfOk result (λ o. MatchOption o (AreOnce (texts_of names.now)) (λ n. IsFirstRepeated (string_bytes n) (texts_of names.now))) }
{
    match first_repeated(alloc, names)? {
        Some(name) => Ok(Some(name.clone()?)),
        None => Ok(None),
    }
}

/// The first name that stands a second time.
fn first_repeated<'a>(alloc: Global, names: &[&'a Name]) -> Result<Option<&'a Name>, AllocError>
    ensures { IfOk result (λ o. MatchOption o (AreOnce (texts_of names.now)) (λ n. IsFirstRepeated (string_bytes n.now) (texts_of names.now))) }
{
    let mut met = IndexMap::new(alloc);
    for i in 0..names.len() {
        let name = names[i];
        if !meet(&mut met, name)? {
            return Ok(Some(name));
        }
    }
    Ok(None)
}

/// Notes a name; tells whether it is new.
pub fn meet(met: &mut Met, name: &Name) -> Result<bool, AllocError>
    ensures { let name' = string_bytes name.now in (names : List Text) → Lists names met.old → IfOk result (λ new. (new ≡ not (has name' names)) × Lists (names ++ name' ∷ []) met.new) }
{
    if met.contains_key(name.as_str()) {
        return Ok(false);
    }
    met.insert(name.clone()?, ())?;
    Ok(true)
}
