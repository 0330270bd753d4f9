// Names of constructors and variables, shared.
ghost use Rattle.std.specs.Prelude.{◌≡◌, ◌↔◌, IsTrue, IfOk, string_bytes};

use std::alloc::AllocError;
use std::sync::Arc;

/// Whether two names are the same.
pub fn same_name(name: &Arc<String>, other: &Arc<String>) -> bool
    ensures { IsTrue result ↔ (string_bytes name.now.value ≡ string_bytes other.now.value) }
{
    **name == **other
}

/// The same name, shared.
pub fn share_name(name: &Arc<String>) -> Result<Arc<String>, AllocError>
    ensures { IfOk result (λ copy. copy.value ≡ name.now.value) }
{
    Ok(name.clone()?)
}
