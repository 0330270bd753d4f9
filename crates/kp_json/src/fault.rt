ghost use Rattle.std.specs.Prelude.{◌≡◌, ◌⊎◌, None, Some};
ghost use Rattle.kp_json.specs.Faults.{unknown_tag, missing_member, wrong_kind, wrong_format};
ghost use Rattle.kp_json.specs.View.{fault_of};

use std::alloc::{AllocError, AllocFailed, Global};

/// What is wrong with a tree that spells no pattern.
#[derive(Drop)]
pub enum JsonFault {
    /// J1: no such tag.
    NoTag { name: String },
    /// J2: a member is missing.
    Missing { name: String },
    /// J3: a member is of another kind.
    OtherKind { name: String },
    /// J4: another format or version.
    OtherFormat { name: String },
    /// J5: nested deeper than 100 patterns.
    TooDeep,
}

/// Why no pattern was read.
#[derive(Drop)]
pub enum JsonError {
    Memory,
    Fault(JsonFault),
}

impl From<AllocError> for JsonError {
    ghost use Rattle.std.specs.Prelude.{◌≡◌};
    ghost use Rattle.kp_json.specs.declared.fault.JsonError.TheVariants.{Memory};

    ghost from_gives = { λ _ e. e ≡ Memory };

    fn from(_error: AllocError) -> Self {
        JsonError::Memory
    }
}

impl<T: Drop> From<AllocFailed<T>> for JsonError {
    ghost use Rattle.std.specs.Prelude.{◌≡◌};
    ghost use Rattle.kp_json.specs.declared.fault.JsonError.TheVariants.{Memory};

    ghost from_gives = { λ _ e. e ≡ Memory };

    fn from(_error: AllocFailed<T>) -> Self {
        JsonError::Memory
    }
}

/// J1.
pub fn no_tag(alloc: Global, name: &str) -> JsonError
    ensures { (fault_of result ≡ None) ⊎ (fault_of result ≡ Some (unknown_tag name.now)) }
{
    match String::from_str(alloc, name) {
        Ok(name) => JsonError::Fault(JsonFault::NoTag { name }),
        Err(_) => JsonError::Memory,
    }
}

/// J2.
pub fn missing(alloc: Global, name: &str) -> JsonError
    ensures { (fault_of result ≡ None) ⊎ (fault_of result ≡ Some (missing_member name.now)) }
{
    match String::from_str(alloc, name) {
        Ok(name) => JsonError::Fault(JsonFault::Missing { name }),
        Err(_) => JsonError::Memory,
    }
}

/// J3.
pub fn other_kind(alloc: Global, name: &str) -> JsonError
    ensures { (fault_of result ≡ None) ⊎ (fault_of result ≡ Some (wrong_kind name.now)) }
{
    match String::from_str(alloc, name) {
        Ok(name) => JsonError::Fault(JsonFault::OtherKind { name }),
        Err(_) => JsonError::Memory,
    }
}

/// J4.
pub fn other_format(alloc: Global, name: &str) -> JsonError
    ensures { (fault_of result ≡ None) ⊎ (fault_of result ≡ Some (wrong_format name.now)) }
{
    match String::from_str(alloc, name) {
        Ok(name) => JsonError::Fault(JsonFault::OtherFormat { name }),
        Err(_) => JsonError::Memory,
    }
}
