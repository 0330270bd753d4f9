// What requests ask of a signature, looked up once.
ghost use Rattle.std.specs.Prelude.{◌≡◌, IfOk, string_bytes};
ghost use Rattle.std.specs.Option.{option_map};
ghost use Rattle.std.proofs.Props.{props};
ghost use Rattle.kp_kore.specs.Hooks.{addition as sum, subtraction as difference};
ghost use Rattle.kp_signature.specs.View.{signature_view};
ghost use Rattle.kp_symbolic.specs.Folding.{least_symbol as least_named};

use kp_heads::HeadTable;
use kp_signature::Signature;
use kp_symbolic::Language;
use std::alloc::{AllocError, Global};
use std::sync::Arc;

/// A signature, and what is looked up of it once for all requests: which of its sorts and constructors have values, and
/// the symbols by which sums are written over it.
pub struct Prepared {
    pub signature: Arc<Signature>,
    pub heads: HeadTable,
    addition: Option<Arc<String>>,
    subtraction: Option<Arc<String>>,
    ghost added: { option_map (λ f. string_bytes f.value) addition ≡ least_named (signature_view signature.value) sum } by { Prim.hlevel props },
    ghost subtracted: { option_map (λ f. string_bytes f.value) subtraction ≡ least_named (signature_view signature.value) difference } by { Prim.hlevel props },
}

// Written out: a derived one is proved again, with those of all that it holds, in each crate that owns such a value.
impl Drop for Prepared {
    fn drop(self) {
        let Prepared {
            signature: _signature,
            heads: _heads,
            addition: _addition,
            subtraction: _subtraction,
        } = self;
    }
}

impl Prepared {
    ghost use Rattle.kp_symbolic.specs.Languages.{language_view};
    ghost use Rattle.kp_methods.specs.Prepared.{IsPrepared, signature_in};

    /// What is looked up of a signature, in time in proportion to it.
    pub fn new(alloc: Global, signature: Arc<Signature>) -> Result<Prepared, AllocError>
        ensures signature { IfOk result (λ p. signature_in p ≡ signature_view signature.value) }
        ensures prepared { IfOk result IsPrepared }
    {
        let heads = HeadTable::new(alloc, &signature)?;
        let Language {
            signature: _signature,
            addition,
            subtraction,
        } = Language::new(alloc, &signature)?;
        Ok(Prepared {
            signature,
            heads,
            addition,
            subtraction,
        })
    }

    /// The language of the signature, without another look at its symbols.
    pub fn language(&self) -> Result<Language<'_>, AllocError>
        ensures { IfOk result (λ l. language_view l ≡ signature_in self.now) }
    {
        let addition = shared(&self.addition)?;
        let subtraction = shared(&self.subtraction)?;
        Ok(Language {
            signature: &self.signature,
            addition,
            subtraction,
        })
    }
}

/// The same name, where there is one.
fn shared(name: &Option<Arc<String>>) -> Result<Option<Arc<String>>, AllocError>
    ensures { IfOk result (λ same. option_map (λ f. string_bytes f.value) same ≡ option_map (λ f. string_bytes f.value) name.now) }
{
    match name {
        Some(name) => Ok(Some(name.clone()?)),
        None => Ok(None),
    }
}
