// Which symbols are constructors.
ghost use Rattle.std.specs.Prelude.{◌≡◌};
ghost use Rattle.std.specs.Option.{option_map};
ghost use Rattle.kp_kore.specs.View.{symbol_sentence_view};
ghost use Rattle.kp_signature.specs.View.{signature_view};
ghost use Rattle.kp_heads.specs.Steps.{constructor_declared};

use kp_kore::SymbolSentence;
use kp_signature::Signature;
use kp_signature::symbols::is_constructor;

/// The first declaration of the name, where it is a constructor's.
pub fn constructor_named<'a>(signature: &'a Signature, name: &str) -> Option<&'a SymbolSentence>
    ensures { option_map (λ d. symbol_sentence_view d.now) result ≡ constructor_declared (signature_view signature.now) name.now }
{
    let declaration = signature.symbol(name)?;
    if is_constructor(declaration) {
        Some(declaration)
    } else {
        None
    }
}
