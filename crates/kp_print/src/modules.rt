ghost use Rattle.std.specs.Prelude.{◌≡◌, ◌++◌, OnOk, map, string_bytes};
ghost use Rattle.kp_kore.specs.View.{sentence_view, module_view};
ghost use Rattle.kp_print.specs.Printed.{sentences_text, module_text};

use crate::patterns::push_attributes;
use crate::sentences::push_sentence;
use kp_kore::{Module, Sentence};
use std::alloc::AllocError;

/// `module NAME sentences endmodule []`.
pub fn push_module(module: &Module, text: &mut String) -> Result<(), AllocError>
    ensures { OnOk result (string_bytes text.new ≡ string_bytes text.old ++ module_text (module_view «module».now)) }
{
    text.push_str("module ")?;
    text.push_str(&module.name)?;
    push_sentences(&module.sentences, text)?;
    text.push_str(" endmodule")?;
    push_attributes(&module.attributes, text)
}

/// Sentences, each after a space.
fn push_sentences(sentences: &[Sentence], text: &mut String) -> Result<(), AllocError>
    ensures { OnOk result (string_bytes text.new ≡ string_bytes text.old ++ sentences_text (map sentence_view sentences.now)) }
{
    for sentence in sentences {
        text.push_str(" ")?;
        push_sentence(sentence, text)?;
    }
    Ok(())
}
