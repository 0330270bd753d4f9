ghost use Rattle.std.specs.Prelude.{◌≡◌};
ghost use Rattle.kp_text.specs.Tokens.{utf8_front, utf8_tail};

use crate::tail::Tail;

/// The longest front that is UTF-8, and what follows it.
#[tactic(auto, using(crate::proofs::Fronts::whole_front, crate::proofs::Fronts::whole_tail, crate::proofs::Fronts::cut_front, crate::proofs::Fronts::cut_tail, crate::proofs::Fronts::bad_tail))]
pub fn front_and_tail(bytes: &[u8]) -> (&str, Tail)
    ensures front { result.0.now ≡ utf8_front bytes.now }
    ensures tail { result.1 ≡ utf8_tail bytes.now }
{
    match std::str::from_utf8(bytes) {
        Ok(text) => (text, Tail::Whole),
        Err(e) => {
            let tail = match e.error_len() {
                Some(_) => Tail::Bad,
                None => Tail::Cut,
            };
            match std::str::from_utf8(&bytes[..e.valid_up_to()]) {
                Ok(text) => (text, tail),
                Err(_) => ("", tail),
            }
        }
    }
}
