ghost use Rattle.std.specs.Prelude.{◌≡◌};
ghost use Rattle.kp_registry.specs.Legal.{id_of as stated_id};

use sha2::{Digest, Sha256};

/// The id of a module: m and 64 lower-case hexadecimal digits.
pub type Id = [u8; 65];

/// The id of a module's text, without memory.
/// Source: the K Haskell backend's JSON-RPC documentation (add-module); SHA-256 (FIPS 180-4).
pub fn id_of(text: &[u8]) -> Id
    ensures { result ≡ stated_id text.now }
{
    let digest = Sha256::digest(text);
    let mut id = [b'm'; 65];
    let _written = hex::encode_to_slice(digest, &mut id[1..]);
    id
}
