ghost use Rattle.std.specs.Prelude.{◌≡◌, ◌∷◌, ◌++◌, [], ⊤, IfOk, IfErr, OnOk, OnErr, length, map, option_map, slice_get};
ghost use Rattle.kp_io.specs.Outside.{CountsFault};
ghost use Rattle.kp_client.specs.Script.{script_state};
ghost use Rattle.kp_client.specs.View.{exchanges_view};

use crate::link::{Link, LinkError};
use std::alloc::{AllocError, Global};

/// A frame, and the line that replied to it.
#[derive(Drop)]
pub struct Spoken {
    pub frame: Vec<u8>,
    pub reply: Vec<u8>,
}

/// A link in memory that gives the lines of a script in order, and fails behind the last.
#[derive(Drop)]
pub struct ScriptLink {
    /// The lines that it gives, one for each question.
    pub script: Vec<Vec<u8>>,
    /// What was asked and replied so far, in order.
    pub spoken: Vec<Spoken>,
    /// How often it failed, up to the greatest number of 64 bits.
    pub faults: u64,
}

impl ScriptLink {
    /// A link with this script, over which nothing was asked yet.
    pub fn new(alloc: Global, script: Vec<Vec<u8>>) -> ScriptLink
        ensures script { result.script.items ≡ script.items }
        ensures spoken { result.spoken.items ≡ [] }
        ensures faults { result.faults ≡ 0 }
    {
        ScriptLink {
            script,
            spoken: Vec::new(alloc),
            faults: 0,
        }
    }

    /// The line that replies to the next question: none behind the last.
    fn next_line(&self) -> Option<&[u8]>
        ensures { option_map (λ line. line.now) result ≡ slice_get (map (λ line. line.items) self.now.script.items) (length self.now.spoken.items) }
    {
        match self.script.get(self.spoken.len()) {
            Some(line) => Some(line),
            None => None,
        }
    }

    /// Counts one more failure.
    fn count_fault(&mut self)
        ensures spoken { self.new.spoken ≡ self.old.spoken }
        ensures script { self.new.script ≡ self.old.script }
        ensures rose { CountsFault self.old.faults self.new.faults ⊤ }
    {
        self.faults = self.faults.saturating_add(1);
    }

    /// Notes one more exchange.
    fn note(&mut self, frame: Vec<u8>, reply: Vec<u8>) -> Result<(), LinkError>
        ensures noted { OnOk result (exchanges_view self.new.spoken.items ≡ exchanges_view self.old.spoken.items ++ record { frame = frame.items; reply = reply.items } ∷ []) }
        ensures kept { OnErr result (exchanges_view self.new.spoken.items ≡ exchanges_view self.old.spoken.items) }
        ensures faults { self.new.faults ≡ self.old.faults }
        ensures script { self.new.script ≡ self.old.script }
        ensures memory { IfErr result (λ e. e ≡ LinkError.Memory) }
    {
        match self.spoken.push(Spoken { frame, reply }) {
            Ok(()) => Ok(()),
            Err(_) => Err(LinkError::Memory),
        }
    }
}

/// The bytes once more.
fn copy_of(alloc: Global, bytes: &[u8]) -> Result<Vec<u8>, AllocError>
    ensures { IfOk result (λ copy. copy.items ≡ bytes.now) }
{
    Ok(bytes.to_vec(alloc)?)
}

impl Link for ScriptLink {
    ghost told = { λ s. script_state s };

    fn faults(&self) -> u64 {
        self.faults
    }

    fn ask(&mut self, alloc: Global, frame: &[u8]) -> Result<Vec<u8>, LinkError> {
        match self.next_line() {
            Some(line) => {
                let reply = copy_of(alloc, line)?;
                let noted = copy_of(alloc, line)?;
                let asked = copy_of(alloc, frame)?;
                match self.note(asked, noted) {
                    Ok(()) => Ok(reply),
                    Err(_) => Err(LinkError::Memory),
                }
            }
            None => {
                self.count_fault();
                Err(LinkError::Failed)
            }
        }
    }
}
