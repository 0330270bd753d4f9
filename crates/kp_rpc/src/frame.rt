ghost use Rattle.std.specs.Prelude.{◌≡◌, IfOk, IfErr};
ghost use Rattle.serde_json.specs.Data.{Data};
ghost use Rattle.serde_json.specs.View.{view};
ghost use Rattle.kp_rpc.specs.Frame.{IsFrame};
ghost use Rattle.kp_rpc.specs.declared.frame.FrameError.TheVariants.{NoFrame};

use kp_frames::MOST_FRAME;
use serde_json::Value;
use std::alloc::Global;

/// Why bytes give no frame.
#[derive(Clone, Copy, Drop)]
pub enum FrameError {
    Memory,
    NoFrame,
}

/// The JSON object or array that a frame is. Each frame is read, and nothing else.
pub fn frame_of(alloc: Global, bytes: &[u8]) -> Result<Value, FrameError>
    ensures found { IfOk result (λ v. IsFrame bytes.now (view v)) }
    ensures only { IfErr result (λ e. e ≡ NoFrame → (d : Data) → ¬ IsFrame bytes.now d) }
{
    if bytes.len() > MOST_FRAME {
        return Err(FrameError::NoFrame);
    }
    match Value::from_slice(alloc, bytes) {
        Ok(value) => if value.is_object() || value.is_array() {
            Ok(value)
        } else {
            Err(FrameError::NoFrame)
        },
        Err(error) => if error.is_memory() {
            Err(FrameError::Memory)
        } else {
            Err(FrameError::NoFrame)
        },
    }
}
