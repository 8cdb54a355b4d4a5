ghost use Rattle.std.specs.Prelude.{◌≡◌, ◌<◌, length, IfOk};

use std::alloc::AllocError;
use std::marker::Model;

/// Bytes that are given to fill positions: at least one.
#[derive(Debug, Drop)]
pub struct FaultBytes {
    bytes: Vec<u8>,
}

impl Model for FaultBytes {
    ghost use Rattle.std.specs.Prelude.{List, ℕ, ◌<◌, length};

    ghost Value = { List ℕ };

    ghost view = { λ given. given.bytes.items };

    ghost invariant = { λ given. 0 < length given.bytes.items };
}

impl FaultBytes {
    /// These bytes, of which there has to be one.
    pub fn new(bytes: Vec<u8>) -> FaultBytes
        requires { 0 < length bytes.items }
        ensures { result ≡ bytes.items }
    {
        FaultBytes { bytes }
    }

    pub fn as_slice(&self) -> &[u8]
        ensures bytes { result.now ≡ self.now }
        ensures some { 0 < length self.now }
    {
        &self.bytes
    }

    /// A copy of these bytes.
    pub fn copy(&self) -> Result<FaultBytes, AllocError>
        ensures { IfOk result (λ copy. copy ≡ self.now) }
    {
        Ok(FaultBytes {
            bytes: self.bytes.clone()?,
        })
    }
}
