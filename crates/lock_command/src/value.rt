ghost use Rattle.std.specs.Prelude.{◌≡◌, length};

use std::marker::Model;

/// How many bytes a lock value has.
pub const LOCK_VALUE_LENGTH: usize = 16;

/// The bytes of a lock value: what a lock that holds PW or EX stores under its name for later locks.
#[derive(Clone, Copy, Debug, PartialEq, Eq)]
pub struct ValueBytes([u8; LOCK_VALUE_LENGTH]);

impl Model for ValueBytes {
    ghost use Rattle.std.specs.Prelude.{◌≡◌, List, ℕ, length};
    ghost use Rattle.lock_command.specs.declared.value.TheConstants.{LOCK_VALUE_LENGTH};

    ghost Value = { List ℕ };

    ghost view = { λ value. value.0 };

    ghost invariant = { λ value. length value.0 ≡ LOCK_VALUE_LENGTH };

    ghost inverse = { λ bytes. record { 0 = bytes } };
}

impl ValueBytes {
    pub fn new(bytes: [u8; LOCK_VALUE_LENGTH]) -> Self
        ensures value { result ≡ bytes }
    {
        ValueBytes(bytes)
    }

    pub fn get(self) -> [u8; LOCK_VALUE_LENGTH]
        ensures value { result ≡ self }
        ensures long { length result ≡ LOCK_VALUE_LENGTH }
    {
        self.0
    }
}
