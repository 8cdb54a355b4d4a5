ghost use Rattle.std.specs.Prelude.{◌≡◌, ◌≤◌, length, IsTrue};
ghost use Rattle.std.specs.List.{list_all};
ghost use Rattle.std.specs.Option.{SomeIff};
ghost use Rattle.lock_command.specs.declared.name.TheConstants.LockName.{LONGEST};
ghost use Rattle.lock_command.specs.Name.{is_name, is_name_byte, IsName};

use std::marker::Model;

/// The name that locks are taken on: 1 to 15 printable bytes, none of them a space.
#[derive(Clone, Copy, Debug)]
pub struct LockName {
    /// The name, and zeros behind it.
    bytes: [u8; LockName::LONGEST],
    len: u8,
}

impl Model for LockName {
    ghost use Rattle.std.specs.Prelude.{List, ℕ, length, take};
    ghost use Rattle.lock_command.specs.Name.{padded};

    ghost Value = { List ℕ };

    ghost use Rattle.lock_command.specs.NameFields.{IsKept};

    ghost view = { λ name. take name.len name.bytes };

    ghost invariant = { IsKept };

    ghost inverse = { λ bytes. record { bytes = padded bytes; len = length bytes } };
}

impl LockName {
    /// The most bytes that a name has.
    pub const LONGEST: usize = 15;

    /// The name of these bytes, if they are one.
    pub fn new(bytes: &[u8]) -> Option<Self>
        ensures name { SomeIff result (IsName bytes.now) bytes.now }
    {
        if !is_name(bytes) {
            return None;
        }
        let mut padded = [0; Self::LONGEST];
        padded[..bytes.len()].copy_from_slice(bytes);
        Some(LockName {
            bytes: padded,
            len: bytes.len() as u8,
        })
    }

    /// The bytes of the name, without padding.
    pub fn as_bytes(&self) -> &[u8]
        ensures value { result.now ≡ self.now }
        ensures name { IsName self.now }
        ensures few { length result.now ≤ LONGEST }
    {
        &self.bytes[..self.len as usize]
    }
}

impl PartialEq for LockName {
    ghost use Rattle.std.proofs.Common.{rules};
    ghost use Rattle.std.specs.Cmp.Rules.{comparing};
    ghost use Rattle.lock_command.specs.Name.{same_name};

    ghost eq = { same_name };

    ghost laws = { Prim.search (comparing, rules) };

    fn eq(&self, other: &LockName) -> bool {
        self.as_bytes() == other.as_bytes()
    }
}

/// Whether the bytes are 1 to 15, each printable and no space.
fn is_name(bytes: &[u8]) -> bool
    ensures value { result ≡ is_name bytes.now }
    ensures few { IsTrue result → length bytes.now ≤ LONGEST }
{
    let len = bytes.len();
    1 <= len && len <= LockName::LONGEST && is_printable(bytes)
}

fn is_printable(bytes: &[u8]) -> bool
    ensures { result ≡ list_all is_name_byte bytes.now }
{
    bytes.iter().all(|b| is_name_byte(*b))
}

fn is_name_byte(b: u8) -> bool
    ensures { result ≡ is_name_byte b }
{
    (0x21..=0x7e).contains(&b)
}
