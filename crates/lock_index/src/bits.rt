ghost use Rattle.std.specs.Prelude.{◌≡◌};
ghost use Rattle.lock_index.specs.Bits.{bit_of, bits_against};

use lock_command::Mode;

/// The bits of the modes under which nobody else writes.
pub const WRITERS: u8 = 0b11_0000;

/// The bit of a mode.
pub fn bit_of(mode: Mode) -> u8
    ensures { result ≡ bit_of mode }
{
    match mode {
        Mode::Null => 0b1,
        Mode::ConcurrentRead => 0b10,
        Mode::ConcurrentWrite => 0b100,
        Mode::ProtectedRead => 0b1000,
        Mode::ProtectedWrite => 0b1_0000,
        Mode::Exclusive => 0b10_0000,
    }
}

/// The bits of the modes that conflict with one.
pub fn bits_against(mode: Mode) -> u8
    ensures { result ≡ bits_against mode }
{
    match mode {
        Mode::Null => 0,
        Mode::ConcurrentRead => 0b10_0000,
        Mode::ConcurrentWrite => 0b11_1000,
        Mode::ProtectedRead => 0b11_0100,
        Mode::ProtectedWrite => 0b11_1100,
        Mode::Exclusive => 0b11_1110,
    }
}
