ghost use Rattle.std.specs.Prelude.{◌≡◌};
ghost use Rattle.lock_script.specs.Reading.{mode_of};

use lock_command::Mode;

/// The mode that a word of a script names.
#[tactic(auto, unfolding(crate::specs::Reading::mode_of))]
pub fn mode_of(word: &[u8]) -> Option<Mode>
    ensures { result ≡ mode_of word.now }
{
    match word {
        b"NL" => Some(Mode::Null),
        b"CR" => Some(Mode::ConcurrentRead),
        b"CW" => Some(Mode::ConcurrentWrite),
        b"PR" => Some(Mode::ProtectedRead),
        b"PW" => Some(Mode::ProtectedWrite),
        b"EX" => Some(Mode::Exclusive),
        _ => None,
    }
}
