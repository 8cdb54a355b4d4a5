ghost use Rattle.std.specs.Prelude.{◌≡◌, not, true};
ghost use Rattle.lock_command.specs.Mode.{conflict, downward, writes_alone};

/// What a lock permits its holder, and what it keeps others from. The modes are those of the OpenVMS lock manager.
#[derive(Clone, Copy, Debug, PartialEq, Eq)]
pub enum Mode {
    /// Permits nothing and keeps nobody out: a place in the table from which to convert.
    Null,
    /// Reads, while others read and write.
    ConcurrentRead,
    /// Writes, while others write too.
    ConcurrentWrite,
    /// Reads, while nobody writes.
    ProtectedRead,
    /// Writes, while nobody else does.
    ProtectedWrite,
    /// Keeps everybody else out.
    Exclusive,
}

/// A row for each held mode, and in it an answer for each wanted mode, in the order of `Mode`.
macro_rules! compatibility {
    ($a:expr, $b:expr; $($held:ident: $null:literal $cr:literal $cw:literal $pr:literal $pw:literal $ex:literal;)*) => {
        match $a {
            $(Mode::$held => match $b {
                Mode::Null => $null,
                Mode::ConcurrentRead => $cr,
                Mode::ConcurrentWrite => $cw,
                Mode::ProtectedRead => $pr,
                Mode::ProtectedWrite => $pw,
                Mode::Exclusive => $ex,
            },)*
        }
    };
}

/// Whether two locks of one name may hold these modes at once.
pub fn compatible(a: Mode, b: Mode) -> bool
    ensures no_conflict { result ≡ not (conflict a b) }
{
    compatibility! { a, b;
        Null: true true true true true true;
        ConcurrentRead: true true true true true false;
        ConcurrentWrite: true true true false false false;
        ProtectedRead: true true false true false false;
        ProtectedWrite: true true false false false false;
        Exclusive: true false false false false false;
    }
}

/// Whether nobody else writes what the holder of this mode writes.
pub fn writes_alone(mode: Mode) -> bool
    ensures alone { result ≡ writes_alone mode }
{
    matches!(mode, Mode::ProtectedWrite | Mode::Exclusive)
}

/// Whether a conversion goes downward: from EX to any mode, or from PW to any but EX. No lock that is compatible with the held
/// mode conflicts with the wanted one, so it can always be granted.
pub fn downward(held: Mode, wanted: Mode) -> bool
    ensures value { result ≡ downward held wanted }
    ensures no_new_conflict { (other : Mode) → downward held wanted ≡ true → conflict other wanted ≡ true → conflict other held ≡ true }
{
    match held {
        Mode::Exclusive => true,
        Mode::ProtectedWrite => wanted != Mode::Exclusive,
        _ => false,
    }
}
