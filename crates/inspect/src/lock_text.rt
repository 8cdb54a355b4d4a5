ghost use Rattle.std.specs.Prelude.{◌≡◌, OnOk};
ghost use Rattle.std.specs.Io.KnownBytes.{Appends};
ghost use Rattle.inspect.specs.Text.{state_word, mode_words, mode_name, word, lock_line};

use lock_command::Mode;
use lock_table::{LockRecord, LockState};
use std::io;
use std::io::Write;

/// Writes the line of a lock.
pub fn lock_line<W: Write>(lock: &LockRecord, out: &mut W) -> io::Result<()>
    ensures { OnOk result (Appends (W.contents out.old) (W.contents out.new) (lock_line lock.now)) }
{
    out.write_all(b"  ")?;
    out.write_all(state_word(&lock.state))?;
    let number = lock.lock.get();
    let client = lock.client.get();
    let host = lock.host.get();
    write!(out, " {number} {client} {host}")?;
    modes(&lock.state, out)?;
    out.write_all(b"\n")
}

/// What the lock does.
fn state_word(state: &LockState) -> &'static [u8]
    ensures { result.now ≡ state_word state.now }
{
    match state {
        LockState::Granted(_) => b"granted",
        LockState::Converting { .. } => b"converting",
        LockState::Waiting(_) => b"waiting",
    }
}

/// Writes what the lock holds, and what it wants.
fn modes<W: Write>(state: &LockState, out: &mut W) -> io::Result<()>
    ensures { OnOk result (Appends (W.contents out.old) (W.contents out.new) (mode_words state.now)) }
{
    match state {
        LockState::Granted(mode) | LockState::Waiting(mode) => mode_word(*mode, out),
        LockState::Converting { held, wanted } => {
            mode_word(*held, out)?;
            mode_word(*wanted, out)
        }
    }
}

fn mode_word<W: Write>(mode: Mode, out: &mut W) -> io::Result<()>
    ensures { OnOk result (Appends (W.contents out.old) (W.contents out.new) (word (mode_name mode))) }
{
    out.write_all(b" ")?;
    out.write_all(mode_name(mode))
}

/// The name of a mode.
fn mode_name(mode: Mode) -> &'static [u8]
    ensures { result.now ≡ mode_name mode }
{
    match mode {
        Mode::Null => b"NL",
        Mode::ConcurrentRead => b"CR",
        Mode::ConcurrentWrite => b"CW",
        Mode::ProtectedRead => b"PR",
        Mode::ProtectedWrite => b"PW",
        Mode::Exclusive => b"EX",
    }
}
