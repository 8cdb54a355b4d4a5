ghost use Rattle.std.specs.Prelude.{◌≡◌, ◌⊎◌, ℕ, IfOk};
ghost use Rattle.lock_script.specs.Lines.{lines_of};
ghost use Rattle.lock_script.specs.Script.{IsFirstBad, IsScript};
ghost use Rattle.epoch_script.specs.Scripts.{IsAnyScript, IsBadLine, IsFirstLogged, endless_content};

use crate::any_script::{AnyScript, EpochScript};
use crate::lines::second_said;
use crate::plain::plain_bytes;
use lock_script::{Script, ScriptFault, read_script};
use std::alloc::Global;

/// The script with these bytes, over a log of either kind, or the number of its first bad line.
pub fn read_any_script(alloc: Global, bytes: &[u8]) -> Result<AnyScript, ScriptFault>
    ensures script { IfOk result (IsAnyScript (lines_of bytes.now)) }
    ensures bad { (n : ℕ) → result ≡ Err (ScriptFault.BadLine n) → IsBadLine (lines_of bytes.now) n }
{
    match plain_bytes(alloc, bytes) {
        Ok(Some(plain)) => Ok(AnyScript::Endless(read_plain(alloc, plain.as_slice())?)),
        Ok(None) => Ok(AnyScript::Ending(read_script(alloc, bytes)?)),
        Err(_) => Err(ScriptFault::NoMemory),
    }
}

/// The script over a log without an end with these bytes, from which the word is taken away. Its log does not begin with commands.
fn read_plain(alloc: Global, bytes: &[u8]) -> Result<EpochScript, ScriptFault>
    ensures script { IfOk result (λ script. IsScript (lines_of bytes.now) (endless_content script)) }
    ensures bad { (n : ℕ) → result ≡ Err (ScriptFault.BadLine n) →
        IsFirstBad (lines_of bytes.now) n ⊎ IsFirstLogged (lines_of bytes.now) n }
{
    let Script {
        config,
        log,
        events,
        shows,
    } = read_script(alloc, bytes)?;
    if !log.is_empty() {
        return Err(ScriptFault::BadLine(second_said(bytes)));
    }
    Ok(EpochScript {
        config,
        events,
        shows,
    })
}

#[cfg(test)]
mod tests {
    use super::*;
    use std::test::Fail;

    #[test]
    fn word_tells_the_kind(rt: HostRuntime) -> Result<(), Fail> {
        let rows: [(&[u8], Option<usize>, bool); 12] = [
            (b"cluster 3 4\nstart 0\n", None, false),
            (b"cluster 3 4 epochs\nstart 0\n", None, true),
            (b"# one\n\ncluster 3 4 epochs", None, true),
            (
                b"cluster 3 4 epochs\nlook 0\nshow 0\nstep 0 7\nlook 1",
                None,
                true,
            ),
            (
                b"cluster 3 4 epochs\n#\nlog 0 enqueue 1 1 1 EX a\nstop 0\n",
                Some(3),
                false,
            ),
            (
                b"cluster 3 4 epochs\nlog 0 enqueue 1 1 1 EX a\nstop\n",
                Some(3),
                false,
            ),
            (b"cluster 3 4 epochs epochs\n", Some(1), false),
            (b"\n epochs\n", Some(2), false),
            (b"cluster 3 4 epoch\n", Some(1), false),
            (b"cluster 3 4\ncluster 3 4 epochs\n", Some(2), false),
            (b"cluster 3 4 epochs\nmark 0 4\n", Some(2), false),
            (b"#cluster 3 4 epochs", Some(2), false),
        ];
        for (bytes, bad, endless) in rows {
            match read_any_script(rt.alloc(), bytes) {
                Ok(AnyScript::Ending(_)) => assert!(rt; bad.is_none() && !endless),
                Ok(AnyScript::Endless(_)) => assert!(rt; bad.is_none() && endless),
                Err(ScriptFault::BadLine(n)) => assert_eq!(rt; Some(n), bad),
                Err(ScriptFault::NoMemory) => assert!(rt; false),
            }
        }
        Ok(())
    }
}
