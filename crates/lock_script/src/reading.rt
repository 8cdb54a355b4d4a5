ghost use Rattle.std.specs.Prelude.{◌≡◌, ℕ, IfOk};
ghost use Rattle.lock_script.specs.Lines.{lines_of};
ghost use Rattle.lock_script.specs.Script.{content_of, IsScript, IsFirstBad};

use crate::draft::Draft;
use crate::lines::{first_line, is_passed_over};
use crate::script::{Script, ScriptFault};
use std::alloc::Global;

/// The script with these bytes, or the number of its first bad line.
pub fn read_script(alloc: Global, bytes: &[u8]) -> Result<Script, ScriptFault>
    ensures script { IfOk result (λ script. IsScript (lines_of bytes.now) (content_of script)) }
    ensures bad { (n : ℕ) → result ≡ Err (ScriptFault.BadLine n) → IsFirstBad (lines_of bytes.now) n }
{
    let mut draft = Draft::new(alloc);
    let mut lines = 0;
    let mut rest = bytes;
    'lines: while !rest.is_empty() {
        let (line, behind) = first_line(rest);
        lines += 1;
        rest = behind;
        if is_passed_over(line) {
            continue;
        }
        if let Err(fault) = draft.add(alloc, line) {
            return Err(fault.at(lines));
        }
    }
    let Draft {
        config,
        log,
        events,
        shows,
    } = draft;
    match config {
        Some(config) => Ok(Script {
            config,
            log,
            events,
            shows,
        }),
        None => Err(ScriptFault::BadLine(lines + 1)),
    }
}
