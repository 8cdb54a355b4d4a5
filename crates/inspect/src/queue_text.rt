ghost use Rattle.std.specs.Prelude.{◌<◌, [], OnOk};
ghost use Rattle.std.specs.Io.KnownBytes.{Appends};
ghost use Rattle.inspect.specs.Text.{queues_text, name_line, lines_behind};

use crate::lock_text::lock_line;
use crate::value_text::value_words;
use lock_table::{LockRecord, LockValue, Picture};
use std::io;
use std::io::Write;

/// Writes the queues of each name that has locks.
pub fn queues<W: Write>(picture: &Picture, out: &mut W) -> io::Result<()>
    ensures { OnOk result (Appends (W.contents out.old) (W.contents out.new) (queues_text picture.now)) }
{
    let values = picture.values();
    match picture.locks() {
        [] => out.write_all(b"empty\n"),
        locks => lines(locks, values, out),
    }
}

/// Writes the lines of locks, with the value of the name beside each.
fn lines<W: Write>(locks: &[LockRecord], values: &[LockValue], out: &mut W) -> io::Result<()>
    ensures { OnOk result (Appends (W.contents out.old) (W.contents out.new) (lines_behind [] locks.now values.now)) }
{
    let mut before: &[u8] = &[];
    let count = locks.len().min(values.len());
    for at in 0..count {
        let record = &locks[at];
        let name = record.name.as_bytes();
        name_line(before, name, &values[at], out)?;
        lock_line(record, out)?;
        before = name;
    }
    Ok(())
}

/// Writes the line of a name and its value, if the lock before is on another name.
fn name_line<W: Write>(before: &[u8], name: &[u8], value: &LockValue, out: &mut W) -> io::Result<()>
    ensures { OnOk result (Appends (W.contents out.old) (W.contents out.new) (name_line before.now name.now value.now)) }
{
    if before == name {
        return Ok(());
    }
    out.write_all(name)?;
    value_words(value, out)?;
    out.write_all(b"\n")
}
