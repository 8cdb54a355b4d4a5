ghost use Rattle.std.specs.Prelude.{◌≡◌, ◌<◌, ◌++◌, IfSome};
ghost use Rattle.lock_script.specs.Reading.{number_in};
ghost use Rattle.mg_words.specs.Told.{BeginsWithNumber, TellsAck, TellsMarks, TellsTable};

use lock_script::number_in;

// What tasks tell people, taken apart for programs.

/// Where a command stands in the log, and what the lock table replied, in words.
#[derive(Clone, Copy, Debug)]
pub struct AckTold<'a> {
    pub place: u64,
    pub reply: &'a str,
}

/// How many commands were recovered, and the lines of the lock table after them.
#[derive(Clone, Copy, Debug)]
pub struct TableTold<'a> {
    pub recovered: u64,
    pub lines: &'a str,
}

/// How many commands were recovered, and how many of them were marked.
#[derive(Clone, Copy, Debug)]
pub struct MarksTold {
    pub recovered: u64,
    pub marked: u64,
}

/// What `ack 0 Granted` tells.
pub fn ack_in(told: &str) -> Option<AckTold<'_>>
    ensures { IfSome result (λ ack. TellsAck told.now ack.place ack.reply.now) }
{
    let line = behind(told, "ack ")?;
    let (place, rest) = number_before(line, ' ')?;
    let reply = before(rest, "\n")?;
    Some(AckTold { place, reply })
}

/// What `recovered 1` tells, and the lines behind it.
pub fn table_in(told: &str) -> Option<TableTold<'_>>
    ensures { IfSome result (λ table. TellsTable told.now table.recovered table.lines.now) }
{
    let line = behind(told, "recovered ")?;
    let (recovered, lines) = number_before(line, '\n')?;
    Some(TableTold { recovered, lines })
}

/// What `recovered 1` tells, and `marked 1 slots` behind it.
pub fn marks_in(told: &str) -> Option<MarksTold>
    ensures { IfSome result (λ marks. TellsMarks told.now marks.recovered marks.marked) }
{
    let line = behind(told, "recovered ")?;
    let (recovered, rest) = number_before(line, '\n')?;
    let second = behind(rest, "marked ")?;
    let (marked, _slots) = number_before(second, ' ')?;
    Some(MarksTold { recovered, marked })
}

/// What stands behind this word, if the text begins with it.
fn behind<'a>(text: &'a str, word: &str) -> Option<&'a str>
    ensures { IfSome result (λ rest. text.now ≡ word.now ++ rest.now) }
{
    text.strip_prefix(word)
}

/// What stands before this end, if the text has it.
fn before<'a>(text: &'a str, end: &str) -> Option<&'a str>
    ensures { IfSome result (λ front. text.now ≡ front.now ++ end.now) }
{
    text.strip_suffix(end)
}

/// The number that the text begins with, up to this character, and what stands behind it.
fn number_before(text: &str, end: char) -> Option<(u64, &str)>
    requires { end < 128 }
    ensures { IfSome result (λ cut. BeginsWithNumber text.now end cut.0 cut.1.now) }
{
    let (digits, rest) = text.split_once(end)?;
    let number = number_in(digits.as_bytes(), 0, u64::MAX)?;
    Some((number, rest))
}
