ghost use Rattle.std.specs.Prelude.{◌≡◌, IfOk};
ghost use Rattle.json.specs.Lex.{tokens};
ghost use Rattle.json.specs.Print.{print};
ghost use Rattle.mg_words.specs.Results.{already_endless, checked, created, kind_name, made_endless, marked, replaced, submitted, tabled};

use crate::object::{Member, Value, object_of};
use std::alloc::{AllocError, Global};

// What a task came to, as one object for a program. Each is made of the same members, whatever came of it: what there is none of is null.

/// Images of a new log were made. With slots its log ends there, and without them it has no end.
pub fn created(
    alloc: Global,
    folder: &str,
    cluster: u64,
    disks: u8,
    slots: Option<u16>,
) -> Result<Vec<u8>, AllocError>
    ensures text { IfOk result (λ object. object.items ≡ print (created folder.now cluster disks slots)) }
    ensures read { IfOk result (λ object. tokens object.items ≡ created folder.now cluster disks slots) }
{
    object_of(
        alloc,
        &[
            Member {
                name: "folder",
                value: Value::Text(folder),
            },
            Member {
                name: "cluster",
                value: Value::Quoted(cluster),
            },
            Member {
                name: "disks",
                value: Value::Number(disks as u64),
            },
            Member {
                name: "slots",
                value: Value::Count(slots),
            },
            Member {
                name: "kind",
                value: Value::Text(kind_name(slots)),
            },
        ],
    )
}

/// A command was put into the log: its place there, and the reply in the words for people.
pub fn submitted<'a>(
    alloc: Global,
    folder: &'a str,
    place: u64,
    reply: &'a str,
) -> Result<Vec<u8>, AllocError>
    ensures text { IfOk result (λ object. object.items ≡ print (submitted folder.now place reply.now)) }
    ensures read { IfOk result (λ object. tokens object.items ≡ submitted folder.now place reply.now) }
{
    object_of(
        alloc,
        &[
            Member {
                name: "folder",
                value: Value::Text(folder),
            },
            Member {
                name: "place",
                value: Value::Number(place),
            },
            Member {
                name: "reply",
                value: Value::Text(reply),
            },
        ],
    )
}

/// The log was recovered: how many commands it has, and the lines that people are told of the lock table.
pub fn tabled<'a>(
    alloc: Global,
    folder: &'a str,
    recovered: u64,
    lines: &'a str,
) -> Result<Vec<u8>, AllocError>
    ensures text { IfOk result (λ object. object.items ≡ print (tabled folder.now recovered lines.now)) }
    ensures read { IfOk result (λ object. tokens object.items ≡ tabled folder.now recovered lines.now) }
{
    object_of(
        alloc,
        &[
            Member {
                name: "folder",
                value: Value::Text(folder),
            },
            Member {
                name: "recovered",
                value: Value::Number(recovered),
            },
            Member {
                name: "lines",
                value: Value::Lines(lines),
            },
        ],
    )
}

/// The log was recovered: how many commands it has, and how many of them got their mark now.
pub fn marked(
    alloc: Global,
    folder: &str,
    recovered: u64,
    count: u64,
) -> Result<Vec<u8>, AllocError>
    ensures text { IfOk result (λ object. object.items ≡ print (marked folder.now recovered count)) }
    ensures read { IfOk result (λ object. tokens object.items ≡ marked folder.now recovered count) }
{
    object_of(
        alloc,
        &[
            Member {
                name: "folder",
                value: Value::Text(folder),
            },
            Member {
                name: "recovered",
                value: Value::Number(recovered),
            },
            Member {
                name: "marked",
                value: Value::Number(count),
            },
        ],
    )
}

/// Images were looked at: whether they are sound, and the lines that people are told.
pub fn checked<'a>(
    alloc: Global,
    folder: &'a str,
    sound: bool,
    lines: &'a str,
) -> Result<Vec<u8>, AllocError>
    ensures text { IfOk result (λ object. object.items ≡ print (checked folder.now sound lines.now)) }
    ensures read { IfOk result (λ object. tokens object.items ≡ checked folder.now sound lines.now) }
{
    object_of(
        alloc,
        &[
            Member {
                name: "folder",
                value: Value::Text(folder),
            },
            Member {
                name: "sound",
                value: Value::Flag(sound),
            },
            Member {
                name: "lines",
                value: Value::Lines(lines),
            },
        ],
    )
}

/// A log was made one without an end, with so many slots an epoch.
pub fn made_endless(
    alloc: Global,
    folder: &str,
    disks: u8,
    slots: u32,
) -> Result<Vec<u8>, AllocError>
    ensures text { IfOk result (λ object. object.items ≡ print (made_endless folder.now disks slots)) }
    ensures read { IfOk result (λ object. tokens object.items ≡ made_endless folder.now disks slots) }
{
    object_of(
        alloc,
        &[
            Member {
                name: "folder",
                value: Value::Text(folder),
            },
            Member {
                name: "disks",
                value: Value::Number(disks as u64),
            },
            Member {
                name: "made",
                value: Value::Flag(true),
            },
            Member {
                name: "slots_an_epoch",
                value: Value::Number(slots as u64),
            },
        ],
    )
}

/// A log was one without an end before.
pub fn already_endless(alloc: Global, folder: &str, disks: u8) -> Result<Vec<u8>, AllocError>
    ensures text { IfOk result (λ object. object.items ≡ print (already_endless folder.now disks)) }
    ensures read { IfOk result (λ object. tokens object.items ≡ already_endless folder.now disks) }
{
    object_of(
        alloc,
        &[
            Member {
                name: "folder",
                value: Value::Text(folder),
            },
            Member {
                name: "disks",
                value: Value::Number(disks as u64),
            },
            Member {
                name: "made",
                value: Value::Flag(false),
            },
            Member {
                name: "slots_an_epoch",
                value: Value::Count(None),
            },
        ],
    )
}

/// A lost image was replaced by one that takes part from this epoch on.
pub fn replaced(alloc: Global, folder: &str, disk: u8, first: u64) -> Result<Vec<u8>, AllocError>
    ensures text { IfOk result (λ object. object.items ≡ print (replaced folder.now disk first)) }
    ensures read { IfOk result (λ object. tokens object.items ≡ replaced folder.now disk first) }
{
    object_of(
        alloc,
        &[
            Member {
                name: "folder",
                value: Value::Text(folder),
            },
            Member {
                name: "disk",
                value: Value::Number(disk as u64),
            },
            Member {
                name: "first_epoch",
                value: Value::Number(first),
            },
        ],
    )
}

fn kind_name(slots: Option<u16>) -> &'static str
    ensures { result.now ≡ kind_name slots }
{
    match slots {
        Some(_) => "ending",
        None => "endless",
    }
}
