ghost use Rattle.std.specs.Prelude.{◌≡◌, ◌<◌, ◌≤◌, ◌+◌, drop, length, map, string_bytes, true, IfErr, IfOk, IfSome};
ghost use Rattle.lock_command.specs.Command.{is_submittable};
ghost use Rattle.mg_words.specs.Asking.{AreDisks, AreSlots, Asks, IsCreate, IsMark, IsReplace, IsSubmit, IsTable, MayBeAsked, Says, Spells, Reads, command_said, spaced, takes, word_at};
ghost use Rattle.mg_words.specs.Forms.{may_go_on, slots};
ghost use Rattle.mg_words.specs.Wrong.{IsWrong};

use crate::fault::WordFault;
use crate::form::Form;
use crate::line::{first_bad, form_of};
use lock_command::{Command, HostNumber};
use lock_script::{number_in, read_command};
use std::alloc::{AllocError, Global};

/// How many disks a set has where no word says it.
const USUAL_DISKS: u8 = 3;

/// What a line of words asks for.
#[derive(Clone, Copy, Debug)]
pub enum Request<'a> {
    /// Make the images of a cluster in this folder, with 1 to 7 disks. With slots, 1 to 4096, its log ends there, and without them it has no end.
    Create {
        folder: &'a str,
        cluster: u64,
        disks: u8,
        slots: Option<u16>,
        json: bool,
    },
    /// Submit a command over the images of this folder.
    Submit {
        folder: &'a str,
        command: Command,
        json: bool,
    },
    /// Show the lock table, as a host learns it from the images of this folder.
    Table {
        folder: &'a str,
        host: HostNumber,
        json: bool,
    },
    /// Mark the slots that no mark tells.
    Mark {
        folder: &'a str,
        host: HostNumber,
        json: bool,
    },
    /// Look for damage in the images of this folder.
    Check {
        folder: &'a str,
        json: bool,
    },
    /// Make the log in this folder one without an end.
    Migrate {
        folder: &'a str,
        json: bool,
    },
    /// Put a new image in the place of the lost one of this number, 0 to 6.
    Replace {
        folder: &'a str,
        disk: u8,
        json: bool,
    },
    /// Run the script at this path.
    Run {
        script: &'a str,
    },
    /// Run the variants of the script at this path.
    Sweep {
        script: &'a str,
    },
}

impl<'a> Request<'a> {
    /// The folder or the script that it is about.
    pub fn subject(&self) -> &'a str {
        match self {
            Request::Create { folder, .. }
            | Request::Submit { folder, .. }
            | Request::Table { folder, .. }
            | Request::Mark { folder, .. }
            | Request::Check { folder, .. }
            | Request::Migrate { folder, .. }
            | Request::Replace { folder, .. } => folder,
            Request::Run { script } | Request::Sweep { script } => script,
        }
    }
}

/// What the words ask for, or which of them is bad.
pub fn request_of<'a>(alloc: Global, words: &'a [&'a str]) -> Result<Request<'a>, WordFault>
    ensures asked { IfOk result (Asks (map (λ word. word.now) words.entry.now)) }
    ensures may { IfOk result MayBeAsked }
    ensures wrong { IfErr result (λ fault. IsWrong (map (λ word. word.now) words.entry.now) fault) }
{
    match form_of(words) {
        Some(form) => request_in(alloc, form, words),
        None => Err(first_bad(words)),
    }
}

/// What a line of this form asks for.
fn request_in<'a>(alloc: Global, form: Form, words: &'a [&'a str]) -> Result<Request<'a>, WordFault>
    requires { takes form (map (λ word. word.now) words.now) ≡ true }
    ensures said { IfOk result (Says form (map (λ word. word.now) words.entry.now)) }
    ensures may { IfOk result MayBeAsked }
    ensures wrong { IfErr result (λ fault. IsWrong (map (λ word. word.now) words.entry.now) fault) }
{
    match form {
        Form::Create => Ok(create(form, words, None, None, false)),
        Form::CreateDisks => Ok(create(form, words, Some(5), None, false)),
        Form::CreateSlots => Ok(create(form, words, None, Some(5), false)),
        Form::CreateBoth => Ok(create(form, words, Some(5), Some(7), false)),
        Form::CreateJson => Ok(create(form, words, None, None, true)),
        Form::CreateDisksJson => Ok(create(form, words, Some(5), None, true)),
        Form::CreateSlotsJson => Ok(create(form, words, None, Some(5), true)),
        Form::CreateBothJson => Ok(create(form, words, Some(5), Some(7), true)),
        Form::Submit => submit(alloc, form, words, 4, false),
        Form::SubmitJson => submit(alloc, form, words, 5, true),
        Form::Table => Ok(table(form, words, false)),
        Form::TableJson => Ok(table(form, words, true)),
        Form::Mark => Ok(mark(form, words, false)),
        Form::MarkJson => Ok(mark(form, words, true)),
        Form::Check => {
            let folder = word_in(form, words, 1);
            Ok(Request::Check {
                folder,
                json: false,
            })
        }
        Form::CheckJson => {
            let folder = word_in(form, words, 1);
            Ok(Request::Check { folder, json: true })
        }
        Form::Migrate => {
            let folder = word_in(form, words, 1);
            Ok(Request::Migrate {
                folder,
                json: false,
            })
        }
        Form::MigrateJson => {
            let folder = word_in(form, words, 1);
            Ok(Request::Migrate { folder, json: true })
        }
        Form::Replace => Ok(replace(form, words, false)),
        Form::ReplaceJson => Ok(replace(form, words, true)),
        Form::Run => {
            let script = word_in(form, words, 1);
            Ok(Request::Run { script })
        }
        Form::Sweep => {
            let script = word_in(form, words, 1);
            Ok(Request::Sweep { script })
        }
    }
}

/// Images that are to be made: the number of disks, and that of slots, stand at these places.
fn create<'a>(
    form: Form,
    words: &'a [&'a str],
    disks_at: Option<usize>,
    slots_at: Option<usize>,
    json: bool,
) -> Request<'a>
    requires taken { takes form (map (λ word. word.now) words.now) ≡ true }
    requires cluster { Reads (slots form) 3 0 18446744073709551615 }
    requires disks { IfSome disks_at (λ at. Reads (slots form) at 1 7) }
    requires slots { IfSome slots_at (λ at. Reads (slots form) at 1 4096) }
    ensures said { IsCreate (map (λ word. word.now) words.entry.now) disks_at slots_at json result }
    ensures may { MayBeAsked result }
{
    let folder = word_in(form, words, 1);
    let cluster = number_at(form, words, 3, 0, u64::MAX);
    let disks = disks_in(form, words, disks_at);
    let slots = slots_in(form, words, slots_at);
    Request::Create {
        folder,
        cluster,
        disks,
        slots,
        json,
    }
}

/// A lost image that is to be replaced: its number stands third.
fn replace<'a>(form: Form, words: &'a [&'a str], json: bool) -> Request<'a>
    requires taken { takes form (map (λ word. word.now) words.now) ≡ true }
    requires disk { Reads (slots form) 2 0 6 }
    ensures said { IsReplace (map (λ word. word.now) words.entry.now) json result }
    ensures may { MayBeAsked result }
{
    let folder = word_in(form, words, 1);
    let disk = number_at(form, words, 2, 0, 6) as u8;
    Request::Replace { folder, disk, json }
}

/// How many disks a set is to have.
fn disks_in(form: Form, words: &[&str], at: Option<usize>) -> u8
    requires taken { takes form (map (λ word. word.now) words.now) ≡ true }
    requires reads { IfSome at (λ at. Reads (slots form) at 1 7) }
    ensures said { AreDisks (map (λ word. word.now) words.now) at result }
    ensures range { (1 ≤ result) × (result ≤ 7) }
{
    match at {
        None => USUAL_DISKS,
        Some(place) => number_at(form, words, place, 1, 7) as u8,
    }
}

/// How many slots a log that ends is to have.
fn slots_in(form: Form, words: &[&str], at: Option<usize>) -> Option<u16>
    requires taken { takes form (map (λ word. word.now) words.now) ≡ true }
    requires reads { IfSome at (λ at. Reads (slots form) at 1 4096) }
    ensures said { AreSlots (map (λ word. word.now) words.now) at result }
    ensures range { IfSome result (λ count. (1 ≤ count) × (count ≤ 4096)) }
{
    match at {
        None => None,
        Some(place) => Some(number_at(form, words, place, 1, 4096) as u16),
    }
}

/// A command that is to be submitted: it begins at this place, the last one of the form.
fn submit<'a>(
    alloc: Global,
    form: Form,
    words: &'a [&'a str],
    place: usize,
    json: bool,
) -> Result<Request<'a>, WordFault>
    requires taken { takes form (map (λ word. word.now) words.now) ≡ true }
    requires host { Reads (slots form) 3 0 15 }
    requires goes_on { may_go_on form ≡ true }
    requires last { length (slots form) ≡ place + 1 }
    ensures said { IfOk result (IsSubmit (map (λ word. word.now) words.entry.now) place json) }
    ensures may { IfOk result MayBeAsked }
    ensures wrong { IfErr result (λ fault. IsWrong (map (λ word. word.now) words.entry.now) fault) }
{
    let folder = word_in(form, words, 1);
    let host = host_in(form, words);
    match command_of(alloc, host, command_in(words, place))? {
        Some(command) => Ok(Request::Submit {
            folder,
            command,
            json,
        }),
        None => Err(WordFault::NoCommand { place }),
    }
}

/// The words from this place on.
#[tactic(auto, using(crate::proofs::Lines::parts))]
fn command_in<'a, 'b>(words: &'b [&'a str], place: usize) -> &'b [&'a str]
    requires { place ≤ length words.now }
    ensures { map (λ word. word.now) result.now ≡ drop place (map (λ word. word.now) words.entry.now) }
{
    &words[place..]
}

/// The lock table that is to be shown, as this host learns it.
fn table<'a>(form: Form, words: &'a [&'a str], json: bool) -> Request<'a>
    requires taken { takes form (map (λ word. word.now) words.now) ≡ true }
    requires host { Reads (slots form) 3 0 15 }
    ensures said { IsTable (map (λ word. word.now) words.entry.now) json result }
    ensures may { MayBeAsked result }
{
    let folder = word_in(form, words, 1);
    let host = host_in(form, words);
    Request::Table { folder, host, json }
}

/// Slots that are to be marked, by this host.
fn mark<'a>(form: Form, words: &'a [&'a str], json: bool) -> Request<'a>
    requires taken { takes form (map (λ word. word.now) words.now) ≡ true }
    requires host { Reads (slots form) 3 0 15 }
    ensures said { IsMark (map (λ word. word.now) words.entry.now) json result }
    ensures may { MayBeAsked result }
{
    let folder = word_in(form, words, 1);
    let host = host_in(form, words);
    Request::Mark { folder, host, json }
}

/// The command that the words are, if they are one that a client may ask for.
#[tactic(auto, unfolding(crate::specs::Asking::command_said))]
fn command_of(
    alloc: Global,
    host: HostNumber,
    words: &[&str],
) -> Result<Option<Command>, AllocError>
    ensures said { IfOk result (λ found. found ≡ command_said host (map (λ word. word.now) words.now)) }
    ensures may { IfOk result (λ found. IfSome found (λ command. is_submittable command ≡ true)) }
{
    let text = spaced(alloc, words)?;
    match read_command(host, text.as_bytes()) {
        Some(command) if command.is_submittable() => Ok(Some(command)),
        _ => Ok(None),
    }
}

/// The words with a space between two.
fn spaced(alloc: Global, words: &[&str]) -> Result<String, AllocError>
    ensures { IfOk result (λ text. string_bytes text ≡ spaced (map (λ word. word.now) words.now)) }
{
    let text = words.join(alloc, " ")?;
    Ok(text)
}

/// The host whose number stands fourth.
fn host_in(form: Form, words: &[&str]) -> HostNumber
    requires taken { takes form (map (λ word. word.now) words.now) ≡ true }
    requires reads { Reads (slots form) 3 0 15 }
    ensures { Spells (map (λ word. word.now) words.now) 3 0 15 result }
{
    match HostNumber::new(number_at(form, words, 3, 0, 15) as u8) {
        Some(host) => host,
        None => unreachable!(),
    }
}

/// The number at a place for one in this range.
fn number_at(form: Form, words: &[&str], place: usize, least: u64, most: u64) -> u64
    requires taken { takes form (map (λ word. word.now) words.now) ≡ true }
    requires reads { Reads (slots form) place least most }
    ensures spelled { Spells (map (λ word. word.now) words.now) place least most result }
    ensures range { (least ≤ result) × (result ≤ most) }
{
    match number_in(word_in(form, words, place).as_bytes(), least, most) {
        Some(number) => number,
        None => unreachable!(),
    }
}

/// The word at a place of a line of this form.
fn word_in<'a>(form: Form, words: &[&'a str], place: usize) -> &'a str
    requires taken { takes form (map (λ word. word.now) words.now) ≡ true }
    requires inside { place < length (slots form) }
    ensures { result.now ≡ word_at (map (λ word. word.now) words.now) place }
{
    words[place]
}
