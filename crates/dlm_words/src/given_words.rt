ghost use Rattle.std.specs.Prelude.{◌≡◌, ◌≤◌, true, None, IfOk, IsSome};
ghost use Rattle.lock_command.specs.Command.{is_submittable};
ghost use Rattle.endless_image.specs.Kinds.{IsSlotsBy, kind_by};
ghost use Rattle.endless_image.specs.declared.kind.TheConstants.{USUAL_SLOTS};

use crate::words::WordsFault;
use endless_image::Kind;
use host::Config;
use lock_command::{ClientNumber, Command, HOSTS, HostNumber};
use lock_script::{number_in, read_command};
use paxos_block::SlotCount;
use std::alloc::Global;
use torn_block::{DISKS, SLOTS};

/// Hosts are numbered from 0.
const LAST_HOST: u64 = HOSTS as u64 - 1;

/// How large a cluster is to be.
pub fn config_of(disks: &str, slots: &str) -> Result<Config, WordsFault> {
    let (_, config) = new_log_of(disks, Some(slots))?;
    Ok(config)
}

/// The kind of log that a new folder is to have, and how large. A word for the slots asks for a log that ends.
pub fn new_log_of(disks: &str, slots: Option<&str>) -> Result<(Kind, Config), WordsFault>
    ensures may { IfOk result (λ log. IsSlotsBy log.0 log.1.slots) }
    ensures ending { IfOk result (λ log. IsSome slots.entry → log.0 ≡ Kind.Ending) }
    ensures endless { IfOk result (λ log. slots.entry ≡ None → (log.0 ≡ Kind.Endless) × (log.1.slots ≡ USUAL_SLOTS)) }
{
    match slots {
        Some(word) => new_log(disks, Some(slots_of(word)?.get())),
        None => new_log(disks, None),
    }
}

fn new_log(disks: &str, slots: Option<u16>) -> Result<(Kind, Config), WordsFault>
    ensures { IfOk result (λ log. (log.0, log.1.slots) ≡ kind_by slots) }
{
    let disks = number(disks, 1, u64::from(DISKS))? as u8;
    let (kind, slots) = Kind::asked_by(slots);
    match Config::new(disks, slots) {
        Some(config) => Ok((kind, config)),
        None => Err(WordsFault::Usage),
    }
}

/// How many slots a log is to have.
pub fn slots_of(word: &str) -> Result<SlotCount, WordsFault> {
    match SlotCount::new(number(word, 1, u64::from(SLOTS))? as u16) {
        Some(slots) => Ok(slots),
        None => Err(WordsFault::Usage),
    }
}

/// The number of a disk that a set may have.
pub fn disk_of(word: &str) -> Result<u8, WordsFault> {
    Ok(number(word, 0, u64::from(DISKS) - 1)? as u8)
}

/// Any number that 64 bits hold.
pub fn cluster_of(word: &str) -> Result<u64, WordsFault> {
    number(word, 0, u64::MAX)
}

pub fn host_of(word: &str) -> Result<HostNumber, WordsFault> {
    match HostNumber::new(number(word, 0, LAST_HOST)? as u8) {
        Some(host) => Ok(host),
        None => Err(WordsFault::Usage),
    }
}

/// The highest host number, where the word says how many hosts there are.
pub fn last_host_of(word: &str) -> Result<HostNumber, WordsFault> {
    match HostNumber::new((number(word, 1, HOSTS as u64)? - 1) as u8) {
        Some(last) => Ok(last),
        None => Err(WordsFault::Usage),
    }
}

/// These clients, each as often as it is named.
pub fn clients_of(alloc: Global, words: &[&str]) -> Result<Vec<ClientNumber>, WordsFault> {
    let mut clients = Vec::with_capacity(alloc, words.len())?;
    for word in words {
        let client = client_of(word)?;
        if clients.push(client).is_err() {
            return Err(WordsFault::NoMemory);
        }
    }
    Ok(clients)
}

fn client_of(word: &str) -> Result<ClientNumber, WordsFault> {
    let client = number(word, 0, u64::from(u8::MAX))?;
    Ok(ClientNumber::new(client as u8))
}

/// The number, as a script spells it.
fn number(word: &str, least: u64, most: u64) -> Result<u64, WordsFault>
    ensures { IfOk result (λ n. (least ≤ n) × (n ≤ most)) }
{
    match number_in(word.as_bytes(), least, most) {
        Some(number) => Ok(number),
        None => Err(WordsFault::Usage),
    }
}

/// The command that the words spell, as after `submit` in a script.
pub fn command_of(alloc: Global, host: HostNumber, words: &[&str]) -> Result<Command, WordsFault>
    ensures asked { IfOk result (λ command. is_submittable command ≡ true) }
{
    let mut text = Vec::new(alloc);
    for (place, word) in words.iter().enumerate() {
        // A script separates its words by spaces, so no word has a space in it.
        if word.as_bytes().contains(&b' ') {
            return Err(WordsFault::BadCommand);
        }
        if place > 0 {
            push(&mut text, b" ")?;
        }
        push(&mut text, word.as_bytes())?;
    }
    match read_command(host, &text) {
        Some(command) if command.is_submittable() => Ok(command),
        _ => Err(WordsFault::BadCommand),
    }
}

fn push(text: &mut Vec<u8>, more: &[u8]) -> Result<(), WordsFault> {
    match text.extend_from_slice(more) {
        Ok(()) => Ok(()),
        Err(_) => Err(WordsFault::NoMemory),
    }
}
