use crate::commands::Commands;
use crate::digest::Digest;
use crate::failure::Failure;
use crate::numbers::Numbers;
use crate::words::Size;
use inspect::{Blocking, blocking, queues};
use lock_command::HostNumber;
use lock_table::{Picture, Table};
use std::alloc::Global;

/// How many logs there are.
const LOGS: u32 = 1200;

/// How long a log is: as long as a cluster takes.
const LENGTH: u16 = 4096;

/// After so many commands the table is looked at.
const BETWEEN: u16 = 512;

/// Lock tables, each after the commands of a log, which are applied one after the other. Now and then one is printed, and looked at for circles.
pub fn fill_tables(alloc: Global, size: Size, seed: u32) -> Result<Digest, Failure> {
    let mut digest = Digest::new();
    let mut text = Vec::new(alloc);
    for log in 0..size.rounds(LOGS) {
        // Few names have long queues, many have short ones.
        let names = 1 << (log % 9);
        let commands = Commands::new(Numbers::new(seed, log), names);
        fill_table(alloc, size, commands, &mut text, &mut digest)?;
    }
    Ok(digest)
}

fn fill_table(
    alloc: Global,
    size: Size,
    mut commands: Commands,
    text: &mut Vec<u8>,
    digest: &mut Digest,
) -> Result<(), Failure> {
    let mut table = Table::new(alloc)?;
    let length = size.length(LENGTH);
    for place in 0..length {
        let Some(host) = HostNumber::new((place / 7 % 16) as u8) else {
            return Err(Failure::Wrong);
        };
        let Some(command) = commands.next(host) else {
            return Err(Failure::Wrong);
        };
        let reply = table.apply(&command);
        commands.hear(&command, &reply);
        digest.add_reply(&reply);
        if place % BETWEEN == BETWEEN - 1 || place + 1 == length {
            look_at(&table.picture(alloc)?, text, digest)?;
        }
    }
    Ok(())
}

fn look_at(picture: &Picture, text: &mut Vec<u8>, digest: &mut Digest) -> Result<(), Failure> {
    text.clear();
    queues(picture, text)?;
    digest.add_bytes(text);
    match blocking(picture) {
        Blocking::Ranked(ranks) => digest.add_bytes(&ranks),
        Blocking::Cycle(clients) => {
            for client in clients.as_slice() {
                digest.add(u64::from(*client));
            }
        }
    }
    Ok(())
}
