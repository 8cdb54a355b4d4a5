ghost use Rattle.std.specs.Prelude.{◌≡◌, IfOk};
ghost use Rattle.dlm_words.specs.Asked.{MayBeAsked};
ghost use Rattle.dlm_words.specs.declared.words.WordsFault.TheVariants.{NoMemory};

use crate::given_words::{
    clients_of, cluster_of, command_of, config_of, disk_of, host_of, last_host_of, new_log_of,
    slots_of,
};
use clap::error::ErrorKind;
use clap::{Arg, ArgAction, ArgMatches, Error};
use endless_image::Kind;
use host::Config;
use lock_command::{ClientNumber, Command, HostNumber};
use paxos_block::SlotCount;
use std::alloc::{AllocError, Global};
use std::io;

/// What the program is asked to do.
#[derive(Debug, Drop)]
pub enum Subcommand<'a> {
    /// Run the script at this path.
    Run {
        script: &'a str,
    },
    /// Run the variants of the script at this path.
    Sweep {
        script: &'a str,
    },
    /// Make the images of a cluster in this folder, with a log that ends or one without an end.
    Format {
        folder: &'a str,
        kind: Kind,
        config: Config,
        cluster: u64,
    },
    /// Submit a command over the images of this folder.
    Submit {
        folder: &'a str,
        command: Command,
    },
    /// Show the lock table, as a host learns it from the images of this folder.
    Table {
        folder: &'a str,
        host: HostNumber,
    },
    /// Mark the slots of the log that no mark tells, through this host, over the images of this folder.
    Mark {
        folder: &'a str,
        host: HostNumber,
    },
    /// Look for damage in the images of this folder.
    Check {
        folder: &'a str,
    },
    /// Move the log of a folder of the first layout onto new images in another folder, with so many slots.
    Migrate {
        old: &'a str,
        new: &'a str,
        slots: SlotCount,
    },
    /// Make the log in this folder one without an end, in its own images.
    MakeEndless {
        folder: &'a str,
    },
    /// Put a new image in the place of a lost one of the log without an end in this folder.
    Replace {
        folder: &'a str,
        disk: u8,
    },
    /// Fill the log in this folder up, through this host, with requests that change nothing.
    Fill {
        folder: &'a str,
        host: HostNumber,
    },
    /// Carry the table after the full log of a folder, as this host learns it, over into another folder, without these clients.
    Renew {
        old: &'a str,
        host: HostNumber,
        new: &'a str,
        config: Config,
        cluster: u64,
        leave: Vec<ClientNumber>,
    },
    /// Race the hosts up to this one.
    Race {
        last: HostNumber,
    },
}

/// Why the words ask for nothing that the program does.
#[derive(Clone, Copy, Debug, PartialEq, Eq)]
pub enum WordsFault {
    Usage,
    /// The words are no command.
    BadCommand,
    NoMemory,
}

impl From<AllocError> for WordsFault {
    ghost from_gives = { λ _ fault. fault ≡ NoMemory };

    fn from(_: AllocError) -> Self {
        WordsFault::NoMemory
    }
}

impl From<Error> for WordsFault {
    fn from(error: Error) -> Self {
        match error.kind() {
            ErrorKind::OutOfMemory => WordsFault::NoMemory,
            _ => WordsFault::Usage,
        }
    }
}

impl From<io::Error> for WordsFault {
    fn from(error: io::Error) -> Self {
        match error.kind() {
            io::ErrorKind::OutOfMemory => WordsFault::NoMemory,
            _ => WordsFault::Usage,
        }
    }
}

/// The task that the words name.
pub fn task_of<'a>(alloc: Global, words: &'a [&'a str]) -> Result<Subcommand<'a>, WordsFault>
    ensures { IfOk result MayBeAsked }
{
    if has_lone_dash(words) {
        return Err(WordsFault::Usage);
    }
    let matches = program(alloc)?.try_get_matches_from(words)?;
    match matches.subcommand() {
        Some(("run", run)) => run_task(run),
        Some(("format", format)) => format_task(format),
        Some(("submit", submit)) => submit_task(alloc, submit),
        Some(("table", table)) => table_task(table),
        Some(("mark", mark)) => mark_task(mark),
        Some(("check", check)) => check_task(check),
        Some(("migrate", migrate)) => migrate_task(migrate),
        Some(("replace", replace)) => replace_task(replace),
        Some(("fill", fill)) => fill_task(fill),
        Some(("renew", renew)) => renew_task(alloc, renew),
        Some(("race", race)) => race_task(race),
        Some(("sweep", sweep)) => sweep_task(sweep),
        _ => Err(WordsFault::Usage),
    }
}

/// Whether a word is `-`, before any `--`. The parser would accept it as an ordinary word.
fn has_lone_dash(words: &[&str]) -> bool {
    words
        .iter()
        .take_while(|word| **word != "--")
        .any(|word| *word == "-")
}

fn program<'a>(alloc: Global) -> Result<clap::Command<'a>, AllocError> {
    let program = clap::Command::new(alloc, "dlm")
        .no_binary_name(true)
        .disable_help_flag(true)
        .disable_help_subcommand(true)
        .disable_version_flag(true)
        .subcommand_required(true);
    let program = with(program, run_command(alloc))?;
    let program = with(program, format_command(alloc))?;
    let program = with(program, submit_command(alloc))?;
    let program = with(program, table_command(alloc))?;
    let program = with(program, mark_command(alloc))?;
    let program = with(program, check_command(alloc))?;
    let program = with(program, migrate_command(alloc))?;
    let program = with(program, replace_command(alloc))?;
    let program = with(program, fill_command(alloc))?;
    let program = with(program, renew_command(alloc))?;
    let program = with(program, race_command(alloc))?;
    with(program, sweep_command(alloc))
}

// The program with one subcommand more. If there was no memory for that one, `program` is dropped here and nowhere else.
fn with<'a>(
    program: clap::Command<'a>,
    subcommand: Result<clap::Command<'a>, AllocError>,
) -> Result<clap::Command<'a>, AllocError> {
    program.subcommand(subcommand?)
}

/// A word that has to be given.
fn word<'a>(alloc: Global, name: &'a str) -> Arg<'a> {
    Arg::new(alloc, name).required(true).action(ArgAction::Set)
}

/// A word that may be given.
fn further_word<'a>(alloc: Global, name: &'a str) -> Arg<'a> {
    Arg::new(alloc, name).action(ArgAction::Set)
}

fn run_command<'a>(alloc: Global) -> Result<clap::Command<'a>, AllocError> {
    clap::Command::new(alloc, "run")
        .disable_help_flag(true)
        .arg(word(alloc, "script"))
}

fn format_command<'a>(alloc: Global) -> Result<clap::Command<'a>, AllocError> {
    // The slots, if they are given, and the cluster's number behind them.
    let numbers = Arg::new(alloc, "numbers")
        .action(ArgAction::Append)
        .num_args(0..);
    clap::Command::new(alloc, "format")
        .disable_help_flag(true)
        .arg(word(alloc, "folder"))?
        .arg(word(alloc, "disks"))?
        .arg(numbers)
}

fn submit_command<'a>(alloc: Global) -> Result<clap::Command<'a>, AllocError> {
    let command = Arg::new(alloc, "command")
        .action(ArgAction::Append)
        .num_args(0..);
    clap::Command::new(alloc, "submit")
        .disable_help_flag(true)
        .arg(word(alloc, "folder"))?
        .arg(word(alloc, "host"))?
        .arg(command)
}

fn table_command<'a>(alloc: Global) -> Result<clap::Command<'a>, AllocError> {
    clap::Command::new(alloc, "table")
        .disable_help_flag(true)
        .arg(word(alloc, "folder"))?
        .arg(word(alloc, "host"))
}

fn mark_command<'a>(alloc: Global) -> Result<clap::Command<'a>, AllocError> {
    clap::Command::new(alloc, "mark")
        .disable_help_flag(true)
        .arg(word(alloc, "folder"))?
        .arg(word(alloc, "host"))
}

fn check_command<'a>(alloc: Global) -> Result<clap::Command<'a>, AllocError> {
    clap::Command::new(alloc, "check")
        .disable_help_flag(true)
        .arg(word(alloc, "folder"))
}

fn migrate_command<'a>(alloc: Global) -> Result<clap::Command<'a>, AllocError> {
    clap::Command::new(alloc, "migrate")
        .disable_help_flag(true)
        .arg(word(alloc, "old"))?
        .arg(further_word(alloc, "new"))?
        .arg(further_word(alloc, "slots"))
}

fn replace_command<'a>(alloc: Global) -> Result<clap::Command<'a>, AllocError> {
    clap::Command::new(alloc, "replace")
        .disable_help_flag(true)
        .arg(word(alloc, "folder"))?
        .arg(word(alloc, "disk"))
}

fn fill_command<'a>(alloc: Global) -> Result<clap::Command<'a>, AllocError> {
    clap::Command::new(alloc, "fill")
        .disable_help_flag(true)
        .arg(word(alloc, "folder"))?
        .arg(word(alloc, "host"))
}

fn renew_command<'a>(alloc: Global) -> Result<clap::Command<'a>, AllocError> {
    let clients = Arg::new(alloc, "clients")
        .action(ArgAction::Append)
        .num_args(0..);
    clap::Command::new(alloc, "renew")
        .disable_help_flag(true)
        .arg(word(alloc, "old"))?
        .arg(word(alloc, "host"))?
        .arg(word(alloc, "new"))?
        .arg(word(alloc, "disks"))?
        .arg(word(alloc, "slots"))?
        .arg(word(alloc, "cluster"))?
        .arg(clients)
}

fn race_command<'a>(alloc: Global) -> Result<clap::Command<'a>, AllocError> {
    clap::Command::new(alloc, "race")
        .disable_help_flag(true)
        .arg(word(alloc, "hosts"))
}

fn sweep_command<'a>(alloc: Global) -> Result<clap::Command<'a>, AllocError> {
    clap::Command::new(alloc, "sweep")
        .disable_help_flag(true)
        .arg(word(alloc, "script"))
}

fn run_task<'a>(run: &ArgMatches<'a>) -> Result<Subcommand<'a>, WordsFault>
    ensures { IfOk result MayBeAsked }
{
    Ok(Subcommand::Run {
        script: given(run, "script")?,
    })
}

fn format_task<'a>(format: &ArgMatches<'a>) -> Result<Subcommand<'a>, WordsFault>
    ensures { IfOk result MayBeAsked }
{
    let folder = given(format, "folder")?;
    let disks = given(format, "disks")?;
    let (slots, cluster) = slots_and_cluster(format.get_strs("numbers").unwrap_or_default())?;
    let (kind, config) = new_log_of(disks, slots)?;
    let cluster = cluster_of(cluster)?;
    Ok(Subcommand::Format {
        folder,
        kind,
        config,
        cluster,
    })
}

/// The last words of `format`: the slots, where they are given, and the cluster's number.
fn slots_and_cluster<'a>(words: &[&'a str]) -> Result<(Option<&'a str>, &'a str), WordsFault> {
    match words {
        [cluster] => Ok((None, *cluster)),
        [slots, cluster] => Ok((Some(*slots), *cluster)),
        _ => Err(WordsFault::Usage),
    }
}

fn submit_task<'a>(alloc: Global, submit: &ArgMatches<'a>) -> Result<Subcommand<'a>, WordsFault>
    ensures { IfOk result MayBeAsked }
{
    let folder = given(submit, "folder")?;
    let host = host_of(given(submit, "host")?)?;
    let words = submit.get_strs("command").unwrap_or_default();
    let command = command_of(alloc, host, words)?;
    Ok(Subcommand::Submit { folder, command })
}

fn table_task<'a>(table: &ArgMatches<'a>) -> Result<Subcommand<'a>, WordsFault>
    ensures { IfOk result MayBeAsked }
{
    let folder = given(table, "folder")?;
    let host = host_of(given(table, "host")?)?;
    Ok(Subcommand::Table { folder, host })
}

fn mark_task<'a>(mark: &ArgMatches<'a>) -> Result<Subcommand<'a>, WordsFault>
    ensures { IfOk result MayBeAsked }
{
    let folder = given(mark, "folder")?;
    let host = host_of(given(mark, "host")?)?;
    Ok(Subcommand::Mark { folder, host })
}

fn check_task<'a>(check: &ArgMatches<'a>) -> Result<Subcommand<'a>, WordsFault>
    ensures { IfOk result MayBeAsked }
{
    Ok(Subcommand::Check {
        folder: given(check, "folder")?,
    })
}

fn migrate_task<'a>(migrate: &ArgMatches<'a>) -> Result<Subcommand<'a>, WordsFault>
    ensures { IfOk result MayBeAsked }
{
    let old = given(migrate, "old")?;
    match migrate.get_str("new") {
        Some(new) => Ok(Subcommand::Migrate {
            old,
            new,
            slots: slots_of(given(migrate, "slots")?)?,
        }),
        None => Ok(Subcommand::MakeEndless { folder: old }),
    }
}

fn replace_task<'a>(replace: &ArgMatches<'a>) -> Result<Subcommand<'a>, WordsFault>
    ensures { IfOk result MayBeAsked }
{
    let folder = given(replace, "folder")?;
    let disk = disk_of(given(replace, "disk")?)?;
    Ok(Subcommand::Replace { folder, disk })
}

fn fill_task<'a>(fill: &ArgMatches<'a>) -> Result<Subcommand<'a>, WordsFault>
    ensures { IfOk result MayBeAsked }
{
    let folder = given(fill, "folder")?;
    let host = host_of(given(fill, "host")?)?;
    Ok(Subcommand::Fill { folder, host })
}

fn renew_task<'a>(alloc: Global, renew: &ArgMatches<'a>) -> Result<Subcommand<'a>, WordsFault>
    ensures { IfOk result MayBeAsked }
{
    let old = given(renew, "old")?;
    let host = host_of(given(renew, "host")?)?;
    let new = given(renew, "new")?;
    let config = config_of(given(renew, "disks")?, given(renew, "slots")?)?;
    let cluster = cluster_of(given(renew, "cluster")?)?;
    let leave = clients_of(alloc, renew.get_strs("clients").unwrap_or_default())?;
    Ok(Subcommand::Renew {
        old,
        host,
        new,
        config,
        cluster,
        leave,
    })
}

fn race_task<'a>(race: &ArgMatches<'a>) -> Result<Subcommand<'a>, WordsFault>
    ensures { IfOk result MayBeAsked }
{
    let last = last_host_of(given(race, "hosts")?)?;
    Ok(Subcommand::Race { last })
}

fn sweep_task<'a>(sweep: &ArgMatches<'a>) -> Result<Subcommand<'a>, WordsFault>
    ensures { IfOk result MayBeAsked }
{
    Ok(Subcommand::Sweep {
        script: given(sweep, "script")?,
    })
}

/// The word that was given under this name.
fn given<'a>(words: &ArgMatches<'a>, name: &str) -> Result<&'a str, WordsFault> {
    match words.get_str(name) {
        Some(word) => Ok(word),
        None => Err(WordsFault::Usage),
    }
}
