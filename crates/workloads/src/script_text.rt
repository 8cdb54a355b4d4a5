use crate::commands::Commands;
use crate::failure::Failure;
use crate::numbers::Numbers;
use crate::words::Size;
use lock_command::{Action, Command, HostNumber, Mode, ValueBytes};
use std::io::{self, Write};

/// How many submissions a host makes before the next one goes on.
const TURN: u16 = 16;

const DIGITS: [u8; 16] = *b"0123456789abcdef";

/// A script in which a host submits some commands over three disks of 64 slots, stops within a write of the next, and another host takes over.
pub fn write_takeover(text: &mut Vec<u8>, size: Size, mut numbers: Numbers) -> Result<(), Failure> {
    let first = numbers.next() % 15;
    let second = first + 1;
    let mut commands = Commands::new(numbers, 4);
    write_line(text, "cluster", &[3, 64])?;
    write_line(text, "start", &[first])?;
    for _ in 0..size.rounds(3) {
        write_submission(text, first, &mut commands)?;
        write_line(text, "step", &[first, 51])?;
    }
    write_submission(text, first, &mut commands)?;
    write_line(text, "step", &[first, 5])?;
    write_fill(text, "tear", first, b"5a")?;
    write_line(text, "start", &[second])?;
    for _ in 0..size.rounds(2) {
        write_submission(text, second, &mut commands)?;
        write_line(text, "step", &[second, 255])?;
    }
    write_line(text, "mark", &[second, 0])?;
    write_line(text, "step", &[second, 27])?;
    Ok(())
}

/// A script in which sixteen hosts take turns over three disks, until the log is full. A host marks what it has submitted. Disks crash, calls fail and hosts stop now
/// and then, and tables are shown.
pub fn write_turns(text: &mut Vec<u8>, slots: u16, mut numbers: Numbers) -> Result<(), Failure> {
    let mut commands = Commands::new(numbers, 40);
    write_line(text, "cluster", &[3, u64::from(slots)])?;
    for turn in 0..slots / TURN {
        write_turn(text, u64::from(turn), &mut numbers, &mut commands)?;
    }
    Ok(())
}

/// A host's turn.
fn write_turn(
    text: &mut Vec<u8>,
    turn: u64,
    numbers: &mut Numbers,
    commands: &mut Commands,
) -> Result<(), Failure> {
    let host = numbers.next() % 16;
    write_line(text, "start", &[host])?;
    write_harm(text, host, numbers)?;
    // It learns what the others have submitted meanwhile.
    write_line(text, "look", &[host])?;
    write_line(text, "step", &[host, 3000])?;
    for place in 0..TURN {
        let slot = turn
            .wrapping_mul(u64::from(TURN))
            .wrapping_add(u64::from(place));
        write_submission(text, host, commands)?;
        write_steps(text, host, numbers.next() % 8 == 0)?;
        write_line(text, "mark", &[host, slot])?;
        write_line(text, "step", &[host, 27])?;
    }
    write_line(text, "show", &[host])?;
    write_line(text, "blocking", &[host])?;
    if numbers.next() % 4 == 0 {
        write_line(text, "stop", &[host])?;
    }
    Ok(())
}

/// Steps of a submission: in one line, or in a line each.
fn write_steps(text: &mut Vec<u8>, host: u64, each: bool) -> io::Result<()> {
    if !each {
        return write_line(text, "step", &[host, 102]);
    }
    for _ in 0..102 {
        write_line(text, "step", &[host])?;
    }
    Ok(())
}

/// A disk crashes, a call fails or a host stops within a write.
fn write_harm(text: &mut Vec<u8>, host: u64, numbers: &mut Numbers) -> io::Result<()> {
    let drawn = numbers.next();
    let disk = (drawn >> 8) % 3;
    let given = hex_of(drawn >> 16);
    match drawn % 8 {
        0 | 1 => write_fill(text, "crash", disk, &given),
        2 => {
            write_line(text, "recover", &[host, 2])?;
            write_line(text, "step", &[host, 3000])?;
            write_line(text, "recover", &[host, 2])?;
            write_line(text, "step", &[host, 20])?;
            write_fill(text, "fail", host, &given)?;
            write_line(text, "step", &[host, 102])
        }
        3 => {
            write_line(text, "recover", &[host, 2])?;
            write_line(text, "step", &[host, 7])?;
            write_fill(text, "tear", host, &given)?;
            write_line(text, "start", &[host])
        }
        4 => {
            write_line(text, "beat", &[host])?;
            write_line(text, "step", &[host, 27])
        }
        _ => Ok(()),
    }
}

fn write_submission(text: &mut Vec<u8>, host: u64, commands: &mut Commands) -> Result<(), Failure> {
    let Some(number) = HostNumber::new((host % 16) as u8) else {
        return Err(Failure::Wrong);
    };
    let Some(command) = commands.next(number) else {
        return Err(Failure::Wrong);
    };
    commands.assume(&command);
    write_numbers(text, "submit", &[host, 2])?;
    write_command(text, &command)?;
    Ok(())
}

/// The words of a command, to the end of the line.
fn write_command(text: &mut Vec<u8>, command: &Command) -> io::Result<()> {
    match command.action {
        Action::Enqueue {
            lock,
            name,
            mode,
            no_queue,
        } => {
            write_request(text, b"enqueue", command, u64::from(lock.get()))?;
            write_word(text, mode_word(mode))?;
            write_word(text, name.as_bytes())?;
            write_no_queue(text, no_queue)?;
        }
        Action::Convert {
            lock,
            mode,
            no_queue,
            value,
        } => {
            write_request(text, b"convert", command, u64::from(lock.get()))?;
            write_word(text, mode_word(mode))?;
            write_no_queue(text, no_queue)?;
            write_value(text, value)?;
        }
        Action::Release { lock, value } => {
            write_request(text, b"release", command, u64::from(lock.get()))?;
            write_value(text, value)?;
        }
        Action::Cancel(lock) => write_request(text, b"cancel", command, u64::from(lock.get()))?,
        Action::Status(lock) => write_request(text, b"status", command, u64::from(lock.get()))?,
        _ => write_request(text, b"purge", command, u64::from(command.host.get()))?,
    }
    text.write_all(b"\n")
}

/// The kind of a command, its client, its request, and what it is about.
fn write_request(text: &mut Vec<u8>, kind: &[u8], command: &Command, about: u64) -> io::Result<()> {
    write_word(text, kind)?;
    write_number(text, u64::from(command.client.get()))?;
    write_number(text, command.request.get())?;
    write_number(text, about)
}

fn write_no_queue(text: &mut Vec<u8>, no_queue: bool) -> io::Result<()> {
    if no_queue {
        write_word(text, b"noqueue")
    } else {
        Ok(())
    }
}

fn write_value(text: &mut Vec<u8>, value: Option<ValueBytes>) -> io::Result<()> {
    let Some(value) = value else {
        return Ok(());
    };
    text.write_all(b" value ")?;
    for byte in value.get() {
        write!(text, "{byte:02x}")?;
    }
    Ok(())
}

/// A line of a word and numbers.
fn write_line(text: &mut Vec<u8>, word: &str, numbers: &[u64]) -> io::Result<()> {
    write_numbers(text, word, numbers)?;
    text.write_all(b"\n")
}

/// A line of a word, a number and the digits of some bytes.
fn write_fill(text: &mut Vec<u8>, word: &str, number: u64, digits: &[u8]) -> io::Result<()> {
    write_numbers(text, word, &[number])?;
    write_word(text, digits)?;
    text.write_all(b"\n")
}

/// A word and numbers, at the beginning of a line.
fn write_numbers(text: &mut Vec<u8>, word: &str, numbers: &[u64]) -> io::Result<()> {
    text.write_all(word.as_bytes())?;
    for number in numbers {
        write_number(text, *number)?;
    }
    Ok(())
}

fn write_number(text: &mut Vec<u8>, number: u64) -> io::Result<()> {
    write!(text, " {number}")
}

/// One more word of a line.
fn write_word(text: &mut Vec<u8>, word: &[u8]) -> io::Result<()> {
    text.write_all(b" ")?;
    text.write_all(word)
}

/// The digits of the lowest two bytes of a number.
fn hex_of(number: u64) -> [u8; 4] {
    [
        digit_of(number >> 12),
        digit_of(number >> 8),
        digit_of(number >> 4),
        digit_of(number),
    ]
}

fn digit_of(number: u64) -> u8 {
    DIGITS[(number % 16) as usize]
}

fn mode_word(mode: Mode) -> &'static [u8] {
    match mode {
        Mode::Null => b"NL",
        Mode::ConcurrentRead => b"CR",
        Mode::ConcurrentWrite => b"CW",
        Mode::ProtectedRead => b"PR",
        Mode::ProtectedWrite => b"PW",
        Mode::Exclusive => b"EX",
    }
}
