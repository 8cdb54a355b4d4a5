ghost use Rattle.std.specs.Prelude.{◌≡◌, ℕ, List, OnOk};
ghost use Rattle.std.specs.Io.KnownBytes.{Appends};
ghost use Rattle.epoch_player.specs.Text.{IsShowOf, IsTableText, IsViewOf, blocking_text, epoch_text};

use crate::failure::PlayFailure;
use crate::happening::epoch_of;
use epoch_simulator::SimulatedEpochs;
use inspect::{Blocking, blocking, queues};
use lock_command::HostNumber;
use lock_script::{Show, View};
use lock_table::Picture;
use std::alloc::Global;
use std::io;
use std::io::Write;

/// Prints where a host is, and what is to be shown of its table.
pub fn show_host<O: Write>(
    alloc: Global,
    cluster: &SimulatedEpochs,
    show: &Show,
    out: &mut O,
) -> Result<(), PlayFailure>
    ensures { OnOk result ((text : List ℕ) × IsShowOf show.now cluster.now text
        × Appends (O.contents out.old) (O.contents out.new) text) }
{
    print_epoch(show.host, epoch_of(cluster, show.host), out)?;
    show_table(alloc, cluster, show, out)
}

fn print_epoch<O: Write>(host: HostNumber, at: Option<u64>, out: &mut O) -> io::Result<()>
    ensures { OnOk result (Appends (O.contents out.old) (O.contents out.new) (epoch_text host at)) }
{
    let host = host.get();
    match at {
        Some(epoch) => writeln!(out, "h{host} in epoch {epoch}"),
        None => writeln!(out, "h{host} in no epoch"),
    }
}

/// Prints what is to be shown of a host's table, or that it has none.
fn show_table<O: Write>(
    alloc: Global,
    cluster: &SimulatedEpochs,
    show: &Show,
    out: &mut O,
) -> Result<(), PlayFailure>
    ensures { OnOk result ((text : List ℕ) × IsTableText show.now cluster.now text
        × Appends (O.contents out.old) (O.contents out.new) text) }
{
    let Some(table) = cluster.table(show.host) else {
        out.write_all(b"no table\n")?;
        return Ok(());
    };
    let picture = table.picture(alloc)?;
    show_view(&picture, show.view, out)?;
    Ok(())
}

/// Prints the queues of a picture, or what blocks whom in it.
fn show_view<O: Write>(picture: &Picture, view: View, out: &mut O) -> io::Result<()>
    ensures { OnOk result ((text : List ℕ) × IsViewOf view picture.now text
        × Appends (O.contents out.old) (O.contents out.new) text) }
{
    match view {
        View::Queues => queues(picture, out),
        View::Blocking => show_blocking(&blocking(picture), out),
    }
}

/// Prints the clients of a cycle, or that there is none.
fn show_blocking<O: Write>(found: &Blocking, out: &mut O) -> io::Result<()>
    ensures { OnOk result (Appends (O.contents out.old) (O.contents out.new) (blocking_text found.now)) }
{
    match found {
        Blocking::Ranked(_) => out.write_all(b"no cycle\n"),
        Blocking::Cycle(clients) => {
            out.write_all(b"cycle")?;
            for client in clients.as_slice() {
                write!(out, " {client}")?;
            }
            out.write_all(b"\n")
        }
    }
}
