// What the calls from C come to, one after another.
ghost use Rattle.c_epochs.specs.Ends.{EndsAreTold};
ghost use Rattle.c_epochs.specs.Steps.{CallsWork};

use disk::Disk;

/// A task is begun; each of its device calls is named, made on its disk and its answer heard, until none is due. Then a host over these disks carried the task
/// out. So whatever is proved of such hosts holds of it.
pub fn calls_make_tasks<D: Disk>()
    ensures { CallsWork D.gives }
{}

/// When such a task has ended, `OpenEpochs::answer` says what it came to. If it gives a place and a reply, the command that was submitted, and no other, was
/// acknowledged there with that reply. A recovery and a look give a place below which all is learned, and a marking the number of disks. A refusal is why the
/// task was refused. If nothing is told, memory was refused. This holds of each task since the host was opened.
pub fn ends_are_told<D: Disk>()
    ensures { EndsAreTold D.gives }
{}
