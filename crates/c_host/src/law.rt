// What the calls from C come to, one after another.
ghost use Rattle.c_host.specs.Ends.{LooksTell, MarkingsTell, OpenedRest, OperationsTell};
ghost use Rattle.c_host.specs.Steps.{CallsCarryOut};

use disk::Disk;

/// A task is begun; each of its device calls is named, made on its disk and its answer heard, until none is due. Then it is a task
/// that a host over these disks carried out. So whatever is proved of operations, markings and looks holds of it.
pub fn calls_make_operations<D: Disk>()
    ensures { CallsCarryOut D.gives }
{}

/// When such an operation has ended, `dlm_c_answer` says what it came to. If it gives a slot and a reply, the command that was
/// submitted, and no other, was acknowledged there with that reply. A count is that of the commands learned. A refusal is why the
/// operation was refused. This holds of each operation, marking and look since the host was opened.
pub fn ends_are_told<D: Disk>()
    ensures opened { OpenedRest }
    ensures operations { OperationsTell D.gives }
    ensures markings { MarkingsTell D.gives }
    ensures looks { LooksTell D.gives }
{}
