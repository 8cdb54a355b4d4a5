// What hosts on several machines make together over devices of sectors, if each sector is read and written at one moment.
ghost use Rattle.sector_runs.specs.Made.{CallsCanBeServed};
ghost use Rattle.sector_runs.specs.OneLog.{DevicesHaveOneLog};
ghost use Rattle.sector_runs.specs.OverDevices.{DevicesMakeItAtOnce, DevicesServe};
ghost use Rattle.sector_runs.specs.Owning.{HostsWriteTheirOwn};
ghost use Rattle.sector_runs.specs.Steps.{BlankDevicesShow, KeepsAreSyncs, PutsAreWrites, RestartsLosePower, RowsAreReads, SectorsFollow, SectorsServe, TriesAreTorn, WritesMayBeUndone};

/// What touches a device's sectors makes a step of the disk that it shows.
pub fn touches_are_steps()
    // A sector that was seen is put as it is, with some bytes put in.
    ensures writes { PutsAreWrites }
    // That failed, or was cut off.
    ensures failures { TriesAreTorn }
    ensures syncs { KeepsAreSyncs }
    // A restart leaves of each sector what it had, or something that it has had since the last sync.
    ensures restarts { RestartsLosePower }
    // So until a sync it may undo what was written, or make what failed.
    ensures undone { WritesMayBeUndone }
    // All sectors of a row had these bytes at one moment.
    ensures reads { RowsAreReads }
    // A device that has served calls by its sectors has served them as a disk of the model.
    ensures serves { SectorsServe }
    // A device that was formatted shows an image that holds nothing.
    ensures blank { BlankDevicesShow }
    // And a device can serve so any call of a host, with the answer of that disk.
    ensures can { CallsCanBeServed }
    // Sectors are numbered as they follow one another on the device.
    ensures numbers { SectorsFollow }
{}

/// A host that does what it may writes its own blocks alone. So nobody else has written a sector between the moment when its host saw
/// it and that when the host puts it.
pub fn hosts_write_their_own()
    ensures { HostsWriteTheirOwn }
{}

/// If each host, by itself, does what a host may do, and each device, by itself, serves by its sectors what is done to it, then each
/// call takes effect at one moment: a read between its two passes, a write when its sector is put, a sync when all is kept.
pub fn devices_serve()
    ensures serves { DevicesServe }
    // So all of it is done at once, and is a run of the world.
    ensures at_once { DevicesMakeItAtOnce }
{}

/// One log joins what hosts on all machines have learned, acknowledged and recovered over such devices.
pub fn devices_have_one_log()
    ensures { DevicesHaveOneLog }
{}
