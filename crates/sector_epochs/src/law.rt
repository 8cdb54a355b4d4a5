// What hosts of all epochs on several machines make together over devices of sectors, if each sector is read and written at one moment.
ghost use Rattle.sector_epochs.specs.OverDevices.{BlankDevicesShow, DevicesHaveOneLog, DevicesServe, HostsWriteTheirOwn};

/// A host that does what it may writes its own blocks alone, in each epoch and beside them. So nobody else writes its sectors.
pub fn hosts_write_their_own()
    ensures { HostsWriteTheirOwn }
{}

/// If each host, by itself, does what a host may do, and each device, by itself, serves by its sectors what is done to it, then each image serves
/// it, each call at one moment.
pub fn devices_serve_all_epochs()
    ensures serves { DevicesServe }
    // A device that was formatted for a log without an end shows an image that is blank.
    ensures blank { BlankDevicesShow }
{}

/// All that hosts on all machines acknowledge, recover and show goes by one log without an end.
pub fn devices_have_one_log_without_an_end()
    ensures { DevicesHaveOneLog }
{}
