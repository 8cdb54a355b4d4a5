// That what is proved of syncs which take effect at one moment holds of syncs that come late.
ghost use Rattle.late_syncs.specs.Devices.{LateDevicesHaveOneLog, LateDevicesHaveOneLogOn};
ghost use Rattle.late_syncs.specs.Epochs.{LateSyncsAreLossesOn, LateSyncsHaveOneLogOn};
ghost use Rattle.late_syncs.specs.Files.{LateSyncsAreLosses, LateSyncsHaveOneLog, LateSyncsServe, SyncsMayBeLate};
ghost use Rattle.late_syncs.specs.LateDevice.{DevicesMayBeLate, LateDevicesServe};

/// An image whose syncs come late, in parts and with more that was written meanwhile, has served calls as one whose syncs take effect
/// where they were asked for. It may lose power where it owes nothing.
pub fn late_syncs_serve()
    ensures serves { LateSyncsServe }
    // And nothing is left out that an image serves whose syncs come at once.
    ensures all { SyncsMayBeLate }
{}

/// So all that is proved of hosts over losses of power holds where syncs come late: where several are under way together, where one was
/// given up and comes all the same, and where one comes that nobody heard of.
pub fn late_syncs_have_one_log()
    ensures losses { LateSyncsAreLosses }
    ensures one_log { LateSyncsHaveOneLog }
    // So it is with hosts of all epochs.
    ensures endless { LateSyncsAreLossesOn }
    ensures endless_log { LateSyncsHaveOneLogOn }
{}

/// A device of sectors whose syncs come late, sector by sector, has served calls as one whose syncs keep all at one moment.
pub fn late_devices_serve()
    ensures serves { LateDevicesServe }
    // And nothing is left out that a device serves whose syncs come at once.
    ensures all { DevicesMayBeLate }
{}

/// So one log joins what hosts on several machines keep over such devices.
pub fn late_devices_have_one_log()
    ensures one_log { LateDevicesHaveOneLog }
    // So it is with hosts of all epochs.
    ensures endless_log { LateDevicesHaveOneLogOn }
{}
