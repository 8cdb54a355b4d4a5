// Hosts that come to epochs of simulated disks.
use crate::driven::{AREA_ROWS, ENOUGH, SLOTS, cleared_rows, drive, number_of, used_disk};
use coming::{Coming, End};
use disk::SimDisk;
use standings::Epoch;
use std::process::Abort;
use std::test::Fail;

const HOST: u8 = 3;

// The disk loses power: what was not synced is any of these bytes.
fn crash(rt: &impl Abort, disk: &mut SimDisk, given: &[u8; 3]) {
    assert!(rt; disk.may_crash());
    disk.crash(given);
}

#[test]
fn comes_in_so_many_calls(rt: HostRuntime) -> Result<(), Fail> {
    // The epoch, the byte that blocks were of, the calls, and the rows that are cleared then.
    let rows = [
        (0u8, 0, 3, AREA_ROWS),
        (0, 9, 3, 0),
        (1, 0, 31, AREA_ROWS),
        (1, 9, 37, AREA_ROWS),
        (2, 9, 37, AREA_ROWS),
        (4, 9, 55, AREA_ROWS),
        (7, 9, 91, AREA_ROWS),
    ];
    for (order, byte, calls, cleared) in rows {
        let mut disk = used_disk(rt.alloc(), byte)?;
        let epoch = Epoch::new(u64::from(order));
        let mut coming = Coming::new(HOST, SLOTS, epoch);
        assert_eq!(rt; drive(&mut coming, &mut disk, ENOUGH), calls, "at {order}");
        assert_eq!(rt; coming.end(), Some(End::Come));
        // What is so then is so after a crash.
        for _ in 0..2 {
            assert_eq!(rt; number_of(&mut disk, epoch.area, HOST)?, epoch.number);
            assert_eq!(rt; number_of(&mut disk, epoch.area, 2)?, 0);
            assert_eq!(rt; cleared_rows(&mut disk, epoch.area, HOST, byte)?, cleared);
            crash(&rt, &mut disk, &[0xA5, 1, 2]);
        }
    }
    Ok(())
}

// What comes at a call.
#[derive(Clone, Copy, Debug, PartialEq, Eq)]
enum Blow {
    Stop,
    Crash,
    Failure,
    TornWriteAndCrash,
}

#[test]
fn begins_again_after_any_call(rt: HostRuntime) -> Result<(), Fail> {
    let epoch = Epoch::new(3);
    let blows = [
        Blow::Stop,
        Blow::Crash,
        Blow::Failure,
        Blow::TornWriteAndCrash,
    ];
    for blow in blows {
        // It takes 55 calls.
        for calls in 0..55 {
            let mut disk = used_disk(rt.alloc(), 9)?;
            let mut coming = Coming::new(HOST, SLOTS, epoch);
            drive(&mut coming, &mut disk, calls);
            assert_eq!(rt; coming.end(), None);
            if blow == Blow::Failure || blow == Blow::TornWriteAndCrash {
                let given = [0xA5, 0, 7].to_vec(rt.alloc())?;
                assert!(rt; !given.is_empty());
                disk.fail_next(given);
                drive(&mut coming, &mut disk, 1);
                assert_eq!(rt; coming.end(), Some(End::Failed));
            }
            if blow == Blow::Crash || blow == Blow::TornWriteAndCrash {
                crash(&rt, &mut disk, &[0, 0xA5, 3]);
            }
            let mut again = Coming::new(HOST, SLOTS, epoch);
            drive(&mut again, &mut disk, ENOUGH);
            assert_eq!(rt; again.end(), Some(End::Come), "{blow:?} at {calls}");
            assert_eq!(rt; number_of(&mut disk, 1, HOST)?, 4);
            assert_eq!(rt; cleared_rows(&mut disk, 1, HOST, 9)?, AREA_ROWS);
        }
    }
    Ok(())
}

#[test]
fn passed_where_somebody_has_left(rt: HostRuntime) -> Result<(), Fail> {
    let mut disk = used_disk(rt.alloc(), 0)?;
    let mut other = Coming::new(7, SLOTS, Epoch::new(3));
    drive(&mut other, &mut disk, 12);
    assert_eq!(rt; number_of(&mut disk, 1, 7)?, 1);
    let mut coming = Coming::new(HOST, SLOTS, Epoch::new(1));
    drive(&mut coming, &mut disk, 5);
    drive(&mut other, &mut disk, ENOUGH);
    drive(&mut coming, &mut disk, ENOUGH);
    assert_eq!(rt; coming.end(), Some(End::Passed));
    let mut late = Coming::new(HOST, SLOTS, Epoch::new(1));
    assert_eq!(rt; drive(&mut late, &mut disk, ENOUGH), 3);
    assert_eq!(rt; late.end(), Some(End::Passed));
    Ok(())
}
