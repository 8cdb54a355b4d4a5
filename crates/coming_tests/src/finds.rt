// Searches for the newest epoch over simulated disks.
use crate::driven::{ENOUGH, SLOTS, answer, drive, used_disk};
use coming::{Coming, Finding, Found};
use standings::Epoch;
use std::test::Fail;
use torn_block::ROW_LENGTH;

// A host has come to an epoch on the last disk alone. So many of the first disks are lost.
#[test]
fn finds_the_newest(rt: HostRuntime) -> Result<(), Fail> {
    // The lost disks, the calls, and on how many disks the search is answered, if that is enough.
    let rows = [
        (0usize, 15, Some(5)),
        (1, 13, Some(4)),
        (2, 11, Some(3)),
        (3, 9, None),
    ];
    for newest in 0..6u8 {
        for (lost, calls, answered) in rows {
            let mut disks = Vec::new(rt.alloc());
            for number in 0..5usize {
                let mut disk = used_disk(rt.alloc(), 0)?;
                if number == 4 {
                    let mut coming = Coming::new(3, SLOTS, Epoch::new(u64::from(newest)));
                    drive(&mut coming, &mut disk, ENOUGH);
                }
                if number < lost {
                    disk.lose();
                }
                disks.push(disk)?;
            }
            let mut finding = Finding::new(SLOTS, 5);
            let mut row = [0; ROW_LENGTH];
            let mut made = 0usize;
            for call in 0..ENOUGH {
                if finding.end().is_some() {
                    break;
                }
                made = call + 1;
                let need = finding.call();
                let disk = disks.get_mut(usize::from(need.disk)).ok_or("disk")?;
                let heard = answer(disk, &need.call, &mut row);
                finding.hear(&heard);
            }
            let found = match answered {
                Some(disks) => Found::Newest {
                    order: u64::from(newest),
                    disks,
                },
                None => Found::TooFew,
            };
            assert_eq!(rt; finding.end(), Some(found));
            assert_eq!(rt; made, calls);
            let readings = finding.readings();
            for (number, reading) in readings.iter().enumerate() {
                assert_eq!(rt; reading.is_some(), lost <= number && number < 5);
            }
        }
    }
    Ok(())
}
