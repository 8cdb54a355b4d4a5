// A file as a disk, and how often one is read whose bytes change meanwhile.
use crate::changing::ChangingFiles;
use disk::{Boot, Disk, DiskFault, FileDisk, ImageFault};
use std::cell::Cell;
use std::fs;
use std::test::Fail;

// The boot number of every file.
const BOOT: Boot = Boot { number: 1 };

// How many bytes are read twice at a time.
const PART: usize = 4096;

const FOLDER: &str = "file_disk_test";

const PATH: &str = "file_disk_test/a.img";

#[test]
fn keeps_what_is_written(rt: HostRuntime) -> Result<(), Fail> {
    let _ = fs::remove_dir_all(&rt, FOLDER);
    fs::create_dir(&rt, FOLDER)?;
    assert_eq!(rt;
        FileDisk::open(&rt, PATH).err(),
        Some(ImageFault::Unreadable)
    );
    let mut disk = FileDisk::make(&rt, PATH, 8)?;
    let boot = disk.attach()?;
    assert_eq!(rt; boot, BOOT);
    disk.write(boot, 0, b"abcdefgh")?;
    disk.sync(boot)?;
    assert!(rt; FileDisk::make(&rt, PATH, 8).is_err());
    let mut again = FileDisk::open(&rt, PATH)?;
    assert_eq!(rt; again.size(), 8);
    let mut back = [0; 3];
    again.read(boot, 4, &mut back)?;
    assert_eq!(rt; back, *b"efg");
    let mut seen = FileDisk::open_to_read(&rt, PATH)?;
    assert_eq!(rt; seen.size(), 8);
    seen.sync(boot)?;
    seen.read(boot, 0, &mut back)?;
    assert_eq!(rt; back, *b"abc");
    assert_eq!(rt; seen.write(boot, 0, b"x").err(), Some(DiskFault::Failed));
    drop((disk, again, seen));
    fs::remove_dir_all(&rt, FOLDER)?;
    Ok(())
}

#[test]
fn reads_until_two_agree(rt: HostRuntime) -> Result<(), Fail> {
    // How often it changes, whether the read succeeds, and by how many reads of the file.
    for (changes, succeeds, reads) in [(0, true, 2), (3, true, 5), (7, true, 9), (8, false, 9)] {
        let made = Cell::new(0);
        let files = ChangingFiles {
            changes,
            reads: &made,
        };
        let mut disk = FileDisk::make(&files, PATH, PART as u64)?;
        let mut row = [0xFF; PART];
        assert_eq!(rt;
            disk.read(BOOT, 0, &mut row).is_ok(),
            succeeds,
            "after {changes} changes"
        );
        assert_eq!(rt; made.get(), reads, "reads at {changes} changes");
        assert_eq!(rt; row, [changes; PART]);
    }
    Ok(())
}
