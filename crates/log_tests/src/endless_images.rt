// The header of an image of a log without an end, and an image that becomes one in place. A few lines of Python gave the bytes and the lengths, by docs/FORMAT.md alone.
use disk::{Disk, ImageFault, SimDisk};
use endless_image::{
    AnyHeader, EndlessHeader, HeaderFault, Kind, Progress, SetFault, are_one_set, check_set,
    decode_any_header, decode_endless_header, encode_endless_header, image_size, is_endless_header,
    make_endless, progress_in, told_any_length, told_size,
};
use paxos_block::{Config, Header, decode_header};
use std::test::Fail;
use torn_block::{HEADER_LENGTH, Layout1, Layout2};

// Disk 1 of three, 320 slots an epoch.
const HEADER: EndlessHeader = EndlessHeader {
    disk: 1,
    disks: 3,
    slots: 320,
    cluster: 0x0102030405060708,
    first_epoch: 0x1112131415161718,
};

// The bytes of that header, and zeros behind them.
const FIELDS: [u8; 25] = [
    165, 4, 1, 3, 0, 0, 1, 64, 1, 2, 3, 4, 5, 6, 7, 8, 17, 18, 19, 20, 21, 22, 23, 24, 0,
];

// How long such an image is.
const LONG: u64 = 2641920;

// The header with one of its bytes changed.
fn changed(at: usize, byte: u8) -> [u8; HEADER_LENGTH] {
    let mut bytes = [0; HEADER_LENGTH];
    bytes[..FIELDS.len()].copy_from_slice(&FIELDS);
    if at < HEADER_LENGTH {
        bytes[at] = byte;
    }
    bytes
}

#[test]
fn header(rt: HostRuntime) {
    assert!(rt; is_endless_header(&HEADER));
    assert!(rt; encode_endless_header(&HEADER) == changed(0, 165));
    assert_eq!(rt;
        decode_endless_header(1, LONG, &changed(0, 165)),
        Ok(HEADER)
    );
    let others = [
        (
            1024,
            7,
            8409088,
            [165, 4, 1, 3, 0, 0, 4, 0, 0, 0, 0, 0, 0, 0, 0, 7],
        ),
        (
            4096,
            u64::MAX,
            33574912,
            [
                165, 4, 1, 3, 0, 0, 16, 0, 255, 255, 255, 255, 255, 255, 255, 255,
            ],
        ),
    ];
    for (slots, cluster, long, first) in others {
        let header = EndlessHeader {
            slots,
            cluster,
            first_epoch: 0,
            ..HEADER
        };
        if is_endless_header(&header) {
            let bytes = encode_endless_header(&header);
            assert!(rt; bytes.starts_with(&first));
            assert!(rt; bytes[16..].iter().all(|&b| b == 0));
            assert_eq!(rt; image_size(slots), long);
            assert_eq!(rt; told_size(&bytes), long);
            assert_eq!(rt; decode_endless_header(1, long, &bytes), Ok(header));
        } else {
            assert!(rt; false, "{slots}");
        }
    }
}

#[test]
fn refused_headers(rt: HostRuntime) {
    let faults = [
        (0, 0, HeaderFault::NotFormatted),
        (1, 2, HeaderFault::OlderVersion),
        (1, 3, HeaderFault::OlderVersion),
        (1, 5, HeaderFault::NewerVersion),
        (2, 2, HeaderFault::WrongDisk),
        (3, 1, HeaderFault::WrongDisks),
        (3, 8, HeaderFault::WrongDisks),
        (7, 63, HeaderFault::WrongSlots),
        (6, 17, HeaderFault::WrongSlots),
        (16, 65, HeaderFault::WrongEpoch),
        (24, 1, HeaderFault::Unfinished),
        (25, 1, HeaderFault::Damaged),
        (1023, 1, HeaderFault::Damaged),
        (7, 65, HeaderFault::WrongLength),
    ];
    for (at, byte, fault) in faults {
        assert_eq!(rt;
            decode_endless_header(1, LONG, &changed(at, byte)),
            Err(fault),
            "{at}"
        );
    }
    for long in [0, LONG - 1, LONG + 1] {
        assert_eq!(rt;
            decode_endless_header(1, long, &changed(0, 165)),
            Err(HeaderFault::WrongLength)
        );
    }
}

// What programs find that know only logs that end, whatever the length is.
#[test]
fn older_programs(rt: HostRuntime) {
    for long in [1318912, LONG] {
        for bytes in [changed(0, 165), changed(24, 1)] {
            assert_eq!(rt;
                decode_header::<Layout2>(1, long, &bytes),
                Err(ImageFault::WrongHeader)
            );
            assert_eq!(rt;
                decode_header::<Layout1>(1, long, &bytes),
                Err(ImageFault::WrongHeader)
            );
        }
    }
}

#[test]
fn sets(rt: HostRuntime) {
    // another disk of the set, which took part later
    let second = EndlessHeader {
        disk: 2,
        first_epoch: 0,
        ..HEADER
    };
    assert_eq!(rt; check_set(&HEADER, &second), Ok(()));
    let others = [
        (7, 4, SetFault::OtherCluster),
        (HEADER.cluster, 4, SetFault::OtherDisks),
        (HEADER.cluster, 3, SetFault::OtherSlots),
    ];
    for (cluster, disks, fault) in others {
        let other = EndlessHeader {
            cluster,
            disks,
            slots: 321,
            ..second
        };
        assert_eq!(rt; check_set(&HEADER, &other), Err(fault));
    }
}

// Disk 1 of three, 320 slots, in the cluster of number 7: before it is made endless, and then after each of the three writes.
const STAGES: [[u8; 25]; 4] = [
    [
        165, 2, 1, 3, 0, 0, 1, 64, 0, 0, 0, 0, 0, 0, 0, 7, 0, 0, 0, 0, 0, 0, 0, 0, 0,
    ],
    [
        165, 2, 1, 3, 0, 0, 1, 64, 0, 0, 0, 0, 0, 0, 0, 7, 0, 0, 0, 0, 0, 0, 0, 0, 1,
    ],
    [
        165, 4, 1, 3, 0, 0, 1, 64, 0, 0, 0, 0, 0, 0, 0, 7, 0, 0, 0, 0, 0, 0, 0, 0, 1,
    ],
    [
        165, 4, 1, 3, 0, 0, 1, 64, 0, 0, 0, 0, 0, 0, 0, 7, 0, 0, 0, 0, 0, 0, 0, 0, 0,
    ],
];

const ENDLESS: EndlessHeader = EndlessHeader {
    cluster: 7,
    first_epoch: 0,
    ..HEADER
};

const ENDING: Header = Header {
    disk: 1,
    disks: 3,
    slots: 320,
    cluster: 7,
};

fn stage(which: usize) -> [u8; HEADER_LENGTH] {
    let mut bytes = [0; HEADER_LENGTH];
    if which < STAGES.len() {
        bytes[..25].copy_from_slice(&STAGES[which]);
    }
    bytes
}

#[test]
fn stages(rt: HostRuntime) {
    let found = [
        Progress::Ending(ENDING),
        Progress::Marked(ENDLESS),
        Progress::Marked(ENDLESS),
        Progress::Endless(ENDLESS),
    ];
    for which in 0..4 {
        assert_eq!(rt; progress_in(1, LONG, &stage(which)), Some(found[which]));
    }
    // the old image alone, and one that is cut off
    assert_eq!(rt; progress_in(1, 1318912, &stage(0)), Some(found[0]));
    assert_eq!(rt; progress_in(1, 1318911, &stage(0)), None);
    assert_eq!(rt; progress_in(1, LONG - 1, &stage(1)), None);
    // a mark and a version that nobody wrote
    let mut torn = stage(1);
    torn[1] = 77;
    torn[24] = 255;
    assert_eq!(rt; progress_in(1, LONG, &torn), Some(found[1]));
    // too few slots for an epoch
    let mut few = stage(0);
    few[7] = 63;
    assert_eq!(rt; progress_in(1, LONG, &few), None);
    // not whole, or another disk's
    assert_eq!(rt; progress_in(1, LONG, &changed(0, 0)), None);
    assert_eq!(rt; progress_in(2, LONG, &stage(3)), None);
}

#[test]
fn made_endless(rt: HostRuntime) -> Result<(), Fail> {
    let mut disk = SimDisk::new(rt.alloc(), HEADER_LENGTH as u64)?;
    let boot = disk.attach()?;
    disk.write(boot, 0, &stage(0))?;
    disk.sync(boot)?;
    make_endless(&mut disk, boot)?;
    let mut bytes = [0; HEADER_LENGTH];
    disk.read(boot, 0, &mut bytes)?;
    assert!(rt; bytes == stage(3));
    Ok(())
}

#[test]
fn kinds(rt: HostRuntime) {
    let ending = AnyHeader::Ending(ENDING);
    let endless = AnyHeader::Endless(ENDLESS);
    assert_eq!(rt; decode_any_header(1, 1318912, &stage(0)), Ok(ending));
    assert_eq!(rt; decode_any_header(1, LONG, &stage(3)), Ok(endless));
    assert_eq!(rt; told_any_length(&stage(0)), 1318912);
    assert_eq!(rt; told_any_length(&stage(3)), LONG);
    assert!(rt; !are_one_set(&ending, &endless));
    assert!(rt; are_one_set(&endless, &endless));
    // longer than its header says, and marked
    for which in 0..3 {
        assert_eq!(rt;
            decode_any_header(1, LONG, &stage(which)),
            Err(ImageFault::WrongHeader)
        );
    }
    assert_eq!(rt;
        decode_any_header(1, LONG, &changed(0, 0)),
        Err(ImageFault::NotFormatted)
    );
    // with a number of slots a log that ends is made, and without one a log without an end
    assert_eq!(rt; Kind::asked_by(Some(320)), (Kind::Ending, 320));
    assert_eq!(rt; Kind::asked_by(None), (Kind::Endless, 1024));
    if let Some(config) = Config::new(3, 320) {
        assert!(rt; Kind::Ending.first_bytes(1, config, 7) == stage(0));
        assert!(rt; Kind::Endless.first_bytes(1, config, 7) == stage(3));
        assert_eq!(rt; Kind::Ending.image_size(config), 1318912);
        assert_eq!(rt; Kind::Endless.image_size(config), LONG);
    }
}
