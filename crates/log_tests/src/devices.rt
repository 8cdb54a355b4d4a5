// A header of a device, the places of its sectors, and a row out of them. A plain driver in C gave the bytes and the numbers.
ghost use Rattle.std.specs.Prelude.{◌<◌};

use endless_image::Kind;
use sectors::{
    DEVICE_HEADER_LENGTH, DeviceFault, DeviceHeader, Geometry, SectorRange, SetFault, StampSpent,
    agree, beat_sector, block_at, check_set, decode_device_header, device_size,
    encode_device_header, gather, is_device_header, is_geometry, put_in, row_at, row_size,
    slot_row, stamp_in, vote_sector,
};
use torn_block::ROW_LENGTH;

// Four hosts, sectors of 512 bytes and sixteen slots.
const SMALL: Geometry = Geometry {
    sector_size: 512,
    hosts: 4,
    kind: Kind::Ending,
    slots: 16,
};

const HEADER: DeviceHeader = DeviceHeader {
    disk: 1,
    disks: 3,
    cluster: 0x0102030405060708,
    geometry: SMALL,
    dsync: false,
};

// The bytes of that header, and zeros behind them.
const FIELDS: [u8; 24] = [
    165, 3, 1, 3, 0, 0, 0, 16, 1, 2, 3, 4, 5, 6, 7, 8, 0, 0, 2, 0, 1, 4, 0, 0,
];

// How long such a device is.
const LONG: u64 = 38912;

// The header with one of its bytes changed.
fn changed(at: usize, byte: u8) -> [u8; DEVICE_HEADER_LENGTH] {
    let mut bytes = [0; DEVICE_HEADER_LENGTH];
    bytes[..FIELDS.len()].copy_from_slice(&FIELDS);
    if at < DEVICE_HEADER_LENGTH {
        bytes[at] = byte;
    }
    bytes
}

#[test]
fn header(rt: HostRuntime) {
    assert!(rt; is_device_header(&HEADER));
    assert!(rt; encode_device_header(&HEADER) == changed(0, 165));
    let written = DeviceHeader {
        dsync: true,
        ..HEADER
    };
    assert!(rt; is_device_header(&written));
    assert!(rt; encode_device_header(&written) == changed(22, 1));
    assert_eq!(rt; decode_device_header(1, LONG, &changed(0, 165)), Ok(HEADER));
    // a device may be longer than what it has
    assert_eq!(rt;
        decode_device_header(1, LONG + 1, &changed(22, 1)),
        Ok(written)
    );
}

#[test]
fn refused_headers(rt: HostRuntime) {
    let faults = [
        (0, 0, DeviceFault::NotFormatted),
        (1, 2, DeviceFault::WrongVersion),
        (2, 2, DeviceFault::WrongDisk),
        (3, 1, DeviceFault::WrongDisk),
        (3, 8, DeviceFault::WrongDisk),
        (7, 0, DeviceFault::WrongSlots),
        (6, 17, DeviceFault::WrongSlots),
        (18, 3, DeviceFault::WrongSectorSize),
        (20, 2, DeviceFault::WrongParts),
        (21, 0, DeviceFault::WrongHosts),
        (21, 17, DeviceFault::WrongHosts),
        (22, 2, DeviceFault::WrongWrites),
        (23, 1, DeviceFault::WrongRest),
        (4095, 1, DeviceFault::WrongRest),
        (7, 17, DeviceFault::TooShort),
    ];
    for (at, byte, fault) in faults {
        assert_eq!(rt;
            decode_device_header(1, LONG, &changed(at, byte)),
            Err(fault)
        );
    }
    assert_eq!(rt;
        decode_device_header(1, LONG - 1, &changed(0, 165)),
        Err(DeviceFault::TooShort)
    );
}

// The same of a log without an end: 320 slots an epoch. Byte 1 is its version, and bytes 6 and 7 have the slots.
const ENDLESS: DeviceHeader = DeviceHeader {
    geometry: Geometry {
        kind: Kind::Endless,
        slots: 320,
        ..SMALL
    },
    ..HEADER
};

fn endless_changed(slots: u8) -> [u8; DEVICE_HEADER_LENGTH] {
    let mut bytes = changed(1, 5);
    bytes[6] = 1;
    bytes[7] = slots;
    bytes
}

// The image has a header and 644 rows: two areas of 321 rows, and two of standings.
const ENDLESS_LONG: u64 = 4096 + 644 * 2048;

#[test]
fn endless(rt: HostRuntime) {
    assert!(rt; is_device_header(&ENDLESS));
    assert!(rt; encode_device_header(&ENDLESS) == endless_changed(64));
    assert_eq!(rt;
        decode_device_header(1, ENDLESS_LONG, &endless_changed(64)),
        Ok(ENDLESS)
    );
    assert_eq!(rt;
        decode_device_header(1, ENDLESS_LONG - 1, &endless_changed(64)),
        Err(DeviceFault::TooShort)
    );
    // an epoch of 319 slots, a version between, and one that a later program made
    assert_eq!(rt;
        decode_device_header(1, ENDLESS_LONG, &endless_changed(63)),
        Err(DeviceFault::WrongSlots)
    );
    for version in [4, 6] {
        assert_eq!(rt;
            decode_device_header(1, ENDLESS_LONG, &changed(1, version)),
            Err(DeviceFault::WrongVersion)
        );
    }
    // the last row of the image, and none behind it
    assert_eq!(rt;
        row_at(&ENDLESS.geometry, 644 * 4096),
        Some(ENDLESS_LONG - 2048)
    );
    assert_eq!(rt; row_at(&ENDLESS.geometry, 645 * 4096), None);
}

#[test]
fn sets(rt: HostRuntime) {
    // another disk of the set, with other sectors
    let second = DeviceHeader {
        disk: 2,
        geometry: Geometry {
            sector_size: 4096,
            ..SMALL
        },
        ..HEADER
    };
    assert_eq!(rt; check_set(&HEADER, &second), Ok(()));
    let slots = Geometry {
        slots: 17,
        hosts: 5,
        ..SMALL
    };
    assert_eq!(rt;
        check_set(
            &HEADER,
            &DeviceHeader {
                geometry: slots,
                ..second
            }
        ),
        Err(SetFault::OtherSlots)
    );
    assert_eq!(rt; check_set(&HEADER, &ENDLESS), Err(SetFault::OtherKind));
    assert_eq!(rt;
        check_set(
            &HEADER,
            &DeviceHeader {
                cluster: 7,
                disks: 4,
                ..HEADER
            }
        ),
        Err(SetFault::OtherCluster)
    );
}

#[test]
fn places(rt: HostRuntime) {
    assert!(rt; is_geometry(&SMALL));
    assert_eq!(rt; row_size(&SMALL), 2048);
    assert_eq!(rt; device_size(&SMALL), LONG);
    assert_eq!(rt; beat_sector(&SMALL, 2), 5120);
    assert_eq!(rt; slot_row(&SMALL, 2), 10240);
    assert_eq!(rt; vote_sector(&SMALL, 2, 3), 11776);
    let large = Geometry {
        sector_size: 4096,
        hosts: 16,
        kind: Kind::Ending,
        slots: 4096,
    };
    assert!(rt; is_geometry(&large));
    assert_eq!(rt; device_size(&large), 268505088);
    assert_eq!(rt; vote_sector(&large, 15, 2), 1060864);
}

// The places are those of an image of sixteen slots: 4096 bytes of header, a heartbeat area of 4096, and rows of 4096.
#[test]
fn places_of_an_image(rt: HostRuntime) {
    assert!(rt; is_geometry(&SMALL));
    assert_eq!(rt; row_at(&SMALL, 4096), Some(4096));
    assert_eq!(rt; row_at(&SMALL, 16384), Some(10240));
    // the header, within a row, and behind the last row
    assert_eq!(rt; row_at(&SMALL, 0), None);
    assert_eq!(rt; row_at(&SMALL, 16640), None);
    assert_eq!(rt; row_at(&SMALL, 73728), None);
    // bytes 129 to 131 of host 3's block of slot 2
    let found = SectorRange {
        place: 11776,
        offset: 129,
    };
    assert_eq!(rt; block_at(&SMALL, 17281, 3), Some(found));
    // in the header, of a host that there is not, and over the end of a block
    assert_eq!(rt; block_at(&SMALL, 4095, 1), None);
    assert_eq!(rt; block_at(&SMALL, 5120, 1), None);
    assert_eq!(rt; block_at(&SMALL, 4350, 3), None);
    assert_eq!(rt;
        block_at(&SMALL, 4350, 2),
        Some(SectorRange {
            place: 4096,
            offset: 254
        })
    );
}

// The sectors of a row.
type Sectors = [u8; 2048];

// Two bytes into the block of host 3.
fn write(sectors: &mut Sectors, offset: usize, from: &[u8; 2]) -> Result<(), StampSpent>
    requires { offset < 200 }
{
    put_in(&mut sectors[1536..], offset, from)
}

fn stamp(sectors: &Sectors) -> u64 {
    stamp_in(&sectors[1536..])
}

fn same(one: &Sectors, other: &Sectors) -> bool {
    is_geometry(&SMALL) && agree(&SMALL, one, other)
}

// The row that is gathered where other bytes were before.
fn row_in(sectors: &Sectors) -> [u8; ROW_LENGTH] {
    let mut row = [0xff; ROW_LENGTH];
    if is_geometry(&SMALL) {
        gather(&SMALL, sectors, &mut row);
    }
    row
}

fn with_noise(sectors: &Sectors) -> Sectors {
    let mut noise = *sectors;
    noise[2047] = 1;
    noise
}

// The row that has these three bytes, and zeros.
fn three_bytes() -> [u8; ROW_LENGTH] {
    let mut row = [0; ROW_LENGTH];
    row[897] = 7;
    row[898] = 7;
    row[899] = 9;
    row
}

#[test]
fn rows_of_sectors(rt: HostRuntime) {
    let mut sectors = [0; 2048];
    assert_eq!(rt; write(&mut sectors, 130, &[8, 9]), Ok(()));
    let once = sectors;
    assert_eq!(rt; write(&mut sectors, 129, &[7, 7]), Ok(()));
    assert_eq!(rt; stamp(&sectors), 2);
    assert!(rt; row_in(&sectors) == three_bytes());
    assert!(rt; same(&sectors, &sectors));
    assert!(rt; !same(&sectors, &once));
    // the same bytes once more: the stamp tells
    let twice = sectors;
    assert_eq!(rt; write(&mut sectors, 129, &[7, 7]), Ok(()));
    assert!(rt; row_in(&sectors) == three_bytes());
    assert!(rt; !same(&sectors, &twice));
    // bytes that nobody looks at
    assert!(rt; same(&sectors, &with_noise(&sectors)));
}

#[test]
fn spent_stamps(rt: HostRuntime) {
    let mut sector = [0xff; 512];
    assert_eq!(rt; put_in(&mut sector, 0, &[1]), Err(StampSpent));
    assert!(rt; sector == [0xff; 512]);
}
