// What the layers above need to know of headers, places, rows and stamps. These functions do nothing.
ghost use Rattle.std.specs.Prelude.{◌≡◌, ◌≢◌, ◌⊎◌, ◌+◌, ◌*◌, ◌^◌, ◌≤◌, ◌<◌, ℕ, List, length, take, slice_index};
ghost use Rattle.disk.specs.Disk.{put_at};
ghost use Rattle.torn_block.specs.Damage as row;
ghost use Rattle.torn_block.specs.Layout.{Version, area_place, cluster_version};
ghost use Rattle.torn_block.specs.Place as at;
ghost use Rattle.torn_block.specs.declared.layout.TheConstants.{HEADER_LENGTH, BLOCK_LENGTH};
ghost use Rattle.paxos_block.specs.Places as images;
ghost use Rattle.paxos_block.specs.Places.{Spot, BeatOf, VoteOf};
ghost use Rattle.paxos_block.specs.declared.header.Header.{Header};
ghost use Rattle.paxos_block.specs.Headers as older;
ghost use Rattle.standings.specs.Epochs.{base_of, number_place};
ghost use Rattle.endless_image.specs.declared.header.EndlessHeader.{EndlessHeader};
ghost use Rattle.endless_image.specs.declared.kind.Kind.TheVariants.{Endless};
ghost use Rattle.endless_image.specs.Headers as endless;
ghost use Rattle.endless_image.specs.Kinds.{size_by};
ghost use Rattle.endless_image.specs.Sizes.{area_size};
ghost use Rattle.sectors.specs.declared.geometry.Geometry.{Geometry};
ghost use Rattle.sectors.specs.declared.header.DeviceHeader.{DeviceHeader};
ghost use Rattle.sectors.specs.declared.header.TheConstants.{DEVICE_HEADER_LENGTH, DEVICE_VERSION, VERSION_AT};
ghost use Rattle.sectors.specs.Geometry.{IsGeometry, row_size, slot_rows, device_size};
ghost use Rattle.sectors.specs.Headers.{IsDeviceHeader, IsRight, header_saying};
ghost use Rattle.sectors.specs.Moments.{Sectors, Touch, IsSeen, Leads, Raises};
ghost use Rattle.sectors.specs.Names.{name_of, sector_naming};
ghost use Rattle.sectors.specs.declared.name.MachineName.{MachineName};
ghost use Rattle.sectors.specs.declared.name.TheConstants.{NAME_LENGTH, NAMED_LENGTH};
ghost use Rattle.sectors.specs.Places.{place_of, row_place, IsSpot, sector_at, row_in, Shows};
ghost use Rattle.sectors.specs.Row.{IsRowOf, Agree, sector_in};
ghost use Rattle.sectors.specs.Sector.{block_of, stamp_of, stamped_of, sector_with};

/// What a header is spelled to say is read, and nothing else. Whoever knows images alone refuses it; so does whoever knows logs that end alone.
pub fn headers_come_back()
    ensures back { (long : ℕ) (header : DeviceHeader) → IsDeviceHeader header → header.cluster < 2 ^ 64 →
        device_size header.geometry ≤ long → IsRight header.disk long (header_saying header) header }
    ensures one { (disk long : ℕ) (bytes : List ℕ) (a b : DeviceHeader) → IsRight disk long bytes a →
        IsRight disk long bytes b → a ≡ b }
    ensures images { (v : Version) (disk long : ℕ) (header : DeviceHeader) (other : Header) →
        ¬ older.IsRight v disk long (take HEADER_LENGTH (header_saying header)) other }
    ensures endless { (disk long : ℕ) (header : DeviceHeader) (other : EndlessHeader) →
        ¬ endless.IsRight disk long (take HEADER_LENGTH (header_saying header)) other }
    ensures older { (header : DeviceHeader) → header.geometry.kind ≡ Endless →
        slice_index (header_saying header) VERSION_AT ≢ DEVICE_VERSION }
{}

/// The sectors of two blocks have no byte in common, none is in the header, and the device has room for each. Each begins where a
/// sector of the device begins.
pub fn places_are_apart()
    ensures apart { (geometry : Geometry) (a b : Spot) → IsGeometry geometry → IsSpot geometry a →
        IsSpot geometry b → a ≢ b → (place_of geometry a + geometry.sector_size ≤ place_of geometry b) ⊎
        (place_of geometry b + geometry.sector_size ≤ place_of geometry a) }
    ensures behind { (geometry : Geometry) (a : Spot) → DEVICE_HEADER_LENGTH ≤ place_of geometry a }
    ensures within { (geometry : Geometry) (a : Spot) → IsGeometry geometry → IsSpot geometry a →
        place_of geometry a + geometry.sector_size ≤ device_size geometry }
    ensures aligned { (geometry : Geometry) (a : Spot) → IsGeometry geometry →
        (n : ℕ) × (place_of geometry a ≡ geometry.sector_size * n) }
{}

/// A device has the rows of the image that it shows. Of a log without an end these are where its areas and its standings are.
pub fn images_have_rows()
    ensures long { (geometry : Geometry) →
        images.image_length cluster_version (slot_rows geometry) ≡ size_by geometry.kind geometry.slots }
    // The rows of standings follow the slots of the first area.
    ensures standings { (slots area host : ℕ) → number_place (area_size slots) area host ≡
        images.place_of cluster_version (VoteOf (slots + area) host) }
    // Then come the heartbeat blocks of the second, and its slots.
    ensures beats { (slots host : ℕ) → base_of (area_size slots) 1 + images.place_of cluster_version (BeatOf host) ≡
        images.place_of cluster_version (VoteOf (slots + 2) host) }
    ensures votes { (slots slot host : ℕ) →
        base_of (area_size slots) 1 + images.place_of cluster_version (VoteOf slot host) ≡
        images.place_of cluster_version (VoteOf (slots + 3 + slot) host) }
{}

/// What is gathered of a row's sectors has the blocks that the device has at their places, and there is no other such row.
pub fn rows_come_back()
    ensures votes { (geometry : Geometry) (device bytes : List ℕ) (slot host : ℕ) → IsGeometry geometry →
        host < geometry.hosts →
        IsRowOf geometry (row_in geometry (row_place geometry slot) device) bytes →
        row.block_of cluster_version host bytes ≡
        at.block_in cluster_version (place_of geometry (VoteOf slot host)) device }
    ensures beats { (geometry : Geometry) (device bytes : List ℕ) (host : ℕ) → IsGeometry geometry →
        host < geometry.hosts →
        IsRowOf geometry (row_in geometry DEVICE_HEADER_LENGTH device) bytes →
        row.block_of cluster_version host bytes ≡
        at.block_in cluster_version (place_of geometry (BeatOf host)) device }
    // A block that is put into its sector whole is the host's block of the row.
    ensures written { (geometry : Geometry) (sectors old new block : List ℕ) (host : ℕ) → IsGeometry geometry →
        length sectors ≡ row_size geometry → host < geometry.hosts → length block ≡ BLOCK_LENGTH →
        IsRowOf geometry sectors old →
        IsRowOf geometry (put_at sectors (geometry.sector_size * host)
        (sector_with 0 block (sector_in geometry host sectors))) new →
        row.block_of cluster_version host new ≡ block }
    ensures one { (geometry : Geometry) (sectors a b : List ℕ) → IsRowOf geometry sectors a →
        IsRowOf geometry sectors b → a ≡ b }
{}

/// A device of zeros shows an image of zeros. Their headers are not looked at.
pub fn new_devices_show()
    ensures { (geometry : Geometry) (device image : List ℕ) → IsGeometry geometry →
        device_size geometry ≤ length device →
        length image ≡ images.image_length cluster_version (slot_rows geometry) →
        ((k : ℕ) → DEVICE_HEADER_LENGTH ≤ k → slice_index device k ≡ 0) →
        ((k : ℕ) → area_place cluster_version ≤ k → slice_index image k ≡ 0) →
        Shows geometry device image }
{}

/// A row that is gathered is what a read of the image that the device shows would give.
pub fn reads_show()
    ensures votes { (geometry : Geometry) (device image bytes : List ℕ) (slot : ℕ) → IsGeometry geometry →
        slot < slot_rows geometry → length image ≡ images.image_length cluster_version (slot_rows geometry) →
        Shows geometry device image →
        IsRowOf geometry (row_in geometry (row_place geometry slot) device) bytes →
        bytes ≡ images.row_of cluster_version slot image }
    ensures beats { (geometry : Geometry) (device image bytes : List ℕ) → IsGeometry geometry →
        length image ≡ images.image_length cluster_version (slot_rows geometry) →
        Shows geometry device image →
        IsRowOf geometry (row_in geometry DEVICE_HEADER_LENGTH device) bytes →
        bytes ≡ images.area_of cluster_version image }
{}

/// Bytes that are put into the block of one sector are put into that block of the row, and into that of the whole image, and
/// nothing else of either is changed.
pub fn writes_show()
    ensures row { (geometry : Geometry) (sectors old new from : List ℕ) (host offset : ℕ) → IsGeometry geometry →
        length sectors ≡ row_size geometry → host < geometry.hosts → offset + length from ≤ BLOCK_LENGTH →
        IsRowOf geometry sectors old →
        IsRowOf geometry (put_at sectors (geometry.sector_size * host)
        (sector_with offset from (sector_in geometry host sectors))) new →
        new ≡ put_at old (BLOCK_LENGTH * host + offset) from }
    ensures image { (geometry : Geometry) (device image from : List ℕ) (spot : Spot) (offset : ℕ) →
        IsGeometry geometry → IsSpot geometry spot → device_size geometry ≤ length device →
        length image ≡ images.image_length cluster_version (slot_rows geometry) →
        offset + length from ≤ BLOCK_LENGTH →
        Shows geometry device image →
        Shows geometry (put_at device (place_of geometry spot)
        (sector_with offset from (sector_at geometry (place_of geometry spot) device)))
        (put_at image (images.place_of cluster_version spot + offset) from) }
{}

/// Writes raise the stamps of the sectors that they change.
pub fn writes_raise()
    ensures { (old new : Sectors) (touches : List Touch) → Leads old touches new → Raises old new }
{}

/// Two reads of a sector that agree saw what it had all the while.
pub fn reads_that_agree()
    ensures { (old middle new : Sectors) (first second : List Touch) (s : ℕ) → Leads old first middle →
        Leads middle second new → stamped_of (new s) ≡ stamped_of (old s) → middle s ≡ old s }
{}

/// The sectors of a row, which begins with the sector of this number, are read, each at a moment of its own. Then each is read once
/// again, and the two reads agree. At the moment between them the row had all that was read.
pub fn rows_are_moments()
    ensures { (geometry : Geometry) (one other : List ℕ) (base : ℕ) (old middle new : Sectors)
        (first second : List Touch) → Leads old first middle → Leads middle second new →
        ((host : ℕ) → host < geometry.hosts → IsSeen (base + host) (sector_in geometry host one) first) →
        ((host : ℕ) → host < geometry.hosts → IsSeen (base + host) (sector_in geometry host other) second) →
        Agree geometry one other → (host : ℕ) → host < geometry.hosts →
        middle (base + host) ≡ sector_in geometry host one }
{}

/// A name that is put into a sector comes back, under the next stamp. The block stays.
pub fn names_come_back()
    ensures name { (name : MachineName) (sector : List ℕ) → NAMED_LENGTH ≤ length sector →
        length name.bytes ≡ NAME_LENGTH → name_of (sector_naming name sector) ≡ name }
    ensures stamp { (name : MachineName) (sector : List ℕ) → NAMED_LENGTH ≤ length sector →
        stamp_of sector + 1 < 2 ^ 64 → stamp_of (sector_naming name sector) ≡ stamp_of sector + 1 }
    ensures block { (name : MachineName) (sector : List ℕ) → NAMED_LENGTH ≤ length sector →
        block_of (sector_naming name sector) ≡ block_of sector }
{}

/// What a write that failed leaves: some bytes in its range, and elsewhere what was there. The sector is then as it was or as it was
/// to be, or else each byte of it is.
pub fn writes_of_sectors()
    ensures whole { (old from left : List ℕ) (offset : ℕ) → offset + length from ≤ BLOCK_LENGTH →
        BLOCK_LENGTH ≤ length old → (left ≡ old) ⊎ (left ≡ sector_with offset from old) →
        (some : List ℕ) × (length some ≡ length from) × (block_of left ≡ put_at (block_of old) offset some) }
    ensures mixed { (old from left : List ℕ) (offset : ℕ) → offset + length from ≤ BLOCK_LENGTH →
        BLOCK_LENGTH ≤ length old → length left ≡ length old →
        ((k : ℕ) → (slice_index left k ≡ slice_index old k) ⊎
        (slice_index left k ≡ slice_index (sector_with offset from old) k)) →
        (some : List ℕ) × (length some ≡ length from) × (block_of left ≡ put_at (block_of old) offset some) }
{}
