// What the layers above need to know of headers, of new images, and of images that are made in place. These functions do nothing.
ghost use Rattle.std.specs.Prelude.{◌≡◌, ◌≢◌, ◌^◌, ◌<◌, ◌≤◌, ℕ, List, length, take};
ghost use Rattle.disk.specs.Crash.{MayLeave};
ghost use Rattle.disk.specs.Disk.{DiskState, Call, Answer, Crashes, Step};
ghost use Rattle.disk.specs.declared.fault.DiskFault.{DiskFault};
ghost use Rattle.torn_block.specs.Layout.{Version, cluster_version};
ghost use Rattle.torn_block.specs.Place.{block_in};
ghost use Rattle.torn_block.specs.declared.layout.TheConstants.{DISKS, HEADER_LENGTH};
ghost use Rattle.paxos_block.specs.Headers.{HasNoHeader};
ghost use Rattle.paxos_block.specs.Places.{Spot, IsSpot, place_of, row_of};
ghost use Rattle.paxos_block.specs.declared.header.Header.{Header};
ghost use Rattle.endless_image.specs.declared.header.EndlessHeader.{EndlessHeader};
ghost use Rattle.endless_image.specs.Headers.{IsEndlessHeader, IsRight, header_saying, header_with};
ghost use Rattle.endless_image.specs.Holding.{IsAtFirst, IsBlank, block_at, new_image};
ghost use Rattle.endless_image.specs.InPlace.{AllDone, BeginsSurely, EndsWithin, IsBegun, IsBehind, IsEnding, IsExtended, IsLeft, IsMarked, IsNew, IsReady, IsUnfinished, Leaves, StopsBy, endless_of, finishing, making};
ghost use Rattle.endless_image.specs.Kinds.{IsRightBy, IsSlotsBy, header_by, kind_of, size_by};
ghost use Rattle.endless_image.specs.Sizes.{size_of};
ghost use Rattle.endless_image.specs.declared.any_header.AnyHeader.{AnyHeader};
ghost use Rattle.endless_image.specs.declared.kind.Kind.{Kind};
ghost use Rattle.paxos_block.specs.Shape.{Shape};

/// What a header is spelled to say is read, and nothing else. Programs that know only logs that end find a wrong header.
pub fn headers_come_back()
    ensures back { (header : EndlessHeader) → IsEndlessHeader header → header.cluster < 2 ^ 64 →
        IsRight header.disk (size_of header.slots) (header_saying header) header }
    ensures one { (disk long : ℕ) (bytes : List ℕ) (a b : EndlessHeader) → IsRight disk long bytes a →
        IsRight disk long bytes b → a ≡ b }
    ensures older { (v : Version) (disk long : ℕ) (header : EndlessHeader) →
        HasNoHeader v disk long (header_saying header) }
    // So they do of one that is not finished, whatever its version is.
    ensures unfinished { (v : Version) (disk long version mark : ℕ) (header : EndlessHeader) → mark ≢ 0 →
        HasNoHeader v disk long (header_with version mark header) }
{}

/// A new image has its header, and holds nothing: epoch 0 may begin at once.
pub fn new_images_hold_nothing()
    ensures header { (header : EndlessHeader) → IsEndlessHeader header → header.cluster < 2 ^ 64 →
        IsRight header.disk (length (new_image header)) (take HEADER_LENGTH (new_image header)) header }
    ensures blank { (header : EndlessHeader) → IsEndlessHeader header → IsBlank header.slots 0 (new_image header) }
    ensures first { (header : EndlessHeader) → IsEndlessHeader header → IsAtFirst header.slots (new_image header) }
{}

/// An image of a log that ends becomes one of a log without an end in place. Wherever that stops, the old image or the new one is left, or one
/// that is marked, which every program refuses until it is finished.
pub fn images_become_endless()
    // Before that its disk is made longer. What is written behind the old image leaves it as it is.
    ensures before { (old : List ℕ) (start new : DiskState) (call : Call) (answer : Answer) → BeginsSurely old start →
        IsBehind old start call → Step start call answer new → BeginsSurely old new }
    // At each moment, whatever the calls are answered, and after a crash then.
    ensures moments { (old : List ℕ) (start new : DiskState) (boot : ℕ) → IsReady old start →
        EndsWithin Step (making boot) start new → Leaves old new }
    ensures again { (old : List ℕ) (start new : DiskState) (boot : ℕ) → IsBegun old start →
        EndsWithin Step (finishing boot) start new → Leaves old new }
    ensures stopped { (old : List ℕ) (start new : DiskState) (boot : ℕ) (fault : DiskFault) →
        StopsBy Step (making boot) fault start new → EndsWithin Step (making boot) start new }
    ensures crashed { (old : List ℕ) (disk new : DiskState) → Leaves old disk → Crashes disk new → Leaves old new }
    // Once all calls are answered well it is the new one, and stays so after a crash.
    ensures made { (old : List ℕ) (start new : DiskState) (boot : ℕ) → IsReady old start →
        AllDone Step (making boot) start new → (bytes : List ℕ) → MayLeave new bytes → IsNew old bytes }
    ensures finished { (old : List ℕ) (start new : DiskState) (boot : ℕ) → IsBegun old start →
        AllDone Step (finishing boot) start new → (bytes : List ℕ) → MayLeave new bytes → IsNew old bytes }
    ensures header { (disk : ℕ) (header : Header) (old bytes : List ℕ) → IsExtended disk header old → IsNew old bytes →
        IsRight disk (size_of header.slots) (take HEADER_LENGTH bytes) (endless_of header) }
    // What is left is found: the old image, one that is marked, or the new one.
    ensures found_old { (disk : ℕ) (header : Header) (old : List ℕ) → IsExtended disk header old →
        IsEnding disk (length old) (take HEADER_LENGTH old) header }
    ensures found_marked { (disk : ℕ) (header : Header) (old bytes : List ℕ) → IsExtended disk header old →
        IsMarked old bytes → IsUnfinished disk (length bytes) (take HEADER_LENGTH bytes) (endless_of header) }
    ensures marked { (v : Version) (disk named long : ℕ) (header : Header) (old bytes : List ℕ) →
        IsExtended disk header old → IsMarked old bytes → HasNoHeader v named long (take HEADER_LENGTH bytes) }
    ensures unused { (disk named long : ℕ) (header : Header) (said : EndlessHeader) (old bytes : List ℕ) →
        IsExtended disk header old → IsMarked old bytes → ¬ IsRight named long (take HEADER_LENGTH bytes) said }
    // The old log is that of epoch 0, byte for byte, whatever is left.
    ensures log { (disk : ℕ) (header : Header) (old bytes : List ℕ) (spot : Spot) → IsExtended disk header old → IsLeft old bytes →
        IsSpot cluster_version header.slots spot →
        block_at header.slots 0 spot bytes ≡ block_in cluster_version (place_of cluster_version spot) old }
    ensures rows { (disk : ℕ) (header : Header) (old bytes : List ℕ) (slot : ℕ) → IsExtended disk header old → IsLeft old bytes →
        slot < header.slots → row_of cluster_version slot bytes ≡ row_of cluster_version slot old }
    ensures first { (disk : ℕ) (header : Header) (old bytes : List ℕ) → IsExtended disk header old → IsLeft old bytes →
        IsAtFirst header.slots bytes }
{}

/// An image is right by one kind and one header only. A new image of a kind is right, and of that kind.
pub fn kinds_are_apart()
    ensures one { (disk long : ℕ) (bytes : List ℕ) (a b : AnyHeader) → IsRightBy disk long bytes a →
        IsRightBy disk long bytes b → a ≡ b }
    ensures new { (kind : Kind) (disk : ℕ) (config : Shape) (cluster : ℕ) → disk < config.disks → config.disks ≤ DISKS →
        IsSlotsBy kind config.slots → cluster < 2 ^ 64 → (header : AnyHeader) × (kind_of header ≡ kind) ×
        IsRightBy disk (size_by kind config.slots) (header_by kind disk config cluster) header }
{}
