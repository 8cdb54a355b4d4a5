ghost use Rattle.std.specs.Prelude.{◌≡◌, ℕ, List, length, take};
ghost use Rattle.disk.specs.Disk.{DiskState, Step};
ghost use Rattle.disk.specs.declared.boot.Boot.{Boot};
ghost use Rattle.disk.specs.Crash.{MayLeave};
ghost use Rattle.torn_block.specs.declared.layout.TheConstants.{HEADER_LENGTH};
ghost use Rattle.endless_image.specs.Headers.{IsRight};
ghost use Rattle.endless_image.specs.InPlace.{AllDone, IsBegun, IsExtended, IsReady, endless_of};
ghost use Rattle.endless_image.specs.Sets.{IsSameSet};
ghost use Rattle.endless_image.specs.Sizes.{size_of};
ghost use Rattle.endless_image.specs.declared.header.EndlessHeader.{EndlessHeader};
ghost use Rattle.paxos_block.specs.declared.header.Header.{Header};
ghost use Rattle.in_place.specs.InPlaceImages.{IsFound, IsMadeReady, calls_of};
ghost use Rattle.in_place.specs.declared.in_place_disk.Due.{Due};
ghost use Rattle.in_place.specs.declared.in_place_disk.Due.TheVariants.{Make, Finish};

/// Where `make_all_endless` changes a header, the image is one that the law `images_become_endless` begins with: an old image, with zeros behind it up to the
/// end of the new one, all of it synced. Or it is one that is marked.
pub fn images_are_made_ready()
    ensures ready { (set : EndlessHeader) (disk : ℕ) (boot : Boot) (old looked ready : DiskState) → length old.bytes ≡ size_of set.slots →
        IsFound Step set disk (Make boot) old looked → IsMadeReady Step set.slots (Make boot) looked ready →
        (header : Header) × IsSameSet (endless_of header) set × IsExtended disk header ready.bytes × IsReady ready.bytes ready }
    ensures begun { (set : EndlessHeader) (disk : ℕ) (boot : Boot) (old looked : DiskState) → length old.bytes ≡ size_of set.slots →
        IsFound Step set disk (Finish boot) old looked → (image : List ℕ) × IsBegun image looked }
    // Once all is done that was due, each image is a right one of the set, of its own number, and stays so after a crash.
    ensures right { (set : EndlessHeader) (disk : ℕ) (due : Due) (old looked ready new : DiskState) → length old.bytes ≡ size_of set.slots →
        IsFound Step set disk due old looked → IsMadeReady Step set.slots due looked ready → AllDone Step (calls_of due) ready new →
        (bytes : List ℕ) → MayLeave new bytes → (header : EndlessHeader) × IsSameSet header set × IsRight disk (size_of set.slots) (take HEADER_LENGTH bytes) header }
{}
