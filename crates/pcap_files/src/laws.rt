//! Laws over the definition of a capture, each the contract of an empty function.

ghost use Rattle.std.specs.Prelude.{◌≡◌, ℕ, ◌+◌, ◌++◌, Bool, List, length, drop, map, Some, None, Ok, Err};
ghost use Rattle.std.specs.List.{AllByRecursion};
ghost use Rattle.pcap_files.specs.Capture.{capture, head_of, frames};
ghost use Rattle.pcap_files.specs.Tiling.{AreConsecutive, behind, StandsIn, StopsAt};
ghost use Rattle.pcap_files.specs.Stream.{Handed, IsRecord, first_handed, told, told_from};
ghost use Rattle.pcap_files.specs.declared.kinds.Kind.{Kind as Written};
ghost use Rattle.pcap_files.specs.declared.kinds.Stamp.{Stamp as Stamped};
ghost use Rattle.pcap_files.specs.declared.fault.PcapError.{PcapError as Refusal};

/// The records of a capture stand in the file one behind another, the first behind the file header. They end at the
/// file's end where there is no fault, and else at an offset at which no whole record begins, for the reason that is
/// told. There is no kind, and no record, exactly where the file header is refused.
pub fn records_are_consecutive()
    ensures places { (bytes : List ℕ) → AreConsecutive 24 (capture bytes).list }
    ensures each { (bytes : List ℕ) (kind : Written) → (capture bytes).kind ≡ Some kind → AllByRecursion (StandsIn kind.big bytes) (capture bytes).list }
    ensures end { (bytes : List ℕ) (kind : Written) → (capture bytes).kind ≡ Some kind → (capture bytes).end ≡ None → behind 24 (capture bytes).list ≡ length bytes }
    ensures fault { (bytes : List ℕ) (kind : Written) (fault : Refusal) → (capture bytes).kind ≡ Some kind → (capture bytes).end ≡ Some fault → StopsAt kind.big bytes fault (behind 24 (capture bytes).list) }
    ensures refused { (bytes : List ℕ) → (capture bytes).kind ≡ None → (fault : Refusal) × (((capture bytes).end ≡ Some fault) × (head_of bytes ≡ Err fault)) }
{}

/// What a file tells a reader is its capture: the frames of its records, and how it ends. Behind an accepted file header
/// a reader gives all of it; and of bytes that begin with a whole record it gives that record, and then what it gives of
/// the bytes behind it.
pub fn a_reader_gives_the_capture()
    ensures frames { (bytes : List ℕ) → map (λ (handed : Handed). handed.frame) (told bytes).list ≡ frames bytes }
    ensures end { (bytes : List ℕ) → (told bytes).end ≡ (capture bytes).end }
    ensures starts { (bytes : List ℕ) (kind : Written) → head_of bytes ≡ Ok kind
        → told bytes ≡ told_from kind.big 24 (drop 24 bytes) }
    ensures peels { (big : Bool) (at : ℕ) (bytes front rest : List ℕ) (stamp : Stamped) (frame : List ℕ)
        → bytes ≡ front ++ rest → IsRecord big at front stamp frame
        → told_from big at bytes
        ≡ first_handed (record { stamp = stamp; at = at; frame = frame }) (told_from big (at + (16 + length frame)) rest) }
{}
