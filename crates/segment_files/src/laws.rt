ghost use Rattle.std.specs.Prelude.{◌≡◌, ◌≢◌, ◌<◌, ◌≤◌, ◌^◌, ◌++◌, [], ℕ, suc, List, length, take, None, Some};
ghost use Rattle.disk_volume.specs.Disk.{Disk, file_at, reads, AtRest};
ghost use Rattle.disk_volume.specs.Moments.{EachNow, JustSyncs};
ghost use Rattle.log_format.specs.declared.form.Form.{Form};
ghost use Rattle.log_format.specs.Damages.{damage_of};
ghost use Rattle.log_format.specs.File.{opens, doubt_of};
ghost use Rattle.log_format.specs.Form.{magic_of, most_entries_of, most_bytes_of};
ghost use Rattle.gated_log.specs.Ledger.{LeavesOut};
ghost use Rattle.segment_files.specs.Damages.{bytes_of, damage_joined};
ghost use Rattle.segment_files.specs.Doubt.{doubt_joined};
ghost use Rattle.segment_files.specs.Joined.{segment_opens, Filled, opens_joined};
ghost use Rattle.segment_files.specs.Names.{segment_name, IsSegmentOf};
ghost use Rattle.segment_files.specs.Rests.{rests_joined};

/// Two segments have two files, and each file begins with the name of the log.
pub fn segments_have_their_own_files()
    ensures differ { (name : List ℕ) (one other : ℕ) → one < 2 ^ 64 → other < 2 ^ 64 → segment_name name one ≡ segment_name name other → one ≡ other }
    ensures named { (name file : List ℕ) → IsSegmentOf name file → take (length name) file ≡ name }
{}

/// Files open as one list at most, and as that by the segments alone.
pub fn files_open_as_one_list()
    ensures once { (form : Form) (name : List ℕ) (files : List ℕ → List ℕ) (one other : List (List ℕ)) → opens_joined form name files one
        → opens_joined form name files other → one ≡ other }
    ensures by_segments { (form : Form) (name : List ℕ) (one other : List ℕ → List ℕ) (payloads : List (List ℕ))
        → ((file : List ℕ) → IsSegmentOf name file → one file ≡ other file) → opens_joined form name one payloads → opens_joined form name other payloads }
{}

/// Doubt and damage follow from the segments alone.
pub fn damage_follows_from_the_segments()
    ensures doubt { (form : Form) (name : List ℕ) (one other : List ℕ → List ℕ)
        → ((file : List ℕ) → IsSegmentOf name file → one file ≡ other file) → doubt_joined form name one ≡ doubt_joined form name other }
    ensures damage { (form : Form) (name : List ℕ) (one other : List ℕ → List ℕ)
        → ((file : List ℕ) → IsSegmentOf name file → one file ≡ other file) → damage_joined form name one ≡ damage_joined form name other }
{}

/// Files without damage open as a list that is within both limits, as of one file.
pub fn undamaged_segments_open()
    ensures opened { (form : Form) (name : List ℕ) (files : List ℕ → List ℕ) → damage_joined form name files ≡ None
        → (payloads : List (List ℕ)) × opens_joined form name files payloads }
    ensures few { (form : Form) (name : List ℕ) (files : List ℕ → List ℕ) (payloads : List (List ℕ)) → damage_joined form name files ≡ None
        → opens_joined form name files payloads → length payloads ≤ most_entries_of form }
    ensures small { (form : Form) (name : List ℕ) (files : List ℕ → List ℕ) (payloads : List (List ℕ)) → damage_joined form name files ≡ None
        → opens_joined form name files payloads → bytes_of payloads ≤ most_bytes_of form }
{}

/// If the files that a load reads are at rest, a crash leaves files that open as these read, with the same doubt and damage. They
/// are at rest if all segments are, and stay so while the segments stay and while there are only syncs.
pub fn a_load_reads_files_at_rest()
    ensures opened { (form : Form) (name : List ℕ) (disk : Disk) (payloads : List (List ℕ)) → rests_joined form name disk
        → opens_joined form name (reads disk) payloads → EachNow disk (λ image. opens_joined form name image payloads) }
    ensures doubt { (form : Form) (name : List ℕ) (disk : Disk) → rests_joined form name disk
        → EachNow disk (λ image. doubt_joined form name image ≡ doubt_joined form name (reads disk)) }
    ensures damage { (form : Form) (name : List ℕ) (disk : Disk) → rests_joined form name disk
        → EachNow disk (λ image. damage_joined form name image ≡ damage_joined form name (reads disk)) }
    ensures all { (form : Form) (name : List ℕ) (disk : Disk) → ((file : List ℕ) → IsSegmentOf name file → AtRest disk file) → rests_joined form name disk }
    ensures on { (form : Form) (name : List ℕ) (old new : Disk) → rests_joined form name old
        → ((file : List ℕ) → IsSegmentOf name file → file_at new file ≡ file_at old file) → rests_joined form name new }
    ensures synced { (form : Form) (name : List ℕ) (old new : Disk) → rests_joined form name old → JustSyncs old new → rests_joined form name new }
{}

/// A log in one file, behind which no next segment stands, is a segmented log of the same list, doubt and damage.
pub fn a_single_file_is_a_segmented_log()
    ensures opened { (form : Form) (name : List ℕ) (files : List ℕ → List ℕ) (payloads : List (List ℕ)) → files (segment_name name 1) ≡ []
        → opens (magic_of form) (files name) ≡ Some payloads → opens_joined form name files payloads }
    ensures doubt { (form : Form) (name : List ℕ) (files : List ℕ → List ℕ) → files (segment_name name 1) ≡ []
        → doubt_joined form name files ≡ doubt_of (files name) }
    ensures damage { (form : Form) (name : List ℕ) (files : List ℕ → List ℕ) → files (segment_name name 1) ≡ []
        → damage_joined form name files ≡ damage_of form (files name) }
{}

/// Behind segments that are not empty one that opens as a list, an empty one behind it, adds that list. So an append to the last
/// segment, or to the next one, leaves the list with all that was appended where it leaves the segment with it, and else the list.
pub fn the_last_segment_decides()
    ensures { (form : Form) (name : List ℕ) (files : List ℕ → List ℕ) (count : ℕ) (front last : List (List ℕ)) → Filled (segment_opens form name files) count front
        → segment_opens form name files count ≡ Some last → segment_opens form name files (suc count) ≡ Some [] → opens_joined form name files (front ++ last) }
{}

/// If some front of one segment is left, the other files as they were, the files open as the list with some payloads left out.
pub fn a_cut_segment_leaves_payloads_out()
    ensures { (form : Form) (name : List ℕ) (before after : List ℕ → List ℕ) (cut size : ℕ) (payloads : List (List ℕ))
        → after (segment_name name cut) ≡ take size (before (segment_name name cut))
        → ((other : ℕ) → other ≢ cut → after (segment_name name other) ≡ before (segment_name name other))
        → opens_joined form name before payloads → (left : List (List ℕ)) × LeavesOut left payloads × opens_joined form name after left }
{}
