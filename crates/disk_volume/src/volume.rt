ghost use Rattle.std.specs.Prelude.{◌≡◌, ℕ, ◌≤◌, List, length, take, drop, IfOk};
ghost use Rattle.pad_edge.specs.Count.{HasCause};
ghost use Rattle.disk_volume.specs.Calls.{Writes, Cuts, Syncs};
ghost use Rattle.disk_volume.specs.Clock.{Ticked};
ghost use Rattle.disk_volume.specs.Disk.{Disk, did, wrote, cut as cut_act, file_at, reads, AtRest, IsImage};
ghost use Rattle.disk_volume.specs.Lemmas.Images.{image_after_write, image_after_cut};
ghost use Rattle.disk_volume.specs.Moments.{moment, LeftSince, LeftBefore, Grew, OnlySyncs, EachSince};
ghost use Rattle.disk_volume.specs.Lemmas.Others.{others_leave as others_leave_since, syncs_rest};
ghost use Rattle.disk_volume.specs.Lemmas.Since.{since_now, now_alone, elsewhere};

use pad_edge::Failed;

/// Files by name in one folder.
pub trait Volume {
    /// Whether contracts know what its files hold. If they do not, they know its counts alone.
    ghost tells: { Type 0 };

    /// What was done to its files so far.
    ghost disk: { Self → Disk };

    /// How many calls it had. At 2^64 - 1 the count stays.
    ghost clock: { Self → ℕ };

    /// How many calls failed. At 2^64 - 1 the count stays.
    ghost faults: { Self → ℕ };

    /// What calls, however many, leave of a volume: of the first by the time of the second. A volume says here what was
    /// decided beforehand about its calls and what became of that; one that has no such plan says nothing.
    ghost follows: { Self → Self → Type 0 };

    /// Chooses the folder of the files, and makes it if it is missing. The files stay as they are. `Failed` comes only if
    /// the count of faults rose in this call, here and in all other calls; `Ok` leaves that count as it was.
    fn root(&mut self, folder: &str) -> Result<(), Failed>
        ensures disk { tells → disk self.new ≡ disk self.old }
        ensures clock { Ticked (clock self.old) (clock self.new) }
        ensures follows { follows self.old self.new }
        ensures cause { HasCause (faults self.old) (faults self.new) result };

    /// The length of a file in bytes, 0 if it is missing.
    fn length(&mut self, file: &str) -> Result<u64, Failed>
        ensures length { tells → IfOk result (λ size. size ≡ length (reads (disk self.old) file.now)) }
        ensures disk { tells → disk self.new ≡ disk self.old }
        ensures clock { Ticked (clock self.old) (clock self.new) }
        ensures follows { follows self.old self.new }
        ensures cause { HasCause (faults self.old) (faults self.new) result };

    /// Reads from the offset `at` on, in bytes, as many as the file has there and the buffer takes, and answers how many.
    fn read_at(&mut self, file: &str, at: u64, buf: &mut [u8]) -> Result<usize, Failed>
        ensures within { IfOk result (λ count. count ≤ length buf.new) }
        ensures bytes { tells → IfOk result (λ count.
            take count buf.new ≡ take (length buf.old) (drop at (reads (disk self.old) file.now))) }
        ensures disk { tells → disk self.new ≡ disk self.old }
        ensures clock { Ticked (clock self.old) (clock self.new) }
        ensures follows { follows self.old self.new }
        ensures cause { HasCause (faults self.old) (faults self.new) result };

    /// Writes these bytes over those from the offset `at` on, and past the end. It makes a missing file. After `Failed` any
    /// part of it may be done.
    fn write_at(&mut self, file: &str, at: u64, piece: &[u8]) -> Result<(), Failed>
        requires { tells → at ≤ length (reads (disk self.old) file.now) }
        ensures disk { tells → Writes result file.now at piece.now (disk self.old) (disk self.new) }
        ensures clock { Ticked (clock self.old) (clock self.new) }
        ensures follows { follows self.old self.new }
        ensures cause { HasCause (faults self.old) (faults self.new) result };

    /// Cuts a file to a length in bytes. After `Failed` any part of it may be done.
    fn cut(&mut self, file: &str, to: u64) -> Result<(), Failed>
        requires { tells → to ≤ length (reads (disk self.old) file.now) }
        ensures disk { tells → Cuts result file.now to (disk self.old) (disk self.new) }
        ensures clock { Ticked (clock self.old) (clock self.new) }
        ensures follows { follows self.old self.new }
        ensures cause { HasCause (faults self.old) (faults self.new) result };

    /// Puts all that was done to a file on the disk. After `Ok` a crash leaves of this file what a read gives; `Failed`
    /// changes nothing.
    fn sync(&mut self, file: &str) -> Result<(), Failed>
        ensures disk { tells → Syncs result file.now (disk self.old) (disk self.new) }
        ensures clock { Ticked (clock self.old) (clock self.new) }
        ensures follows { follows self.old self.new }
        ensures cause { HasCause (faults self.old) (faults self.new) result };

    /// No call leaves a volume as it is.
    ghost follows_itself: { (v : Self) → follows v v };

    /// First some calls and then some more are calls too.
    ghost follows_on: { (before mid now : Self) → follows before mid → follows mid now → follows before now };

    /// A disk as it reads is one of its images.
    ghost as_it_reads: { (v : Self) → tells → IsImage (disk v) (reads (disk v)) };

    /// An image now is one since each moment.
    ghost now_is_since: { (v : Self) (time : ℕ) (image : List ℕ → List ℕ) →
        IsImage (disk v) image → LeftSince time (disk v) image } = { λ v time image. since_now time (disk v) image };

    /// Since this moment there is no other.
    ghost since_is_now: { (v : Self) (image : List ℕ → List ℕ) →
        LeftSince (moment (disk v)) (disk v) image → IsImage (disk v) image } = { λ v image. now_alone (disk v) image };

    /// A write takes no image away.
    ghost writes_add: { (v : Self) (file : List ℕ) (at size : ℕ) (now : List ℕ) (image : List ℕ → List ℕ) →
        IsImage (disk v) image → IsImage (did (wrote at size now) file (disk v)) image } = { λ v. image_after_write (disk v) };

    /// A cut takes none away.
    ghost cuts_add: { (v : Self) (file : List ℕ) (to : ℕ) (now : List ℕ) (image : List ℕ → List ℕ) →
        IsImage (disk v) image → IsImage (did (cut_act to now) file (disk v)) image } = { λ v. image_after_cut (disk v) };

    /// Acts on one file leave every other file as it was.
    ghost others_stay: { (before now : Self) (file other : List ℕ) →
        Grew (λ name. name ≡ file) (disk before) (disk now) → (other ≡ file → ⊥) →
        file_at (disk now) other ≡ file_at (disk before) other } = { λ before now file other. elsewhere (disk now) other };

    /// A crash since they began leaves of all other files together what one crash before may have left.
    ghost others_leave: { (before now : Self) (file : List ℕ) → tells →
        Grew (λ name. name ≡ file) (disk before) (disk now) →
        EachSince (disk before) (disk now) (LeftBefore (λ name. name ≡ file) (disk before)) } = { λ before now file told. others_leave_since (disk now) (as_it_reads before told) };

    /// Syncs of one file leave a file on which nothing is pending as it was.
    ghost syncs_leave: { (before now : Self) (file name : List ℕ) →
        OnlySyncs (λ name. name ≡ file) (disk before) (disk now) → AtRest (disk before) name →
        file_at (disk now) name ≡ file_at (disk before) name } = { λ before now file name. syncs_rest (disk now) name };
}
