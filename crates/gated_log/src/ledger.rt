ghost use Rattle.std.specs.Prelude.{◌≡◌, ◌⊎◌, ◌↔◌, ◌+◌, ◌-◌, ◌*◌, ◌^◌, min, ◌<◌, ◌≤◌, ◌++◌, [], ◌∷◌, List, ℕ, Bool, true, false, length, take, Option, None, Some, IsTrue, IfOk, OnOk, OnErr, IfErr, IsErrOf, slice_get};
ghost use Rattle.pad_edge.specs.Count.{Rose, HasCause};
ghost use Rattle.disk_volume.specs.Disk.{Disk, IsImage, AtRest, file_at, reads};
ghost use Rattle.disk_volume.specs.Moments.{EachNow, EachSince, Grew, LeftBefore, OnlySyncs, JustSyncs};
ghost use Rattle.disk_volume.specs.Lemmas.Others.{others_leave as others_leave_since, syncs_rest};
ghost use Rattle.disk_volume.specs.Lemmas.Since.{elsewhere};
ghost use Rattle.log_format.specs.declared.damage.Damage.{Damage};
ghost use Rattle.log_format.specs.declared.form.Form.{Form};
ghost use Rattle.log_format.specs.declared.layout.TheConstants.{ENTRY_HEAD, EMPTY_LOG};
ghost use Rattle.log_format.specs.Form.{most_entries_of, most_bytes_of};
ghost use Rattle.log_format.specs.Frames.{size_of};
ghost use Rattle.gated_log.specs.Ledger.{Within, LeavesOut, has_room};
ghost use Rattle.gated_log.specs.Refused.{MayRefuse};

use crate::refused::{AppendRefused, LoadRefused, PayloadRefused};
use disk_volume::Volume;
use log_format::{Form, Frame, Frames, Payload};
use std::alloc::{AllocError, Global};

/// A list of payloads that is kept in files of a volume, under a name.
pub trait Ledger: Drop + Sized {
    /// The files of this name open as these payloads, read in this form.
    ghost opens_as: { Form → (name : List ℕ) → (files : List ℕ → List ℕ) → (payloads : List (List ℕ)) → Type 0 };

    /// The payloads that would follow, were their last gate open.
    ghost doubt: { Form → (name : List ℕ) → (files : List ℕ → List ℕ) → List (List ℕ) };

    /// Their first damage.
    ghost damage: { Form → (name : List ℕ) → (files : List ℕ → List ℕ) → Option Damage };

    /// A file is one of this name's.
    ghost owns: { (name : List ℕ) → (file : List ℕ) → Type 0 };

    /// On this disk nothing is pending on the files that a load of this name in this form reads.
    ghost rests: { Form → (name : List ℕ) → Disk → Type 0 };

    /// The name under which it was loaded.
    ghost name: { Self → List ℕ };

    /// The form in which it was loaded.
    ghost form_of: { Self → Form };

    /// Whether it may be used. It may not after a priming or an append that was refused `Store`.
    ghost live: { Self → Bool };

    /// Whether it was primed since it was loaded, so that nothing is doubtful in its files.
    ghost primed: { Self → Bool };

    /// Whether it may append entries of this many bytes together: of five and the payload each.
    ghost ready: { Self → (coming : ℕ) → Bool };

    /// How many appends have their memory.
    ghost reserved: { Self → ℕ };

    /// How many payloads it has.
    ghost count: { Self → ℕ };

    /// Whether so many entries more, with so many bytes of payload together, fit.
    ghost room: { Self → (entries bytes : ℕ) → Bool };

    /// On this disk its files read as its last call left them, and hold these payloads, and nothing is pending on them.
    ghost holds: { Self → (payloads : List (List ℕ)) → Disk → Type 0 };

    /// Syncs the files of a name, and reads them. It writes nothing, and leaves nothing that a crash could not leave
    /// before. `Damaged` tells their first damage, and `Store` comes only where the volume's count of faults rose.
    fn load<V: Volume>(
        alloc: Global,
        volume: &mut V,
        file: &str,
        form: Form,
    ) -> Result<Self, LoadRefused>
        ensures made { IfOk result (λ log. (name log ≡ file.now) × (form_of log ≡ form) × IsTrue (live log)) }
        ensures list { V.tells → IfOk result (λ log. (payloads : List (List ℕ))
            × opens_as form file.now (reads (V.disk volume.old)) payloads × holds log payloads (V.disk volume.new)) }
        ensures undamaged { V.tells → IfOk result (λ log. damage form file.now (reads (V.disk volume.old)) ≡ None) }
        ensures damaged { V.tells → IfErr result (MayRefuse (damage form file.now (reads (V.disk volume.old)))) }
        ensures any_moment { V.tells → EachSince (V.disk volume.old) (V.disk volume.new) (IsImage (V.disk volume.old)) }
        ensures reads { V.tells → (other : List ℕ) → reads (V.disk volume.new) other ≡ reads (V.disk volume.old) other }
        ensures files { V.tells → Grew (owns file.now) (V.disk volume.old) (V.disk volume.new) }
        ensures syncs { V.tells → OnlySyncs (owns file.now) (V.disk volume.old) (V.disk volume.new) }
        ensures follows { V.follows volume.old volume.new }
        ensures store { IsErrOf result LoadRefused.Store → Rose (V.faults volume.old) (V.faults volume.new) }
        ensures kept { IsErrOf result LoadRefused.Store ⊎ (V.faults volume.new ≡ V.faults volume.old) }
        ensures later { V.faults volume.old ≤ V.faults volume.new };

    /// Makes the files of a name those of a log of form Two without entries. It reads nothing, so it is never refused
    /// `Damaged`. `Store` comes only where the volume's count of faults rose.
    fn restart<V: Volume>(alloc: Global, volume: &mut V, file: &str) -> Result<Self, LoadRefused>
        requires { V.tells → rests Form.Two file.now (V.disk volume.old) }
        ensures made { IfOk result (λ log. (name log ≡ file.now) × (form_of log ≡ Form.Two) × IsTrue (live log) × (count log ≡ 0)) }

        // A crash at any moment leaves the list, or the list with some payloads left out.
        ensures any_moment { V.tells → (payloads : List (List ℕ)) → opens_as Form.Two file.now (reads (V.disk volume.old)) payloads
            → EachSince (V.disk volume.old) (V.disk volume.new) (λ image.
            (left : List (List ℕ)) × LeavesOut left payloads × opens_as Form.Two file.now image left) }
        ensures empty { V.tells → IfOk result (λ log. holds log [] (V.disk volume.new)) }
        ensures no_doubt { V.tells → OnOk result (doubt Form.Two file.now (reads (V.disk volume.new)) ≡ []) }
        ensures on_disk { V.tells → OnOk result (EachNow (V.disk volume.new) (λ image. opens_as Form.Two file.now image [])) }

        ensures refused { IfErr result (MayRefuse None) }
        ensures files { V.tells → Grew (owns file.now) (V.disk volume.old) (V.disk volume.new) }
        ensures follows { V.follows volume.old volume.new }
        ensures store { IsErrOf result LoadRefused.Store → Rose (V.faults volume.old) (V.faults volume.new) }
        ensures kept { IsErrOf result LoadRefused.Store ⊎ (V.faults volume.new ≡ V.faults volume.old) }
        ensures later { V.faults volume.old ≤ V.faults volume.new };

    /// Takes the memory of one append. All else of the log stays as it was, and all of it where memory runs out.
    fn reserve_one(&mut self, alloc: Global) -> Result<(), AllocError>
        requires { IsTrue (live self.old) }
        ensures reserved { OnOk result (1 ≤ reserved self.new) }
        ensures still_reserved { reserved self.old ≤ reserved self.new }
        ensures refused { OnErr result (reserved self.new ≡ reserved self.old) }
        ensures holds { (payloads : List (List ℕ)) (disk : Disk) → holds self.old payloads disk → holds self.new payloads disk }
        ensures name { name self.new ≡ name self.old }
        ensures form { form_of self.new ≡ form_of self.old }
        ensures live { live self.new ≡ live self.old }
        ensures primed { primed self.new ≡ primed self.old }
        ensures ready { ready self.new ≡ ready self.old }
        ensures count { count self.new ≡ count self.old }
        ensures room { room self.new ≡ room self.old };

    /// Takes the memory to append this many payloads. All else of the log stays as it was, and all of it where memory runs
    /// out.
    fn reserve(&mut self, alloc: Global, entries: usize) -> Result<(), AllocError>
        requires { IsTrue (live self.old) }
        ensures reserved { OnOk result (entries ≤ reserved self.new) }
        ensures still_reserved { reserved self.old ≤ reserved self.new }
        ensures refused { OnErr result (reserved self.new ≡ reserved self.old) }
        ensures holds { (payloads : List (List ℕ)) (disk : Disk) → holds self.old payloads disk → holds self.new payloads disk }
        ensures name { name self.new ≡ name self.old }
        ensures form { form_of self.new ≡ form_of self.old }
        ensures live { live self.new ≡ live self.old }
        ensures primed { primed self.new ≡ primed self.old }
        ensures ready { ready self.new ≡ ready self.old }
        ensures count { count self.new ≡ count self.old }
        ensures room { room self.new ≡ room self.old };

    /// Makes the log ready to append entries of `coming` bytes together, of five and the payload each. It closes the last
    /// gate where it is not closed, so that what an append writes behind it counts only once all of it is on the disk, and
    /// makes files that are too short for a gate those of a log without entries. It takes no memory. `Store` comes only
    /// where the volume's count of faults rose, and the log is not live then.
    fn prime<V: Volume>(&mut self, volume: &mut V, coming: u64) -> Result<(), AppendRefused>
        requires live { IsTrue (live self.old) }
        requires holds { V.tells → (payloads : List (List ℕ)) × holds self.old payloads (V.disk volume.old) }

        // A crash at any moment leaves the list, or the list and what was doubtful.
        ensures any_moment { V.tells → (payloads : List (List ℕ)) → holds self.old payloads (V.disk volume.old)
            → EachSince (V.disk volume.old) (V.disk volume.new) (λ image.
            Within (opens_as (form_of self.old) (name self.old) image) payloads (doubt (form_of self.old) (name self.old) (reads (V.disk volume.old)))) }
        ensures ok { V.tells → (payloads : List (List ℕ)) → holds self.old payloads (V.disk volume.old)
            → OnOk result (holds self.new payloads (V.disk volume.new)) }
        ensures on_disk { V.tells → (payloads : List (List ℕ)) → holds self.old payloads (V.disk volume.old)
            → OnOk result (EachNow (V.disk volume.new) (λ image. opens_as (form_of self.old) (name self.old) image payloads)) }

        ensures live { OnOk result (IsTrue (live self.new)) }
        ensures primed { OnOk result (IsTrue (primed self.new)) }
        ensures ready { OnOk result (IsTrue (ready self.new coming)) }
        ensures name { name self.new ≡ name self.old }
        ensures form { form_of self.new ≡ form_of self.old }
        ensures count { count self.new ≡ count self.old }
        ensures room { room self.new ≡ room self.old }
        ensures reserved { reserved self.new ≡ reserved self.old }

        ensures refused { IfErr result (λ refused. refused ≡ AppendRefused.Store) }
        ensures dead { OnErr result (live self.new ≡ false) }
        ensures follows { V.follows volume.old volume.new }
        ensures cause { HasCause (V.faults volume.old) (V.faults volume.new) result }
        ensures files { V.tells → Grew (owns (name self.old)) (V.disk volume.old) (V.disk volume.new) };

    /// Adds a payload in four calls, and answers its index. It is on the disk at `Ok`. It takes no memory. `Full` comes where
    /// the payload does not fit, and writes nothing. `Store` comes only where the volume's count of faults rose, and the
    /// log is not live then.
    fn append<V: Volume>(&mut self, volume: &mut V, frame: &Frame) -> Result<u64, AppendRefused>
        requires live { IsTrue (live self.old) }
        requires primed { IsTrue (primed self.old) }
        requires ready { IsTrue (ready self.old (ENTRY_HEAD + length frame.now)) }
        requires reserved { 1 ≤ reserved self.old }
        requires holds { V.tells → (payloads : List (List ℕ)) × holds self.old payloads (V.disk volume.old) }

        // A crash at any moment leaves the list, or the list and the payload.
        ensures any_moment { V.tells → (payloads : List (List ℕ)) → holds self.old payloads (V.disk volume.old)
            → EachSince (V.disk volume.old) (V.disk volume.new) (λ image. Within (opens_as (form_of self.old) (name self.old) image) payloads (frame.now ∷ [])) }
        ensures ok { V.tells → (payloads : List (List ℕ)) → holds self.old payloads (V.disk volume.old)
            → OnOk result (holds self.new (payloads ++ frame.now ∷ []) (V.disk volume.new)) }
        ensures on_disk { V.tells → (payloads : List (List ℕ)) → holds self.old payloads (V.disk volume.old)
            → OnOk result (EachNow (V.disk volume.new) (λ image. opens_as (form_of self.old) (name self.old) image (payloads ++ frame.now ∷ []))) }

        ensures index { IfOk result (λ index. index ≡ count self.old) }
        ensures counted { OnOk result (count self.new ≡ count self.old + 1) }
        ensures live { OnOk result (IsTrue (live self.new)) }
        ensures primed { OnOk result (IsTrue (primed self.new)) }
        ensures name { name self.new ≡ name self.old }
        ensures form { form_of self.new ≡ form_of self.old }

        ensures full { IsErrOf result AppendRefused.Full ↔ (room self.old 1 (length frame.now) ≡ false) }
        ensures unchanged { IsErrOf result AppendRefused.Full → (self.new ≡ self.old) × (volume.new ≡ volume.old) }
        ensures dead { IsErrOf result AppendRefused.Store → live self.new ≡ false }
        ensures follows { V.follows volume.old volume.new }
        ensures store { IsErrOf result AppendRefused.Store → Rose (V.faults volume.old) (V.faults volume.new) }
        ensures kept { IsErrOf result AppendRefused.Store ⊎ (V.faults volume.new ≡ V.faults volume.old) }
        ensures later { V.faults volume.old ≤ V.faults volume.new }
        ensures clock { V.clock volume.new ≤ V.clock volume.old + 4 }
        ensures calls { OnOk result (V.clock volume.new ≡ min (V.clock volume.old + 4) (2 ^ 64 - 1)) }
        ensures files { V.tells → Grew (owns (name self.old)) (V.disk volume.old) (V.disk volume.new) };

    /// Adds the payloads of a group under one gate, in four calls, and answers the index of the first. They are on the disk
    /// at `Ok`. It takes no memory. `Full` comes where they do not fit, and writes nothing. `Store` comes only where the
    /// volume's count of faults rose, and the log is not live then.
    fn append_group<V: Volume>(
        &mut self,
        volume: &mut V,
        group: &Frames,
    ) -> Result<u64, AppendRefused>
        requires live { IsTrue (live self.old) }
        requires primed { IsTrue (primed self.old) }
        requires ready { IsTrue (ready self.old (ENTRY_HEAD * length group.now + size_of group.now)) }
        requires reserved { length group.now ≤ reserved self.old }
        requires holds { V.tells → (payloads : List (List ℕ)) × holds self.old payloads (V.disk volume.old) }

        // A crash at any moment leaves the list, or the list and the whole group.
        ensures any_moment { V.tells → (payloads : List (List ℕ)) → holds self.old payloads (V.disk volume.old)
            → EachSince (V.disk volume.old) (V.disk volume.new) (λ image. Within (opens_as (form_of self.old) (name self.old) image) payloads group.now) }
        ensures ok { V.tells → (payloads : List (List ℕ)) → holds self.old payloads (V.disk volume.old)
            → OnOk result (holds self.new (payloads ++ group.now) (V.disk volume.new)) }
        ensures on_disk { V.tells → (payloads : List (List ℕ)) → holds self.old payloads (V.disk volume.old)
            → OnOk result (EachNow (V.disk volume.new) (λ image. opens_as (form_of self.old) (name self.old) image (payloads ++ group.now))) }

        ensures index { IfOk result (λ index. index ≡ count self.old) }
        ensures counted { OnOk result (count self.new ≡ count self.old + length group.now) }
        ensures live { OnOk result (IsTrue (live self.new)) }
        ensures primed { OnOk result (IsTrue (primed self.new)) }
        ensures name { name self.new ≡ name self.old }
        ensures form { form_of self.new ≡ form_of self.old }

        ensures full { IsErrOf result AppendRefused.Full ↔ (room self.old (length group.now) (size_of group.now) ≡ false) }
        ensures unchanged { IsErrOf result AppendRefused.Full → (self.new ≡ self.old) × (volume.new ≡ volume.old) }
        ensures dead { IsErrOf result AppendRefused.Store → live self.new ≡ false }
        ensures follows { V.follows volume.old volume.new }
        ensures store { IsErrOf result AppendRefused.Store → Rose (V.faults volume.old) (V.faults volume.new) }
        ensures kept { IsErrOf result AppendRefused.Store ⊎ (V.faults volume.new ≡ V.faults volume.old) }
        ensures later { V.faults volume.old ≤ V.faults volume.new }
        ensures clock { V.clock volume.new ≤ V.clock volume.old + 4 }
        ensures calls { OnOk result (V.clock volume.new ≡ min (V.clock volume.old + 4) (2 ^ 64 - 1)) }
        ensures files { V.tells → Grew (owns (name self.old)) (V.disk volume.old) (V.disk volume.new) };

    /// Reads the payload of an index, in at most two calls. It writes nothing. `Store` comes only where the volume's count of faults rose.
    /// Where a volume that does not tell gives fewer bytes than it was asked for, the payload is those.
    fn read<V: Volume>(
        &self,
        alloc: Global,
        volume: &mut V,
        index: u64,
    ) -> Result<Payload, PayloadRefused>
        requires live { IsTrue (live self.now) }
        requires index { index < count self.now }
        requires holds { V.tells → (payloads : List (List ℕ)) × holds self.now payloads (V.disk volume.old) }
        ensures payload { V.tells → (payloads : List (List ℕ)) → holds self.now payloads (V.disk volume.old)
            → IfOk result (λ payload. slice_get payloads index ≡ Some payload) }
        ensures disk { V.tells → V.disk volume.new ≡ V.disk volume.old }
        ensures follows { V.follows volume.old volume.new }
        ensures store { IsErrOf result PayloadRefused.Store → Rose (V.faults volume.old) (V.faults volume.new) }
        ensures kept { IsErrOf result PayloadRefused.Store ⊎ (V.faults volume.new ≡ V.faults volume.old) }
        ensures later { V.faults volume.old ≤ V.faults volume.new }
        ensures clock { V.clock volume.new ≤ V.clock volume.old + 2 };

    /// Whether so many entries more, with so many bytes of payload together, fit: else an append of them is refused
    /// `Full`.
    fn room(&self, entries: u64, bytes: u64) -> bool
        requires { IsTrue (live self.now) }
        ensures { result ≡ room self.now entries bytes };

    /// Whether it may be used. It may not after a priming or an append that was refused `Store`.
    fn is_live(&self) -> bool
        ensures { result ≡ live self.now };

    /// How many payloads it has.
    fn count(&self) -> u64
        ensures { result ≡ count self.now };

    /// What a read of its files gives opens as its payloads.
    ghost holds_reads: { (log : Self) (payloads : List (List ℕ)) (disk : Disk) → holds log payloads disk
        → opens_as (form_of log) (name log) (reads disk) payloads };

    /// Nothing is pending on the files that a load of it reads.
    ghost holds_rests: { (log : Self) (payloads : List (List ℕ)) (disk : Disk) → holds log payloads disk
        → rests (form_of log) (name log) disk };

    /// Nothing is, where nothing is pending on any of its files.
    ghost rests_all: { (form : Form) (name : List ℕ) (disk : Disk)
        → ((file : List ℕ) → owns name file → AtRest disk file) → rests form name disk };

    /// What is done to other files changes nothing of that.
    ghost rests_on: { (form : Form) (name : List ℕ) (old new : Disk) → rests form name old
        → ((file : List ℕ) → owns name file → file_at new file ≡ file_at old file) → rests form name new };

    /// Nor do syncs, of these files or of others.
    ghost rests_synced: { (form : Form) (name : List ℕ) (old new : Disk) → rests form name old → JustSyncs old new
        → rests form name new };

    /// A crash leaves files that open as these read.
    ghost rests_now: { (form : Form) (name : List ℕ) (disk : Disk) (payloads : List (List ℕ)) → rests form name disk
        → opens_as form name (reads disk) payloads → EachNow disk (λ image. opens_as form name image payloads) };

    /// With the same doubt.
    ghost rests_doubt: { (form : Form) (name : List ℕ) (disk : Disk) → rests form name disk
        → EachNow disk (λ image. doubt form name image ≡ doubt form name (reads disk)) };

    /// And the same damage.
    ghost rests_damage: { (form : Form) (name : List ℕ) (disk : Disk) → rests form name disk
        → EachNow disk (λ image. damage form name image ≡ damage form name (reads disk)) };

    /// A crash leaves the same.
    ghost holds_now: { (log : Self) (payloads : List (List ℕ)) (disk : Disk) → holds log payloads disk
        → EachNow disk (λ image. opens_as (form_of log) (name log) image payloads) };

    /// What is done to other files changes nothing.
    ghost holds_on: { (log : Self) (payloads : List (List ℕ)) (old new : Disk) → holds log payloads old
        → ((file : List ℕ) → owns (name log) file → file_at new file ≡ file_at old file) → holds log payloads new };

    /// It counts its payloads.
    ghost holds_count: { (log : Self) (payloads : List (List ℕ)) (disk : Disk) → holds log payloads disk
        → count log ≡ length payloads };

    /// And never has more than its form allows, whatever is known of its files.
    ghost count_few: { (log : Self) → count log ≤ most_entries_of (form_of log) };

    /// Its room follows from its payloads.
    ghost holds_room: { (log : Self) (payloads : List (List ℕ)) (disk : Disk) (entries bytes : ℕ) → holds log payloads disk
        → room log entries bytes ≡ has_room (form_of log) payloads entries bytes };

    /// Nothing is doubtful once it is primed.
    ghost no_doubt: { (log : Self) (payloads : List (List ℕ)) (disk : Disk) → IsTrue (primed log) → holds log payloads disk
        → doubt (form_of log) (name log) (reads disk) ≡ [] };

    /// Files that are not damaged open as a list.
    ghost opens_undamaged: { (form : Form) (name : List ℕ) (files : List ℕ → List ℕ) → damage form name files ≡ None
        → (payloads : List (List ℕ)) × opens_as form name files payloads };

    /// With no more entries than the form allows.
    ghost undamaged_few: { (form : Form) (name : List ℕ) (files : List ℕ → List ℕ) (payloads : List (List ℕ)) → damage form name files ≡ None
        → opens_as form name files payloads → length payloads ≤ most_entries_of form };

    /// And no more bytes, as many as one file of that list has.
    ghost undamaged_small: { (form : Form) (name : List ℕ) (files : List ℕ → List ℕ) (payloads : List (List ℕ)) → damage form name files ≡ None
        → opens_as form name files payloads → EMPTY_LOG + ENTRY_HEAD * length payloads + size_of payloads ≤ most_bytes_of form };

    /// Files open as one list at most.
    ghost opens_once: { (form : Form) (name : List ℕ) (files : List ℕ → List ℕ) (one other : List (List ℕ)) → opens_as form name files one
        → opens_as form name files other → one ≡ other };

    /// What the files of a name open as follows from these files alone.
    ghost opened_by: { (form : Form) (name : List ℕ) (one other : List ℕ → List ℕ) (payloads : List (List ℕ))
        → ((file : List ℕ) → owns name file → one file ≡ other file) → opens_as form name one payloads → opens_as form name other payloads };

    /// What is doubtful of them does too.
    ghost doubted_by: { (form : Form) (name : List ℕ) (one other : List ℕ → List ℕ)
        → ((file : List ℕ) → owns name file → one file ≡ other file) → doubt form name one ≡ doubt form name other };

    /// So does their damage.
    ghost damaged_by: { (form : Form) (name : List ℕ) (one other : List ℕ → List ℕ)
        → ((file : List ℕ) → owns name file → one file ≡ other file) → damage form name one ≡ damage form name other };

    /// Acts on the files of a name leave every other file as it was.
    ghost others_stay: { (name file : List ℕ) (before now : Disk) → Grew (owns name) before now → (owns name file → ⊥)
        → file_at now file ≡ file_at before file } = { λ name file before now. elsewhere now file };

    /// A crash since they began leaves of all other files together what one crash before may have left.
    ghost others_leave: { (name : List ℕ) (before now : Disk) → IsImage before (reads before) → Grew (owns name) before now
        → EachSince before now (LeftBefore (owns name) before) } = { λ name before now. others_leave_since now };

    /// Syncs of them leave a file on which nothing is pending as it was.
    ghost syncs_leave: { (name file : List ℕ) (before now : Disk) → OnlySyncs (owns name) before now → AtRest before file
        → file_at now file ≡ file_at before file } = { λ name file before now. syncs_rest now file };

    /// A file of a name begins with that name. So two names of which neither begins with the other share no file.
    ghost owned_named: { (name file : List ℕ) → owns name file → take (length name) file ≡ name };
}
