ghost use Rattle.std.specs.Prelude.{◌≡◌, [], ◌⊎◌, ◌+◌, ◌-◌, ◌*◌, ◌^◌, min, ◌≤◌, ◌++◌, if◌then◌else◌, is_ok, true, List, ℕ, Bool, IsTrue, false, None, OnOk, OnErr, IsOk, IfOk, IfErr, IsErrOf, Some, length, string_bytes, vec_len, refl};
ghost use Rattle.std.proofs.Common.{◌∙◌, sym, ap};
ghost use Rattle.pad_edge.specs.Count.{Rose, HasCause};
ghost use Rattle.disk_volume.specs.Disk.{IsImage, AtRest, reads};
ghost use Rattle.disk_volume.specs.Moments.{EachNow, EachSince, Grew, OnlySyncs};
ghost use Rattle.log_format.specs.declared.form.TheConstants.{MAGIC_TWO};
ghost use Rattle.log_format.specs.Damages.{damage_of};
ghost use Rattle.log_format.specs.File.{opens, doubt_of};
ghost use Rattle.log_format.specs.Form.{magic_of, most_entries_of, most_bytes_of};
ghost use Rattle.log_format.specs.Frames.{IsGroup, sizes_of, size_of};
ghost use Rattle.gated_log.specs.Holds.{OpensWithin};
ghost use Rattle.gated_log.specs.Ledger.{Within, LeavesOut};
ghost use Rattle.gated_log.specs.Log.{Stands, IsClosed, is_primed, spare, fits};
ghost use Rattle.gated_log.specs.Lemmas.Laws as laws;
ghost use Rattle.gated_log.specs.Refused.{MayRefuse};

use crate::entry::write_entries;
use crate::gate::Gate;
use crate::index::add_extents;
use crate::ledger::Ledger;
use crate::loading::find_settled;
use crate::log::Log;
use crate::piece::{PIECE, new_piece};
use crate::priming::prime_file;
use crate::reading::read_payload;
use crate::refused::{AppendRefused, LoadRefused, PayloadRefused};
use crate::restarting::empty_file;
use disk_volume::Volume;
use log_format::{ENTRY_HEAD, Form, Frame, Frames, MAGIC_SIZE, Payload};
use std::alloc::{AllocError, Global};

impl Ledger for Log {
    ghost opens_as = { λ form name files payloads. opens (magic_of form) (files name) ≡ Some payloads };

    ghost doubt = { λ form name files. doubt_of (files name) };

    ghost damage = { λ form name files. damage_of form (files name) };

    ghost owns = { λ name file. file ≡ name };

    ghost rests = { λ form name disk. AtRest disk name };

    ghost name = { λ log. string_bytes log.file };

    ghost form_of = { λ log. log.form };

    ghost live = { λ log. log.live };

    ghost primed = { is_primed };

    ghost ready = { λ log coming. is_primed log };

    ghost reserved = { spare };

    ghost count = { λ log. vec_len log.index };

    ghost room = { fits };

    ghost holds = { Stands };

    ghost holds_reads = { laws.holds_reads };

    ghost holds_rests = { laws.holds_rests };

    ghost rests_all = { λ form name disk rests. rests name refl };

    ghost rests_on = { λ form name old new rests same. laws.rests_on name old new rests (same name refl) };

    ghost rests_synced = { λ form name old new rests syncs. laws.rests_synced name old new rests syncs };

    ghost rests_now = { λ form name disk payloads rests opened image left. ap (opens (magic_of form)) (laws.rest_alone name disk image rests left) ∙ opened };

    ghost rests_doubt = { λ form name disk rests image left. ap doubt_of (laws.rest_alone name disk image rests left) };

    ghost rests_damage = { λ form name disk rests image left. ap (damage_of form) (laws.rest_alone name disk image rests left) };

    ghost holds_now = { laws.holds_now };

    ghost holds_on = { laws.holds_on };

    ghost holds_count = { laws.holds_count };

    ghost count_few = { λ log. log.few };

    ghost holds_room = { laws.holds_room };

    ghost no_doubt = { laws.no_doubt };

    ghost opens_undamaged = { λ form name files none. laws.opens_undamaged form (files name) none };

    ghost undamaged_few = { λ form name files payloads none opened. laws.undamaged_few form (files name) payloads none opened };

    ghost undamaged_small = { λ form name files payloads none opened. laws.undamaged_small form (files name) payloads none opened };

    ghost opens_once = { λ form name files one other first second. laws.same_payloads one other (sym first ∙ second) };

    ghost opened_by = { λ form name one other payloads same opened. sym (ap (opens (magic_of form)) (same name refl)) ∙ opened };

    ghost doubted_by = { λ form name one other same. ap doubt_of (same name refl) };

    ghost damaged_by = { λ form name one other same. ap (damage_of form) (same name refl) };

    ghost owned_named = { laws.owned_named };

    /// Syncs the file, and reads it once, in pieces of at most 65,536 bytes. It takes eight bytes of memory a payload, and
    /// 24 while the index grows. The log is primed where the last gate is there and closed.
    fn load<V: Volume>(
        alloc: Global,
        volume: &mut V,
        file: &str,
        form: Form,
    ) -> Result<Log, LoadRefused>
        ensures made { IfOk result (λ log. (string_bytes log.file ≡ file.now) × (log.form ≡ form) × IsTrue log.live) }
        ensures list { V.tells → IfOk result (λ log. (payloads : List (List ℕ))
            × (opens (magic_of form) (reads (V.disk volume.old) file.now) ≡ Some payloads) × Stands log payloads (V.disk volume.new)) }
        ensures undamaged { V.tells → IfOk result (λ log. damage_of form (reads (V.disk volume.old) file.now) ≡ None) }
        ensures damaged { V.tells → IfErr result (MayRefuse (damage_of form (reads (V.disk volume.old) file.now))) }
        ensures any_moment { V.tells → EachSince (V.disk volume.old) (V.disk volume.new) (IsImage (V.disk volume.old)) }
        ensures reads { V.tells → (other : List ℕ) → reads (V.disk volume.new) other ≡ reads (V.disk volume.old) other }
        ensures files { V.tells → Grew (λ name. name ≡ file.now) (V.disk volume.old) (V.disk volume.new) }
        ensures syncs { V.tells → OnlySyncs (λ name. name ≡ file.now) (V.disk volume.old) (V.disk volume.new) }
        ensures follows { V.follows volume.old volume.new }
        ensures store { IsErrOf result LoadRefused.Store → Rose (V.faults volume.old) (V.faults volume.new) }
        ensures kept { IsErrOf result LoadRefused.Store ⊎ (V.faults volume.new ≡ V.faults volume.old) }
        ensures later { V.faults volume.old ≤ V.faults volume.new }
        ensures primed { V.tells → IfOk result (λ log. IsClosed form (reads (V.disk volume.old) file.now) → IsTrue (is_primed log)) }
        // A sync, the length, a read, and another for each 65,532 bytes of the file at most.
        ensures clock { (size : ℕ) × (calls : ℕ) × (V.clock volume.new ≤ V.clock volume.old + 3 + calls) × ((PIECE - 4) * calls ≤ size)
            × (size ≤ most_bytes_of form) × (V.tells → size ≤ length (reads (V.disk volume.old) file.now)) }
    {
        let name = String::from_str(alloc, file)?;
        let mut piece = new_piece(alloc)?;
        let mut index = Vec::new(alloc);
        let found = find_settled(volume, file, form, &mut piece, &mut index)?;
        Ok(Log {
            form,
            file: name,
            short: found.short,
            gate: found.gate,
            index,
            live: true,
        })
    }

    /// Cuts the file to nothing and syncs it, in two calls.
    fn restart<V: Volume>(alloc: Global, volume: &mut V, file: &str) -> Result<Log, LoadRefused>
        requires { V.tells → AtRest (V.disk volume.old) file.now }
        ensures made { IfOk result (λ log. (string_bytes log.file ≡ file.now) × (log.form ≡ Form.Two) × IsTrue log.live × (vec_len log.index ≡ 0)) }

        // A crash at any moment leaves the list, or the list with some payloads left out.
        ensures any_moment { V.tells → (payloads : List (List ℕ)) → opens MAGIC_TWO (reads (V.disk volume.old) file.now) ≡ Some payloads
            → EachSince (V.disk volume.old) (V.disk volume.new) (λ image.
            (left : List (List ℕ)) × LeavesOut left payloads × (opens MAGIC_TWO (image file.now) ≡ Some left)) }
        ensures empty { V.tells → IfOk result (λ log. Stands log [] (V.disk volume.new)) }
        ensures no_doubt { V.tells → OnOk result (doubt_of (reads (V.disk volume.new) file.now) ≡ []) }
        ensures on_disk { V.tells → OnOk result (EachNow (V.disk volume.new) (λ image. opens MAGIC_TWO (image file.now) ≡ Some [])) }

        ensures refused { IfErr result (MayRefuse None) }
        ensures files { V.tells → Grew (λ name. name ≡ file.now) (V.disk volume.old) (V.disk volume.new) }
        ensures follows { V.follows volume.old volume.new }
        ensures store { IsErrOf result LoadRefused.Store → Rose (V.faults volume.old) (V.faults volume.new) }
        ensures kept { IsErrOf result LoadRefused.Store ⊎ (V.faults volume.new ≡ V.faults volume.old) }
        ensures later { V.faults volume.old ≤ V.faults volume.new }
        ensures clock { V.clock volume.new ≤ V.clock volume.old + 2 }
        ensures calls { OnOk result (V.clock volume.new ≡ min (V.clock volume.old + 2) (2 ^ 64 - 1)) }
    {
        let name = String::from_str(alloc, file)?;
        empty_file(volume, file)?;
        Ok(Log {
            form: Form::Two,
            file: name,
            short: true,
            gate: Gate {
                place: MAGIC_SIZE as u64,
                byte: 0,
            },
            index: Vec::new(alloc),
            live: true,
        })
    }

    fn reserve_one(&mut self, _alloc: Global) -> Result<(), AllocError> {
        self.index.reserve(1)
    }

    fn reserve(&mut self, _alloc: Global, entries: usize) -> Result<(), AllocError> {
        self.index.reserve(entries)
    }

    /// Closes the last gate in two calls where it is not closed, and writes the nine bytes of a log without entries in
    /// two where the file is too short for a gate. A primed log makes no call.
    fn prime<V: Volume>(&mut self, volume: &mut V, _coming: u64) -> Result<(), AppendRefused>
        requires live { IsTrue self.old.live }
        requires holds { V.tells → (payloads : List (List ℕ)) × Stands self.old payloads (V.disk volume.old) }

        // A crash at any moment leaves the list, or the list and what was doubtful.
        ensures any_moment { V.tells → (payloads : List (List ℕ)) → Stands self.old payloads (V.disk volume.old)
            → EachSince (V.disk volume.old) (V.disk volume.new) (λ image.
            Within (λ list. opens (magic_of self.old.form) (image (string_bytes self.old.file)) ≡ Some list) payloads (doubt_of (reads (V.disk volume.old) (string_bytes self.old.file)))) }
        ensures ok { V.tells → (payloads : List (List ℕ)) → Stands self.old payloads (V.disk volume.old)
            → OnOk result (Stands self.new payloads (V.disk volume.new)) }
        ensures on_disk { V.tells → (payloads : List (List ℕ)) → Stands self.old payloads (V.disk volume.old)
            → OnOk result (EachNow (V.disk volume.new) (λ image. opens (magic_of self.old.form) (image (string_bytes self.old.file)) ≡ Some payloads)) }

        ensures live { OnOk result (IsTrue self.new.live) }
        ensures primed { OnOk result (IsTrue (is_primed self.new)) }
        ensures ready { OnOk result (IsTrue (is_primed self.new)) }
        ensures name { string_bytes self.new.file ≡ string_bytes self.old.file }
        ensures form { self.new.form ≡ self.old.form }
        ensures count { vec_len self.new.index ≡ vec_len self.old.index }
        ensures room { fits self.new ≡ fits self.old }
        ensures reserved { spare self.new ≡ spare self.old }

        ensures refused { IfErr result (λ refused. refused ≡ AppendRefused.Store) }
        ensures dead { OnErr result (self.new.live ≡ false) }
        ensures follows { V.follows volume.old volume.new }
        ensures cause { HasCause (V.faults volume.old) (V.faults volume.new) result }
        ensures files { V.tells → Grew (λ name. name ≡ string_bytes self.old.file) (V.disk volume.old) (V.disk volume.new) }
        ensures idle { IsTrue (is_primed self.old) → (volume.new ≡ volume.old) × IsOk result }
        ensures clock { V.clock volume.new ≤ V.clock volume.old + 2 }
    {
        match prime_file(
            volume,
            self.file.as_str(),
            self.form,
            self.short,
            self.gate.place,
            self.gate.byte,
        ) {
            Ok(()) => {
                self.short = false;
                self.gate.byte = 0;
                Ok(())
            }
            Err(_) => {
                self.live = false;
                Err(AppendRefused::Store)
            }
        }
    }

    fn append<V: Volume>(&mut self, volume: &mut V, frame: &Frame) -> Result<u64, AppendRefused> {
        let size = frame.size() - ENTRY_HEAD;
        if !self.room(1, size) {
            return Err(AppendRefused::Full);
        }
        self.add_entries(volume, frame.as_slice(), &[size as u32])
    }

    fn append_group<V: Volume>(
        &mut self,
        volume: &mut V,
        group: &Frames,
    ) -> Result<u64, AppendRefused> {
        let sizes = group.sizes();
        let entries = sizes.len() as u64;
        if !self.room(entries, group.size() - ENTRY_HEAD * entries) {
            return Err(AppendRefused::Full);
        }
        self.add_entries(volume, group.as_slice(), sizes)
    }

    fn read<V: Volume>(
        &self,
        alloc: Global,
        volume: &mut V,
        index: u64,
    ) -> Result<Payload, PayloadRefused> {
        read_payload(
            alloc,
            volume,
            self.file.as_str(),
            self.index[index as usize],
        )
    }

    fn room(&self, entries: u64, bytes: u64) -> bool {
        let count = (self.index.len() as u64).saturating_add(entries);
        let size = entries
            .saturating_mul(ENTRY_HEAD)
            .saturating_add(bytes)
            .saturating_add(self.gate.place)
            .saturating_add(1);
        count <= self.form.most_entries() && size <= self.form.most_bytes()
    }

    fn is_live(&self) -> bool {
        self.live
    }

    fn count(&self) -> u64 {
        self.index.len() as u64
    }
}

impl Log {
    /// Adds entries that fit, by the bytes of their group and the lengths of their payloads, in four calls.
    fn add_entries<V: Volume>(
        &mut self,
        volume: &mut V,
        bytes: &[u8],
        sizes: &[u32],
    ) -> Result<u64, AppendRefused>
        requires primed { IsTrue (is_primed self.old) }
        requires reserved { length sizes.now ≤ spare self.old }
        requires group { (added : List (List ℕ)) × IsGroup bytes.now added × (sizes.now ≡ sizes_of added)
            × (fits self.old (length added) (size_of added) ≡ true) }
        requires holds { V.tells → (payloads : List (List ℕ)) × Stands self.old payloads (V.disk volume.old) }
        ensures any_moment { V.tells → (payloads added : List (List ℕ)) → Stands self.old payloads (V.disk volume.old) → IsGroup bytes.now added
            → EachSince (V.disk volume.old) (V.disk volume.new) (λ image. OpensWithin (magic_of self.old.form) payloads added (image (string_bytes self.old.file))) }
        ensures ok { V.tells → (payloads added : List (List ℕ)) → Stands self.old payloads (V.disk volume.old) → IsGroup bytes.now added → sizes.now ≡ sizes_of added
            → OnOk result (Stands self.new (payloads ++ added) (V.disk volume.new)) }
        ensures on_disk { V.tells → (payloads added : List (List ℕ)) → Stands self.old payloads (V.disk volume.old) → IsGroup bytes.now added → sizes.now ≡ sizes_of added
            → OnOk result (EachNow (V.disk volume.new) (λ image. opens (magic_of self.old.form) (image (string_bytes self.old.file)) ≡ Some (payloads ++ added))) }
        ensures index { IfOk result (λ index. index ≡ vec_len self.old.index) }
        ensures counted { OnOk result (vec_len self.new.index ≡ vec_len self.old.index + length sizes.now) }
        ensures live { self.new.live ≡ (if is_ok result then self.old.live else false) }
        ensures primed { OnOk result (IsTrue (is_primed self.new)) }
        ensures file { self.new.file ≡ self.old.file }
        ensures form { self.new.form ≡ self.old.form }
        ensures refused { IfErr result (λ refused. refused ≡ AppendRefused.Store) }
        ensures follows { V.follows volume.old volume.new }
        ensures cause { HasCause (V.faults volume.old) (V.faults volume.new) result }
        ensures clock { V.clock volume.new ≤ V.clock volume.old + 4 }
        ensures calls { OnOk result (V.clock volume.new ≡ min (V.clock volume.old + 4) (2 ^ 64 - 1)) }
        ensures files { V.tells → Grew (λ name. name ≡ string_bytes self.old.file) (V.disk volume.old) (V.disk volume.new) }
    {
        match write_entries(volume, self.file.as_str(), self.gate.place, bytes) {
            Ok(()) => {
                let first = self.index.len() as u64;
                add_extents(&mut self.index, self.gate.place, sizes);
                self.gate.place += bytes.len() as u64;
                Ok(first)
            }
            Err(_) => {
                self.live = false;
                Err(AppendRefused::Store)
            }
        }
    }
}
