ghost use Rattle.std.specs.Prelude.{◌≡◌, List, ℕ, Option, IfSome, IsTrue};
ghost use Rattle.disk_volume.specs.Disk.{Disk, IsImage, reads};
ghost use Rattle.disk_volume.specs.Moments.{EachNow, EachSince, Grew};
ghost use Rattle.keeper_channel.specs.Chan.{IsList, IsWithin};
ghost use Rattle.keeper_channel.specs.Disks.{Either};
ghost use Rattle.keeper_channel.specs.Logs.{IsFound};
ghost use Rattle.keeper_channel.specs.Slot.{IsSlotOf, Keeps};
ghost use Rattle.keeper_channel.specs.declared.slot.Slot.{Slot};

use gated_log::Ledger;
use log_format::Form;

/// A channel that was not loaded yet, on whose files nothing is pending, keeps what they read as, and what is doubtful of them is in
/// suspense.
pub fn unloaded_channels_are_kept<O: Ledger, G: Ledger>()
    ensures { (one two : List ℕ) (disk : Disk) (held suspense : List (List ℕ)) → O.rests Form.One one disk → G.rests Form.Two two disk
        → IsFound (O.opens_as Form.One one) (G.opens_as Form.Two two) (G.doubt Form.Two two) (reads disk) held suspense
        → EachNow disk (λ image. IsWithin (IsList (O.opens_as Form.One one) (G.opens_as Form.Two two) image) held suspense) }
{}

/// Of a channel that keeps a list, loaded or not, a crash leaves that list, with what is in suspense or without.
pub fn a_crash_leaves_what_is_kept<O: Ledger, G: Ledger>()
    ensures { (one two : List ℕ) (slot : Option (Slot O G)) (disk : Disk) (held suspense : List (List ℕ))
        → IfSome slot (IsSlotOf (λ log. (O.name log ≡ one) × (O.form_of log ≡ Form.One) × IsTrue (O.live log)) (λ log. (G.name log ≡ two) × (G.form_of log ≡ Form.Two) × IsTrue (G.live log)) O.count G.count)
        → Keeps (O.opens_as Form.One one) (G.opens_as Form.Two two) (G.doubt Form.Two two) O.holds G.holds slot held suspense disk
        → EachNow disk (λ image. IsWithin (IsList (O.opens_as Form.One one) (G.opens_as Form.Two two) image) held suspense) }
{}

/// What is done to the files of another channel leaves what a channel keeps, at every moment.
pub fn other_channels_are_kept<O: Ledger, G: Ledger>()
    ensures { (one two other_one other_two : List ℕ) (slot : Option (Slot O G)) (old new : Disk) (held suspense : List (List ℕ))
        → ((file : List ℕ) → Either (O.owns other_one) (G.owns other_two) file → Either (O.owns one) (G.owns two) file → ⊥)
        → IsImage old (reads old) → Grew (Either (O.owns other_one) (G.owns other_two)) old new
        → IfSome slot (IsSlotOf (λ log. (O.name log ≡ one) × (O.form_of log ≡ Form.One) × IsTrue (O.live log)) (λ log. (G.name log ≡ two) × (G.form_of log ≡ Form.Two) × IsTrue (G.live log)) O.count G.count)
        → Keeps (O.opens_as Form.One one) (G.opens_as Form.Two two) (G.doubt Form.Two two) O.holds G.holds slot held suspense old
        → Keeps (O.opens_as Form.One one) (G.opens_as Form.Two two) (G.doubt Form.Two two) O.holds G.holds slot held suspense new
        × EachSince old new (λ image. IsWithin (IsList (O.opens_as Form.One one) (G.opens_as Form.Two two) image) held suspense) }
{}
