ghost use Rattle.std.specs.Prelude.{◌≡◌, ◌≢◌, List, ℕ};
ghost use Rattle.std.specs.List.{position};
ghost use Rattle.disk_volume.specs.Disk.{Disk};
ghost use Rattle.disk_volume.specs.Moments.{Grew};
ghost use Rattle.log_format.specs.declared.form.Form.{Form};
ghost use Rattle.pad_text.specs.Digits.{IsDigits};
ghost use Rattle.pad_text.specs.declared.name.Name.{Name};
ghost use Rattle.keeper_entry.specs.History.{has_key, first_from, default_start};
ghost use Rattle.keeper_table.specs.Files.{file_one, file_two, OfChannel};
ghost use Rattle.keeper_table.specs.Span.{StartsByDefault};

use gated_log::Ledger;

/// A history from a key starts at the first entry with that key, and is unknown exactly if none has it.
pub fn known_histories_start_at_the_first()
    ensures { (key : Name) (payloads : List (List ℕ)) → first_from key 0 payloads ≡ position (has_key key) payloads }
{}

/// A default history starts at the last but one checkpoint, or at the first entry if there are fewer than two.
pub fn default_histories_start_at_the_last_but_one_checkpoint()
    ensures { (payloads : List (List ℕ)) → StartsByDefault payloads (default_start payloads) }
{}

/// Two channels share no file, whatever the ledgers of their logs are.
pub fn channels_share_no_file<O: Ledger, G: Ledger>()
    ensures { (channel other file : List ℕ) → IsDigits 32 channel → IsDigits 32 other
        → OfChannel O.owns G.owns channel file → OfChannel O.owns G.owns other file → channel ≡ other }
{}

/// The file of form One of a channel is none of its files of form Two.
pub fn forms_share_no_file<G: Ledger>()
    ensures { (channel file : List ℕ) → G.owns (file_two channel) file → file ≡ file_one channel → ⊥ }
{}

/// Calls on the files of a channel leave the logs of every other channel as they were: those that are loaded hold what they held,
/// and on the files of those that are not nothing is pending if nothing was.
pub fn other_channels_stay<O: Ledger, G: Ledger>()
    ensures old_logs { (channel other : List ℕ) (log : O) (payloads : List (List ℕ)) (old new : Disk) → IsDigits 32 channel → IsDigits 32 other → channel ≢ other
        → Grew (OfChannel O.owns G.owns channel) old new → O.name log ≡ file_one other → O.holds log payloads old → O.holds log payloads new }
    ensures logs { (channel other : List ℕ) (log : G) (payloads : List (List ℕ)) (old new : Disk) → IsDigits 32 channel → IsDigits 32 other → channel ≢ other
        → Grew (OfChannel O.owns G.owns channel) old new → G.name log ≡ file_two other → G.holds log payloads old → G.holds log payloads new }
    ensures unloaded { (channel other : List ℕ) (one two : Form) (old new : Disk) → IsDigits 32 channel → IsDigits 32 other → channel ≢ other
        → Grew (OfChannel O.owns G.owns channel) old new → O.rests one (file_one other) old → G.rests two (file_two other) old
        → O.rests one (file_one other) new × G.rests two (file_two other) new }
{}
