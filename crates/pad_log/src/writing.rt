ghost use Rattle.std.specs.Prelude.{◌≡◌, ◌⊎◌, ◌++◌, ◌<◌, ◌≤◌, List, ℕ, Some, slice_get, OnOk, OnErr, IsErrOf, IsTrue};
ghost use Rattle.std.specs.Io.{StartsWith};
ghost use Rattle.std.specs.Io.KnownBytes.{Appends};
ghost use Rattle.pad_edge.specs.Count.{Rose};
ghost use Rattle.pad_output.specs.Output.{AppendsPart, AppendsSome};
ghost use Rattle.disk_volume.specs.Disk.{reads};
ghost use Rattle.disk_volume.specs.Moments.{OnlySyncs};
ghost use Rattle.log_format.specs.declared.damage.Damage.{Damage};
ghost use Rattle.log_format.specs.declared.damage.Damage.TheVariants.{Entry};
ghost use Rattle.keeper_entry.specs.Entry.{IsEntry};
ghost use Rattle.keeper_channel.specs.Checked.{IsChecked, IsCheckedOf};
ghost use Rattle.keeper_table.specs.Files.{file_one, file_two, OfChannel};
ghost use Rattle.pad_log.specs.Channel.{IsDamageOf, IsListOf};
ghost use Rattle.pad_log.specs.Lines.{line_of_entry, line_of_count, log_text};
ghost use Rattle.pad_log.specs.Log.{Gathers, IsLogText, IsLogPart, OfEachHeld};

use crate::lines::{count_line, entry_line};
use crate::refused::LogRefused;
use disk_volume::Volume;
use gated_log::{Ledger, LoadRefused};
use keeper_channel::{CheckedChannel, KeeperRefused, load_checked, read_checked};
use keeper_table::files_of;
use log_format::Damage;
use netflux_codec::Channel;
use pad_edge::Sink;
use pad_output::write_all;
use std::alloc::Global;

/// Lines go out together once they have so many bytes: 64 KiB.
const PIECE_BYTES: usize = 64 << 10;

/// Writes the log of a channel: a line for each entry of its files, and one that tells how many there are. The files are only synced.
/// At a refusal nothing is written, or a part from the front. `Store` comes only if a call of the volume failed, `Write` only if a write
/// did. Where the volume tells what the files hold, `Damaged` names their damage, and a channel that is damaged has nothing written.
pub fn write_channel<O: Ledger, G: Ledger, V: Volume, S: Sink>(
    alloc: Global,
    volume: &mut V,
    channel: &Channel,
    output: &mut S,
) -> Result<(), LogRefused>
    requires apart { (file : List ℕ) → G.owns (file_two channel.now) file → O.owns (file_one channel.now) file → ⊥ }
    ensures whole { OnOk result (AppendsSome (IsLogText V.tells (IsListOf O.opens_as G.opens_as O.damage G.damage channel.now (reads (V.disk volume.old)))) (S.written output.old) (S.written output.new)) }
    ensures part { OnErr result ((output.new ≡ output.old)
        ⊎ AppendsSome (IsLogPart V.tells (λ part. (list : List (List ℕ)) × IsListOf O.opens_as G.opens_as O.damage G.damage channel.now (reads (V.disk volume.old)) list × StartsWith (log_text list) part)) (S.written output.old) (S.written output.new)) }
    ensures damaged { V.tells → (damage : Damage) → IsErrOf result (LogRefused.Damaged damage) → IsDamageOf O.opens_as G.opens_as O.damage G.damage channel.now (reads (V.disk volume.old)) damage }
    ensures spoiled { V.tells → (damage : Damage) → IsDamageOf O.opens_as G.opens_as O.damage G.damage channel.now (reads (V.disk volume.old)) damage → OnOk result ⊥ × (IsErrOf result LogRefused.Write → ⊥) × (output.new ≡ output.old) }
    ensures syncs { V.tells → OnlySyncs (OfChannel O.owns G.owns channel.now) (V.disk volume.old) (V.disk volume.new) }
    ensures follows { V.follows volume.old volume.new }
    ensures store { IsErrOf result LogRefused.Store → Rose (V.faults volume.old) (V.faults volume.new) }
    ensures kept { IsErrOf result LogRefused.Store ⊎ (V.faults volume.new ≡ V.faults volume.old) }
    ensures later { V.faults volume.old ≤ V.faults volume.new }
    ensures write { IsErrOf result LogRefused.Write → Rose (S.faults output.old) (S.faults output.new) }
    ensures written { IsErrOf result LogRefused.Write ⊎ (S.faults output.new ≡ S.faults output.old) }
    ensures writes_later { S.faults output.old ≤ S.faults output.new }
{
    match files_of(alloc, channel) {
        Ok(files) => write_files::<O, G, V, S>(
            alloc,
            volume,
            channel,
            files.one.as_str(),
            files.two.as_str(),
            output,
        ),
        Err(error) => Err(LogRefused::NoMemory(error)),
    }
}

/// Writes it from its two files, by their names.
fn write_files<O: Ledger, G: Ledger, V: Volume, S: Sink>(
    alloc: Global,
    volume: &mut V,
    channel: &Channel,
    one: &str,
    two: &str,
    output: &mut S,
) -> Result<(), LogRefused>
    requires one { one.now ≡ file_one channel.now }
    requires two { two.now ≡ file_two channel.now }
    requires apart { (file : List ℕ) → G.owns (file_two channel.now) file → O.owns (file_one channel.now) file → ⊥ }
    ensures whole { OnOk result (AppendsSome (IsLogText V.tells (IsListOf O.opens_as G.opens_as O.damage G.damage channel.now (reads (V.disk volume.old)))) (S.written output.old) (S.written output.new)) }
    ensures part { OnErr result ((output.new ≡ output.old)
        ⊎ AppendsSome (IsLogPart V.tells (λ part. (list : List (List ℕ)) × IsListOf O.opens_as G.opens_as O.damage G.damage channel.now (reads (V.disk volume.old)) list × StartsWith (log_text list) part)) (S.written output.old) (S.written output.new)) }
    ensures damaged { V.tells → (damage : Damage) → IsErrOf result (LogRefused.Damaged damage) → IsDamageOf O.opens_as G.opens_as O.damage G.damage channel.now (reads (V.disk volume.old)) damage }
    ensures spoiled { V.tells → (damage : Damage) → IsDamageOf O.opens_as G.opens_as O.damage G.damage channel.now (reads (V.disk volume.old)) damage → OnOk result ⊥ × (IsErrOf result LogRefused.Write → ⊥) × (output.new ≡ output.old) }
    ensures syncs { V.tells → OnlySyncs (OfChannel O.owns G.owns channel.now) (V.disk volume.old) (V.disk volume.new) }
    ensures follows { V.follows volume.old volume.new }
    ensures store { IsErrOf result LogRefused.Store → Rose (V.faults volume.old) (V.faults volume.new) }
    ensures kept { IsErrOf result LogRefused.Store ⊎ (V.faults volume.new ≡ V.faults volume.old) }
    ensures later { V.faults volume.old ≤ V.faults volume.new }
    ensures write { IsErrOf result LogRefused.Write → Rose (S.faults output.old) (S.faults output.new) }
    ensures written { IsErrOf result LogRefused.Write ⊎ (S.faults output.new ≡ S.faults output.old) }
    ensures writes_later { S.faults output.old ≤ S.faults output.new }
{
    match load_checked::<O, G, V>(alloc, volume, one, two) {
        Ok(checked) => write_log(alloc, volume, &checked, output),
        Err(refused) => Err(refused_for(refused)),
    }
}

/// What a log is refused with where the load before it was refused.
fn refused_for(refused: LoadRefused) -> LogRefused
    ensures damaged { (damage : Damage) → result ≡ LogRefused.Damaged damage → refused ≡ LoadRefused.Damaged damage }
    ensures store { result ≡ LogRefused.Store → refused ≡ LoadRefused.Store }
    ensures told { refused ≡ LoadRefused.Store → result ≡ LogRefused.Store }
    ensures write { result ≡ LogRefused.Write → ⊥ }
{
    match refused {
        LoadRefused::Store => LogRefused::Store,
        LoadRefused::Damaged(damage) => LogRefused::Damaged(damage),
        LoadRefused::NoMemory(error) => LogRefused::NoMemory(error),
    }
}

/// Writes the log of a channel that was checked. At a refusal a part from the front is written. `Damaged` comes only over a volume that
/// does not tell what its files hold, and names an entry.
pub fn write_log<O: Ledger, G: Ledger, V: Volume, S: Sink>(
    alloc: Global,
    volume: &mut V,
    channel: &CheckedChannel<O, G>,
    output: &mut S,
) -> Result<(), LogRefused>
    requires live { IsCheckedOf (λ log. IsTrue (O.live log)) (λ log. IsTrue (G.live log)) O.count G.count channel.now }
    requires channel { V.tells → (doubt : (List ℕ → List ℕ) → List (List ℕ)) × (held : List (List ℕ)) × (suspense : List (List ℕ)) × IsChecked O.holds G.holds doubt channel.now held suspense (V.disk volume.old) }
    ensures whole { OnOk result (AppendsSome (IsLogText V.tells (λ list. OfEachHeld O.holds G.holds channel.now (V.disk volume.old) (λ held. list ≡ held))) (S.written output.old) (S.written output.new)) }
    ensures part { OnErr result (AppendsSome (IsLogPart V.tells (λ part. OfEachHeld O.holds G.holds channel.now (V.disk volume.old) (λ held. StartsWith (log_text held) part)))
        (S.written output.old) (S.written output.new)) }
    ensures damaged { (damage : Damage) → IsErrOf result (LogRefused.Damaged damage) → (index : ℕ) × (damage ≡ Entry index) }
    ensures sound { V.tells → (damage : Damage) → IsErrOf result (LogRefused.Damaged damage) → ⊥ }
    ensures disk { V.tells → V.disk volume.new ≡ V.disk volume.old }
    ensures follows { V.follows volume.old volume.new }
    ensures store { IsErrOf result LogRefused.Store → Rose (V.faults volume.old) (V.faults volume.new) }
    ensures kept { IsErrOf result LogRefused.Store ⊎ (V.faults volume.new ≡ V.faults volume.old) }
    ensures later { V.faults volume.old ≤ V.faults volume.new }
    ensures write { IsErrOf result LogRefused.Write → Rose (S.faults output.old) (S.faults output.new) }
    ensures written { IsErrOf result LogRefused.Write ⊎ (S.faults output.new ≡ S.faults output.old) }
    ensures writes_later { S.faults output.old ≤ S.faults output.new }
{
    let total = channel.count;
    // One entry at a time, so that a long log takes no more memory than its longest entry and the lines that go out together.
    let mut lines = Vec::new(alloc);
    for index in 0..total {
        write_entry(alloc, volume, channel, index, &mut lines, output)?;
    }
    write_count(alloc, total, &mut lines, output)
}

/// Puts the line of an entry behind others, and writes all once they are many.
fn write_entry<O: Ledger, G: Ledger, V: Volume, S: Sink>(
    alloc: Global,
    volume: &mut V,
    channel: &CheckedChannel<O, G>,
    index: u64,
    lines: &mut Vec<u8>,
    output: &mut S,
) -> Result<(), LogRefused>
    requires live { IsCheckedOf (λ log. IsTrue (O.live log)) (λ log. IsTrue (G.live log)) O.count G.count channel.now }
    requires index { index < channel.now.count }
    requires channel { V.tells → (doubt : (List ℕ → List ℕ) → List (List ℕ)) × (held : List (List ℕ)) × (suspense : List (List ℕ)) × IsChecked O.holds G.holds doubt channel.now held suspense (V.disk volume.old) }
    ensures whole { OnOk result ((payload : List ℕ) × IsEntry payload × (V.tells → OfEachHeld O.holds G.holds channel.now (V.disk volume.old) (λ held. slice_get held index ≡ Some payload))
        × Gathers (S.written output.old) (S.written output.new) lines.old.items lines.new.items (line_of_entry index payload)) }
    ensures part { OnErr result ((output.new ≡ output.old)
        ⊎ ((payload : List ℕ) × IsEntry payload × (V.tells → OfEachHeld O.holds G.holds channel.now (V.disk volume.old) (λ held. slice_get held index ≡ Some payload))
        × AppendsPart (S.written output.old) (S.written output.new) (lines.old.items ++ line_of_entry index payload))) }
    ensures damaged { (damage : Damage) → IsErrOf result (LogRefused.Damaged damage) → (index : ℕ) × (damage ≡ Entry index) }
    ensures sound { V.tells → (damage : Damage) → IsErrOf result (LogRefused.Damaged damage) → ⊥ }
    ensures disk { V.tells → V.disk volume.new ≡ V.disk volume.old }
    ensures follows { V.follows volume.old volume.new }
    ensures store { IsErrOf result LogRefused.Store → Rose (V.faults volume.old) (V.faults volume.new) }
    ensures kept { IsErrOf result LogRefused.Store ⊎ (V.faults volume.new ≡ V.faults volume.old) }
    ensures later { V.faults volume.old ≤ V.faults volume.new }
    ensures write { IsErrOf result LogRefused.Write → Rose (S.faults output.old) (S.faults output.new) }
    ensures written { IsErrOf result LogRefused.Write ⊎ (S.faults output.new ≡ S.faults output.old) }
    ensures writes_later { S.faults output.old ≤ S.faults output.new }
{
    match read_checked(alloc, volume, channel, index) {
        Ok(payload) => match entry_line(alloc, index, payload.as_slice()) {
            Ok(Some(line)) => gather(output, lines, line.as_bytes()),
            Ok(None) => Err(LogRefused::Damaged(Damage::Entry(index))),
            Err(error) => Err(LogRefused::NoMemory(error)),
        },
        Err(KeeperRefused::Full) => unreachable!(),
        Err(KeeperRefused::Store) => Err(LogRefused::Store),
        Err(KeeperRefused::Damaged(damage)) => Err(LogRefused::Damaged(damage)),
        Err(KeeperRefused::NoMemory(error)) => Err(LogRefused::NoMemory(error)),
    }
}

/// Puts a text behind others, and writes all once they are many.
#[tactic(auto, using(crate::proofs::Written::gathered_none, crate::proofs::Written::gathered_all, crate::proofs::Written::part_none))]
fn gather<S: Sink>(output: &mut S, lines: &mut Vec<u8>, text: &[u8]) -> Result<(), LogRefused>
    ensures whole { OnOk result (Gathers (S.written output.old) (S.written output.new) lines.old.items lines.new.items text.now) }
    ensures part { OnErr result (AppendsPart (S.written output.old) (S.written output.new) (lines.old.items ++ text.now)) }
    ensures store { IsErrOf result LogRefused.Store → ⊥ }
    ensures sound { (damage : Damage) → IsErrOf result (LogRefused.Damaged damage) → ⊥ }
    ensures write { IsErrOf result LogRefused.Write → Rose (S.faults output.old) (S.faults output.new) }
    ensures written { IsErrOf result LogRefused.Write ⊎ (S.faults output.new ≡ S.faults output.old) }
    ensures writes_later { S.faults output.old ≤ S.faults output.new }
{
    if let Err(error) = lines.extend_from_slice(text) {
        return Err(LogRefused::NoMemory(error));
    }
    if lines.len() < PIECE_BYTES {
        return Ok(());
    }
    write_text(output, lines.as_slice())?;
    lines.clear();
    Ok(())
}

/// Writes what waits, and behind it the line that tells how many entries there are.
#[tactic(auto, using(crate::proofs::Written::part_none))]
fn write_count<S: Sink>(
    alloc: Global,
    total: u64,
    lines: &mut Vec<u8>,
    output: &mut S,
) -> Result<(), LogRefused>
    ensures whole { OnOk result (Appends (S.written output.old) (S.written output.new) (lines.old.items ++ line_of_count total)) }
    ensures part { OnErr result (AppendsPart (S.written output.old) (S.written output.new) (lines.old.items ++ line_of_count total)) }
    ensures store { IsErrOf result LogRefused.Store → ⊥ }
    ensures sound { (damage : Damage) → IsErrOf result (LogRefused.Damaged damage) → ⊥ }
    ensures write { IsErrOf result LogRefused.Write → Rose (S.faults output.old) (S.faults output.new) }
    ensures written { IsErrOf result LogRefused.Write ⊎ (S.faults output.new ≡ S.faults output.old) }
    ensures writes_later { S.faults output.old ≤ S.faults output.new }
{
    let line = match count_line(alloc, total) {
        Ok(line) => line,
        Err(error) => return Err(LogRefused::NoMemory(error)),
    };
    if let Err(error) = lines.extend_from_slice(line.as_bytes()) {
        return Err(LogRefused::NoMemory(error));
    }
    write_text(output, lines.as_slice())
}

/// Writes a text.
fn write_text<S: Sink>(output: &mut S, text: &[u8]) -> Result<(), LogRefused>
    ensures whole { OnOk result (Appends (S.written output.old) (S.written output.new) text.now) }
    ensures part { OnErr result (AppendsPart (S.written output.old) (S.written output.new) text.now) }
    ensures store { IsErrOf result LogRefused.Store → ⊥ }
    ensures sound { (damage : Damage) → IsErrOf result (LogRefused.Damaged damage) → ⊥ }
    ensures write { IsErrOf result LogRefused.Write → Rose (S.faults output.old) (S.faults output.new) }
    ensures written { IsErrOf result LogRefused.Write ⊎ (S.faults output.new ≡ S.faults output.old) }
    ensures writes_later { S.faults output.old ≤ S.faults output.new }
{
    match write_all(output, text) {
        Ok(()) => Ok(()),
        Err(_) => Err(LogRefused::Write),
    }
}
