//! The entries of a channel.

ghost use Rattle.std.specs.Prelude.{◌≡◌, ◌⊎◌, ◌↔◌, ◌+◌, ◌<◌, ◌≤◌, ◌∷◌, ◌++◌, [], List, ℕ, length, drop, None, Some, MatchResult, IfOk, IfErr, OnOk, IsErrOf, bytes_eq, false, slice_get};
ghost use Rattle.pad_edge.specs.Count.{Rose};
ghost use Rattle.log_format.specs.declared.damage.Damage.{Damage};
ghost use Rattle.log_format.specs.declared.damage.Damage.TheVariants.{Entry as AtEntry};
ghost use Rattle.keeper_log.specs.Answer.{answer_of, answer_in};
ghost use Rattle.keeper_log.specs.Calls.{ActsOn, Asks};
ghost use Rattle.keeper_log.specs.Inside.Taking.{ReadsOf};
ghost use Rattle.keeper_log.specs.Keeper.{IsKeeper, HasEntry};
ghost use Rattle.keeper_state.specs.Entries.{entries_from as all_from};
ghost use Rattle.keeper_state.specs.State.{State, live, again, AnswersByReading, ReadRefused, StandsFor};
ghost use Rattle.keeper_table.specs.Entry.{entry_in};
ghost use Rattle.keeper_table.specs.Files.{file_one, file_two};
ghost use Rattle.keeper_table.specs.Span.{EachBefore, Counts};
ghost use Rattle.keeper_table.specs.Table.{channel_in, slot_in, size_of, IsOneTooMany};

use crate::answer::Answer;
use crate::entries::{Entries, push_entry};
use crate::keeper::Keeper;
use crate::reading::read_whole;
use disk_volume::Volume;
use gated_log::Ledger;
use keeper_channel::{KeeperRefused, a_crash_leaves_what_is_kept};
use keeper_table::{Entry, Span};
use netflux_codec::{Channel, Since};
use std::alloc::Global;

impl<O: Ledger, G: Ledger> Keeper<O, G> {
    /// The entry of an index in a loaded channel, in two calls of the volume at most. After `Store` the channel is loaded again by the
    /// next call. `Damaged` comes only over a volume that does not tell, if the bytes that came hold no entry; the channel stays loaded.
    pub fn entry<V: Volume>(
        &mut self,
        alloc: Global,
        volume: &mut V,
        channel: &Channel,
        index: u64,
    ) -> Result<Entry, KeeperRefused>
        requires loaded { HasEntry self.old.table channel.now index }
        requires made { IsKeeper O.name O.form_of O.live O.count G.name G.form_of G.live G.count self.old.table }
        requires tie { V.tells → (held : List (List ℕ)) × (suspense : List (List ℕ)) × StandsFor O.rests G.rests O.opens_as G.opens_as G.doubt O.holds G.holds channel.now (channel_in self.old.table channel.now) (live held suspense) (V.disk volume.old) }
        ensures made { IsKeeper O.name O.form_of O.live O.count G.name G.form_of G.live G.count self.new.table }
        ensures entry { V.tells → (held suspense : List (List ℕ)) → StandsFor O.rests G.rests O.opens_as G.opens_as G.doubt O.holds G.holds channel.now (channel_in self.old.table channel.now) (live held suspense) (V.disk volume.old)
            → IfOk result (λ entry. (payload : List ℕ) × (slice_get held index ≡ Some payload) × (entry ≡ entry_in index payload)) }
        ensures stands { V.tells → (held suspense : List (List ℕ)) → StandsFor O.rests G.rests O.opens_as G.opens_as G.doubt O.holds G.holds channel.now (channel_in self.old.table channel.now) (live held suspense) (V.disk volume.old)
            → IsErrOf result KeeperRefused.Store → StandsFor O.rests G.rests O.opens_as G.opens_as G.doubt O.holds G.holds channel.now (channel_in self.new.table channel.now) (again held suspense) (V.disk volume.new) }
        ensures same { IsErrOf result KeeperRefused.Store ⊎ (self.new ≡ self.old) }
        ensures unmoved { OnOk result (self.new ≡ self.old) }
        ensures again { IsErrOf result KeeperRefused.Store → channel_in self.new.table channel.now ≡ Some None }
        ensures others { (other : List ℕ) → bytes_eq channel.now other ≡ false → channel_in self.new.table other ≡ channel_in self.old.table other }
        ensures size { size_of self.new.table ≡ size_of self.old.table }
        ensures disk { V.tells → V.disk volume.new ≡ V.disk volume.old }
        ensures damaged { (damage : Damage) → IsErrOf result (KeeperRefused.Damaged damage) → damage ≡ AtEntry index }
        ensures sound { V.tells → (damage : Damage) → IsErrOf result (KeeperRefused.Damaged damage) → ⊥ }
        ensures full { IsErrOf result KeeperRefused.Full → ⊥ }
        ensures follows { V.follows volume.old volume.new }
        ensures store { IsErrOf result KeeperRefused.Store → Rose (V.faults volume.old) (V.faults volume.new) }
        ensures kept { IsErrOf result KeeperRefused.Store ⊎ (V.faults volume.new ≡ V.faults volume.old) }
        ensures later { V.faults volume.old ≤ V.faults volume.new }
        ensures clock { V.clock volume.new ≤ V.clock volume.old + 2 }
    {
        a_crash_leaves_what_is_kept::<O, G>();
        let Some(slot) = self.table.get(channel) else {
            unreachable!()
        };
        match read_whole(alloc, volume, slot, index) {
            Ok(entry) => Ok(entry),
            Err(KeeperRefused::Store) => {
                self.table.put(channel, None);
                Err(KeeperRefused::Store)
            }
            Err(KeeperRefused::Full) => Err(KeeperRefused::Full),
            Err(KeeperRefused::Damaged(damage)) => Err(KeeperRefused::Damaged(damage)),
            Err(KeeperRefused::NoMemory(error)) => Err(KeeperRefused::NoMemory(error)),
        }
    }

    /// The history that is asked for: the entries from its start on, and how many there are in all. Refusals as of `span`, and then
    /// `Store` if reading an entry failed; after it the channel is loaded again by the next call. Over a volume that does not tell,
    /// `Damaged` may also come by reading.
    pub fn history<V: Volume>(
        &mut self,
        alloc: Global,
        volume: &mut V,
        channel: &Channel,
        from: &Since,
    ) -> Result<Answer, KeeperRefused>
        requires apart { (file : List ℕ) → G.owns (file_two channel.now) file → O.owns (file_one channel.now) file → ⊥ }
        requires made { IsKeeper O.name O.form_of O.live O.count G.name G.form_of G.live G.count self.old.table }
        requires tie { V.tells → (state : State) × StandsFor O.rests G.rests O.opens_as G.opens_as G.doubt O.holds G.holds channel.now (channel_in self.old.table channel.now) state (V.disk volume.old) }
        ensures made { IsKeeper O.name O.form_of O.live O.count G.name G.form_of G.live G.count self.new.table }
        ensures full { IsErrOf result KeeperRefused.Full ↔ IsOneTooMany self.old.table channel.now }
        ensures told { V.tells → Asks O.rests G.rests O.opens_as G.opens_as G.doubt O.damage G.damage O.holds G.holds O.owns G.owns channel.now
            (λ finds loaded state next. AnswersByReading finds loaded state (λ held answer. answer ≡ answer_in held from.now) result next) self.old.table self.new.table (V.disk volume.old) (V.disk volume.new) }
        ensures again { IsErrOf result KeeperRefused.Store → slot_in self.new.table channel.now ≡ None }
        ensures table { ActsOn channel.now self.old.table self.new.table }
        ensures follows { V.follows volume.old volume.new }
        ensures store { IsErrOf result KeeperRefused.Store → Rose (V.faults volume.old) (V.faults volume.new) }
        ensures kept { IsErrOf result KeeperRefused.Store ⊎ (V.faults volume.new ≡ V.faults volume.old) }
        ensures later { V.faults volume.old ≤ V.faults volume.new }
    {
        match self.span(alloc, volume, channel, from) {
            Ok(span) => self.history_of(alloc, volume, channel, span),
            Err(refused) => Err(refused),
        }
    }

    /// The history of a span of a loaded channel. After `Store` the channel is loaded again by the next call.
    fn history_of<V: Volume>(
        &mut self,
        alloc: Global,
        volume: &mut V,
        channel: &Channel,
        span: Span,
    ) -> Result<Answer, KeeperRefused>
        requires loaded { EachBefore span (HasEntry self.old.table channel.now) }
        requires made { IsKeeper O.name O.form_of O.live O.count G.name G.form_of G.live G.count self.old.table }
        requires tie { V.tells → (held : List (List ℕ)) × (suspense : List (List ℕ)) × StandsFor O.rests G.rests O.opens_as G.opens_as G.doubt O.holds G.holds channel.now (channel_in self.old.table channel.now) (live held suspense) (V.disk volume.old) }
        ensures made { IsKeeper O.name O.form_of O.live O.count G.name G.form_of G.live G.count self.new.table }
        ensures again { IsErrOf result KeeperRefused.Store → slot_in self.new.table channel.now ≡ None }
        ensures full { IsErrOf result KeeperRefused.Full → ⊥ }
        ensures table { ReadsOf channel.now self.old.table self.new.table }
        ensures disk { V.tells → V.disk volume.new ≡ V.disk volume.old }
        ensures answer { V.tells → (held suspense : List (List ℕ)) → StandsFor O.rests G.rests O.opens_as G.opens_as G.doubt O.holds G.holds channel.now (channel_in self.old.table channel.now) (live held suspense) (V.disk volume.old) → Counts span (length held)
            → IfOk result (λ answer. answer ≡ answer_of held span) }
        ensures stands { V.tells → (held suspense : List (List ℕ)) → StandsFor O.rests G.rests O.opens_as G.opens_as G.doubt O.holds G.holds channel.now (channel_in self.old.table channel.now) (live held suspense) (V.disk volume.old)
            → MatchResult result (λ entries. StandsFor O.rests G.rests O.opens_as G.opens_as G.doubt O.holds G.holds channel.now (channel_in self.new.table channel.now) (live held suspense) (V.disk volume.new))
            (λ refused. (next : State) × ReadRefused held suspense refused next × StandsFor O.rests G.rests O.opens_as G.opens_as G.doubt O.holds G.holds channel.now (channel_in self.new.table channel.now) next (V.disk volume.new)) }
        ensures follows { V.follows volume.old volume.new }
        ensures store { IsErrOf result KeeperRefused.Store → Rose (V.faults volume.old) (V.faults volume.new) }
        ensures kept { IsErrOf result KeeperRefused.Store ⊎ (V.faults volume.new ≡ V.faults volume.old) }
        ensures later { V.faults volume.old ≤ V.faults volume.new }
    {
        match span {
            Span::Found(first, total) => {
                match self.entries_from(alloc, volume, channel, first, total) {
                    Ok(entries) => Ok(Answer::Entries(total, entries)),
                    Err(refused) => Err(refused),
                }
            }
            Span::Unknown => Ok(Answer::Unknown),
        }
    }

    /// The entries of a loaded channel from one index to another. After `Store` the channel is loaded again by the next call.
    fn entries_from<V: Volume>(
        &mut self,
        alloc: Global,
        volume: &mut V,
        channel: &Channel,
        first: u64,
        total: u64,
    ) -> Result<Entries, KeeperRefused>
        requires loaded { (index : ℕ) → index < total → HasEntry self.old.table channel.now index }
        requires made { IsKeeper O.name O.form_of O.live O.count G.name G.form_of G.live G.count self.old.table }
        requires tie { V.tells → (held : List (List ℕ)) × (suspense : List (List ℕ)) × StandsFor O.rests G.rests O.opens_as G.opens_as G.doubt O.holds G.holds channel.now (channel_in self.old.table channel.now) (live held suspense) (V.disk volume.old) }
        ensures made { IsKeeper O.name O.form_of O.live O.count G.name G.form_of G.live G.count self.new.table }
        ensures again { IsErrOf result KeeperRefused.Store → slot_in self.new.table channel.now ≡ None }
        ensures full { IsErrOf result KeeperRefused.Full → ⊥ }
        ensures table { ReadsOf channel.now self.old.table self.new.table }
        ensures disk { V.tells → V.disk volume.new ≡ V.disk volume.old }
        ensures entries { V.tells → (held suspense : List (List ℕ)) → StandsFor O.rests G.rests O.opens_as G.opens_as G.doubt O.holds G.holds channel.now (channel_in self.old.table channel.now) (live held suspense) (V.disk volume.old) → total ≡ length held
            → IfOk result (λ entries. entries ≡ all_from first (drop first held)) }
        ensures stands { V.tells → (held suspense : List (List ℕ)) → StandsFor O.rests G.rests O.opens_as G.opens_as G.doubt O.holds G.holds channel.now (channel_in self.old.table channel.now) (live held suspense) (V.disk volume.old)
            → MatchResult result (λ entries. StandsFor O.rests G.rests O.opens_as G.opens_as G.doubt O.holds G.holds channel.now (channel_in self.new.table channel.now) (live held suspense) (V.disk volume.new))
            (λ refused. (next : State) × ReadRefused held suspense refused next × StandsFor O.rests G.rests O.opens_as G.opens_as G.doubt O.holds G.holds channel.now (channel_in self.new.table channel.now) next (V.disk volume.new)) }
        ensures follows { V.follows volume.old volume.new }
        ensures store { IsErrOf result KeeperRefused.Store → Rose (V.faults volume.old) (V.faults volume.new) }
        ensures kept { IsErrOf result KeeperRefused.Store ⊎ (V.faults volume.new ≡ V.faults volume.old) }
        ensures later { V.faults volume.old ≤ V.faults volume.new }
    {
        let mut entries = Vec::new(alloc);
        for index in first..total {
            self.add_entry(alloc, volume, channel, index, &mut entries)?;
        }
        Ok(Entries::new(entries))
    }

    /// Adds an entry of a loaded channel to others. After `Store` the channel is loaded again by the next call.
    fn add_entry<V: Volume>(
        &mut self,
        alloc: Global,
        volume: &mut V,
        channel: &Channel,
        index: u64,
        entries: &mut Vec<Entry>,
    ) -> Result<(), KeeperRefused>
        requires loaded { HasEntry self.old.table channel.now index }
        requires made { IsKeeper O.name O.form_of O.live O.count G.name G.form_of G.live G.count self.old.table }
        requires tie { V.tells → (held : List (List ℕ)) × (suspense : List (List ℕ)) × StandsFor O.rests G.rests O.opens_as G.opens_as G.doubt O.holds G.holds channel.now (channel_in self.old.table channel.now) (live held suspense) (V.disk volume.old) }
        ensures made { IsKeeper O.name O.form_of O.live O.count G.name G.form_of G.live G.count self.new.table }
        ensures again { IsErrOf result KeeperRefused.Store → slot_in self.new.table channel.now ≡ None }
        ensures full { IsErrOf result KeeperRefused.Full → ⊥ }
        ensures table { ReadsOf channel.now self.old.table self.new.table }
        ensures disk { V.tells → V.disk volume.new ≡ V.disk volume.old }
        ensures added { V.tells → (held suspense : List (List ℕ)) → StandsFor O.rests G.rests O.opens_as G.opens_as G.doubt O.holds G.holds channel.now (channel_in self.old.table channel.now) (live held suspense) (V.disk volume.old)
            → OnOk result ((payload : List ℕ) × (slice_get held index ≡ Some payload) × (entries.new.items ≡ entries.old.items ++ entry_in index payload ∷ [])) }
        ensures left { V.tells → (held suspense : List (List ℕ)) → StandsFor O.rests G.rests O.opens_as G.opens_as G.doubt O.holds G.holds channel.now (channel_in self.old.table channel.now) (live held suspense) (V.disk volume.old)
            → IfErr result (λ refused. (next : State) × ReadRefused held suspense refused next × StandsFor O.rests G.rests O.opens_as G.opens_as G.doubt O.holds G.holds channel.now (channel_in self.new.table channel.now) next (V.disk volume.new)) }
        ensures same { OnOk result (self.new ≡ self.old) }
        ensures follows { V.follows volume.old volume.new }
        ensures store { IsErrOf result KeeperRefused.Store → Rose (V.faults volume.old) (V.faults volume.new) }
        ensures kept { IsErrOf result KeeperRefused.Store ⊎ (V.faults volume.new ≡ V.faults volume.old) }
        ensures later { V.faults volume.old ≤ V.faults volume.new }
    {
        match self.entry(alloc, volume, channel, index) {
            Ok(entry) => match push_entry(entries, entry) {
                Ok(()) => Ok(()),
                Err(error) => Err(KeeperRefused::NoMemory(error)),
            },
            Err(refused) => Err(refused),
        }
    }
}
