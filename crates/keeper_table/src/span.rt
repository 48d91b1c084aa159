ghost use Rattle.std.specs.Prelude.{◌≡◌, List, ℕ};
ghost use Rattle.keeper_entry.specs.Index.{IsIndex};
ghost use Rattle.keeper_table.specs.Span.{span_in, tail_in, Counts};

use keeper_entry::Index;
use netflux_codec::Since;

/// Where a history starts, if there is one.
#[derive(Clone, Copy, Debug, PartialEq, Eq)]
pub enum Span {
    /// It starts at the entry of this index, and there are so many entries in all.
    Found(u64, u64),
    /// No entry has the key.
    Unknown,
}

/// The span of the history that is asked for. `Unknown` comes exactly if no entry has the key.
pub fn span_of(index: &Index, from: &Since) -> Span
    ensures span { (payloads : List (List ℕ)) → IsIndex index.now payloads → result ≡ span_in payloads from.now }
    ensures counts { Counts result index.now.count }
{
    match from {
        Since::Default => Span::Found(index.start(), index.count()),
        Since::All => Span::Found(0, index.count()),
        Since::Known(key) => match index.first(key) {
            Some(first) => Span::Found(first, index.count()),
            None => Span::Unknown,
        },
    }
}

/// The span of the entries from an index on: of none if there are no more than that many.
pub fn tail_of(index: &Index, at: u64) -> Span
    ensures span { (payloads : List (List ℕ)) → IsIndex index.now payloads → result ≡ tail_in payloads at }
    ensures counts { Counts result index.now.count }
{
    let total = index.count();
    Span::Found(at.min(total), total)
}
