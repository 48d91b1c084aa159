//! A keeper over a volume in memory: entries that are stored and read again, by values from outside.
ghost use Rattle.std.specs.Prelude.{◌≤◌, List, ℕ, length};
ghost use Rattle.pad_message.specs.declared.content.TheConstants.{LONGEST_CONTENT};
ghost use Rattle.keeper_table.specs.Files.{file_one, file_two};
ghost use Rattle.keeper_table.specs.Table.{channel_in};
ghost use Rattle.keeper_log.specs.Keeper.{IsKeeper};
ghost use Rattle.keeper_state.specs.State.{State, StandsFor};

use super::{Answer, Keeper};
use disk_volume::{MemVolume, Volume};
use gated_log::{Ledger, Log};
use keeper_channel::KeeperRefused;
use keeper_table::{Span, forms_share_no_file};
use netflux_codec::{Channel, Id, Since};
use std::alloc::Global;
use std::test::Fail;

/// Stores an entry of the moment 7.
fn store<O: Ledger, G: Ledger, V: Volume>(
    alloc: Global,
    keeper: &mut Keeper<O, G>,
    volume: &mut V,
    channel: &Channel,
    sender: &Id,
    content: &str,
) -> Result<u64, KeeperRefused>
    requires short { length content.now ≤ LONGEST_CONTENT }
    requires apart { (file : List ℕ) → G.owns (file_two channel.now) file → O.owns (file_one channel.now) file → ⊥ }
    requires made { IsKeeper O.name O.form_of O.live O.count G.name G.form_of G.live G.count keeper.old.table }
    requires tie { V.tells → (state : State) × StandsFor O.rests G.rests O.opens_as G.opens_as G.doubt O.holds G.holds channel.now (channel_in keeper.old.table channel.now) state (V.disk volume.old) }
    ensures made { IsKeeper O.name O.form_of O.live O.count G.name G.form_of G.live G.count keeper.new.table }
    ensures tie { V.tells → (state : State) × StandsFor O.rests G.rests O.opens_as G.opens_as G.doubt O.holds G.holds channel.now (channel_in keeper.new.table channel.now) state (V.disk volume.new) }
{
    keeper.store(alloc, volume, channel, 7, sender, content)
}

#[test]
fn what_is_stored_is_history(rt: HostRuntime) -> Result<(), Fail> {
    forms_share_no_file::<Log>();
    let alloc = rt.alloc();
    let (Some(channel), Some(sender)) = (
        Channel::from_hex("00112233445566778899aabbccddeeff"),
        Id::from_hex("0000000000000001e56a5d4028bd8653"),
    ) else {
        return Ok(());
    };
    let mut volume = MemVolume::new(alloc, Vec::new(alloc));
    let mut keeper: Keeper<Log, Log> = Keeper::new(alloc);
    let first = store(alloc, &mut keeper, &mut volume, &channel, &sender, "a");
    let second = store(alloc, &mut keeper, &mut volume, &channel, &sender, "cp|b");
    assert!(rt; matches!((first, second), (Ok(0), Ok(1))));
    match keeper.history(alloc, &mut volume, &channel, &Since::All) {
        Ok(Answer::Entries(total, entries)) => {
            assert_eq!(rt; total, 2);
            let mut contents = Vec::new(alloc);
            for entry in entries.as_slice() {
                contents.push(entry.content.as_str())?;
            }
            assert_eq!(rt; contents.as_slice(), ["a", "cp|b"].as_slice());
        }
        _ => assert!(rt; false),
    }
    let calls = volume.calls();
    match keeper.tail(alloc, &mut volume, &channel, 1) {
        Ok(tail) => assert_eq!(rt; tail, Span::Found(1, 2)),
        Err(_) => assert!(rt; false),
    }
    match keeper.span(alloc, &mut volume, &channel, &Since::Default) {
        Ok(span) => assert_eq!(rt; span, Span::Found(0, 2)),
        Err(_) => assert!(rt; false),
    }
    match keeper.count(alloc, &mut volume, &channel) {
        Ok(count) => assert_eq!(rt; count, 2),
        Err(_) => assert!(rt; false),
    }
    assert_eq!(rt; volume.calls(), calls);
    Ok(())
}
