//! Texts that a client sends, by values from outside, and an outbox over its life.
use super::{MOST_UNACKNOWLEDGED, Outbox, history_text, join_text, leave_text, message_text};
use netflux_codec::{Channel, KeeperId, Since};
use pad_edge::Wire;
use pad_message::Message;
use pad_text::Name;
use std::alloc::{AllocError, Global};
use std::process::Abort;
use std::test::Fail;

/// A channel.
const CHANNEL: &str = "00112233445566778899aabbccddeeff";

/// Its keeper.
const KEEPER: &str = "ade0b876903df1a0";

/// Inserts `hi` into the empty text of the base.
const HI: &str =
    "[2,[[0,0,\"hi\"],\"e3b0c44298fc1c149afbf4c8996fb92427ae41e4649b934ca495991b7852b855\"],\"0000000000000000000000000000000000000000000000000000000000000000\"]";

/// The checkpoint of the empty text of the base.
const EMPTY: &str =
    "[4,[[0,0,\"\"],\"e3b0c44298fc1c149afbf4c8996fb92427ae41e4649b934ca495991b7852b855\"],\"0000000000000000000000000000000000000000000000000000000000000000\"]";

/// The requests that send these two.
const SENT: [&str; 2] = [
    "[2,\"MSG\",\"00112233445566778899aabbccddeeff\",\"[2,[[0,0,\\\"hi\\\"],\\\"e3b0c44298fc1c149afbf4c8996fb92427ae41e4649b934ca495991b7852b855\\\"],\\\"0000000000000000000000000000000000000000000000000000000000000000\\\"]\"]",
    "[3,\"MSG\",\"00112233445566778899aabbccddeeff\",\"cp|[4,[[0,0,\\\"\\\"],\\\"e3b0c44298fc1c149afbf4c8996fb92427ae41e4649b934ca495991b7852b855\\\"],\\\"0000000000000000000000000000000000000000000000000000000000000000\\\"]\"]",
];

fn channel(rt: &impl Abort) -> Channel {
    Channel::from_hex(CHANNEL).expect(rt, "32 digits")
}

/// Adds the message of a content, if there is room, and answers the request that sends it and its name.
fn add(
    alloc: Global,
    outbox: &mut Outbox,
    channel: &Channel,
    content: &str,
    number: u32,
) -> Result<(Wire, Name), AllocError> {
    let Ok(message) = Message::read(alloc, content) else {
        return Err(AllocError);
    };
    let text = message_text(alloc, number, channel, &message)?;
    let name = message.name(alloc)?;
    if outbox.len() < MOST_UNACKNOWLEDGED {
        outbox.add(name, message, number)?;
    }
    Ok((text, name))
}

#[test]
fn requests_are_written(rt: HostRuntime) -> Result<(), Fail> {
    let alloc = rt.alloc();
    let channel = channel(&rt);
    let keeper = KeeperId::from_hex(KEEPER).expect(&rt, "16 digits");
    assert_eq!(rt;
        join_text(alloc, 1, channel)?.as_str(),
        "[1,\"JOIN\",\"00112233445566778899aabbccddeeff\"]"
    );
    assert_eq!(rt;
        leave_text(alloc, 7, channel)?.as_str(),
        "[7,\"LEAVE\",\"00112233445566778899aabbccddeeff\"]"
    );
    assert_eq!(rt;
        history_text(alloc, 8, &keeper, channel, Since::Default)?.as_str(),
        "[8,\"MSG\",\"ade0b876903df1a0\",\"[\\\"GET_HISTORY\\\",\\\"00112233445566778899aabbccddeeff\\\"]\"]"
    );
    assert_eq!(rt;
        history_text(alloc, 9, &keeper, channel, Since::All)?.as_str(),
        "[9,\"MSG\",\"ade0b876903df1a0\",\"[\\\"GET_FULL_HISTORY\\\",\\\"00112233445566778899aabbccddeeff\\\"]\"]"
    );
    Ok(())
}

#[test]
fn messages_wait_for_their_acknowledgement(rt: HostRuntime) -> Result<(), Fail> {
    let alloc = rt.alloc();
    let channel = channel(&rt);
    let mut outbox = Outbox::new(alloc);
    let (first, name) = add(alloc, &mut outbox, &channel, HI, 2)?;
    let (second, _) = add(alloc, &mut outbox, &channel, EMPTY, 3)?;
    assert_eq!(rt; [first.as_str(), second.as_str()], SENT);
    assert!(rt; outbox.awaits() && outbox.is_awaited(3) && !outbox.is_awaited(4));
    outbox.forget_under(3);
    assert!(rt; outbox.awaits() && !outbox.is_awaited(3));
    outbox.forget_all();
    assert!(rt; !outbox.awaits());
    let mut last = 1;
    let count = outbox.len();
    assert_eq!(rt; count, 2);
    let texts = outbox.texts_again(alloc, &channel, last)?;
    outbox.number_again(&mut last);
    assert!(rt; last == 3 && outbox.is_awaited(2) && outbox.is_awaited(3));
    for (text, wanted) in texts.iter().zip(SENT) {
        assert_eq!(rt; text.as_str(), wanted);
    }
    outbox.let_go_named(&name);
    assert!(rt; outbox.len() == 1 && !outbox.is_awaited(2));
    outbox.let_go_under(3);
    assert!(rt; outbox.as_slice().is_empty());
    Ok(())
}
