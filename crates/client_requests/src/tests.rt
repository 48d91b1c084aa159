//! A client's requests over its life.
use super::{Asked, ClientRefused, Requests};
use client_outbox::MOST_UNACKNOWLEDGED;
use netflux_codec::{Channel, Id, KeeperId, Since};
use pad_message::Message;
use std::alloc::{AllocError, Global};
use std::process::Abort;
use std::test::Fail;

/// A channel.
const CHANNEL: &str = "00112233445566778899aabbccddeeff";

/// The client's identity.
const ID: &str = "0000000000000001e56a5d4028bd8653";

/// The keeper of the channel.
const KEEPER: &str = "ade0b876903df1a0";

/// Inserts `hi` into the empty text of the base.
const HI: &str =
    "[2,[[0,0,\"hi\"],\"e3b0c44298fc1c149afbf4c8996fb92427ae41e4649b934ca495991b7852b855\"],\"0000000000000000000000000000000000000000000000000000000000000000\"]";

/// What is called, or heard.
#[derive(Clone, Copy)]
enum Step {
    Join,
    Leave,
    Ask,
    Repair,
    Send,
    Resend,
    Lost,
    Id,
    Keeper,
    Member,
    Ack(u32),
    Error(u32),
    Entry,
    End,
}

/// Those that are spoken of.
#[derive(Clone, Copy)]
struct Names {
    channel: Channel,
    id: Id,
    keeper: KeeperId,
}

fn known_names(rt: &impl Abort) -> Names {
    Names {
        channel: Channel::from_hex(CHANNEL).expect(rt, "32 digits"),
        id: Id::from_hex(ID).expect(rt, "32 digits"),
        keeper: KeeperId::from_hex(KEEPER).expect(rt, "16 digits"),
    }
}

/// The word for how a call went.
fn word<T: Drop>(called: Result<T, ClientRefused>) -> &'static str {
    match called {
        Ok(_) => "sent ",
        Err(ClientRefused::Repairing) => "Repairing ",
        Err(ClientRefused::NotJoined) => "NotJoined ",
        Err(ClientRefused::Joined) => "Joined ",
        Err(ClientRefused::OtherChannel) => "OtherChannel ",
        Err(ClientRefused::NoKeeper) => "NoKeeper ",
        Err(ClientRefused::Asking) => "Asking ",
        Err(ClientRefused::NoMemory(_)) => "NoMemory ",
    }
}

/// Sends `hi`, if there is room.
fn send(alloc: Global, requests: &mut Requests) -> Result<&'static str, AllocError> {
    let Ok(message) = Message::read(alloc, HI) else {
        return Ok("unread ");
    };
    let channel = match requests.open_channel() {
        Ok(channel) => channel,
        Err(refused) => return Ok(word::<()>(Err(refused))),
    };
    let name = message.name(alloc)?;
    if requests.last() >= 1000 || requests.outbox().len() >= MOST_UNACKNOWLEDGED {
        return Ok("full ");
    }
    let _text = requests.send(alloc, &channel, name, message)?;
    Ok("sent ")
}

/// Starts a repair.
fn repair(alloc: Global, requests: &mut Requests) -> &'static str {
    if requests.last() >= 1000 {
        return "full ";
    }
    let asked = requests.question(alloc, Since::All);
    if asked.is_ok() {
        requests.begin_repair();
    }
    word(asked)
}

/// Calls what sends requests.
fn call(
    alloc: Global,
    requests: &mut Requests,
    names: Names,
    step: Step,
) -> Result<&'static str, AllocError> {
    if requests.last() >= 1000 {
        return Ok("full ");
    }
    Ok(match step {
        Step::Join => word(requests.join(alloc, names.channel)),
        Step::Leave => word(requests.leave(alloc)),
        Step::Ask => word(requests.ask(alloc, Since::Default)),
        Step::Repair => repair(alloc, requests),
        Step::Resend => word(requests.resend(alloc)),
        _ => send(alloc, requests)?,
    })
}

/// The word for an answer.
fn told(answer: bool) -> &'static str {
    if answer { "yes " } else { "no " }
}

/// Does a step, and tells how it went.
fn does(
    alloc: Global,
    requests: &mut Requests,
    names: Names,
    step: Step,
) -> Result<&'static str, AllocError> {
    match step {
        Step::Lost => requests.lost(),
        Step::Id => requests.hear_id(names.id),
        Step::Keeper => requests.hear_keeper(names.keeper, &names.channel),
        Step::Member => return Ok(told(requests.hear_member(&names.id, names.channel))),
        Step::Ack(number) => return Ok(told(requests.hear_ack(number))),
        Step::Error(number) => requests.forget(number),
        Step::Entry => requests.hear_entry(),
        Step::End => requests.end(),
        _ => return call(alloc, requests, names, step),
    }
    Ok("")
}

#[test]
fn requests_are_made_and_answered(rt: HostRuntime) -> Result<(), Fail> {
    let alloc = rt.alloc();
    let names = known_names(&rt);
    let table: [(&[Step], &str); 4] = [
        (
            &[
                Step::Ask,
                Step::Join,
                Step::Join,
                Step::Member,
                Step::Id,
                Step::Member,
                Step::Ask,
            ],
            "NotJoined sent Joined no yes NoKeeper ",
        ),
        (
            &[
                Step::Id,
                Step::Join,
                Step::Keeper,
                Step::Member,
                Step::Ask,
                Step::Entry,
                Step::Ask,
                Step::End,
                Step::Repair,
                Step::Leave,
                Step::Error(3),
                Step::Leave,
                Step::Ack(4),
            ],
            "sent yes sent Asking sent Repairing sent yes ",
        ),
        (
            &[
                Step::Id,
                Step::Join,
                Step::Member,
                Step::Send,
                Step::Ack(3),
                Step::Ack(2),
                Step::Ack(2),
                Step::Leave,
                Step::Ack(3),
                Step::Leave,
            ],
            "sent yes sent no yes no sent yes NotJoined ",
        ),
        (
            &[
                Step::Id,
                Step::Join,
                Step::Member,
                Step::Send,
                Step::Lost,
                Step::Resend,
                Step::Id,
                Step::Join,
                Step::Member,
                Step::Resend,
                Step::Ack(2),
                Step::Ack(4),
            ],
            "sent yes sent NotJoined sent yes sent no yes ",
        ),
    ];
    for (steps, wanted) in table {
        let mut requests = Requests::new(alloc);
        let mut line = String::new(alloc);
        for step in steps {
            line.push_str(does(alloc, &mut requests, names, *step)?)?;
        }
        assert_eq!(rt; line.as_str(), wanted);
        assert!(rt; !requests.awaits() && requests.asked() == Asked::Nothing);
    }
    Ok(())
}
