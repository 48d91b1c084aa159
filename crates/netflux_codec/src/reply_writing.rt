//! The arrays that spell replies.
ghost use Rattle.std.specs.Prelude.{◌≡◌, ◌≤◌, IfOk};
ghost use Rattle.serde_json.specs.View.{view};
ghost use Rattle.pad_json.specs.Data.{array_of};
ghost use Rattle.netflux_codec.specs.declared.reply.Reply.{Reply};
ghost use Rattle.netflux_codec.specs.declared.reply.TheConstants.{MOST_ENTRIES};
ghost use Rattle.netflux_codec.specs.Reply.{IsReply, reply_elements};

use crate::digits::{Channel, Id, KeeperId};
use crate::who::Who;
use crate::word::Word;
use pad_edge::Wire;
use pad_json::name_value;
use pad_text::Name;
use serde_json::{Value, json};
use std::alloc::{AllocError, Global};

/// `[0,who,"JOIN",chan]`
pub(crate) fn member_value(alloc: Global, who: &Who, channel: &Channel) -> Result<Value, AllocError>
    ensures value { IfOk result (λ value. view value ≡ array_of (reply_elements (Reply.Member who.now channel.now))) }
    ensures typed { IfOk result (λ _. IsReply (Reply.Member who.now channel.now)) }
{
    json!(in alloc; [0, who.as_str(), "JOIN", channel.as_str()])
}

/// `[0,id,"LEAVE",chan,reason]`
pub(crate) fn gone_value(
    alloc: Global,
    id: &Id,
    channel: &Channel,
    reason: &Wire,
) -> Result<Value, AllocError>
    ensures value { IfOk result (λ value. view value ≡ array_of (reply_elements (Reply.Gone id.now channel.now reason.now))) }
    ensures typed { IfOk result (λ _. IsReply (Reply.Gone id.now channel.now reason.now)) }
{
    json!(in alloc; [0, id.as_str(), "LEAVE", channel.as_str(), reason.as_str()])
}

/// `[0,id,"MSG",target,content]`
pub(crate) fn msg_value(
    alloc: Global,
    id: &Id,
    target: &Wire,
    content: &Wire,
) -> Result<Value, AllocError>
    ensures value { IfOk result (λ value. view value ≡ array_of (reply_elements (Reply.Msg id.now target.now content.now))) }
    ensures typed { IfOk result (λ _. IsReply (Reply.Msg id.now target.now content.now)) }
{
    json!(in alloc; [0, id.as_str(), "MSG", target.as_str(), content.as_str()])
}

/// `[seq,"ERROR",word,about]`
pub(crate) fn error_value(
    alloc: Global,
    seq: u32,
    word: Word,
    about: &Wire,
) -> Result<Value, AllocError>
    ensures value { IfOk result (λ value. view value ≡ array_of (reply_elements (Reply.Error seq word about.now))) }
    ensures typed { IfOk result (λ _. IsReply (Reply.Error seq word about.now)) }
{
    json!(in alloc; [seq, "ERROR", word.as_str(), about.as_str()])
}

/// `[0,keeper,"HISTORY",chan,index,id,content]`
pub(crate) fn history_value(
    alloc: Global,
    keeper: &KeeperId,
    channel: &Channel,
    index: u32,
    sender: &Id,
    content: &Wire,
) -> Result<Value, AllocError>
    requires { index ≤ MOST_ENTRIES }
    ensures value { IfOk result (λ value. view value ≡ array_of (reply_elements (Reply.History keeper.now channel.now index sender.now content.now))) }
    ensures typed { IfOk result (λ _. IsReply (Reply.History keeper.now channel.now index sender.now content.now)) }
{
    json!(in alloc; [0, keeper.as_str(), "HISTORY", channel.as_str(), index, sender.as_str(), content.as_str()])
}

/// `[0,keeper,"ENTRY",chan,index,moment,id,content]`
pub(crate) fn entry_value(
    alloc: Global,
    keeper: &KeeperId,
    channel: &Channel,
    index: u32,
    moment: u64,
    sender: &Id,
    content: &Wire,
) -> Result<Value, AllocError>
    requires { index ≤ MOST_ENTRIES }
    ensures value { IfOk result (λ value. view value ≡ array_of (reply_elements (Reply.Entry keeper.now channel.now index moment sender.now content.now))) }
    ensures typed { IfOk result (λ _. IsReply (Reply.Entry keeper.now channel.now index moment sender.now content.now)) }
{
    json!(in alloc; [0, keeper.as_str(), "ENTRY", channel.as_str(), index, moment, sender.as_str(), content.as_str()])
}

/// `[0,keeper,"HISTORY_END",chan,total]`
pub(crate) fn history_end_value(
    alloc: Global,
    keeper: &KeeperId,
    channel: &Channel,
    total: u32,
) -> Result<Value, AllocError>
    requires { total ≤ MOST_ENTRIES }
    ensures value { IfOk result (λ value. view value ≡ array_of (reply_elements (Reply.HistoryEnd keeper.now channel.now total))) }
    ensures typed { IfOk result (λ _. IsReply (Reply.HistoryEnd keeper.now channel.now total)) }
{
    json!(in alloc; [0, keeper.as_str(), "HISTORY_END", channel.as_str(), total])
}

/// `[0,keeper,"HISTORY_UNKNOWN",chan,name]`
pub(crate) fn history_unknown_value(
    alloc: Global,
    keeper: &KeeperId,
    channel: &Channel,
    key: &Name,
) -> Result<Value, AllocError>
    ensures value { IfOk result (λ value. view value ≡ array_of (reply_elements (Reply.HistoryUnknown keeper.now channel.now key.now))) }
    ensures typed { IfOk result (λ _. IsReply (Reply.HistoryUnknown keeper.now channel.now key.now)) }
{
    let key = name_value(alloc, key)?;
    json!(in alloc; [0, keeper.as_str(), "HISTORY_UNKNOWN", channel.as_str(), key])
}
