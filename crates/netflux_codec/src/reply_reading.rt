//! Replies from the elements of their arrays.
ghost use Rattle.std.specs.Prelude.{◌≡◌, ◌≢◌, ℕ, List, map, IfErr, IfNone, IfOk, IfSome, MatchOption};
ghost use Rattle.serde_json.specs.View.{view};
ghost use Rattle.pad_text.specs.declared.name.Name.{Name};
ghost use Rattle.netflux_codec.specs.declared.reply.Reply.{Reply};
ghost use Rattle.netflux_codec.specs.declared.who.Who.{Who};
ghost use Rattle.netflux_codec.specs.declared.word.Word.{Word};
ghost use Rattle.netflux_codec.specs.Reply.{HasSmallCounts, IsReply, Replies, reply_elements};

use crate::fields::{
    channel_from, count_from, id_from, is_string, is_zero, keeper_from, moment_from, who_from,
    wire_from, word_from,
};
use crate::reply::Reply;
use crate::reply_refused::ReplyRefused;
use pad_json::{name_from, number_from, read_array};
use serde_json::Value;
use std::alloc::{AllocError, Global};

/// The reply that a text spells. It can be written again.
#[tactic(auto, using(crate::proofs::Spelled::small_counts))]
pub fn read_reply(alloc: Global, text: &str) -> Result<Reply, ReplyRefused>
    ensures ok { IfOk result (λ reply. Replies text.now reply) }
    ensures small { IfOk result (λ reply. HasSmallCounts reply) }
    ensures strange { IfErr result (λ refused. refused ≡ ReplyRefused.Strange
        → (reply : Reply) → ¬ (Replies text.now reply)) }
{
    let Some(elements) = read_array(alloc, text)? else {
        return Err(ReplyRefused::Strange);
    };
    match reply_from(alloc, elements.as_slice())? {
        Some(reply) => Ok(reply),
        None => Err(ReplyRefused::Strange),
    }
}

/// The reply of these elements.
fn reply_from(alloc: Global, elements: &[Value]) -> Result<Option<Reply>, AllocError>
    ensures { IfOk result (λ found. MatchOption found
        ((reply : Reply) → IsReply reply → map view elements.now ≢ reply_elements reply)
        (λ reply. (map view elements.now ≡ reply_elements reply) × IsReply reply)) }
{
    if let Some(reply) = ident_from(elements) {
        return Ok(Some(reply));
    }
    if let Some(reply) = joined_from(elements) {
        return Ok(Some(reply));
    }
    if let Some(reply) = member_from(elements) {
        return Ok(Some(reply));
    }
    if let Some(reply) = gone_from(alloc, elements)? {
        return Ok(Some(reply));
    }
    if let Some(reply) = msg_from(alloc, elements)? {
        return Ok(Some(reply));
    }
    if let Some(reply) = ack_from(elements) {
        return Ok(Some(reply));
    }
    if let Some(reply) = error_from(alloc, elements)? {
        return Ok(Some(reply));
    }
    if let Some(reply) = history_from(alloc, elements)? {
        return Ok(Some(reply));
    }
    if let Some(reply) = entry_from(alloc, elements)? {
        return Ok(Some(reply));
    }
    if let Some(reply) = history_end_from(elements) {
        return Ok(Some(reply));
    }
    if let Some(reply) = history_unknown_from(elements) {
        return Ok(Some(reply));
    }
    Ok(None)
}

/// `[0,"","IDENT",id]`
fn ident_from(elements: &[Value]) -> Option<Reply>
    ensures some { IfSome result (λ reply. (map view elements.now ≡ reply_elements reply) × IsReply reply) }
    ensures none { IfNone result ((id : List ℕ) → IsReply (Reply.Ident id)
        → map view elements.now ≢ reply_elements (Reply.Ident id)) }
{
    let [zero, empty, word, id] = elements else {
        return None;
    };
    if !is_zero(zero) || !is_string(empty, "") || !is_string(word, "IDENT") {
        return None;
    }
    match id_from(id) {
        Some(id) => Some(Reply::Ident(id)),
        None => None,
    }
}

/// `[seq,"JACK",chan]`
fn joined_from(elements: &[Value]) -> Option<Reply>
    ensures some { IfSome result (λ reply. (map view elements.now ≡ reply_elements reply) × IsReply reply) }
    ensures none { IfNone result ((seq : ℕ) (channel : List ℕ) → IsReply (Reply.Joined seq channel)
        → map view elements.now ≢ reply_elements (Reply.Joined seq channel)) }
{
    let [seq, word, channel] = elements else {
        return None;
    };
    if !is_string(word, "JACK") {
        return None;
    }
    match (number_from(seq), channel_from(channel)) {
        (Some(seq), Some(channel)) => Some(Reply::Joined(seq, channel)),
        _ => None,
    }
}

/// `[0,who,"JOIN",chan]`
fn member_from(elements: &[Value]) -> Option<Reply>
    ensures some { IfSome result (λ reply. (map view elements.now ≡ reply_elements reply) × IsReply reply) }
    ensures none { IfNone result ((who : Who) (channel : List ℕ) → IsReply (Reply.Member who channel)
        → map view elements.now ≢ reply_elements (Reply.Member who channel)) }
{
    let [zero, who, word, channel] = elements else {
        return None;
    };
    if !is_zero(zero) || !is_string(word, "JOIN") {
        return None;
    }
    match (who_from(who), channel_from(channel)) {
        (Some(who), Some(channel)) => Some(Reply::Member(who, channel)),
        _ => None,
    }
}

/// `[0,id,"LEAVE",chan,reason]`
fn gone_from(alloc: Global, elements: &[Value]) -> Result<Option<Reply>, AllocError>
    ensures { IfOk result (λ found. MatchOption found
        ((id channel reason : List ℕ) → IsReply (Reply.Gone id channel reason)
        → map view elements.now ≢ reply_elements (Reply.Gone id channel reason))
        (λ reply. (map view elements.now ≡ reply_elements reply) × IsReply reply)) }
{
    let [zero, id, word, channel, reason] = elements else {
        return Ok(None);
    };
    if !is_zero(zero) || !is_string(word, "LEAVE") {
        return Ok(None);
    }
    match (
        id_from(id),
        channel_from(channel),
        wire_from(alloc, reason)?,
    ) {
        (Some(id), Some(channel), Some(reason)) => Ok(Some(Reply::Gone(id, channel, reason))),
        _ => Ok(None),
    }
}

/// `[0,id,"MSG",target,content]`
fn msg_from(alloc: Global, elements: &[Value]) -> Result<Option<Reply>, AllocError>
    ensures { IfOk result (λ found. MatchOption found
        ((id target content : List ℕ) → IsReply (Reply.Msg id target content)
        → map view elements.now ≢ reply_elements (Reply.Msg id target content))
        (λ reply. (map view elements.now ≡ reply_elements reply) × IsReply reply)) }
{
    let [zero, id, word, target, content] = elements else {
        return Ok(None);
    };
    if !is_zero(zero) || !is_string(word, "MSG") {
        return Ok(None);
    }
    match (
        id_from(id),
        wire_from(alloc, target)?,
        wire_from(alloc, content)?,
    ) {
        (Some(id), Some(target), Some(content)) => Ok(Some(Reply::Msg(id, target, content))),
        _ => Ok(None),
    }
}

/// `[seq,"ACK"]`
fn ack_from(elements: &[Value]) -> Option<Reply>
    ensures some { IfSome result (λ reply. (map view elements.now ≡ reply_elements reply) × IsReply reply) }
    ensures none { IfNone result ((seq : ℕ) → IsReply (Reply.Ack seq)
        → map view elements.now ≢ reply_elements (Reply.Ack seq)) }
{
    let [seq, word] = elements else {
        return None;
    };
    if !is_string(word, "ACK") {
        return None;
    }
    match number_from(seq) {
        Some(seq) => Some(Reply::Ack(seq)),
        None => None,
    }
}

/// `[seq,"ERROR",word,about]`
fn error_from(alloc: Global, elements: &[Value]) -> Result<Option<Reply>, AllocError>
    ensures { IfOk result (λ found. MatchOption found
        ((seq : ℕ) (word : Word) (about : List ℕ) → IsReply (Reply.Error seq word about)
        → map view elements.now ≢ reply_elements (Reply.Error seq word about))
        (λ reply. (map view elements.now ≡ reply_elements reply) × IsReply reply)) }
{
    let [seq, kind, word, about] = elements else {
        return Ok(None);
    };
    if !is_string(kind, "ERROR") {
        return Ok(None);
    }
    match (number_from(seq), word_from(word), wire_from(alloc, about)?) {
        (Some(seq), Some(word), Some(about)) => Ok(Some(Reply::Error(seq, word, about))),
        _ => Ok(None),
    }
}

/// `[0,keeper,"HISTORY",chan,index,id,content]`
fn history_from(alloc: Global, elements: &[Value]) -> Result<Option<Reply>, AllocError>
    ensures { IfOk result (λ found. MatchOption found
        ((keeper channel : List ℕ) (index : ℕ) (sender content : List ℕ)
        → IsReply (Reply.History keeper channel index sender content)
        → map view elements.now ≢ reply_elements (Reply.History keeper channel index sender content))
        (λ reply. (map view elements.now ≡ reply_elements reply) × IsReply reply)) }
{
    let [zero, keeper, word, channel, index, sender, content] = elements else {
        return Ok(None);
    };
    if !is_zero(zero) || !is_string(word, "HISTORY") {
        return Ok(None);
    }
    let (Some(keeper), Some(channel), Some(index), Some(sender)) = (
        keeper_from(keeper),
        channel_from(channel),
        count_from(index),
        id_from(sender),
    ) else {
        return Ok(None);
    };
    let Some(content) = wire_from(alloc, content)? else {
        return Ok(None);
    };
    Ok(Some(Reply::History(keeper, channel, index, sender, content)))
}

/// `[0,keeper,"ENTRY",chan,index,moment,id,content]`
fn entry_from(alloc: Global, elements: &[Value]) -> Result<Option<Reply>, AllocError>
    ensures { IfOk result (λ found. MatchOption found
        ((keeper channel : List ℕ) (index moment : ℕ) (sender content : List ℕ)
        → IsReply (Reply.Entry keeper channel index moment sender content)
        → map view elements.now ≢ reply_elements (Reply.Entry keeper channel index moment sender content))
        (λ reply. (map view elements.now ≡ reply_elements reply) × IsReply reply)) }
{
    let [zero, keeper, word, channel, index, moment, sender, content] = elements else {
        return Ok(None);
    };
    if !is_zero(zero) || !is_string(word, "ENTRY") {
        return Ok(None);
    }
    let (Some(keeper), Some(channel), Some(index), Some(moment), Some(sender)) = (
        keeper_from(keeper),
        channel_from(channel),
        count_from(index),
        moment_from(moment),
        id_from(sender),
    ) else {
        return Ok(None);
    };
    let Some(content) = wire_from(alloc, content)? else {
        return Ok(None);
    };
    Ok(Some(Reply::Entry(keeper, channel, index, moment, sender, content)))
}

/// `[0,keeper,"HISTORY_END",chan,total]`
fn history_end_from(elements: &[Value]) -> Option<Reply>
    ensures some { IfSome result (λ reply. (map view elements.now ≡ reply_elements reply) × IsReply reply) }
    ensures none { IfNone result ((keeper channel : List ℕ) (total : ℕ) → IsReply (Reply.HistoryEnd keeper channel total)
        → map view elements.now ≢ reply_elements (Reply.HistoryEnd keeper channel total)) }
{
    let [zero, keeper, word, channel, total] = elements else {
        return None;
    };
    if !is_zero(zero) || !is_string(word, "HISTORY_END") {
        return None;
    }
    match (
        keeper_from(keeper),
        channel_from(channel),
        count_from(total),
    ) {
        (Some(keeper), Some(channel), Some(total)) => Some(Reply::HistoryEnd(
            keeper, channel, total,
        )),
        _ => None,
    }
}

/// `[0,keeper,"HISTORY_UNKNOWN",chan,name]`
fn history_unknown_from(elements: &[Value]) -> Option<Reply>
    ensures some { IfSome result (λ reply. (map view elements.now ≡ reply_elements reply) × IsReply reply) }
    ensures none { IfNone result ((keeper channel : List ℕ) (key : Name) → IsReply (Reply.HistoryUnknown keeper channel key)
        → map view elements.now ≢ reply_elements (Reply.HistoryUnknown keeper channel key)) }
{
    let [zero, keeper, word, channel, key] = elements else {
        return None;
    };
    if !is_zero(zero) || !is_string(word, "HISTORY_UNKNOWN") {
        return None;
    }
    match (keeper_from(keeper), channel_from(channel), name_from(key)) {
        (Some(keeper), Some(channel), Some(key)) => Some(Reply::HistoryUnknown(
            keeper, channel, key,
        )),
        _ => None,
    }
}
