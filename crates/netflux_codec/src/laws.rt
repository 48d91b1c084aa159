//! Laws of the definitions: each contract is the law, and there is nothing to do.
ghost use Rattle.netflux_codec.specs.Ask.{AskTextsSpell, TextsSpellOneAsk};
ghost use Rattle.netflux_codec.specs.Reply.{ReplyTextsSpell, TextsSpellOneReply};
ghost use Rattle.netflux_codec.specs.Request.{RequestTextsSpell, TextsSpellOneRequest};

/// A text spells at most one request.
#[tactic(auto, using(crate::proofs::Spelled::one_request))]
pub fn texts_spell_one_request()
    ensures { TextsSpellOneRequest }
{}

/// What is written for a request spells it.
#[tactic(auto, using(crate::proofs::Spelled::request_spelled))]
pub fn request_texts_spell()
    ensures { RequestTextsSpell }
{}

/// A text spells at most one reply.
#[tactic(auto, using(crate::proofs::Spelled::one_reply))]
pub fn texts_spell_one_reply()
    ensures { TextsSpellOneReply }
{}

/// What is written for a reply spells it.
#[tactic(auto, using(crate::proofs::Spelled::reply_spelled))]
pub fn reply_texts_spell()
    ensures { ReplyTextsSpell }
{}

/// A content spells at most one question.
#[tactic(auto, using(crate::proofs::Spelled::one_ask))]
pub fn texts_spell_one_ask()
    ensures { TextsSpellOneAsk }
{}

/// What is written for a question spells it.
#[tactic(auto, using(crate::proofs::Spelled::ask_spelled))]
pub fn ask_texts_spell()
    ensures { AskTextsSpell }
{}
