//! Laws of the definitions: each contract is the law, and there is nothing to do.
ghost use Rattle.pad_script.specs.Act.{LinesSayOneAct};
ghost use Rattle.pad_script.specs.SessionAct.{LinesSayOneSessionAct};
ghost use Rattle.pad_script.specs.Requests.{RequestsAreBounded};

/// A line of a client script says at most one thing.
#[tactic(auto, using(crate::proofs::OneMeaning::one_act))]
pub fn lines_say_one_act()
    ensures { LinesSayOneAct }
{}

/// A line of a session script says at most one thing.
#[tactic(auto, using(crate::proofs::OneMeaning::one_session_act))]
pub fn lines_say_one_session_act()
    ensures { LinesSayOneSessionAct }
{}

/// Scripts of at most 2^28 bytes make fewer requests than a client may.
pub fn requests_are_bounded()
    ensures { RequestsAreBounded }
{}
