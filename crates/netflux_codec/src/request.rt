ghost use Rattle.std.specs.Prelude.{◌≡◌, IfOk};
ghost use Rattle.serde_json.specs.View.{view};
ghost use Rattle.pad_json.specs.Data.{array_of};

use crate::body::Body;
use pad_edge::Wire;
use serde_json::{Value, json};
use std::alloc::{AllocError, Global};

/// What a client says to the hub.
#[derive(Debug, Drop)]
pub struct Request {
    /// The number that the answer will have.
    pub seq: u32,
    /// What is asked.
    pub body: Body,
}

impl Request {
    ghost use Rattle.netflux_codec.specs.Request.{IsRequest, Requests, body_written, request_text};

    /// The compact text of the request. A leave with the empty reason has the short form.
    #[tactic(auto, using(crate::proofs::Spelled::request_spelled), unfolding(crate::specs::Request::request_text))]
    pub fn text(&self, alloc: Global) -> Result<Wire, AllocError>
        ensures written { IfOk result (λ wire. wire ≡ request_text self.now) }
        ensures reads { IfOk result (λ wire. Requests wire self.now) }
    {
        let value = self.value(alloc)?;
        Ok(Wire::new(value.to_string(alloc)?))
    }

    /// The value that the text spells.
    fn value(&self, alloc: Global) -> Result<Value, AllocError>
        ensures value { IfOk result (λ value. view value ≡ array_of (body_written self.now.seq self.now.body)) }
        ensures typed { IfOk result (λ _. IsRequest self.now) }
    {
        match &self.body {
            Body::Join(channel) => json!(in alloc; [self.seq, "JOIN", channel.as_str()]),
            Body::Leave(channel, reason) if reason.as_str().is_empty() => {
                json!(in alloc; [self.seq, "LEAVE", channel.as_str()])
            }
            Body::Leave(channel, reason) => {
                json!(in alloc; [self.seq, "LEAVE", channel.as_str(), reason.as_str()])
            }
            Body::Msg(target, content) => {
                json!(in alloc; [self.seq, "MSG", target.as_str(), content.as_str()])
            }
            Body::Ping => json!(in alloc; [self.seq, "PING"]),
        }
    }
}
