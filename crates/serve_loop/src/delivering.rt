ghost use Rattle.std.specs.Prelude.{◌≡◌, List, ℕ, [], ◌∷◌, ◌++◌, false, OnOk, OnErr, IfErr};
ghost use Rattle.serve_loop.specs.Connected.{is_among};
ghost use Rattle.serve_loop.specs.Hangs.{HangsBehind};
ghost use Rattle.serve_loop.specs.Inside.Load.{KeepsLoad};
ghost use Rattle.serve_loop.specs.Inside.MayHang.{MayDo, MayHang, texted_by};
ghost use Rattle.serve_loop.specs.Inside.Taken.{IsDelivered, IsCut};
ghost use Rattle.serve_loop.specs.declared.out.Out.TheVariants.{Send};

use crate::out::Out;
use pad_edge::{LinkRefused, Port};

/// Carries out one output. A connection whose send fails is hung up, and waits for its closing from then on.
fn deliver_one<P: Port>(port: &mut P, out: &Out, waiting: &mut Vec<u64>) -> Result<(), LinkRefused>
    requires { MayDo out.now waiting.old.items (P.spare port.old) }
    ensures delivered { OnOk result (IsDelivered P.tells waiting.old.items waiting.new.items (out.now ∷ []) (P.sent port.old) (P.sent port.new) (P.failed port.old) (P.failed port.new)) }
    ensures same { P.tells → OnErr result ((P.sent port.new ≡ P.sent port.old) × (P.failed port.new ≡ P.failed port.old)) }
    ensures events { P.tells → P.events port.new ≡ P.events port.old }
    ensures counts { (P.faults port.new ≡ P.faults port.old) × (P.ends port.new ≡ P.ends port.old) }
    ensures may_hang { OnOk result (MayHang (texted_by out.now) waiting.new.items (P.spare port.new)) }
    ensures load { OnOk result (KeepsLoad (out.now ∷ []) waiting.old.items waiting.new.items) }
    ensures refused { IfErr result (λ refused. refused ≡ LinkRefused.NoMemory) }
{
    match out {
        Out::Send(connection, text) => {
            if waiting.contains(connection) {
                return Ok(());
            }
            send_one(port, *connection, text.as_str(), waiting)
        }
        Out::HangUp(connection) => {
            if !waiting.contains(connection) {
                port.hang_up(*connection);
            }
            Ok(())
        }
    }
}

/// Sends a text to a connection that does not wait.
fn send_one<P: Port>(
    port: &mut P,
    connection: u64,
    text: &str,
    waiting: &mut Vec<u64>,
) -> Result<(), LinkRefused>
    requires { is_among waiting.old.items connection ≡ false }
    ensures delivered { OnOk result (IsDelivered P.tells waiting.old.items waiting.new.items (Send connection text.now ∷ []) (P.sent port.old) (P.sent port.new) (P.failed port.old) (P.failed port.new)) }
    ensures same { P.tells → OnErr result ((P.sent port.new ≡ P.sent port.old) × (P.failed port.new ≡ P.failed port.old)) }
    ensures events { P.tells → P.events port.new ≡ P.events port.old }
    ensures counts { (P.faults port.new ≡ P.faults port.old) × (P.ends port.new ≡ P.ends port.old) }
    ensures may_hang { OnOk result (MayHang (connection ∷ []) waiting.new.items (P.spare port.new)) }
    ensures load { OnOk result (KeepsLoad (Send connection text.now ∷ []) waiting.old.items waiting.new.items) }
    ensures refused { IfErr result (λ refused. refused ≡ LinkRefused.NoMemory) }
{
    if waiting.reserve(1).is_err() {
        return Err(LinkRefused::NoMemory);
    }
    match port.send(connection, text) {
        Ok(()) => Ok(()),
        Err(LinkRefused::NoMemory) => Err(LinkRefused::NoMemory),
        Err(LinkRefused::Failed) => {
            port.hang_up(connection);
            let _ = waiting.push(connection);
            Ok(())
        }
    }
}

/// Carries out outputs in order.
pub(crate) fn deliver<P: Port>(
    port: &mut P,
    outs: &[Out],
    waiting: &mut Vec<u64>,
) -> Result<(), LinkRefused>
    requires { HangsBehind outs.now }
    ensures delivered { OnOk result (IsDelivered P.tells waiting.old.items waiting.new.items outs.now (P.sent port.old) (P.sent port.new) (P.failed port.old) (P.failed port.new)) }
    ensures cut { OnErr result (IsCut P.tells waiting.old.items outs.now (P.sent port.old) (P.sent port.new) (P.failed port.old) (P.failed port.new)) }
    ensures events { P.tells → P.events port.new ≡ P.events port.old }
    ensures counts { (P.faults port.new ≡ P.faults port.old) × (P.ends port.new ≡ P.ends port.old) }
    ensures load { OnOk result (KeepsLoad outs.now waiting.old.items waiting.new.items) }
    ensures refused { IfErr result (λ refused. refused ≡ LinkRefused.NoMemory) }
{
    for out in outs {
        deliver_one(port, out, waiting)?;
    }
    Ok(())
}
