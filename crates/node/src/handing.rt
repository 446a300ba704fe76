// A command goes from one node to another: sealed here, taken there.
ghost use Rattle.std.specs.Prelude.{◌≡◌, ℕ, ◌≤◌, List, length, IfOk};
ghost use Rattle.mac.specs.Promises.{wiped};
ghost use Rattle.node.specs.Model.{Model};
ghost use Rattle.node.specs.Stands.{Stands};
ghost use Rattle.node.specs.Handing.{HandedOver, Delivered};

use crate::Node;
use crate::order::Order;
use hash::Hash;
use mac::Algorithm;
use refusals::Refusal;

fn seal_and_take<H: Hash, A: Algorithm<H>>(
    cabinet: &mut Node<H, A>,
    lamp: &mut Node<H, A>,
    slot: usize,
    kind: u8,
    body: &[u8],
    address: u16,
    frame: &mut [u8],
    work: &mut [u8; 64],
) -> Result<Result<Order, Refusal>, Refusal>
    ensures handed { (c l : Model) → Stands H.Hash.next A.Algorithm.face cabinet.old c → Stands H.Hash.next A.Algorithm.face lamp.old l → HandedOver A.Algorithm.face c l slot kind body.now address (length frame.old) result }
    ensures delivered { (c l : Model) → Stands H.Hash.next A.Algorithm.face cabinet.old c → Stands H.Hash.next A.Algorithm.face lamp.old l → Delivered H.Hash.next A.Algorithm.face c l cabinet.old cabinet.new lamp.old lamp.new slot kind body.now address frame.old frame.new result }
    ensures numbered { IfOk result (λ taken. IfOk taken (λ o. 1 ≤ o.fields.number)) }
    ensures zeroed { work.new ≡ wiped }
{
    let sealed = cabinet.seal(slot, kind, body, address, frame, work)?;
    let end = sealed.min(frame.len());
    Ok(lamp.take(&frame[..end], work))
}

// Seals a command at one node and hands the frame to another. A lamp with the same tag length and key in that slot,
// addressed, with no order in hand and a lower last number there, takes it as the command sealed. The frame stays in its place.
pub fn hand_over<H: Hash, A: Algorithm<H>>(
    cabinet: &mut Node<H, A>,
    lamp: &mut Node<H, A>,
    slot: usize,
    kind: u8,
    body: &[u8],
    address: u16,
    frame: &mut [u8],
    work: &mut [u8; 64],
) -> Result<Result<Order, Refusal>, Refusal>
    ensures handed { (c l : Model) → Stands H.Hash.next A.Algorithm.face cabinet.old c → Stands H.Hash.next A.Algorithm.face lamp.old l → HandedOver A.Algorithm.face c l slot kind body.now address (length frame.old) result }
    ensures delivered { (c l : Model) → Stands H.Hash.next A.Algorithm.face cabinet.old c → Stands H.Hash.next A.Algorithm.face lamp.old l → Delivered H.Hash.next A.Algorithm.face c l cabinet.old cabinet.new lamp.old lamp.new slot kind body.now address frame.old frame.new result }
    ensures numbered { IfOk result (λ taken. IfOk taken (λ o. 1 ≤ o.fields.number)) }
    ensures zeroed { work.new ≡ wiped }
{
    seal_and_take(cabinet, lamp, slot, kind, body, address, frame, work)
}
