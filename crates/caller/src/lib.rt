// A caller of the node that spends every order that it takes. Were an end refused, the order would come back with the
// refusal; that none is, is proved.
#![tactic(auto)]

ghost use Rattle.std.specs.Prelude.{◌≡◌, if◌then◌else◌, nat_le};
ghost use Rattle.mac.specs.Promises.{wiped};
ghost use Rattle.node.specs.Calls.{guarded, carry, decline};
ghost use Rattle.node.specs.Orders.{ended};
ghost use Rattle.node.specs.Stands.{Obeys};
ghost use Rattle.caller.specs.Spending.{Spends, spent};

use hash::Hash;
use mac::Algorithm;
use node::{Node, Order};
use refusals::Refusal;

// Takes a frame, carries its order where the level is at most `most`, and declines any other. Says whether it was carried.
pub fn dim<H: Hash, A: Algorithm<H>>(
    node: &mut Node<H, A>,
    frame: &[u8],
    most: u8,
    work: &mut [u8; 64],
) -> Result<bool, (Refusal, Option<Order>)>
    ensures spends { Spends H.Hash.next A.Algorithm.face node.old node.new result (λ m. spent (λ o. nat_le o.level most) A.Algorithm.face m frame.now) }
    ensures zeroed { work.new ≡ wiped }
{
    spend(node, frame, most, work)
}

fn spend<H: Hash, A: Algorithm<H>>(
    node: &mut Node<H, A>,
    frame: &[u8],
    most: u8,
    work: &mut [u8; 64],
) -> Result<bool, (Refusal, Option<Order>)>
    ensures spends { Spends H.Hash.next A.Algorithm.face node.old node.new result (λ m. spent (λ o. nat_le o.level most) A.Algorithm.face m frame.now) }
    ensures zeroed { work.new ≡ wiped }
{
    let order = node.take(frame, work).map_err(|e| (e, None))?;
    let low = order.fields().level <= most;
    end_order(node, order, low).map_err(|(e, back)| (e, Some(back)))?;
    Ok(low)
}

// Carries an order, or declines it.
fn end_order<H: Hash, A: Algorithm<H>>(
    node: &mut Node<H, A>,
    order: Order,
    carries: bool,
) -> Result<(), (Refusal, Order)>
    ensures { Obeys H.Hash.next A.Algorithm.face node.old node.new (ended result) (λ m. guarded m (if carries then carry A.Algorithm.face m order.fields else decline A.Algorithm.face m order.fields)) }
{
    if carries {
        node.carry(order)
    } else {
        node.decline(order)
    }
}
