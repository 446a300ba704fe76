// The eleven calls as values, with an answer for each, for a host that keeps the list of calls and answers as its book of
// orders: orders come and go as plain numbers here. A node under replay gives out no order token and takes none, so this is
// no way to let one lapse.
ghost use Rattle.std.specs.Prelude.{◌≡◌, ℕ, min, List, take};
ghost use Rattle.mac.specs.Promises.{wiped};
ghost use Rattle.node.specs.Calls.{new, guarded, finish, tag_at, seal, sealed_frame};
ghost use Rattle.node.specs.Stands.{Stands, Obeys, Writes};
ghost use Rattle.node.specs.Replaying.{Performs, Narrow, report_of};

use crate::Node;
use crate::desk::Fields;
use crate::order::Order;
use hash::Hash;
use mac::{Algorithm, Wipe};
use refusals::Refusal;

// A call with all that it is handed. A tag is written to a place of `room` bytes, at most 32, a frame to one of at most 295. An order
// may be any, one that was never given too.
#[derive(Clone, Copy)]
pub enum Call<'a> {
    Install {
        slot: usize,
        key: &'a [u8],
    },
    Clear {
        slot: usize,
    },
    Open {
        lane: usize,
        slot: usize,
    },
    Feed {
        lane: usize,
        piece: &'a [u8],
    },
    Finish {
        lane: usize,
        room: usize,
    },
    Judge {
        lane: usize,
        tag: &'a [u8],
    },
    Drop {
        lane: usize,
    },
    Seal {
        slot: usize,
        kind: u8,
        body: &'a [u8],
        address: u16,
        room: usize,
    },
    Take {
        frame: &'a [u8],
    },
    Carry {
        order: Fields,
    },
    Decline {
        order: Fields,
    },
}

// What came of a call that was accepted. A tag stands first in its place.
#[derive(Clone, Copy)]
pub enum Outcome {
    Done,
    Tag([u8; 32]),
    Verdict(bool),
    Frame(SealedFrame),
    Given(Fields),
}

// A call's answer: what came of it, or why it was refused.
pub type Answer = Result<Outcome, Refusal>;

// A frame of the length given, first in a place for the longest.
#[derive(Clone, Copy)]
pub struct SealedFrame {
    place: [u8; 295],
    length: usize,
}

impl SealedFrame {
    // The frame alone.
    pub fn bytes(&self) -> &[u8]
        ensures { result.now ≡ take self.now.length self.now.place }
    {
        &self.place[..self.length.min(295)]
    }
}

// What a node has come to: its meter, the lamp's level, and the orders counted.
#[derive(Clone, Copy, Default)]
pub struct Report {
    pub reading: u64,
    pub level: u8,
    pub taken: u64,
    pub carried: u64,
    pub declined: u64,
}

// Why an order was not ended. The order that comes back is spent: the list of calls and answers is the book of orders.
fn spend(refused: (Refusal, Order)) -> Refusal
    ensures { result ≡ refused.0 }
{
    let (refusal, order) = refused;
    let _ = order.into_fields();
    refusal
}

// Finishes a lane into the first `room` bytes of the place, or into all of it.
fn finish_at<H: Hash, A: Algorithm<H>>(
    node: &mut Node<H, A>,
    lane: usize,
    room: usize,
    out: &mut [u8; 32],
    work: &mut [u8; 64],
) -> Result<(), Refusal>
    ensures obeys { Obeys H.Hash.next A.Algorithm.face node.old node.new result (λ m. guarded m (finish A.Algorithm.face m lane (min room 32))) }
    ensures place { Writes H.Hash.next A.Algorithm.face node.old result (λ m. tag_at A.Algorithm.face m lane) out.old out.new }
{
    node.finish(lane, &mut out[..room.min(32)], work)
}

// Seals a frame into the first `room` bytes of the place, or into all of it.
fn seal_at<H: Hash, A: Algorithm<H>>(
    node: &mut Node<H, A>,
    slot: usize,
    kind: u8,
    body: &[u8],
    address: u16,
    room: usize,
    out: &mut [u8; 295],
    work: &mut [u8; 64],
) -> Result<usize, Refusal>
    ensures obeys { Obeys H.Hash.next A.Algorithm.face node.old node.new result (λ m. guarded m (seal A.Algorithm.face m slot kind body.now (min room 295))) }
    ensures place { Writes H.Hash.next A.Algorithm.face node.old result (λ m. sealed_frame A.Algorithm.face m slot kind body.now address) out.old out.new }
{
    node.seal(slot, kind, body, address, &mut out[..room.min(295)], work)
}

// One call on a node, with its answer.
fn perform_on<H: Hash, A: Algorithm<H>>(
    node: &mut Node<H, A>,
    c: &Call<'_>,
    work: &mut [u8; 64],
) -> Answer
    ensures performs { Performs H.Hash.next A.Algorithm.face node.old node.new c.now result }
    ensures narrow { Narrow c.now }
{
    match c {
        Call::Install { slot, key } => node.install(*slot, key, work).map(|()| Outcome::Done),
        Call::Clear { slot } => node.clear(*slot).map(|()| Outcome::Done),
        Call::Open { lane, slot } => node.open(*lane, *slot).map(|()| Outcome::Done),
        Call::Feed { lane, piece } => node.feed(*lane, piece).map(|()| Outcome::Done),
        Call::Finish { lane, room } => {
            let mut out = [0; 32];
            finish_at(node, *lane, *room, &mut out, work).map(|()| Outcome::Tag(out))
        }
        Call::Judge { lane, tag } => node.judge(*lane, tag, work).map(Outcome::Verdict),
        Call::Drop { lane } => node.drop_lane(*lane).map(|()| Outcome::Done),
        Call::Seal {
            slot,
            kind,
            body,
            address,
            room,
        } => {
            let mut place = [0; 295];
            seal_at(node, *slot, *kind, body, *address, *room, &mut place, work).map(
                |length| Outcome::Frame(SealedFrame { place, length }),
            )
        }
        Call::Take { frame } => {
            node.take(frame, work)
                .map(|order| Outcome::Given(order.into_fields()))
        }
        Call::Carry { order } => {
            node.carry(Order { fields: *order })
                .map(|()| Outcome::Done)
                .map_err(spend)
        }
        Call::Decline { order } => {
            node.decline(Order { fields: *order })
                .map(|()| Outcome::Done)
                .map_err(spend)
        }
    }
}

// A node that performs calls given as values.
#[derive(Drop)]
pub struct Replay<H: Hash, A: Algorithm<H>> {
    node: Node<H, A>,
}

impl<H: Hash, A: Algorithm<H>> Replay<H, A> {
    // A new node. Where the making is refused, so is every call, by the same number.
    pub fn make(hash: H, t: usize, address: u16) -> Replay<H, A>
        ensures stands { Stands H.Hash.next A.Algorithm.face result.node (new A.Algorithm.face H.Hash.meaning.added t address) }
        ensures hash { result.node.hash ≡ hash }
    {
        Replay {
            node: Node::make(hash, t, address),
        }
    }

    // Performs a call. The work block is all zeros afterwards, whatever the call.
    pub fn perform(&mut self, call: &Call<'_>, work: &mut [u8; 64]) -> Answer
        ensures performs { Performs H.Hash.next A.Algorithm.face self.old.node self.new.node call.now result }
        ensures narrow { Narrow call.now }
        ensures zeroed { work.new ≡ wiped }
    {
        let guard = Wipe { block: work };
        perform_on(&mut self.node, call, guard.block)
    }

    // What the node has come to.
    pub fn report(&self) -> Report
        ensures { result ≡ report_of self.now.node.desk (H.Hash.reading self.now.node.hash) }
    {
        let desk = self.node.desk();
        Report {
            reading: self.node.reading(),
            level: desk.level,
            taken: desk.taken,
            carried: desk.carried,
            declined: desk.declined,
        }
    }
}
