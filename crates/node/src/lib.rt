// A lamp node over any hash and any algorithm: eight key slots, four lanes in which tags are made piece by piece, and the
// lamp's books. Every call takes any input and does its work or gives the first refusal that fits; a refusal leaves the
// node as found. What a call owes is said by what the node stands for (specs/).
#![tactic(auto)]

ghost use Rattle.std.specs.Prelude.{◌≡◌, ℕ, List, is_some, Some, None, MatchResult, slice_get, slice_index_or};
ghost use Rattle.std.specs.Result.{result_err};
ghost use Rattle.refusals.specs.Questions.{first_refusal};
ghost use Rattle.refusals.specs.declared.Refusal.TheVariants.{NoLane};
ghost use Rattle.node.specs.Model.{Model};
ghost use Rattle.node.specs.Asking.{making_q, slot_q};
ghost use Rattle.node.specs.Calls.{new};
ghost use Rattle.node.specs.Stands.{Stands};
ghost use Rattle.node.specs.Taking.{Answered};

pub use desk::{Desk, Fields};
pub use handing::hand_over;
use hash::Hash;
use mac::{Algorithm, KeyRecord, Run, free_run};
pub use order::Order;
use refusals::Refusal;
pub use replay::{Answer, Call, Outcome, Replay, Report, SealedFrame};
use std::marker::PhantomData;

mod compare;
mod desk;
mod handing;
mod lanes;
mod order;
mod orders;
mod replay;
mod slots;

const SLOTS: usize = 8;

const LANES: usize = 4;

// The address that every node listens to, and none has.
const EVERYBODY: u16 = 65535;

#[derive(Drop)]
pub struct Node<H: Hash, A: Algorithm<H>> {
    hash: H,
    slots: [Option<KeyRecord>; SLOTS],
    lanes: [Run; LANES],
    desk: Desk,
    t: usize,
    address: u16,
    refusal: Option<Refusal>,
    algorithm: PhantomData<A>,
}

// The questions on a making, in their order.
fn check_making<H: Hash, A: Algorithm<H>>(t: usize, address: u16) -> Result<(), Refusal>
    ensures { result_err result ≡ first_refusal (making_q A.Algorithm.face H.Hash.meaning.added t address) }
{
    if A::needs_added() && H::shape_of().added == 0 {
        return Err(Refusal::NoAddedWords);
    }
    if !A::row_of().tag.has(t) {
        return Err(Refusal::TagLength);
    }
    if address == EVERYBODY {
        return Err(Refusal::OwnAddress);
    }
    Ok(())
}

impl<H: Hash, A: Algorithm<H>> Node<H, A> {
    // A new node. Where the making is refused, so is every call, by the same number.
    pub fn make(hash: H, t: usize, address: u16) -> Node<H, A>
        ensures stands { Stands H.Hash.next A.Algorithm.face result (new A.Algorithm.face H.Hash.meaning.added t address) }
        ensures hash { result.hash ≡ hash }
    {
        let refusal = check_making::<H, A>(t, address).err();
        Node {
            hash,
            slots: [None; SLOTS],
            lanes: [free_run(); LANES],
            desk: Desk::new(),
            t,
            address,
            refusal,
            algorithm: PhantomData,
        }
    }

    // Where the making was refused, so is every call.
    fn ready(&self) -> Result<(), Refusal>
        ensures { result_err result ≡ self.now.refusal }
    {
        match self.refusal {
            Some(e) => Err(e),
            None => Ok(()),
        }
    }

    // The key record of a slot, by questions 7 and 8.
    fn key_record(&self, slot: usize) -> Result<KeyRecord, Refusal>
        ensures { Answered (first_refusal (slot_q slot (is_some (slice_index_or self.now.slots slot None)))) (slice_index_or self.now.slots slot None) result }
    {
        let held = self.slots.get(slot).ok_or(Refusal::NoSlot)?;
        held.ok_or(Refusal::SlotEmpty)
    }

    // The run of a lane, by question 9.
    fn lane(&self, lane: usize) -> Result<&Run, Refusal>
        ensures { MatchResult result (λ run. slice_get self.now.lanes lane ≡ Some run.now) (λ e. (slice_get self.now.lanes lane ≡ None) × (e ≡ NoLane)) }
    {
        self.lanes.get(lane).ok_or(Refusal::NoLane)
    }

    // Why the making was refused, if it was.
    pub fn refusal(&self) -> Option<Refusal>
        ensures { result ≡ self.now.refusal }
    {
        self.refusal
    }

    // Level, counts, numbers and the order in hand.
    pub fn desk(&self) -> Desk
        ensures { result ≡ self.now.desk }
    {
        self.desk
    }

    // What the hash's meter reads.
    pub fn reading(&self) -> u64
        ensures { result ≡ H.Hash.reading self.now.hash }
    {
        self.hash.meter()
    }
}
