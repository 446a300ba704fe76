// Frames sealed and taken, and orders carried or declined.
ghost use Rattle.std.specs.Prelude.{◌≡◌, ℕ, ◌<◌, ◌≤◌, List, length, is_some, IfOk, None, slice_index, slice_index_or};
ghost use Rattle.refusals.specs.Questions.{first_refusal};
ghost use Rattle.mac.specs.Promises.{wiped};
ghost use Rattle.node.specs.Calls.{guarded, seal, sealed_frame, take_frame, carry, decline};
ghost use Rattle.node.specs.Stands.{Obeys, Writes};
ghost use Rattle.node.specs.Taking.{further, Answered, AskedFrame, AskedSeal};
ghost use Rattle.node.specs.Orders.{given, ended, GivenBack, end_call};

use crate::compare::{is_signed, tag_behind};
use crate::desk::{End, Fields};
use crate::order::Order;
use crate::{EVERYBODY, Node};
use frame::HEADER_BYTES;
use hash::Hash;
use mac::{Algorithm, KeyRecord, Wipe};
use refusals::Refusal;

impl<H: Hash, A: Algorithm<H>> Node<H, A> {
    // Writes the frame of a command for an address, with the number after the last sealed, and answers the frame's length.
    pub fn seal(
        &mut self,
        slot: usize,
        kind: u8,
        body: &[u8],
        address: u16,
        out: &mut [u8],
        work: &mut [u8; 64],
    ) -> Result<usize, Refusal>
        ensures obeys { Obeys H.Hash.next A.Algorithm.face self.old self.new result (λ m. guarded m (seal A.Algorithm.face m slot kind body.now (length out.old))) }
        ensures written { Writes H.Hash.next A.Algorithm.face self.old result (λ m. sealed_frame A.Algorithm.face m slot kind body.now address) out.old out.new }
        ensures zeroed { work.new ≡ wiped }
    {
        let guard = Wipe { block: work };
        self.ready()?;
        self.seal_frame(slot, kind, body, address, out, guard.block)
    }

    fn seal_frame(
        &mut self,
        slot: usize,
        kind: u8,
        body: &[u8],
        address: u16,
        out: &mut [u8],
        work: &mut [u8; 64],
    ) -> Result<usize, Refusal>
        requires { self.old.refusal ≡ None }
        ensures obeys { Obeys H.Hash.next A.Algorithm.face self.old self.new result (λ m. seal A.Algorithm.face m slot kind body.now (length out.old)) }
        ensures written { Writes H.Hash.next A.Algorithm.face self.old result (λ m. sealed_frame A.Algorithm.face m slot kind body.now address) out.old out.new }
    {
        let record = self.ask_seal(slot, kind, body, out.len())?;
        let number = self.desk.sealed[slot].saturating_add(1);
        frame::write_front(slot as u8, kind, address, number, body, out)?;
        let size = HEADER_BYTES + body.len();
        tag_behind::<H, A>(&mut self.hash, &record, self.t, size, out, work)?;
        self.desk.seal(slot);
        Ok(size + self.t)
    }

    // The questions on a command: 7, 8, those of the body, 5, 15 and 6. Where none is answered no: the key of the slot.
    fn ask_seal(
        &self,
        slot: usize,
        kind: u8,
        body: &[u8],
        room: usize,
    ) -> Result<KeyRecord, Refusal>
        ensures { AskedSeal A.Algorithm.face slot kind body.now self.now.t room self.now.slots self.now.desk.sealed result }
    {
        let record = self.key_record(slot)?;
        frame::check_body(kind, body)?;
        let size = HEADER_BYTES + body.len();
        if size > A::row_of().message {
            return Err(Refusal::MessageLength);
        }
        if self.desk.sealed[slot] == u32::MAX {
            return Err(Refusal::NumbersSpent);
        }
        if room < size || room - size < self.t {
            return Err(Refusal::Room);
        }
        Ok(record)
    }

    // Takes a frame: where its tag is right and its number new, gives its order.
    pub fn take(&mut self, frame: &[u8], work: &mut [u8; 64]) -> Result<Order, Refusal>
        ensures obeys { Obeys H.Hash.next A.Algorithm.face self.old self.new (given result) (λ m. guarded m (take_frame A.Algorithm.face m frame.now)) }
        ensures numbered { IfOk result (λ o. 1 ≤ o.fields.number) }
        ensures zeroed { work.new ≡ wiped }
    {
        let guard = Wipe { block: work };
        self.ready()?;
        self.take_order(frame, guard.block)
    }

    fn take_order(&mut self, frame: &[u8], work: &mut [u8; 64]) -> Result<Order, Refusal>
        requires { self.old.refusal ≡ None }
        ensures obeys { Obeys H.Hash.next A.Algorithm.face self.old self.new (given result) (λ m. take_frame A.Algorithm.face m frame.now) }
        ensures numbered { IfOk result (λ o. 1 ≤ o.fields.number) }
    {
        let (fields, record) = self.ask_frame(frame)?;
        if !is_signed::<H, A>(&mut self.hash, &record, frame, work) {
            return Err(Refusal::WrongTag);
        }
        self.desk.take(fields);
        Ok(Order { fields })
    }

    // The questions on a frame before its tag is looked at: 21, the reader's, and those that follow. Where none is answered
    // no: its order, and the key of its slot.
    fn ask_frame(&self, frame: &[u8]) -> Result<(Fields, KeyRecord), Refusal>
        ensures { AskedFrame A.Algorithm.face self.now.desk.hand frame.now self.now.t self.now.address self.now.slots self.now.desk.took result }
    {
        if self.desk.hand.is_some() {
            return Err(Refusal::OrderInHand);
        }
        let read = frame::read_record(frame, self.t)?;
        let fields = Fields::from(read);
        let record = self.ask_further(fields, read.header().address)?;
        Ok((fields, record))
    }

    // The questions that follow the reader's: 8, 18, 5 and 19. Where none is answered no: the key of the slot.
    fn ask_further(&self, order: Fields, address: u16) -> Result<KeyRecord, Refusal>
        requires { order.slot < 8 }
        ensures { Answered (first_refusal (further A.Algorithm.face (is_some (slice_index_or self.now.slots order.slot None)) self.now.address address order.size (slice_index self.now.desk.took order.slot) order.number)) (slice_index_or self.now.slots order.slot None) result }
    {
        let slot = usize::from(order.slot);
        let record = self.key_record(slot)?;
        if address != self.address && address != EVERYBODY {
            return Err(Refusal::Address);
        }
        if HEADER_BYTES + usize::from(order.size) > A::row_of().message {
            return Err(Refusal::MessageLength);
        }
        if order.number <= self.desk.took[slot] {
            return Err(Refusal::OldNumber);
        }
        Ok(record)
    }

    // Carries the order out: a level is set. An order that is not the one in hand is given back.
    pub fn carry(&mut self, order: Order) -> Result<(), (Refusal, Order)>
        ensures obeys { Obeys H.Hash.next A.Algorithm.face self.old self.new (ended result) (λ m. guarded m (carry A.Algorithm.face m order.fields)) }
        ensures back { GivenBack result order.fields }
    {
        self.end_order(order, End::Carry)
    }

    // Declines the order. One that is not in hand is given back.
    pub fn decline(&mut self, order: Order) -> Result<(), (Refusal, Order)>
        ensures obeys { Obeys H.Hash.next A.Algorithm.face self.old self.new (ended result) (λ m. guarded m (decline A.Algorithm.face m order.fields)) }
        ensures back { GivenBack result order.fields }
    {
        self.end_order(order, End::Decline)
    }

    fn end_order(&mut self, order: Order, end: End) -> Result<(), (Refusal, Order)>
        ensures obeys { Obeys H.Hash.next A.Algorithm.face self.old self.new (ended result) (λ m. guarded m (end_call A.Algorithm.face m end order.fields)) }
        ensures back { GivenBack result order.fields }
    {
        // no `?`: the order goes back with the refusal
        if let Err(e) = self.ready() {
            return Err((e, order));
        }
        if !self.desk.holds(order.fields()) {
            return Err((Refusal::NotInHand, order));
        }
        self.desk.end(order.into_fields(), end);
        Ok(())
    }
}
