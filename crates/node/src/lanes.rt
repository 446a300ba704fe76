// Runs in lanes: opened, fed piece by piece, and finished, judged or dropped.
ghost use Rattle.std.specs.Prelude.{◌≡◌, ℕ, List, length, None};
ghost use Rattle.mac.specs.Promises.{wiped};
ghost use Rattle.node.specs.Calls.{guarded, open_lane, feed, drop_lane, finish, judge, tag_at};
ghost use Rattle.node.specs.Stands.{Obeys, Writes};

use crate::Node;
use crate::compare::is_tag;
use hash::Hash;
use mac::{Algorithm, Wipe, free_run};
use refusals::Refusal;

impl<H: Hash, A: Algorithm<H>> Node<H, A> {
    // Copies the slot's key record into the lane: a later install or clear does not touch what the lane has.
    pub fn open(&mut self, lane: usize, slot: usize) -> Result<(), Refusal>
        ensures { Obeys H.Hash.next A.Algorithm.face self.old self.new result (λ m. guarded m (open_lane A.Algorithm.face m lane slot)) }
    {
        self.ready()?;
        self.begin_lane(lane, slot)
    }

    fn begin_lane(&mut self, lane: usize, slot: usize) -> Result<(), Refusal>
        ensures { Obeys H.Hash.next A.Algorithm.face self.old self.new result (λ m. open_lane A.Algorithm.face m lane slot) }
    {
        let run = self.lane(lane)?;
        let record = self.key_record(slot)?;
        if run.begun {
            return Err(Refusal::LaneBusy);
        }
        self.lanes[lane] = A::begin(&record);
        Ok(())
    }

    // Adds a piece at the end of the lane's bytes.
    pub fn feed(&mut self, lane: usize, piece: &[u8]) -> Result<(), Refusal>
        ensures { Obeys H.Hash.next A.Algorithm.face self.old self.new result (λ m. guarded m (feed A.Algorithm.face m lane piece.now)) }
    {
        self.ready()?;
        self.add_piece(lane, piece)
    }

    fn add_piece(&mut self, lane: usize, piece: &[u8]) -> Result<(), Refusal>
        ensures { Obeys H.Hash.next A.Algorithm.face self.old self.new result (λ m. feed A.Algorithm.face m lane piece.now) }
    {
        self.lane(lane)?;
        A::add(&mut self.hash, &mut self.lanes[lane], piece)
    }

    // Frees a lane.
    pub fn drop_lane(&mut self, lane: usize) -> Result<(), Refusal>
        ensures { Obeys H.Hash.next A.Algorithm.face self.old self.new result (λ m. guarded m (drop_lane A.Algorithm.face m lane)) }
    {
        self.ready()?;
        self.free_lane(lane)
    }

    fn free_lane(&mut self, lane: usize) -> Result<(), Refusal>
        ensures { Obeys H.Hash.next A.Algorithm.face self.old self.new result (λ m. drop_lane A.Algorithm.face m lane) }
    {
        let run = self.lane(lane)?;
        if !run.begun {
            return Err(Refusal::NotBegun);
        }
        self.lanes[lane] = free_run();
        Ok(())
    }

    // Writes the tag of the lane's bytes, and frees the lane.
    pub fn finish(
        &mut self,
        lane: usize,
        out: &mut [u8],
        work: &mut [u8; 64],
    ) -> Result<(), Refusal>
        ensures obeys { Obeys H.Hash.next A.Algorithm.face self.old self.new result (λ m. guarded m (finish A.Algorithm.face m lane (length out.old))) }
        ensures written { Writes H.Hash.next A.Algorithm.face self.old result (λ m. tag_at A.Algorithm.face m lane) out.old out.new }
        ensures zeroed { work.new ≡ wiped }
    {
        let guard = Wipe { block: work };
        self.ready()?;
        self.end_lane(lane, out, guard.block)
    }

    fn end_lane(&mut self, lane: usize, out: &mut [u8], work: &mut [u8; 64]) -> Result<(), Refusal>
        requires { self.old.refusal ≡ None }
        ensures obeys { Obeys H.Hash.next A.Algorithm.face self.old self.new result (λ m. finish A.Algorithm.face m lane (length out.old)) }
        ensures written { Writes H.Hash.next A.Algorithm.face self.old result (λ m. tag_at A.Algorithm.face m lane) out.old out.new }
    {
        self.lane(lane)?;
        A::end(&mut self.hash, &mut self.lanes[lane], self.t, out, work)
    }

    // Says whether the given bytes are the tag of the lane's, and frees the lane either way.
    pub fn judge(&mut self, lane: usize, tag: &[u8], work: &mut [u8; 64]) -> Result<bool, Refusal>
        ensures obeys { Obeys H.Hash.next A.Algorithm.face self.old self.new result (λ m. guarded m (judge A.Algorithm.face m lane tag.now)) }
        ensures zeroed { work.new ≡ wiped }
    {
        let guard = Wipe { block: work };
        self.ready()?;
        self.compare_lane(lane, tag, guard.block)
    }

    fn compare_lane(
        &mut self,
        lane: usize,
        tag: &[u8],
        work: &mut [u8; 64],
    ) -> Result<bool, Refusal>
        requires { self.old.refusal ≡ None }
        ensures { Obeys H.Hash.next A.Algorithm.face self.old self.new result (λ m. judge A.Algorithm.face m lane tag.now) }
    {
        let run = self.lane(lane)?;
        if !run.begun {
            return Err(Refusal::NotBegun);
        }
        if tag.len() != self.t {
            return Err(Refusal::TagSize);
        }
        let right = is_tag::<H, A>(&mut self.hash, &mut self.lanes[lane], tag, work);
        self.lanes[lane] = free_run();
        Ok(right)
    }
}
