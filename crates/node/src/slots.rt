// Keys in slots.
ghost use Rattle.std.specs.Prelude.{◌≡◌, None};
ghost use Rattle.mac.specs.Promises.{wiped};
ghost use Rattle.node.specs.Calls.{guarded, install, clear};
ghost use Rattle.node.specs.Stands.{Obeys};

use crate::{Node, SLOTS};
use hash::Hash;
use mac::{Algorithm, Wipe};
use refusals::Refusal;

impl<H: Hash, A: Algorithm<H>> Node<H, A> {
    // Puts a key in a slot, over any older one. The slot's numbers stay.
    pub fn install(&mut self, slot: usize, key: &[u8], work: &mut [u8; 64]) -> Result<(), Refusal>
        ensures obeys { Obeys H.Hash.next A.Algorithm.face self.old self.new result (λ m. guarded m (install A.Algorithm.face m slot key.now)) }
        ensures zeroed { work.new ≡ wiped }
    {
        let guard = Wipe { block: work };
        self.ready()?;
        self.put_key(slot, key, guard.block)
    }

    fn put_key(&mut self, slot: usize, key: &[u8], work: &mut [u8; 64]) -> Result<(), Refusal>
        ensures { Obeys H.Hash.next A.Algorithm.face self.old self.new result (λ m. install A.Algorithm.face m slot key.now) }
    {
        if slot >= SLOTS {
            return Err(Refusal::NoSlot);
        }
        self.slots[slot] = Some(A::expand(&mut self.hash, key, work)?);
        Ok(())
    }

    // Empties a slot. Its numbers stay.
    pub fn clear(&mut self, slot: usize) -> Result<(), Refusal>
        ensures { Obeys H.Hash.next A.Algorithm.face self.old self.new result (λ m. guarded m (clear A.Algorithm.face m slot)) }
    {
        self.ready()?;
        self.empty_slot(slot)
    }

    fn empty_slot(&mut self, slot: usize) -> Result<(), Refusal>
        ensures { Obeys H.Hash.next A.Algorithm.face self.old self.new result (λ m. clear A.Algorithm.face m slot) }
    {
        self.key_record(slot)?;
        self.slots[slot] = None;
        Ok(())
    }
}
