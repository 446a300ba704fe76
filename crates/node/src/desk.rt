// The lamp's books: its level, what was counted, the last number taken and sealed in each slot, and the order in hand. A count stays at its
// last value; in a node's books none comes near it.
ghost use Rattle.std.specs.Prelude.{◌≡◌, ℕ, ◌+◌, ◌^◌, ◌<◌, slice_index};
ghost use Rattle.node.specs.Taking.{fields_in};
ghost use Rattle.node.specs.Asking.{is_order};
ghost use Rattle.node.specs.Calls.{desk_new, desk_taken, desk_sealed};
ghost use Rattle.node.specs.Orders.{desk_ended};

use frame::{HEADER_BYTES, Record};

// The numbers of an order: its slot and number, the kind, the level (0 for a sheet), and the place and length of the body in the frame. Each
// is a plain number, the kind too, so that an order can be any: one that was never given is refused as such.
#[derive(Clone, Copy, PartialEq, Eq)]
pub struct Fields {
    pub slot: u8,
    pub number: u32,
    pub kind: u8,
    pub level: u8,
    pub place: u16,
    pub size: u16,
}

// The order of a frame that was read.
impl From<Record<'_>> for Fields {
    ghost from_gives = { λ read fields. fields ≡ fields_in read };

    fn from(read: Record<'_>) -> Fields {
        let header = read.header();
        Fields {
            slot: header.slot,
            number: header.number,
            kind: header.kind,
            level: read.level(),
            place: HEADER_BYTES as u16,
            size: u16::from(header.size),
        }
    }
}

// How an order ends.
#[derive(Clone, Copy)]
pub(crate) enum End {
    Carry,
    Decline,
}

// The last numbers stand in two rows by slot: no call looks at both of one slot.
#[derive(Clone, Copy)]
pub struct Desk {
    pub level: u8,
    pub taken: u64,
    pub carried: u64,
    pub declined: u64,
    pub took: [u32; 8],
    pub sealed: [u32; 8],
    pub hand: Option<Fields>,
}

impl Desk {
    // The books of a new node.
    pub(crate) fn new() -> Desk
        ensures { result ≡ desk_new }
    {
        Desk {
            level: 100,
            taken: 0,
            carried: 0,
            declined: 0,
            took: [0; 8],
            sealed: [0; 8],
            hand: None,
        }
    }

    // Is this the order in hand, in all its fields?
    pub(crate) fn holds(&self, order: Fields) -> bool
        ensures { result ≡ is_order order self.now.hand }
    {
        self.hand == Some(order)
    }

    pub(crate) fn take(&mut self, order: Fields)
        requires { order.slot < 8 }
        ensures { self.old.taken + 1 < 2 ^ 64 → self.new ≡ desk_taken self.old order }
    {
        self.taken = self.taken.saturating_add(1);
        self.took[usize::from(order.slot)] = order.number;
        self.hand = Some(order);
    }

    // Of an order that is carried, a level is set; a sheet leaves the level.
    pub(crate) fn end(&mut self, order: Fields, end: End)
        ensures { self.old.carried + 1 < 2 ^ 64 → self.old.declined + 1 < 2 ^ 64 → self.new ≡ desk_ended self.old order end }
    {
        match end {
            End::Carry => {
                if order.kind == 0 {
                    self.level = order.level;
                }
                self.carried = self.carried.saturating_add(1);
            }
            End::Decline => self.declined = self.declined.saturating_add(1),
        }
        self.hand = None;
    }

    // The number after the last that was sealed is the last now.
    pub(crate) fn seal(&mut self, slot: usize)
        requires { slot < 8 }
        ensures { slice_index self.old.sealed slot + 1 < 2 ^ 32 → self.new ≡ desk_sealed self.old slot }
    {
        self.sealed[slot] = self.sealed[slot].saturating_add(1);
    }
}
