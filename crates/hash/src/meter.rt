// A count of rounds, which stays at its last reading, 2^64 - 1.
ghost use Rattle.std.specs.Prelude.{◌≡◌, ℕ};
ghost use Rattle.hash.specs.Meter.{moved};

use std::marker::Model;

#[derive(Drop)]
pub struct Meter {
    count: u64,
}

impl Model for Meter {
    ghost Value = { ℕ };

    ghost view = { λ m. m.count };
}

impl Meter {
    // A meter at 0.
    pub fn new() -> Self
        ensures { result ≡ 0 }
    {
        Meter { count: 0 }
    }

    pub fn reading(&self) -> u64
        ensures { result ≡ self.now }
    {
        self.count
    }

    // One round more.
    pub fn tick(&mut self)
        ensures { self.new ≡ moved self.old 1 }
    {
        self.count = self.count.saturating_add(1);
    }
}
