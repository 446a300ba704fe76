// Takes in the chunks of an input and replies to each line as its newline comes. Of a line that is too long no more
// than its front is held.
ghost use Rattle.std.specs.Prelude.{◌≡◌, ℕ, true, List, [], ◌∷◌, ◌++◌, is_ok, MatchResult, ◌≢◌};
ghost use Rattle.text.specs.Room.{HasRoom};
ghost use Rattle.requests.specs.Input.{last_reply};
ghost use Rattle.requests.specs.Reply.{reply};
ghost use Rattle.requests.specs.Stands.{Stands, Fed, FedSome, Replied, Same};

use crate::answer_line;
use crate::lines::Lines;
use std::alloc::AllocError;

// How many bytes of a line are held.
const HELD: usize = 1025;

impl Lines {
    // Nothing is pending.
    pub fn new() -> Lines
        ensures { Stands result [] }
    {
        Lines {
            held: [0; HELD],
            len: 0,
        }
    }

    // Takes in a chunk. Where memory is wanting, a front of the chunk is taken in, and the rest is not.
    pub fn feed(&mut self, chunk: &[u8], out: &mut Vec<u8>) -> Result<(), AllocError>
        ensures { MatchResult result (λ _. Fed self.old out.old.items chunk.now self.new out.new.items) (λ _. FedSome self.old out.old.items chunk.now self.new out.new.items) }
    {
        self.take_in(chunk, out)
    }

    // Replies to a last line without a newline, if there is one. Where memory is wanting, nothing is done.
    pub fn finish(&mut self, out: &mut Vec<u8>) -> Result<(), AllocError>
        ensures told { MatchResult result (λ _. Replied last_reply self.old out.old.items self.new out.new.items) (λ _. Same self.old out.old.items self.new out.new.items) }
        ensures succeeds { HasRoom out.old 86 → is_ok result ≡ true }
    {
        self.end_input(out)
    }

    // One byte of a line, which is no newline.
    fn keep(&mut self, b: u8)
        requires { b ≢ 10 }
        ensures { (pending : List ℕ) → Stands self.old pending → Stands self.new (pending ++ b ∷ []) }
    {
        let n = self.len;
        if n < HELD {
            self.held[n] = b;
            self.len = n + 1;
        }
    }

    // The end of a line.
    fn end_line(&mut self, out: &mut Vec<u8>) -> Result<(), AllocError>
        ensures told { MatchResult result (λ _. Replied reply self.old out.old.items self.new out.new.items) (λ _. Same self.old out.old.items self.new out.new.items) }
        ensures succeeds { HasRoom out.old 86 → is_ok result ≡ true }
    {
        answer_line(&self.held[..self.len], out)?;
        self.len = 0;
        Ok(())
    }

    // The end of the input.
    fn end_input(&mut self, out: &mut Vec<u8>) -> Result<(), AllocError>
        ensures told { MatchResult result (λ _. Replied last_reply self.old out.old.items self.new out.new.items) (λ _. Same self.old out.old.items self.new out.new.items) }
        ensures succeeds { HasRoom out.old 86 → is_ok result ≡ true }
    {
        if self.len == 0 {
            return Ok(());
        }
        self.end_line(out)
    }

    // One byte of an input.
    fn step(&mut self, b: u8, out: &mut Vec<u8>) -> Result<(), AllocError>
        ensures { MatchResult result (λ _. Fed self.old out.old.items (b ∷ []) self.new out.new.items) (λ _. Same self.old out.old.items self.new out.new.items) }
    {
        if b == b'\n' {
            return self.end_line(out);
        }
        self.keep(b);
        Ok(())
    }

    // The bytes of a chunk, one after the other.
    fn take_in(&mut self, chunk: &[u8], out: &mut Vec<u8>) -> Result<(), AllocError>
        ensures { MatchResult result (λ _. Fed self.old out.old.items chunk.now self.new out.new.items) (λ _. FedSome self.old out.old.items chunk.now self.new out.new.items) }
    {
        for b in chunk {
            self.step(*b, out)?;
        }
        Ok(())
    }
}
