// A node from C: a script of calls, as lines of text, and the replies. It needs a heap, so it stands apart from what runs on a lamp.
// `include/kallqono_script.h` is the manual.
#![tactic(auto)]

ghost use Rattle.std.specs.Prelude.{◌≡◌, ◌++◌, length, drop, if◌then◌else◌, ◌≢◌, nat_le};
ghost use Rattle.refusals.specs.declared.Refusal.TheVariants.{Room};
ghost use Rattle.refusals.specs.Numbers.{number};
ghost use Rattle.cscripts.specs.Script.{Laid, Short};

use refusals::Refusal;
use scripts::answer_script;
use std::alloc::Global;

// There was no memory.
const STARVED: u32 = 100;

// Copies the replies to the place, where they fit, and says how long they are.
fn lay(replies: &[u8], out: &mut [u8], size: &mut usize) -> u32
    ensures answer { result ≡ (if nat_le (length replies.now) (length out.old) then 0 else number Room) }
    ensures size { size.new ≡ length replies.now }
    ensures bytes { out.new ≡ (if nat_le (length replies.now) (length out.old) then replies.now ++ drop (length replies.now) out.old else out.old) }
{
    let n = replies.len();
    *size = n;
    if n > out.len() {
        return u32::from(u8::from(Refusal::Room));
    }
    out[0..n].copy_from_slice(replies);
    0
}

// Runs the script on a node of its own, and writes the replies to its lines. Answers 0; or 6 where the place is too short, and then the size
// tells how long it has to be; or 100 where there was no memory, and then all is as it was.
#[unsafe(no_mangle)]
pub extern "C" fn kallqono_script(
    heap: Global,
    input: &[u8],
    out: &mut [u8],
    size: &mut usize,
) -> u32
    ensures done { result ≡ 0 → Laid input.now out.old out.new size.new }
    ensures short { result ≡ 6 → Short input.now out.old out.new size.new }
    ensures starved { result ≡ 100 → (out.new ≡ out.old) × (size.new ≡ size.old) }
    ensures known { (result ≢ 0) → (result ≢ 6) → result ≡ 100 }
{
    match answer_script(heap, input) {
        Ok(replies) => lay(&replies, out, size),
        Err(_) => STARVED,
    }
}
