// Tags compared over all their bytes, whatever the first difference.
ghost use Rattle.std.specs.Prelude.{◌≡◌, ◌≤◌, length, take};
ghost use Rattle.mac.specs.Promises.{wiped};
ghost use Rattle.node.specs.Tags.{Compared, differences};
ghost use Rattle.node.specs.Taking.{Signed, Behind};

use hash::Hash;
use mac::{Algorithm, KeyRecord, Run};
use refusals::Refusal;

// The bits in which the given bytes differ from the first ones of the block.
fn differing(block: &[u8; 64], given: &[u8]) -> u8
    ensures { result ≡ differences block.now given.now }
{
    block
        .iter()
        .zip(given)
        .fold(0, |bits, (x, y)| bits | (*x ^ *y))
}

// Closes a run and says whether the given bytes are its tag. The tag stands only in the work block, which the caller wipes. No tag is longer than the block.
pub(crate) fn is_tag<H: Hash, A: Algorithm<H>>(
    hash: &mut H,
    run: &mut Run,
    given: &[u8],
    work: &mut [u8; 64],
) -> bool
    ensures { Compared H.Hash.next A.Algorithm.face hash.old hash.new run.old (length given.now) given.now result }
{
    A::close(hash, run, work);
    given.len() <= work.len() && differing(work, given) == 0
}

// Is a frame's tag that of its header and body, under the record's key? The tag stands only in the work block.
pub(crate) fn is_signed<H: Hash, A: Algorithm<H>>(
    hash: &mut H,
    record: &KeyRecord,
    frame: &[u8],
    work: &mut [u8; 64],
) -> bool
    ensures { Signed H.Hash.next A.Algorithm.face hash.old hash.new «record».now frame.now result }
{
    let (signed, tag) = frame::split_tag(frame);
    let mut run = A::begin(record);
    A::add(hash, &mut run, signed).is_ok() && is_tag::<H, A>(hash, &mut run, tag, work)
}

// Writes the tag of the first `size` bytes of `out` behind them.
pub(crate) fn tag_behind<H: Hash, A: Algorithm<H>>(
    hash: &mut H,
    record: &KeyRecord,
    t: usize,
    size: usize,
    out: &mut [u8],
    work: &mut [u8; 64],
) -> Result<(), Refusal>
    requires { size ≤ length out.old }
    ensures { Behind H.Hash.next A.Algorithm.face hash.old hash.new «record».now t size out.old out.new result }
{
    let mut run = A::begin(record);
    A::add(hash, &mut run, &out[0..size])?;
    A::end(hash, &mut run, t, &mut out[size..], work)
}
