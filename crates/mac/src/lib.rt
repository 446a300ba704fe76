// One interface for every MAC algorithm over every hash. A key is expanded once into a record; a run takes a record's
// key and is fed the message piece by piece; its end gives the tag. Records and runs are plain words and bytes, laid out
// alike for all algorithms, and the work block in which key material is handled is lent by the caller. An algorithm whose
// runs are streams gives its row and two steps, the making of a record and the close of a run; all else stands here once.
#![tactic(auto)]

ghost use Rattle.std.specs.Prelude.{◌≡◌, ℕ, ◌+◌, ◌-◌, ◌*◌, ◌/◌, ◌%◌, ◌^◌, ◌<◌, ◌≤◌, true, List, [], ◌++◌, length, take, drop, replicate};
ghost use Rattle.hash.specs.Meter.{after};
ghost use Rattle.mac.specs.Face.{Face, Laws, Limits, within, from_one, free, blank, started};
ghost use Rattle.mac.specs.Promises.{wiped, Expanded, Added, Closed, Ended};
ghost use Rattle.mac.specs.Stream.{Streams, Fed, added_of};

use hash::{Hash, absorb};
use refusals::Refusal;
use std::marker::PhantomData;

// Lengths from the least to the most. It is Copy, which std's RangeInclusive is not.
#[derive(Clone, Copy)]
pub struct Span {
    pub least: usize,
    pub most: usize,
}

impl Span {
    pub fn has(self, n: usize) -> bool
        ensures { result ≡ within self n }
    {
        self.least <= n && n <= self.most
    }
}

// The lengths of keys and tags that an algorithm takes, and of its longest message.
#[derive(Clone, Copy)]
pub struct Row {
    pub key: Span,
    pub tag: Span,
    pub message: usize,
}

impl Row {
    // Tags of one byte and more.
    pub fn new(key: Span, longest: usize, message: usize) -> Row
        ensures { result ≡ from_one key longest message }
    {
        Row {
            key,
            tag: Span {
                least: 1,
                most: longest,
            },
            message,
        }
    }
}

// A key made ready: two chains, or a chain and added words, and sixteen bytes. Unused parts are zero.
#[derive(Clone, Copy)]
pub struct KeyRecord {
    pub first: [u32; 8],
    pub second: [u32; 8],
    pub bytes: [u8; 16],
}

// A message under way: how many bytes it has been fed, the chain of its whole blocks, and the bytes left of them.
// `begun` is a flag, and no enum, since a free run is all zeros and laid out like any other.
#[derive(Clone, Copy)]
pub struct Run {
    pub begun: bool,
    pub fed: u32,
    pub chain: [u32; 8],
    pub second: [u32; 8],
    pub bytes: [u8; 16],
    pub held: [u8; 64],
}

impl Run {
    // The words that are added in each round: the second part, where the algorithm needs them.
    fn added(&self, needs: bool) -> [u32; 8]
        ensures { result ≡ added_of needs self.now }
    {
        if needs { self.second } else { [0; 8] }
    }
}

// A work block on loan, wiped as it is let go.
pub struct Wipe<'a> {
    pub block: &'a mut [u8; 64],
}

impl Drop for Wipe<'_> {
    fn drop(self)
        ensures { self.exit.0.now ≡ wiped }
    {
        *self.block = [0; 64];
        let Wipe { block: _ } = self;
    }
}

pub trait Algorithm<H: Hash> {
    ghost face: { Face };

    ghost laws: { Laws face };

    fn row_of() -> Row
        ensures { result ≡ face.row };

    fn needs_added() -> bool
        ensures { result ≡ face.needs };

    // Makes a key ready.
    fn expand(hash: &mut H, key: &[u8], work: &mut [u8; 64]) -> Result<KeyRecord, Refusal>
        ensures made { Expanded H.Hash.next face hash.old hash.new key.now result }
        ensures zeroed { work.new ≡ wiped };

    // A run for no bytes.
    fn begin(record: &KeyRecord) -> Run
        ensures { (k : List ℕ) → face.RecordStands «record».now k → face.RunStands result k [] };

    // Joins a piece at the end.
    fn add(hash: &mut H, run: &mut Run, piece: &[u8]) -> Result<(), Refusal>
        ensures { Added H.Hash.next face hash.old hash.new run.old run.new piece.now result };

    // Makes the last rounds, and leaves the longest tag first in the work block. What the run then holds is free, since
    // `end` frees it.
    fn close(hash: &mut H, run: &mut Run, work: &mut [u8; 64])
        ensures { Closed H.Hash.next face hash.old hash.new run.old work.new };

    // Writes the tag of t bytes, and leaves the run free.
    fn end(
        hash: &mut H,
        run: &mut Run,
        t: usize,
        out: &mut [u8],
        work: &mut [u8; 64],
    ) -> Result<(), Refusal>
        ensures ended { Ended H.Hash.next face hash.old hash.new run.old run.new t out.old out.new result }
        ensures zeroed { work.new ≡ wiped }
    {
        let guard = Wipe { block: work };
        if !run.begun {
            return Err(Refusal::NotBegun);
        }
        if !Self::row_of().tag.has(t) {
            return Err(Refusal::TagLength);
        }
        if out.len() < t {
            return Err(Refusal::Room);
        }
        Self::close(hash, run, guard.block);
        write_front(guard.block, t, out);
        *run = free_run();
        Ok(())
    }

    ghost limits: { Limits face };

    ghost sized: { (k b : List ℕ) (t : ℕ) → within face.row.tag t ≡ true → length (face.tag k b t) ≡ t };
}

// An algorithm whose runs are streams: a run starts from the first words of a record, and each whole block of its bytes
// is one round, under the second words where the hash has to add some. What is left to give is the row and two steps.
pub trait Streamed<H: Hash> {
    ghost face: { Face };

    ghost laws: { Laws face };

    fn lengths() -> Row
        ensures { result ≡ face.row };

    fn adds_words() -> bool
        ensures { result ≡ face.needs };

    // The record of a key. Any key will do, but only one whose length the row has is stood for: `expand` asks.
    fn make_record(hash: &mut H, key: &[u8], work: &mut [u8; 64]) -> KeyRecord
        ensures stands { within face.row.key (length key.now) ≡ true → face.RecordStands result key.now }
        ensures meter { hash.new ≡ after H.Hash.next hash.old face.setup };

    // The last rounds, which leave the longest tag first in the work block.
    fn close_run(hash: &mut H, run: &mut Run, work: &mut [u8; 64])
        ensures { Closed H.Hash.next face hash.old hash.new run.old work.new };

    ghost limits: { Limits face };

    ghost streams: { Streams H.Hash.meaning face };

    ghost sized: { (k b : List ℕ) (t : ℕ) → within face.row.tag t ≡ true → length (face.tag k b t) ≡ t };
}

// The algorithm of such runs. It is a type of its own, so that any other type may implement `Algorithm` in another way.
#[derive(Drop)]
pub struct Streaming<S> {
    pub steps: PhantomData<S>,
}

impl<H: Hash, S: Streamed<H>> Algorithm<H> for Streaming<S> {
    ghost face = { S.Streamed.face };

    ghost laws = { S.Streamed.laws };

    ghost limits = { S.Streamed.limits };

    ghost sized = { S.Streamed.sized };

    fn row_of() -> Row {
        S::lengths()
    }

    fn needs_added() -> bool {
        S::adds_words()
    }

    fn expand(hash: &mut H, key: &[u8], work: &mut [u8; 64]) -> Result<KeyRecord, Refusal> {
        let guard = Wipe { block: work };
        if !S::lengths().key.has(key.len()) {
            return Err(Refusal::KeyLength);
        }
        Ok(S::make_record(hash, key, guard.block))
    }

    fn begin(record: &KeyRecord) -> Run {
        start_run(record)
    }

    fn add(hash: &mut H, run: &mut Run, piece: &[u8]) -> Result<(), Refusal> {
        let added = run.added(S::adds_words());
        feed(hash, run, &added, S::lengths().message as u32, piece)
    }

    fn close(hash: &mut H, run: &mut Run, work: &mut [u8; 64]) {
        S::close_run(hash, run, work);
    }
}

// Asks whether the piece may be joined, and joins it.
fn feed_run<H: Hash>(
    hash: &mut H,
    run: &mut Run,
    added: &[u32; 8],
    most: u32,
    piece: &[u8],
) -> Result<(), Refusal>
    ensures { Fed H.next H.meaning most hash.old hash.new run.old run.new added.now piece.now result }
{
    if !run.begun {
        return Err(Refusal::NotBegun);
    }
    let fed = run.fed as usize;
    if fed + piece.len() > most as usize {
        return Err(Refusal::MessageLength);
    }
    absorb(hash, &mut run.chain, added, &mut run.held, fed, piece);
    run.fed = (fed + piece.len()) as u32;
    Ok(())
}

// Joins a piece to a run, under the added words.
pub fn feed<H: Hash>(
    hash: &mut H,
    run: &mut Run,
    added: &[u32; 8],
    most: u32,
    piece: &[u8],
) -> Result<(), Refusal>
    ensures { Fed H.next H.meaning most hash.old hash.new run.old run.new added.now piece.now result }
{
    feed_run(hash, run, added, most, piece)
}

// A record of zeros, to be filled in.
pub fn blank_record() -> KeyRecord
    ensures { result ≡ blank }
{
    KeyRecord {
        first: [0; 8],
        second: [0; 8],
        bytes: [0; 16],
    }
}

// A free run, all zeros.
pub fn free_run() -> Run
    ensures { result ≡ free }
{
    Run {
        begun: false,
        fed: 0,
        chain: [0; 8],
        second: [0; 8],
        bytes: [0; 16],
        held: [0; 64],
    }
}

// A run of a record, for no bytes.
pub fn start_run(record: &KeyRecord) -> Run
    ensures { result ≡ started «record».now }
{
    Run {
        begun: true,
        fed: 0,
        chain: record.first,
        second: record.second,
        bytes: record.bytes,
        held: [0; 64],
    }
}

// Copies the first `t` bytes of the block to the place to write.
fn write_front(block: &[u8; 64], t: usize, out: &mut [u8])
    requires { (t ≤ 64) × (t ≤ length out.old) }
    ensures { out.new ≡ take t block.now ++ drop t out.old }
{
    out[0..t].copy_from_slice(&block[0..t]);
}
