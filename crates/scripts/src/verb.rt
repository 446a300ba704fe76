// The verbs with which a line begins, and what stands in the fields after each.
ghost use Rattle.std.specs.Prelude.{◌≡◌};
ghost use Rattle.scripts.specs.Form.{name_of, form_of, verbs, verb_in};

#[derive(Clone, Copy)]
pub(crate) enum Verb {
    Node,
    Calling(Deed),
    Meter,
    State,
}

// The calls of a node.
#[derive(Clone, Copy)]
pub(crate) enum Deed {
    Install,
    Clear,
    Open,
    Feed,
    Finish,
    Judge,
    Drop,
    Seal,
    Take,
    Carry,
    Decline,
}

// What may stand in a field: a decimal number up to a limit, or bytes.
#[derive(Clone, Copy)]
pub(crate) enum Field {
    Number(u64),
    Bytes,
}

const SMALL: Field = Field::Number(999);

const SLOT: Field = Field::Number(255);

const LANE: Field = Field::Number(255);

const KIND: Field = Field::Number(255);

const LEVEL: Field = Field::Number(255);

const ADDRESS: Field = Field::Number(65535);

const ROOM: Field = Field::Number(65535);

const PLACE: Field = Field::Number(65535);

const LENGTH: Field = Field::Number(65535);

const NUMBER: Field = Field::Number(4294967295);

const BYTES: Field = Field::Bytes;

const VERBS: [Verb; 14] = [
    Verb::Node,
    Verb::Calling(Deed::Install),
    Verb::Calling(Deed::Clear),
    Verb::Calling(Deed::Open),
    Verb::Calling(Deed::Feed),
    Verb::Calling(Deed::Finish),
    Verb::Calling(Deed::Judge),
    Verb::Calling(Deed::Drop),
    Verb::Calling(Deed::Seal),
    Verb::Calling(Deed::Take),
    Verb::Calling(Deed::Carry),
    Verb::Calling(Deed::Decline),
    Verb::Meter,
    Verb::State,
];

impl Verb {
    pub(crate) fn name(self) -> &'static [u8]
        ensures { result.now ≡ name_of self }
    {
        match self {
            Verb::Node => b"node",
            Verb::Calling(Deed::Install) => b"install",
            Verb::Calling(Deed::Clear) => b"clear",
            Verb::Calling(Deed::Open) => b"open",
            Verb::Calling(Deed::Feed) => b"feed",
            Verb::Calling(Deed::Finish) => b"finish",
            Verb::Calling(Deed::Judge) => b"judge",
            Verb::Calling(Deed::Drop) => b"drop",
            Verb::Calling(Deed::Seal) => b"seal",
            Verb::Calling(Deed::Take) => b"take",
            Verb::Calling(Deed::Carry) => b"carry",
            Verb::Calling(Deed::Decline) => b"decline",
            Verb::Meter => b"meter",
            Verb::State => b"state",
        }
    }

    // What stands in the fields, in their order.
    pub(crate) fn form(self) -> &'static [Field]
        ensures { result.now ≡ form_of self }
    {
        match self {
            Verb::Node => &[SMALL, SMALL, SMALL, ADDRESS],
            Verb::Calling(Deed::Install) => &[SLOT, BYTES],
            Verb::Calling(Deed::Clear) => &[SLOT],
            Verb::Calling(Deed::Open) => &[LANE, SLOT],
            Verb::Calling(Deed::Feed) => &[LANE, BYTES],
            Verb::Calling(Deed::Finish) => &[LANE, ROOM],
            Verb::Calling(Deed::Judge) => &[LANE, BYTES],
            Verb::Calling(Deed::Drop) => &[LANE],
            Verb::Calling(Deed::Seal) => &[SLOT, ADDRESS, KIND, BYTES, ROOM],
            Verb::Calling(Deed::Take) => &[BYTES],
            Verb::Calling(Deed::Carry) => &[SLOT, NUMBER, KIND, LEVEL, PLACE, LENGTH],
            Verb::Calling(Deed::Decline) => &[SLOT, NUMBER, KIND, LEVEL, PLACE, LENGTH],
            Verb::Meter => &[],
            Verb::State => &[],
        }
    }
}

fn verb_among(verbs: &[Verb], word: &[u8]) -> Option<Verb>
    ensures { result ≡ verb_in verbs.now word.now }
{
    for verb in verbs {
        if word == verb.name() {
            return Some(*verb);
        }
    }
    None
}

// The verb of that name.
pub(crate) fn verb_of(word: &[u8]) -> Option<Verb>
    ensures { result ≡ verb_in verbs word.now }
{
    verb_among(&VERBS, word)
}
