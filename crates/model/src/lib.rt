// What a reader must believe: one account of the standby as definitions, in specs/, and what follows from
// them alone, in proofs/. Here stand only the types that the definitions share with the code.
#![tactic(auto)]

ghost use Rattle.std.specs.Prelude.{◌≡◌, ◌≤◌, length};
ghost use Rattle.model.specs.Entry.{LENGTH, entry_of};
ghost use Rattle.model.specs.Account.{fresh_counters};

// The stage of a transaction in a stream, by what is held of it there.
#[derive(Clone, Copy, Debug, PartialEq, Eq)]
pub enum Stage {
    Unheard,
    Writing,
    Prepared,
    Ended,
}

// The fields of an entry's 16 bytes. `argument` is the key of a put or a delete, and the coordinator fragment of a P;
// `transaction` is a mark's epoch; `spare` is bytes 10 and 11.
#[derive(Clone, Copy, Debug, PartialEq, Eq)]
pub struct Entry {
    pub kind: u8,
    pub fragment: u8,
    pub sequence: u16,
    pub transaction: u32,
    pub argument: u16,
    pub spare: u16,
    pub value: u32,
}

impl Entry {
    pub const LENGTH: usize = 16;

    // A kind is a number and no enum: 16 bytes may carry any, which refusal 5 judges; docs/DECISIONS.md, "Forms", has its numbers as constants.
    pub const PUT: u8 = 1;

    pub const DELETE: u8 = 2;

    pub const P: u8 = 3;

    pub const CC: u8 = 4;

    pub const CP: u8 = 5;

    pub const A: u8 = 6;

    pub const MARK: u8 = 7;

    pub const LAST_MARK: u32 = 4294967294;

    // The fields of 16 bytes. (A slice: an entry that is offered may be of any length, which refusal 4 judges.)
    #[tactic(auto, unfolding(crate::specs::Entry::entry_of))]
    pub fn read(bytes: &[u8]) -> Entry
        requires { LENGTH ≤ length bytes.now }
        ensures { result ≡ entry_of bytes.now }
    {
        Entry {
            kind: bytes[0],
            fragment: bytes[1],
            sequence: wire::get(bytes, 2),
            transaction: wire::get(bytes, 4),
            argument: wire::get(bytes, 8),
            spare: wire::get(bytes, 10),
            value: wire::get(bytes, 12),
        }
    }
}

// One stream's two counters: its next sequence number and its open epoch.
#[derive(Clone, Copy, Debug, PartialEq, Eq)]
pub struct Counters {
    pub next: u16,
    pub epoch: u32,
}

impl Counters {
    // Those of a stream of which nothing has been taken.
    pub fn fresh() -> Counters
        ensures { result ≡ fresh_counters }
    {
        Counters { next: 0, epoch: 1 }
    }
}

// Why a call is refused: every call answers a `Result` with it. Each case's number stands in specs/Answers.antt.
#[derive(Clone, Copy, Debug, PartialEq, Eq)]
pub enum Refusal {
    NoSuchLot,
    Damaged,
    NotThisAccount,
    WrongLength,
    Unfit,
    OutsideAccount,
    Seen,
    Gap,
    WrongMark,
    OutOfTurn,
    Full,
    MarkMissing { streams: u8, how_many: u8 },
    AlreadyOpen,
    NoFreeLot,
    UnfitAccount,
    TooShort,
    NotAccepted,
}

// An answer as numbers: its own number (0 done, otherwise the refusal's) and two more. specs/Answers.antt says them for
// each answer.
#[derive(Clone, Copy, Debug, PartialEq, Eq)]
pub struct Numbers {
    pub number: u32,
    pub first: u32,
    pub second: u32,
}
