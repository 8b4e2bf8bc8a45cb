// Looking back in a held section: the last place of a stream and a transaction, and the stage that it says.
// It stands on `wire`, `model` and `entry`.
#![tactic(auto)]

ghost use Rattle.std.specs.Prelude.{◌≡◌, ◌+◌, ◌≤◌, ◌<◌, ◌*◌, length};
ghost use Rattle.model.specs.Decoding.{mine};
ghost use Rattle.model.specs.Stages.{stage};
ghost use Rattle.model.specs.Section.{item_at, items};
ghost use Rattle.lookback.specs.Places.{place_of, stage_at};
ghost use Rattle.lookback.specs.Last.{one_past, last_with, is_of, last_before, Lasts, Lasts-prop, bucket_of, bucket_at, Indexed, Walk};

use model::Stage;

// What a transaction has in one stream.
#[derive(Clone, Copy, Debug, PartialEq, Eq)]
pub struct Piece {
    pub fragment: u8,
    pub transaction: u32,
}

impl Piece {
    #[tactic(auto, unfolding(crate::specs::Last::bucket_of))]
    pub fn bucket(self) -> usize
        ensures { (result ≡ bucket_of self.fragment self.transaction) × (result < 256) }
    {
        let number = u64::from(self.transaction) * 2654435761 / 16777216;
        ((number + u64::from(self.fragment)) % 256) as usize
    }
}

// A held entry, as its place has it. `argument` is the key of a put or a delete, and the coordinator of a P.
#[derive(Clone, Copy, Debug, PartialEq, Eq)]
pub struct Place {
    pub piece: Piece,
    pub kind: u8,
    pub argument: u16,
    pub flagged: bool,
    pub value: u32,
    pub epoch: u32,
}

// A held section: `count` places of 20 bytes each, which the bytes begin with.
#[derive(Clone, Copy)]
pub struct Section<'a> {
    pub bytes: &'a [u8],
    pub count: usize,
    pub ghost few: { count ≤ 256 },
    pub ghost within: { count * 20 ≤ length bytes.now },
}

impl<'a> Section<'a> {
    pub fn new(bytes: &'a [u8], count: usize) -> Section<'a>
        requires { (count ≤ 256) × (count * 20 ≤ length bytes.now) }
        ensures { (result.bytes.now ≡ bytes.now) × (result.count ≡ count) }
    {
        Section { bytes, count }
    }

    // Place i. (Its number is a plain number: that it is below the count is proved where it is used.)
    #[tactic(auto, using(crate::proofs::Places::kind_is, crate::proofs::Places::stream_is, crate::proofs::Places::transaction_is, crate::proofs::Places::argument_is, crate::proofs::Places::flagged_is, crate::proofs::Places::value_is, crate::proofs::Places::epoch_is))]
    pub fn place(self, i: usize) -> Place
        requires { i < self.count }
        ensures { result ≡ place_of (item_at self.entry.bytes.now i) }
    {
        let at = i * 20;
        Place {
            piece: Piece {
                fragment: self.bytes[at + 1],
                transaction: wire::get(self.bytes, at + 4),
            },
            kind: self.bytes[at],
            argument: wire::get(self.bytes, at + 8),
            flagged: self.bytes[at + 11] == 1,
            value: wire::get(self.bytes, at + 12),
            epoch: wire::get(self.bytes, at + 16),
        }
    }

    // Place i is of this piece.
    #[tactic(auto, unfolding(crate::specs::Last::is_of))]
    fn is_of(self, piece: Piece, i: usize) -> bool
        requires { i < self.count }
        ensures { result ≡ is_of self.entry.bytes.now piece.fragment piece.transaction i }
    {
        self.place(i).piece == piece
    }

    // ---- the last place of a transaction

    // Among the places before `end`, the last of a piece: looked for backwards. (`as u8` keeps the number of a place, here and below, and a
    // bucket's: `try_from` would have an `Err` that can't be.)
    #[tactic(auto, using(crate::proofs::Chains::last_turn), unfolding(crate::specs::Last::last_with))]
    pub fn last_of(self, piece: Piece, end: usize) -> Option<u8>
        requires { end ≤ self.count }
        ensures { one_past result ≡ last_with (is_of self.entry.bytes.now piece.fragment piece.transaction) end }
    {
        for i in (0..end).rev() {
            if self.is_of(piece, i) {
                return Some(i as u8);
            }
        }
        None
    }

    // The stage that such a place says.
    #[tactic(auto, unfolding(crate::specs::Places::stage_at))]
    pub fn stage_at(self, last: Option<u8>) -> Stage
        requires { one_past last ≤ self.count }
        ensures { result ≡ stage_at self.entry.bytes.now (one_past last) }
    {
        match last {
            Some(i) => entry::stage_after(self.place(usize::from(i)).kind),
            None => Stage::Unheard,
        }
    }

    // The stage of a piece after all places.
    #[tactic(auto, using(crate::proofs::Chains::last_le, crate::proofs::Places::stage_last))]
    pub fn stage_of(self, piece: Piece) -> Stage
        ensures { result ≡ stage piece.transaction (mine piece.fragment (items self.entry.count self.entry.bytes.now)) }
    {
        self.stage_at(self.last_of(piece, self.count))
    }
}

// Places chained by their buckets, in their order: the last place of each bucket, and for each place the one before it in
// its bucket. `head` is by bucket and `next` by place, so they are two arrays.
#[derive(Clone, Copy)]
pub struct Index<'a> {
    pub held: Section<'a>,
    pub chained: usize,
    pub head: [Option<u8>; 256],
    pub next: [Option<u8>; 256],
    pub ghost within: { chained ≤ held.count },
    pub ghost indexed: { Indexed held.bytes.now head next chained },
}

impl<'a> Index<'a> {
    // None of the places is chained.
    pub fn new(held: Section<'a>) -> Index<'a>
        ensures { (result.held ≡ held.entry) × (result.chained ≡ 0) }
    {
        Index {
            held,
            chained: 0,
            head: [None; 256],
            next: [None; 256],
        }
    }

    // Chains the next place, whose bucket is b.
    fn chain(&mut self, b: usize)
        requires { (self.old.chained < self.old.held.count) × (b ≡ bucket_at self.old.held.bytes.now self.old.chained) × (b < 256) }
        ensures { (self.new.held ≡ self.old.held) × (self.new.chained ≡ self.old.chained + 1) }
    {
        let i = self.chained;
        self.next[i] = self.head[b];
        self.head[b] = Some(i as u8);
        self.chained = i + 1;
    }

    // Chains the next place, and answers the last one before it of its piece. Inlined, as `last_from` is.
    #[inline(always)]
    pub fn add(&mut self) -> Option<u8>
        requires { self.old.chained < self.old.held.count }
        ensures { (self.new.held ≡ self.old.held) × (self.new.chained ≡ self.old.chained + 1) × (one_past result ≡ last_before self.old.held.bytes.now self.old.chained) }
    {
        let piece = self.held.place(self.chained).piece;
        let b = piece.bucket();
        let last = self.last_from(self.head[b], piece);
        self.chain(b);
        last
    }

    // Among the chained places, the last of a piece.
    pub fn last_of(&self, piece: Piece) -> Option<u8>
        ensures { one_past result ≡ last_with (is_of self.now.held.bytes.now piece.fragment piece.transaction) self.now.chained }
    {
        let start = self.head[piece.bucket()];
        self.last_from(start, piece)
    }

    // As `last_of`, along the chain of the bucket from its head; after 16 places of it, where many share the bucket, backwards. Inlined: as a
    // call, with the index in memory, the damage test took 1.6 times as long.
    #[inline(always)]
    #[tactic(auto, using(crate::proofs::Chains::walk_end))]
    fn last_from(&self, start: Option<u8>, piece: Piece) -> Option<u8>
        requires { Walk self.now.held.bytes.now piece.fragment piece.transaction self.now.chained (one_past start) }
        ensures { one_past result ≡ last_with (is_of self.now.held.bytes.now piece.fragment piece.transaction) self.now.chained }
    {
        let mut at = start;
        for _ in 0..16 {
            let i = at?;
            if self.held.is_of(piece, usize::from(i)) {
                return at;
            }
            at = self.next[usize::from(i)];
        }
        let i = at?;
        self.held.last_of(piece, usize::from(i) + 1)
    }
}

// A held section whose places are all chained, with the last place before each of its piece. (`last` is an array of its own beside those of the
// index, since the damage test makes an index and no `last`.)
#[derive(Clone, Copy)]
pub struct Linked<'a> {
    pub index: Index<'a>,
    pub last: [Option<u8>; 256],
    pub ghost chained: { index.chained ≡ index.held.count },
    pub ghost lasts: { Lasts last index.held.bytes.now index.held.count } by { Lasts-prop last index.held.bytes.now index.held.count },
}

impl<'a> Linked<'a> {
    // In one pass: a place goes back along its bucket, so the time grows with the count alone unless many transactions share a bucket.
    #[tactic(auto, using(crate::proofs::Chains::lasts_none))]
    pub fn new(held: Section<'a>) -> Linked<'a>
        ensures { result.index.held ≡ held.entry }
    {
        let mut last = [None; 256];
        let mut index = Index::new(held);
        for i in 0..held.count {
            last[i] = index.add();
        }
        Linked { index, last }
    }
}
