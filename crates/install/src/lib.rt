// Installing the pieces of an epoch: each is listed, and its writes are applied to the records, in the order of docs/RULES.md.
// It stands on `verdicts`, which says what is installed, on `lookback` for the held section, on `model` for the kinds of entries, and on
// `lot` for the records.
#![tactic(auto)]

ghost use Rattle.std.specs.Prelude.{◌≡◌, ◌+◌, ◌*◌, ◌≤◌, ◌<◌, length, set};
ghost use Rattle.model.specs.Section.{item_at};
ghost use Rattle.verdicts.specs.Orderly.{Orderly};
ghost use Rattle.install.specs.Writes.{Changed, write_of, writes_before};
ghost use Rattle.install.specs.Order.{Nexts, First, StreamsBelow, Nexts-prop};

use lookback::{Linked, Piece};
use model::Entry;
use verdicts::Verdict;

// ---- what is installed

// For each place the next one of its piece. (`as u8` keeps the number: `u8::try_from` would have an `Err` that can't be.)
fn nexts(linked: &Linked<'_>) -> [Option<u8>; 256]
    ensures { Nexts result linked.now.index.held.bytes.now linked.now.index.held.count }
{
    let mut next = [None; 256];
    for i in 0..linked.index.held.count {
        if let Some(before) = linked.last[i] {
            next[usize::from(before)] = Some(i as u8);
        }
    }
    next
}

// `linked` and `verdicts` are lent by those who made them, so that no array of structs holds last, next and verdict by place.

// The places as they stood when the call began, with a verdict on each, and chained by transaction in both directions.
#[derive(Clone, Copy)]
pub struct Snapshot<'a, 'h> {
    pub linked: &'a Linked<'h>,
    next: [Option<u8>; 256],
    pub verdicts: &'a [Option<Verdict>; 256],
    pub ghost orderly: { Orderly linked.now.index.held.bytes.now linked.now.index.held.count },
    ghost nexts: { Nexts next linked.now.index.held.bytes.now linked.now.index.held.count } by { Nexts-prop next linked.now.index.held.bytes.now linked.now.index.held.count },
}

impl<'a, 'h> Snapshot<'a, 'h> {
    ghost use Rattle.install.specs.Pieces.{count_of, InstalledAll};

    pub fn new(linked: &'a Linked<'h>, verdicts: &'a [Option<Verdict>; 256]) -> Snapshot<'a, 'h>
        requires { Orderly linked.now.index.held.bytes.now linked.now.index.held.count }
        ensures { (result.linked.now ≡ linked.now) × (result.verdicts.now ≡ verdicts.now) }
    {
        Snapshot {
            linked,
            next: nexts(linked),
            verdicts,
        }
    }

    // (Records are a slice, as in `lot`, and a place's number is a plain number, as in `lookback`, which have why.)

    // The first place of place i's piece.
    fn first_of(&self, i: usize) -> usize
        requires { i < self.now.linked.now.index.held.count }
        ensures { First self.now.linked.now.index.held.bytes.now i result }
    {
        let mut first = i;
        // A walk along the chain: there is nothing to count.
        while let Some(before) = self.linked.last[first] {
            first = usize::from(before);
        }
        first
    }

    // Applies the write of place i, if it is one.
    fn write_place(&self, records: &mut [u8], i: usize)
        requires { (length records.old ≡ 5120) × (i < self.now.linked.now.index.held.count) }
        ensures { Changed records.old records.new (item_at self.now.linked.now.index.held.bytes.now i).stream (write_of (item_at self.now.linked.now.index.held.bytes.now i)) }
    {
        let place = self.linked.index.held.place(i);
        if Entry::DELETE < place.kind {
            return;
        }
        let fragment = usize::from(place.piece.fragment);
        let key = usize::from(place.argument);
        if place.kind == Entry::PUT {
            lot::put_record(records, fragment, key, place.value);
        } else {
            lot::delete_record(records, fragment, key);
        }
    }

    // Applies the writes of place i's transaction that stand before it in its stream, in their order.
    fn write_transaction(&self, records: &mut [u8], i: usize)
        requires { (length records.old ≡ 5120) × (i < self.now.linked.now.index.held.count) }
        ensures { Changed records.old records.new (item_at self.now.linked.now.index.held.bytes.now i).stream (writes_before self.now.linked.now.index.held.bytes.now i) }
    {
        // A walk along the chain, which ends at place i: there is nothing to count, and that there is a next place is proved.
        let mut at = self.first_of(i);
        while at != i {
            self.write_place(records, at);
            at = usize::from(self.next[at].unwrap());
        }
    }

    // Where the places of a stream end, those of the streams before it being the first `start`. (Place by place: installing goes over
    // them anyway, and they are bytes, no slice of places for `partition_point`.)
    fn stream_end(&self, fragment: u8, start: usize) -> usize
        requires { StreamsBelow self.now.linked.now.index.held.bytes.now self.now.linked.now.index.held.count fragment start }
        ensures { StreamsBelow self.now.linked.now.index.held.bytes.now self.now.linked.now.index.held.count (fragment + 1) result }
    {
        for i in start..self.linked.index.held.count {
            if self.linked.index.held.place(i).piece.fragment != fragment {
                return i;
            }
        }
        self.linked.index.held.count
    }

    // The places of a stream, which begin at `start`.
    fn stream<'s>(&'s self, fragment: u8, start: usize) -> Stream<'s, 'a, 'h>
        requires { StreamsBelow self.now.linked.now.index.held.bytes.now self.now.linked.now.index.held.count fragment start }
        ensures { (result.snapshot.now ≡ self.now) × (result.fragment ≡ fragment) }
    {
        Stream {
            snapshot: self,
            fragment,
            start,
            end: self.stream_end(fragment, start),
        }
    }

    // Installs the pieces of all streams, stream 0 first, and answers how many there are.
    pub fn install_all(&self, records: &mut [u8], list: &mut [u32], fragments: u8) -> usize
        requires records { length records.old ≡ 5120 }
        requires list { 512 ≤ length list.old }
        requires few { count_of self.now.verdicts.now self.now.linked.now.index.held.bytes.now self.now.linked.now.index.held.count fragments ≤ 256 }
        ensures { InstalledAll self.now.verdicts.now self.now.linked.now.index.held.bytes.now self.now.linked.now.index.held.count fragments list.old list.new records.old records.new result }
    {
        let mut output = Output {
            records,
            list,
            pieces: 0,
        };
        let mut start = 0;
        for fragment in 0..fragments {
            let stream = self.stream(fragment, start);
            stream.install(&mut output);
            start = stream.end;
        }
        output.pieces
    }
}

// ---- what is written

// What installing writes: the records, and the list, which begins with so many pieces (no heap: the caller lends both).
#[derive(Drop)]
struct Output<'o> {
    records: &'o mut [u8],
    list: &'o mut [u32],
    pieces: usize,
}

impl<'o> Output<'o> {
    ghost use Rattle.install.specs.Stream.{Same};

    // Lists a piece after the others.
    fn list_piece(&mut self, piece: Piece)
        requires { (self.old.pieces < 256) × (512 ≤ length self.old.list.now) }
        ensures same { Same self.old self.new }
        ensures listed { self.new.list.now ≡ set (set self.old.list.now (self.old.pieces * 2) piece.fragment) (self.old.pieces * 2 + 1) piece.transaction }
        ensures counted { self.new.pieces ≡ self.old.pieces + 1 }
        ensures records { self.new.records.now ≡ self.old.records.now }
    {
        self.list[self.pieces * 2] = u32::from(piece.fragment);
        self.list[self.pieces * 2 + 1] = piece.transaction;
        self.pieces += 1;
    }
}

// ---- the pieces of a stream

// A piece has a CC or CP that installs, or its P is flagged. (An enum and no closure, since the clauses name it: `picks`.)
#[derive(Clone, Copy, PartialEq, Eq, Debug)]
enum Sort {
    Committed,
    Flagged,
}

impl Sort {
    ghost use Rattle.install.specs.Pieces.{picks};

    // The verdict on an entry of this kind makes it a piece of this sort.
    fn picks(self, verdict: Option<Verdict>, kind: u8) -> bool
        ensures { result ≡ picks self verdict kind }
    {
        match (self, verdict) {
            (Sort::Committed, Some(Verdict::Install)) => kind == Entry::CC || kind == Entry::CP,
            (Sort::Flagged, Some(Verdict::Flag)) => kind == Entry::P,
            _ => false,
        }
    }
}

// The places of a stream, which `fragment` names to the clauses: those from `start` to `end`.
#[derive(Clone, Copy)]
struct Stream<'s, 'a, 'h> {
    snapshot: &'s Snapshot<'a, 'h>,
    fragment: u8,
    start: usize,
    end: usize,
    ghost begins: { StreamsBelow snapshot.now.linked.now.index.held.bytes.now snapshot.now.linked.now.index.held.count fragment start },
    ghost ends: { StreamsBelow snapshot.now.linked.now.index.held.bytes.now snapshot.now.linked.now.index.held.count (fragment + 1) end },
}

impl<'s, 'a, 'h> Stream<'s, 'a, 'h> {
    ghost use Rattle.install.specs.Pieces.{is_piece};
    ghost use Rattle.install.specs.Stream.{piece_in, sort_in, pieces_in, Room, Same, Installs};

    // Place i of the stream is a piece of this sort.
    #[tactic(auto, using(crate::proofs::Groups::piece_here), unfolding(crate::specs::Pieces::is_piece))]
    fn is_piece(&self, sort: Sort, i: usize) -> bool
        requires { (self.now.start ≤ i) × (i < self.now.end) }
        ensures { result ≡ is_piece self.now.snapshot.now.verdicts.now self.now.snapshot.now.linked.now.index.held.bytes.now self.now.fragment sort i }
    {
        sort.picks(
            self.snapshot.verdicts[i],
            self.snapshot.linked.index.held.place(i).kind,
        )
    }

    // Installs place i if it is a piece of this sort.
    fn install_at(&self, output: &mut Output<'_>, sort: Sort, i: usize)
        requires within { (self.now.start ≤ i) × (i < self.now.end) }
        requires room { Room (piece_in self.now sort i) output.old }
        ensures same { Same output.old output.new }
        ensures installs { Installs self.now (piece_in self.now sort i) output.old output.new }
    {
        if self.is_piece(sort, i) {
            output.list_piece(self.snapshot.linked.index.held.place(i).piece);
            self.snapshot.write_transaction(output.records, i);
        }
    }

    // Installs the pieces of one sort, by position. Inlined, so that each sort has a loop of its own.
    #[inline(always)]
    fn install_sort(&self, output: &mut Output<'_>, sort: Sort)
        requires { Room (sort_in self.now sort) output.old }
        ensures same { Same output.old output.new }
        ensures installs { Installs self.now (sort_in self.now sort) output.old output.new }
    {
        for i in self.start..self.end {
            self.install_at(output, sort, i);
        }
    }

    // Installs the pieces: those with CC or CP first, then the flagged ones.
    fn install(&self, output: &mut Output<'_>)
        requires { Room (pieces_in self.now) output.old }
        ensures same { Same output.old output.new }
        ensures installs { Installs self.now (pieces_in self.now) output.old output.new }
    {
        self.install_sort(output, Sort::Committed);
        self.install_sort(output, Sort::Flagged);
    }
}
