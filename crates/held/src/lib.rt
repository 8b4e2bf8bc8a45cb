// The test of a held section, in one pass over its places: load and the damage test of a lot share it.
// It stands on `wire`, `model`, `entry` and `lookback`.
#![tactic(auto)]

ghost use Rattle.std.specs.Prelude.{◌≡◌, [], ◌+◌, ◌*◌, ◌≤◌, ◌<◌, length, drop};
ghost use Rattle.model.specs.Accepting.{entry_fits, follows};
ghost use Rattle.model.specs.Decoding.{counters_of, counters_at, parse};
ghost use Rattle.model.specs.Section.{plain_place, section_fits};
ghost use Rattle.lookback.specs.Last.{one_past, last_before};
ghost use Rattle.lookback.specs.Places.{held_at};
ghost use Rattle.held.specs.Place.{in_order, flag_fits, place_fits};

use lookback::{Index, Place, Section};
use model::{Entry, Stage};

// What limits the entries held of an account: its fragments and keys, its closed epoch, and the open epochs of its streams, whose
// counters stand 8 bytes apart.
#[derive(Clone, Copy)]
pub struct Limits<'a> {
    pub streams: &'a [u8],
    pub fragments: u8,
    pub keys: u16,
    pub closed: u32,
    pub ghost within: { fragments * 8 ≤ length streams.now },
}

impl<'a> Limits<'a> {
    // The open epoch of a stream; outside the account, a fresh stream's.
    #[tactic(auto, using(crate::proofs::Fields::epoch_within, crate::proofs::Fields::epoch_outside))]
    pub fn open_epoch(self, stream: u8) -> u32
        ensures { result ≡ (counters_at (parse self.entry.fragments 8 counters_of self.entry.streams.now) stream).epoch }
    {
        if stream < self.fragments {
            wire::get(self.streams, usize::from(stream) * 8 + 4)
        } else {
            1
        }
    }

    // The entry of a place keeps the limits by itself. (By `&`, here and in `plain_place`: with `&&` the damage test took 1.1 times as long.)
    #[tactic(auto, using(crate::proofs::Fields::entry_is))]
    fn entry_fits(self, place: Place) -> bool
        ensures { result ≡ entry_fits self.entry.fragments self.entry.keys place.piece.fragment (held_at place) }
    {
        (place.kind <= Entry::A)
            & entry::fields_fit(
                place.kind,
                place.piece.transaction,
                place.argument,
                place.value,
            )
            & entry::in_account(
                self.fragments,
                self.keys,
                place.kind,
                place.piece.fragment,
                place.argument,
            )
    }

    // A flag stands only on a P, of an epoch already closed, with no writes held.
    #[tactic(auto, unfolding(crate::specs::Place::flag_fits))]
    fn flag_fits(self, place: Place, stage: Stage) -> bool
        ensures { result ≡ flag_fits self.entry.closed stage (held_at place) }
    {
        !place.flagged
            || (place.kind == Entry::P && place.epoch <= self.closed && stage == Stage::Unheard)
    }

    // The entry of a place comes in turn: the stage of its transaction takes it, and its epoch suits it.
    #[tactic(auto, using(crate::proofs::Fields::turn_is))]
    fn in_turn(self, place: Place, stage: Stage) -> bool
        ensures { result ≡ follows self.entry.closed (counters_at (parse self.entry.fragments 8 counters_of self.entry.streams.now) place.piece.fragment).epoch [] stage (held_at place) }
    {
        1 <= place.epoch
            && place.epoch <= self.open_epoch(place.piece.fragment)
            && entry::takes(place.kind, stage)
            && (place.kind < Entry::CC || self.closed < place.epoch)
            && self.flag_fits(place, stage)
    }
}

// (A place's number is a plain number in these, as in `lookback`, which has why.)

// The bytes that place i does not use are zero, and its flag is 0 or 1.
#[tactic(auto, using(crate::proofs::Fields::plain_is))]
fn plain_place(held: Section, i: usize) -> bool
    requires { i < held.count }
    ensures { result ≡ plain_place (drop (i * 20) held.entry.bytes.now) }
{
    let at = i * 20;
    (held.bytes[at + 2] == 0)
        & (held.bytes[at + 3] == 0)
        & (held.bytes[at + 10] == 0)
        & (held.bytes[at + 11] <= 1)
}

// Place i stands in the order of streams, and in its stream of epochs, after the place before it.
#[tactic(auto, using(crate::proofs::Fields::order_is), unfolding(crate::specs::Place::in_order, crate::specs::Place::may_follow))]
fn in_order(held: Section, i: usize) -> bool
    requires { i < held.count }
    ensures { result ≡ in_order held.entry.bytes.now i }
{
    if i == 0 {
        return true;
    }
    let before = held.place(i - 1);
    let place = held.place(i);
    (before.piece.fragment, before.epoch) <= (place.piece.fragment, place.epoch)
}

// Place i fits; `last` is what looking back from it finds.
#[tactic(auto, using(crate::proofs::Fields::place_is))]
fn place_fits(limits: Limits, held: Section, last: Option<u8>, i: usize) -> bool
    requires { (i < held.count) × (one_past last ≡ last_before held.bytes.now i) }
    ensures { result ≡ place_fits limits.entry.keys limits.entry.closed (parse limits.entry.fragments 8 counters_of limits.entry.streams.now) held.entry.bytes.now i }
{
    let place = held.place(i);
    let stage = held.stage_at(last);
    plain_place(held, i)
        && in_order(held, i)
        && limits.entry_fits(place)
        && limits.in_turn(place, stage)
}

// The places fit. A place is chained as its last one is looked for.
pub fn section_fits(limits: Limits, held: Section) -> bool
    ensures { result ≡ section_fits limits.entry.keys limits.entry.closed (parse limits.entry.fragments 8 counters_of limits.entry.streams.now) held.entry.count held.entry.bytes.now }
{
    let mut index = Index::new(held);
    for i in 0..held.count {
        if !place_fits(limits, held, index.add(), i) {
            return false;
        }
    }
    true
}
