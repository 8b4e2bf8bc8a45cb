// What becomes of each transaction in a held section when an epoch is closed, place by place.
// It stands on `model`, whose verdicts these are, on `lookback`, and on `held` for the order of the places.
#![tactic(auto)]

ghost use Rattle.std.specs.Prelude.{◌≡◌, ◌+◌, ◌≤◌, ◌<◌};
ghost use Rattle.model.specs.Section.{item_at};
ghost use Rattle.lookback.specs.Last.{one_past};
ghost use Rattle.verdicts.specs.Orderly.{Orderly};

use lookback::{Linked, Piece, Place};
use model::Entry;

// A transaction's entries are freed, installed and freed, installed with its P flagged, or stay.
#[derive(Clone, Copy, PartialEq, Eq, Debug)]
pub enum Verdict {
    Free,
    Install,
    Flag,
    Stay,
}

// A held section as an epoch is closed.
#[derive(Drop)]
struct Closing<'a> {
    linked: &'a Linked<'a>,
    epoch: u32,
    ghost orderly: { Orderly linked.now.index.held.bytes.now linked.now.index.held.count },
}

impl<'a> Closing<'a> {
    ghost use Rattle.model.specs.Entry.{P};
    ghost use Rattle.lookback.specs.Places.{held_at};
    ghost use Rattle.verdicts.specs.Verdicts.{verdict_of, answer_from, place_at, commits_at, decides, flagged_at, to_flag, decided_by};

    // ---- what the last place of a transaction decides

    // The place that looking back answers. (That it is below the count is proved where it is asked for, here and in the two after it.)
    #[tactic(auto, unfolding(crate::specs::Verdicts::place_at))]
    fn place_at(&self, last: Option<u8>) -> Option<Place>
        requires { one_past last ≤ self.now.linked.now.index.held.count }
        ensures { result ≡ place_at self.now.linked.now.index.held.bytes.now (one_past last) }
    {
        let i = usize::from(last?);
        Some(self.linked.index.held.place(i))
    }

    // The entry at the place that looking back answers is flagged.
    #[tactic(auto, unfolding(crate::specs::Verdicts::flagged_at))]
    fn flagged_at(&self, last: Option<u8>) -> bool
        requires { one_past last ≤ self.now.linked.now.index.held.count }
        ensures { result ≡ flagged_at self.now.linked.now.index.held.bytes.now (one_past last) }
    {
        self.place_at(last).is_some_and(|place| place.flagged)
    }

    // The entry at the place that looking back answers is a CC of an epoch up to this one.
    // (`epoch` is read first: of what a closure that captures `self` answers, nothing is known.)
    #[tactic(auto, unfolding(crate::specs::Verdicts::commits_at))]
    fn commits_at(&self, last: Option<u8>) -> bool
        requires { one_past last ≤ self.now.linked.now.index.held.count }
        ensures { result ≡ commits_at self.now.linked.now.index.held.bytes.now self.now.epoch (one_past last) }
    {
        let epoch = self.epoch;
        self.place_at(last)
            .is_some_and(|place| place.kind == Entry::CC && place.epoch <= epoch)
    }

    // A stream has the transaction's CC, in an epoch up to this one.
    #[tactic(auto, using(lookback::proofs::Chains::last_le), unfolding(crate::specs::Verdicts::decides))]
    fn decides(&self, piece: Piece) -> bool
        ensures { result ≡ decides self.now.linked.now.index.held.bytes.now self.now.linked.now.index.held.count self.now.epoch piece.fragment piece.transaction }
    {
        self.commits_at(self.linked.index.last_of(piece))
    }

    // A place is of a P that is to be flagged: it is not flagged yet, and its coordinator's stream has the CC.
    // (`as u8` keeps the number: `u8::try_from` would have an `Err` that can't be.)
    #[tactic(auto, unfolding(crate::specs::Verdicts::to_flag))]
    fn to_flag(&self, place: Place) -> bool
        requires { place.kind ≡ P → place.argument < 8 }
        ensures { result ≡ to_flag (decides self.now.linked.now.index.held.bytes.now self.now.linked.now.index.held.count self.now.epoch) (held_at place) }
    {
        place.kind == Entry::P
            && !place.flagged
            && self.decides(Piece {
                fragment: place.argument as u8,
                transaction: place.piece.transaction,
            })
    }

    // The verdict that place i decides.
    #[tactic(auto, using(crate::proofs::Backwards::lasts_low, crate::proofs::Backwards::lasts_is), unfolding(crate::specs::Verdicts::decided_by))]
    fn decided_by(&self, i: usize) -> Verdict
        requires { i < self.now.linked.now.index.held.count }
        ensures { result ≡ verdict_of (decided_by (decides self.now.linked.now.index.held.bytes.now self.now.linked.now.index.held.count self.now.epoch) self.now.linked.now.index.held.bytes.now i) }
    {
        let place = self.linked.index.held.place(i);
        match place.kind {
            Entry::A => Verdict::Free,
            Entry::CC => Verdict::Install,
            Entry::CP if self.flagged_at(self.linked.last[i]) => Verdict::Free,
            Entry::CP => Verdict::Install,
            _ if self.to_flag(place) => Verdict::Flag,
            _ => Verdict::Stay,
        }
    }

    // Going back over the places, what place i is answered, where `found` is the verdict found for it at those after it: where none is
    // found, place i decides if it is looked at.
    #[tactic(auto, unfolding(crate::specs::Verdicts::answer_from))]
    fn answer_from(&self, found: Option<Verdict>, i: usize) -> Option<Verdict>
        requires { i < self.now.linked.now.index.held.count }
        ensures { result ≡ answer_from self.now.linked.now.index.held.bytes.now self.now.linked.now.index.held.count self.now.epoch found i }
    {
        if found.is_none() && self.linked.index.held.place(i).epoch <= self.epoch {
            Some(self.decided_by(i))
        } else {
            found
        }
    }
}

ghost use Rattle.verdicts.specs.Verdicts.{Verdicts};

// The verdict on each place, and none on one of a later epoch, which is not looked at. In one pass back over the places: the last one of a
// piece that is looked at decides, and each hands its verdict to the one before it of its piece. A coordinator's CC is looked for along the
// chains.
pub fn verdicts(linked: &Linked<'_>, epoch: u32) -> [Option<Verdict>; 256]
    requires { Orderly linked.now.index.held.bytes.now linked.now.index.held.count }
    ensures { Verdicts result linked.now.index.held.bytes.now linked.now.index.held.count epoch }
{
    let closing = Closing { linked, epoch };
    let mut answers = [None; 256];
    for i in (0..linked.index.held.count).rev() {
        let answer = closing.answer_from(answers[i], i);
        answers[i] = answer;
        if let Some(before) = linked.last[i] {
            answers[usize::from(before)] = answer;
        }
    }
    answers
}
