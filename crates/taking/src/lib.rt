// Delivering one entry to one lot: one look at the lot, then the judgement, which only reads, then the write.
// It stands on `model`, on `lot` and `writes`, on `places` and `lookback` for the held entries, on `entry` and on `stream`.
#![tactic(auto)]

ghost use Rattle.std.specs.Prelude.{◌≡◌, true, ◌*◌, ◌<◌, ◌≤◌, length, drop};
ghost use Rattle.model.specs.Entry.{LAST_MARK};
ghost use Rattle.model.specs.Stages.{stage};
ghost use Rattle.model.specs.Decoding.{counters_of, mine};
ghost use Rattle.model.specs.Section.{items};
ghost use Rattle.lot.specs.Layout.{SIZE, streams_of, places_of};
ghost use Rattle.taking.specs.Delivering.{judge_due, judge_inside, EntryJudged, Judged, Due, StreamStepped, HeldIn, one_more, Taken, Delivered};

use lookback::{Piece, Section};
use lot::{Account, OpenLot};
use model::{Entry, Refusal};

// Refusals 9, 10 and 11, of an entry that is due.
#[tactic(auto, unfolding(crate::specs::Delivering::judge_due))]
fn judge_due(held: Section, open: u32, e: Entry) -> Result<(), Refusal>
    ensures { result ≡ judge_due «open» (stage e.transaction (mine e.fragment (items held.entry.count held.entry.bytes.now))) held.entry.count e }
{
    if e.kind == Entry::MARK {
        if e.transaction == open {
            return Ok(());
        }
        return Err(Refusal::WrongMark);
    }
    let piece = Piece {
        fragment: e.fragment,
        transaction: e.transaction,
    };
    if !entry::takes(e.kind, held.stage_of(piece)) {
        return Err(Refusal::OutOfTurn);
    }
    if usize::from(Account::MOST_HELD) <= held.count {
        return Err(Refusal::Full);
    }
    Ok(())
}

// Refusals 7 to 11, of an entry inside its account.
#[tactic(auto, unfolding(crate::specs::Delivering::judge_inside, entry::specs::Sequence::sequence_of))]
fn judge_inside(lot: OpenLot, e: Entry) -> Result<(), Refusal>
    requires { e.fragment < lot.account.fragments }
    ensures { result ≡ judge_inside (counters_of (drop (e.fragment * 8) (streams_of lot.entry.bytes.now))) (mine e.fragment (items lot.entry.account.held (places_of lot.entry.bytes.now))) lot.entry.account.held e }
{
    let c = lot::read_counters(lot.streams(), usize::from(e.fragment));
    entry::judge_sequence(e.sequence, c.next)?;
    judge_due(lot.held(), c.epoch, e)
}

// Refusals 5 to 11.
#[tactic(auto, using(crate::proofs::Judging::unfit, crate::proofs::Judging::outside, crate::proofs::Judging::within))]
fn judge_entry(lot: OpenLot, e: Entry) -> Result<(), Refusal>
    ensures { EntryJudged lot.entry.bytes.now e result }
{
    if !entry::fits(e) {
        return Err(Refusal::Unfit);
    }
    if !entry::inside(e, lot.account.fragments, lot.account.keys) {
        return Err(Refusal::OutsideAccount);
    }
    judge_inside(lot, e)
}

// Refusals 4 to 11.
#[tactic(auto, using(crate::proofs::Judging::wrong_length))]
pub fn judge_lot(lot: OpenLot, bytes: &[u8]) -> Result<(), Refusal>
    ensures { Judged lot.entry.bytes.now bytes.now result }
{
    if bytes.len() != Entry::LENGTH {
        return Err(Refusal::WrongLength);
    }
    judge_entry(lot, Entry::read(bytes))
}

// ---- writing

// (A lot is a slice, as in `writes`, which has why.)

// Steps the counters of stream i, and answers the epoch that was open there. `mark` is a Bool, as in `stepped` of the model.
#[tactic(auto, using(crate::proofs::Writing::stream_stepped))]
fn step_stream(lot: &mut [u8], i: usize, mark: bool) -> u32
    requires { (length lot.old ≡ SIZE) × (i < 8) × (mark ≡ true → (counters_of (drop (i * 8) (streams_of lot.old))).epoch ≤ LAST_MARK) }
    ensures { StreamStepped lot.old lot.new i mark result }
{
    let c = lot::read_counters(&lot[lot::STREAMS], i);
    writes::set_counters(lot, i, stream::step_counters(c.next, c.epoch, mark));
    c.epoch
}

// Holds an entry where n are held: the places are lent to be written, as bytes and a count. (An entry's bytes are a slice, as in `places`, and a
// stream's number is a plain number, as in `lookback`, which have why.)
#[tactic(auto, using(crate::proofs::Writing::held_in_law))]
fn hold_in(lot: &mut [u8], n: usize, bytes: &[u8], epoch: u32)
    requires { (length lot.old ≡ SIZE) × (n < 256) × (length bytes.now ≡ 16) }
    ensures { HeldIn lot.old lot.new n bytes.now epoch }
{
    places::hold_entry(&mut lot[lot::PLACES], n, bytes, epoch);
}

// The numbers of an account that holds one entry more.
fn one_more(account: Account) -> Account
    requires { account.held < 256 }
    ensures { result ≡ one_more account }
{
    Account {
        held: account.held + 1,
        ..account
    }
}

// Takes an entry that is due: the counters of its stream step, and unless it is a mark it is held.
pub fn take_entry(lot: &mut [u8], account: Account, bytes: &[u8])
    requires { Due lot.old account bytes.now }
    ensures { Taken lot.old lot.new bytes.now }
{
    let e = Entry::read(bytes);
    let mark = e.kind == Entry::MARK;
    let open = step_stream(lot, usize::from(e.fragment), mark);
    if mark {
        return;
    }
    hold_in(lot, usize::from(account.held), bytes, open);
    writes::set_head(lot, one_more(account));
}

// ---- delivering

// Refusals 2 to 11, then the write.
#[tactic(auto, using(crate::proofs::Answers::not_found))]
pub fn deliver_lot(lot: &mut [u8], number: u32, bytes: &[u8]) -> Result<(), Refusal>
    requires { length lot.old ≡ SIZE }
    ensures { Delivered lot.old lot.new number bytes.now result }
{
    let found = lot::find(lot, number)?;
    judge_lot(found, bytes)?;
    let account = found.account;
    take_entry(lot, account, bytes);
    Ok(())
}
