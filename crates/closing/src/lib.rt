// Closing an epoch in one lot: one look at the lot, then the judgement, which only reads, then the close, section by section.
// It stands on `model`, on `lot` and `writes`, on `lookback` for the held section, on `epoch` and `verdicts` for what is installed, and
// on `survivors` for what stays held.
#![tactic(auto)]

ghost use Rattle.std.specs.Prelude.{◌≡◌, ◌≤◌, ◌<◌, length};
ghost use Rattle.lot.specs.Layout.{SIZE, records_of};
ghost use Rattle.epoch.specs.Closed.{Closable};
ghost use Rattle.closing.specs.Closing.{MarksJudged, Judged, Due, RecordsInstalled, PlacesKept, closed_numbers, CloseDone, LotClosed};

use epoch::Applied;
use lookback::Section;
use lot::{Account, OpenLot};
use model::Refusal;
use verdicts::Verdict;

// The least room for a list: the pieces of 256 entries.
pub const LEAST_LIST: usize = 512;

// Refusal 12.
fn judge_marks(lot: OpenLot) -> Result<(), Refusal>
    ensures { MarksJudged lot.entry.bytes.now result }
{
    epoch::missing_marks(lot.account.limits(lot.streams()))
}

// Refusals 16 and 12.
#[tactic(auto, using(crate::proofs::Judging::too_short))]
pub fn judge_lot(lot: OpenLot, room: usize) -> Result<(), Refusal>
    ensures { Judged lot.entry.bytes.now room result }
{
    if room < LEAST_LIST {
        return Err(Refusal::TooShort);
    }
    judge_marks(lot)
}

// ---- the close

// (A lot is a slice, as in `writes`, which has why.)

// Installs and lists the pieces by the places as they stood, in the records of the lot.
fn install_in(lot: &mut [u8], list: &mut [u32], held: Section<'_>, account: Account) -> Applied
    requires { (length lot.old ≡ SIZE) × (held.count ≡ account.held) × Closable held.bytes.now (records_of lot.old) list.old account.fragments account.held account.closed }
    ensures { RecordsInstalled lot.old lot.new account held.entry.bytes.now list.old list.new result.pieces result.verdicts }
{
    epoch::install_pieces(
        &mut lot[lot::RECORDS],
        list,
        held,
        account.fragments,
        account.closed,
    )
}

// Writes what the verdicts leave of the places as they stood into those of the lot, and answers how many they are.
#[tactic(auto, using(crate::proofs::ClosedLot::places_kept))]
fn keep_in(lot: &mut [u8], held: Section<'_>, verdicts: &[Option<Verdict>; 256]) -> usize
    requires { length lot.old ≡ SIZE }
    ensures { PlacesKept lot.old lot.new held.entry.bytes.now verdicts.now held.entry.count result }
{
    survivors::keep_survivors(&mut lot[lot::PLACES], held, verdicts)
}

// The numbers of an account after a close that leaves so many entries.
fn closed_numbers(account: Account, left: u16) -> Account
    requires { account.closed < 4294967295 }
    ensures { result ≡ closed_numbers account left }
{
    Account {
        held: left,
        closed: account.closed + 1,
        ..account
    }
}

// Closes an epoch that is to be closed, and answers how many pieces it installed.
pub fn close_held(lot: &mut [u8], account: Account, list: &mut [u32]) -> u32
    requires { Due lot.old account list.old }
    ensures { CloseDone lot.old lot.new list.old list.new result }
{
    let old = epoch::snapshot(&lot[lot::PLACES]);
    let held = Section::new(&old, usize::from(account.held));
    let applied = install_in(lot, list, held, account);
    let left = keep_in(lot, held, &applied.verdicts);
    // `left` is at most the held count, which is a u16: `try_from` would have an `Err` that can't be.
    writes::set_head(lot, closed_numbers(account, left as u16));
    applied.pieces
}

// ---- the answer

// Refusals 2, 3, 16 and 12, then the close.
#[tactic(auto, using(crate::proofs::Answers::not_found))]
pub fn close_lot(lot: &mut [u8], number: u32, list: &mut [u32]) -> Result<u32, Refusal>
    requires { length lot.old ≡ SIZE }
    ensures { LotClosed lot.old lot.new number list.old list.new result }
{
    let found = lot::find(lot, number)?;
    judge_lot(found, list.len())?;
    let account = found.account;
    Ok(close_held(lot, account, list))
}
