// The desk's overview: account, closed epoch, held count and damage of each lot. What it owes stands in specs/Overview.antt.
// It stands on `lots`, `lot` and `model`.
#![tactic(auto)]

ghost use Rattle.std.specs.Prelude.{◌≡◌, ◌+◌, ◌*◌, ◌≤◌, length};
ghost use Rattle.lot.specs.Layout.{SIZE};
ghost use Rattle.lots.specs.Memory.{view_of};
ghost use Rattle.overview.specs.Overview.{row_from, row_of, row_at, overview_answer, Overviewed};

use lot::Look;
use model::Refusal;

// One lot's line of the overview, as the desk lends it. (Its fields, and `memory`, `lots` and `lot` below, are numbers, as the promises and the
// functions for C name them.)
#[derive(Clone, Copy, Debug, Default, PartialEq, Eq)]
pub struct Row {
    pub account: u32,
    pub closed: u32,
    pub held: u32,
    pub damaged: u32,
}

impl From<Look> for Row {
    ghost from_gives = { λ look row. row ≡ row_from look };

    fn from(look: Look) -> Row {
        match look {
            Look::Free => Row::default(),
            Look::Damaged => Row {
                damaged: 1,
                ..Row::default()
            },
            Look::Holds(a) => Row {
                account: u32::from(a.number),
                closed: a.closed,
                held: u32::from(a.held),
                damaged: 0,
            },
        }
    }
}

fn row_in(memory: &[u8], lot: usize) -> Row
    requires { lot * SIZE + SIZE ≤ length memory.now }
    ensures { result ≡ row_of (view_of memory.now lot) }
{
    Row::from(lots::look_in(memory, lot))
}

// `as` in this file takes u32 to usize, for which std has no `From`: a `TryFrom` would have an `Err` that can't be.

// The row of one lot, and that of a free one where there is no such lot, for a caller that lends no rows.
pub fn row_at(memory: &[u8], lots: u32, lot: u32) -> Row
    ensures { result ≡ row_at memory.now lots lot }
{
    if !lots::lot_fits(memory, lots, lot) {
        return Row::from(Look::Free);
    }
    row_in(memory, lot as usize)
}

// Refusals 1 and 16, where so many rows are lent.
pub fn overview_answer(memory: &[u8], lots: u32, rows: usize) -> Result<(), Refusal>
    ensures { result ≡ overview_answer memory.now lots rows }
{
    if !lots::memory_fits(memory, lots) {
        return Err(Refusal::NoSuchLot);
    }
    if rows < lots as usize {
        return Err(Refusal::TooShort);
    }
    Ok(())
}

// The desk lends one row for each lot, and the call fills them in.
pub fn overview(memory: &[u8], lots: u32, rows: &mut [Row]) -> Result<(), Refusal>
    ensures { Overviewed memory.now lots rows.old rows.new result }
{
    overview_answer(memory, lots, rows.len())?;
    for (i, row) in rows[..lots as usize].iter_mut().enumerate() {
        *row = row_in(memory, i);
    }
    Ok(())
}
