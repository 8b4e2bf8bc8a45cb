// Lots in lent memory: what a call finds in the lot and the account that it names, what it learns of all lots, and how it lends one lot on to be written.
// It stands on `model`, `lot` and `writes`.
#![tactic(auto)]

ghost use Rattle.std.specs.Prelude.{◌≡◌, true, ◌+◌, ◌*◌, ◌^◌, ◌<◌, ◌≤◌, length, Ok, Err, MatchResult};
ghost use Rattle.model.specs.Account.{account_fits, fresh};
ghost use Rattle.lot.specs.Layout.{SIZE};
ghost use Rattle.lot.specs.View.{free, holds};
ghost use Rattle.lots.specs.Memory.{memory_fits, lot_fits, lot_of, view_of, Becomes, named};
ghost use Rattle.lots.specs.Looks.{look_from, looks_of, finding_of, survey_of, with_look, place_in};

use lot::{Look, OpenLot};
use model::Refusal;
use std::ops::Range;

pub const MOST_LOTS: u32 = 16;

// ---- one lot

// `as` in this file takes u32 to usize, for which std has no `From`: a `TryFrom` would have an `Err` that can't be.

// Refusal 1. (It and `lot_fits` are the definitions' tests, can't fail, and are no `Result`: each call refuses at its place in the order of docs/RULES.md, and
// `row_at` of `overview` refuses nothing.)
#[tactic(auto, unfolding(crate::specs::Memory::memory_fits, model::specs::Lists::every))]
pub fn memory_fits(memory: &[u8], lots: u32) -> bool
    ensures { result ≡ memory_fits lots memory.now }
{
    1 <= lots && lots <= MOST_LOTS && memory.len() == lots as usize * lot::SIZE
}

#[tactic(auto, unfolding(crate::specs::Memory::lot_fits))]
pub fn lot_fits(memory: &[u8], lots: u32, lot: u32) -> bool
    ensures { result ≡ lot_fits lots lot memory.now }
{
    memory_fits(memory, lots) && lot < lots
}

// Where a lot stands in the memory.
pub fn range_of(lot: usize) -> Range<usize>
    requires { lot * SIZE + SIZE < 2 ^ 64 }
    ensures { (result.start ≡ lot * SIZE) × (result.end ≡ lot * SIZE + SIZE) }
{
    let start = lot * lot::SIZE;
    start..start + lot::SIZE
}

// The bytes of one lot, to read.
pub fn lot_in(memory: &[u8], lot: usize) -> &[u8]
    requires { lot * SIZE + SIZE ≤ length memory.now }
    ensures { result.now ≡ lot_of memory.now lot }
{
    &memory[range_of(lot)]
}

pub fn look_in(memory: &[u8], lot: usize) -> Look
    requires { lot * SIZE + SIZE ≤ length memory.now }
    ensures { result ≡ look_from (view_of memory.now lot) }
{
    lot::look_at(lot_in(memory, lot))
}

// Whether a lot is this account's.
pub fn looks_of(look: Look, account: u32) -> bool
    ensures { result ≡ looks_of account look }
{
    matches!(look, Look::Holds(a) if u32::from(a.number) == account)
}

// ---- a lot and an account are named

// What such a call finds: the lot with the numbers of its account, or 1, 2 or 3. (It has the calls' own parameters, which the promises and the
// functions for C name as numbers.)
pub fn find(memory: &[u8], lots: u32, lot: u32, account: u32) -> Result<OpenLot<'_>, Refusal>
    ensures { MatchResult result (λ found. (found.bytes.now ≡ lot_of memory.now lot) × (finding_of (named memory.now lots lot account) ≡ Ok found.account)) (λ refusal. finding_of (named memory.now lots lot account) ≡ Err refusal) }
{
    if !lot_fits(memory, lots, lot) {
        return Err(Refusal::NoSuchLot);
    }
    lot::find(lot_in(memory, lot as usize), account)
}

// ---- all lots

// What a call that opens an account learns of all lots: some lot is damaged, the account is open in one, and the free lot with
// the lowest number, if one is free. (That one is damaged is told as the others are: `survey_lots` can't fail, and the calls refuse.)
#[derive(Clone, Copy, Debug, Default, PartialEq, Eq)]
pub struct Survey {
    pub damaged: bool,
    pub known: bool,
    pub free: Option<u32>,
}

fn with_look(s: Survey, i: u32, look: Look, account: Option<u32>) -> Survey
    ensures { result ≡ with_look s i look account }
{
    let free = (look == Look::Free).then_some(i);
    Survey {
        damaged: s.damaged || look == Look::Damaged,
        known: s.known || account.is_some_and(|number| looks_of(look, number)),
        free: s.free.or(free),
    }
}

// A survey for no account finds none open.
pub fn survey_lots(memory: &[u8], lots: u32, account: Option<u32>) -> Survey
    requires { lots * SIZE ≤ length memory.now }
    ensures { result ≡ survey_of memory.now account lots }
{
    let mut s = Survey::default();
    for i in 0..lots {
        s = with_look(s, i, look_in(memory, i as usize), account);
    }
    s
}

// 13 and 14 of a call that opens an account: the lot in which it is opened.
pub fn place_in(s: Survey) -> Result<u32, Refusal>
    ensures { result ≡ place_in s }
{
    if s.known {
        return Err(Refusal::AlreadyOpen);
    }
    s.free.ok_or(Refusal::NoFreeLot)
}

// ---- writing in one lot: it is lent on, and every other byte stays

// (`.._in` asks for a lot within the memory: `standby` has why no function hands one out to be written.)

pub fn free_in(memory: &mut [u8], lot: usize)
    requires { lot * SIZE + SIZE ≤ length memory.old }
    ensures { Becomes lot memory.old memory.new free }
{
    writes::free_lot(&mut memory[range_of(lot)]);
}

pub fn open_in(memory: &mut [u8], lot: usize, number: u16, fragments: u8, keys: u16)
    requires { (lot * SIZE + SIZE ≤ length memory.old) × (account_fits number fragments keys ≡ true) }
    ensures { Becomes lot memory.old memory.new (holds (fresh number fragments keys)) }
{
    writes::open_lot(&mut memory[range_of(lot)], number, fragments, keys);
}
