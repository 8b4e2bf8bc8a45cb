// The calls. What each owes stands in specs/.
// A call finds its lot, looks at it once, decides, and only then writes, in that lot alone: the lot is lent on as a part of the memory.
// It stands on `lots`, on `taking`, `closing` and `image`, which deliver to one lot, close an epoch in it, save and load it, on `judging` and `trailer`, which judge data and read their trailer, on `lot` and `model`.
// `memory` and `lots`, `lot` and `account` stay parameters of each call: the promises (specs/Calls.antt, the crate `promises`) and the functions
// for C name them as numbers.
#![tactic(auto)]

ghost use Rattle.std.specs.Prelude.{◌≡◌, ◌+◌, ◌*◌, ◌≤◌, ◌<◌, length, Some, Ok};
ghost use Rattle.model.specs.Account.{MOST_FRAGMENTS, MOST_KEYS};
ghost use Rattle.model.specs.Image.{LONGEST_IMAGE};
ghost use Rattle.model.specs.Taking.{deliver_to};
ghost use Rattle.model.specs.Closing.{close_from};
ghost use Rattle.lot.specs.Layout.{SIZE, records_of};
ghost use Rattle.lot.specs.View.{record_at, account_in};
ghost use Rattle.lot.specs.Writing.{found_of};
ghost use Rattle.lot.specs.declared.Look.TheVariants.{Holds};
ghost use Rattle.image.specs.Saving.{LotSaved};
ghost use Rattle.judging.specs.Judging.{judged_of};
ghost use Rattle.lots.specs.Memory.{lot_of, view_of};
ghost use Rattle.lots.specs.Looks.{look_from};
ghost use Rattle.standby.specs.Calls.{AllFree, Started, open_answer, AccountOpened, TakenBy, Delivered, read_answer, Dropped};
ghost use Rattle.standby.specs.Closing.{ClosedAs, EpochClosed};
ghost use Rattle.standby.specs.Images.{AccountSaved, LoadedAs, AccountLoaded};
ghost use Rattle.standby.specs.Loading.{LoadJudged};

use lot::Look;
use model::Refusal;
use trailer::Trailer;

// Each function `.._in` lends one lot out of the memory, by its range. A function that hands the part out was tried
// (`ensures*` with `Lends`): it gets no proof at a range of a slice.

// ---- start

// Each lot by its index: of a slice that `chunks_exact_mut` lends in parts, std's contract says only its length afterwards.
fn free_lots(memory: &mut [u8], n: usize)
    requires { n * SIZE ≤ length memory.old }
    ensures { AllFree n memory.old memory.new }
{
    for i in 0..n {
        lots::free_in(memory, i);
    }
}

// `as` in this file takes u32 to usize, for which std has no `From`, and in `open_account` what was judged to fit to its own type: a `TryFrom`
// would have an `Err` that can't be.
pub fn start(memory: &mut [u8], lots: u32) -> Result<(), Refusal>
    ensures { Started memory.old memory.new lots result }
{
    if !lots::memory_fits(memory, lots) {
        return Err(Refusal::NoSuchLot);
    }
    free_lots(memory, lots as usize);
    Ok(())
}

// ---- open

fn open_answer(
    memory: &[u8],
    lots: u32,
    account: u32,
    fragments: u32,
    keys: u32,
) -> Result<u32, Refusal>
    ensures { result ≡ open_answer memory.now lots account fragments keys }
{
    if !lots::memory_fits(memory, lots) {
        return Err(Refusal::NoSuchLot);
    }
    let s = lots::survey_lots(memory, lots, Some(account));
    if s.damaged {
        return Err(Refusal::Damaged);
    }
    if !lot::account_fits(account, fragments, keys) {
        return Err(Refusal::UnfitAccount);
    }
    lots::place_in(s)
}

pub fn open_account(
    memory: &mut [u8],
    lots: u32,
    account: u32,
    fragments: u32,
    keys: u32,
) -> Result<u32, Refusal>
    ensures { AccountOpened memory.old memory.new lots account fragments keys result }
{
    let i = open_answer(memory, lots, account, fragments, keys)?;
    lots::open_in(
        memory,
        i as usize,
        account as u16,
        fragments as u8,
        keys as u16,
    );
    Ok(i)
}

// ---- deliver

fn deliver_in(memory: &mut [u8], lot: usize, account: u32, entry: &[u8]) -> Result<(), Refusal>
    requires { lot * SIZE + SIZE ≤ length memory.old }
    ensures { (result ≡ deliver_to (account_in (view_of memory.old lot) account) entry.now) × TakenBy memory.old memory.new lot entry.now result }
{
    taking::deliver_lot(&mut memory[lots::range_of(lot)], account, entry)
}

pub fn deliver(
    memory: &mut [u8],
    lots: u32,
    lot: u32,
    account: u32,
    entry: &[u8],
) -> Result<(), Refusal>
    ensures { Delivered memory.old memory.new lots lot account entry.now result }
{
    if !lots::lot_fits(memory, lots, lot) {
        return Err(Refusal::NoSuchLot);
    }
    deliver_in(memory, lot as usize, account, entry)
}

// ---- close

fn close_in(memory: &mut [u8], lot: usize, account: u32, list: &mut [u32]) -> Result<u32, Refusal>
    requires { lot * SIZE + SIZE ≤ length memory.old }
    ensures { (result ≡ close_from (account_in (view_of memory.old lot) account) (length list.old)) × ClosedAs memory.old memory.new lot list.old list.new result }
{
    closing::close_lot(&mut memory[lots::range_of(lot)], account, list)
}

// The caller lends a list with room for 512 numbers, and the call writes the pairs of the pieces.
pub fn close_epoch(
    memory: &mut [u8],
    lots: u32,
    lot: u32,
    account: u32,
    list: &mut [u32],
) -> Result<u32, Refusal>
    ensures { EpochClosed memory.old memory.new lots lot account list.old list.new result }
{
    if !lots::lot_fits(memory, lots, lot) {
        return Err(Refusal::NoSuchLot);
    }
    close_in(memory, lot as usize, account, list)
}

// ---- read

pub fn read_record(
    memory: &[u8],
    lots: u32,
    lot: u32,
    account: u32,
    fragment: u32,
    key: u32,
) -> Result<Option<u32>, Refusal>
    ensures { result ≡ read_answer memory.now lots lot account fragment key }
{
    let found = lots::find(memory, lots, lot, account)?;
    let a = found.account;
    if fragment < u32::from(a.fragments) && key < u32::from(a.keys) {
        Ok(found.record_at(fragment as usize, key as usize))
    } else {
        Err(Refusal::OutsideAccount)
    }
}

// ---- save

// The caller lends a buffer with room for the longest image.
pub fn save_account(
    memory: &[u8],
    lots: u32,
    lot: u32,
    account: u32,
    image: &mut [u8],
) -> Result<u32, Refusal>
    ensures { AccountSaved memory.now lots lot account image.old image.new result }
{
    let open_lot = lots::find(memory, lots, lot, account)?;
    if image.len() < image::LONGEST {
        return Err(Refusal::TooShort);
    }
    Ok(image::save_lot(open_lot.bytes, open_lot.account, image))
}

// ---- load

// The lot to load into, and the numbers of the image. The data are judged before the lots are looked at, so that one look at each lot
// also tells whether the account is open.
fn load_answer(memory: &[u8], lots: u32, data: &[u8]) -> Result<(u32, Trailer), Refusal>
    ensures { LoadJudged memory.now lots «data».now result }
{
    if !lots::memory_fits(memory, lots) {
        return Err(Refusal::NoSuchLot);
    }
    let judged = judging::judge_image(data);
    let survey = lots::survey_lots(memory, lots, judged.map(|t| u32::from(t.account.number)));
    if survey.damaged {
        return Err(Refusal::Damaged);
    }
    let t = judged.ok_or(Refusal::NotAccepted)?;
    let lot = lots::place_in(survey)?;
    Ok((lot, t))
}

// Loads accepted data into one lot; t is what judging the data found.
fn load_in(memory: &mut [u8], lot: usize, data: &[u8], t: Trailer)
    requires { (lot * SIZE + SIZE ≤ length memory.old) × (judged_of «data».now ≡ Some t) }
    ensures { LoadedAs memory.old memory.new «data».now (Ok lot) }
{
    image::load_lot(&mut memory[lots::range_of(lot)], data, t);
}

pub fn load_account(memory: &mut [u8], lots: u32, data: &[u8]) -> Result<u32, Refusal>
    ensures { AccountLoaded memory.old memory.new lots «data».now result }
{
    let (lot, t) = load_answer(memory, lots, data)?;
    load_in(memory, lot as usize, data, t);
    Ok(lot)
}

// ---- drop

pub fn drop_account(memory: &mut [u8], lots: u32, lot: u32, account: u32) -> Result<(), Refusal>
    ensures { Dropped memory.old memory.new lots lot account result }
{
    if !lots::lot_fits(memory, lots, lot) {
        return Err(Refusal::NoSuchLot);
    }
    let look = lots::look_in(memory, lot as usize);
    if !(look == Look::Damaged || lots::looks_of(look, account)) {
        return Err(Refusal::NotThisAccount);
    }
    lots::free_in(memory, lot as usize);
    Ok(())
}
