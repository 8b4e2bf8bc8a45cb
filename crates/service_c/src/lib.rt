// The archive for C: the nine functions that include/standby.h declares, under their names there. Each is the function of
// `service` of that name, with its contract.
#![tactic(auto)]

ghost use Rattle.std.specs.Prelude.{◌≡◌};
ghost use Rattle.model.specs.Answers.{outcome_numbers, opened_numbers, closed_numbers, found_numbers, saved_numbers};
ghost use Rattle.standby.specs.Calls.{Started, AccountOpened, Delivered, read_answer, Dropped};
ghost use Rattle.standby.specs.Images.{AccountSaved, AccountLoaded};
ghost use Rattle.service.specs.Packing.{packed, Answered};
ghost use Rattle.service.specs.Crossing.{ListClosed, RowsFilled};

#[unsafe(no_mangle)]
pub extern "C" fn standby_start(memory: &mut [u8], lots: u32) -> u64
    ensures { Answered outcome_numbers (Started memory.old memory.new lots) result }
{
    service::standby_start(memory, lots)
}

#[unsafe(no_mangle)]
pub extern "C" fn standby_open(
    memory: &mut [u8],
    lots: u32,
    account: u32,
    fragments: u32,
    keys: u32,
) -> u64
    ensures { Answered opened_numbers (AccountOpened memory.old memory.new lots account fragments keys) result }
{
    service::standby_open(memory, lots, account, fragments, keys)
}

#[unsafe(no_mangle)]
pub extern "C" fn standby_deliver(
    memory: &mut [u8],
    lots: u32,
    lot: u32,
    account: u32,
    entry: &[u8],
) -> u64
    ensures { Answered outcome_numbers (Delivered memory.old memory.new lots lot account entry.now) result }
{
    service::standby_deliver(memory, lots, lot, account, entry)
}

#[unsafe(no_mangle)]
pub extern "C" fn standby_read(
    memory: &[u8],
    lots: u32,
    lot: u32,
    account: u32,
    fragment: u32,
    key: u32,
) -> u64
    ensures { result ≡ packed (found_numbers (read_answer memory.now lots lot account fragment key)) }
{
    service::standby_read(memory, lots, lot, account, fragment, key)
}

#[unsafe(no_mangle)]
pub extern "C" fn standby_save(
    memory: &[u8],
    lots: u32,
    lot: u32,
    account: u32,
    image: &mut [u8],
) -> u64
    ensures { Answered saved_numbers (AccountSaved memory.now lots lot account image.old image.new) result }
{
    service::standby_save(memory, lots, lot, account, image)
}

#[unsafe(no_mangle)]
pub extern "C" fn standby_load(memory: &mut [u8], lots: u32, data: &[u8]) -> u64
    ensures { Answered opened_numbers (AccountLoaded memory.old memory.new lots «data».now) result }
{
    service::standby_load(memory, lots, data)
}

#[unsafe(no_mangle)]
pub extern "C" fn standby_drop(memory: &mut [u8], lots: u32, lot: u32, account: u32) -> u64
    ensures { Answered outcome_numbers (Dropped memory.old memory.new lots lot account) result }
{
    service::standby_drop(memory, lots, lot, account)
}

#[unsafe(no_mangle)]
pub extern "C" fn standby_close(
    memory: &mut [u8],
    lots: u32,
    lot: u32,
    account: u32,
    list: &mut [u8],
) -> u64
    ensures { Answered closed_numbers (ListClosed memory.old memory.new lots lot account list.old list.new) result }
{
    service::standby_close(memory, lots, lot, account, list)
}

#[unsafe(no_mangle)]
pub extern "C" fn standby_overview(memory: &[u8], lots: u32, rows: &mut [u8]) -> u64
    ensures { Answered outcome_numbers (RowsFilled memory.now lots rows.old rows.new) result }
{
    service::standby_overview(memory, lots, rows)
}
