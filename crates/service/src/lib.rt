// The functions for C, as include/standby.h declares them (`service_c` exports them): each calls the standby, and answers one number that packs the
// numbers of its answer. A lent slice is a pointer and a length. Lists cross as bytes (specs/Crossing.antt).
// `memory` and `lots`, `lot` and `account` stay parameters of each: the C interface, numbers and byte slices.
// It stands on `standby` and `overview`, whose contracts each function keeps, on `answers`, `closing`, `wire` and `model`.
#![tactic(auto)]

ghost use Rattle.std.specs.Prelude.{◌≡◌, ◌+◌, ◌*◌, ◌≤◌, length};
ghost use Rattle.wire.specs.Numbers.{bytes32};
ghost use Rattle.model.specs.Closing.{LEAST_LIST};
ghost use Rattle.model.specs.Image.{each};
ghost use Rattle.model.specs.Answers.{outcome_numbers, opened_numbers, closed_numbers, found_numbers, saved_numbers};
ghost use Rattle.image.specs.Saving.{Written};
ghost use Rattle.standby.specs.Calls.{Started, AccountOpened, Delivered, read_answer, Dropped};
ghost use Rattle.standby.specs.Images.{AccountSaved, AccountLoaded};
ghost use Rattle.service.specs.Packing.{packed, Answered};
ghost use Rattle.service.specs.Crossing.{row16, ListClosed, RowsFilled};
ghost use Rattle.service.specs.Writing.{room_in};

use answers::Answer;
use model::Refusal;
use overview::Row;

// ---- an answer as one number

fn pack<A: Answer>(answer: A) -> u64
    ensures { result ≡ packed (A.numbers_of answer) }
{
    let n = answer.numbers();
    u64::from(n.number % 256)
        + 256 * u64::from(n.first % 16777216)
        + 4294967296 * u64::from(n.second)
}

// ---- the calls whose buffers are plain bytes

pub fn standby_start(memory: &mut [u8], lots: u32) -> u64
    ensures { Answered outcome_numbers (Started memory.old memory.new lots) result }
{
    pack(standby::start(memory, lots))
}

pub fn standby_open(memory: &mut [u8], lots: u32, account: u32, fragments: u32, keys: u32) -> u64
    ensures { Answered opened_numbers (AccountOpened memory.old memory.new lots account fragments keys) result }
{
    pack(standby::open_account(memory, lots, account, fragments, keys))
}

pub fn standby_deliver(memory: &mut [u8], lots: u32, lot: u32, account: u32, entry: &[u8]) -> u64
    ensures { Answered outcome_numbers (Delivered memory.old memory.new lots lot account entry.now) result }
{
    pack(standby::deliver(memory, lots, lot, account, entry))
}

pub fn standby_read(
    memory: &[u8],
    lots: u32,
    lot: u32,
    account: u32,
    fragment: u32,
    key: u32,
) -> u64
    ensures { result ≡ packed (found_numbers (read_answer memory.now lots lot account fragment key)) }
{
    pack(standby::read_record(memory, lots, lot, account, fragment, key))
}

pub fn standby_save(memory: &[u8], lots: u32, lot: u32, account: u32, image: &mut [u8]) -> u64
    ensures { Answered saved_numbers (AccountSaved memory.now lots lot account image.old image.new) result }
{
    pack(standby::save_account(memory, lots, lot, account, image))
}

pub fn standby_load(memory: &mut [u8], lots: u32, data: &[u8]) -> u64
    ensures { Answered opened_numbers (AccountLoaded memory.old memory.new lots «data».now) result }
{
    pack(standby::load_account(memory, lots, data))
}

pub fn standby_drop(memory: &mut [u8], lots: u32, lot: u32, account: u32) -> u64
    ensures { Answered outcome_numbers (Dropped memory.old memory.new lots lot account) result }
{
    pack(standby::drop_account(memory, lots, lot, account))
}

// ---- close: its list crosses as bytes

// How many numbers are lent on for a list of so many bytes: all that a close asks for, or none.
fn room_in(bytes: usize) -> usize
    ensures { result ≡ room_in bytes }
{
    if bytes < 4 * closing::LEAST_LIST {
        0
    } else {
        closing::LEAST_LIST
    }
}

// The numbers, at the front of the bytes: the C interface, where a list is bytes.
fn put_numbers(bytes: &mut [u8], numbers: &[u32])
    requires { length numbers.now * 4 ≤ length bytes.old }
    ensures { Written bytes.old bytes.new 0 (length numbers.now * 4) (each bytes32 numbers.now) }
{
    for (i, &number) in numbers.iter().enumerate() {
        wire::put(bytes, i * 4, number);
    }
}

// A close with numbers of its own for the list: what it writes there is then written as bytes. (The numbers are lent: with an array made in this
// function the search for the proof stops.)
// (`as` in this file takes u32 to usize, for which std has no `From`: a `TryFrom` would have an `Err` that can't be.)
fn close_list(
    memory: &mut [u8],
    lots: u32,
    lot: u32,
    account: u32,
    list: &mut [u8],
    numbers: &mut [u32],
) -> Result<u32, Refusal>
    requires { length numbers.old ≡ LEAST_LIST }
    ensures { ListClosed memory.old memory.new lots lot account list.old list.new result }
{
    let room = room_in(list.len());
    let closed = standby::close_epoch(memory, lots, lot, account, &mut numbers[..room]);
    if let Ok(count) = closed {
        put_numbers(list, &numbers[..2 * count as usize]);
    }
    closed
}

pub fn standby_close(memory: &mut [u8], lots: u32, lot: u32, account: u32, list: &mut [u8]) -> u64
    ensures { Answered closed_numbers (ListClosed memory.old memory.new lots lot account list.old list.new) result }
{
    let mut numbers = [0; closing::LEAST_LIST];
    pack(close_list(memory, lots, lot, account, list, &mut numbers))
}

// ---- the overview: a row crosses as four numbers (the C interface)

fn put_row(bytes: &mut [u8], i: usize, row: Row)
    requires { i * 16 + 16 ≤ length bytes.old }
    ensures { Written bytes.old bytes.new (i * 16) (i * 16 + 16) (row16 row) }
{
    wire::put(bytes, i * 16, row.account);
    wire::put(bytes, i * 16 + 4, row.closed);
    wire::put(bytes, i * 16 + 8, row.held);
    wire::put(bytes, i * 16 + 12, row.damaged);
}

// The rows of all lots, at the front of the bytes, if there is room for them.
fn put_rows(memory: &[u8], lots: u32, bytes: &mut [u8]) -> Result<(), Refusal>
    ensures { RowsFilled memory.now lots bytes.old bytes.new result }
{
    let lent = bytes.len() / 16;
    overview::overview_answer(memory, lots, lent)?;
    for i in 0..lots {
        put_row(bytes, i as usize, overview::row_at(memory, lots, i));
    }
    Ok(())
}

pub fn standby_overview(memory: &[u8], lots: u32, rows: &mut [u8]) -> u64
    ensures { Answered outcome_numbers (RowsFilled memory.now lots rows.old rows.new) result }
{
    pack(put_rows(memory, lots, rows))
}
