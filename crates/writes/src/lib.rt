// Writing in a lot: a section is lent as a part of it, and the other sections stay. Then whole lots: freed, and with an account opened.
// What the view is after each write stands in proofs/. It stands on `wire`, `model` and `lot`.
#![tactic(auto)]

ghost use Rattle.std.specs.Prelude.{◌≡◌, true, ◌++◌, ◌<◌, ◌≤◌, length, drop};
ghost use Rattle.model.specs.Account.{account_fits, fresh};
ghost use Rattle.lot.specs.Layout.{SIZE, FREE, streams_of, places_of, records_of};
ghost use Rattle.lot.specs.View.{view_lot, holds};
ghost use Rattle.lot.specs.Head.{head_bytes};
ghost use Rattle.lot.specs.Writing.{with_counters, with_record, without_record};
ghost use Rattle.writes.specs.Sections.{WithHead, WithStreams, WithPlaces, WithRecords, overwritten};
ghost use Rattle.writes.specs.Fresh.{fresh_streams, Zeros};

use lot::Account;
use model::Counters;

// A lot is lent as a slice, a part from the middle of the memory: `&mut [u8; SIZE]` would come from `first_chunk_mut`, with a `None`
// that can't be. A function for each section says what of the lot changes; one that takes a closure would say it by `F.post`.

// ---- each function here lends one section (fragment and key are plain numbers, as in `lot`, which has why)

#[tactic(auto, using(crate::proofs::Parts::head_lent))]
pub fn set_head(lot: &mut [u8], account: Account)
    requires { length lot.old ≡ SIZE }
    ensures { WithHead lot.old lot.new (head_bytes account) }
{
    lot::write_head(&mut lot[lot::HEAD], account);
}

#[tactic(auto, using(crate::proofs::Parts::streams_set))]
pub fn set_counters(lot: &mut [u8], i: usize, c: Counters)
    requires { (length lot.old ≡ SIZE) × (i < 8) }
    ensures { WithStreams lot.old lot.new (with_counters (streams_of lot.old) i c) }
{
    lot::write_counters(&mut lot[lot::STREAMS], i, c);
}

pub fn set_record(lot: &mut [u8], i: usize, k: usize, value: u32)
    requires { (length lot.old ≡ SIZE) × (i < 8) × (k < 128) }
    ensures { WithRecords lot.old lot.new (with_record (records_of lot.old) i k value) }
{
    lot::put_record(&mut lot[lot::RECORDS], i, k, value);
}

pub fn unset_record(lot: &mut [u8], i: usize, k: usize)
    requires { (length lot.old ≡ SIZE) × (i < 8) × (k < 128) }
    ensures { WithRecords lot.old lot.new (without_record (records_of lot.old) i k) }
{
    lot::delete_record(&mut lot[lot::RECORDS], i, k);
}

// The first bytes of the streams, and of the places.
pub fn set_streams(lot: &mut [u8], from: &[u8])
    requires { (length lot.old ≡ SIZE) × (length from.now ≤ 64) }
    ensures { WithStreams lot.old lot.new (overwritten from.now (streams_of lot.old)) }
{
    wire::copy(from, &mut lot[lot::STREAMS]);
}

pub fn set_places(lot: &mut [u8], from: &[u8])
    requires { (length lot.old ≡ SIZE) × (length from.now ≤ 5120) }
    ensures { WithPlaces lot.old lot.new (overwritten from.now (places_of lot.old)) }
{
    wire::copy(from, &mut lot[lot::PLACES]);
}

// ---- a whole lot

// Makes all eight streams fresh.
#[tactic(auto, unfolding(crate::specs::Fresh::fresh_streams))]
fn fresh_streams(streams: &mut [u8])
    requires { length streams.old ≡ 64 }
    ensures { streams.new ≡ fresh_streams streams.old 8 }
{
    for i in 0..8 {
        lot::write_counters(streams, i, Counters::fresh());
    }
}

#[tactic(auto, using(crate::proofs::Parts::streams_set))]
fn set_fresh_streams(lot: &mut [u8])
    requires { length lot.old ≡ SIZE }
    ensures { WithStreams lot.old lot.new (fresh_streams (streams_of lot.old) 8) }
{
    fresh_streams(&mut lot[lot::STREAMS]);
}

// Makes every record of a lot absent.
pub fn unset_records(lot: &mut [u8])
    requires { length lot.old ≡ SIZE }
    ensures { WithRecords lot.old lot.new (records_of lot.new) × Zeros (records_of lot.new) }
{
    lot[lot::RECORDS].fill(0);
}

// Makes a lot free: it writes the tag and nothing else.
pub fn free_lot(lot: &mut [u8])
    requires { length lot.old ≡ SIZE }
    ensures { lot.new ≡ FREE ++ drop 4 lot.old }
{
    wire::copy(b"FREE", lot);
}

// Opens an account in a lot, whatever stood there. It takes the three numbers, since an `Account` may have any held count and closed epoch.
pub fn open_lot(lot: &mut [u8], number: u16, fragments: u8, keys: u16)
    requires { (length lot.old ≡ SIZE) × (account_fits number fragments keys ≡ true) }
    ensures { view_lot lot.new ≡ holds (fresh number fragments keys) }
{
    set_head(lot, Account::fresh(number, fragments, keys));
    set_fresh_streams(lot);
    unset_records(lot);
}
