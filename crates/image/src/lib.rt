// The saved image of one lot: saving a lot, and loading one from data that were judged.
// It stands on `wire`, `model`, `lot`, `writes`, `trailer` and `judging`.
#![tactic(auto)]

ghost use Rattle.std.specs.Prelude.{◌≡◌, ◌∷◌, ◌+◌, ◌*◌, ◌≤◌, ◌<◌, length, Some};
ghost use Rattle.model.specs.Image.{record8, each, LONGEST_IMAGE};
ghost use Rattle.model.specs.Decoding.{present_of, parse};
ghost use Rattle.lot.specs.Layout.{SIZE, records_of};
ghost use Rattle.lot.specs.Look.{look_of};
ghost use Rattle.lot.specs.declared.Look.TheVariants.{Holds};
ghost use Rattle.writes.specs.Sections.{WithRecords};
ghost use Rattle.judging.specs.Judging.{judged_of, present_at};
ghost use Rattle.image.specs.Saving.{Extends, present_in, fragment_bytes, record_bytes, section_bytes, trailer_behind, LotSaved};
ghost use Rattle.image.specs.Loading.{SmallRecord, SmallRecords, with_present, with_all, HeldLoaded, Loadable, ImageLoaded, LotLoaded};

use lot::Account;
use trailer::Trailer;

// The longest image of any account.
pub const LONGEST: usize = 13400;

// ---- saving

fn bytes_of_record(fragment: u8, key: u16, value: u32) -> [u8; 8]
    ensures { result ≡ record8 (record { fragment = fragment; key = key; value = value }) }
{
    let mut bytes = [0; 8];
    bytes[0] = fragment;
    wire::put(&mut bytes, 2, key);
    wire::put(&mut bytes, 4, value);
    bytes
}

// (A lot and its records are slices, a fragment and a key are plain numbers, and an account's limits stand in clauses, as in `writes` and `lot`,
// which have why.)

// An image that is being saved: the lent bytes, and how many of them are written (no heap: the caller lends them).
#[derive(Drop)]
struct Saving<'a> {
    image: &'a mut [u8],
    end: usize,
}

impl Saving<'_> {
    fn bytes(&mut self, from: &[u8])
        requires { self.old.end + length from.now ≤ length self.old.image.now }
        ensures { Extends self.old self.new from.now }
    {
        let end = self.end + from.len();
        self.image[self.end..end].copy_from_slice(from);
        self.end = end;
    }

    // The record of fragment i and key k, if it is present.
    fn record(&mut self, records: &[u8], i: u8, k: u16)
        requires { (length records.now ≡ 5120) × (i < 8) × (k < 128) × (self.old.end + 8 ≤ length self.old.image.now) }
        ensures { Extends self.old self.new (each record8 (present_in records.now i k)) }
    {
        if let Some(value) = lot::read_record(records, usize::from(i), usize::from(k)) {
            self.bytes(&bytes_of_record(i, k, value));
        }
    }

    // The present records of fragment i, by key.
    fn fragment(&mut self, records: &[u8], i: u8, keys: u16)
        requires { (length records.now ≡ 5120) × (i < 8) × (keys ≤ 128) × (self.old.end + 1024 ≤ length self.old.image.now) }
        ensures { Extends self.old self.new (fragment_bytes records.now i keys) × (self.new.end ≤ self.old.end + 1024) }
    {
        for k in 0..keys {
            self.record(records, i, k);
        }
    }

    // The present records of an account, by fragment, then key.
    fn records(&mut self, records: &[u8], account: Account)
        requires { (length records.now ≡ 5120) × (account.keys ≤ 128) × (account.fragments ≤ 8) × (self.old.end + 8192 ≤ length self.old.image.now) }
        ensures { Extends self.old self.new (record_bytes records.now account.keys account.fragments) × (self.new.end ≤ self.old.end + 8192) }
    {
        for i in 0..account.fragments {
            self.fragment(records, i, account.keys);
        }
    }

    // Streams, present records and places, one after the other: all but the trailer.
    fn sections(&mut self, lot: &[u8], account: Account)
        requires { (length lot.now ≡ SIZE) × (account.fragments ≤ 8) × (account.keys ≤ 128) × (account.held ≤ 256) × (self.old.end ≡ 0) × (LONGEST_IMAGE ≤ length self.old.image.now) }
        ensures { Extends self.old self.new (section_bytes lot.now account) × (self.new.end ≤ 13376) }
    {
        let streams = &lot[lot::STREAMS];
        let places = &lot[lot::PLACES];
        self.bytes(&streams[..usize::from(account.fragments) * 8]);
        self.records(&lot[lot::RECORDS], account);
        self.bytes(&places[..usize::from(account.held) * 20]);
    }
}

// The numbers of the trailer that stands from index `end` on. (`as` makes small what is proved small: `TryFrom` would have an `Err` that
// can't be. For u32 to usize, as in `load_lot`, std has no `From`.)
#[tactic(auto, unfolding(crate::specs::Saving::trailer_behind))]
fn trailer_behind(account: Account, end: usize) -> Trailer
    requires { (account.fragments * 8 + account.held * 20 ≤ end) × (end ≤ 13376) }
    ensures { result ≡ trailer_behind account end }
{
    let rest = usize::from(account.fragments) * 8 + usize::from(account.held) * 20;
    Trailer {
        account,
        records: ((end - rest) / 8) as u16,
        length: (end + Trailer::LENGTH) as u32,
    }
}

// Saves the account that a lot holds; `account` is what a look at the lot found. It answers the image's length. (As an `OpenLot` was tried: of
// bytes that a struct lends the proof does not have that each is below 256.)
pub fn save_lot(lot: &[u8], account: Account, image: &mut [u8]) -> u32
    requires { (length lot.now ≡ SIZE) × (look_of lot.now ≡ Holds account) × (LONGEST_IMAGE ≤ length image.old) }
    ensures { LotSaved lot.now image.old image.new result }
{
    let mut saving = Saving { image, end: 0 };
    saving.sections(lot, account);
    let t = trailer_behind(account, saving.end);
    saving.bytes(&t.to_bytes());
    t.length
}

// ---- loading

// Puts record j of an image.
fn load_record(lot: &mut [u8], records: &[u8], j: usize)
    requires { (length lot.old ≡ SIZE) × (j * 8 + 8 ≤ length records.now) × SmallRecord (present_at records.now j) }
    ensures { WithRecords lot.old lot.new (with_present (records_of lot.old) (present_at records.now j)) }
{
    let fragment = usize::from(records[j * 8]);
    let key = usize::from(wire::get::<u16>(records, j * 8 + 2));
    let value = wire::get::<u32>(records, j * 8 + 4);
    writes::set_record(lot, fragment, key, value);
}

// Puts the first n records of an image, the last one first. What is lent begins with them and goes on to the image's end, as the definitions take it.
fn load_records(lot: &mut [u8], records: &[u8], n: usize)
    requires { (length lot.old ≡ SIZE) × (n * 8 ≤ length records.now) × SmallRecords records.now n }
    ensures { WithRecords lot.old lot.new (with_all (records_of lot.old) (parse n 8 present_of records.now)) }
{
    for j in (0..n).rev() {
        load_record(lot, records, j);
    }
}

// The head, the streams and the places.
fn load_held(lot: &mut [u8], streams: &[u8], places: &[u8], account: Account)
    requires { (length lot.old ≡ SIZE) × (length streams.now ≤ 64) × (length places.now ≤ 5120) }
    ensures { HeldLoaded lot.old lot.new account streams.now places.now }
{
    writes::set_head(lot, account);
    writes::set_streams(lot, streams);
    writes::set_places(lot, places);
}

fn load_image(lot: &mut [u8], image: &[u8], t: Trailer)
    requires { (length lot.old ≡ SIZE) × Loadable t image.now }
    ensures { ImageLoaded lot.old lot.new t image.now }
{
    let a = usize::from(t.account.fragments) * 8;
    let b = a + usize::from(t.records) * 8;
    let c = b + usize::from(t.account.held) * 20;
    load_held(lot, &image[..a], &image[b..c], t.account);
    writes::unset_records(lot);
    load_records(lot, &image[a..], usize::from(t.records));
}

// Loads the account of accepted data into a lot, whatever stood there; t is what judging the data found.
pub fn load_lot(lot: &mut [u8], data: &[u8], t: Trailer)
    requires { (length lot.old ≡ SIZE) × (judged_of «data».now ≡ Some t) }
    ensures { LotLoaded «data».now lot.new }
{
    let start = data.len() - (t.length as usize);
    load_image(lot, &data[start..], t);
}
