// One lot's bytes, in four sections: head, streams, places and records. What they mean stands in specs/View.antt.
// Each reader and writer takes one section and knows only its offsets; one look at a lot serves a whole call.
// It stands on `wire`, `model`, and `lookback` and `held`, whose test of the places is a part of the damage test.
#![tactic(auto)]

ghost use Rattle.std.specs.Prelude.{◌≡◌, ◌+◌, ◌*◌, ◌<◌, ◌≤◌, length, drop, Ok, Err, MatchResult};
ghost use Rattle.model.specs.Account.{account_fits};
ghost use Rattle.model.specs.Decoding.{counters_of, same};
ghost use Rattle.lot.specs.Layout.{SIZE, head_of, streams_of, places_of, records_of};
ghost use Rattle.lot.specs.View.{tag_of, record_at, head_fits, stream_fits, all_below, fits};
ghost use Rattle.lot.specs.Look.{look_of, Looked, finding};
ghost use Rattle.lot.specs.Head.{numbers_of, fresh_numbers, head_bytes};
ghost use Rattle.lot.specs.Writing.{with_counters, with_record, without_record, found_of};

use held::Limits;
use lookback::Section;
use model::{Counters, Refusal};
use std::ops::Range;

// Where the sections stand, one after the other, and how many bytes a lot has.
pub const HEAD: Range<usize> = 0..16;

pub const STREAMS: Range<usize> = 16..80;

pub const PLACES: Range<usize> = 80..5200;

pub const RECORDS: Range<usize> = 5200..10320;

pub const SIZE: usize = 10320;

// The numbers of an account, as the head of its lot has them. (It has no invariant: a head and a trailer are read into one before they are
// judged. So what they are found to be stands in clauses, here and in the crates above.)
#[derive(Clone, Copy, Debug, PartialEq, Eq)]
pub struct Account {
    pub number: u16,
    pub fragments: u8,
    pub keys: u16,
    pub held: u16,
    pub closed: u32,
}

impl Account {
    pub const MOST_NUMBER: u32 = 65535;

    pub const MOST_FRAGMENTS: u32 = 8;

    pub const MOST_KEYS: u32 = 128;

    pub const MOST_HELD: u16 = 256;

    // Those of an account that is opened, by the three numbers that an opening names.
    pub fn fresh(number: u16, fragments: u8, keys: u16) -> Account
        ensures { result ≡ fresh_numbers number fragments keys }
    {
        Account {
            number,
            fragments,
            keys,
            held: 0,
            closed: 0,
        }
    }

    // Those in a head.
    #[tactic(auto, unfolding(crate::specs::Head::numbers_of))]
    pub fn read(head: &[u8]) -> Account
        requires { 16 ≤ length head.now }
        ensures { result ≡ numbers_of head.now }
    {
        Account {
            number: wire::get(head, 4),
            fragments: head[6],
            keys: wire::get(head, 8),
            held: wire::get(head, 10),
            closed: wire::get(head, 12),
        }
    }

    // What limits the entries held of it, where its streams begin these bytes.
    pub fn limits<'a>(self, streams: &'a [u8]) -> Limits<'a>
        requires { self.fragments * 8 ≤ length streams.now }
        ensures { (result.streams.now ≡ streams.now) × (result.fragments ≡ self.fragments) × (result.keys ≡ self.keys) × (result.closed ≡ self.closed) }
    {
        Limits {
            streams,
            fragments: self.fragments,
            keys: self.keys,
            closed: self.closed,
        }
    }
}

// Refusal 15 is given where this fails.
#[tactic(auto, unfolding(model::specs::Account::account_fits, model::specs::Lists::every))]
pub fn account_fits(number: u32, fragments: u32, keys: u32) -> bool
    ensures { result ≡ account_fits number fragments keys }
{
    1 <= number
        && number <= Account::MOST_NUMBER
        && 1 <= fragments
        && fragments <= Account::MOST_FRAGMENTS
        && 1 <= keys
        && keys <= Account::MOST_KEYS
}

// ---- sections; each is lent as a slice, since it is a part of a lot: as `&mut [u8; 5120]` it would come from `first_chunk_mut`,
// with a `None` that can't be, and a fragment and key with an invariant would be proved small where each is made, as they are now

// Writes the head of an open lot.
#[tactic(auto, using(crate::proofs::Heads::head_written))]
pub fn write_head(head: &mut [u8], account: Account)
    requires { length head.old ≡ 16 }
    ensures { head.new ≡ head_bytes account }
{
    wire::copy(b"OPEN", head);
    wire::put(head, 4, account.number);
    wire::put(head, 6, u16::from(account.fragments));
    wire::put(head, 8, account.keys);
    wire::put(head, 10, account.held);
    wire::put(head, 12, account.closed);
}

// The counters of stream i.
#[tactic(auto, using(crate::proofs::Counters::counters_at_law))]
pub fn read_counters(streams: &[u8], i: usize) -> Counters
    requires { i * 8 + 8 ≤ length streams.now }
    ensures { result ≡ counters_of (drop (i * 8) streams.now) }
{
    Counters {
        next: wire::get(streams, i * 8),
        epoch: wire::get(streams, i * 8 + 4),
    }
}

#[tactic(auto, unfolding(crate::specs::Writing::with_counters))]
pub fn write_counters(streams: &mut [u8], i: usize, c: Counters)
    requires { i * 8 + 8 ≤ length streams.old }
    ensures { streams.new ≡ with_counters streams.old i c }
{
    wire::put(streams, i * 8, c.next);
    wire::put(streams, i * 8 + 2, 0u16);
    wire::put(streams, i * 8 + 4, c.epoch);
}

// Where the record of fragment i and key k begins among the records.
fn record_start(i: usize, k: usize) -> usize
    requires { (i < 8) × (k < 128) }
    ensures { result ≡ (i * 128 + k) * 5 }
{
    (i * 128 + k) * 5
}

// The value of the record of fragment i and key k, or none where it is absent.
#[tactic(auto, unfolding(crate::specs::View::record_at))]
pub fn read_record(records: &[u8], i: usize, k: usize) -> Option<u32>
    requires { (length records.now ≡ 5120) × (i < 8) × (k < 128) }
    ensures { result ≡ found_of (record_at records.now i k) }
{
    let at = record_start(i, k);
    if records[at] == 0 {
        None
    } else {
        Some(wire::get(records, at + 1))
    }
}

#[tactic(auto, unfolding(crate::specs::Writing::with_record))]
pub fn put_record(records: &mut [u8], i: usize, k: usize, value: u32)
    requires { (length records.old ≡ 5120) × (i < 8) × (k < 128) }
    ensures { records.new ≡ with_record records.old i k value }
{
    let at = record_start(i, k);
    records[at] = 1;
    wire::put(records, at + 1, value);
}

#[tactic(auto, unfolding(crate::specs::Writing::without_record))]
pub fn delete_record(records: &mut [u8], i: usize, k: usize)
    requires { (length records.old ≡ 5120) × (i < 8) × (k < 128) }
    ensures { records.new ≡ without_record records.old i k }
{
    records[record_start(i, k)] = 0;
}

// ---- the test of a lot

// Whether a head has this tag.
fn has_tag(head: &[u8], tag: [u8; 4]) -> bool
    requires { length head.now ≡ 16 }
    ensures { result ≡ same (tag_of head.now) tag }
{
    [head[0], head[1], head[2], head[3]] == tag
}

#[tactic(auto, unfolding(crate::specs::View::head_fits, crate::specs::Head::numbers_of, model::specs::Lists::every))]
fn head_fits(head: &[u8]) -> bool
    requires { 16 ≤ length head.now }
    ensures { result ≡ head_fits head.now }
{
    let a = Account::read(head);
    account_fits(
        u32::from(a.number),
        u32::from(a.fragments),
        u32::from(a.keys),
    ) && head[7] == 0
        && a.held <= Account::MOST_HELD
}

#[tactic(auto, unfolding(crate::specs::View::stream_fits, model::specs::Lists::every))]
fn stream_fits(streams: &[u8], i: usize, closed: u32) -> bool
    requires { i * 8 + 8 ≤ length streams.now }
    ensures { result ≡ stream_fits closed streams.now i }
{
    wire::get::<u16>(streams, i * 8 + 2) == 0 && closed < wire::get::<u32>(streams, i * 8 + 4)
}

// The first n streams. (A lot has eight whatever its account has, so what is lent goes on behind them: fixed memory. `records_fit` of `judging`
// has the same one line, of another test.)
pub fn streams_fit(streams: &[u8], n: usize, closed: u32) -> bool
    requires { n * 8 ≤ length streams.now }
    ensures { result ≡ all_below (stream_fits closed streams.now) n }
{
    (0..n).all(|i| stream_fits(streams, i, closed))
}

// The well-formedness test: linear in the streams and the held entries.
#[tactic(auto, unfolding(crate::specs::View::fits, crate::specs::View::head_fits, crate::specs::Head::numbers_of, model::specs::Account::account_fits, model::specs::Lists::every))]
fn fits(head: &[u8], streams: &[u8], places: &[u8]) -> bool
    requires { (length head.now ≡ 16) × (length streams.now ≡ 64) × (length places.now ≡ 5120) }
    ensures { result ≡ fits head.now streams.now places.now }
{
    if !head_fits(head) {
        return false;
    }
    let a = Account::read(head);
    let held = Section::new(places, usize::from(a.held));
    streams_fit(streams, usize::from(a.fragments), a.closed)
        && held::section_fits(a.limits(streams), held)
}

// What a lot is, and of an open one the account's numbers.
#[derive(Clone, Copy, Debug, PartialEq, Eq)]
pub enum Look {
    Free,
    Damaged,
    Holds(Account),
}

#[tactic(auto, unfolding(crate::specs::Look::look_of, crate::specs::View::view_lot, crate::specs::View::view))]
pub fn look_at(lot: &[u8]) -> Look
    requires { length lot.now ≡ SIZE }
    ensures { result ≡ look_of lot.now }
{
    let head = &lot[HEAD];
    if has_tag(head, *b"FREE") {
        return Look::Free;
    }
    if !has_tag(head, *b"OPEN") {
        return Look::Damaged;
    }
    if !fits(head, &lot[STREAMS], &lot[PLACES]) {
        return Look::Damaged;
    }
    Look::Holds(Account::read(head))
}

// ---- an open lot

// A lot that a look at it found open, with the numbers of the account that it holds.
#[derive(Clone, Copy)]
pub struct OpenLot<'a> {
    pub bytes: &'a [u8],
    pub account: Account,
    pub ghost looked: { Looked bytes.now account },
}

impl<'a> OpenLot<'a> {
    pub fn streams(self) -> &'a [u8]
        ensures { result.now ≡ streams_of self.entry.bytes.now }
    {
        &self.bytes[STREAMS]
    }

    // The held entries.
    pub fn held(self) -> Section<'a>
        ensures { (result.bytes.now ≡ places_of self.entry.bytes.now) × (result.count ≡ self.entry.account.held) }
    {
        Section::new(&self.bytes[PLACES], usize::from(self.account.held))
    }

    // The value of the record of fragment i and key k, or none where it is absent.
    #[tactic(auto, using(crate::proofs::Lengths::records_part))]
    pub fn record_at(self, i: usize, k: usize) -> Option<u32>
        requires { (i < 8) × (k < 128) }
        ensures { result ≡ found_of (record_at (records_of self.entry.bytes.now) i k) }
    {
        read_record(&self.bytes[RECORDS], i, k)
    }
}

// What a call that names an account finds in a lot: the lot with the numbers of its account, or 2 or 3.
pub fn find(lot: &[u8], number: u32) -> Result<OpenLot<'_>, Refusal>
    requires { length lot.now ≡ SIZE }
    ensures { MatchResult result (λ found. (found.bytes.now ≡ lot.now) × (finding (look_of lot.now) number ≡ Ok found.account)) (λ refusal. finding (look_of lot.now) number ≡ Err refusal) }
{
    match look_at(lot) {
        Look::Damaged => Err(Refusal::Damaged),
        Look::Holds(account) if u32::from(account.number) == number => Ok(OpenLot {
            bytes: lot,
            account,
        }),
        _ => Err(Refusal::NotThisAccount),
    }
}
