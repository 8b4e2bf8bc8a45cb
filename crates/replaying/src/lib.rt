// The program of docs/RULES.md but for its reading and writing: each call on its one lot of lent memory, and the lines that
// tell what happened, as a text. specs/Replaying.antt has what each function owes. It stands on `standby`, `overview` and
// `lines`, on `answers`, `lot`, `lots`, `model` and `wire`.
#![tactic(auto)]

ghost use Rattle.std.specs.Prelude.{◌≡◌, ◌++◌, ◌+◌, ◌*◌, ◌≤◌, length, IfNone};
ghost use Rattle.model.specs.Image.{each};
ghost use Rattle.lines.specs.declared.TheConstants.{ROOM};
ghost use Rattle.lots.specs.Memory.{named};
ghost use Rattle.standby.specs.Calls.{AccountOpened};
ghost use Rattle.replaying.specs.Replaying.{number_of, refused_line, header_or_zeros, header_of, HeaderOpened, EntryDelivered, NextClosed, text_told, pair_text, found_text, fragment_text, records_text, last_text};

use lines::Text;
use lot::Account;
use model::Refusal;

fn number_of(refusal: Refusal) -> u64
    ensures { result ≡ number_of refusal }
{
    u64::from(answers::refusal_numbers(refusal).number)
}

// ---- refusals

// The refusal of the header, or of an entry with its index, from 0.
#[derive(Clone, Copy)]
pub enum Refused {
    Header(Refusal),
    Entry(u64, Refusal),
}

impl Refused {
    // The line that tells it, in place of what the text was.
    pub fn line(self, line: &mut Text)
        ensures { line.new ≡ refused_line self }
    {
        line.clear();
        match self {
            Refused::Header(refusal) => line.refused_header(number_of(refusal)),
            Refused::Entry(index, refusal) => line.refused_entry(index, number_of(refusal)),
        }
    }
}

// ---- the header

#[derive(Clone, Copy, Debug, Default, PartialEq, Eq)]
pub struct Header {
    pub account: u32,
    pub fragments: u32,
    pub keys: u32,
}

// That of the first four bytes, or one of zeros where there are fewer, which no account has.
#[tactic(auto, unfolding(crate::specs::Replaying::header_or_zeros))]
pub fn read_header(bytes: &[u8]) -> Header
    ensures { result ≡ header_or_zeros bytes.now }
{
    if bytes.len() < 4 {
        return Header::default();
    }
    Header {
        account: u32::from(wire::get::<u16>(bytes, 0)),
        fragments: u32::from(bytes[2]),
        keys: u32::from(bytes[3]),
    }
}

impl Header {
    // That of the first four bytes, or refusal 15 where there are fewer.
    #[tactic(auto, unfolding(crate::specs::Replaying::header_of, crate::specs::Replaying::header_or_zeros))]
    pub fn read(bytes: &[u8]) -> Result<Header, Refusal>
        ensures { result ≡ header_of bytes.now }
    {
        if bytes.len() < 4 {
            return Err(Refusal::UnfitAccount);
        }
        Ok(read_header(bytes))
    }

    // Opens its account in a memory of one lot that was started.
    pub fn open(self, memory: &mut [u8]) -> Result<u32, Refusal>
        ensures { AccountOpened memory.old memory.new 1 self.account self.fragments self.keys result }
    {
        standby::open_account(memory, 1, self.account, self.fragments, self.keys)
    }
}

// Opens the account of the header that begins these bytes, in a memory of one lot that was started.
pub fn open_header(memory: &mut [u8], bytes: &[u8]) -> Result<Header, Refused>
    ensures { HeaderOpened memory.old memory.new (header_of bytes.now) result }
{
    let header = Header::read(bytes).map_err(Refused::Header)?;
    header.open(memory).map_err(Refused::Header)?;
    Ok(header)
}

// ---- an entry

pub fn deliver_entry(
    memory: &mut [u8],
    account: u32,
    index: u64,
    entry: &[u8],
) -> Result<(), Refused>
    ensures { EntryDelivered memory.old memory.new account index entry.now result }
{
    standby::deliver(memory, 1, 0, account, entry).map_err(|refusal| Refused::Entry(index, refusal))
}

// ---- a close

fn put_pieces(pieces: &[[u32; 2]], out: &mut Text)
    requires { (length pieces.now ≤ 256) × (length out.old ≤ 70) }
    ensures { out.new ≡ out.old ++ each pair_text pieces.now }
{
    for [fragment, transaction] in pieces {
        out.piece(u64::from(*fragment), u64::from(*transaction));
    }
}

// Closes the next epoch where it can, and then tells it with its pieces, in place of what the text was; where it can't, the text stays. (The one `as`
// in this file takes u32 to usize, for which std has no `From`: a `TryFrom` would have an `Err` that can't be.)
pub fn close_next(memory: &mut [u8], account: u32, out: &mut Text) -> Option<()>
    ensures told { NextClosed memory.old memory.new account (text_told result out.new) }
    ensures refused { IfNone result (out.new ≡ out.old) }
{
    let mut list = [0u32; 512];
    let count = standby::close_epoch(memory, 1, 0, account, &mut list).ok()?;
    let row = overview::row_at(memory, 1, 0);
    out.clear();
    out.epoch(u64::from(row.closed), u64::from(count));
    let (pairs, _) = list.as_chunks::<2>();
    put_pieces(&pairs[..count as usize], out);
    Some(())
}

// ---- the end (an account's limits and the room of a text stand in clauses, as in `lot` and `lines`, which have why)

fn put_found(fragment: u32, key: u32, found: Result<Option<u32>, Refusal>, out: &mut Text)
    requires { length out.old + 70 ≤ ROOM }
    ensures wrote { out.new ≡ out.old ++ found_text fragment key found }
    ensures upper_bound { length out.new ≤ length out.old + 70 }
{
    if let Ok(Some(value)) = found {
        out.record(u64::from(fragment), u64::from(key), u64::from(value));
    }
}

#[tactic(auto, unfolding(crate::specs::Replaying::fragment_text), using(crate::proofs::Printing::wrote_start, crate::proofs::Printing::wrote_upward))]
fn put_fragment(memory: &[u8], account: Account, fragment: u32, out: &mut Text)
    requires { (account.keys ≤ 128) × (length out.old + 8960 ≤ ROOM) }
    ensures wrote { out.new ≡ out.old ++ fragment_text memory.now account.number fragment account.keys }
    ensures upper_bound { length out.new ≤ length out.old + 8960 }
{
    let number = u32::from(account.number);
    for key in 0..u32::from(account.keys) {
        let found = standby::read_record(memory, 1, 0, number, fragment, key);
        put_found(fragment, key, found, out);
    }
}

#[tactic(auto, unfolding(crate::specs::Replaying::records_text), using(crate::proofs::Printing::wrote_start, crate::proofs::Printing::wrote_upward))]
fn put_records(memory: &[u8], account: Account, out: &mut Text)
    requires { (account.fragments ≤ 8) × (account.keys ≤ 128) × (length out.old + 71680 ≤ ROOM) }
    ensures wrote { out.new ≡ out.old ++ records_text memory.now account.number account.fragments account.keys }
    ensures upper_bound { length out.new ≤ length out.old + 71680 }
{
    for fragment in 0..u32::from(account.fragments) {
        put_fragment(memory, account, fragment, out);
    }
}

// The records of the account and how many entries it holds, in place of what the text was; nothing where the lot is not this account's.
pub fn put_account(memory: &[u8], account: u32, out: &mut Text)
    ensures { out.new ≡ last_text (named memory.now 1 0 account) }
{
    out.clear();
    if let Ok(found) = lots::find(memory, 1, 0, account) {
        put_records(memory, found.account, out);
        out.held(u64::from(found.account.held));
    }
}
