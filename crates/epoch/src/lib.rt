// Closing an epoch over the sections of a lot: the marks that are missing, and the pieces installed.
// It stands on `model`, on `held` for what limits a held section, on `lookback` for the section, and on `verdicts` and `install`. Its
// clauses speak of records by `lot`, and `wire` and `survivors` serve its proofs alone: the latter to say what stays held.
#![tactic(auto)]

ghost use Rattle.std.specs.Prelude.{◌≡◌, ◌≤◌, ◌<◌, length};
ghost use Rattle.std.specs.Int.Count.{ones};
ghost use Rattle.model.specs.Lists.{bits_of};
ghost use Rattle.epoch.specs.Missing.{missing_in, MissingMarks};
ghost use Rattle.epoch.specs.Closed.{Closable, Installed};

use held::Limits;
use install::Snapshot;
use lookback::{Linked, Section};
use model::Refusal;
use verdicts::Verdict;

// Stream i has not taken the mark of the epoch after the closed one. (As u64, in which each u32 has a next one. A stream's number is a plain
// number, as in `lookback`, and that fragments are few stands in clauses, as `lot` has why.)
fn is_missing(limits: Limits<'_>, i: u8) -> bool
    requires { i < limits.fragments }
    ensures { result ≡ missing_in limits.entry.streams.now limits.entry.closed i }
{
    u64::from(limits.open_epoch(i)) <= u64::from(limits.closed) + 1
}

// The byte of missing streams, bit i for stream i.
fn missing_byte(limits: Limits<'_>) -> u8
    requires { limits.fragments ≤ 8 }
    ensures { result ≡ bits_of (missing_in limits.entry.streams.now limits.entry.closed) limits.entry.fragments }
{
    let mut byte: u8 = 0;
    for i in 0..limits.fragments {
        if is_missing(limits, i) {
            byte |= 1 << i;
        }
    }
    byte
}

// Refusal 12 if streams are without the mark: which ones, as a byte, and how many, the ones of that byte. (`as` makes small what is proved
// small, here and in `install_pieces`: `TryFrom` would have an `Err` that can't be.)
pub fn missing_marks(limits: Limits<'_>) -> Result<(), Refusal>
    requires { limits.fragments ≤ 8 }
    ensures { MissingMarks limits.entry.streams.now limits.entry.closed limits.entry.fragments result }
{
    let streams = missing_byte(limits);
    let how_many = streams.count_ones() as u8;
    if how_many == 0 {
        return Ok(());
    }
    Err(Refusal::MarkMissing { streams, how_many })
}

// A section as it stands. (It is a slice, a part of a lot, as in `lot`, which has why.)
pub fn snapshot(section: &[u8]) -> [u8; 5120]
    requires { length section.now ≡ 5120 }
    ensures { result ≡ section.now }
{
    let mut old = [0; 5120];
    old.copy_from_slice(section);
    old
}

// How many pieces were installed, and the verdict on each place.
#[derive(Clone, Copy)]
pub struct Applied {
    pub pieces: u32,
    pub verdicts: [Option<Verdict>; 256],
}

// Installs and lists the pieces of the epoch after the closed one, by the places as they stood when the call began.
pub fn install_pieces(
    records: &mut [u8],
    list: &mut [u32],
    held: Section<'_>,
    fragments: u8,
    closed: u32,
) -> Applied
    requires { Closable held.bytes.now records.old list.old fragments held.count closed }
    ensures { Installed fragments closed held.entry.count held.entry.bytes.now records.old records.new list.old list.new result.pieces result.verdicts }
{
    let linked = Linked::new(held);
    let verdicts = verdicts::verdicts(&linked, closed + 1);
    let pieces = Snapshot::new(&linked, &verdicts).install_all(records, list, fragments);
    Applied {
        pieces: pieces as u32,
        verdicts,
    }
}
