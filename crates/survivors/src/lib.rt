// The held section written anew when an epoch is closed: what survives of a snapshot of it, each place moved at most once.
// It stands on `model`, on `verdicts`, which say what becomes of each place, on `lookback` for the snapshot, and on the words of `places`.
#![tactic(auto)]

ghost use Rattle.std.specs.Prelude.{◌≡◌, ◌+◌, ◌*◌, ◌≤◌, ◌<◌, length, set};
ghost use Rattle.places.specs.Moves.{inserted};
ghost use Rattle.survivors.specs.Left.{flag_left, Kept, Left};

use lookback::Section;
use model::Entry;
use verdicts::Verdict;

// The flag byte that is left of an entry of this kind and flag byte, or none if nothing is left of it.
fn flag_left(verdict: Option<Verdict>, kind: u8, flag: u8) -> Option<u8>
    ensures { result ≡ flag_left verdict kind flag }
{
    match verdict {
        Some(Verdict::Free | Verdict::Install) => None,
        Some(Verdict::Flag) => (kind == Entry::P).then_some(1),
        Some(Verdict::Stay) | None => Some(flag),
    }
}

// A section that is written anew: it begins with so many places (no heap: it is the lot's).
#[derive(Drop)]
struct Rewritten<'a> {
    section: &'a mut [u8],
    count: usize,
}

impl<'a> Rewritten<'a> {
    ghost use Rattle.survivors.specs.Rewritten.{Room};

    // Writes a place after the others, with this flag.
    fn put_place(&mut self, place: &[u8], flag: u8)
        requires { Room self.old place.now }
        ensures same { self.new.section.ghost_name ≡ self.old.section.ghost_name }
        ensures written { self.new.section.now ≡ inserted self.old.section.now (self.old.count * 20) (self.old.count * 20) (set place.now 11 flag) }
        ensures counted { self.new.count ≡ self.old.count + 1 }
        ensures size { length self.new.section.now ≡ 5120 }
    {
        let start = self.count * 20;
        self.section[start..start + 20].copy_from_slice(place);
        self.section[start + 11] = flag;
        self.count += 1;
    }

    // Writes what the verdict leaves of a place after the others. (It is copied as its 20 bytes, of which two tell what is left: a
    // `lookback::Place` has none to copy.)
    fn keep_place(&mut self, place: &[u8], verdict: Option<Verdict>)
        requires { Room self.old place.now }
        ensures same { self.new.section.ghost_name ≡ self.old.section.ghost_name }
        ensures counted { self.new.count ≤ self.old.count + 1 }
        ensures kept { Kept self.old.section.now self.new.section.now self.old.count self.new.count verdict place.now }
        ensures size { length self.new.section.now ≡ 5120 }
    {
        if let Some(flag) = flag_left(verdict, place[0], place[11]) {
            self.put_place(place, flag);
        }
    }
}

// Writes what the verdicts leave of an older section, and answers how many places they are.
pub fn keep_survivors(
    section: &mut [u8],
    old: Section<'_>,
    verdicts: &[Option<Verdict>; 256],
) -> usize
    requires { length section.old ≡ 5120 }
    ensures { (result ≤ old.entry.count) × Left section.new result verdicts.now old.entry.bytes.now old.entry.count }
{
    let mut kept = Rewritten { section, count: 0 };
    for i in 0..old.count {
        let start = i * 20;
        kept.keep_place(&old.bytes[start..start + 20], verdicts[i]);
    }
    kept.count
}
