// Putting an entry into a held section: 256 places of 20 bytes, sorted by stream, of which the first n hold entries.
// The entry goes to the end of its stream's entries, and the places after them move up by one.
// It stands on `wire`, and on `model`, whose items the places are.
#![tactic(auto)]

ghost use Rattle.std.specs.Prelude.{◌≡◌, ◌+◌, ◌*◌, ◌≤◌, ◌<◌, length};
ghost use Rattle.places.specs.Moves.{inserted};
ghost use Rattle.places.specs.Places.{end_of, EntryHeld};

// The section is lent to be written, as bytes and a count: `lookback::Section`, which has both, lends it to be read.

// One past the last of n places whose stream is not above the fragment, and 0 if there is none. (A search by halves would ask that they are in
// order, which this one needn't.)
pub fn end_of(held: &[u8], n: usize, fragment: u8) -> usize
    requires { n * 20 ≤ length held.now }
    ensures { (result ≤ n) × (result ≡ end_of held.now n fragment) }
{
    for i in (0..n).rev() {
        if held[i * 20 + 1] <= fragment {
            return i + 1;
        }
    }
    0
}

// Puts the 20 bytes of a place in at start, and moves what stood from there up to end on by one place.
pub fn insert(held: &mut [u8], start: usize, end: usize, place: &[u8; 20])
    requires { (start ≤ end) × (end + 20 ≤ length held.old) }
    ensures { held.new ≡ inserted held.old start end place.now }
{
    let next = start + 20;
    held.copy_within(start..end, next);
    held[start..next].copy_from_slice(place);
}

// Holds an entry: its 16 bytes with bytes 2-3 zero, then its epoch. (Its bytes are a slice: one that is offered may be of any length, which
// refusal 4 judges.)
pub fn hold_entry(held: &mut [u8], n: usize, entry: &[u8], epoch: u32)
    requires { (length held.old ≡ 5120) × (n < 256) × (length entry.now ≡ 16) }
    ensures { EntryHeld held.old held.new n entry.now epoch }
{
    let mut place = [0; 20];
    place[..16].copy_from_slice(entry);
    wire::put(&mut place, 2, 0u16);
    wire::put(&mut place, 16, epoch);
    let p = end_of(held, n, entry[1]);
    insert(held, p * 20, n * 20, &place);
}
