// Numbers in bytes, the lowest byte first: reading and writing them in a lent slice; and copying bytes over others.
#![tactic(auto)]

ghost use Rattle.std.specs.Prelude.{◌≡◌, ℕ, ◌+◌, ◌^◌, ◌<◌, ◌≤◌, ◌++◌, List, length, drop};
ghost use Rattle.wire.specs.Numbers.{number16, number32, with16, with32};
ghost use Rattle.wire.specs.Laws.{get16_put16, get32_put32, length_put16, length_put32};

// A number that stands in `width` bytes, the lowest first.
pub trait Number {
    ghost width: { ℕ };

    // The number from an index on, and the bytes with a number written there.
    ghost number: { List ℕ → ℕ → Self };

    ghost with: { List ℕ → ℕ → Self → List ℕ };

    ghost fits: { Self → Type 0 };

    fn read(s: &[u8], at: usize) -> Self
        requires { at + width ≤ length s.now }
        ensures { result ≡ number s.now at };

    fn write(self, s: &mut [u8], at: usize)
        requires { at + width ≤ length s.old }
        ensures { s.new ≡ with s.old at self };

    // What is written is read, and the bytes stay as many.
    ghost written: { (l : List ℕ) (at : ℕ) (v : Self) → at + width ≤ length l → fits v → number (with l at v) at ≡ v };

    ghost as_long: { (l : List ℕ) (at : ℕ) (v : Self) → length (with l at v) ≡ length l };
}

#[tactic(auto, unfolding(crate::specs::Numbers::number16, crate::specs::Numbers::with16))]
impl Number for u16 {
    ghost width = { 2 };

    ghost number = { number16 };

    ghost with = { with16 };

    ghost fits = { λ v. v < 2 ^ 16 };

    fn read(s: &[u8], at: usize) -> u16 {
        u16::from_le_bytes([s[at], s[at + 1]])
    }

    fn write(self, s: &mut [u8], at: usize) {
        // Byte by byte, as a u32 below, which has why.
        let [b0, b1] = self.to_le_bytes();
        s[at] = b0;
        s[at + 1] = b1;
    }

    ghost written = { get16_put16 };

    ghost as_long = { length_put16 };
}

#[tactic(auto, unfolding(crate::specs::Numbers::number32, crate::specs::Numbers::with32))]
impl Number for u32 {
    ghost width = { 4 };

    ghost number = { number32 };

    ghost with = { with32 };

    ghost fits = { λ v. v < 2 ^ 32 };

    fn read(s: &[u8], at: usize) -> u32 {
        u32::from_le_bytes([s[at], s[at + 1], s[at + 2], s[at + 3]])
    }

    fn write(self, s: &mut [u8], at: usize) {
        // Byte by byte, as `with32` has it: by `copy_from_slice` the proof did not close.
        let [b0, b1, b2, b3] = self.to_le_bytes();
        s[at] = b0;
        s[at + 1] = b1;
        s[at + 2] = b2;
        s[at + 3] = b3;
    }

    ghost written = { get32_put32 };

    ghost as_long = { length_put32 };
}

pub fn get<N: Number>(s: &[u8], at: usize) -> N
    requires { at + N.width ≤ length s.now }
    ensures { result ≡ N.number s.now at }
{
    N::read(s, at)
}

pub fn put<N: Number>(s: &mut [u8], at: usize, v: N)
    requires { at + N.width ≤ length s.old }
    ensures { s.new ≡ N.with s.old at v }
{
    v.write(s, at)
}

// Copies bytes over the first ones of a slice; those after them stay.
pub fn copy(from: &[u8], to: &mut [u8])
    requires { length from.now ≤ length to.old }
    ensures { to.new ≡ from.now ++ drop (length from.now) to.old }
{
    to[..from.len()].copy_from_slice(from);
}
