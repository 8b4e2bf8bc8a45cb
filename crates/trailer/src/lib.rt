// The trailer of a saved image: its 24 bytes read, judged by themselves, and written.
// It stands on `wire`, `model`, and `lot` for the limits of an account.
#![tactic(auto)]

ghost use Rattle.std.specs.Prelude.{◌≡◌};
ghost use Rattle.trailer.specs.Trailer.{numbers_of, trailer_bytes, signed, image_length, trailer_fits};

use lot::Account;

// What an image ends with.
const SIGNATURE: [u8; 4] = *b"EPB1";

// The numbers in a trailer.
#[derive(Clone, Copy)]
pub struct Trailer {
    pub account: Account,
    pub records: u16,
    pub length: u32,
}

impl Trailer {
    pub const LENGTH: usize = 24;

    #[tactic(auto, unfolding(crate::specs::Trailer::numbers_of))]
    pub fn read(bytes: &[u8; Trailer::LENGTH]) -> Trailer
        ensures { result ≡ numbers_of bytes.now }
    {
        Trailer {
            account: Account {
                number: wire::get(bytes, 0),
                fragments: bytes[2],
                keys: wire::get(bytes, 4),
                held: wire::get(bytes, 8),
                closed: wire::get(bytes, 12),
            },
            records: wire::get(bytes, 6),
            length: wire::get(bytes, 16),
        }
    }

    pub fn to_bytes(self) -> [u8; Trailer::LENGTH]
        ensures { result ≡ trailer_bytes self }
    {
        let mut bytes = [0; Trailer::LENGTH];
        wire::put(&mut bytes, 0, self.account.number);
        bytes[2] = self.account.fragments;
        wire::put(&mut bytes, 4, self.account.keys);
        wire::put(&mut bytes, 6, self.records);
        wire::put(&mut bytes, 8, self.account.held);
        wire::put(&mut bytes, 12, self.account.closed);
        wire::put(&mut bytes, 16, self.length);
        bytes[20..].copy_from_slice(&SIGNATURE);
        bytes
    }
}

// Whether a trailer ends with the signature.
#[tactic(auto, using(crate::proofs::Trailers::ends_signed))]
pub fn is_signed(bytes: &[u8; Trailer::LENGTH]) -> bool
    ensures { result ≡ signed bytes.now }
{
    bytes.ends_with(&SIGNATURE)
}

// The length of the image of an account with so many records.
pub fn image_length(account: Account, records: u16) -> u32
    ensures { result ≡ image_length account.fragments records account.held }
{
    u32::from(account.fragments) * 8 + u32::from(records) * 8 + u32::from(account.held) * 20 + 24
}

// Whether a signed trailer fits by itself, at the end of n bytes of data. (`as` takes u32 to usize, for which std has no `From`.)
#[tactic(auto, unfolding(crate::specs::Trailer::trailer_fits, model::specs::Lists::every))]
pub fn trailer_fits(bytes: &[u8; Trailer::LENGTH], n: usize) -> bool
    ensures { result ≡ trailer_fits n bytes.now }
{
    let t = Trailer::read(bytes);
    let a = t.account;
    bytes[3] == 0
        && wire::get::<u16>(bytes, 10) == 0
        && lot::account_fits(
            u32::from(a.number),
            u32::from(a.fragments),
            u32::from(a.keys),
        )
        && a.held <= Account::MOST_HELD
        && t.length == image_length(a, t.records)
        && t.length as usize <= n
}
