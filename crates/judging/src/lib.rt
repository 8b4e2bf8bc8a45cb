// Judging data: whether an image ends it, as the model's load accepts it. The laws of an image's bytes stand in proofs/.
// It stands on `wire`, `model`, `lookback`, `held`, whose test of a held section the damage test shares, `lot` and `trailer`.
#![tactic(auto)]

ghost use Rattle.std.specs.Prelude.{◌≡◌, ◌+◌, ◌*◌, ◌≤◌, length};
ghost use Rattle.lot.specs.View.{all_below};
ghost use Rattle.trailer.specs.Trailer.{image_length};
ghost use Rattle.judging.specs.Judging.{judged_of, present_at, in_order, record_fits, sections_fit};

use lookback::Section;
use lot::Account;
use trailer::Trailer;

// (A record's number is a plain number in these, since each record is compared with the one before it.)

// ---- the records of an image

// A record's fragment and key, by which records stand in order.
#[tactic(auto, using(crate::proofs::Records::fragment_at_law, crate::proofs::Records::key_at))]
fn key_at(records: &[u8], i: usize) -> (u8, u16)
    requires { i * 8 + 8 ≤ length records.now }
    ensures { (result.0 ≡ (present_at records.now i).fragment) × (result.1 ≡ (present_at records.now i).key) }
{
    (records[i * 8], wire::get(records, i * 8 + 2))
}

// Record i comes after the one before it: by fragment, then key, without repeats.
#[tactic(auto, unfolding(crate::specs::Judging::in_order, crate::specs::Judging::comes_after), using(crate::proofs::Records::order_at))]
fn in_order(records: &[u8], i: usize) -> bool
    requires { i * 8 + 8 ≤ length records.now }
    ensures { result ≡ in_order records.now i }
{
    i == 0 || key_at(records, i - 1) < key_at(records, i)
}

#[tactic(auto, unfolding(crate::specs::Judging::record_fits, model::specs::Lists::every))]
fn record_fits(records: &[u8], i: usize, account: Account) -> bool
    requires { i * 8 + 8 ≤ length records.now }
    ensures { result ≡ record_fits account.fragments account.keys records.now i }
{
    let (fragment, key) = key_at(records, i);
    records[i * 8 + 1] == 0
        && fragment < account.fragments
        && key < account.keys
        && in_order(records, i)
}

// The first n records: what is lent begins with them and goes on with the places, as the definitions take an image from its records on.
// (`lot::streams_fit` has the same one line, of another test.)
fn records_fit(records: &[u8], n: usize, account: Account) -> bool
    requires { n * 8 ≤ length records.now }
    ensures { result ≡ all_below (record_fits account.fragments account.keys records.now) n }
{
    (0..n).all(|i| record_fits(records, i, account))
}

// ---- judging

// The sections of an image whose trailer has the numbers t. (By `return`, since with `&&` between the three the search for the proof stops.)
#[tactic(auto, using(crate::proofs::Passing::streams_unfit, crate::proofs::Passing::records_unfit, crate::proofs::Passing::sections_law))]
fn sections_fit(image: &[u8], t: Trailer) -> bool
    requires { (length image.now ≡ image_length t.account.fragments t.records t.account.held) × (t.account.held ≤ 256) }
    ensures { result ≡ sections_fit t image.now }
{
    let account = t.account;
    let a = usize::from(account.fragments) * 8;
    let b = a + usize::from(t.records) * 8;
    let held = Section::new(&image[b..], usize::from(account.held));
    if !lot::streams_fit(image, usize::from(account.fragments), account.closed) {
        return false;
    }
    if !records_fit(&image[a..], usize::from(t.records), account) {
        return false;
    }
    held::section_fits(account.limits(image), held)
}

// The numbers of the trailer of the image that data ends with, or none where it ends with no image. The signature is compared first, then
// the trailer is judged, then followed back: as many last bytes are read as it says, and none before them. (`as` takes u32 to usize, for
// which std has no `From`.)
pub fn judge_image(data: &[u8]) -> Option<Trailer>
    ensures { result ≡ judged_of «data».now }
{
    let last = data.last_chunk()?;
    if !trailer::is_signed(last) {
        return None;
    }
    if !trailer::trailer_fits(last, data.len()) {
        return None;
    }
    let t = Trailer::read(last);
    let image = &data[data.len() - t.length as usize..];
    sections_fit(image, t).then_some(t)
}
