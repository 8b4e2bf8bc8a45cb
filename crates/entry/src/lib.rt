// Judging an entry: whether its fields fit (5), whether it stands inside its account (6), the signed distance of
// its sequence number (7, 8), and the table of the stages that take it (10).
// It stands on `model`: each contract here is a definition there.
#![tactic(auto)]

ghost use Rattle.std.specs.Prelude.{◌≡◌};
ghost use Rattle.model.specs.Entry.{fields_fit, fits, in_account, inside};
ghost use Rattle.model.specs.Distance.{distance};
ghost use Rattle.model.specs.Stages.{stage_after, takes};
ghost use Rattle.entry.specs.Sequence.{sequence_of};

use model::{Entry, Refusal, Stage};

// The fields of an entry but for bytes 10 and 11. An entry that is offered and one that is held pass this and `in_account`, so they take
// the fields, as the model's definitions do.
#[tactic(auto, unfolding(model::specs::Entry::fields_fit, model::specs::Lists::every))]
pub fn fields_fit(kind: u8, transaction: u32, argument: u16, value: u32) -> bool
    ensures { result ≡ fields_fit kind transaction argument value }
{
    1 <= transaction
        && match kind {
            Entry::PUT => true,
            Entry::DELETE | Entry::P => value == 0,
            Entry::CC..=Entry::A => argument == 0 && value == 0,
            Entry::MARK => argument == 0 && value == 0 && transaction <= Entry::LAST_MARK,
            _ => false,
        }
}

// Refusal 5 is given where this fails.
#[tactic(auto, unfolding(model::specs::Entry::fits))]
pub fn fits(e: Entry) -> bool
    ensures { result ≡ fits e }
{
    e.spare == 0 && fields_fit(e.kind, e.transaction, e.argument, e.value)
}

// The fragment, the key and the coordinator of an entry in an account. (0, which is no kind, goes along with the writes here and below: the
// model's tests are by `≤`.)
#[tactic(auto, unfolding(model::specs::Entry::in_account, model::specs::Lists::every))]
pub fn in_account(fragments: u8, keys: u16, kind: u8, fragment: u8, argument: u16) -> bool
    ensures { result ≡ in_account fragments keys kind fragment argument }
{
    fragment < fragments
        && match kind {
            0..=Entry::DELETE => argument < keys,
            Entry::P => argument < u16::from(fragments) && argument != u16::from(fragment),
            _ => true,
        }
}

// Refusal 6 is given where this fails.
pub fn inside(e: Entry, fragments: u8, keys: u16) -> bool
    ensures { result ≡ inside fragments keys e }
{
    in_account(fragments, keys, e.kind, e.fragment, e.argument)
}

// The received number less the expected one, modulo 65,536, from -32,768 to 32,767.
pub fn distance(received: u16, expected: u16) -> i16
    ensures { result ≡ distance received expected }
{
    received.wrapping_sub(expected).cast_signed()
}

// Refusals 7 and 8.
pub fn judge_sequence(received: u16, expected: u16) -> Result<(), Refusal>
    ensures { result ≡ sequence_of received expected }
{
    let d = distance(received, expected);
    if d < 0 {
        Err(Refusal::Seen)
    } else if 0 < d {
        Err(Refusal::Gap)
    } else {
        Ok(())
    }
}

// The stage that an entry makes.
#[tactic(auto, unfolding(model::specs::Stages::stage_after))]
pub fn stage_after(kind: u8) -> Stage
    ensures { result ≡ stage_after kind }
{
    match kind {
        0..=Entry::DELETE => Stage::Writing,
        Entry::P => Stage::Prepared,
        _ => Stage::Ended,
    }
}

// The table: whether an entry of this kind is taken at this stage of its transaction.
#[tactic(auto, unfolding(model::specs::Stages::takes))]
pub fn takes(kind: u8, s: Stage) -> bool
    ensures { result ≡ takes kind s }
{
    match kind {
        0..=Entry::CC => matches!(s, Stage::Unheard | Stage::Writing),
        Entry::CP => s == Stage::Prepared,
        Entry::A => matches!(s, Stage::Writing | Stage::Prepared),
        _ => false,
    }
}
