// One stream's two counters, and what a taken entry makes of them: the next number steps, and a mark raises the open epoch.
// By value first; then where the caller holds them; then over plain numbers: docs/DECISIONS.md, "Forms", has these three.
// It stands on `model`, whose `stepped` is the contract of all three.
#![tactic(auto)]

ghost use Rattle.std.specs.Prelude.{◌≡◌, ◌≤◌, true};
ghost use Rattle.model.specs.Entry.{LAST_MARK};
ghost use Rattle.model.specs.Taking.{stepped};

use model::Counters;

// `mark` is a Bool in the model's `stepped` and its theorems, and so it is here.

// The counters after a taken entry. A mark that is taken carries the open epoch, so that is one that a mark can carry.
#[tactic(auto, unfolding(model::specs::Taking::stepped))]
pub fn stepped(c: Counters, mark: bool) -> Counters
    requires { mark ≡ true → c.epoch ≤ LAST_MARK }
    ensures { result ≡ stepped c mark }
{
    Counters {
        next: c.next.wrapping_add(1),
        epoch: if mark { c.epoch + 1 } else { c.epoch },
    }
}

// The same, where the caller holds them.
pub fn step_in_place(c: &mut Counters, mark: bool)
    requires { mark ≡ true → c.old.epoch ≤ LAST_MARK }
    ensures { c.new ≡ stepped c.old mark }
{
    *c = stepped(*c, mark);
}

// The same, of two numbers.
pub fn step_counters(next: u16, epoch: u32, mark: bool) -> Counters
    requires { mark ≡ true → epoch ≤ LAST_MARK }
    ensures { result ≡ stepped (record { next = next; epoch = epoch }) mark }
{
    let mut c = Counters { next, epoch };
    step_in_place(&mut c, mark);
    c
}
