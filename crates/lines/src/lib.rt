// The lines that the program of docs/RULES.md prints, written one after the other into a text of fixed memory.
// specs/Lines.antt has each line, and specs/Text.antt the decimal text of a number.
#![tactic(auto)]

ghost use Rattle.std.specs.Prelude.{◌≡◌, ◌==◌, [], ◌∷◌, ◌++◌, ◌+◌, ◌<◌, ◌≤◌, length};
ghost use Rattle.lines.specs.Lines.{number, last, epoch_line, piece_line, record_line, held_line, entry_line, open_line};

use arrayvec::ArrayString;
use itoa::Buffer;
use std::marker::Model;

// How many bytes a text has room for: more than the longest one of a call.
pub const ROOM: usize = 80000;

// Bytes that are written one after the other. In a contract it is the list of those that are written.
#[derive(Drop)]
pub struct Text {
    written: ArrayString<ROOM>,
}

impl Model for Text {
    ghost use Rattle.std.specs.Prelude.{ℕ, List};

    ghost Value = { List ℕ };

    ghost view = { λ t. t.written.bytes };
}

impl Text {
    pub fn new() -> Text
        ensures { result ≡ [] }
    {
        Text {
            written: ArrayString::new(),
        }
    }

    // Takes back all that is written.
    pub fn clear(&mut self)
        ensures { self.new ≡ [] }
    {
        self.written.clear();
    }

    pub fn is_empty(&self) -> bool
        ensures { result ≡ (length self.now == 0) }
    {
        self.written.is_empty()
    }

    pub fn as_bytes(&self) -> &[u8]
        ensures value { result.now ≡ self.now }
        ensures fits { length result.now ≤ ROOM }
    {
        self.written.as_str().as_bytes()
    }

    // ---- what lines are made of. `write!(self.written, "held {held}\n")` was tried: it ensures what is written only where it answers Ok, and nothing says that with room it does; a line can't fail

    // A space and a number.
    fn number(&mut self, n: u64)
        requires { length self.old + 21 ≤ ROOM }
        ensures wrote { self.new ≡ self.old ++ number n }
        ensures upper_bound { length self.new ≤ length self.old + 21 }
    {
        self.written.push_str(" ");
        self.written.push_str(Buffer::new().format(n));
    }

    // The last number of a line.
    fn last(&mut self, n: u64)
        requires { length self.old + 22 ≤ ROOM }
        ensures wrote { self.new ≡ self.old ++ last n }
        ensures upper_bound { length self.new ≤ length self.old + 22 }
    {
        self.number(n);
        self.written.push_str("\n");
    }

    // A line takes its words and numbers as it is read, and has its definition. Each asks for the room of the longest: a text that is lent may be full.

    // ---- the lines

    #[tactic(auto, unfolding(crate::specs::Lines::epoch_line))]
    pub fn epoch(&mut self, epoch: u64, pieces: u64)
        requires { length self.old + 70 ≤ ROOM }
        ensures wrote { self.new ≡ self.old ++ epoch_line epoch pieces }
        ensures upper_bound { length self.new ≤ length self.old + 70 }
    {
        self.written.push_str("epoch");
        self.number(epoch);
        self.written.push_str(" pieces");
        self.last(pieces);
    }

    #[tactic(auto, unfolding(crate::specs::Lines::piece_line))]
    pub fn piece(&mut self, fragment: u64, transaction: u64)
        requires { length self.old + 70 ≤ ROOM }
        ensures wrote { self.new ≡ self.old ++ piece_line fragment transaction }
        ensures upper_bound { length self.new ≤ length self.old + 70 }
    {
        self.written.push_str("piece");
        self.number(fragment);
        self.last(transaction);
    }

    #[tactic(auto, unfolding(crate::specs::Lines::record_line))]
    pub fn record(&mut self, fragment: u64, key: u64, value: u64)
        requires { length self.old + 70 ≤ ROOM }
        ensures wrote { self.new ≡ self.old ++ record_line fragment key value }
        ensures upper_bound { length self.new ≤ length self.old + 70 }
    {
        self.written.push_str("record");
        self.number(fragment);
        self.number(key);
        self.last(value);
    }

    #[tactic(auto, unfolding(crate::specs::Lines::held_line))]
    pub fn held(&mut self, held: u64)
        requires { length self.old + 70 ≤ ROOM }
        ensures wrote { self.new ≡ self.old ++ held_line held }
        ensures upper_bound { length self.new ≤ length self.old + 70 }
    {
        self.written.push_str("held");
        self.last(held);
    }

    #[tactic(auto, unfolding(crate::specs::Lines::entry_line))]
    pub fn refused_entry(&mut self, index: u64, refusal: u64)
        requires { length self.old + 70 ≤ ROOM }
        ensures wrote { self.new ≡ self.old ++ entry_line index refusal }
        ensures upper_bound { length self.new ≤ length self.old + 70 }
    {
        self.written.push_str("entry");
        self.number(index);
        self.written.push_str(" refused");
        self.last(refusal);
    }

    #[tactic(auto, unfolding(crate::specs::Lines::open_line))]
    pub fn refused_header(&mut self, refusal: u64)
        requires { length self.old + 70 ≤ ROOM }
        ensures wrote { self.new ≡ self.old ++ open_line refusal }
        ensures upper_bound { length self.new ≤ length self.old + 70 }
    {
        self.written.push_str("open refused");
        self.last(refusal);
    }
}
