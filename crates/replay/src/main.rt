// The program of docs/RULES.md: reads one account from standard input (account 2 bytes, f 1, k 1, then entries), closes while it
// can after each taken entry, and prints what happened and what is there at the end. It stands on `replaying`, and on
// `lines`, `lot` and `standby`.
#![tactic(auto)]

ghost use Rattle.std.specs.Prelude.{◌≡◌, ◌≤◌, length, IfOk};

use lines::Text;
use replaying::Refused;
use std::io::{self, ErrorKind, Read, Write};
use std::rt::{Stdin, Stdout};

// Reads until the buffer is full or the input ends, and answers how many bytes it read. A read that a signal interrupts is made
// again. A proved loop has to end, so this one has an end that no run reaches.
fn read_full(mut input: Stdin, buffer: &mut [u8]) -> io::Result<usize>
    ensures { IfOk result (λ read. read ≤ length buffer.new) }
{
    let mut read = 0;
    for _ in 0..u64::MAX {
        if read == buffer.len() {
            break;
        }
        match input.read(&mut buffer[read..]) {
            Ok(0) => break,
            Ok(more) => read += more,
            Err(e) if e.kind() == ErrorKind::Interrupted => {}
            Err(e) => return Err(e),
        }
    }
    Ok(read)
}

// A run of the program: what it reads and writes, its one lot, and the text that it writes out next. (One text for the whole run: a text of its
// own for each line would be 80,000 bytes made and moved for each.)
#[derive(Drop)]
struct Run {
    input: Stdin,
    output: Stdout,
    memory: [u8; lot::SIZE],
    text: Text,
}

impl Run {
    fn print(&mut self) -> io::Result<()>
        ensures { self.new.memory ≡ self.old.memory }
    {
        self.output.write_all(self.text.as_bytes())
    }

    fn tell(&mut self, refused: Refused) -> io::Result<()> {
        refused.line(&mut self.text);
        self.print()
    }

    fn close_while_it_can(&mut self, account: u32) -> io::Result<()> {
        while let Some(()) = replaying::close_next(&mut self.memory, account, &mut self.text) {
            self.print()?;
        }
        Ok(())
    }

    fn deliver(&mut self, account: u32, index: u64, entry: &[u8]) -> io::Result<()> {
        match replaying::deliver_entry(&mut self.memory, account, index, entry) {
            Ok(()) => self.close_while_it_can(account),
            Err(refused) => self.tell(refused),
        }
    }

    // Nothing says that the input ends. So this loop ends where the indices do, which no run reaches.
    fn all_entries(&mut self, account: u32) -> io::Result<()> {
        for index in 0.. {
            let mut entry = [0u8; 16];
            match read_full(self.input, &mut entry)? {
                0 => break,
                read => self.deliver(account, index, &entry[..read])?,
            }
        }
        Ok(())
    }

    fn replay(&mut self) -> io::Result<()> {
        let mut first = [0u8; 4];
        let read = read_full(self.input, &mut first)?;
        // One lot of its size is never refused.
        let _ = standby::start(&mut self.memory, 1);
        match replaying::open_header(&mut self.memory, &first[..read]) {
            Ok(header) => {
                self.all_entries(header.account)?;
                replaying::put_account(&self.memory, header.account, &mut self.text);
                self.print()
            }
            Err(refused) => self.tell(refused),
        }
    }
}

fn main(rt: HostRuntime) -> io::Result<()> {
    let mut run = Run {
        input: rt.stdin(),
        output: rt.stdout(),
        memory: [0; lot::SIZE],
        text: Text::new(),
    };
    run.replay()
}
