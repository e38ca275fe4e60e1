ghost use Rattle.running.specs.Written.{AppendsPart, Took};
ghost use Rattle.std.specs.Io.KnownBytes.{Appends};
ghost use Rattle.std.specs.Prelude.{◌≡◌, ◌++◌, [], OnErr, OnOk};

use crate::output::write_out;
use listing::{Closed, Sink};
use std::io::Write;

// How many bytes are held back before they are passed on.
const HELD: usize = 65_536;

// Writes bytes, where it does not matter why they can't be.
fn pass_on<W: Write>(out: &mut W, bytes: &[u8]) -> Result<(), Closed>
    ensures whole { OnOk result (Appends (W.contents out.old) (W.contents out.new) bytes.now) }
    ensures part { OnErr result (AppendsPart (W.contents out.old) (W.contents out.new) bytes.now) }
{
    write_out(out, bytes).map_err(|_| Closed)
}

// Passes on to a writer what it takes, in large pieces: once 64 KiB have come together, or when it rests.
#[derive(Drop)]
pub(crate) struct Printer<'a, W> {
    pub out: &'a mut W,
    pub held: &'a mut Vec<u8>,
}

impl<'a, W: Write> Printer<'a, W> {
    // Holds back what is there already.
    pub fn new(out: &'a mut W, held: &'a mut Vec<u8>) -> Printer<'a, W>
        ensures same_writer { result.out.ghost_name ≡ out.entry.ghost_name }
        ensures untouched { result.out.now ≡ out.old }
        ensures kept { result.held.now ≡ held.old }
    {
        Printer { out, held }
    }

    // Passes on what is held back. Where the writer fails, the rest of it is lost.
    fn print(&mut self) -> Result<(), Closed>
        ensures same_writer { self.new.out.ghost_name ≡ self.old.out.ghost_name }
        ensures empty { self.new.held.now.items ≡ [] }
        ensures whole { OnOk result (Appends (W.contents self.old.out.now) (W.contents self.new.out.now) self.old.held.now.items) }
        ensures part { OnErr result (AppendsPart (W.contents self.old.out.now) (W.contents self.new.out.now) self.old.held.now.items) }
    {
        let passed = pass_on(self.out, self.held.as_slice());
        self.held.clear();
        passed
    }

    // The same, once so much has come together that it is passed on.
    fn print_full(&mut self) -> Result<(), Closed>
        ensures same_writer { self.new.out.ghost_name ≡ self.old.out.ghost_name }
        ensures taken { OnOk result (Took (W.contents self.old.out.now) self.old.held.now.items [] (W.contents self.new.out.now) self.new.held.now.items) }
        ensures part { OnErr result (AppendsPart (W.contents self.old.out.now) (W.contents self.new.out.now) self.old.held.now.items) }
    {
        if self.held.len() < HELD {
            return Ok(());
        }
        self.print()
    }
}

// What was passed on and what is held back are together what was taken; after a rest nothing is held back.
impl<W: Write> Sink for Printer<'_, W> {
    ghost takes = { λ old text new. (new.out.ghost_name ≡ old.out.ghost_name) × Took (W.contents old.out.now) old.held.now.items text (W.contents new.out.now) new.held.now.items };

    ghost rests = { λ old new. (new.out.ghost_name ≡ old.out.ghost_name) × Took (W.contents old.out.now) old.held.now.items [] (W.contents new.out.now) [] × (new.held.now.items ≡ []) };

    ghost fails = { λ old text new. (new.out.ghost_name ≡ old.out.ghost_name) × AppendsPart (W.contents old.out.now) (W.contents new.out.now) (old.held.now.items ++ text) };

    fn take(&mut self, text: &[u8]) -> Result<(), Closed> {
        let Err(_no_memory) = self.held.extend_from_slice(text) else {
            return self.print_full();
        };
        self.print()?;
        pass_on(self.out, text)
    }

    fn rest(&mut self) -> Result<(), Closed> {
        if self.held.is_empty() {
            return Ok(());
        }
        self.print()
    }
}
