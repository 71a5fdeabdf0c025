// Lines of text, gathered in a buffer that is written out when it is full.
use crate::input::Fault;
use answers::answer::Answer;
use std::fmt;
use std::fmt::{Display, Write};

const OUT: usize = 4096;

// A buffer of its own and a place in it, since there is no heap. A write that fails is left so: no later answer could tell of it.
#[derive(Drop)]
pub(crate) struct Lines<'a, P> {
    rt: &'a P,
    gathered: [u8; OUT],
    at: usize,
}

impl<'a, P: Print> Lines<'a, P> {
    pub(crate) fn new(rt: &'a P) -> Lines<'a, P> {
        Lines {
            rt,
            gathered: [0u8; OUT],
            at: 0,
        }
    }

    // Writes out what was gathered.
    pub(crate) fn finish(&mut self) {
        if let Some(gathered) = self.gathered.get(..self.at) {
            let _ = self.rt.write_all(gathered);
        }
        self.at = 0;
    }

    fn byte(&mut self, byte: u8) {
        if self.at < OUT {
            self.gathered[self.at] = byte;
            self.at += 1;
        } else {
            self.finish();
            self.gathered[0] = byte;
            self.at = 1;
        }
    }

    // The line that opens an answer. Both numbers are of one type, and no item's: what prints a type in one place alone is compiled into it,
    // and the words of a room were printed in half the time so.
    pub(crate) fn answer(&mut self, answer: Answer) {
        let _ = writeln!(self, "{} {}", answer.number as usize, answer.place);
    }

    // A line with the items of a buffer.
    pub(crate) fn items<T: Display>(&mut self, items: &[T]) {
        for (i, item) in items.iter().enumerate() {
            if 0 < i {
                self.byte(b' ');
            }
            let _ = write!(self, "{item}");
        }
        self.byte(b'\n');
    }
}

impl<'a, P: Print> Write for Lines<'a, P> {
    fn write_str(&mut self, text: &str) -> fmt::Result {
        for byte in text.as_bytes() {
            self.byte(*byte);
        }
        Ok(())
    }
}

// A request that is not answered has its line among the answers; input that cannot be read has it on standard error.
pub(crate) fn print_fault(rt: &(impl Print + Eprint), fault: Fault) {
    let _ = match fault {
        Fault::TooLong => rt.println("too long"),
        Fault::CutShort => rt.println("cut short"),
        Fault::Unread => rt.eprintln("ask: standard input could not be read"),
    };
}
