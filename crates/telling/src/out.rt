// Answers that are written in blocks.
use crate::lines::BLOCK;
use answers::told_words;
use equal::Told;
use std::alloc::Global;
use std::io;
use std::io::{Stdout, Write};

// The longest answer, with the end of its line.
const MOST_ANSWER: usize = 10;

// Answers, each on a line of its own, that are held until they are a block or `flush` is called.
// Stays a vector beside the library's writer: that writes a block up to its last byte, in the middle of a line, between which and its end
// a complaint could come; and what it holds when a program stops it would still write.
#[derive(Drop)]
pub(crate) struct Out {
    stdout: Stdout,
    held: Vec<u8>,
}

impl Out {
    pub(crate) fn new(heap: Global, stdout: Stdout) -> io::Result<Out> {
        Ok(Out {
            stdout,
            held: Vec::with_capacity(heap, BLOCK)?,
        })
    }

    // Writes what is held.
    pub(crate) fn flush(&mut self) -> io::Result<()> {
        self.stdout.write_all(&self.held)?;
        self.held.clear();
        Ok(())
    }

    pub(crate) fn add(&mut self, answer: Told) -> io::Result<()> {
        if self.held.len().saturating_add(MOST_ANSWER) > BLOCK {
            self.flush()?;
        }
        self.held.extend_from_slice(told_words(answer).as_bytes())?;
        self.held.push(b'\n')?;
        Ok(())
    }
}
