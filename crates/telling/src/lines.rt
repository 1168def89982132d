// Lines of a text that comes in blocks.
ghost use Rattle.std.specs.Prelude.{◌≡◌, ◌≤◌, length};

use std::alloc::Global;
use std::io;
use std::io::Read;

// The longest line, with its end, in bytes.
pub(crate) const MOST_LINE: usize = 262_144;

// How many bytes are read at once, if there is room for them, and how many of answers are held.
pub(crate) const BLOCK: usize = 65_536;

// What comes next in a text.
// Stays an enum: a line that is too long is answered and passed over, so it is neither the end nor an error.
#[derive(Clone, Copy, Debug, PartialEq, Eq)]
pub(crate) enum Next {
    // a line, by the places where it begins and ends in what was read
    Line(usize, usize),
    // the beginning of a line that is too long
    TooLong,
    End,
}

// A text of which the bytes from `start` to `end` of the buffer are read and not yet handed on.
// Stays a buffer of its own beside the library's reader: that reads only where nothing is held, so the longest line would want a second
// buffer beside it, or blocks be so small that the two fit in 4 MiB; and how long blocks are is seen where answers and complaints go to
// one place.
#[derive(Drop)]
pub(crate) struct Lines<R> {
    reader: R,
    buffer: Vec<u8>,
    start: usize,
    end: usize,
    // the number of the last line, from 1
    pub(crate) number: usize,
}

// Copies the bytes between two places to the front.
// Stays a loop: that the library's `copy_within` may be called here was not found by the search for proofs, and few bytes are moved.
fn move_front(bytes: &mut [u8], start: usize, end: usize)
    requires { (start ≤ end) × (end ≤ length bytes.old) }
    ensures { length bytes.new ≡ length bytes.old }
{
    for i in 0..end - start {
        bytes[i] = bytes[start + i];
    }
}

impl<R: Read + Drop> Lines<R> {
    pub(crate) fn new(heap: Global, reader: R) -> io::Result<Lines<R>> {
        Ok(Lines {
            reader,
            buffer: vec![in heap; 0u8; MOST_LINE]?,
            start: 0,
            end: 0,
            number: 0,
        })
    }

    // What is read and not yet handed on.
    fn held(&self) -> &[u8] {
        self.buffer.get(self.start..self.end).unwrap_or(b"")
    }

    // Moves it to the front of the buffer.
    fn shift(&mut self) {
        let end = self.end.min(self.buffer.len());
        let start = self.start.min(end);
        if start > 0 {
            move_front(self.buffer.as_mut_slice(), start, end);
        }
        self.start = 0;
        self.end = end - start;
    }

    // Reads a block behind what is held; whether there was room, and the text went on.
    fn fill(&mut self) -> io::Result<bool> {
        self.shift();
        let from = self.end;
        let to = from.saturating_add(BLOCK).min(self.buffer.len());
        if from >= to {
            return Ok(false);
        }
        let count = self.reader.read(&mut self.buffer[from..to])?;
        self.end = from.saturating_add(count);
        Ok(count > 0)
    }

    // Reads on until a whole line is held: how long it is, without its end. None where the text ends before, or there is no more room.
    fn line_length(&mut self) -> io::Result<Option<usize>> {
        let mut searched = 0;
        // Stays a counted loop: each block has a byte at least, and so there is room for no more of them.
        for _turn in 0..=MOST_LINE {
            let held = self.held();
            let rest = held.get(searched..).unwrap_or(b"");
            if let Some(k) = rest.iter().position(|b| *b == b'\n') {
                return Ok(Some(searched.saturating_add(k)));
            }
            searched = held.len();
            if !self.fill()? {
                break;
            }
        }
        Ok(None)
    }

    // Takes so many bytes of what is held as a line, and the end of line behind them.
    fn take(&mut self, length: usize) -> Next {
        let from = self.start;
        let to = from.saturating_add(length);
        self.start = to.saturating_add(1).min(self.end);
        self.number = self.number.saturating_add(1);
        Next::Line(from, to)
    }

    // The next line, if it has been read whole, so that nothing has to be waited for.
    pub(crate) fn at_hand(&mut self) -> Option<Next> {
        let length = self.held().iter().position(|b| *b == b'\n')?;
        Some(self.take(length))
    }

    // The next line, for which the text is read on.
    pub(crate) fn read_on(&mut self) -> io::Result<Next> {
        let whole = self.line_length()?;
        let count = self.held().len();
        if whole.is_none() && count == 0 {
            return Ok(Next::End);
        }
        let line = self.take(whole.unwrap_or(count));
        if whole.is_none() && count == MOST_LINE {
            return Ok(Next::TooLong);
        }
        Ok(line)
    }

    // The bytes between two places of what was read.
    pub(crate) fn bytes(&self, from: usize, to: usize) -> &[u8] {
        self.buffer.get(from..to).unwrap_or(b"")
    }

    // Skips what is left of a line that is too long.
    pub(crate) fn skip(&mut self) -> io::Result<()> {
        // Stays a counted loop: a line may come without end, and the count shows that the loop has one.
        for _turn in 0..u64::MAX {
            let whole = self.line_length()?;
            let count = self.held().len();
            let length = whole.map_or(count, |length| length.saturating_add(1));
            self.start = self.start.saturating_add(length).min(self.end);
            if whole.is_some() || count < MOST_LINE {
                break;
            }
        }
        Ok(())
    }
}
