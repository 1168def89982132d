// Pairs of terms from a text, each answered on a line.
use crate::lines::{Lines, MOST_LINE, Next};
use crate::out::Out;
use arguments::{Input, Stopped};
use equal::Told;
use lexing::fault::{Error, on_line};
use lexing::pairs::{Line, Pair};
use notation::parse_pair;
use notation::signature::Signature;
use std::io;
use std::io::Read;

// Where pairs come from: by which name messages tell of them, and the names of signs and letters, if they are not rows.
#[derive(Clone, Copy)]
pub struct Asking<'a> {
    pub rt: &'a HostRuntime,
    pub input: Input<'a>,
    pub signature: Option<&'a Signature>,
}

impl Asking<'_> {
    // Reads the pair of a line.
    fn read(self, line: &[u8], pair: &mut Pair) -> Result<Line, Error> {
        match self.signature {
            Some(signature) => parse_pair(self.rt.alloc(), signature, line, pair),
            None => pair.read(self.rt.alloc(), line),
        }
    }
}

// The pairs of a text, and the answers to them.
#[derive(Drop)]
pub(crate) struct Pairs<'a, R> {
    asking: Asking<'a>,
    lines: Lines<R>,
    pair: Pair,
    out: Out,
}

impl<'a, R: Read + Drop> Pairs<'a, R> {
    pub(crate) fn new(asking: Asking<'a>, reader: R) -> Result<Pairs<'a, R>, Stopped> {
        let heap = asking.rt.alloc();
        Ok(Pairs {
            asking,
            lines: Lines::new(heap, reader)?,
            pair: Pair::new(heap)?,
            out: Out::new(heap, asking.rt.stdout())?,
        })
    }

    // Writes an answer on a line of its own, once there are more of them or `flush` is called.
    pub(crate) fn answer(&mut self, told: Told) -> io::Result<()> {
        self.out.add(told)
    }

    // Writes all answers that are held.
    pub(crate) fn flush(&mut self) -> io::Result<()> {
        self.out.flush()
    }

    // Answers a line that is too long, and goes on behind it.
    fn skip_line(&mut self) -> Result<(), Stopped> {
        let Asking { rt, input, .. } = self.asking;
        let number = self.lines.number;
        eprintln!(rt; "{input}:{number}:1: expected a line of at most {MOST_LINE} bytes")?;
        self.answer(Told::NoTerm)?;
        self.flush()?;
        self.lines.skip()?;
        Ok(())
    }

    // What comes next. Since reading may take long, all answers are written before.
    fn next_line(&mut self) -> io::Result<Next> {
        if let Some(line) = self.lines.at_hand() {
            return Ok(line);
        }
        self.flush()?;
        self.lines.read_on()
    }

    // The next pair. Lines before it that have none are answered, if they are not blank.
    pub(crate) fn next(&mut self) -> Result<Option<&Pair>, Stopped> {
        // Stays a counted loop: a text may come without end, and the count shows that the loop has one.
        for _turn in 0..u64::MAX {
            match self.next_line()? {
                Next::End => break,
                Next::TooLong => self.skip_line()?,
                Next::Line(from, to) => match self
                    .asking
                    .read(self.lines.bytes(from, to), &mut self.pair)
                {
                    Ok(Line::Pair) => return Ok(Some(&self.pair)),
                    Ok(Line::Blank) => {}
                    Ok(Line::Long) => self.answer(Told::Small)?,
                    Err(e) => {
                        let Asking { rt, input, .. } = self.asking;
                        let fault = on_line(e, self.lines.number);
                        eprintln!(rt; "{input}:{fault}")?;
                        self.answer(Told::NoTerm)?;
                    }
                },
            }
        }
        Ok(None)
    }
}
