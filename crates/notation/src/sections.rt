// The sections that follow the names: equations, and rules with their ways.
// Stays a `Vec` with clauses on what is added: a type could hold the row's bound, and each step would need the same clause to keep it.
ghost use Rattle.std.specs.Prelude.{◌+◌, ◌≤◌, IfOk, vec_len};

use crate::parser::{Parser, entry_comes};
use crate::terms::Limits;
use lexing::MOST_WORDS;
use lexing::fault::{Error, Expected};
use lexing::lexer::Kind;
use std::alloc::{AllocError, Global};

const MOST_EQUATIONS: u32 = 64;

const MOST_RULES: u32 = 64;

const MOST_SYMBOLS: usize = 32;

// A side of an equation or a rule.
const SIDE: Limits = Limits {
    symbols: MOST_SYMBOLS,
    letters: 16,
    told: MOST_SYMBOLS,
    of: "letters and signs a side",
};

// The row of all ways. It may be as long as the longest row of a book.
#[derive(Drop)]
pub(crate) struct Ways {
    pub(crate) words: Vec<u32>,
    ghost short: { vec_len words ≤ 16451 },
}

impl Ways {
    // With space for the longest row.
    fn new(heap: Global) -> Result<Ways, AllocError> {
        Ok(Ways {
            words: Vec::with_capacity(heap, MOST_WORDS)?,
        })
    }
}

// What a book's sections come to: how many signs, equations and rules there are, the row of the sides, and that of the ways.
#[derive(Drop)]
pub(crate) struct Sides {
    pub(crate) signs: u32,
    pub(crate) equations: u32,
    pub(crate) rules: u32,
    pub(crate) row: Vec<u32>,
    pub(crate) ways: Ways,
    ghost short: { vec_len row ≤ 16384 },
}

impl Parser<'_> {
    // Takes two sides with the mark between them.
    // Stays with the mark as a parameter: it is what is expected, and the steps are the same.
    fn sides(&mut self, row: &mut Vec<u32>, mark: Kind, expected: &'static str) -> Result<(), Error>
        ensures { vec_len row.new ≤ vec_len row.old + 128 }
    {
        self.term(row, SIDE)?;
        self.cursor.expect(mark, Expected::Words(expected))?;
        self.term(row, SIDE)
    }

    // Takes the equations, and tells how many.
    fn equations(&mut self, row: &mut Vec<u32>) -> Result<u32, Error>
        ensures len { vec_len row.new ≤ vec_len row.old + 8192 }
        ensures few { IfOk result (λ n. n ≤ 64) }
    {
        let mut count = 0;
        // Stays a loop, as in `Names::take_signs`; and what a closure had added to the row would not be known.
        while entry_comes(self.cursor, count, MOST_EQUATIONS, "equations")? {
            self.sides(row, Kind::Equals, "`=` and the equation's right side")?;
            count += 1;
        }
        Ok(count)
    }

    // Takes the terms of a way, and tells how many.
    fn way_terms(&mut self, ways: &mut Ways) -> Result<u32, Error> {
        // Stays a loop over numbers: it ends with the text, and the count is what is told.
        for count in 0..u32::MAX {
            if !self.cursor.take(Kind::Equals) {
                return Ok(count);
            }
            let limits = Limits {
                symbols: MOST_WORDS.saturating_sub(ways.words.len()) / 2,
                letters: u32::MAX,
                told: MOST_WORDS,
                of: "words of ways",
            };
            self.term(&mut ways.words, limits)?;
        }
        Err(
            self.cursor
                .fault(Expected::AtMost(u32::MAX as usize, "terms of a way")),
        )
    }

    // Takes the way of a rule: adds to the ways' row how many terms it has, and these.
    fn way(&mut self, ways: &mut Ways) -> Result<(), Error> {
        let start = ways.words.len();
        if start >= MOST_WORDS {
            return Err(
                self.cursor
                    .fault(Expected::AtMost(MOST_WORDS, "words of ways")),
            );
        }
        ways.words.push(0)?;
        let count = self.way_terms(ways)?;
        if let Some(slot) = ways.words.get_mut(start) {
            *slot = count;
        }
        Ok(())
    }

    // Takes the rules, each with its way, and tells how many.
    fn rules(&mut self, row: &mut Vec<u32>, ways: &mut Ways) -> Result<u32, Error>
        ensures len { vec_len row.new ≤ vec_len row.old + 8192 }
        ensures few { IfOk result (λ n. n ≤ 64) }
    {
        let mut count = 0;
        // Stays a loop, as in `Names::take_signs`; and what a closure had added to the row would not be known.
        while entry_comes(self.cursor, count, MOST_RULES, "rules")? {
            self.sides(row, Kind::Arrow, "`->` and the rule's right side")?;
            self.way(ways)?;
            count += 1;
        }
        Ok(count)
    }

    // Takes all sections after the names of so many signs, up to the end of the text.
    pub(crate) fn sections(&mut self, signs: u32) -> Result<Sides, Error> {
        let heap = self.cursor.heap;
        let mut row = Vec::with_capacity(heap, 16_384)?;
        let mut ways = Ways::new(heap)?;
        let mut expected = "a name, `equations`, `rules` or the end of the text";
        let mut equations = 0;
        if self.cursor.take_word(b"equations") {
            equations = self.equations(&mut row)?;
            expected = "an equation, `rules` or the end of the text";
        }
        let mut rules = 0;
        if self.cursor.take_word(b"rules") {
            rules = self.rules(&mut row, &mut ways)?;
            expected = "a rule, `=` and a term of its way, or the end of the text";
        }
        if !self.cursor.token.is(Kind::End) {
            return Err(self.cursor.fault(Expected::Words(expected)));
        }
        Ok(Sides {
            signs,
            equations,
            rules,
            row,
            ways,
        })
    }
}
