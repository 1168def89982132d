// The lexicographic path order on the terms of a rule.
ghost use Rattle.order.specs.Comparing.{Compares, Covers, Exceeds, Precedes, Truthful};

use crate::table::Table;
use crate::terms::{Comparison, Head, Parts};

// Stays recursion in a cycle: the order is defined so, and goes no deeper than a side's 32 symbols.
// Stays in each contract, that the table is truthful: in one struct with it each would have to say instead that the sides stay.
// Stays bools with `let .. else`: each function answers yes or no, and the table beside it only remembers answers.
impl Comparison<'_> {
    // Whether the term at place k is greater than the one at place j, by the table if it is known there.
    #[cycle(all_less_compare_greater_precedes_some_at_least)]
    pub fn greater(&self, table: &mut Table, k: usize, j: usize) -> bool
        requires { Truthful self.now table.old }
        ensures is { Compares self.now k j result }
        ensures kept { Truthful self.now table.new }
    {
        if let Some(answer) = table.get(k, j) {
            return answer;
        }
        let answer = self.compare(table, k, j);
        table.set(k, j, answer);
        answer
    }

    // By a part that is the other or greater; else by the sign or the first parts that differ, if it is greater than each part.
    #[cycle(all_less_compare_greater_precedes_some_at_least)]
    fn compare(&self, table: &mut Table, k: usize, j: usize) -> bool
        requires { Truthful self.now table.old }
        ensures is { Compares self.now k j result }
        ensures kept { Truthful self.now table.new }
    {
        let Some(f) = self.head(self.left, k) else {
            return false;
        };
        if self.some_at_least(table, f.parts, j) {
            return true;
        }
        let Some(g) = self.head(self.right, j) else {
            return false;
        };
        self.precedes(table, f, g) && self.all_less(table, k, g.parts)
    }

    // Whether one of the terms on the left is the one at place j, or is greater.
    #[cycle(all_less_compare_greater_precedes_some_at_least)]
    fn some_at_least(&self, table: &mut Table, terms: Parts, j: usize) -> bool
        requires { Truthful self.now table.old }
        ensures is { Covers self.now terms j result }
        ensures kept { Truthful self.now table.new }
    {
        let Some(rest) = self.rest(self.left, terms) else {
            return false;
        };
        self.same(terms.start, j)
            || self.greater(table, terms.start, j)
            || self.some_at_least(table, rest, j)
    }

    // Whether the term at place k is greater than each of the terms on the right.
    #[cycle(all_less_compare_greater_precedes_some_at_least)]
    fn all_less(&self, table: &mut Table, k: usize, terms: Parts) -> bool
        requires { Truthful self.now table.old }
        ensures is { Exceeds self.now k terms result }
        ensures kept { Truthful self.now table.new }
    {
        let Some(rest) = self.rest(self.right, terms) else {
            return true;
        };
        self.greater(table, k, terms.start) && self.all_less(table, k, rest)
    }

    // Whether a head on the left comes before one on the right: by its rank, or if they are the same sign by the first parts that
    // differ.
    #[cycle(all_less_compare_greater_precedes_some_at_least)]
    fn precedes(&self, table: &mut Table, f: Head, g: Head) -> bool
        requires { Truthful self.now table.old }
        ensures is { Precedes self.now f g result }
        ensures kept { Truthful self.now table.new }
    {
        if f.sign != g.sign {
            return self.rank(f.sign) > self.rank(g.sign);
        }
        // Stays a match: in its place a closure would call back into the cycle.
        match self.first_difference(f.parts, g.parts) {
            Some((k, j)) => self.greater(table, k, j),
            None => false,
        }
    }
}
