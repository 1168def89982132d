// Tests of the engine: long runs, deep terms, work that is left undone, and terms that are large only when written out.
#![tactic(auto)]

#[cfg(test)]
mod tests {
    use books::Book;
    use engine::Reducer;
    use engine::types::NoRoom;
    use engine::work::share_out;
    use notation::parse;
    use order::Terminating;
    use std::alloc::{AllocError, Global};
    use std::test::Fail;

    // Four digits, each up to fifteen, that count down.
    const COUNTER: &str = "
signs zero/0 next/1 fifteen/0 count/4
letters x y z w
rules
  count(x, y, z, next(w)) -> count(x, y, z, w)
  count(x, y, z, fifteen) -> count(x, y, z,
    next(next(next(next(next(next(next(next(next(next(next(next(next(next(zero)))))))))))))))
  count(x, y, next(z), zero) -> count(x, y, z, fifteen)
  count(x, y, fifteen, zero) -> count(x, y,
    next(next(next(next(next(next(next(next(next(next(next(next(next(next(zero)))))))))))))), fifteen)
  count(x, next(y), zero, zero) -> count(x, y, fifteen, fifteen)
  count(x, fifteen, zero, zero) -> count(x,
    next(next(next(next(next(next(next(next(next(next(next(next(next(next(zero)))))))))))))), fifteen, fifteen)
  count(next(x), zero, zero, zero) -> count(x, fifteen, fifteen, fifteen)
  count(fifteen, zero, zero, zero) -> count(
    next(next(next(next(next(next(next(next(next(next(next(next(next(next(zero)))))))))))))), fifteen, fifteen, fifteen)
  count(zero, zero, zero, zero) -> zero
";

    // Numbers and their doubles, pairs, and a sign that throws its part away.
    const DOUBLES: &str = "
signs zero/0 next/1 double/1 pair/2 twice/1 drop/1
letters x
rules
  double(zero) -> zero
  double(next(x)) -> next(next(double(x)))
  twice(x) -> pair(x, x)
  drop(x) -> zero
";

    // A box, and a sign that comes to a box.
    const BOXES: &str = "
signs zero/0 next/1 pair/2 box/1 open/1
letters x
rules
  open(x) -> box(x)
";

    // Whether the terms of two rows have one normal form; nothing if the words are no book whose rules go down, or no terms.
    fn compared(
        words: &[u32],
        left: &[u32],
        right: &[u32],
        work: &mut [u32],
    ) -> Option<Result<bool, NoRoom>> {
        let rules = Terminating::new(Book::read(words)?).ok()?;
        let mut work = share_out(work)?;
        let mut reducer = Reducer {
            rules: &rules,
            work: &mut work,
        };
        reducer.compare_rows(left, right)
    }

    // n nested signs over a term.
    fn tower(heap: Global, sign: u32, n: usize, end: &[u32]) -> Result<Vec<u32>, AllocError> {
        let mut words = Vec::new(heap);
        for _ in 0..n {
            words.extend_from_slice(&[1, sign])?;
        }
        words.extend_from_slice(end)?;
        Ok(words)
    }

    // The words of a book.
    fn book_words(heap: Global, book: &str) -> Result<Vec<u32>, Fail> {
        match parse(heap, book) {
            Ok(book) => Ok(book.words),
            Err(e) => Err(Fail::new(e)),
        }
    }

    // Whether two terms have one normal form, if that is found with 16,384 work words and 64 for each of so many frames more than four.
    fn same_within(
        heap: Global,
        book: &[u32],
        left: &[u32],
        right: &[u32],
        frames: usize,
    ) -> Result<Option<bool>, Fail> {
        let words = frames.saturating_mul(64).saturating_add(16384);
        let mut work = vec![in heap; 0; words]?;
        match compared(book, left, right, work.as_mut_slice()) {
            Some(Ok(same)) => Ok(Some(same)),
            _ => Ok(None),
        }
    }

    // The same with as many frames more as the book has words, and so many more.
    fn same(
        heap: Global,
        book: &str,
        left: &[u32],
        right: &[u32],
        more: usize,
    ) -> Result<Option<bool>, Fail> {
        let book = book_words(heap, book)?;
        let frames = book.len().saturating_add(more);
        same_within(heap, book.as_slice(), left, right, frames)
    }

    #[test]
    fn counts_down(rt: HostRuntime) -> Result<(), Fail> {
        // count(fifteen, fifteen, fifteen, fifteen) comes to zero in 65,536 steps
        let start = [1, 3, 1, 2, 1, 2, 1, 2, 1, 2];
        assert!(rt; same(rt.alloc(), COUNTER, &start, &[1, 0], 0)? == Some(true));
        Ok(())
    }

    #[test]
    fn deep_terms(rt: HostRuntime) -> Result<(), Fail> {
        // 20,000 doubles of zero
        let start = tower(rt.alloc(), 2, 20_000, &[1, 0])?;
        assert!(rt; same(rt.alloc(), DOUBLES, start.as_slice(), &[1, 0], 20_000)? == Some(true));
        Ok(())
    }

    #[test]
    fn work_that_is_thrown_away(rt: HostRuntime) -> Result<(), Fail> {
        // fifty doubles of next(zero), which come to a number of 2^50, for which there is no room; and drop over them
        let heap = rt.alloc();
        let doubles = tower(heap, 2, 50, &[1, 1, 1, 0])?;
        let start = tower(heap, 5, 1, doubles.as_slice())?;
        assert!(rt; same(heap, DOUBLES, doubles.as_slice(), &[1, 0], 0)? == None);
        assert!(rt; same(heap, DOUBLES, start.as_slice(), &[1, 0], 0)? == Some(true));
        Ok(())
    }

    #[test]
    fn known_at_the_last_frame(rt: HostRuntime) -> Result<(), Fail> {
        // The least work words have four frames. Under a pair and two signs an opened box, which is known already, needs no frame of its
        // own; under three signs there is no room for the sign that is to be opened.
        let heap = rt.alloc();
        let book = book_words(heap, BOXES)?;
        let book = book.as_slice();
        let boxed = [1, 2, 1, 3, 1, 0, 1, 1, 1, 1, 1, 3, 1, 0];
        let start = [1, 2, 1, 3, 1, 0, 1, 1, 1, 1, 1, 4, 1, 0];
        let deeper = [1, 2, 1, 3, 1, 0, 1, 1, 1, 1, 1, 1, 1, 4, 1, 0];
        assert!(rt; same_within(heap, book, &start, &boxed, 0)? == Some(true));
        assert!(rt; same_within(heap, book, &deeper, &boxed, 0)? == None);
        assert!(rt; same_within(heap, book, &deeper, &boxed, 1)? == Some(false));
        Ok(())
    }

    #[test]
    fn shared_parts(rt: HostRuntime) -> Result<(), Fail> {
        // sixty times twice over zero comes to a term of 61 different parts and 2^61 - 1 signs
        let heap = rt.alloc();
        let sixty = tower(heap, 4, 60, &[1, 0])?;
        let more = tower(heap, 4, 61, &[1, 0])?;
        let mut pair = tower(heap, 3, 1, sixty.as_slice())?;
        pair.extend_from_slice(sixty.as_slice())?;
        assert!(rt; same(heap, DOUBLES, more.as_slice(), pair.as_slice(), 62)? == Some(true));
        assert!(rt; same(heap, DOUBLES, more.as_slice(), sixty.as_slice(), 62)? == Some(false));
        Ok(())
    }
}
