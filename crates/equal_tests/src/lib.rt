// Tests of the two calls: each answer of `tell`, and a session that tells of one pair after another.
#![tactic(auto)]

#[cfg(test)]
mod tests {
    use equal::{Judged, Session, Told, judge, tell};
    use lexing::pairs::Pair;
    use notation::{Book, parse, parse_pair};
    use std::alloc::Global;
    use std::test::Fail;

    // Sums of numbers.
    const SUMS: &str = "
signs zero/0 next/1 plus/2
letters x y
equations
  plus(zero, y) = y
  plus(next(x), y) = next(plus(x, y))
rules
  plus(zero, y) -> y
    = y
  plus(next(x), y) -> next(plus(x, y))
    = next(plus(x, y))
";

    // An equation that no rule brings about.
    const SUMS_LOST: &str = "
signs zero/0 next/1 plus/2
letters x y
equations
  plus(zero, y) = y
  plus(x, zero) = x
rules
  plus(zero, y) -> y
    = y
";

    // Numbers doubled: small terms come to large ones.
    const DOUBLING: &str = "
signs zero/0 next/1 double/1
letters x
equations
  double(zero) = zero
  double(next(x)) = next(next(double(x)))
rules
  double(zero) -> zero
    = zero
  double(next(x)) -> next(next(double(x)))
    = next(next(double(x)))
";

    // many comes to 2^9, and drop(many) to zero, or to drop of that number.
    const MANY: &str = "
signs zero/0 next/1 double/1 many/0 drop/1
letters x
rules
  double(zero) -> zero
  double(next(x)) -> next(next(double(x)))
  many -> double(double(double(double(double(double(double(double(double(next(zero))))))))))
  drop(many) -> zero
";

    // The least number of work words, and so many more.
    fn work_words(heap: Global, more: usize) -> Result<Vec<u32>, Fail> {
        Ok(vec![in heap; 0; more.saturating_add(16384)]?)
    }

    fn book_of(heap: Global, text: &str) -> Result<Book, Fail> {
        parse(heap, text).map_err(Fail::new)
    }

    fn pair_of(heap: Global, book: &Book, text: &str) -> Result<Pair, Fail> {
        let mut pair = Pair::new(heap)?;
        parse_pair(heap, &book.signature, text.as_bytes(), &mut pair).map_err(Fail::new)?;
        Ok(pair)
    }

    fn judged(heap: Global, book: &str, more: usize) -> Result<Judged, Fail> {
        let book = book_of(heap, book)?;
        let mut work = work_words(heap, more)?;
        Ok(judge(&book.words, &book.ways, &mut work))
    }

    fn told(heap: Global, book: &str, pair: &str, more: usize) -> Result<Told, Fail> {
        let book = book_of(heap, book)?;
        let pair = pair_of(heap, &book, pair)?;
        let mut work = work_words(heap, more)?;
        Ok(tell(&book.words, &book.ways, &pair.one, &pair.other, &mut work))
    }

    #[test]
    fn judging(rt: HostRuntime) -> Result<(), Fail> {
        let heap = rt.alloc();
        assert!(rt; judged(heap, SUMS, 8_000)? == Judged::Settles);
        assert!(rt; judged(heap, SUMS_LOST, 8_000)? == Judged::Lost(1));
        assert!(rt; judged(heap, MANY, 8_000)? == Judged::Room);
        assert!(rt; judged(heap, SUMS, 0)? == Judged::Few);
        Ok(())
    }

    #[test]
    fn telling(rt: HostRuntime) -> Result<(), Fail> {
        let heap = rt.alloc();
        let same = "plus(next(x), plus(zero, y)) = next(plus(x, y))";
        assert!(rt; told(heap, SUMS, same, 16_000)? == Told::Same);
        let different = "plus(x, y) = plus(y, x)";
        assert!(rt; told(heap, SUMS, different, 16_000)? == Told::Different);
        assert!(rt; told(heap, SUMS_LOST, different, 16_000)? == Told::Unsettled);
        Ok(())
    }

    #[test]
    fn rows_of_no_term(rt: HostRuntime) -> Result<(), Fail> {
        let heap = rt.alloc();
        let book = book_of(heap, SUMS)?;
        let mut work = work_words(heap, 16_000)?;
        let zero = [1, 0];
        // a letter that a term may not have
        let letter = [0, 16];
        assert!(rt; tell(&book.words, &book.ways, &zero, &letter, &mut work) == Told::NoTerm);
        assert!(rt; tell(&book.words, &book.ways, &letter, &zero, &mut work) == Told::NoTerm);
        assert!(rt; tell(&book.words, &book.ways, &zero, &zero, &mut work) == Told::Same);
        Ok(())
    }

    #[test]
    fn want_of_room(rt: HostRuntime) -> Result<(), Fail> {
        let heap = rt.alloc();
        let grows = "double(double(double(double(double(double(double(next(next(zero))))))))) = x";
        assert!(rt; told(heap, DOUBLING, grows, 8_000)? == Told::Full);
        // beside a row that is no term there is no want of room
        let book = book_of(heap, DOUBLING)?;
        let pair = pair_of(heap, &book, grows)?;
        let mut work = work_words(heap, 8_000)?;
        assert!(rt; tell(&book.words, &book.ways, &pair.one, &[0, 16], &mut work) == Told::NoTerm);
        assert!(rt; told(heap, DOUBLING, grows, 80_000)? == Told::Different);
        assert!(rt; told(heap, MANY, "zero = zero", 8_000)? == Told::Unjudged);
        // too few words for the book; and enough for it, but too few for the terms too
        assert!(rt; told(heap, SUMS, "zero = x", 0)? == Told::Small);
        assert!(rt; told(heap, DOUBLING, grows, 4_500)? == Told::Small);
        Ok(())
    }

    // Rows that are too long, and want of room, leave the session as it was.
    #[test]
    fn one_pair_after_another(rt: HostRuntime) -> Result<(), Fail> {
        let heap = rt.alloc();
        let book = book_of(heap, DOUBLING)?;
        let text = "double(double(double(double(double(double(double(next(next(zero))))))))) = x";
        let grows = pair_of(heap, &book, text)?;
        let four = pair_of(
            heap,
            &book,
            "double(next(next(zero))) = next(next(next(next(zero))))",
        )?;
        let mut work = work_words(heap, 8_000)?;
        let mut session = Session::new(&book.words, &book.ways, &mut work);
        assert!(rt; session.tell(&four.one, &four.other) == Told::Same);
        assert!(rt; session.tell(&four.one, &grows.other) == Told::Different);
        assert!(rt; session.tell(&grows.one, &grows.other) == Told::Full);
        assert!(rt; session.tell(&[0; 200], &grows.other) == Told::Small);
        assert!(rt; session.tell(&four.one, &four.other) == Told::Same);
        Ok(())
    }
}
