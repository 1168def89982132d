// Tests of the order: which rules go down.
#![tactic(auto)]

#[cfg(test)]
mod tests {
    use books::Book;
    use order::first_up;
    use std::alloc::{AllocError, Global};
    use std::test::Fail;

    // A book of the signs zero, next and plus, each of higher rank than the one before, with these rules.
    fn numbers(heap: Global, rules: u32, sides: &[u32]) -> Result<Vec<u32>, AllocError> {
        let mut words = vec![in heap; 3, 0, 1, 2, 0, 1, 2, 0]?;
        words.push(rules)?;
        words.extend_from_slice(sides)?;
        Ok(words)
    }

    // A book of one sign with one part, and a rule between two towers of that many signs over different letters.
    fn towers(heap: Global, left: usize, right: usize) -> Result<Vec<u32>, AllocError> {
        let mut words = vec![in heap; 1, 1, 0, 0, 1]?;
        for _ in 0..left {
            words.extend_from_slice(&[1, 0])?;
        }
        words.extend_from_slice(&[0, 0])?;
        for _ in 0..right {
            words.extend_from_slice(&[1, 0])?;
        }
        words.extend_from_slice(&[0, 1])?;
        Ok(words)
    }

    // The first rule that does not go down, if the words are a book.
    fn up(words: &[u32]) -> Option<Option<usize>> {
        Book::read(words).map(|book| first_up(&book))
    }

    #[test]
    fn sums_go_down(rt: HostRuntime) -> Result<(), Fail> {
        // plus(zero, y) -> y
        let base = [1, 2, 1, 0, 0, 1, 0, 1];
        assert!(rt; up(&numbers(rt.alloc(), 1, &base)?) == Some(None));
        // plus(next(x), y) -> next(plus(x, y))
        let step = [1, 2, 1, 1, 0, 0, 0, 1, 1, 1, 1, 2, 0, 0, 0, 1];
        assert!(rt; up(&numbers(rt.alloc(), 1, &step)?) == Some(None));
        // plus(next(x), y) -> plus(x, next(y))
        let moved = [1, 2, 1, 1, 0, 0, 0, 1, 1, 2, 0, 0, 1, 1, 0, 1];
        assert!(rt; up(&numbers(rt.alloc(), 1, &moved)?) == Some(None));
        Ok(())
    }

    #[test]
    fn rules_that_do_not(rt: HostRuntime) -> Result<(), Fail> {
        let heap = rt.alloc();
        assert!(rt;
            up(&numbers(heap, 1, &[0, 0, 0, 0])?) == Some(Some(0)),
            "x -> x"
        );
        assert!(rt;
            up(&numbers(heap, 1, &[1, 0, 1, 1, 1, 0])?) == Some(Some(0)),
            "zero -> next(zero)"
        );
        let turned = [1, 2, 0, 0, 0, 1, 1, 2, 0, 1, 0, 0];
        assert!(rt;
            up(&numbers(heap, 1, &turned)?) == Some(Some(0)),
            "plus(x, y) -> plus(y, x)"
        );
        // next(x) -> x goes down, zero -> zero does not
        assert!(rt; up(&numbers(heap, 2, &[1, 1, 0, 0, 0, 0, 1, 0, 1, 0])?) == Some(Some(1)));
        Ok(())
    }

    #[test]
    fn towers_are_answered_at_once(rt: HostRuntime) -> Result<(), Fail> {
        assert!(rt; up(&towers(rt.alloc(), 31, 31)?) == Some(Some(0)));
        Ok(())
    }
}
