// Tests of reading rows: what is read, and each way of being refused.
#![tactic(auto)]

#[cfg(test)]
mod tests {
    use books::{Book, Sides, are_ways, is_term, read_book};
    use std::alloc::{AllocError, Global};
    use std::test::Fail;

    // Signs zero, next and plus; two equations, and the same as rules.
    const SUMS: [u32; 57] = [
        3, 0, 1, 2, 0, 1, 2, 2, 2, // signs, their parts and ranks, equations, rules
        1, 2, 1, 0, 0, 1, 0, 1, // plus(zero, y) = y
        1, 2, 1, 1, 0, 0, 0, 1, 1, 1, 1, 2, 0, 0, 0, 1, // plus(next(x), y) = next(plus(x, y))
        1, 2, 1, 0, 0, 1, 0, 1, 1, 2, 1, 1, 0, 0, 0, 1, 1, 1, 1, 2, 0, 0, 0, 1,
    ];

    const PARTS: [u32; 3] = [0, 1, 2];

    // Whether sums with one word changed are still read as a book.
    fn reads_with(at: usize, word: u32) -> bool {
        let mut words = SUMS;
        if let Some(changed) = words.get_mut(at) {
            *changed = word;
        }
        read_book(&words).is_some()
    }

    // A book of as many signs without parts, and as many equations and rules of the first with itself.
    fn constants(
        heap: Global,
        signs: u32,
        equations: u32,
        rules: u32,
    ) -> Result<Vec<u32>, AllocError> {
        let mut words = vec![in heap; signs]?;
        for _ in 0..signs {
            words.push(0)?;
        }
        for rank in 0..signs {
            words.push(rank)?;
        }
        words.extend_from_slice(&[equations, rules])?;
        for _ in 0..equations {
            words.extend_from_slice(&[1, 0, 1, 0])?;
        }
        for _ in 0..rules {
            words.extend_from_slice(&[1, 0, 1, 0])?;
        }
        Ok(words)
    }

    // A book of one sign with one part and one equation, whose left side has that many signs over a letter.
    fn tower(heap: Global, height: usize) -> Result<Vec<u32>, AllocError> {
        let mut words = vec![in heap; 1, 1, 0, 1, 0]?;
        for _ in 0..height {
            words.extend_from_slice(&[1, 0])?;
        }
        words.extend_from_slice(&[0, 0, 0, 0])?;
        Ok(words)
    }

    #[test]
    fn a_book_is_read(rt: HostRuntime) -> Result<(), Fail> {
        let layout = read_book(&SUMS).ok_or("no book")?;
        assert_eq!(rt; layout.signs(), 3);
        assert_eq!(rt; layout.equations(), 2);
        assert_eq!(rt; layout.rules(), 2);
        assert_eq!(rt; layout.start(0), 9);
        assert_eq!(rt; layout.start(3), 25);
        assert_eq!(rt; layout.start(8), 57);
        Ok(())
    }

    #[test]
    fn a_book_has_its_signs_and_sides(rt: HostRuntime) -> Result<(), Fail> {
        let book = Book::read(&SUMS).ok_or("no book")?;
        assert!(rt; book.parts() == &SUMS[1..4]);
        assert!(rt; book.ranks() == &SUMS[4..7]);
        if book.layout.equations() > 0 {
            let Sides { left, right } = book.equation(0);
            assert!(rt; left == &SUMS[9..15]);
            assert!(rt; right == &SUMS[15..17]);
        }
        if book.layout.rules() > 1 {
            let Sides { left, right } = book.rule(1);
            assert!(rt; left == &SUMS[41..49]);
            assert!(rt; right == &SUMS[49..57]);
        }
        Ok(())
    }

    #[test]
    fn changed_words_are_no_book(rt: HostRuntime) {
        assert!(rt; !reads_with(0, 0), "no signs");
        assert!(rt; !reads_with(2, 5), "five parts");
        assert!(rt; !reads_with(5, 0), "equal ranks");
        assert!(rt; reads_with(5, 7), "other ranks");
        assert!(rt; !reads_with(7, 3), "an equation that is not there");
        assert!(rt; !reads_with(8, 1), "a rule too many");
        assert!(rt; !reads_with(10, 3), "a sign out of range");
        assert!(rt; !reads_with(10, 1), "a sign with other parts");
        assert!(rt; !reads_with(14, 16), "letter 16");
        assert!(rt; reads_with(14, 15), "letter 15");
        assert!(rt; !reads_with(13, 2), "neither letter nor sign");
    }

    #[test]
    fn words_cut_short_or_left_over(rt: HostRuntime) -> Result<(), Fail> {
        for end in 0..SUMS.len() {
            assert!(rt; read_book(&SUMS[..end]).is_none());
        }
        let mut more = SUMS.to_vec(rt.alloc())?;
        more.push(0)?;
        assert!(rt; read_book(&more).is_none());
        Ok(())
    }

    #[test]
    fn bounds_of_books(rt: HostRuntime) -> Result<(), Fail> {
        let heap = rt.alloc();
        assert!(rt; read_book(&constants(heap, 32, 64, 64)?).is_some());
        assert!(rt;
            read_book(&constants(heap, 33, 1, 1)?).is_none(),
            "33 signs"
        );
        assert!(rt;
            read_book(&constants(heap, 1, 65, 1)?).is_none(),
            "65 equations"
        );
        assert!(rt;
            read_book(&constants(heap, 1, 1, 65)?).is_none(),
            "65 rules"
        );
        assert!(rt; read_book(&tower(heap, 31)?).is_some());
        assert!(rt; read_book(&tower(heap, 32)?).is_none(), "a side of 33");
        Ok(())
    }

    #[test]
    fn terms(rt: HostRuntime) {
        assert!(rt; is_term(&PARTS, &[1, 2, 1, 0, 0, 3]));
        assert!(rt; !is_term(&PARTS, &[]));
        assert!(rt; !is_term(&PARTS, &[0, 16]), "letter 16");
        assert!(rt; !is_term(&PARTS, &[1, 0, 0]), "left over");
        assert!(rt; !is_term(&PARTS, &[1, 2, 1, 0]), "a part missing");
        assert!(rt; !is_term(&PARTS, &[1, 3]), "no such sign");
    }

    #[test]
    fn ways(rt: HostRuntime) {
        assert!(rt; are_ways(&PARTS, 2, &[1, 0, 1, 2, 1, 0, 0, 99]));
        assert!(rt; are_ways(&PARTS, 1, &[0]), "no terms");
        assert!(rt; !are_ways(&PARTS, 2, &[1, 0, 1]), "a way missing");
        assert!(rt; !are_ways(&PARTS, 1, &[1, 0, 1, 0]), "left over");
        assert!(rt; !are_ways(&PARTS, 1, &[2, 0, 1]), "a term missing");
    }
}
