// Books, equations and rules written in the readable form.
// Stays a heap beside the book, in all functions: the text lies where the caller says.
#![tactic(auto)]

ghost use Rattle.std.specs.Prelude.{◌≡◌, ◌≤◌, [], IfOk, string_bytes};

mod printer;

use notation::Book;
use printer::Printer;
use std::alloc::{AllocError, Global};

// The book, with its ways.
pub fn book_text(heap: Global, book: &Book) -> Result<String, AllocError> {
    let mut printer = Printer::new(heap, book);
    printer.add_book()?;
    Ok(printer.out)
}

// Of so many equations or rules, counted with all from `first`, the one with this number; nothing where there is none.
// Stays with the mark as a parameter: it is text that is written.
fn pair_text(
    heap: Global,
    book: &Book,
    first: usize,
    count: usize,
    number: usize,
    mark: &str,
) -> Result<String, AllocError>
    ensures { count ≤ number → IfOk result (λ t. string_bytes t ≡ []) }
{
    let mut printer = Printer::new(heap, book);
    if number < count {
        printer.add_sides(first.saturating_add(number), mark)?;
    }
    Ok(printer.out)
}

// The equation with this number, from 0; nothing where there is none.
pub fn equation_text(heap: Global, book: &Book, number: usize) -> Result<String, AllocError>
    ensures { book.now.layout.equations ≤ number → IfOk result (λ t. string_bytes t ≡ []) }
{
    let count = book.layout.equations();
    pair_text(heap, book, 0, count, number, " = ")
}

// The rule with this number, from 0; nothing where there is none.
pub fn rule_text(heap: Global, book: &Book, number: usize) -> Result<String, AllocError>
    ensures { book.now.layout.rules ≤ number → IfOk result (λ t. string_bytes t ≡ []) }
{
    let count = book.layout.rules();
    pair_text(heap, book, book.layout.equations(), count, number, " -> ")
}
