// The answers as text: the words by which programs know them, and plain sentences for people.
#![tactic(auto)]

ghost use Rattle.std.specs.Prelude.{◌≡◌, IfOk, string_bytes};
ghost use Rattle.answers.specs.Words.{judged_text, judged_from, told_text, told_from, Number};

use equal::{Judged, Told};
use notation::Book;
use printing::{equation_text, rule_text};
use std::alloc::{AllocError, Global};
use std::fmt::Display;

// The line that says an answer on a book; the answer can be told from it.
#[tactic(auto, using(crate::proofs::Words::judged_back))]
pub fn judged_line(heap: Global, answer: Judged) -> Result<String, AllocError>
    ensures text { IfOk result (λ t. string_bytes t ≡ judged_text answer) }
    ensures back { Number answer → judged_from (judged_text answer) ≡ answer }
{
    match answer {
        Judged::Settles => String::from_str(heap, "settles"),
        Judged::Up(rule) => format!(in heap; "up {rule}"),
        Judged::Apart => String::from_str(heap, "apart"),
        Judged::Lost(equation) => format!(in heap; "lost {equation}"),
        Judged::Stray => String::from_str(heap, "stray"),
        Judged::NoBook => String::from_str(heap, "no book"),
        Judged::Room => String::from_str(heap, "room"),
        Judged::Few => String::from_str(heap, "few"),
    }
}

// The words that say an answer on two terms; the answer can be told from them.
pub fn told_words(answer: Told) -> &'static str
    ensures text { result.now ≡ told_text answer }
    ensures back { told_from (told_text answer) ≡ answer }
{
    match answer {
        Told::Same => "same",
        Told::Different => "different",
        Told::Unsettled => "unsettled",
        Told::NoTerm => "no term",
        Told::Full => "full",
        Told::Unjudged => "unjudged",
        Told::Small => "small",
    }
}

// A sentence, and after it what it speaks of where that has names.
fn sentence<D: Display + Drop>(
    heap: Global,
    says: D,
    shown: Option<String>,
) -> Result<String, AllocError> {
    match shown {
        Some(text) => format!(in heap; "{says}:\n  {text}"),
        None => format!(in heap; "{says}."),
    }
}

// What an answer on a book says, in plain words.
// Stays a heap beside the book, as in `printing`.
pub fn explanation(
    heap: Global,
    answer: Judged,
    book: Option<&Book>,
) -> Result<String, AllocError> {
    let words = match answer {
        Judged::Up(rule) => {
            let text = book.map(|book| rule_text(heap, book, rule)).transpose()?;
            let says = format_args!("Rule {rule} does not go down, and all rules before it do");
            return sentence(heap, says, text);
        }
        Judged::Lost(equation) => {
            let text = book
                .map(|book| equation_text(heap, book, equation))
                .transpose()?;
            let says = format_args!(
                "The rules do not bring the sides of equation {equation} together"
            );
            return sentence(heap, says, text);
        }
        Judged::Settles => {
            "Two terms are equal by the equations exactly if the rules bring both to the same last term."
        }
        Judged::Apart => {
            "All rules go down, but from one term they lead to two that they do not bring together."
        }
        Judged::Stray => "The ways do not show that each rule follows from the equations.",
        Judged::NoBook => "The words are not the row of a book within the limits.",
        Judged::Room => {
            "All rules go down, but a term that they lead to is too large for the work words."
        }
        Judged::Few => {
            "There are fewer work words than 16384, and 64 for each word of the book and its ways."
        }
    };
    String::from_str(heap, words)
}
