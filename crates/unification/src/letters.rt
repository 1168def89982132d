// Where the letters of a store stand.
ghost use Rattle.unification.specs.Unifiers.{AllBound, LettersFound};

use engine::types::Bindings;
use store::{Node, Place, Store};

fn all_bound(letters: &Bindings) -> bool
    ensures { AllBound letters.now result }
{
    letters.at.iter().all(|p| p.is_some())
}

// The places of the letters, if the letters of the store are just those below 32.
pub fn find_letters(store: &Store) -> Option<Bindings>
    ensures { LettersFound store.now result }
{
    let mut letters = Bindings::new();
    // Stays a loop over numbers: each is a place's.
    for i in 0..store.count {
        let Node::Letter(x) = store.view(Place(i)) else {
            continue;
        };
        if x >= 32 {
            return None;
        }
        letters.at[x as usize] = Some(Place(i));
    }
    all_bound(&letters).then_some(letters)
}
