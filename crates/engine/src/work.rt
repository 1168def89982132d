// Lent work words shared out: a store, cells for roots and words for frames.
ghost use Rattle.std.specs.Prelude.{length};
ghost use Rattle.engine.specs.Working.{SharedOut};

use crate::types::Frames;
use store::{Roots, Store};

// Fewer words are too few.
pub const LEAST: usize = 16384;

// The engine's share of lent words.
#[derive(Drop)]
pub struct Work<'a> {
    pub store: Store<'a>,
    pub roots: Roots<'a>,
    pub frames: Frames<'a>,
}

// Shares out w words: with n = (w - 16384) / 64 there is space for two terms of n different parts at once. The store has all words that
// frames and roots don't want.
pub fn share_out<'a>(work: &'a mut [u32]) -> Option<Work<'a>>
    ensures { SharedOut (length work.old) result }
{
    let len = work.len();
    if len < LEAST {
        return None;
    }
    let n = (len - LEAST) / 64;
    let (words, rest) = work.split_at_mut(4 * n + 16);
    let (cells, slots) = rest.split_at_mut(6 * n + 256);
    let store = Store::open(slots)?;
    Some(Work {
        store,
        roots: Roots::new(cells),
        frames: Frames::new(words),
    })
}
