// The stack of frames: signs some of whose parts are still to be brought to normal form.
ghost use Rattle.std.specs.Prelude.{◌≡◌, ◌+◌, ◌-◌, ◌*◌, ◌<◌, ◌≤◌, true, false, length};
ghost use Rattle.engine.specs.Frames.{asked_in, frame_at, WordFor, FramePut, FramePushed, GoneOn, AskedTop, Popped, Forgotten, Emptied};

use crate::types::{Frame, Frames};
use store::Place;

// The word by which a frame remembers a place: one more than its number. 0 is for none, and for a place too large for a word.
// Stays a number with 0 for none: a frame lies in lent words, and this is one of its four.
fn asked_word(asked: Option<Place>) -> u32
    ensures { WordFor asked result }
{
    match asked {
        Some(Place(i)) if i < u32::MAX as usize => i as u32 + 1,
        _ => 0,
    }
}

// The place that such a word remembers.
fn asked_place(word: u32) -> Option<Place>
    ensures { result ≡ asked_in word }
{
    word.checked_sub(1).map(|i| Place(i as usize))
}

impl<'a> Frames<'a> {
    // No frames yet, and space for as many as four words each go in.
    pub fn new(words: &'a mut [u32]) -> Frames<'a>
        ensures depth { result.depth ≡ 0 }
        ensures fresh { result.fresh ≡ 0 }
        ensures words { result.words.now ≡ words.old }
    {
        Frames {
            words,
            depth: 0,
            fresh: 0,
        }
    }
}

impl Frames<'_> {
    // Whether there is space for one more.
    pub fn has_space(&self) -> bool
        ensures yes { result ≡ true → 4 * (self.now.depth + 1) ≤ length self.now.words.now }
        ensures no { result ≡ false → length self.now.words.now < 4 * (self.now.depth + 1) }
    {
        self.depth < self.words.len() / 4
    }

    fn put(&mut self, d: usize, frame: Frame)
        requires { 4 * d + 4 ≤ length self.old.words.now }
        ensures { FramePut self.old d frame self.new }
    {
        let asked = asked_word(frame.asked);
        let words = [frame.sign, frame.others, frame.done, asked];
        self.words[4 * d..4 * d + 4].copy_from_slice(&words);
    }

    // The top frame.
    pub fn top(&self) -> Frame
        requires some { 0 < self.now.depth }
        requires words { 4 * self.now.depth ≤ length self.now.words.now }
        ensures { result ≡ frame_at self.now.words.now (self.now.depth - 1) }
    {
        let d = self.depth - 1;
        let words: [u32; 4] = self.words[4 * d..4 * d + 4].try_into().unwrap();
        let [sign, others, done, asked] = words;
        Frame {
            sign,
            others,
            done,
            asked: asked_place(asked),
        }
    }

    // What the top frame asked for, if it is known.
    pub fn asked(&self) -> Option<Place>
        requires some { 0 < self.now.depth }
        requires words { 4 * self.now.depth ≤ length self.now.words.now }
        ensures { AskedTop self.now result }
    {
        if self.fresh < self.depth {
            self.top().asked
        } else {
            None
        }
    }

    // A frame for a sign whose first part, at the place that is asked for, is worked at.
    pub fn push(&mut self, sign: u32, others: u32, asked: Place)
        requires { 4 * (self.old.depth + 1) ≤ length self.old.words.now }
        ensures { FramePushed self.old sign others asked self.new }
    {
        let frame = Frame {
            sign,
            others,
            done: 0,
            asked: Some(asked),
        };
        self.put(self.depth, frame);
        self.depth += 1;
    }

    // One more part of the top frame is done, and the next is asked for.
    pub fn go_on(&mut self, asked: Place)
        requires some { 0 < self.old.depth }
        requires words { 4 * self.old.depth ≤ length self.old.words.now }
        requires done { (frame_at self.old.words.now (self.old.depth - 1)).done < 3 }
        ensures { GoneOn self.old asked self.new }
    {
        let d = self.depth - 1;
        // Stays two words by their numbers: the frame's other two are as they were, and `put` would copy them.
        self.words[4 * d + 2] += 1;
        self.words[4 * d + 3] = asked_word(Some(asked));
        self.fresh = self.fresh.min(d);
    }

    // All parts of the top frame are done.
    pub fn pop(&mut self)
        requires { 0 < self.old.depth }
        ensures { Popped self.old self.new }
    {
        self.depth -= 1;
        self.fresh = self.fresh.min(self.depth);
    }

    // The places that were asked for mean nothing any more.
    pub fn forget(&mut self)
        ensures { Forgotten self.old self.new }
    {
        self.fresh = self.depth;
    }

    // No frames.
    pub fn clear(&mut self)
        ensures { Emptied self.old self.new }
    {
        self.depth = 0;
        self.fresh = 0;
    }
}
