// The types: classes of places, their images, and that classes have two different signs.
use store::Place;

// For each of 96 places its label: the place by which its class is known.
// Stays an array, as the images below: there are at most 96 places, and no heap is used here.
#[derive(Clone, Copy)]
pub struct Classes {
    pub labels: [Place; 96],
}

// For each class, by its label, the place of what becomes of its terms, once that is built.
// Stays apart from engine's `Bindings`: one type for both would take length and index as parameters, and share a line of `new` and `get`.
#[derive(Clone, Copy)]
pub struct Images {
    pub at: [Option<Place>; 96],
}

// Two signs of one class differ.
#[derive(Clone, Copy, Debug, PartialEq, Eq)]
pub struct Clash;
