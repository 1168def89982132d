// Building images, in rounds over the places from the lowest up, as long as there is one whose parts have images.
// Stays four parameters: a struct over them would have to say in each clause that n and the classes are as before.
// Stays bools: whether an image was built is all that the next round asks.
ghost use Rattle.std.specs.Prelude.{◌<◌, false};
ghost use Rattle.unification.specs.Images.{Building, Builds, BuiltAt, RoundBuilt};

use crate::types::{Classes, Images};
use store::{Node, Place, Store};

// Builds the image of the class that is known by a place, unless it has one or waits for those of its parts. A letter is its own.
fn build_at(store: &mut Store, n: usize, classes: &Classes, images: &mut Images, p: Place) -> bool
    requires { (Building store.old n classes.now images.old) × (p.0 < n) }
    ensures built { Builds store.old images.old n classes.now store.new images.new }
    ensures told { BuiltAt store.old images.old n classes.now p.0 store.new images.new result }
{
    if classes.known_by(p) != p || images.get(p).is_some() {
        return false;
    }
    match store.view(p) {
        Node::Letter(_) => images.put(p, p),
        Node::Sign(f, m) => {
            // Stays `let .. else`: where a part has no image yet, the answer is no.
            let Some(parts) = images.parts(store, classes, p, m) else {
                return false;
            };
            images.put(p, store.share_sign(f, parts, m));
        }
    }
    true
}

// Whether a round over the first n places has built an image.
fn build_round(store: &mut Store, n: usize, classes: &Classes, images: &mut Images) -> bool
    requires { Building store.old n classes.now images.old }
    ensures built { Builds store.old images.old n classes.now store.new images.new }
    ensures told { RoundBuilt images.old n classes.now n store.new images.new result }
{
    let mut found = false;
    // Stays a loop over numbers: each is a place's.
    for i in 0..n {
        found |= build_at(store, n, classes, images, Place(i));
    }
    found
}

// Builds images until the rest wait for each other.
pub fn build(store: &mut Store, n: usize, classes: &Classes, images: &mut Images)
    requires { Building store.old n classes.now images.old }
    ensures built { Builds store.old images.old n classes.now store.new images.new }
    ensures told { RoundBuilt images.old n classes.now n store.new images.new false }
{
    // Stays a while with no body: it ends with the first round that builds nothing.
    while build_round(store, n, classes, images) {}
}
