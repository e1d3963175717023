//! The image after a pause, as definitions and laws: no code.
//!
//! A pause makes its image in two steps. An image has three names here: before, moved and after.
//!
//! 1. The survivors move. `Moved` says which image this makes of an image and a collection set: the
//!    kept objects at their new addresses with their references renamed, the regions, the roots and
//!    the remembered sets. Every humongous object is still there.
//! 2. Humongous objects are freed. `Unnamed` says which of them nothing references in an image, and
//!    what is left without them: their regions are free, and their cards leave every remembered set.
//! 3. `Paused` says which image follows from the whole pause: a moved image without the humongous
//!    objects that nothing references in it, freed all at once.
//! 4. `Made` writes both images out. There is one moved image, and one image after.
//! 5. The moved image has the kept objects. The image after has those of them that weren't freed.
//!    Both heaps are valid. If the image before was covered, both are covered with an empty log, so a
//!    further pause may follow.
//! 6. In both, the roots lead to the same graph, and nothing leads into the set. In the image after,
//!    nothing leads into a freed run.
//!
//! "Moved" always means the first step alone, and "after" the whole pause. No definition here knows
//! a byte, a worker or a step of the code.
#![tactic(auto)]

pub mod laws;
