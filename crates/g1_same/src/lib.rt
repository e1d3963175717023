//! Whether two heaps show the same graph to whoever reads from the roots.
//!
//! A pause may give every object another address. What a program can see of a heap is its graph: the
//! roots, and from them object by object the sizes, the slots and the data words. Two heaps show one
//! graph if a one-to-one renaming of the reached objects makes the one the other. Regions, cards and
//! dead objects don't count.
//!
//! 1. Both heaps are searched at once, breadth first. The roots are compared by number, and then the
//!    slots of each pair of objects that was found, in the order in which the pairs are found. So two
//!    finite automata are compared, state by state (Hopcroft, Karp 1971); here a slot's number is the
//!    letter that is read.
//! 2. Two words agree if both are null, if they reference a pair that was found, or if they reference
//!    two objects that are both new, of one size, as many slots and the same data words: a new pair.
//! 3. Two tables say which: by an object's address before, and by its address after, the place of its
//!    pair. Two equal entries are a pair or two new objects. Else one object before is two after, or
//!    two before are one after.
//! 4. At the first two words that disagree `compare` ends. The path to them is found by going back
//!    from a pair to the one whose slot referenced it. Since pairs are found in breadth-first
//!    order, no path that comes before leads to a difference.
//! 5. If no slot is left, the pairs are the renaming.
//! 6. `Differences` returns one difference after another, by the same search. It goes on behind two objects
//!    whose data words alone differ, as a pair, and behind no other difference. Words of the second heap
//!    that reference no object may be lent to it: they are null in the heap, and are differences, too. It passes over none
//!    that a path leads to.
//! 7. `compare_stale` returns the first of these differences, with its path.
//!
//! `ends_of` follows the path to a difference in both heaps: the words that it leads to, and of two data
//! words that differ their values. `ends_at` says so of what `Differences` returned.
//!
//! The private functions take both heaps as a `Pair`, whose type carries that they are valid.
//!
//! Each reached object, slot and data word is looked at once. The tables have 4 bytes for each word of
//! their heap, and the list of pairs 24 bytes for each.
#![tactic(auto)]

mod comparing;
mod comparing_stale;
mod difference;
mod differences;
mod ending;
pub mod laws;
mod meeting;
mod pair;
mod path;
mod renaming;
mod searching;
mod stale;
mod walk;

pub use comparing::compare;
pub use comparing_stale::{Earliest, StaleEnd, compare_stale};
pub use difference::{Difference, How};
pub use differences::Differences;
pub use ending::{Ends, ends_at, ends_of};
pub use meeting::first_other;
pub use pair::Pair;
pub use path::Path;
pub use renaming::Renaming;
pub use stale::StaleWords;
pub use walk::{Found, Place, Way, What};
