//! A pause as lines, one fact a line, and what keeps an object.
//!
//! 1. `explain` takes the steps of a pause, as `evacuate` of `g1_pause` does, and adds the lines of each to a
//!    text: the dirty cards, the choice, the cards that lead in, the survivors and what finds each, their
//!    places, and all that the pause writes. If a step refuses the pause, the text ends there with the refusal.
//!    Nothing is carried out. `explain_steps` does so for a caller that took the steps, and will carry them out.
//! 2. What finds a survivor is the first reference to it. The survivors are in the order of their first
//!    references, so one pass over the references, in the order of the search, meets each in its turn:
//!    a reference that is the first one to a survivor leads to the next one of the list.
//! 3. What keeps a humongous object is the first reference to it, in the same order. The pause frees exactly
//!    those that have none.
//! 4. `why` asks the same search for all that the roots reach, and goes back from an object to a root. If no
//!    root leads there, it asks for the survivors of the object's region alone, from the cards that lead into
//!    it. A slot that leads into it and isn't covered is the refusal.
#![tactic(auto)]

mod cards;
mod changes;
mod choosing;
mod explaining;
mod finder;
mod finders;
mod form;
mod humongous;
mod keeping;
mod objects;
mod paths;
mod places;
mod remembering;
mod steps;
mod totals;
mod walkable;

pub use explaining::{Explanation, explain, explain_steps};
pub use form::Form;
pub use keeping::why;
