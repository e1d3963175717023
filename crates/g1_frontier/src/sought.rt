ghost use Rattle.std.specs.Prelude.{◌≡◌, ◌≤◌, length, take, drop};
ghost use Rattle.g1_frontier.specs.Items.{items_of, ArePaired};

use crate::item::Item;

/// What a round looks at.
#[derive(Clone, Copy, Drop)]
pub enum Sought<'a> {
    /// Items, each with a base of its own.
    Items(&'a [Item]),
    /// The objects at some addresses, and the base of each.
    Objects(&'a [u64], &'a [u64]),
}

// A list from one place on, at most so many of it.
fn cut<T>(list: &[T], from: usize, most: usize) -> &[T]
    requires { from ≤ length list.now }
    ensures { result.now ≡ take most (drop from list.now) }
{
    let rest = &list[from..];
    &rest[..rest.len().min(most)]
}

impl<'a> Sought<'a> {
    ghost use Rattle.std.specs.Prelude.{◌≡◌, ◌≤◌, length, take, drop};
    ghost use Rattle.g1_frontier.specs.Items.{items_of, ArePaired};

    /// How many items it has.
    pub fn len(self) -> usize
        requires { ArePaired self }
        ensures { result ≡ length (items_of self.entry) }
    {
        match self {
            Sought::Items(items) => items.len(),
            Sought::Objects(addresses, _) => addresses.len(),
        }
    }

    /// Those from one place on, at most so many.
    pub fn part(self, from: usize, most: usize) -> Sought<'a>
        requires paired { ArePaired self }
        requires within { from ≤ length (items_of self) }
        ensures items { items_of result ≡ take most (drop from (items_of self.entry)) }
        ensures paired { ArePaired result }
    {
        match self {
            Sought::Items(items) => Sought::Items(cut(items, from, most)),
            Sought::Objects(addresses, bases) => {
                Sought::Objects(cut(addresses, from, most), cut(bases, from, most))
            }
        }
    }
}
