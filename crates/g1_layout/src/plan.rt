ghost use Rattle.std.specs.Prelude.{◌≡◌, ◌*◌, length};
ghost use Rattle.g1_words.specs.Layout.{moved_to};

use crate::new_addresses::Table;
use std::marker::Model;

/// The survivors that are in one region of to-space.
#[derive(Debug, Clone, Copy, PartialEq, Eq)]
pub struct Run {
    /// The region's number.
    pub region: u32,
    /// The index of the first of these survivors in the list of all.
    pub from: usize,
    /// The index after the last of them.
    pub to: usize,
    /// Where the last of them ends, in words from the region's start.
    pub end: u64,
}

/// Where the survivors of a set of regions go.
#[derive(Drop)]
pub struct Plan {
    pub(crate) set: Vec<u32>,
    pub(crate) survivors: Vec<u64>,
    pub(crate) places: Vec<u64>,
    pub(crate) to_space: Vec<u32>,
    pub(crate) runs: Vec<Run>,
    pub(crate) words: u64,
    pub(crate) table: Table,
}

impl Model for Plan {
    ghost use Rattle.g1_layout.specs.Plan.{Plan as PlanOf};
    ghost use Rattle.g1_layout.specs.Forwards.{Forwards};

    ghost Value = { PlanOf };

    ghost view = { λ p. record { set = p.set.items; survivors = p.survivors.items; places = p.places.items; to_space = p.to_space.items; runs = p.runs.items; words = p.words } };

    ghost invariant = { λ p. Forwards p.table p.survivors.items p.places.items };
}

impl Plan {
    /// The regions of the set, rising.
    ///
    /// # Examples
    ///
    /// ```
    /// use g1_layout::place;
    /// use g1_testing::{image, pictures::shared};
    ///
    /// let image = image(alloc, shared())?;
    /// let plan = place(alloc, image.heap(), &[1], &[21, 16])?;
    /// assert_eq!(rt; plan.set(), [1].as_slice());
    /// ```
    pub fn set(&self) -> &[u32]
        ensures { result.now ≡ self.now.set }
    {
        &self.set
    }

    /// The survivors' addresses, in the order in which they are found.
    ///
    /// # Examples
    ///
    /// ```
    /// use g1_layout::place;
    /// use g1_testing::{image, pictures::shared};
    ///
    /// let image = image(alloc, shared())?;
    /// let plan = place(alloc, image.heap(), &[1], &[21, 16])?;
    /// assert_eq!(rt; plan.survivors(), [21, 16].as_slice());
    /// ```
    pub fn survivors(&self) -> &[u64]
        ensures { result.now ≡ self.now.survivors }
    {
        &self.survivors
    }

    /// The survivors' new addresses, in the same order.
    ///
    /// # Examples
    ///
    /// ```
    /// use g1_layout::place;
    /// use g1_testing::{image, pictures::shared};
    ///
    /// let image = image(alloc, shared())?;
    /// let plan = place(alloc, image.heap(), &[1], &[21, 16])?;
    /// assert_eq!(rt; plan.places(), [32, 34].as_slice());
    /// ```
    pub fn places(&self) -> &[u64]
        ensures { result.now ≡ self.now.places }
    {
        &self.places
    }

    /// The regions that survivors are placed in, rising.
    ///
    /// # Examples
    ///
    /// ```
    /// use g1_layout::place;
    /// use g1_testing::{image, pictures::shared};
    ///
    /// let image = image(alloc, shared())?;
    /// let plan = place(alloc, image.heap(), &[1], &[21, 16])?;
    /// assert_eq!(rt; plan.to_space(), [2].as_slice());
    /// ```
    pub fn to_space(&self) -> &[u32]
        ensures { result.now ≡ self.now.to_space }
    {
        &self.to_space
    }

    /// A run for each region of to-space, in the same order.
    ///
    /// # Examples
    ///
    /// ```
    /// use g1_layout::{Run, place};
    /// use g1_testing::image;
    ///
    /// // After the object of 12 words region 2 has no room for that of 5.
    /// let image = image(alloc, "heap 16 4 4
    ///     root 0
    ///     root 16
    ///     region 0 ordinary
    ///     object 12/0 ..
    ///     region 1 ordinary
    ///     object 5/0 ..")?;
    /// let plan = place(alloc, image.heap(), &[0, 1], &[0, 16])?;
    /// assert_eq!(rt; plan.runs()[0], Run { region: 2, from: 0, to: 1, end: 12 });
    /// assert_eq!(rt; plan.runs()[1], Run { region: 3, from: 1, to: 2, end: 5 });
    /// ```
    pub fn runs(&self) -> &[Run]
        ensures { result.now ≡ self.now.runs }
    {
        &self.runs
    }

    /// The number of the survivors' words, headers included.
    ///
    /// # Examples
    ///
    /// ```
    /// use g1_layout::place;
    /// use g1_testing::{image, pictures::shared};
    ///
    /// let image = image(alloc, shared())?;
    /// let plan = place(alloc, image.heap(), &[1], &[21, 16])?;
    /// assert_eq!(rt; plan.words(), 7);
    /// ```
    pub fn words(&self) -> u64
        ensures { result ≡ self.now.words }
    {
        self.words
    }

    /// The number of regions of to-space.
    ///
    /// # Examples
    ///
    /// ```
    /// use g1_layout::place;
    /// use g1_testing::{image, pictures::shared};
    ///
    /// let image = image(alloc, shared())?;
    /// let plan = place(alloc, image.heap(), &[1], &[21, 16])?;
    /// assert_eq!(rt; plan.need(), 1);
    /// ```
    pub fn need(&self) -> u64
        ensures { result ≡ length self.now.to_space }
    {
        self.to_space.len() as u64
    }

    /// The new address of what is at an address: a survivor's place, and any other address itself.
    ///
    /// # Examples
    ///
    /// ```
    /// use g1_layout::place;
    /// use g1_testing::{image, pictures::shared};
    ///
    /// let image = image(alloc, shared())?;
    /// let plan = place(alloc, image.heap(), &[1], &[21, 16])?;
    /// assert_eq!(rt; plan.forward(16), 34);
    /// assert_eq!(rt; plan.forward(0), 0);
    /// ```
    pub fn forward(&self, a: u64) -> u64
        ensures { result ≡ moved_to self.now.survivors self.now.places a }
    {
        self.table.get(a)
    }
}
