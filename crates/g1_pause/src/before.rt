ghost use Rattle.std.specs.Prelude.{◌≡◌, map, length, IfOk, IfErr};
ghost use Rattle.g1_words.specs.Heap.{regions};
ghost use Rattle.g1_image.specs.Cards.{IsTracked, refined};
ghost use Rattle.g1_rem.specs.Starts.{IsStartsOf};

use g1_image::Image;
use g1_rem::{Starts, Tracked, image, refine_by};
use g1_words::Fault;
use std::alloc::Global;
use std::marker::Model;
use std::thread::Threads;

/// A tracked image before its pause, with what the steps of the pause go by.
#[derive(Drop)]
pub struct Before<'a> {
    tracked: &'a Tracked,
    starts: Starts,
    remembered: Vec<Vec<u32>>,
}

impl<'a> Model for Before<'a> {
    ghost use Rattle.std.specs.Prelude.{◌≡◌, map};
    ghost use Rattle.g1_words.specs.Heap.{regions};
    ghost use Rattle.g1_image.specs.Image.{Image as ImageOf};
    ghost use Rattle.g1_image.specs.Cards.{refined};
    ghost use Rattle.g1_rem.specs.Starts.{IsStartsOf};

    ghost Value = { ImageOf };

    ghost view = { λ b. b.tracked.now };

    ghost invariant = { λ b. IsStartsOf b.tracked.now.heap b.starts × (map (λ s. s.items) b.remembered.items ≡ map (refined b.tracked.now) (regions b.tracked.now.heap)) };
}

impl<'a> Before<'a> {
    /// Finds the starts of the image's heap and its refined remembered sets, by at most this many threads.
    ///
    /// # Errors
    ///
    /// `Fault::Memory` alone.
    ///
    /// # Examples
    ///
    /// ```
    /// use g1_pause::Before;
    /// use g1_rem::verify;
    /// use g1_testing::{image, pictures::shared};
    ///
    /// let shared = image(alloc, shared())?;
    /// let tracked = verify(&rt, alloc, shared).map_err(|(_, fault)| fault)?;
    /// let before = Before::new(&rt, alloc, &tracked, 1)?;
    /// // The cards 0 and 1 hold slots that reference an object in region 1.
    /// assert_eq!(rt; before.remembered()[1].as_slice(), [0, 1].as_slice());
    /// ```
    pub fn new<R: Threads + Sync>(
        rt: &R,
        alloc: Global,
        tracked: &'a Tracked,
        workers: u64,
    ) -> Result<Before<'a>, Fault>
        ensures image { IfOk result (λ b. b ≡ tracked.now) }
        ensures memory { IfErr result (λ e. e ≡ Fault.Memory) }
    {
        let starts = Starts::build_by(rt, alloc, image(tracked).heap(), workers)?;
        let remembered = refine_by(rt, alloc, tracked, &starts, workers)?;
        Ok(Before {
            tracked,
            starts,
            remembered,
        })
    }

    /// The image as it is tracked.
    ///
    /// # Examples
    ///
    /// ```
    /// use g1_pause::Before;
    /// use g1_rem::verify;
    /// use g1_testing::{image, pictures::shared};
    ///
    /// let shared = image(alloc, shared())?;
    /// let tracked = verify(&rt, alloc, shared).map_err(|(_, fault)| fault)?;
    /// let before = Before::new(&rt, alloc, &tracked, 1)?;
    /// assert_eq!(rt; before.tracked().image.heap().roots(), [22, 17].as_slice());
    /// ```
    pub fn tracked(&self) -> &Tracked
        ensures { result.now ≡ self.now }
    {
        self.tracked
    }

    /// The image.
    ///
    /// # Examples
    ///
    /// ```
    /// use g1_pause::Before;
    /// use g1_rem::verify;
    /// use g1_testing::{image, pictures::shared};
    ///
    /// let shared = image(alloc, shared())?;
    /// let tracked = verify(&rt, alloc, shared).map_err(|(_, fault)| fault)?;
    /// let before = Before::new(&rt, alloc, &tracked, 1)?;
    /// assert_eq!(rt; before.image().heap().roots(), [22, 17].as_slice());
    /// ```
    pub fn image(&self) -> &Image
        ensures same { result.now ≡ self.now }
        ensures tracked { IsTracked self.now }
    {
        let image = image(self.tracked);
        // It states to the prover that the image keeps its rules.
        let _ = image.heap();
        image
    }

    /// The starts of the image's heap.
    ///
    /// # Examples
    ///
    /// ```
    /// use g1_pause::Before;
    /// use g1_rem::verify;
    /// use g1_testing::{image, pictures::shared};
    ///
    /// let shared = image(alloc, shared())?;
    /// let tracked = verify(&rt, alloc, shared).map_err(|(_, fault)| fault)?;
    /// let before = Before::new(&rt, alloc, &tracked, 1)?;
    /// // An object begins at 4, the first word of card 1, and none lies over the first word of card 2.
    /// assert_eq!(rt; before.starts().first(1), Some(4));
    /// assert_eq!(rt; before.starts().first(2), None);
    /// ```
    pub fn starts(&self) -> &Starts
        ensures { IsStartsOf self.now.heap result.now }
    {
        &self.starts
    }

    /// The refined remembered sets, by region number.
    ///
    /// # Examples
    ///
    /// ```
    /// use g1_pause::Before;
    /// use g1_rem::verify;
    /// use g1_testing::{image, pictures::shared};
    ///
    /// let shared = image(alloc, shared())?;
    /// let tracked = verify(&rt, alloc, shared).map_err(|(_, fault)| fault)?;
    /// let before = Before::new(&rt, alloc, &tracked, 1)?;
    /// assert_eq!(rt; before.remembered().len(), 4);
    /// assert_eq!(rt; before.remembered()[1].as_slice(), [0, 1].as_slice());
    /// ```
    pub fn remembered(&self) -> &[Vec<u32>]
        ensures one_each { length result.now ≡ self.now.heap.geometry.n }
        ensures refined { map (λ s. s.items) result.now ≡ map (refined self.now) (regions self.now.heap) }
    {
        &self.remembered
    }
}
