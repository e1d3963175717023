ghost use Rattle.std.specs.Prelude.{◌≡◌, ◌≤◌, ◌<◌, ◌+◌, ◌*◌, ◌^◌, ◌%◌, [], ◌++◌, length, set, replicate, slice_index_or, true, false, IfOk, OnOk, OnErr};
ghost use Rattle.g1_words.specs.Lists.{has};
ghost use Rattle.g1_words.specs.Marks.{AreMarked, IsNextSet};

use std::alloc::{AllocError, Global};
use std::marker::Model;

/// A mark for each number below a bound, one bit each.
#[derive(Drop)]
pub struct Marks {
    count: usize,
    bits: Vec<u64>,
}

impl Model for Marks {
    ghost use Rattle.std.specs.Prelude.{◌≤◌, ◌*◌, List, Bool, length};
    ghost use Rattle.g1_words.specs.Marks.{marks_of};

    ghost Value = { List Bool };

    ghost view = { λ m. marks_of m.count m.bits.items };

    ghost invariant = { λ m. m.count ≤ 64 * length m.bits.items };
}

impl Marks {
    /// So many marks, none of them set.
    ///
    /// # Errors
    /// `AllocError` if the allocation was refused.
    ///
    /// # Examples
    ///
    /// ```
    /// use g1_words::Marks;
    ///
    /// let mut marks = Marks::none(alloc, 100)?;
    /// marks.set(7);
    /// assert!(rt; marks.is_set(7));
    /// assert!(rt; !marks.is_set(8));
    /// ```
    pub fn none(alloc: Global, count: usize) -> Result<Marks, AllocError>
        ensures { IfOk result (λ m. m ≡ replicate count false) }
    {
        let words = count / 64 + 1;
        Ok(Marks {
            count,
            bits: vec![in alloc; 0u64; words]?,
        })
    }

    /// No marks. Room for so many is asked for at once.
    ///
    /// # Errors
    /// `AllocError` if the allocation was refused.
    ///
    /// # Examples
    ///
    /// ```
    /// use g1_words::Marks;
    ///
    /// let marks = Marks::with_capacity(alloc, 128)?;
    /// assert_eq!(rt; marks.len(), 0);
    /// ```
    pub fn with_capacity(alloc: Global, count: usize) -> Result<Marks, AllocError>
        ensures { IfOk result (λ m. m ≡ []) }
    {
        Ok(Marks {
            count: 0,
            bits: Vec::with_capacity(alloc, count / 64 + 1)?,
        })
    }

    /// How many marks there are.
    ///
    /// # Examples
    ///
    /// ```
    /// use g1_words::Marks;
    ///
    /// assert_eq!(rt; Marks::none(alloc, 100)?.len(), 100);
    /// ```
    pub fn len(&self) -> usize
        ensures { result ≡ length self.now }
    {
        self.count
    }

    /// Returns whether a mark is set.
    ///
    /// # Examples
    ///
    /// ```
    /// use g1_words::Marks;
    ///
    /// let mut marks = Marks::none(alloc, 100)?;
    /// marks.set_each(&[7, 70]);
    /// assert!(rt; marks.is_set(70));
    /// assert!(rt; !marks.is_set(71));
    /// ```
    pub fn is_set(&self, at: usize) -> bool
        requires { at < length self.now }
        ensures { result ≡ slice_index_or self.now at false }
    {
        self.bits[at / 64] >> (at % 64) & 1 == 1
    }

    /// Returns whether a mark is set. One past the last isn't.
    ///
    /// # Examples
    ///
    /// ```
    /// use g1_words::Marks;
    ///
    /// let mut marks = Marks::none(alloc, 100)?;
    /// marks.set(99);
    /// assert!(rt; marks.has(99));
    /// assert!(rt; !marks.has(100));
    /// ```
    pub fn has(&self, at: usize) -> bool
        ensures { result ≡ slice_index_or self.now at false }
    {
        at < self.len() && self.is_set(at)
    }

    /// Sets a mark.
    ///
    /// # Examples
    ///
    /// ```
    /// use g1_words::Marks;
    ///
    /// let mut marks = Marks::none(alloc, 100)?;
    /// marks.set(70);
    /// marks.set(7);
    /// assert_eq!(rt; marks.next_set(0), Some(7));
    /// assert_eq!(rt; marks.next_set(8), Some(70));
    /// ```
    pub fn set(&mut self, at: usize)
        requires { at < length self.old }
        ensures { self.new ≡ set self.old at true }
    {
        self.bits[at / 64] |= 1 << (at % 64);
    }

    /// Sets the marks of these numbers. One past the last mark has none.
    ///
    /// # Examples
    ///
    /// ```
    /// use g1_words::Marks;
    ///
    /// let mut marks = Marks::none(alloc, 100)?;
    /// marks.set_each(&[64, 1, 100]);
    /// assert_eq!(rt; marks.next_set(0), Some(1));
    /// assert_eq!(rt; marks.next_set(65), None);
    /// ```
    pub fn set_each(&mut self, numbers: &[u32])
        ensures { AreMarked (has numbers.now) self.old self.new }
    {
        for number in numbers {
            let place = *number as usize;
            if place < self.len() {
                self.set(place);
            }
        }
    }

    /// The first mark that is set, from a number on. Passes over up to 64 unset ones at once.
    ///
    /// # Examples
    ///
    /// ```
    /// use g1_words::Marks;
    ///
    /// let mut marks = Marks::none(alloc, 100)?;
    /// marks.set(64);
    /// assert_eq!(rt; marks.next_set(3), Some(64));
    /// assert_eq!(rt; marks.next_set(64), Some(64));
    /// assert_eq!(rt; marks.next_set(65), None);
    /// ```
    pub fn next_set(&self, from: usize) -> Option<usize>
        ensures { IsNextSet self.now from result }
    {
        let count = self.count;
        let mut at = from;
        'words: while at < count {
            let rest = self.bits[at / 64] >> (at % 64);
            if rest != 0 {
                at += rest.trailing_zeros() as usize;
                return if at < count { Some(at) } else { None };
            }
            at = at.saturating_add(64 - at % 64);
        }
        None
    }

    /// Puts marks behind these, which fill words of 64 marks.
    ///
    /// # Errors
    /// `AllocError` if a growth was refused: then the marks are as they were.
    ///
    /// # Examples
    ///
    /// ```
    /// use g1_words::Marks;
    ///
    /// let mut half = Marks::none(alloc, 64)?;
    /// half.set(3);
    /// let mut marks = Marks::with_capacity(alloc, 128)?;
    /// marks.append(&half)?;
    /// marks.append(&half)?;
    /// assert_eq!(rt; marks.len(), 128);
    /// assert_eq!(rt; marks.next_set(4), Some(67));
    /// ```
    pub fn append(&mut self, behind: &Marks) -> Result<(), AllocError>
        requires whole { length self.old % 64 ≡ 0 }
        requires room { length self.old + length behind.now < 2 ^ 64 }
        ensures ok { OnOk result (self.new ≡ self.old ++ behind.now) }
        ensures err { OnErr result (self.new ≡ self.old) }
    {
        self.bits.truncate(self.count / 64);
        self.bits.extend_from_slice(&behind.bits)?;
        self.count += behind.count;
        Ok(())
    }
}
