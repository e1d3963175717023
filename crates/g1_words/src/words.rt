ghost use Rattle.std.specs.Prelude.{◌≡◌, ◌≤◌, ◌<◌, ◌+◌, ◌*◌, ◌^◌, ◌++◌, ℕ, length, replicate, max, slice_index, slice_range, slice_set, vec_len, vec_capacity, IfOk};
ghost use Rattle.g1_words.specs.Header.{header};
ghost use Rattle.g1_words.specs.Valid.{IsObject};
ghost use Rattle.g1_words.specs.Words.{Words as WordsOf};
ghost use Rattle.g1_words.specs.declared.object.Object.{Object};

use crate::object::{Object, object_of};
use std::alloc::{AllocError, Global};
use std::marker::Model;

/// The words of a heap. Zeros at the end may not have been laid yet: they are known by their number,
/// and the memory for them is taken, but not touched. So they can be laid without a refusal.
#[derive(Drop)]
pub struct Words {
    laid: Vec<u64>,
    zeros: usize,
}

impl Model for Words {
    ghost use Rattle.std.specs.Prelude.{◌≤◌, ◌+◌, ◌++◌, length, replicate, vec_capacity};
    ghost use Rattle.g1_words.specs.Words.{Words as WordsOf};

    ghost Value = { WordsOf };

    ghost view = { λ w. record { items = w.laid.items ++ replicate w.zeros 0; laid = length w.laid.items } };

    ghost invariant = { λ w. length w.laid.items + w.zeros ≤ vec_capacity w.laid };
}

impl Words {
    /// These words, and so many zeros behind them.
    ///
    /// # Errors
    /// `AllocError` if the room for the zeros was refused.
    ///
    /// # Examples
    ///
    /// ```
    /// use g1_words::Words;
    ///
    /// let words = Words::new(vec![in alloc; 7, 9]?, 14)?;
    /// assert_eq!(rt; words.len(), 16);
    /// assert_eq!(rt; words.at(1), 9);
    /// assert_eq!(rt; words.at(15), 0);
    /// assert_eq!(rt; words.laid(), [7, 9].as_slice());
    /// ```
    pub fn new(mut laid: Vec<u64>, zeros: usize) -> Result<Words, AllocError>
        ensures { IfOk result (λ w. (w.items ≡ laid.items ++ replicate zeros 0) × (w.laid ≡ length laid.items)) }
    {
        laid.reserve_exact(zeros)?;
        Ok(Words { laid, zeros })
    }

    /// A copy of these words, with room for as many zeros.
    ///
    /// # Errors
    /// `AllocError` if a request for memory was refused.
    ///
    /// # Examples
    ///
    /// ```
    /// use g1_words::Words;
    ///
    /// let mut words = Words::new(vec![in alloc; 7, 9]?, 14)?;
    /// let copied = words.copy(alloc)?;
    /// words.set(1, 8);
    /// assert_eq!(rt; copied.at(1), 9);
    /// ```
    pub fn copy(&self, alloc: Global) -> Result<Words, AllocError>
        ensures { IfOk result (λ w. w ≡ self.now) }
    {
        Words::new(Vec::from_slice(alloc, self.laid())?, self.zeros)
    }

    /// How many words there are.
    ///
    /// # Examples
    ///
    /// ```
    /// use g1_words::Words;
    ///
    /// let words = Words::new(vec![in alloc; 7, 9]?, 14)?;
    /// assert_eq!(rt; words.len(), 16);
    /// ```
    pub fn len(&self) -> usize
        ensures { result ≡ length self.now.items }
    {
        self.laid.len() + self.zeros
    }

    /// The words in memory. All behind them are 0.
    ///
    /// # Examples
    ///
    /// ```
    /// use g1_words::Words;
    ///
    /// let words = Words::new(vec![in alloc; 7, 9]?, 14)?;
    /// assert_eq!(rt; words.laid(), [7, 9].as_slice());
    /// ```
    pub fn laid(&self) -> &[u64]
        ensures many { length result.now ≡ self.now.laid }
        ensures within { self.now.laid ≤ length self.now.items }
        ensures each { (a : ℕ) → slice_index result.now a ≡ slice_index self.now.items a }
        ensures range { (a b : ℕ) → b ≤ self.now.laid → slice_range result.now a b ≡ slice_range self.now.items a b }
    {
        &self.laid
    }

    /// The word at an address.
    ///
    /// # Examples
    ///
    /// ```
    /// use g1_words::Words;
    ///
    /// let words = Words::new(vec![in alloc; 7, 9]?, 14)?;
    /// assert_eq!(rt; words.at(1), 9);
    /// assert_eq!(rt; words.at(2), 0);
    /// ```
    pub fn at(&self, a: u64) -> u64
        ensures { result ≡ slice_index self.now.items a }
    {
        let a = a as usize;
        if a < self.laid.len() { self.laid[a] } else { 0 }
    }

    /// What the word at an address says, read as a header: the object that starts there, if one does.
    ///
    /// # Examples
    ///
    /// ```
    /// use g1_words::{Object, Words, header_word};
    ///
    /// let words = Words::new(vec![in alloc; header_word(5, 3)]?, 15)?;
    /// assert_eq!(rt; words.header(0), Object { at: 0, size: 5, refs: 3 });
    /// ```
    pub fn header(&self, at: u64) -> Object
        ensures value { result ≡ header self.now.items at }
        ensures at { result.at ≡ at }
        ensures word { slice_index self.now.items at ≡ result.size * 2 ^ 32 + result.refs }
        ensures refs { result.refs < 2 ^ 32 }
        ensures size { result.size < 2 ^ 32 }
        ensures only { (o : Object) → o.at ≡ at → IsObject self.now.items o → o ≡ result }
    {
        object_of(self.at(at), at)
    }

    /// The words from one address up to another, all of which are in memory.
    ///
    /// # Examples
    ///
    /// ```
    /// use g1_words::Words;
    ///
    /// let words = Words::new(vec![in alloc; 7, 9, 8]?, 13)?;
    /// assert_eq!(rt; words.between(1, 3), [9, 8].as_slice());
    /// ```
    pub fn between(&self, from: usize, to: usize) -> &[u64]
        requires order { from ≤ to }
        requires laid { to ≤ self.now.laid }
        ensures { result.now ≡ slice_range self.now.items from to }
    {
        &self.laid[from..to]
    }

    /// Lays the words up to an address.
    ///
    /// # Examples
    ///
    /// ```
    /// use g1_words::Words;
    ///
    /// let mut words = Words::new(vec![in alloc; 7, 9]?, 14)?;
    /// words.lay_to(4);
    /// assert_eq!(rt; words.laid(), [7, 9, 0, 0].as_slice());
    /// ```
    pub fn lay_to(&mut self, to: usize)
        requires { to ≤ length self.old.items }
        ensures items { self.new.items ≡ self.old.items }
        ensures laid { self.new.laid ≡ max self.old.laid to }
    {
        let had = self.laid.len();
        if had < to {
            // There is room, so nothing is refused.
            let _ = self.laid.resize(to, 0);
            self.zeros -= to - had;
        }
    }

    /// Writes a word.
    ///
    /// # Examples
    ///
    /// ```
    /// use g1_words::Words;
    ///
    /// let mut words = Words::new(Vec::new(alloc), 16)?;
    /// words.set(4, 7);
    /// assert_eq!(rt; words.laid(), [0, 0, 0, 0, 7].as_slice());
    /// assert_eq!(rt; words.len(), 16);
    /// ```
    pub fn set(&mut self, a: u64, word: u64)
        requires { a < length self.old.items }
        ensures items { self.new.items ≡ slice_set self.old.items a word }
        ensures laid { self.new.laid ≡ max self.old.laid (a + 1) }
    {
        // Nothing overflows, since the words have a number.
        let _count = self.len();
        self.lay_to(a as usize + 1);
        self.laid[a as usize] = word;
    }

    /// The words in memory, and how many zeros are behind them.
    ///
    /// # Examples
    ///
    /// ```
    /// use g1_words::Words;
    ///
    /// let words = Words::new(vec![in alloc; 7, 9]?, 14)?;
    /// let (laid, zeros) = words.into_parts();
    /// assert_eq!(rt; laid.as_slice(), [7, 9].as_slice());
    /// assert_eq!(rt; zeros, 14);
    /// ```
    pub fn into_parts(self) -> (Vec<u64>, usize)
        ensures items { self.items ≡ result.0.items ++ replicate result.1 0 }
        ensures laid { self.laid ≡ length result.0.items }
        ensures room { vec_len result.0 + result.1 ≤ vec_capacity result.0 }
    {
        let Words { laid, zeros } = self;
        (laid, zeros)
    }

    /// Words of which these are in memory, with so many zeros behind them, for which there is room.
    ///
    /// # Examples
    ///
    /// ```
    /// use g1_words::Words;
    ///
    /// let words = Words::new(vec![in alloc; 7, 9]?, 14)?;
    /// let (mut laid, zeros) = words.into_parts();
    /// laid[1] = 8;
    /// let words = Words::of_parts(laid, zeros);
    /// assert_eq!(rt; words.len(), 16);
    /// assert_eq!(rt; words.at(1), 8);
    /// ```
    pub fn of_parts(laid: Vec<u64>, zeros: usize) -> Words
        requires { vec_len laid + zeros ≤ vec_capacity laid }
        ensures items { result.items ≡ laid.items ++ replicate zeros 0 }
        ensures laid { result.laid ≡ length laid.items }
    {
        Words { laid, zeros }
    }
}
