ghost use Rattle.std.specs.Prelude.{◌≡◌, ◌<◌, ◌≤◌, ◌+◌, ◌*◌, length, set, true, IfOk};
ghost use Rattle.g1_words.specs.Geometry.{most_words};
ghost use Rattle.g1_words.specs.Marks.{marks_of};

use std::alloc::{AllocError, Global};
use std::marker::Model;

/// 64 words.
#[derive(Clone, Copy, Drop)]
pub struct Block {
    /// A bit for each of the words, set if it is marked.
    pub marks: u64,
    /// How many words are marked in the blocks before.
    pub before: u64,
}

/// Marked words, of which each knows how many are marked before it: a bit a word, and a count for
/// each 64 words, so that a number takes one look (Jacobson, "Space-efficient Static Trees and
/// Graphs", 1989).
#[derive(Drop)]
pub struct Numbers {
    blocks: Vec<Block>,
    /// How many words are marked.
    count: u64,
}

impl Model for Numbers {
    ghost use Rattle.std.specs.Prelude.{◌≡◌, ◌≤◌, ◌+◌, ◌*◌, List, Bool, length};
    ghost use Rattle.g1_words.specs.Geometry.{most_words};
    ghost use Rattle.g1_words.specs.Numbers.{marks_in, AreCounted, counted_on};

    ghost Value = { List Bool };

    ghost view = { λ n. marks_in n.blocks.items };

    ghost invariant = { λ n. AreCounted 0 n.blocks.items × (64 * length n.blocks.items ≤ most_words + 64) × (n.count ≡ counted_on 0 n.blocks.items) };
}

/// Sets the bit of a word.
///
/// # Examples
///
/// ```
/// use g1_words::numbers::mark;
///
/// let mut bits = vec![in alloc; 0; 2]?;
/// mark(&mut bits, 65);
/// assert_eq!(rt; bits[1], 2);
/// ```
pub fn mark(bits: &mut Vec<u64>, word: usize)
    requires { word < 64 * length bits.old.items }
    ensures marked { marks_of (64 * length bits.old.items) bits.new.items ≡ set (marks_of (64 * length bits.old.items) bits.old.items) word true }
    ensures same { length bits.new.items ≡ length bits.old.items }
{
    bits[word / 64] |= 1 << (word % 64);
}

impl Numbers {
    ghost use Rattle.std.specs.Prelude.{◌≡◌, ◌<◌, ◌≤◌, ◌+◌, ◌*◌, length, IfOk};
    ghost use Rattle.g1_words.specs.Geometry.{most_words};
    ghost use Rattle.g1_words.specs.Marks.{marks_of};
    ghost use Rattle.g1_words.specs.Numbers.{number_at, number_of};

    /// Numbers the words whose bits are set.
    ///
    /// # Errors
    /// `AllocError` if a growth was refused.
    ///
    /// # Examples
    ///
    /// ```
    /// use g1_words::numbers::Numbers;
    ///
    /// let numbers = Numbers::new(alloc, &[0b1010, 1])?;
    /// assert_eq!(rt; numbers.count(), 3);
    /// ```
    pub fn new(alloc: Global, bits: &[u64]) -> Result<Numbers, AllocError>
        requires { 64 * length bits.now ≤ most_words + 64 }
        ensures { IfOk result (λ n. n ≡ marks_of (64 * length bits.now) bits.now) }
    {
        let mut blocks = Vec::with_capacity(alloc, bits.len())?;
        let mut count = 0;
        for word in bits {
            blocks.push(Block {
                marks: *word,
                before: count,
            })?;
            count += u64::from(word.count_ones());
        }
        Ok(Numbers { blocks, count })
    }

    /// How many words are marked.
    ///
    /// # Examples
    ///
    /// ```
    /// use g1_words::numbers::Numbers;
    ///
    /// let numbers = Numbers::new(alloc, &[0b1011])?;
    /// assert_eq!(rt; numbers.count(), 3);
    /// ```
    pub fn count(&self) -> u64
        ensures { result ≡ number_at self.now (length self.now) }
    {
        self.count
    }

    /// How many words are marked before a word.
    ///
    /// # Examples
    ///
    /// ```
    /// use g1_words::numbers::Numbers;
    ///
    /// let numbers = Numbers::new(alloc, &[0b1010, 1])?;
    /// assert_eq!(rt; numbers.before(2), 1);
    /// assert_eq!(rt; numbers.before(65), 3);
    /// ```
    pub fn before(&self, word: u64) -> u64
        requires { word < length self.now }
        ensures { result ≡ number_at self.now word }
    {
        let block = self.blocks[(word / 64) as usize];
        let below = block.marks & ((1 << (word % 64)) - 1);
        block.before + u64::from(below.count_ones())
    }

    /// How many words are marked before a word, if that is marked.
    ///
    /// # Examples
    ///
    /// ```
    /// use g1_words::numbers::Numbers;
    ///
    /// let numbers = Numbers::new(alloc, &[0b1010, 1])?;
    /// assert_eq!(rt; numbers.number(3), Some(1));
    /// assert_eq!(rt; numbers.number(2), None);
    /// ```
    pub fn number(&self, word: usize) -> Option<usize>
        requires { word < length self.now }
        ensures { result ≡ number_of self.now word }
    {
        let marks = self.blocks[word / 64].marks;
        if marks >> (word % 64) & 1 == 0 {
            return None;
        }
        Some(self.before(word as u64) as usize)
    }
}
