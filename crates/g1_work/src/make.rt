ghost use Rattle.std.specs.Prelude.{◌≡◌, ◌<◌, ℕ, IfOk, IfErr};
ghost use Rattle.g1_words.specs.declared.fault.Fault.TheVariants.{Memory};
ghost use Rattle.g1_work.specs.Make.{IsMade, AreMade};

use g1_words::Fault;
use rayon::prelude::*;
use std::alloc::Global;
use std::thread::Threads;

/// What is made of a number, such as that of a region or of a range, and of no other.
///
/// An implementation states by `ready` of which numbers it makes something, and by `makes` what.
pub trait Make {
    type Made: Send + Drop;

    ghost use Rattle.std.specs.Prelude.{◌≡◌, ℕ, IfOk, IfErr};
    ghost use Rattle.g1_words.specs.declared.fault.Fault.TheVariants.{Memory};

    // Something may be made of this number.
    ghost ready: { Self → ℕ → Type 0 };

    // The number and what is made of it.
    ghost makes: { Self → ℕ → Self.Made → Type 0 };

    /// Makes it of one number.
    ///
    /// # Errors
    /// `Memory`.
    fn make(&self, alloc: Global, number: usize) -> Result<Self::Made, Fault>
        requires { ready self.now number }
        ensures ok { IfOk result (makes self.now number) }
        ensures memory { IfErr result (λ e. e ≡ Memory) };
}

// One number after another, on the thread that asked.
fn make_in_turn<M: Make>(alloc: Global, count: usize, maker: &M) -> Result<Vec<M::Made>, Fault>
    requires { (i : ℕ) → i < count → M.ready maker.now i }
    ensures ok { IfOk result (λ v. AreMade (M.makes maker.now) count v.items) }
    ensures memory { IfErr result (λ e. e ≡ Memory) }
{
    let mut made = Vec::with_capacity(alloc, count)?;
    for number in 0..count {
        made.push(maker.make(alloc, number)?)?;
    }
    Ok(made)
}

/// What is made of each number below `count`, in order.
///
/// At most this many threads run, and at most two for each processor. With one thread none is started:
/// the numbers are done by the thread that asked.
///
/// # Errors
/// `Memory`.
///
/// # Examples
///
/// ```
/// use g1_words::Fault;
/// use g1_work::{Make, make_each};
/// use std::alloc::Global;
///
/// struct Following;
///
/// impl Make for Following {
///     type Made = u64;
///
///     ghost use Rattle.std.specs.Prelude.{◌≡◌, ◌<◌, ◌+◌, ◌^◌};
///
///     ghost ready = { λ _ number. number < 2 ^ 32 };
///
///     ghost makes = { λ _ number made. made ≡ number + 1 };
///
///     fn make(&self, _alloc: Global, number: usize) -> Result<u64, Fault> {
///         Ok(number as u64 + 1)
///     }
/// }
///
/// let made = make_each(&rt, alloc, 2, 4, &Following)?;
/// assert_eq!(rt; made.as_slice(), [1, 2, 3, 4].as_slice());
/// ```
pub fn make_each<R: Threads + Sync, M: Make + Sync>(
    rt: &R,
    alloc: Global,
    threads: usize,
    count: usize,
    maker: &M,
) -> Result<Vec<M::Made>, Fault>
    requires threads { 0 < threads }
    requires ready { (i : ℕ) → i < count → M.ready maker.now i }
    ensures ok { IfOk result (λ v. AreMade (M.makes maker.now) count v.items) }
    ensures memory { IfErr result (λ e. e ≡ Memory) }
{
    if threads == 1 {
        return make_in_turn(alloc, count, maker);
    }
    // rayon halves a piece while each half has this many numbers. So the pieces are the greatest power of
    // two that is at most `threads`. A quotient that is rounded up would cost the last halving. A quotient of
    // 1 would make a piece of each number, more than the threads: then 2 makes fewer pieces, as one of 3
    // numbers for 2 threads.
    let least = if count > threads {
        (count >> threads.ilog2()).max(2)
    } else {
        1
    };
    (0..count)
        .into_par_iter()
        .with_min_len(least)
        .map(
            |number: usize| -> Result<M::Made, Fault>
                requires { M.ready maker.now number }
                ensures { IsMade (M.makes maker.entry.now) number result }
            { maker.make(alloc, number) },
        )
        .collect::<Result<Vec<M::Made>, Fault>>(rt, alloc)?
}
