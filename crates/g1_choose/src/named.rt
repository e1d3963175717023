ghost use Rattle.std.specs.Prelude.{◌≡◌, ◌<◌, ◌⊎◌, ◌↔◌, ℕ, length, filter, slice_index, IsTrue, IsFalse, OnOk, IfOk, IfErr};
ghost use Rattle.g1_words.specs.Heap.{regions};
ghost use Rattle.g1_words.specs.Lists.{has};
ghost use Rattle.g1_choose.specs.Named.{AreTakeable, IsBadAt, IsFirstBad};

use g1_words::{Fault, Heap, Kind, Marks, Region};
use std::alloc::Global;

/// Whether a pause may take a region.
fn may_be_taken(region: Region) -> bool
    ensures { IsTrue result ↔ ((region.kind ≡ Kind.Ordinary) × IsFalse region.pinned) }
{
    region.kind.is_ordinary() && !region.pinned
}

/// Refuses a list with a region that can't be taken.
fn check(alloc: Global, heap: &Heap, list: &[u32]) -> Result<(), Fault>
    ensures ok { OnOk result ((i : ℕ) → i < length list.now → IsBadAt heap.now list.now i → ⊥) }
    ensures err { IfErr result (λ e. (e ≡ Fault.Memory) ⊎ ((i : ℕ) × IsFirstBad heap.now list.now i × (e ≡ Fault.Set (slice_index list.now i)))) }
{
    let mut named = Marks::none(alloc, heap.geometry().regions() as usize)?;
    for region in list {
        let place = *region as usize;
        if place >= named.len() || named.is_set(place) || !may_be_taken(heap.region(*region)) {
            return Err(Fault::Set(*region));
        }
        named.set(place);
    }
    Ok(())
}

/// The regions of the list, rising.
///
/// # Errors
///
/// `Fault::Set` of the first region of the list that is out of range, isn't ordinary, is pinned, or
/// is earlier in the list; else `Fault::Memory` alone.
///
/// # Examples
///
/// ```
/// use g1_choose::given;
/// use g1_testing::{image, pictures::shared};
/// use g1_words::Fault;
///
/// let image = image(alloc, shared())?;
/// let set = given(alloc, image.heap(), &[1, 0])?;
/// assert_eq!(rt; set.as_slice(), [0, 1].as_slice());
/// let twice = given(alloc, image.heap(), &[1, 1]).err();
/// assert_eq!(rt; twice, Some(Fault::Set(1)));
/// ```
pub fn given(alloc: Global, heap: &Heap, list: &[u32]) -> Result<Vec<u32>, Fault>
    ensures rising { IfOk result (λ v. v.items ≡ filter (has list.now) (regions heap.now)) }
    ensures accepted { OnOk result (AreTakeable heap.now list.now) }
    ensures err { IfErr result (λ e. (e ≡ Fault.Memory) ⊎ ((i : ℕ) × IsFirstBad heap.now list.now i × (e ≡ Fault.Set (slice_index list.now i)))) }
{
    check(alloc, heap, list)?;
    let mut set = list.to_vec(alloc)?;
    set.sort_unstable();
    Ok(set)
}
