ghost use Rattle.std.specs.Prelude.{◌≡◌, ◌≢◌, ◌<◌, ◌+◌, ◌^◌};
ghost use Rattle.g1_words.specs.Heap.{end, kind, object_at, objects_in, start};
ghost use Rattle.g1_words.specs.Valid.{Tiles};
ghost use Rattle.g1_words.specs.declared.region.Kind.TheVariants.{Ordinary};

use g1_words::{Heap, Region};

/// The address after the objects of a region that lie end to end from this one on.
pub fn row_end(heap: &Heap, region: u32, first: u64) -> u64
    requires region { region < heap.now.geometry.n }
    requires first { first < 2 ^ 32 }
    ensures ordinary { kind heap.now region ≡ Ordinary → result ≡ end heap.now region }
    ensures alone { kind heap.now region ≢ Ordinary → result ≡ first + (object_at heap.now first).size }
{
    let Region { kind, top, .. } = heap.region(region);
    if kind.is_ordinary() {
        heap.geometry().start(region) + u64::from(top)
    } else {
        first + heap.words().header(first).size
    }
}

/// The address after the last object that starts in a region; the region's own start if none does.
///
/// # Examples
///
/// ```
/// use g1_rem::objects_end;
/// use g1_testing::{image, pictures::shared};
///
/// let image = image(alloc, shared())?;
/// assert_eq!(rt; objects_end(image.heap(), 1), 23);
/// assert_eq!(rt; objects_end(image.heap(), 2), 32);
/// ```
pub fn objects_end(heap: &Heap, region: u32) -> u64
    requires { region < heap.now.geometry.n }
    ensures { Tiles heap.now.words (start heap.now region) (objects_in heap.now region) result }
{
    let start = heap.geometry().start(region);
    if heap.region(region).kind.may_hold_cards() {
        row_end(heap, region, start)
    } else {
        start
    }
}
