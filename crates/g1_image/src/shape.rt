ghost use Rattle.std.specs.Prelude.{◌≡◌, ◌≤◌, ◌<◌, ◌+◌, ◌*◌, ◌^◌, ℕ, List, length, slice_index, IsTrue, ◌↔◌};
ghost use Rattle.g1_words.specs.Geometry.{most_words};
ghost use Rattle.g1_words.specs.Heap.{region, start};
ghost use Rattle.g1_words.specs.Valid.{IsShaped, IsShapedBy, IsWholeRun};
ghost use Rattle.g1_words.specs.declared.region.Kind.TheVariants.{Ordinary, HumongousFirst, Continuation};
ghost use Rattle.g1_image.specs.Draft.{IsTiled, Latest, ShapedBelow};
ghost use Rattle.g1_image.specs.Marks.{InRow, StartsIn, Marked};

use crate::draft::Draft;
use g1_words::{Geometry, Kind, Marks, Words};

/// Returns whether objects that aren't humongous fill the words between two addresses, and marks
/// them. The marks begin at the address `base`.
fn mark_row(
    marks: &mut Marks,
    base: u64,
    words: &Words,
    from: u64,
    to: u64,
    geometry: &Geometry,
) -> bool
    requires order { from ≤ to }
    requires in_words { to ≤ length words.now.items }
    requires sizes { to ≤ most_words }
    requires below { base ≤ from }
    requires above { to ≤ base + length marks.old }
    ensures tiled { IsTrue result ↔ IsTiled words.now.items from to geometry.now.w }
    ensures marked { IsTrue result → Marked (λ k. InRow words.now.items from to (base + k)) marks.old marks.new }
    ensures size { length marks.new ≡ length marks.old }
{
    let mut at = from;
    while at < to {
        let o = words.header(at);
        if o.refs >= o.size {
            return false;
        }
        if geometry.is_humongous(o.size) {
            return false;
        }
        if at + o.size > to {
            return false;
        }
        marks.set((at - base) as usize);
        at += o.size;
    }
    true
}

/// Returns whether the regions of a run from region r on are there.
fn is_run(draft: &Draft, r: u32, size: u64) -> bool
    requires there { r < draft.now.geometry.n }
    requires size { size < 2 ^ 32 }
    ensures { IsTrue result ↔ IsWholeRun draft.now r size }
{
    let geometry = draft.geometry();
    let regions = geometry.regions() as u32;
    let mut i: u32 = 1;
    while geometry.start(i) < size {
        if r + i >= regions {
            return false;
        }
        if !draft.region(r + i).kind.is_continuation() {
            return false;
        }
        i += 1;
    }
    true
}

fn mark_ordinary(marks: &mut Marks, base: u64, draft: &Draft, r: u32) -> bool
    requires there { r < draft.now.geometry.n }
    requires kind { (region draft.now r).kind ≡ Ordinary }
    requires below { base ≤ start draft.now r }
    requires above { start draft.now (r + 1) ≤ base + length marks.old }
    ensures shaped { IsTrue result ↔ IsShapedBy Ordinary draft.now r }
    ensures marked { IsTrue result → Marked (λ k. StartsIn Ordinary draft.now r (base + k)) marks.old marks.new }
    ensures size { length marks.new ≡ length marks.old }
{
    let geometry = draft.geometry();
    let top = u64::from(draft.region(r).top);
    if top == 0 {
        return false;
    }
    if top > geometry.region_words() {
        return false;
    }
    let start = geometry.start(r);
    mark_row(marks, base, draft.words(), start, start + top, &geometry)
}

fn humongous_shaped(draft: &Draft, r: u32) -> bool
    requires there { r < draft.now.geometry.n }
    requires kind { (region draft.now r).kind ≡ HumongousFirst }
    ensures { IsTrue result ↔ IsShapedBy HumongousFirst draft.now r }
{
    let geometry = draft.geometry();
    let region_words = geometry.region_words();
    let top = u64::from(draft.region(r).top);
    let o = draft.words().header(geometry.start(r));
    if o.refs >= o.size {
        return false;
    }
    if !geometry.is_humongous(o.size) {
        return false;
    }
    let least = o.size.min(region_words);
    if top != least {
        return false;
    }
    is_run(draft, r, o.size)
}

fn mark_humongous(marks: &mut Marks, base: u64, draft: &Draft, r: u32) -> bool
    requires there { r < draft.now.geometry.n }
    requires kind { (region draft.now r).kind ≡ HumongousFirst }
    requires below { base ≤ start draft.now r }
    requires above { start draft.now (r + 1) ≤ base + length marks.old }
    ensures shaped { IsTrue result ↔ IsShapedBy HumongousFirst draft.now r }
    ensures marked { Marked (λ k. StartsIn HumongousFirst draft.now r (base + k)) marks.old marks.new }
    ensures size { length marks.new ≡ length marks.old }
{
    let start = draft.geometry().start(r);
    marks.set((start - base) as usize);
    humongous_shaped(draft, r)
}

fn continuation_shaped(draft: &Draft, r: u32, first: u32, size: u64) -> bool
    requires there { r < draft.now.geometry.n }
    requires order { first ≤ r }
    requires latest { ShapedBelow draft.now r → Latest draft.now r first size }
    requires kind { (region draft.now r).kind ≡ Continuation }
    ensures { ShapedBelow draft.now r → IsTrue result ↔ IsShapedBy Continuation draft.now r }
{
    if size == 0 {
        return false;
    }
    let geometry = draft.geometry();
    let region_words = geometry.region_words();
    let top = u64::from(draft.region(r).top);
    let before = geometry.start(r - first);
    if before >= size {
        return false;
    }
    let left = size - before;
    top == left.min(region_words)
}

/// Returns whether a region keeps the rules of its kind, and marks its objects. For a continuation
/// this rests on all regions below it keeping theirs.
fn mark_kind(marks: &mut Marks, base: u64, draft: &Draft, r: u32, first: u32, size: u64) -> bool
    requires there { r < draft.now.geometry.n }
    requires order { first ≤ r }
    requires latest { ShapedBelow draft.now r → Latest draft.now r first size }
    requires below { base ≤ start draft.now r }
    requires above { start draft.now (r + 1) ≤ base + length marks.old }
    ensures shaped { ShapedBelow draft.now r → IsTrue result ↔ IsShapedBy (region draft.now r).kind draft.now r }
    ensures marked { IsTrue result → Marked (λ k. StartsIn (region draft.now r).kind draft.now r (base + k)) marks.old marks.new }
    ensures size { length marks.new ≡ length marks.old }
{
    let region = draft.region(r);
    match region.kind {
        Kind::Free => region.top == 0,
        Kind::Ordinary => mark_ordinary(marks, base, draft, r),
        Kind::HumongousFirst => mark_humongous(marks, base, draft, r),
        Kind::Continuation => continuation_shaped(draft, r, first, size),
    }
}

/// Returns whether a region may be the current one, if it is.
fn current_shaped(draft: &Draft, r: u32) -> bool
    requires there { r < draft.now.geometry.n }
    ensures { IsTrue result ↔ (draft.now.current ≡ Some r → (region draft.now r).kind ≡ Ordinary) }
{
    if draft.region(r).kind.is_ordinary() {
        return true;
    }
    match draft.current() {
        Some(current) => current != r,
        None => true,
    }
}

/// Returns whether a region keeps the rules, and marks its objects. The marks begin at the address
/// `base`; the last humongous object below starts in region `first` and has `size` words.
pub(crate) fn mark_region(
    marks: &mut Marks,
    base: u64,
    draft: &Draft,
    r: u32,
    first: u32,
    size: u64,
) -> bool
    requires there { r < draft.now.geometry.n }
    requires order { first ≤ r }
    requires latest { ShapedBelow draft.now r → Latest draft.now r first size }
    requires below { base ≤ start draft.now r }
    requires above { start draft.now (r + 1) ≤ base + length marks.old }
    ensures shaped { ShapedBelow draft.now r → IsTrue result ↔ IsShaped draft.now r }
    ensures marked { IsTrue result → Marked (λ k. StartsIn (region draft.now r).kind draft.now r (base + k)) marks.old marks.new }
    ensures size { length marks.new ≡ length marks.old }
{
    if !mark_kind(marks, base, draft, r, first, size) {
        return false;
    }
    current_shaped(draft, r)
}
