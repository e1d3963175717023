ghost use Rattle.std.specs.Prelude.{◌≡◌, ◌≤◌, ◌<◌, ◌^◌, ◌*◌, ◌+◌, ◌-◌, ◌++◌, [], ◌∷◌, List, Ok, map, length, replicate, IfOk};
ghost use Rattle.g1_words.specs.declared.region.Region.{Region as RegionOf};
ghost use Rattle.g1_words.specs.Geometry.{IsWithinBounds};
ghost use Rattle.g1_text.specs.Content.{HasSpace, top_behind, beyond_behind};

use crate::expected::{Expected, Refusal};
use g1_words::{Geometry, Kind, Region};
use std::alloc::{AllocError, Global};

/// What has been read of an image, and in which lines.
#[derive(Drop)]
pub(crate) struct Draft {
    pub(crate) geometry: Geometry,
    pub(crate) current: Option<u32>,
    pub(crate) roots: Vec<u64>,
    pub(crate) log: Vec<u32>,
    /// The regions up to the one that takes objects.
    pub(crate) regions: Vec<Region>,
    /// The remembered cards of each region of the heap.
    pub(crate) remembered: Vec<Vec<u32>>,
    /// The used words, of one region after the other.
    pub(crate) words: Vec<u64>,
    pub(crate) objects: Vec<Placed>,
    /// The words of a humongous object that no region has yet.
    pub(crate) beyond: u64,
    /// Whether the remembered sets follow from the references.
    pub(crate) covered: bool,
    pub(crate) lines: Lines,
}

/// An object that was read.
#[derive(Clone, Copy)]
pub(crate) struct Placed {
    pub(crate) at: u64,
    pub(crate) slots: u64,
    /// The place of its header among the used words.
    pub(crate) place: usize,
    pub(crate) line: u64,
}

/// The lines in which things were read, by their numbers.
#[derive(Drop)]
pub(crate) struct Lines {
    pub(crate) heading: Heading,
    pub(crate) roots: Vec<u64>,
    /// The line of each card of the log.
    pub(crate) log: Vec<u64>,
    /// The lines with remembered cards: of which region, and the line's number.
    pub(crate) remembered: Vec<(u64, u64)>,
    pub(crate) regions: Vec<Told>,
}

/// What the first line says of those below it, if it does.
#[derive(Clone, Copy)]
pub(crate) struct Heading {
    pub(crate) line: u64,
    pub(crate) roots: Option<u64>,
    pub(crate) dirty: Option<u64>,
}

/// What a region's line says of those below it, if it does.
#[derive(Clone, Copy)]
pub(crate) struct Told {
    pub(crate) line: u64,
    pub(crate) region: usize,
    pub(crate) top: Option<u64>,
    pub(crate) objects: Option<u64>,
    pub(crate) cards: Option<u64>,
    /// The objects that were read in it.
    pub(crate) found: u64,
}

impl Draft {
    ghost use Rattle.std.specs.Prelude.{◌≡◌, ◌≤◌, ◌<◌, ◌^◌, ◌+◌, ◌-◌, ◌*◌, ◌++◌, [], ◌∷◌, ℕ, List, Some, Ok, false, length, min, replicate, All, IfOk, IfErr, OnOk, MatchResult};
    ghost use Rattle.g1_words.specs.Geometry.{Geometry as GeometryOf, IsWithinBounds};
    ghost use Rattle.g1_words.specs.Heap.{free_region};
    ghost use Rattle.g1_words.specs.declared.object.Object.{Object};
    ghost use Rattle.g1_words.specs.declared.region.Region.{Region as RegionOf};
    ghost use Rattle.g1_words.specs.declared.region.Kind.TheVariants.{Continuation};
    ghost use Rattle.g1_text.specs.Content.{Content, begun, with_region, HasSpace, top_behind, beyond_behind};
    ghost use Rattle.g1_text.specs.Short.{GoesOn, Closes};
    ghost use Rattle.g1_text.specs.Drafts.{content, numbers, Becomes};
    ghost use Rattle.g1_text.specs.Laid.{AreLaid, IsLaid, IsLaidOut, laid_content};

    /// A heap of these sizes with nothing in it.
    pub(crate) fn new(
        alloc: Global,
        geometry: Geometry,
        current: Option<u32>,
        heading: Heading,
    ) -> Result<Draft, Refusal>
        ensures says { MatchResult result (λ d. content d ≡ begun geometry current heading.roots heading.dirty) (λ e. e ≡ Refusal.Memory) }
        ensures lines { IfOk result (λ d. numbers d ≡ record { headings = heading.line ∷ []; roots = []; log = []; regions = []; remembered = []; objects = [] }) }
    {
        let count = geometry.regions() as usize;
        let remembered = empty_remembered(alloc, count)?;
        let lines = Lines {
            heading,
            roots: Vec::new(alloc),
            log: Vec::new(alloc),
            remembered: Vec::new(alloc),
            regions: Vec::new(alloc),
        };
        Ok(Draft {
            geometry,
            current,
            roots: Vec::new(alloc),
            log: Vec::new(alloc),
            regions: Vec::new(alloc),
            remembered,
            words: Vec::new(alloc),
            objects: Vec::new(alloc),
            beyond: 0,
            covered: false,
            lines,
        })
    }

    /// The address behind the last object of the last region.
    pub(crate) fn next_address(&self) -> u64
        ensures { (below : List RegionOf) (q : RegionOf) → (content self.now).regions ≡ below ++ q ∷ [] → length below < self.now.geometry.n → q.top ≤ self.now.geometry.w → result ≡ length below * self.now.geometry.w + q.top }
    {
        match self.regions.split_last() {
            Some((last, below)) => {
                start_of(self.geometry, below.len()).saturating_add(u64::from(last.top))
            }
            None => 0,
        }
    }

    /// Adds free regions up to this one.
    pub(crate) fn fill_up_to(&mut self, region: u64) -> Result<(), AllocError>
        ensures same { region ≤ length (content self.old).regions → OnOk result (content self.new ≡ content self.old) }
        ensures free { length (content self.old).regions ≤ region → OnOk result (content self.new ≡ record (content self.old) { regions = (content self.old).regions ++ replicate (region - length (content self.old).regions) free_region }) }
        ensures lines { OnOk result (numbers self.new ≡ numbers self.old) }
    {
        for _ in self.regions.len() as u64..region {
            self.add_empty(Kind::Free)?;
        }
        Ok(())
    }

    /// Adds a region of a kind with nothing in it.
    pub(crate) fn add_empty(&mut self, kind: Kind) -> Result<(), AllocError>
        ensures says { OnOk result (content self.new ≡ record (content self.old) { regions = (content self.old).regions ++ record { kind = kind; top = 0; pinned = false } ∷ [] }) }
        ensures lines { OnOk result (numbers self.new ≡ numbers self.old) }
    {
        self.regions.push(Region {
            kind,
            top: 0,
            pinned: false,
        })?;
        Ok(())
    }

    /// Adds a region in which the humongous object above it goes on.
    pub(crate) fn continue_run(&mut self) -> Result<(), AllocError>
        ensures says { OnOk result (content self.new ≡ record (content self.old) { regions = (content self.old).regions ++ record { kind = Kind.Continuation; top = min self.old.geometry.w self.old.beyond; pinned = false } ∷ []; beyond = self.old.beyond - min self.old.geometry.w self.old.beyond }) }
        ensures lines { OnOk result (numbers self.new ≡ numbers self.old) }
    {
        let words = self.geometry.region_words().min(self.beyond);
        self.beyond -= words;
        self.regions.push(Region {
            kind: Kind::Continuation,
            top: words as u32,
            pinned: false,
        })?;
        Ok(())
    }

    // The next region, if a humongous object goes on in it.
    fn continue_next(&mut self) -> Result<(), Refusal>
        ensures says { 0 < self.old.beyond → Becomes result (content self.new) (record (content self.old) { regions = (content self.old).regions ++ record { kind = Kind.Continuation; top = min self.old.geometry.w self.old.beyond; pinned = false } ∷ []; beyond = self.old.beyond - min self.old.geometry.w self.old.beyond }) }
        ensures lines { OnOk result (numbers self.new ≡ numbers self.old) }
    {
        if self.beyond == 0 {
            return Err(Refusal::Expected(Expected::NoContinuation));
        }
        self.continue_run()?;
        Ok(())
    }

    /// Adds the regions up to this one, in which the humongous object above them goes on.
    pub(crate) fn continue_run_to(&mut self, region: u64) -> Result<(), Refusal>
        ensures goes { (on : ℕ) (d : Content) → length (content self.old).regions + on ≡ region → GoesOn (content self.old) on d → 0 < d.beyond → Becomes result (content self.new) (with_region d Kind.Continuation) }
        ensures lines { OnOk result (numbers self.new ≡ numbers self.old) }
    {
        for _ in self.regions.len() as u64..region {
            self.continue_next()?;
        }
        self.continue_next()
    }

    /// Adds all regions in which the humongous object above them goes on.
    pub(crate) fn close_run(&mut self) -> Result<(), AllocError>
        ensures same { self.old.beyond ≡ 0 → OnOk result (content self.new ≡ content self.old) }
        ensures goes { (on : ℕ) (d : Content) → on ≤ self.old.geometry.n → GoesOn (content self.old) on d → d.beyond ≡ 0 → OnOk result (content self.new ≡ d) }
        ensures laid { (g : GeometryOf) (os : List Object) (regions : List RegionOf) (beyond : ℕ) → IsWithinBounds g.w g.k g.n → AreLaid g regions beyond os → content self.old ≡ laid_content g regions beyond → OnOk result (IsLaid g os (content self.new)) }
        ensures lines { OnOk result (numbers self.new ≡ numbers self.old) }
    {
        for _ in 0..self.geometry.regions() {
            if self.beyond == 0 {
                break;
            }
            self.continue_run()?;
        }
        Ok(())
    }

    /// Adds regions as `close_run` does. A line needs less of its contract than a layout.
    pub(crate) fn end_run(&mut self) -> Result<(), AllocError>
        ensures goes { (on : ℕ) (d : Content) → on ≤ self.old.geometry.n → GoesOn (content self.old) on d → d.beyond ≡ 0 → OnOk result (content self.new ≡ d) }
        ensures lines { OnOk result (numbers self.new ≡ numbers self.old) }
    {
        self.close_run()
    }

    /// Adds regions as `fill_up_to` does. A line needs less of its contract than a layout.
    pub(crate) fn free_up_to(&mut self, region: u64) -> Result<(), AllocError>
        ensures free { length (content self.old).regions ≤ region → OnOk result (content self.new ≡ record (content self.old) { regions = (content self.old).regions ++ replicate (region - length (content self.old).regions) free_region }) }
        ensures lines { OnOk result (numbers self.new ≡ numbers self.old) }
    {
        self.fill_up_to(region)
    }

    /// Adds the regions that have no line.
    pub(crate) fn close(&mut self) -> Result<(), AllocError>
        ensures closes { (d : Content) → Closes (content self.old) d → OnOk result (content self.new ≡ d) }
        ensures laid { (g : GeometryOf) (os : List Object) → IsLaid g os (content self.old) → OnOk result (IsLaidOut g os (content self.new)) }
        ensures lines { OnOk result (numbers self.new ≡ numbers self.old) }
    {
        self.close_run()?;
        let regions = self.geometry.regions();
        self.fill_up_to(regions)
    }

    /// Takes room for an object of this many words behind the last one.
    pub(crate) fn take_room(&mut self, size: u64) -> Result<(), Expected>
        ensures small { IfOk result (λ _. size < 2 ^ 32) }
        ensures kept { IfErr result (λ _. content self.new ≡ content self.old) }
        ensures taken { length (content self.old).regions ≤ self.old.geometry.n → All (λ q. q.top ≤ self.old.geometry.w) (content self.old).regions → OnOk result ((below : List RegionOf) × (q : RegionOf) × ((content self.old).regions ≡ below ++ q ∷ []) × HasSpace q.kind self.old.geometry (length below) q.top size × (content self.new ≡ record (content self.old) { regions = below ++ record q { top = top_behind q.kind self.old.geometry q.top size } ∷ []; beyond = beyond_behind q.kind self.old.geometry self.old.beyond size })) }
        ensures room { (below : List RegionOf) (q : RegionOf) → (content self.old).regions ≡ below ++ q ∷ [] → length below < self.old.geometry.n → size < 2 ^ 32 → HasSpace q.kind self.old.geometry (length below) q.top size → (result ≡ Ok tt) × (content self.new ≡ record (content self.old) { regions = below ++ record q { top = top_behind q.kind self.old.geometry q.top size } ∷ []; beyond = beyond_behind q.kind self.old.geometry self.old.beyond size }) }
        ensures lines { OnOk result (numbers self.new ≡ numbers self.old) }
    {
        let Some((last, below)) = self.regions.split_last() else {
            return Err(Expected::NoObject);
        };
        let (top, beyond) = room(self.geometry, below.len(), *last, self.beyond, size)?;
        self.beyond = beyond;
        set_top(&mut self.regions, top);
        Ok(())
    }
}

// The top of the last region.
fn set_top(regions: &mut Vec<Region>, top: u32)
    ensures { (below : List RegionOf) (q : RegionOf) → regions.old.items ≡ below ++ q ∷ [] → regions.new.items ≡ below ++ record q { top = top } ∷ [] }
{
    if let Some(last) = regions.last_mut() {
        last.top = top;
    }
}

// The address of the first word of a region.
pub(crate) fn start_of(geometry: Geometry, region: usize) -> u64
    ensures value { region < 2 ^ 32 → result ≡ region * geometry.w }
    ensures limits { IsWithinBounds geometry.w geometry.k geometry.n }
{
    geometry.start(u32::try_from(region).unwrap_or(u32::MAX))
}

fn empty_remembered(alloc: Global, count: usize) -> Result<Vec<Vec<u32>>, AllocError>
    ensures { IfOk result (λ v. map (λ s. s.items) v.items ≡ replicate count []) }
{
    let mut remembered = Vec::new(alloc);
    for _ in 0..count {
        remembered.push(Vec::new(alloc))?;
    }
    Ok(remembered)
}

// The top of the last region behind an object more, and the words of a humongous object that no region has yet.
fn room(
    geometry: Geometry,
    below: usize,
    last: Region,
    beyond: u64,
    size: u64,
) -> Result<(u32, u64), Expected>
    ensures small { IfOk result (λ _. size < 2 ^ 32) }
    ensures space { below < geometry.n → last.top ≤ geometry.w → IfOk result (λ p. HasSpace last.kind geometry below last.top size × (p.0 ≡ top_behind last.kind geometry last.top size) × (p.1 ≡ beyond_behind last.kind geometry beyond size)) }
    ensures room { below < geometry.n → size < 2 ^ 32 → HasSpace last.kind geometry below last.top size → result ≡ Ok (top_behind last.kind geometry last.top size, beyond_behind last.kind geometry beyond size) }
{
    match last.kind {
        Kind::Ordinary => Ok((grow(geometry, last.top, size)?, beyond)),
        Kind::HumongousFirst if last.top == 0 => {
            let beyond = overhang(geometry, start_of(geometry, below), size)?;
            Ok((size.min(geometry.region_words()) as u32, beyond))
        }
        Kind::HumongousFirst | Kind::Free | Kind::Continuation => Err(Expected::NoObject),
    }
}

// The top of an ordinary region behind an object more.
fn grow(geometry: Geometry, top: u32, size: u64) -> Result<u32, Expected>
    ensures small { IfOk result (λ _. size < 2 ^ 32) }
    ensures space { top ≤ geometry.w → IfOk result (λ t. (4 * size ≤ 3 * geometry.w) × (top + size ≤ geometry.w) × (t ≡ top + size)) }
    ensures room { 4 * size ≤ 3 * geometry.w → top + size ≤ geometry.w → result ≡ Ok (top + size) }
{
    let left = geometry.region_words().saturating_sub(u64::from(top));
    let most = geometry.most_ordinary().min(left);
    match u32::try_from(size) {
        Ok(words) if size <= most => top.checked_add(words).ok_or(Expected::AtMost(most)),
        _ => Err(Expected::AtMost(most)),
    }
}

// The words of a humongous object beyond its first region, which starts at this address.
fn overhang(geometry: Geometry, start: u64, size: u64) -> Result<u64, Expected>
    ensures small { IfOk result (λ _. size < 2 ^ 32) }
    ensures space { IfOk result (λ b. (3 * geometry.w < 4 * size) × (start + size ≤ geometry.n * geometry.w) × (b ≡ size - geometry.w)) }
    ensures room { 3 * geometry.w < 4 * size → start + size ≤ geometry.n * geometry.w → result ≡ Ok (size - geometry.w) }
{
    let most = geometry.words().saturating_sub(start);
    if !geometry.is_humongous(size) {
        Err(Expected::AtLeast(geometry.most_ordinary().saturating_add(1)))
    } else if size > most {
        Err(Expected::AtMost(most))
    } else {
        Ok(size.saturating_sub(geometry.region_words()))
    }
}
