ghost use Rattle.std.specs.Prelude.{◌≡◌, ◌≤◌, ◌<◌, ◌+◌, ◌*◌, ◌/◌, ◌%◌, ◌++◌, ◌^◌, ◌≢◌, ℕ, List, None, replicate, false, length, All, AllPairs, slice_index, slice_index_or, IfOk};
ghost use Rattle.std.specs.List.Sorted.{IsStrictlyIncreasing};
ghost use Rattle.g1_words.specs.Geometry.{most_words};
ghost use Rattle.g1_words.specs.Marks.{marks_of};
ghost use Rattle.g1_words.specs.Numbers.{number_at};
ghost use Rattle.g1_layout.specs.Words.{ArePositions, AreIndices, AreMarkedTo, ArePlacedTo, HasIndex, index_of};

use g1_words::numbers::{Numbers, mark};
use g1_words::{Geometry, region_of};
use std::alloc::{AllocError, Global};

/// New addresses by address: a bit for each word of a set's regions, and a place for each survivor.
#[derive(Drop)]
pub(crate) struct Table {
    geometry: Geometry,
    positions: Vec<Option<u32>>,
    /// The words at which survivors are, among those of the set's regions.
    numbers: Numbers,
    /// The survivors' new addresses, in the order of their old ones.
    places: Vec<u32>,
}

/// By region number, the position of the region in a set.
fn positions(alloc: Global, regions: u64, set: &[u32]) -> Result<Vec<Option<u32>>, AllocError>
    requires rising { IsStrictlyIncreasing set.now }
    requires in_heap { All (λ r. r < regions) set.now }
    requires few { length set.now < 2 ^ 32 }
    ensures { IfOk result (λ v. ArePositions set.now v.items) }
{
    let mut positions = vec![in alloc; None; regions as usize]?;
    for (i, r) in set.iter().enumerate() {
        positions[*r as usize] = Some(i as u32);
    }
    Ok(positions)
}

/// The index of an address among the words of the set's regions, if it lies in one of them.
fn index_of(geometry: &Geometry, positions: &[Option<u32>], a: u64) -> Option<usize>
    ensures { result ≡ index_of geometry.now.w positions.now a }
{
    let region = region_of(geometry, a);
    if region >= positions.len() as u64 {
        return None;
    }
    // This is asked for each reference, so it divides nothing.
    let offset = a - geometry.words_of(region);
    match positions[region as usize] {
        Some(position) => Some((geometry.words_of(u64::from(position)) + offset) as usize),
        None => None,
    }
}

/// Sets the bit at each survivor's index.
fn mark_survivors(
    bits: &mut Vec<u64>,
    geometry: &Geometry,
    positions: &[Option<u32>],
    survivors: &[u64],
)
    requires indices { AreIndices geometry.now.w positions.now (64 * length bits.old.items) }
    requires none { marks_of (64 * length bits.old.items) bits.old.items ≡ replicate (64 * length bits.old.items) false }
    ensures marked { AreMarkedTo geometry.now.w positions.now survivors.now (length survivors.now) (marks_of (64 * length bits.old.items) bits.new.items) }
    ensures same { length bits.new.items ≡ length bits.old.items }
{
    for a in survivors {
        if let Some(index) = index_of(geometry, positions, *a) {
            mark(bits, index);
        }
    }
}

/// Writes each survivor's place at its number.
fn write_places(
    by_number: &mut [u32],
    geometry: &Geometry,
    positions: &[Option<u32>],
    numbers: &Numbers,
    survivors: &[u64],
    places: &[u64],
)
    requires indices { AreIndices geometry.now.w positions.now (length numbers.now) }
    requires in_set { All (HasIndex geometry.now.w positions.now) survivors.now }
    requires distinct { AllPairs (λ a b. a ≢ b) survivors.now }
    requires marked { AreMarkedTo geometry.now.w positions.now survivors.now (length survivors.now) numbers.now }
    requires room { length by_number.old ≡ number_at numbers.now (length numbers.now) }
    requires one_each { length places.now ≡ length survivors.now }
    requires low { All (λ p. p < most_words) places.now }
    ensures { ArePlacedTo geometry.now.w positions.now numbers.now survivors.now places.now (length survivors.now) by_number.new }
{
    for (i, a) in survivors.iter().enumerate() {
        if let Some(index) = index_of(geometry, positions, *a) {
            if let Some(number) = numbers.number(index) {
                by_number[number] = places[i] as u32;
            }
        }
    }
}

/// The survivors' words among those of the set's regions, numbered.
fn numbered(
    alloc: Global,
    geometry: &Geometry,
    positions: &[Option<u32>],
    set: &[u32],
    survivors: &[u64],
) -> Result<Numbers, AllocError>
    requires few { length set.now * geometry.now.w ≤ most_words }
    requires positions { ArePositions set.now positions.now }
    ensures indices { IfOk result (λ n. AreIndices geometry.now.w positions.now (length n)) }
    ensures marked { IfOk result (AreMarkedTo geometry.now.w positions.now survivors.now (length survivors.now)) }
{
    let words = geometry.words_of(set.len() as u64) as usize;
    let mut bits = vec![in alloc; 0u64; words / 64 + 1]?;
    mark_survivors(&mut bits, geometry, positions, survivors);
    Numbers::new(alloc, &bits)
}

impl Table {
    ghost use Rattle.std.specs.Prelude.{◌≡◌, ◌≢◌, ◌<◌, ◌/◌, length, All, AllPairs, Contains, IfOk};
    ghost use Rattle.std.specs.List.Sorted.{IsStrictlyIncreasing};
    ghost use Rattle.g1_words.specs.Geometry.{most_words};
    ghost use Rattle.g1_words.specs.Layout.{moved_to};
    ghost use Rattle.g1_layout.specs.Words.{IsTable, goes_to};
    ghost use Rattle.g1_layout.specs.Forwards.{Forwards};

    /// The table that has each survivor's place, and for any other address the address itself.
    pub(crate) fn new(
        alloc: Global,
        geometry: &Geometry,
        set: &[u32],
        survivors: &[u64],
        places: &[u64],
    ) -> Result<Table, AllocError>
        requires rising { IsStrictlyIncreasing set.now }
        requires in_heap { All (λ r. r < geometry.now.n) set.now }
        requires in_set { All (λ a. Contains set.now (a / geometry.now.w)) survivors.now }
        requires distinct { AllPairs (λ a b. a ≢ b) survivors.now }
        requires one_each { length places.now ≡ length survivors.now }
        requires low { All (λ p. p < most_words) places.now }
        ensures { IfOk result (λ t. Forwards t survivors.now places.now) }
    {
        let positions = positions(alloc, geometry.regions(), set)?;
        let numbers = numbered(alloc, geometry, &positions, set, survivors)?;
        let mut by_number = vec![in alloc; 0u32; numbers.count() as usize]?;
        write_places(
            &mut by_number,
            geometry,
            &positions,
            &numbers,
            survivors,
            places,
        );
        Ok(Table {
            geometry: *geometry,
            positions,
            numbers,
            places: by_number,
        })
    }

    /// What the table has for an address.
    pub(crate) fn get(&self, a: u64) -> u64
        requires { IsTable self.now.geometry.w self.now.positions.items self.now.numbers self.now.places.items }
        ensures { result ≡ goes_to self.now.geometry.w self.now.positions.items self.now.numbers self.now.places.items a }
    {
        let Some(index) = index_of(&self.geometry, &self.positions, a) else {
            return a;
        };
        match self.numbers.number(index) {
            Some(number) => u64::from(self.places[number]),
            None => a,
        }
    }
}
