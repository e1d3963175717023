//! Lines of objects by name, without regions and addresses.
ghost use Rattle.std.specs.Prelude.{◌≡◌, ◌<◌, ◌↔◌, ◌-◌, ◌^◌, ℕ, List, Option, None, Some, [], ◌∷◌, ◌++◌, true, false, IsUtf8, length, map, codes, All, IsTrue, IfErr, IfOk, IfSome, OnOk, MatchOption, MatchResult};
ghost use Rattle.g1_words.specs.Geometry.{Geometry as GeometryOf};
ghost use Rattle.g1_image.specs.Image.{IsImageTextWithin};
ghost use Rattle.g1_text.specs.Reading.{words_in, says_something, parts_of, lines_in, AreGraphLines};
ghost use Rattle.g1_text.specs.Forms.{GraphHeading, GraphLine, NamedRootLine, NamedObjectLine, HasMeaning, HasSize, IsTarget, IsName, IsDataWord, Sizes, Maybe, Single, Word, ◌▸◌, Many, Holding, HasFront};
ghost use Rattle.g1_image.specs.Text.{file_text};
ghost use Rattle.g1_text.specs.Content.{file_with};
ghost use Rattle.g1_text.specs.Drafts.{content, is_begun, IsTaken, AreTaken};
ghost use Rattle.g1_text.specs.Graphs.{NamedGraph, SaysGraph, SaysSizes, SaysNamed, SayNamed, AddsRoot, AddsObject, FitsHeap, AreWithinBounds, IsTargetName, words_of, most_words_of, target_word, empty_graph};
ghost use Rattle.g1_text.specs.ByName.{HasRead, IsRead, AreSizes, Fills, read_holder, holder_of, holders_from};
ghost use Rattle.g1_text.specs.Carried.{HoldsGraph, CarryGraph, reference_for, word_for, stale_at};
ghost use Rattle.g1_text.specs.Filled.{AreLocated, IsNoted};
ghost use Rattle.g1_text.specs.Laid.{ArePlaced};
ghost use Rattle.std.specs.Option.{option_copied};
ghost use Rattle.g1_text.specs.Refused.{IsLineOrMemory, IsOther, IsOtherRefusal};
ghost use Rattle.g1_text.specs.Overfull.{RefusesOverfull, FitsSoFar};

use crate::covering::cover;
use crate::draft::{Draft, Heading};
use crate::expected::{Expected, Refusal, Wrong};
use crate::filling::{Stale, fill_objects, fill_roots, name_objects};
use crate::packing::{check_bytes, pack};
use crate::placing::{Entry, Places, choose_sizes, place, regions_needed};
use crate::reading::{HeapSizes, first_line, given_words, sizes, within_limits};
use crate::values::data_word;
use crate::words::{Words, cut_words, size_and_slots};
use g1_words::{Fault, Geometry, Limits, MOST_ROOTS};
use indexmap::IndexSet;
use memchr::memchr_iter;
use std::alloc::{AllocError, Global};
use std::collections::HashMap;
use std::str;

/// A heap whose objects have names: the text of its image, and what that doesn't say.
#[derive(Drop)]
pub struct Graph<'a> {
    /// The text of an image in which each name that no object has is null.
    pub text: Vec<u8>,
    /// The address and the name of each object, rising.
    pub names: Vec<(u64, &'a str)>,
    /// The number of each root whose line says what holds it, rising, and what that is called.
    pub root_names: Vec<(u64, &'a str)>,
    /// The texts among the data words, with their quotes, by the words that stand for them.
    pub texts: HashMap<u64, &'a str>,
    /// The number of each root with a name that no object has, rising, and the name.
    pub stale_roots: Vec<(u64, &'a str)>,
    /// The address of each slot with a name that no object has, rising, and the name.
    pub stale_slots: Vec<(u64, &'a str)>,
    /// The first line with such a name, and what is expected there.
    pub first_stale: Option<(u64, Expected)>,
}

/// Whether a text has lines of objects by name: the first word outside comments is `graph`, and all lines up to it are UTF-8.
pub fn is_graph(text: &[u8]) -> bool
    ensures { IsTrue result ↔ AreGraphLines (parts_of text.now) }
{
    let mut rest = Some(text);
    'lines: while let Some(left) = rest {
        let (line, behind) = first_line(left);
        let Ok(line) = str::from_utf8(line) else {
            return false;
        };
        match line.split_ascii_whitespace().next() {
            Some(first) if !first.starts_with('#') => return first == "graph",
            _ => rest = behind,
        }
    }
    false
}

/// Reads lines of objects by name, and finds a place for each object.
///
/// # Errors
///
/// The number of the first line that is not what is expected there, and what is expected; the heading's, if the regions of
/// a heap do not hold the objects, though it may have as many words. `Fault::Memory` else.
pub fn read_graph<'a>(alloc: Global, text: &'a [u8]) -> Result<Graph<'a>, Wrong>
    ensures fault { IfErr result IsLineOrMemory }
    ensures known { OnOk result (HasMeaning GraphHeading GraphLine text.now) }
    ensures says { IfOk result (λ r. (g : NamedGraph) × SaysGraph text.now g × (map read_holder r.root_names.items ≡ holders_from 0 g.roots)) }
    ensures holds { IfOk result (λ r. (g : NamedGraph) × SaysGraph text.now g × HoldsGraph g r) }
    ensures fits { OnOk result ((g : NamedGraph) × SaysGraph text.now g × FitsHeap g) }
    ensures overfull { RefusesOverfull text.now result }
{
    let lines = read_lines(alloc, text)?;
    let graph = place_and_fill(alloc, lines)?;
    Ok(graph)
}

fn place_and_fill<'a>(alloc: Global, lines: Lines<'a>) -> Result<Graph<'a>, Wrong>
    ensures fault { IfErr result IsLineOrMemory }
    ensures begun { OnOk result (is_begun lines.entry ≡ true) }
    ensures carried { (g : NamedGraph) → HasRead lines.entry g → IfOk result (HoldsGraph g) }
    ensures holders { IfOk result (λ r. r.root_names ≡ lines.entry.holders) }
{
    match lay_out(alloc, &lines) {
        Ok((draft, places)) => fill(alloc, draft, lines, places),
        Err(refusal) => Err(refusal.at(lines.heading)),
    }
}

// Fills the places that were found.
fn fill<'a>(
    alloc: Global,
    mut draft: Draft,
    lines: Lines<'a>,
    places: Places,
) -> Result<Graph<'a>, Wrong>
    ensures fault { IfErr result IsLineOrMemory }
    ensures carried { (g : NamedGraph) (geometry : GeometryOf) → HasRead lines.entry g → ArePlaced geometry lines.entry.entries.items places.addresses.items places.order.items (content draft) → IfSome g.sizes (λ s. geometry ≡ s) → IfOk result (HoldsGraph g) }
    ensures holders { IfOk result (λ r. r.root_names ≡ lines.entry.holders) }
{
    let mut roots = Stale::new(alloc);
    let mut slots = Stale::new(alloc);
    let addresses = places.addresses.as_slice();
    fill_roots(&mut draft.roots, &mut roots, &lines, addresses)?;
    fill_objects(alloc, &mut slots, &mut draft, &lines, &places)?;
    let Lines {
        heading,
        holders,
        entries,
        names,
        texts,
        ..
    } = lines;
    drop(entries);
    let named = name_objects(alloc, names.as_slice(), &places)?;
    drop(names);
    drop(places);
    let text = cover_and_pack(alloc, draft, heading)?;
    Ok(Graph {
        text,
        names: named,
        root_names: holders,
        texts,
        first_stale: earlier(roots.first, slots.first),
        stale_roots: roots.names,
        stale_slots: slots.names,
    })
}

// The bytes of what was read, with the sets that follow from the references.
fn cover_and_pack(alloc: Global, mut draft: Draft, heading: u64) -> Result<Vec<u8>, Wrong>
    ensures fault { IfErr result IsLineOrMemory }
    ensures text { length (content draft).roots < 2 ^ 32 → length (content draft).log < 2 ^ 32 → IfOk result (λ v. (sets : List (List ℕ)) × (v.items ≡ file_text (file_with (record (content draft) { remembered = sets })))) }
{
    cover(&mut draft)?;
    if let Err(expected) = check_counts(draft.remembered.as_slice()) {
        return Err(Refusal::Expected(expected).at(heading));
    }
    let text = pack(alloc, &draft)?;
    Ok(text)
}

// A file has room for the number of cards of each region. No lines are known that reach more.
fn check_counts(remembered: &[Vec<u32>]) -> Result<(), Expected>
    ensures { OnOk result (All (λ cards. length cards.items < 2 ^ 32) remembered.now) }
{
    for cards in remembered {
        if cards.len() as u64 > u64::from(u32::MAX) {
            return Err(Expected::Sizes);
        }
    }
    Ok(())
}

// What is expected in the first of two lines.
fn earlier(one: Option<(u64, Expected)>, other: Option<(u64, Expected)>) -> Option<(u64, Expected)>
    ensures { result ≡ None → (one ≡ None) × (other ≡ None) }
{
    match (one, other) {
        (Some((line, _)), Some((other_line, _))) if line <= other_line => one,
        (_, Some(_)) => other,
        _ => one,
    }
}

/// The bytes of the image that lines of objects by name describe.
///
/// # Errors
///
/// As of `read_graph`, and then the number of the first line with a name that no object has.
pub fn make_graph(alloc: Global, text: &[u8]) -> Result<Vec<u8>, Wrong>
    ensures image { IfOk result (λ v. IsImageTextWithin Limits.Wide v.items) }
    ensures fault { IfErr result IsLineOrMemory }
    ensures known { OnOk result (HasMeaning GraphHeading GraphLine text.now) }
    ensures says { OnOk result ((g : NamedGraph) × SaysGraph text.now g) }
    ensures carries { IfOk result (λ v. (g : NamedGraph) × SaysGraph text.now g × CarryGraph g v.items) }
    ensures fits { OnOk result ((g : NamedGraph) × SaysGraph text.now g × FitsHeap g) }
    ensures overfull { RefusesOverfull text.now result }
{
    let lines = read_lines(alloc, text)?;
    let heading = lines.heading;
    let Graph {
        text: bytes,
        first_stale,
        ..
    } = place_and_fill(alloc, lines)?;
    check_named(first_stale)?;
    match check_bytes(alloc, bytes.as_slice()) {
        Ok(()) => Ok(bytes),
        Err(Fault::Memory) => Err(Wrong::Fault(Fault::Memory)),
        // No lines are known to reach another fault: the objects lie as an image has them.
        Err(_) => Err(Refusal::Expected(Expected::Sizes).at(heading)),
    }
}

// No name is one that no object has.
fn check_named(first_stale: Option<(u64, Expected)>) -> Result<(), Wrong>
    ensures fault { IfErr result IsLineOrMemory }
    ensures named { OnOk result (first_stale ≡ None) }
{
    match first_stale {
        Some((number, expected)) => Err(Wrong::Line { number, expected }),
        None => Ok(()),
    }
}

/// What lines say.
#[derive(Drop)]
pub(crate) struct Lines<'a> {
    heading: u64,
    sizes: Option<HeapSizes>,
    pub(crate) roots: Vec<(u64, &'a str)>,
    /// The numbers of the roots whose lines say what holds them, and what that is called.
    holders: Vec<(u64, &'a str)>,
    pub(crate) entries: Vec<Entry<'a>>,
    /// How many words the objects have.
    words: u64,
    /// Their names, in the same order.
    pub(crate) names: IndexSet<&'a str>,
    /// The texts among the data words, by the words that stand for them.
    texts: HashMap<u64, &'a str>,
}

// The bytes of the shortest line of an object, as `object a 1/0`, with its LF.
const LEAST_LINE: usize = 13;

// How many objects the lines may have. So many have room at once; more would be read as well.
fn most_objects(text: &[u8]) -> usize {
    let lines = memchr_iter(b'\n', text).count();
    lines.min(text.len() / LEAST_LINE)
}

// Nothing read, with room for so many objects, as far as a heap may have them.
fn with_room<'a>(alloc: Global, count: usize) -> Result<Lines<'a>, AllocError>
    ensures { IfOk result (λ l. IsRead l None) }
{
    let room = count.min(Limits::Wide.words() as usize);
    Ok(Lines {
        heading: 0,
        sizes: None,
        roots: Vec::new(alloc),
        holders: Vec::new(alloc),
        entries: Vec::with_capacity(alloc, room)?,
        words: 0,
        names: IndexSet::with_capacity(alloc, room)?,
        texts: HashMap::new(alloc),
    })
}

fn read_lines<'a>(alloc: Global, text: &'a [u8]) -> Result<Lines<'a>, Wrong>
    ensures fault { IfErr result IsLineOrMemory }
    ensures known { IfOk result (λ l. All IsUtf8 (parts_of text.now) × AreTaken GraphHeading GraphLine false (lines_in text.now) (is_begun l)) }
    ensures says { IfOk result (λ l. (g : Option NamedGraph) × SayNamed None (lines_in text.now) g × IsRead l g) }
    ensures fits { OnOk result ((g : Option NamedGraph) × SayNamed None (lines_in text.now) g × FitsSoFar g) }
    ensures overfull { RefusesOverfull text.now result }
{
    let mut lines = with_room(alloc, most_objects(text))?;
    let mut words = Vec::new(alloc);
    let mut number = 0u64;
    let mut rest = Some(text);
    'lines: while let Some(left) = rest {
        let (line, behind) = first_line(left);
        number = number.saturating_add(1);
        if let Err(refusal) = lines.read(&mut words, number, line) {
            return Err(refusal.at(number));
        }
        if let Err(expected) = lines.check_words() {
            return Err(Refusal::Expected(expected).at(number));
        }
        rest = behind;
    }
    Ok(lines)
}

impl<'a> Lines<'a> {
    fn read(&mut self, words: &mut Vec<&'a str>, number: u64, line: &'a [u8]) -> Result<(), Refusal>
        ensures utf8 { OnOk result (IsUtf8 line.now) }
        ensures known { 0 < number → says_something (words_in line.now) ≡ true → OnOk result (IsTaken GraphHeading GraphLine (is_begun self.old) (words_in line.now) (is_begun self.new)) }
        ensures nothing { says_something (words_in line.now) ≡ false → OnOk result (is_begun self.new ≡ is_begun self.old) }
        ensures says { (g : Option NamedGraph) → 0 < number → says_something (words_in line.now) ≡ true → IsRead self.old g → OnOk result ((h : NamedGraph) × SaysNamed g (words_in line.now) h × IsRead self.new (Some h)) }
        ensures kept { (g : Option NamedGraph) → says_something (words_in line.now) ≡ false → IsRead self.old g → OnOk result (IsRead self.new g) }
        ensures other { IfErr result IsOtherRefusal }
    {
        let Ok(line) = str::from_utf8(line) else {
            return Err(Refusal::Expected(Expected::Text));
        };
        cut_words(words, line)?;
        self.read_words(number, line, words.as_slice())
    }

    // The words of a line.
    fn read_words(&mut self, number: u64, line: &'a str, words: &[&'a str]) -> Result<(), Refusal>
        ensures known { 0 < number → says_something (map (λ t. t.now) words.now) ≡ true → OnOk result (IsTaken GraphHeading GraphLine (is_begun self.old) (map (λ t. t.now) words.now) (is_begun self.new)) }
        ensures nothing { says_something (map (λ t. t.now) words.now) ≡ false → OnOk result (is_begun self.new ≡ is_begun self.old) }
        ensures says { (g : Option NamedGraph) → 0 < number → map (λ t. t.now) words.now ≡ words_in line.now → says_something (words_in line.now) ≡ true → IsRead self.old g → OnOk result ((h : NamedGraph) × SaysNamed g (words_in line.now) h × IsRead self.new (Some h)) }
        ensures kept { (g : Option NamedGraph) → map (λ t. t.now) words.now ≡ words_in line.now → says_something (words_in line.now) ≡ false → IsRead self.old g → OnOk result (IsRead self.new g) }
        ensures other { IfErr result IsOtherRefusal }
    {
        let Some((first, rest)) = words.split_first() else {
            return Ok(());
        };
        if first.starts_with('#') {
            return Ok(());
        }
        if self.heading == 0 {
            return self.begin(number, first, rest);
        }
        match *first {
            "root" => self.add_root(number, rest),
            "object" => self.add_object(number, line, rest),
            _ => Err(Refusal::Expected(Expected::GraphLine)),
        }
    }

    // graph [W K N]
    fn begin(&mut self, number: u64, first: &str, told: &[&str]) -> Result<(), Refusal>
        ensures form { OnOk result (GraphHeading (first.now ∷ map (λ t. t.now) told.now)) }
        ensures number { OnOk result (self.new.heading ≡ number) }
        ensures says { HasRead self.old (empty_graph None) → OnOk result ((sizes : Option GeometryOf) × SaysSizes sizes (first.now ∷ map (λ t. t.now) told.now) × HasRead self.new (empty_graph sizes)) }
        ensures other { IfErr result IsOtherRefusal }
    {
        if first != "graph" {
            return Err(Refusal::Expected(Expected::Graph));
        }
        self.heading = number;
        self.sizes = all_sizes(told)?;
        Ok(())
    }

    // root NAME [as HOLDER]
    fn add_root(&mut self, number: u64, words: &[&'a str]) -> Result<(), Refusal>
        ensures form { OnOk result (NamedRootLine (codes "root" ∷ map (λ t. t.now) words.now)) }
        ensures heading { OnOk result (self.new.heading ≡ self.old.heading) }
        ensures says { (g : NamedGraph) → HasRead self.old g → OnOk result ((h : NamedGraph) × AddsRoot g (codes "root" ∷ map (λ t. t.now) words.now) h × HasRead self.new h) }
        ensures other { IfErr result IsOtherRefusal }
    {
        let most = u64::from(MOST_ROOTS);
        if self.roots.len() as u64 >= most {
            return Err(Refusal::Expected(Expected::Roots(most)));
        }
        let (name, holder) = root_words(words)?;
        keep_holder(&mut self.holders, self.roots.len() as u64, holder)?;
        self.roots.push((number, name))?;
        Ok(())
    }

    // object NAME SIZE/SLOTS NAME .. WORD .. [..]
    fn add_object(&mut self, number: u64, line: &'a str, words: &[&'a str]) -> Result<(), Refusal>
        ensures form { OnOk result (NamedObjectLine (codes "object" ∷ map (λ t. t.now) words.now)) }
        ensures heading { OnOk result (self.new.heading ≡ self.old.heading) }
        ensures says { (g : NamedGraph) → codes "object" ∷ map (λ t. t.now) words.now ≡ words_in line.now → HasRead self.old g → OnOk result ((h : NamedGraph) × AddsObject g (words_in line.now) h × HasRead self.new h) }
        ensures other { IfErr result IsOtherRefusal }
    {
        let Some((name, rest)) = words.split_first() else {
            return Err(Refusal::Expected(Expected::Name));
        };
        check_name(name)?;
        let Some((size, content)) = rest.split_first() else {
            return Err(Refusal::Expected(Expected::Size));
        };
        let (size, slots) = short_size(size)?;
        if !self.names.insert(*name)? {
            return Err(Refusal::Expected(Expected::NewName));
        }
        check_content(content, size, slots)?;
        keep_texts(&mut self.texts, content, slots)?;
        self.entries.push(Entry {
            size,
            slots,
            number,
            line,
        })?;
        self.words = self.words.saturating_add(u64::from(size));
        Ok(())
    }

    // A heap may have all words of the objects so far.
    fn check_words(&self) -> Result<(), Expected>
        ensures { (g : NamedGraph) → HasRead self.now g → MatchResult result (λ _. FitsHeap g) (λ e. (FitsHeap g → ⊥) × (words_of g < 2 ^ 64 → e ≡ Expected.FewerWords (words_of g) (most_words_of g.sizes))) }
    {
        let most = most_words(self.sizes);
        if self.words > most {
            return Err(Expected::FewerWords(self.words, most));
        }
        Ok(())
    }

    // The reference word that a name stands for, if it is null's or an object's.
    fn reference(&self, addresses: &[u64], name: &str) -> Option<u64>
        ensures { (g : NamedGraph) (target : Option (List ℕ)) → AreLocated self.now g addresses.now → IsTargetName target → name.now ≡ target_word target → result ≡ reference_for g addresses.now target }
    {
        if name == "-" {
            return Some(0);
        }
        let place = self.names.get_index_of(name)?;
        if place >= addresses.len() {
            return None;
        }
        Some(addresses[place].saturating_add(1))
    }

    /// The word for a name in a line: null for one that no object has, which is kept with its number.
    pub(crate) fn word(
        &self,
        addresses: &[u64],
        stale: &mut Stale<'a>,
        number: u64,
        name: &'a str,
        line: u64,
        expected: Expected,
    ) -> Result<u64, AllocError>
        ensures word { (g : NamedGraph) (target : Option (List ℕ)) → AreLocated self.now g addresses.now → IsTargetName target → name.now ≡ target_word target → IfOk result (λ x. x ≡ word_for g addresses.now target) }
        ensures stale { (g : NamedGraph) (target : Option (List ℕ)) → AreLocated self.now g addresses.now → IsTargetName target → name.now ≡ target_word target → OnOk result (map read_holder stale.new.names.items ≡ map read_holder stale.old.names.items ++ stale_at g number target) }
        ensures noted { IsNoted stale.old → OnOk result (IsNoted stale.new) }
    {
        match self.reference(addresses, name) {
            Some(word) => Ok(word),
            None => {
                stale.add(number, name, line, expected)?;
                Ok(0)
            }
        }
    }
}

// Keeps what holds a root, if its line says that.
fn keep_holder<'a>(
    holders: &mut Vec<(u64, &'a str)>,
    number: u64,
    holder: Option<&'a str>,
) -> Result<(), AllocError>
    ensures { OnOk result (map read_holder holders.new.items ≡ map read_holder holders.old.items ++ holder_of number (option_copied holder.entry)) }
{
    if let Some(holder) = holder {
        holders.push((number, holder))?;
    }
    Ok(())
}

// [W K N]
fn all_sizes(told: &[&str]) -> Result<Option<HeapSizes>, Expected>
    ensures form { OnOk result (Maybe Sizes (map (λ t. t.now) told.now)) }
    ensures says { IfOk result (λ s. (sizes : Option GeometryOf) × AreSizes s sizes × SaysSizes sizes (codes "graph" ∷ map (λ t. t.now) told.now)) }
    ensures other { IfErr result IsOther }
{
    let mut words = Words::new(told);
    if words.len() == 0 {
        return Ok(None);
    }
    let told = sizes(&mut words)?;
    words.end()?;
    match Geometry::within(Limits::Wide, told.w, told.k, told.n) {
        Ok(geometry) => {
            within_limits(&geometry);
            Ok(Some(told))
        }
        Err(_) => Err(Expected::Sizes),
    }
}

// The most words that a heap may have: one of these sizes, or any.
fn most_words(sizes: Option<HeapSizes>) -> u64
    ensures { (told : Option GeometryOf) → AreSizes sizes told → AreWithinBounds told → result ≡ most_words_of told }
{
    match sizes {
        Some(HeapSizes { w, n, .. }) => n.saturating_mul(w),
        None => Limits::Wide.words(),
    }
}

// NAME [as HOLDER]
fn root_words<'a>(words: &[&'a str]) -> Result<(&'a str, Option<&'a str>), Expected>
    ensures words { IfOk result (λ r. MatchOption r.1 (map (λ t. t.now) words.now ≡ r.0.now ∷ []) (λ h. map (λ t. t.now) words.now ≡ r.0.now ∷ codes "as" ∷ h.now ∷ [])) }
    ensures form { OnOk result ((Single IsTarget ▸ Maybe (Word (codes "as") ▸ Single IsName)) (map (λ t. t.now) words.now)) }
    ensures target { IfOk result (λ r. IsTarget r.0.now) }
    ensures holder { IfOk result (λ r. IfSome r.1 (λ h. IsName h.now)) }
    ensures other { IfErr result IsOther }
{
    match words.split_first() {
        Some((name, rest)) if *name != ".." => Ok((*name, holder(rest)?)),
        _ => Err(Expected::NamedRoot),
    }
}

// [as HOLDER]
fn holder<'a>(words: &[&'a str]) -> Result<Option<&'a str>, Expected>
    ensures words { IfOk result (λ r. MatchOption r (map (λ t. t.now) words.now ≡ []) (λ h. map (λ t. t.now) words.now ≡ codes "as" ∷ h.now ∷ [])) }
    ensures form { OnOk result (Maybe (Word (codes "as") ▸ Single IsName) (map (λ t. t.now) words.now)) }
    ensures name { IfOk result (λ r. IfSome r (λ h. IsName h.now)) }
    ensures other { IfErr result IsOther }
{
    let Some((first, rest)) = words.split_first() else {
        return Ok(None);
    };
    if *first != "as" {
        return Err(Expected::NamedRoot);
    }
    match rest.split_first() {
        Some((holder, [])) if *holder != "-" && *holder != ".." => Ok(Some(*holder)),
        _ => Err(Expected::Holder),
    }
}

fn check_name(name: &str) -> Result<(), Expected>
    ensures name { OnOk result (IsName name.now) }
    ensures other { IfErr result IsOther }
{
    if name == "-" || name == ".." {
        Err(Expected::Name)
    } else {
        Ok(())
    }
}

// SIZE/SLOTS, of an object that fits into a heap
fn short_size(text: &str) -> Result<(u32, u32), Expected>
    ensures within { IfOk result (λ p. (p.1 < p.0) × (p.0 < 2 ^ 32)) }
    ensures form { IfOk result (λ p. HasSize p.0 p.1 text.now) }
    ensures other { IfErr result IsOther }
{
    let Some((size, slots)) = size_and_slots(text) else {
        return Err(Expected::Size);
    };
    if slots >= size {
        return Err(Expected::Size);
    }
    match u32::try_from(size) {
        Ok(size) => Ok((size, slots as u32)),
        Err(_) => Err(Expected::AtMost(Limits::Wide.words())),
    }
}

// NAME .. WORD .. [..]
fn check_content(content: &[&str], size: u32, slots: u32) -> Result<(), Expected>
    ensures form { slots < size → OnOk result (Holding IsTarget slots (size - slots - 1) (map (λ t. t.now) content.now)) }
    ensures fills { slots < size → OnOk result (Fills slots (size - slots - 1) (map (λ t. t.now) content.now)) }
    ensures other { IfErr result IsOther }
{
    let mut words = Words::new(content);
    let slots = u64::from(slots);
    let data = u64::from(size).saturating_sub(slots).saturating_sub(1);
    let (given, _) = given_words(&mut words, slots, data)?;
    let names = slots.min(given);
    check_names(&mut words, names)?;
    check_data(&mut words, given - names)
}

fn check_names(words: &mut Words<'_>, count: u64) -> Result<(), Expected>
    ensures form { OnOk result (HasFront (Many IsTarget count) words.old words.new) }
    ensures other { IfErr result IsOther }
{
    for slot in 0..count {
        let Some(name) = words.next() else {
            return Err(Expected::NamedSlot(slot));
        };
        if name == ".." {
            return Err(Expected::NamedSlot(slot));
        }
    }
    Ok(())
}

fn check_data(words: &mut Words<'_>, count: u64) -> Result<(), Expected>
    ensures form { OnOk result (HasFront (Many IsDataWord count) words.old words.new) }
    ensures other { IfErr result IsOther }
{
    for _ in 0..count {
        words.value()?;
    }
    Ok(())
}

// Keeps the texts among the words behind the slots. Two texts of one hash can't be told apart.
fn keep_texts<'a>(
    texts: &mut HashMap<u64, &'a str>,
    content: &[&'a str],
    slots: u32,
) -> Result<(), Refusal>
    ensures { IfErr result IsOtherRefusal }
{
    for word in content.iter().skip(slots as usize) {
        if !word.starts_with('"') {
            continue;
        }
        let Some(hash) = data_word(word) else {
            continue;
        };
        match texts.get(&hash) {
            Some(other) if *other != *word => return Err(Refusal::Expected(Expected::OtherText)),
            Some(_) => (),
            None => {
                texts.insert(hash, *word)?;
            }
        }
    }
    Ok(())
}

// A heap of the sizes that the first line has, or of chosen ones, in which each object has an address.
fn lay_out(alloc: Global, lines: &Lines<'_>) -> Result<(Draft, Places), Refusal>
    ensures begun { OnOk result (is_begun lines.now ≡ true) }
    ensures placed { IfOk result (λ r. (geometry : GeometryOf) × ArePlaced geometry lines.now.entries.items r.1.addresses.items r.1.order.items (content r.0) × IfSome lines.now.sizes (λ s. geometry ≡ record { w = s.w; k = s.k; n = s.n })) }
{
    let geometry = match sizes_of(lines) {
        Ok(geometry) => geometry,
        Err(expected) => return Err(Refusal::Expected(expected)),
    };
    let heading = Heading {
        line: lines.heading,
        roots: None,
        dirty: None,
    };
    let mut draft = Draft::new(alloc, geometry, None, heading)?;
    let places = place(alloc, &mut draft, lines.entries.as_slice())?;
    Ok((draft, places))
}

fn sizes_of(lines: &Lines<'_>) -> Result<Geometry, Expected>
    ensures begun { OnOk result (is_begun lines.now ≡ true) }
    ensures told { IfOk result (λ g. IfSome lines.now.sizes (λ s. g ≡ record { w = s.w; k = s.k; n = s.n })) }
{
    if lines.heading == 0 {
        return Err(Expected::Graph);
    }
    let entries = lines.entries.as_slice();
    let Some(HeapSizes { w, k, n }) = lines.sizes else {
        return choose_sizes(entries, lines.words);
    };
    let Ok(geometry) = Geometry::within(Limits::Wide, w, k, n) else {
        return Err(Expected::Sizes);
    };
    let needed = regions_needed(&geometry, entries);
    if needed > geometry.regions() {
        return Err(Expected::Regions(needed));
    }
    Ok(geometry)
}
