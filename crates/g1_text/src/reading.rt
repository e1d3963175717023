ghost use Rattle.std.specs.Prelude.{◌≡◌, ◌≢◌, ◌⊎◌, ◌≤◌, ◌<◌, ◌+◌, ◌-◌, ◌^◌, ℕ, Bool, List, [], ◌∷◌, ◌++◌, Option, None, Some, Ok, true, false, IsUtf8, length, map, replicate, codes, slice_index_or, All, IsTrue, IfSome, IfOk, IfErr, OnOk, MatchOption, MatchResult};
ghost use Rattle.g1_words.specs.declared.region.Kind.{Kind as KindOf};
ghost use Rattle.g1_words.specs.declared.region.Region.{Region as RegionOf};
ghost use Rattle.g1_words.specs.Geometry.{IsWithinBounds};
ghost use Rattle.g1_words.specs.Kind.{kind_word};
ghost use Rattle.g1_text.specs.Lines.{pinned_words};
ghost use Rattle.std.specs.Option.{is_some};
ghost use Rattle.std.specs.List.{AllZip};
ghost use Rattle.std.specs.Str.Parse.{digits_value};
ghost use Rattle.g1_text.specs.Reading.{words_in, says_something, parts_of, lines_in, HasLines};
ghost use Rattle.g1_text.specs.Forms.{ImageHeading, ImageLine, RootLine, DirtyLine, CoveredLine, RegionLine, RememberedLine, ObjectLine, HasMeaning, Form, Spells, IsBelow, IsDataWord, HasSize, IsReferenceWord, Denotes, StandsFor, Number, Single, Many, Maybe, Labelled, Current, Cards, Holding, Pinned, ◌▸◌, HasFront, HasFirst, HasValues};
ghost use Rattle.g1_text.specs.Content.{Content, Counts, Dirty, Remembered, IsCount, Takes, MayFollow, with_region, one_found};
ghost use Rattle.g1_text.specs.Short.{Short, RootAs, DirtyAs, RegionAs, RememberedAs, ObjectAs, IsZeroFrom, IsShortLine, NamesRegion, TellsNumber, TellsCards, TellsContent, TellsCounts, TellsBehind, TellsSizes, GoesOn, Skips, MaySkip, Gives, BeginsShort, Tells, TellsAll, Closes};
ghost use Rattle.g1_text.specs.Late.{numbers_in};
ghost use Rattle.g1_text.specs.Drafts.{content, counts_of, line_of_region, numbers, numbers_read, with_line, Becomes, said, IsTaken, AreTaken};
ghost use Rattle.g1_text.specs.Refused.{IsLineOrMemory, IsOther};
ghost use Rattle.g1_text.specs.Reported.{IsFirstWrong, IsReported};

use crate::draft::{Draft, Heading, Placed, Told};
use crate::expected::{Expected, Refusal, Wrong};
use crate::words::{Words, cut_words, size_and_slots};
use g1_words::{Fault, Geometry, Kind, Limits, MOST_ROOTS, Region, header_word};
use memchr::memchr;
use std::alloc::{AllocError, Global};
use std::str;

/// Reads lines one after the other.
pub(crate) fn read(alloc: Global, text: &[u8]) -> Result<Draft, Wrong>
    ensures fault { IfErr result IsLineOrMemory }
    ensures says { (lines : List (List (List ℕ))) (told c : Content) → HasLines text.now lines → TellsAll None lines (Some told) → Closes told c → MatchResult result (λ d. content d ≡ c) (λ e. e ≡ Wrong.Fault Fault.Memory) }
    ensures known { OnOk result (HasMeaning ImageHeading ImageLine text.now) }
    ensures reports { IfErr result (IsReported text.now) }
    ensures lines { IfOk result (λ d. numbers d ≡ numbers_in (parts_of text.now)) }
{
    let mut draft = None;
    let parts = read_lines(alloc, &mut draft, text)?;
    let Some(mut draft) = draft else {
        return Err(Refusal::Expected(Expected::Heading).at(last_line(text, parts)));
    };
    draft.close()?;
    Ok(draft)
}

// Reads each line, and returns how many parts the text has: there is one behind the last LF.
fn read_lines(alloc: Global, draft: &mut Option<Draft>, text: &[u8]) -> Result<u64, Wrong>
    ensures fault { IfErr result IsLineOrMemory }
    ensures says { (lines : List (List (List ℕ))) (c : Content) → HasLines text.now lines → TellsAll (said draft.old) lines (Some c) → MatchResult result (λ _. said draft.new ≡ Some c) (λ e. e ≡ Wrong.Fault Fault.Memory) }
    ensures known { OnOk result (All IsUtf8 (parts_of text.now) × AreTaken ImageHeading ImageLine (is_some (said draft.old)) (lines_in text.now) (is_some (said draft.new))) }
    ensures count { said draft.old ≡ None → IfOk result (λ n. n ≡ length (parts_of text.now)) }
    ensures reports { said draft.old ≡ None → IfErr result (IsFirstWrong text.now) }
    ensures lines { said draft.old ≡ None → OnOk result (numbers_read draft.new ≡ numbers_in (parts_of text.now)) }
{
    let mut number = 0u64;
    let mut words = Vec::new(alloc);
    let mut rest = Some(text);
    'lines: while let Some(left) = rest {
        let (line, behind) = first_line(left);
        number = number.saturating_add(1);
        if let Err(refusal) = read_line(alloc, draft, &mut words, number, line) {
            return Err(refusal.at(number));
        }
        rest = behind;
    }
    Ok(number)
}

// The bytes up to the first LF, and those behind it. `split` would look at one byte after the other.
pub(crate) fn first_line(text: &[u8]) -> (&[u8], Option<&[u8]>)
    ensures { MatchOption result.1 (parts_of text.now ≡ result.0.now ∷ []) (λ left. (length left.now < length text.now) × (parts_of text.now ≡ result.0.now ∷ parts_of left.now)) }
{
    match memchr(b'\n', text) {
        Some(end) => {
            let (line, behind) = text.split_at(end);
            let (_, left) = behind.split_at(1);
            (line, Some(left))
        }
        None => (text, None),
    }
}

// The number of the last line. The LF that ends it begins no other one.
fn last_line(text: &[u8], parts: u64) -> u64
    ensures { 0 < parts → (result ≡ parts) ⊎ ((front : List ℕ) × (text.now ≡ front ++ 10 ∷ []) × (result + 1 ≡ parts)) }
{
    if text.ends_with(b"\n") {
        parts.saturating_sub(1)
    } else {
        parts
    }
}

// Reads the words of a line. All lines share one list of words, so few of them ask for memory.
fn read_line<'a>(
    alloc: Global,
    draft: &mut Option<Draft>,
    words: &mut Vec<&'a str>,
    number: u64,
    line: &'a [u8],
) -> Result<(), Refusal>
    ensures says { (c : Content) → IsUtf8 line.now → says_something (words_in line.now) ≡ true → Tells (said draft.old) (words_in line.now) c → MatchResult result (λ _. said draft.new ≡ Some c) (λ e. e ≡ Refusal.Memory) }
    ensures nothing { IsUtf8 line.now → says_something (words_in line.now) ≡ false → MatchResult result (λ _. said draft.new ≡ said draft.old) (λ e. e ≡ Refusal.Memory) }
    ensures utf8 { OnOk result (IsUtf8 line.now) }
    ensures known { says_something (words_in line.now) ≡ true → OnOk result (IsTaken ImageHeading ImageLine (is_some (said draft.old)) (words_in line.now) (is_some (said draft.new))) }
    ensures lines { OnOk result (numbers_read draft.new ≡ with_line (numbers_read draft.old) number (words_in line.now)) }
{
    let Ok(line) = str::from_utf8(line) else {
        return Err(Refusal::Expected(Expected::Text));
    };
    cut_words(words, line)?;
    read_words(alloc, draft, number, Words::new(words.as_slice()))
}

// A line with no word says nothing, nor does one that begins with '#'.
fn read_words(
    alloc: Global,
    draft: &mut Option<Draft>,
    number: u64,
    mut words: Words<'_>,
) -> Result<(), Refusal>
    ensures says { (c : Content) → says_something words.entry ≡ true → Tells (said draft.old) words.entry c → MatchResult result (λ _. said draft.new ≡ Some c) (λ e. e ≡ Refusal.Memory) }
    ensures nothing { says_something words.entry ≡ false → MatchResult result (λ _. said draft.new ≡ said draft.old) (λ e. e ≡ Refusal.Memory) }
    ensures known { says_something words.entry ≡ true → OnOk result (IsTaken ImageHeading ImageLine (is_some (said draft.old)) words.entry (is_some (said draft.new))) }
    ensures lines { OnOk result (numbers_read draft.new ≡ with_line (numbers_read draft.old) number words.entry) }
{
    let Some(first) = words.next() else {
        return Ok(());
    };
    if first.starts_with('#') {
        return Ok(());
    }
    begin_or_add(alloc, draft, number, first, words)
}

// The first line with words begins the draft.
fn begin_or_add(
    alloc: Global,
    draft: &mut Option<Draft>,
    number: u64,
    first: &str,
    words: Words<'_>,
) -> Result<(), Refusal>
    ensures says { (c : Content) → Tells (said draft.old) (first.now ∷ words.entry) c → MatchResult result (λ _. said draft.new ≡ Some c) (λ e. e ≡ Refusal.Memory) }
    ensures known { OnOk result (IsTaken ImageHeading ImageLine (is_some (said draft.old)) (first.now ∷ words.entry) (is_some (said draft.new))) }
    ensures lines { OnOk result (numbers_read draft.new ≡ with_line (numbers_read draft.old) number (first.now ∷ words.entry)) }
{
    match draft {
        Some(draft) => draft.add(first, words, number),
        None => {
            *draft = Some(begin(alloc, first, words, number)?);
            Ok(())
        }
    }
}

// heap W K N [roots R] [dirty D] [current none|C]
fn begin(alloc: Global, first: &str, mut words: Words<'_>, line: u64) -> Result<Draft, Refusal>
    ensures says { (c : Content) → BeginsShort (first.now ∷ words.entry) c → MatchResult result (λ d. content d ≡ c) (λ e. e ≡ Refusal.Memory) }
    ensures form { OnOk result (ImageHeading (first.now ∷ words.entry)) }
    ensures lines { IfOk result (λ d. numbers d ≡ with_line (numbers_read None) line (first.now ∷ words.entry)) }
{
    if first != "heap" {
        return Err(Refusal::Expected(Expected::Heading));
    }
    let told = sizes(&mut words)?;
    let (heading, current) = heading(words, line)?;
    let Ok(geometry) = Geometry::within(Limits::Wide, told.w, told.k, told.n) else {
        return Err(Refusal::Expected(Expected::Sizes));
    };
    within_limits(&geometry);
    Draft::new(alloc, geometry, current, heading)
}

// The sizes of a heap are within the bounds.
pub(crate) fn within_limits(geometry: &Geometry)
    ensures { IsWithinBounds geometry.now.w geometry.now.k geometry.now.n }
{
    let _ = geometry.region_words();
}

/// The words of a region and of a card, and the number of regions.
#[derive(Clone, Copy)]
pub(crate) struct HeapSizes {
    pub(crate) w: u64,
    pub(crate) k: u64,
    pub(crate) n: u64,
}

// W K N
pub(crate) fn sizes(words: &mut Words<'_>) -> Result<HeapSizes, Expected>
    ensures digits { IfOk result (λ s. HasFront (Single (Spells (2 ^ 64) s.w) ▸ Single (Spells (2 ^ 64) s.k) ▸ Single (Spells (2 ^ 64) s.n)) words.old words.new) }
    ensures full { (w k n : ℕ) (rest : List (List ℕ)) → HasFront (TellsSizes w k n) words.old rest → (result ≡ Ok (record { w = w; k = k; n = n })) × (words.new ≡ rest) }
    ensures other { IfErr result IsOther }
{
    let w = words.number("W")?;
    let k = words.number("K")?;
    let n = words.number("N")?;
    Ok(HeapSizes { w, k, n })
}

// [roots R] [dirty D] [current none|C]
fn heading(mut words: Words<'_>, line: u64) -> Result<(Heading, Option<u32>), Expected>
    ensures form { OnOk result ((Labelled (codes "roots") ▸ Labelled (codes "dirty") ▸ Current) words.entry) }
    ensures short { (roots dirty c : Option ℕ) → TellsBehind roots dirty c words.entry → result ≡ Ok (record { line = line; roots = roots; dirty = dirty }, c) }
    ensures line { IfOk result (λ p. p.0.line ≡ line) }
{
    let roots = words.take_named("roots")?;
    let dirty = words.take_named("dirty")?;
    let current = current(&mut words)?;
    words.end()?;
    let heading = Heading { line, roots, dirty };
    Ok((heading, current))
}

fn current(words: &mut Words<'_>) -> Result<Option<u32>, Expected>
    ensures form { OnOk result (HasFront Current words.old words.new) }
    ensures full { (c : Option ℕ) (word : List ℕ) → NamesRegion c word → words.old ≡ codes "current" ∷ word ∷ [] → (result ≡ Ok c) × (words.new ≡ []) }
    ensures absent { words.old ≡ [] → (result ≡ Ok None) × (words.new ≡ []) }
{
    if !words.take("current") {
        return Ok(None);
    }
    if words.take("none") {
        return Ok(None);
    }
    Ok(Some(words.short_number("current")?))
}

// The number that follows, where a line tells one.
pub(crate) fn follows(told: Option<u64>, what: &'static str, number: u64) -> Result<(), Expected>
    ensures { MatchResult result (λ _. IfSome told (λ t. t ≡ number)) (λ _. IfSome told (λ t. t ≡ number) → ⊥) }
{
    match told {
        Some(told) if told != number => Err(Expected::Follows(what, number)),
        _ => Ok(()),
    }
}

impl Draft {
    // Reads the words behind the first word of a line.
    fn add(&mut self, first: &str, words: Words<'_>, line: u64) -> Result<(), Refusal>
        ensures says { (l : Short) (c : Content) → IsShortLine l (first.now ∷ words.entry) → Gives (content self.old) l c → Becomes result (content self.new) c }
        ensures form { OnOk result (ImageLine (first.now ∷ words.entry)) }
        ensures lines { OnOk result (numbers self.new ≡ with_line (numbers self.old) line (first.now ∷ words.entry)) }
    {
        match first {
            "root" => self.add_root(words, line),
            "dirty" => self.add_dirty(words, line),
            "covered" => self.cover(words),
            "region" => self.add_region(words, line),
            "remembered" => self.add_remembered(words, line),
            "object" => self.add_object(words, line),
            _ => Err(Refusal::Expected(Expected::Line)),
        }
    }

    // root [NUMBER] REFERENCE
    fn add_root(&mut self, words: Words<'_>, line: u64) -> Result<(), Refusal>
        ensures form { OnOk result (RootLine (codes "root" ∷ words.entry)) }
        ensures short { (m : Option ℕ) (x : ℕ) (c : Content) → IsShortLine (RootAs m x) (codes "root" ∷ words.entry) → Gives (content self.old) (RootAs m x) c → Becomes result (content self.new) c }
        ensures lines { OnOk result (numbers self.new ≡ record (numbers self.old) { roots = (numbers self.old).roots ++ line ∷ [] }) }
    {
        let next = self.roots.len() as u64;
        let most = u64::from(MOST_ROOTS);
        if next >= most {
            return Err(Refusal::Expected(Expected::Roots(most)));
        }
        let reference = root(words, next)?;
        self.roots.push(reference)?;
        self.lines.roots.push(line)?;
        Ok(())
    }

    // dirty cards CARD ..
    fn add_dirty(&mut self, words: Words<'_>, line: u64) -> Result<(), Refusal>
        ensures form { OnOk result (DirtyLine (codes "dirty" ∷ words.entry)) }
        ensures short { (cards : List ℕ) (c : Content) → IsShortLine (DirtyAs cards) (codes "dirty" ∷ words.entry) → Takes (content self.old) (Dirty cards) c → Becomes result (content self.new) c }
        ensures lines { OnOk result (numbers self.new ≡ record (numbers self.old) { log = (numbers self.old).log ++ replicate (length words.entry - 1) line }) }
    {
        let count = (words.len() as u64).saturating_sub(1);
        add_cards(words, &mut self.log)?;
        add_lines(&mut self.lines.log, count, line)?;
        Ok(())
    }

    // covered
    fn cover(&mut self, words: Words<'_>) -> Result<(), Refusal>
        ensures form { OnOk result (CoveredLine (codes "covered" ∷ words.entry)) }
        ensures said { words.entry ≡ [] → (result ≡ Ok tt) × (content self.new ≡ record (content self.old) { covered = true }) }
        ensures lines { OnOk result (numbers self.new ≡ numbers self.old) }
    {
        words.end()?;
        self.covered = true;
        Ok(())
    }

    // remembered REGION cards CARD ..
    fn add_remembered(&mut self, mut words: Words<'_>, line: u64) -> Result<(), Refusal>
        ensures form { OnOk result (RememberedLine (codes "remembered" ∷ words.entry)) }
        ensures short { (r : ℕ) (cards : List ℕ) (c : Content) → IsShortLine (RememberedAs r cards) (codes "remembered" ∷ words.entry) → Takes (content self.old) (Remembered r cards) c → Becomes result (content self.new) c }
        ensures lines { OnOk result (numbers self.new ≡ record (numbers self.old) { remembered = (numbers self.old).remembered ++ (digits_value 10 (slice_index_or words.entry 0 []), line) ∷ [] }) }
    {
        let region = words.number("region")?;
        let last = self.geometry.regions().saturating_sub(1);
        let Some(set) = self.remembered.get_mut(region as usize) else {
            return Err(Refusal::Expected(Expected::Region(0, last)));
        };
        add_cards(words, set)?;
        self.lines.remembered.push((region, line))?;
        Ok(())
    }

    // region [NUMBER] KIND [top WORDS] [objects COUNT] [cards COUNT] [pinned]
    fn add_region(&mut self, mut words: Words<'_>, line: u64) -> Result<(), Refusal>
        ensures form { OnOk result (RegionLine (codes "region" ∷ words.entry)) }
        ensures short { (r : Option ℕ) (k : KindOf) (t o m : Option ℕ) (p : Bool) (c : Content) → IsShortLine (RegionAs r k t o m p) (codes "region" ∷ words.entry) → Gives (content self.old) (RegionAs r k t o m p) c → Becomes result (content self.new) c }
        ensures lines { OnOk result (numbers self.new ≡ record (numbers self.old) { regions = (numbers self.old).regions ++ line ∷ [] }) }
    {
        let told = words.take_number();
        let kind = region_kind(&mut words)?;
        let region = self.begin_region(told, kind)?;
        let told = read_counts(region, &mut words, line)?;
        let pinned = is_pinned(kind, words)?;
        set_pinned(&mut self.regions, pinned);
        self.lines.regions.push(told)?;
        Ok(())
    }

    // Adds a region of a kind, and those below it that no line has. Returns its number.
    fn begin_region(&mut self, told: Option<u64>, kind: Kind) -> Result<usize, Refusal>
        ensures skips { (on free : ℕ) (e : Content) → MaySkip told kind on free → Skips (content self.old) on free e → IsCount told (length e.regions) → length e.regions < self.old.geometry.n → MayFollow e kind → MatchResult result (λ r. (r ≡ length e.regions) × (content self.new ≡ with_region e kind)) (λ x. x ≡ Refusal.Memory) }
        ensures lines { OnOk result (numbers self.new ≡ numbers self.old) }
    {
        if kind.is_continuation() {
            return self.begin_continuation(told);
        }
        self.end_run()?;
        let region = self.region_number(told)?;
        self.free_up_to(region)?;
        self.add_empty(kind)?;
        Ok(region as usize)
    }

    // Adds a region in which the humongous object above it goes on, and those between them.
    fn begin_continuation(&mut self, told: Option<u64>) -> Result<usize, Refusal>
        ensures goes { (on : ℕ) (e : Content) → (told ≡ None → on ≡ 0) → GoesOn (content self.old) on e → IsCount told (length e.regions) → length e.regions < self.old.geometry.n → 0 < e.beyond → MatchResult result (λ r. (r ≡ length e.regions) × (content self.new ≡ with_region e Kind.Continuation)) (λ x. x ≡ Refusal.Memory) }
        ensures lines { OnOk result (numbers self.new ≡ numbers self.old) }
    {
        let number = self.region_number(told)?;
        self.continue_run_to(number)?;
        Ok(number as usize)
    }

    // The number of a region behind the last one: the next one, unless a line has another.
    fn region_number(&self, told: Option<u64>) -> Result<u64, Expected>
        ensures told { (r : ℕ) → told ≡ Some r → length (content self.now).regions ≤ r → r < self.now.geometry.n → result ≡ Ok r }
        ensures next { told ≡ None → length (content self.now).regions < self.now.geometry.n → result ≡ Ok (length (content self.now).regions) }
    {
        let next = self.regions.len() as u64;
        let number = told.unwrap_or(next);
        check_number(number, next, self.geometry.regions())?;
        Ok(number)
    }

    // object [ADDRESS] SIZE/SLOTS SLOT .. WORD .. [..]
    fn add_object(&mut self, mut words: Words<'_>, line: u64) -> Result<(), Refusal>
        ensures form { OnOk result (ObjectLine (codes "object" ∷ words.entry)) }
        ensures short { (at : Option ℕ) (slots values : List ℕ) (given : Option ℕ) (c : Content) → IsShortLine (ObjectAs at slots values given) (codes "object" ∷ words.entry) → Gives (content self.old) (ObjectAs at slots values given) c → Becomes result (content self.new) c }
        ensures lines { OnOk result (numbers self.new ≡ record (numbers self.old) { objects = (numbers self.old).objects ++ line ∷ [] }) }
    {
        let told = words.take_number();
        let (size, slots) = size(&mut words)?;
        let at = self.next_address();
        follows(told, "object", at)?;
        self.take_room(size)?;
        self.objects.push(Placed {
            at,
            slots,
            place: self.words.len(),
            line,
        })?;
        count_object(&mut self.lines.regions);
        self.words.push(header_word(size, slots))?;
        let data = size.saturating_sub(slots).saturating_sub(1);
        add_content(words, &mut self.words, slots, data)
    }
}

// A line's number for each card that it has.
fn add_lines(lines: &mut Vec<u64>, count: u64, line: u64) -> Result<(), AllocError>
    ensures { OnOk result (lines.new.items ≡ lines.old.items ++ replicate count line) }
{
    for _ in 0..count {
        lines.push(line)?;
    }
    Ok(())
}

// Whether the last region is pinned.
fn set_pinned(regions: &mut Vec<Region>, pinned: bool)
    ensures { (below : List RegionOf) (q : RegionOf) → regions.old.items ≡ below ++ q ∷ [] → regions.new.items ≡ below ++ record q { pinned = pinned } ∷ [] }
{
    if let Some(last) = regions.last_mut() {
        last.pinned = pinned;
    }
}

// An object more in the last region that has a line.
fn count_object(regions: &mut Vec<Told>)
    ensures counts { (earlier : List Counts) (last : Counts) → map counts_of regions.old.items ≡ earlier ++ last ∷ [] → last.found + 1 < 2 ^ 64 → map counts_of regions.new.items ≡ earlier ++ one_found last ∷ [] }
    ensures lines { map line_of_region regions.new.items ≡ map line_of_region regions.old.items }
{
    if let Some(last) = regions.last_mut() {
        last.found = last.found.saturating_add(1);
    }
}

// Two dots at the end stand for null slots and data words of 0.
fn add_content(
    mut words: Words<'_>,
    content: &mut Vec<u64>,
    slots: u64,
    count: u64,
) -> Result<(), Refusal>
    ensures form { slots + count < 2 ^ 64 → OnOk result (Holding IsReferenceWord slots count words.entry) }
    ensures short { (refs values : List ℕ) (given : Option ℕ) → slots ≡ length refs → count ≡ length values → slots + count < 2 ^ 64 → IsZeroFrom given (refs ++ values) → TellsContent refs values given words.entry → MatchResult result (λ _. content.new.items ≡ content.old.items ++ (refs ++ values)) (λ e. e ≡ Refusal.Memory) }
{
    let (given, missing) = given_words(&mut words, slots, count)?;
    let references = slots.min(given);
    add_references(&mut words, content, references)?;
    add_data(&mut words, content, given - references)?;
    add_zeros(content, missing)?;
    Ok(())
}

// How many slots and data words a line gives, and how many its two dots stand for.
pub(crate) fn given_words(
    words: &mut Words<'_>,
    slots: u64,
    count: u64,
) -> Result<(u64, u64), Expected>
    ensures form { slots + count < 2 ^ 64 → IfOk result (λ p. (p.0 ≡ length words.new) × (p.0 + p.1 ≡ slots + count) × (((p.1 ≡ 0) × (words.old ≡ words.new)) ⊎ (words.old ≡ words.new ++ codes ".." ∷ []))) }
    ensures open { (words.old ≡ words.new ++ codes ".." ∷ []) ⊎ ((words.old ≡ words.new) × ((front : List (List ℕ)) → words.old ≢ front ++ codes ".." ∷ [])) }
    ensures refused { slots + count < 2 ^ 64 → IfErr result (λ _. (slots + count < length words.new) ⊎ ((words.old ≡ words.new) × (length words.new ≢ slots + count))) }
    ensures other { IfErr result IsOther }
{
    let whole = slots.saturating_add(count);
    let open = words.take_last("..");
    let given = words.len() as u64;
    if given == whole {
        return Ok((whole, 0));
    }
    if given > whole || !open {
        return Err(Expected::Content(slots, count));
    }
    Ok((given, whole - given))
}

fn add_references(words: &mut Words<'_>, content: &mut Vec<u64>, count: u64) -> Result<(), Refusal>
    ensures form { OnOk result (HasFront (Many IsReferenceWord count) words.old words.new) }
    ensures full { (xs : List ℕ) (front rest : List (List ℕ)) → count ≡ length xs → AllZip Denotes xs front → words.old ≡ front ++ rest → MatchResult result (λ _. (words.new ≡ rest) × (content.new.items ≡ content.old.items ++ xs)) (λ e. e ≡ Refusal.Memory) }
{
    for _ in 0..count {
        let reference = words.reference()?;
        content.push(reference)?;
    }
    Ok(())
}

pub(crate) fn add_data(
    words: &mut Words<'_>,
    content: &mut Vec<u64>,
    count: u64,
) -> Result<(), Refusal>
    ensures form { OnOk result (HasFront (Many IsDataWord count) words.old words.new) }
    ensures stands { OnOk result ((xs : List ℕ) × HasValues count xs words.old words.new × (content.new.items ≡ content.old.items ++ xs)) }
    ensures full { (xs : List ℕ) (front rest : List (List ℕ)) → count ≡ length xs → AllZip StandsFor xs front → words.old ≡ front ++ rest → MatchResult result (λ _. (words.new ≡ rest) × (content.new.items ≡ content.old.items ++ xs)) (λ e. e ≡ Refusal.Memory) }
{
    for _ in 0..count {
        let word = words.value()?;
        content.push(word)?;
    }
    Ok(())
}

pub(crate) fn add_zeros(content: &mut Vec<u64>, count: u64) -> Result<(), AllocError>
    ensures { OnOk result (content.new.items ≡ content.old.items ++ replicate count 0) }
{
    for _ in 0..count {
        content.push(0)?;
    }
    Ok(())
}

// [NUMBER] REFERENCE
fn root(mut words: Words<'_>, next: u64) -> Result<u64, Expected>
    ensures form { OnOk result ((Maybe Number ▸ Single IsReferenceWord) words.entry) }
    ensures short { (m : Option ℕ) (x : ℕ) → IsCount m next → (TellsNumber m ▸ Single (Denotes x)) words.entry → result ≡ Ok x }
{
    if words.len() > 1 {
        let told = words.take_number();
        follows(told, "root", next)?;
    }
    let reference = words.reference()?;
    words.end()?;
    Ok(reference)
}

// cards CARD ..
fn add_cards(mut words: Words<'_>, cards: &mut Vec<u32>) -> Result<(), Refusal>
    ensures form { OnOk result (Cards words.entry) }
    ensures short { (xs : List ℕ) → TellsCards xs words.entry → MatchResult result (λ _. cards.new.items ≡ cards.old.items ++ xs) (λ e. e ≡ Refusal.Memory) }
{
    words.word("cards")?;
    for _ in 0..words.len() {
        let card = words.short_number("card")?;
        cards.push(card)?;
    }
    Ok(())
}

// [top WORDS] [objects COUNT] [cards COUNT]
fn read_counts(region: usize, words: &mut Words<'_>, line: u64) -> Result<Told, Expected>
    ensures form { OnOk result (HasFront (Labelled (codes "top") ▸ Labelled (codes "objects") ▸ Labelled (codes "cards")) words.old words.new) }
    ensures short { (top objects cards : Option ℕ) (p : Bool) → HasFront (TellsCounts top objects cards) words.old (pinned_words p) → (result ≡ Ok (record { line = line; region = region; top = top; objects = objects; cards = cards; found = 0 })) × (words.new ≡ pinned_words p) }
    ensures line { IfOk result (λ t. t.line ≡ line) }
{
    let top = words.take_named("top")?;
    let objects = words.take_named("objects")?;
    let cards = words.take_named("cards")?;
    Ok(Told {
        line,
        region,
        top,
        objects,
        cards,
        found: 0,
    })
}

// SIZE/SLOTS
fn size(words: &mut Words<'_>) -> Result<(u64, u64), Expected>
    ensures within { IfOk result (λ p. p.1 < p.0) }
    ensures form { IfOk result (λ p. HasFirst (HasSize p.0 p.1) words.old words.new) }
    ensures full { (size slots : ℕ) (word : List ℕ) (rest : List (List ℕ)) → slots < size → HasSize size slots word → words.old ≡ word ∷ rest → (result ≡ Ok (size, slots)) × (words.new ≡ rest) }
{
    let Some(word) = words.next() else {
        return Err(Expected::Size);
    };
    match size_and_slots(word) {
        Some((size, slots)) if slots < size => Ok((size, slots)),
        _ => Err(Expected::Size),
    }
}

// [pinned]
fn is_pinned(kind: Kind, mut words: Words<'_>) -> Result<bool, Expected>
    ensures form { OnOk result (Pinned kind words.entry) }
    ensures full { (p : Bool) → (IsTrue p → kind ≡ Kind.Ordinary) → words.entry ≡ pinned_words p → result ≡ Ok p }
{
    let pinned = kind.is_ordinary() && words.take("pinned");
    words.end()?;
    Ok(pinned)
}

// A region's number is at least the next one, and below the count of regions.
fn check_number(number: u64, next: u64, regions: u64) -> Result<(), Expected>
    ensures { next ≤ number → number < regions → result ≡ Ok tt }
{
    if next >= regions {
        Err(Expected::NoRegion)
    } else if number < next || number >= regions {
        Err(Expected::Region(next, regions - 1))
    } else {
        Ok(())
    }
}

// KIND
fn region_kind(words: &mut Words<'_>) -> Result<Kind, Expected>
    ensures form { IfOk result (λ k. words.old ≡ kind_word k ∷ words.new) }
    ensures full { (k : KindOf) (rest : List (List ℕ)) → words.old ≡ kind_word k ∷ rest → (result ≡ Ok k) × (words.new ≡ rest) }
{
    let Some(word) = words.next() else {
        return Err(Expected::Kind);
    };
    match word {
        "free" => Ok(Kind::Free),
        "ordinary" => Ok(Kind::Ordinary),
        "humongous" => Ok(Kind::HumongousFirst),
        "continuation" => Ok(Kind::Continuation),
        _ => Err(Expected::Kind),
    }
}
