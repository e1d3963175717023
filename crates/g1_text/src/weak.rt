//! Weak references in lines of objects by name: each is read as if it were an ordinary reference, or null.
ghost use Rattle.std.specs.Prelude.{◌≡◌, ◌+◌, ◌<◌, ◌≤◌, ℕ, List, [], ◌∷◌, ◌++◌, true, false, cond, length, map, take, codes, All, Contains, IsUtf8, IfOk, IfSome, OnOk, MatchOption};
ghost use Rattle.std.specs.List.{AllZip, list_any, join_with_byte};
ghost use Rattle.std.specs.Vec.{vec_len};
ghost use Rattle.std.specs.HashMap.{hash_map_len};
ghost use Rattle.g1_text.specs.Reading.{words_in, parts_of};
ghost use Rattle.g1_text.specs.Weak.{HasSlots, slots_in, behind_slots, content_of, is_weak, plain_slot, line_of, IsWordFor, IsReadAs, IsStrong, IsWithoutWeak};
ghost use Rattle.g1_text.specs.Marking.{slot_of, slots_of, texts, AreCut, IsKnown, IsFound, StayMarked, HasStrong, has_name, kept_line, spaced};

use crate::reading::first_line;
use crate::words::{cut_words, size_and_slots};
use memchr::memmem;
use std::alloc::{AllocError, Global};
use std::collections::{HashMap, HashSet};
use std::str;

/// The lines as they are read: each weak reference is an ordinary one if its target is strong, and null else.
/// `None` if the text stays as it is: `weak` is nowhere in it, or a line is not UTF-8.
pub fn without_weak(alloc: Global, text: &[u8]) -> Result<Option<Vec<u8>>, AllocError>
    ensures { IfOk result (λ r. MatchOption r (IsWithoutWeak text.now text.now) (λ v. IsWithoutWeak text.now v.items)) }
{
    if memmem::find(text, b"weak").is_none() {
        return Ok(None);
    }
    let Some(known) = read_names(alloc, text)? else {
        return Ok(None);
    };
    let strong = strong_names(alloc, known)?;
    let out = write_lines(alloc, text, &strong)?;
    Ok(out)
}

/// What the lines say of names.
#[derive(Drop)]
pub(crate) struct Known<'a> {
    roots: Vec<&'a str>,
    /// The first line of each object.
    objects: HashMap<&'a str, &'a str>,
}

// `None` if a line is not UTF-8.
fn read_names<'a>(alloc: Global, text: &'a [u8]) -> Result<Option<Known<'a>>, AllocError>
    ensures utf8 { IfOk result (λ r. MatchOption r (All IsUtf8 (parts_of text.now) → ⊥) (λ _. All IsUtf8 (parts_of text.now))) }
    ensures known { IfOk result (λ r. IfSome r (IsKnown (map words_in (parts_of text.now)))) }
{
    let mut known = Known {
        roots: Vec::new(alloc),
        objects: HashMap::new(alloc),
    };
    let mut words = Vec::new(alloc);
    let mut rest = Some(text);
    'lines: while let Some(left) = rest {
        let (line, behind) = first_line(left);
        let Ok(line) = str::from_utf8(line) else {
            return Ok(None);
        };
        known.add(&mut words, line)?;
        rest = behind;
    }
    Ok(Some(known))
}

impl<'a> Known<'a> {
    fn add(&mut self, words: &mut Vec<&'a str>, line: &'a str) -> Result<(), AllocError>
        ensures { (lines : List (List (List ℕ))) → IsKnown lines self.old → OnOk result (IsKnown (lines ++ words_in line.now ∷ []) self.new) }
    {
        cut_words(words, line)?;
        let Some((kind, behind)) = words.as_slice().split_first() else {
            return Ok(());
        };
        let Some((name, _)) = behind.split_first() else {
            return Ok(());
        };
        if *kind == "root" {
            self.roots.push(*name)?;
            return Ok(());
        }
        if *kind == "object" {
            self.keep(*name, line)?;
            return Ok(());
        }
        Ok(())
    }

    // The first line of an object is kept.
    fn keep(&mut self, name: &'a str, line: &'a str) -> Result<(), AllocError>
        ensures roots { self.new.roots ≡ self.old.roots }
        ensures objects { (lines : List (List (List ℕ))) (words : List (List ℕ)) → words_in line.now ≡ codes "object" ∷ name.now ∷ words → ((query : List ℕ) → kept_line self.old.objects query ≡ line_of query lines) → OnOk result ((query : List ℕ) → kept_line self.new.objects query ≡ line_of query (lines ++ words_in line.now ∷ [])) }
    {
        if !self.objects.contains_key(name) {
            self.objects.insert(name, line)?;
        }
        Ok(())
    }
}

/// The strong names that are known, on the way to all of them.
#[derive(Drop)]
pub(crate) struct Marking<'a> {
    strong: HashSet<&'a str>,
    /// The lines of the other objects.
    objects: HashMap<&'a str, &'a str>,
    /// The lines of objects with strong names whose slots are still to be read.
    unread: Vec<&'a str>,
}

// All strong names: those of the roots, and those of the slots of each object that is found.
fn strong_names<'a>(alloc: Global, known: Known<'a>) -> Result<HashSet<&'a str>, AllocError>
    ensures { (lines : List (List (List ℕ))) → IsKnown lines known.entry → IfOk result (HasStrong lines) }
{
    let Known { roots, objects } = known;
    let mut marking = Marking {
        strong: HashSet::new(alloc),
        objects,
        unread: Vec::new(alloc),
    };
    marking.mark_roots(roots.as_slice())?;
    marking.follow(alloc)?;
    let Marking { strong, .. } = marking;
    Ok(strong)
}

impl<'a> Marking<'a> {
    fn mark_roots(&mut self, roots: &[&'a str]) -> Result<(), AllocError>
        ensures found { (lines : List (List (List ℕ))) → All (IsStrong lines) (texts roots.now) → IsFound lines [] self.old → OnOk result (IsFound lines [] self.new) }
        ensures marked { OnOk result (All (λ name. has_name self.new.strong name ≡ true) (texts roots.now)) }
    {
        'roots: for root in roots {
            self.mark(*root)?;
        }
        Ok(())
    }

    // Reads the slots of the objects that are found, until none is left.
    fn follow(&mut self, alloc: Global) -> Result<(), AllocError>
        ensures found { (lines : List (List (List ℕ))) → IsFound lines [] self.old → OnOk result (IsFound lines [] self.new) }
        ensures done { OnOk result (self.new.unread.items ≡ []) }
        ensures stay { OnOk result (StayMarked self.old self.new) }
    {
        let mut words = Vec::new(alloc);
        let mut targets = Vec::new(alloc);
        'lines: while let Some(line) = self.unread.pop() {
            cut_words(&mut words, line)?;
            cut_slots(&mut targets, words.as_slice())?;
            self.mark_targets(targets.as_slice())?;
        }
        Ok(())
    }

    // The targets of slots are strong, those of weak ones aside.
    fn mark_targets(&mut self, targets: &[Target<'a>]) -> Result<(), AllocError>
        ensures found { (lines hand : List (List (List ℕ))) → ((name : List ℕ) → Contains (slots_of targets.now) (plain_slot name) → IsStrong lines name) → IsFound lines hand self.old → OnOk result (IsFound lines hand self.new) }
        ensures marked { OnOk result ((name : List ℕ) → Contains (slots_of targets.now) (plain_slot name) → has_name self.new.strong name ≡ true) }
        ensures stay { OnOk result (StayMarked self.old self.new) }
        ensures fewer { OnOk result (hash_map_len self.new.objects + vec_len self.new.unread ≡ hash_map_len self.old.objects + vec_len self.old.unread) }
    {
        'targets: for target in targets {
            self.mark_target(*target)?;
        }
        Ok(())
    }

    fn mark_target(&mut self, target: Target<'a>) -> Result<(), AllocError>
        ensures found { (lines hand : List (List (List ℕ))) → (target.entry.weak ≡ false → IsStrong lines target.entry.word.now) → IsFound lines hand self.old → OnOk result (IsFound lines hand self.new) }
        ensures marked { target.entry.weak ≡ false → OnOk result (has_name self.new.strong target.entry.word.now ≡ true) }
        ensures stay { OnOk result (StayMarked self.old self.new) }
        ensures fewer { OnOk result (hash_map_len self.new.objects + vec_len self.new.unread ≡ hash_map_len self.old.objects + vec_len self.old.unread) }
    {
        if target.weak {
            return Ok(());
        }
        self.mark(target.word)
    }

    // A name is strong, and the slots of its object are to be read if they were not yet.
    fn mark(&mut self, name: &'a str) -> Result<(), AllocError>
        ensures found { (lines hand : List (List (List ℕ))) → IsStrong lines name.now → IsFound lines hand self.old → OnOk result (IsFound lines hand self.new) }
        ensures marked { OnOk result (has_name self.new.strong name.now ≡ true) }
        ensures stay { OnOk result (StayMarked self.old self.new) }
        ensures fewer { OnOk result (hash_map_len self.new.objects + vec_len self.new.unread ≡ hash_map_len self.old.objects + vec_len self.old.unread) }
    {
        self.strong.insert(name)?;
        if let Some(line) = self.objects.remove(name) {
            self.unread.push(line)?;
        }
        Ok(())
    }
}

/// The word of a slot's target, and whether `weak` stands in front of it.
#[derive(Clone, Copy)]
pub(crate) struct Target<'a> {
    weak: bool,
    word: &'a str,
}

// Puts the slots of a line into a list, instead of those that are there, and gives the words behind them.
fn cut_slots<'w, 'a>(
    targets: &mut Vec<Target<'a>>,
    words: &'w [&'a str],
) -> Result<&'w [&'a str], AllocError>
    ensures { IfOk result (λ behind. AreCut (texts words.now) (slots_of targets.new.items) (texts behind.now)) }
{
    targets.clear();
    let mut left = slots_said(words);
    let (_, mut rest) = split_head(words);
    'slots: while left > 0 {
        let Some((target, behind)) = first_slot(rest) else {
            break;
        };
        targets.push(target)?;
        rest = behind;
        left -= 1;
    }
    Ok(rest)
}

// How many slots a line says that it has.
fn slots_said(words: &[&str]) -> u64
    ensures { HasSlots (texts words.now) result }
{
    let Some((kind, behind)) = words.split_first() else {
        return 0;
    };
    let Some((_, behind)) = behind.split_first() else {
        return 0;
    };
    match behind.split_first() {
        Some((size, _)) if *kind == "object" => match size_and_slots(size) {
            Some((_, slots)) => slots,
            None => 0,
        },
        _ => 0,
    }
}

// The words `object NAME SIZE/SLOTS`, and those behind them.
fn split_head<'w, 'a>(words: &'w [&'a str]) -> (&'w [&'a str], &'w [&'a str])
    ensures head { texts result.0.now ≡ take 3 (texts words.now) }
    ensures content { texts result.1.now ≡ content_of (texts words.now) }
{
    words.split_at(words.len().min(3))
}

// The first slot, and the words behind it.
fn first_slot<'w, 'a>(words: &'w [&'a str]) -> Option<(Target<'a>, &'w [&'a str])>
    ensures none { MatchOption result (words.now ≡ []) (λ _. 0 < length words.now) }
    ensures slots { IfSome result (λ r. (n : ℕ) → slots_in (n + 1) (texts words.now) ≡ slot_of r.0 ∷ slots_in n (texts r.1.now)) }
    ensures behind { IfSome result (λ r. (n : ℕ) → behind_slots (n + 1) (texts words.now) ≡ behind_slots n (texts r.1.now)) }
{
    let (first, behind) = words.split_first()?;
    match behind.split_first() {
        Some((second, rest)) if *first == "weak" && *second != ".." => Some((
            Target {
                weak: true,
                word: *second,
            },
            rest,
        )),
        _ => Some((
            Target {
                weak: false,
                word: *first,
            },
            behind,
        )),
    }
}

// The lines as they are read. `None` if one is not UTF-8.
fn write_lines(
    alloc: Global,
    text: &[u8],
    strong: &HashSet<&str>,
) -> Result<Option<Vec<u8>>, AllocError>
    ensures utf8 { IfOk result (λ r. MatchOption r (All IsUtf8 (parts_of text.now) → ⊥) (λ _. All IsUtf8 (parts_of text.now))) }
    ensures lines { (lines : List (List (List ℕ))) → HasStrong lines strong.now → IfOk result (λ r. IfSome r (λ v. (parts : List (List ℕ)) × AllZip (IsReadAs (IsStrong lines)) (parts_of text.now) parts × (v.items ≡ join_with_byte 10 parts))) }
{
    let mut out = Vec::with_capacity(alloc, text.len())?;
    let mut words = Vec::new(alloc);
    let mut targets = Vec::new(alloc);
    let mut rest = Some(text);
    'lines: while let Some(left) = rest {
        let (line, behind) = first_line(left);
        let Ok(line) = str::from_utf8(line) else {
            return Ok(None);
        };
        write_line(&mut out, &mut words, &mut targets, strong, line)?;
        end_line(&mut out, behind.is_some())?;
        rest = behind;
    }
    Ok(Some(out))
}

// Another line follows a line's end.
fn end_line(out: &mut Vec<u8>, more: bool) -> Result<(), AllocError>
    ensures { OnOk result (out.new.items ≡ out.old.items ++ cond more (10 ∷ []) []) }
{
    if !more {
        return Ok(());
    }
    out.push(b'\n')?;
    Ok(())
}

// A line as it is read.
fn write_line<'a>(
    out: &mut Vec<u8>,
    words: &mut Vec<&'a str>,
    targets: &mut Vec<Target<'a>>,
    strong: &HashSet<&str>,
    line: &'a str,
) -> Result<(), AllocError>
    ensures { (lines : List (List (List ℕ))) → HasStrong lines strong.now → OnOk result ((other : List ℕ) × IsReadAs (IsStrong lines) line.now other × (out.new.items ≡ out.old.items ++ other)) }
{
    cut_words(words, line)?;
    let others = cut_slots(targets, words.as_slice())?;
    if !has_weak(targets.as_slice()) {
        out.extend_from_slice(line.as_bytes())?;
        return Ok(());
    }
    let (head, _) = split_head(words.as_slice());
    let Some((first, head)) = head.split_first() else {
        return Ok(());
    };
    out.extend_from_slice(first.as_bytes())?;
    push_words(out, head)?;
    push_targets(out, strong, targets.as_slice())?;
    push_words(out, others)?;
    Ok(())
}

fn has_weak(targets: &[Target<'_>]) -> bool
    ensures { result ≡ list_any is_weak (slots_of targets.now) }
{
    for target in targets {
        if target.weak {
            return true;
        }
    }
    false
}

// Each word behind a space.
fn push_words(out: &mut Vec<u8>, words: &[&str]) -> Result<(), AllocError>
    ensures { OnOk result (out.new.items ≡ out.old.items ++ spaced (texts words.now)) }
{
    for word in words {
        push_word(out, *word)?;
    }
    Ok(())
}

fn push_word(out: &mut Vec<u8>, word: &str) -> Result<(), AllocError>
    ensures { OnOk result (out.new.items ≡ out.old.items ++ 32 ∷ word.now) }
{
    out.push(b' ')?;
    out.extend_from_slice(word.as_bytes())
}

// The word for each slot, behind a space.
fn push_targets(
    out: &mut Vec<u8>,
    strong: &HashSet<&str>,
    targets: &[Target<'_>],
) -> Result<(), AllocError>
    ensures { (lines : List (List (List ℕ))) → HasStrong lines strong.now → OnOk result ((words : List (List ℕ)) × AllZip (IsWordFor (IsStrong lines)) (slots_of targets.now) words × (out.new.items ≡ out.old.items ++ spaced words)) }
{
    for target in targets {
        push_word(out, word_for(strong, *target))?;
    }
    Ok(())
}

// The word for a slot: null for a weak reference whose target is not strong.
fn word_for<'a>(strong: &HashSet<&str>, target: Target<'a>) -> &'a str
    ensures { (lines : List (List (List ℕ))) → HasStrong lines strong.now → IsWordFor (IsStrong lines) (slot_of target.entry) result.now }
{
    if target.weak && !strong.contains(target.word) {
        "-"
    } else {
        target.word
    }
}
