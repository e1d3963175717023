//! The heaps that are compared: those of images, or of lines of objects by name.
ghost use Rattle.std.specs.Prelude.{◌≡◌, ℕ, List, [], ◌∷◌, ◌++◌, Option, Some, None, IfOk, IfErr, IfSome, IfNone, OnOk};
ghost use Rattle.g1_report.specs.Answer.{CountsFrom, IsByNumber, IsInOrder, stale_names};
ghost use Rattle.g1_report.specs.Opened.{HasNames, IsNoText, IsStale, ShowsText};
ghost use Rattle.g1_report.specs.Shared.{HasTwoTexts, IsAnother, IsLeastOf, SharesTexts};
ghost use Rattle.g1_report.specs.Wording.{Called, name_of};

use crate::comparing::Labels;
use g1_image::{Image, Stale, decode_within};
use g1_text::{Graph, Wrong, read_graph};
use g1_words::{Fault, Limits};
use std::alloc::{AllocError, Global};
use std::collections::HashMap;

/// A heap that is compared, and what its objects are called.
#[derive(Drop)]
pub struct Side<'a> {
    pub image: Image,
    /// The address and the name of each object, rising, if the objects have names.
    pub labels: Option<Vec<(u64, &'a str)>>,
    /// The numbers of the roots of which lines say what holds them, rising, and what that is called.
    pub holders: Vec<(u64, &'a str)>,
    /// The texts that data words stand for, with their quotes.
    pub texts: HashMap<u64, &'a str>,
    pub stale: Option<Strays<'a>>,
}

impl<'a> Side<'a> {
    ghost use Rattle.std.specs.Prelude.{◌≡◌, IfSome};
    ghost use Rattle.g1_report.specs.Program.{labels_told, RiseByNumber};
    ghost use Rattle.g1_report.specs.Answer.{labels_of, IsInOrder};
    ghost use Rattle.g1_report.specs.Given.{listed};

    /// The addresses and the names of the objects, if they have names.
    pub fn labels(&self) -> Labels<'_>
        ensures value { listed result ≡ labels_of self.now }
        ensures in_order { IsInOrder self.now → IfSome (labels_told result) RiseByNumber }
    {
        match &self.labels {
            Some(labels) => Some(labels.as_slice()),
            None => None,
        }
    }
}

/// Two texts of two heaps that can't be told apart, since one word stands for both: those of the least word.
pub fn shared_text<'a>(before: &'a Side<'_>, after: &'a Side<'_>) -> Option<(&'a str, &'a str)>
    ensures some { IfSome result (λ r. (word : ℕ) × HasTwoTexts before.now after.now word r.0.now r.1.now) }
    ensures none { IfNone result (SharesTexts before.now after.now → ⊥) }
{
    let mut least = None;
    for (word, other) in after.texts.iter() {
        least = least_with(least, &before.texts, *word, other);
    }
    match least {
        Some(Shared { text, other, .. }) => Some((text, other)),
        None => None,
    }
}

// A word, and two texts that it stands for: one before, and another one after.
#[derive(Clone, Copy)]
struct Shared<'a> {
    word: u64,
    text: &'a str,
    other: &'a str,
}

// The same with a word more, if it stands for another text before: the least word stays.
fn least_with<'a>(
    least: Option<Shared<'a>>,
    before: &'a HashMap<u64, &str>,
    word: u64,
    other: &'a str,
) -> Option<Shared<'a>>
    ensures { (passed : Called) → IsLeastOf before.now.entries passed least.entry → IsLeastOf before.now.entries (passed ++ (word, other.entry) ∷ []) result }
{
    let Some(text) = another_text(before, word, other) else {
        return least;
    };
    match least {
        Some(shared) if shared.word <= word => least,
        _ => Some(Shared { word, text, other }),
    }
}

// The text that stands for the word, if it is another one than this.
fn another_text<'a>(texts: &'a HashMap<u64, &str>, word: u64, other: &str) -> Option<&'a str>
    ensures some { IfSome result (λ text. IsAnother texts.now.entries word text.now other.now) }
    ensures none { IfNone result ((text : List ℕ) → name_of texts.now.entries word ≡ Some text → text ≡ other.now) }
{
    match texts.get(&word) {
        Some(text) if *text != other => Some(*text),
        _ => None,
    }
}

/// The words that reference no object, and what is wrong with them where they are not reported.
#[derive(Drop)]
pub struct Strays<'a> {
    pub words: Stale,
    /// The words that stand for names, rising, and these names. They are none if the words are the file's own.
    pub names: Vec<(u64, &'a str)>,
    pub wrong: Wrong,
}

/// The side of an image.
pub fn open_image<'a>(alloc: Global, image: Image) -> Side<'a>
    ensures image { result.image ≡ image }
    ensures labels { result.labels ≡ None }
    ensures texts { result.texts.entries ≡ [] }
    ensures stale { result.stale ≡ None }
    ensures in_order { IsInOrder result }
{
    Side {
        image,
        labels: None,
        holders: Vec::new(alloc),
        texts: HashMap::new(alloc),
        stale: None,
    }
}

/// The side of an image that has stale words, which are null in it, and this fault with them.
pub fn open_stale<'a>(alloc: Global, image: Image, words: Stale, fault: Fault) -> Side<'a>
    ensures image { result.image ≡ image }
    ensures labels { result.labels ≡ None }
    ensures texts { result.texts.entries ≡ [] }
    ensures stale { IsStale words fault result.stale }
    ensures in_order { IsInOrder result }
{
    let mut side = open_image(alloc, image);
    side.stale = Some(Strays {
        words,
        names: Vec::new(alloc),
        wrong: Wrong::Fault(fault),
    });
    side
}

/// The side of lines. Lines with names that no object has are an image once these names are null.
///
/// # Errors
///
/// The first line that is not what is expected there, or the fault of the image of the lines.
pub fn open_lines<'a>(alloc: Global, lines: &'a [u8]) -> Result<Side<'a>, Wrong>
    ensures shows { IfOk result (ShowsText lines.now) }
    ensures labels { IfOk result HasNames }
    ensures in_order { IfOk result IsInOrder }
    ensures no_text { IfErr result (IsNoText lines.now) }
{
    let graph = read_graph(alloc, lines)?;
    let image = match decode_within(alloc, Limits::Wide, graph.text.as_slice()) {
        Ok(image) => image,
        Err(fault) => return Err(Wrong::Fault(fault)),
    };
    let stale = strays_in(alloc, &graph)?;
    let Graph {
        names,
        root_names,
        texts,
        ..
    } = graph;
    Ok(Side {
        image,
        labels: Some(names),
        holders: root_names,
        texts,
        stale,
    })
}

fn strays_in<'a>(alloc: Global, graph: &Graph<'a>) -> Result<Option<Strays<'a>>, AllocError>
    ensures in_order { IfOk result (λ stale. IfSome (stale_names stale) IsByNumber) }
    ensures none { IfOk result (λ stale. stale ≡ None → graph.now.first_stale ≡ None) }
{
    let Some((number, expected)) = graph.first_stale else {
        return Ok(None);
    };
    let mut names = Vec::new(alloc);
    let mut words = Stale {
        roots: Vec::new(alloc),
        slots: Vec::new(alloc),
    };
    add_strays(&mut names, &mut words.roots, graph.stale_roots.as_slice())?;
    add_strays(&mut names, &mut words.slots, graph.stale_slots.as_slice())?;
    Ok(Some(Strays {
        words,
        names,
        wrong: Wrong::Line { number, expected },
    }))
}

// Adds the places of stale words, each with the word that stands for its name, which is added to the names.
fn add_strays<'a>(
    names: &mut Vec<(u64, &'a str)>,
    words: &mut Vec<(u64, u64)>,
    stale: &[(u64, &'a str)],
) -> Result<(), AllocError>
    ensures { CountsFrom 0 names.old.items → OnOk result (CountsFrom 0 names.new.items) }
{
    for (place, name) in stale {
        let word = names.len() as u64;
        names.push((word, *name))?;
        words.push((*place, word))?;
    }
    Ok(())
}
