//! What keeps an object, and its lines: a path from a root or from a card, or that the object is garbage.
ghost use Rattle.std.specs.Prelude.{◌≡◌, ◌++◌, ◌∷◌, List, [], map, flat_map, codes, decimal, string_bytes, OnOk};
ghost use Rattle.g1_words.specs.Heap.{region_of};
ghost use Rattle.g1_words.specs.Lists.{has};
ghost use Rattle.g1_image.specs.Image.{remembered_of};
ghost use Rattle.g1_text.specs.Lines.{line_text, text_of};
ghost use Rattle.g1_explain.specs.Lines.{step_words, path_line, leg_line, card_line, holder_line, pin_lines, reason_lines};

use crate::finder::{Finder, push_found, push_object};
use g1_image::Image;
use g1_words::{Heap, Object, pinned, region_of};
use std::alloc::AllocError;

/// An object on a path, and what leads to it.
#[derive(Clone, Copy)]
pub(crate) struct Leg {
    pub(crate) object: Object,
    pub(crate) finder: Finder,
}

/// A slot from which a path leads in: its address, its card, and the object that holds it.
#[derive(Clone, Copy)]
pub(crate) struct Entry {
    pub(crate) card: u32,
    pub(crate) slot: u64,
    pub(crate) holder: Object,
}

/// What keeps an object.
#[derive(Drop)]
pub(crate) enum Reason {
    /// The first path from a root.
    Live(Vec<Leg>),
    /// No root leads there. The first path from a slot outside the object's region, with that slot.
    Kept(Entry, Vec<Leg>),
    /// Nothing.
    Garbage,
}

/// Adds the lines of what keeps the object at an address.
pub(crate) fn push_reason(
    text: &mut String,
    image: &Image,
    at: u64,
    reason: &Reason,
) -> Result<(), AllocError>
    ensures { OnOk result (string_bytes text.new ≡ string_bytes text.old ++ text_of (reason_lines image.now at reason.now)) }
{
    match reason {
        Reason::Live(path) => push_live(text, at, path),
        Reason::Kept(entry, path) => push_kept(text, image, at, entry, path),
        Reason::Garbage => push_garbage(text, image, at),
    }
}

fn push_live(text: &mut String, at: u64, path: &[Leg]) -> Result<(), AllocError>
    ensures { OnOk result (string_bytes text.new ≡ string_bytes text.old ++ text_of (path_line (codes "live") at path.now ∷ map leg_line path.now)) }
{
    push_path_line(text, "live", at, path)?;
    push_path(text, path)
}

fn push_kept(
    text: &mut String,
    image: &Image,
    at: u64,
    entry: &Entry,
    path: &[Leg],
) -> Result<(), AllocError>
    ensures { OnOk result (string_bytes text.new ≡ string_bytes text.old ++ text_of (path_line (codes "kept") at path.now ∷ card_line image.now (region_of image.now.heap at) entry.now.card ∷ holder_line entry.now ∷ (map leg_line path.now ++ pin_lines image.now.heap (region_of image.now.heap at)))) }
{
    push_path_line(text, "kept", at, path)?;
    push_card(text, image, at, entry.card)?;
    push_holder(text, entry)?;
    push_path(text, path)?;
    push_pin(text, image.heap(), at)
}

// Adds that the object is garbage.
fn push_garbage(text: &mut String, image: &Image, at: u64) -> Result<(), AllocError>
    ensures { OnOk result (string_bytes text.new ≡ string_bytes text.old ++ text_of ((codes "garbage" ∷ decimal at ∷ []) ∷ pin_lines image.now.heap (region_of image.now.heap at))) }
{
    writeln!(text, "garbage {at}")?;
    push_pin(text, image.heap(), at)
}

// Adds the first line of a path to the object at an address.
fn push_path_line(text: &mut String, word: &str, at: u64, path: &[Leg]) -> Result<(), AllocError>
    ensures { OnOk result (string_bytes text.new ≡ string_bytes text.old ++ line_text (path_line word.now at path.now)) }
{
    write!(text, "{word} {at}")?;
    push_steps(text, path)?;
    text.push_str("\n")?;
    Ok(())
}

fn push_steps(text: &mut String, path: &[Leg]) -> Result<(), AllocError>
    ensures { OnOk result (string_bytes text.new ≡ string_bytes text.old ++ flat_map (λ l. flat_map (λ w. 32 ∷ w) (step_words l.finder)) path.now) }
{
    for leg in path {
        push_step(text, leg.finder)?;
    }
    Ok(())
}

fn push_step(text: &mut String, finder: Finder) -> Result<(), AllocError>
    ensures { OnOk result (string_bytes text.new ≡ string_bytes text.old ++ flat_map (λ w. 32 ∷ w) (step_words finder)) }
{
    match finder {
        Finder::Root { number } => write!(text, " root {number}"),
        Finder::Card { card, slot } => write!(text, " card {card} slot {slot}"),
        Finder::Object { slot, .. } => write!(text, " slot {slot}"),
    }
}

// Adds a line for each object on a path.
fn push_path(text: &mut String, path: &[Leg]) -> Result<(), AllocError>
    ensures { OnOk result (string_bytes text.new ≡ string_bytes text.old ++ text_of (map leg_line path.now)) }
{
    for leg in path {
        push_leg(text, leg)?;
    }
    Ok(())
}

fn push_leg(text: &mut String, leg: &Leg) -> Result<(), AllocError>
    ensures { OnOk result (string_bytes text.new ≡ string_bytes text.old ++ line_text (leg_line leg.now)) }
{
    push_object(text, "object", &leg.object)?;
    push_found(text, leg.finder)
}

// Adds why a card is looked at if the region of the object at an address is collected.
fn push_card(text: &mut String, image: &Image, at: u64, card: u32) -> Result<(), AllocError>
    ensures { OnOk result (string_bytes text.new ≡ string_bytes text.old ++ line_text (card_line image.now (region_of image.now.heap at) card)) }
{
    let region = region_of(&image.heap().geometry(), at);
    if remembers(image, region, card) {
        writeln!(text, "card {card} remembered {region}")
    } else {
        writeln!(text, "card {card} dirty")
    }
}

// Whether a region remembers a card.
fn remembers(image: &Image, region: u64, card: u32) -> bool
    ensures { result ≡ has (remembered_of image.now region) card }
{
    let sets = image.remembered();
    let region = region as usize;
    if region < sets.len() {
        sets[region].contains(&card)
    } else {
        false
    }
}

fn push_holder(text: &mut String, entry: &Entry) -> Result<(), AllocError>
    ensures { OnOk result (string_bytes text.new ≡ string_bytes text.old ++ line_text (holder_line entry.now)) }
{
    let slot = entry.slot;
    push_object(text, "holder", &entry.holder)?;
    writeln!(text, " slot {slot}")
}

// Adds that no pause takes the region of the object at an address, if it is pinned.
fn push_pin(text: &mut String, heap: &Heap, at: u64) -> Result<(), AllocError>
    ensures { OnOk result (string_bytes text.new ≡ string_bytes text.old ++ text_of (pin_lines heap.now (region_of heap.now at))) }
{
    let geometry = heap.geometry();
    let region = region_of(&geometry, at);
    if region < geometry.regions() && pinned(heap, region as u32) {
        writeln!(text, "pinned {region}")
    } else {
        Ok(())
    }
}
