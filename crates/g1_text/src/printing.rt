ghost use Rattle.std.specs.Prelude.{◌≡◌, ◌<◌, ◌≤◌, ◌+◌, ◌++◌, ◌∷◌, List, length, map, flat_map, decimal, codes, string_bytes, Contains, OnOk, IfOk, IfErr};
ghost use Rattle.g1_words.specs.Heap.{objects_in, objects, regions};
ghost use Rattle.g1_text.specs.Lines.{line_text, further, text_of, reference_word, heading, root_lines, root_line, cards_words, log_lines, region_line, remembered_lines, object_line, region_lines, image_text};

use g1_image::Image;
use g1_words::{Fault, Heap, Object, Region, Words, data, objects_in, slots};
use itoa::Buffer;
use std::alloc::{AllocError, Global};

/// The lines of an image, in their full form: each number and each set is there.
///
/// # Errors
///
/// `Fault::Memory` alone.
pub fn image_lines(alloc: Global, image: &Image) -> Result<String, Fault>
    ensures text { IfOk result (λ s. string_bytes s ≡ image_text image.now) }
    ensures memory { IfErr result (λ e. e ≡ Fault.Memory) }
{
    let mut text = String::new(alloc);
    push_heading(&mut text, image)?;
    push_roots(&mut text, image.heap().roots())?;
    push_log(&mut text, image.log().as_slice())?;
    push_regions(alloc, &mut text, image)?;
    Ok(text)
}

/// The lines of one region: its numbers, its remembered cards, and the objects that start in it.
///
/// # Errors
///
/// `Fault::Memory` alone.
pub fn region_lines(alloc: Global, image: &Image, region: u32) -> Result<String, Fault>
    requires { region < image.now.heap.geometry.n }
    ensures text { IfOk result (λ s. string_bytes s ≡ text_of (region_lines image.now region)) }
    ensures memory { IfErr result (λ e. e ≡ Fault.Memory) }
{
    let mut text = String::new(alloc);
    push_region(alloc, &mut text, image, region)?;
    Ok(text)
}

/// The line of one object of the heap.
///
/// # Errors
///
/// `Fault::Memory` alone.
pub fn object_line(alloc: Global, heap: &Heap, object: &Object) -> Result<String, Fault>
    ensures text { Contains (objects heap.now) object.now → IfOk result (λ s. string_bytes s ≡ line_text (object_line heap.now.words object.now)) }
    ensures memory { IfErr result (λ e. e ≡ Fault.Memory) }
{
    let mut text = String::new(alloc);
    let words = heap.words();
    let laid = words.laid().len() as u64;
    let Object { at, size, refs } = *object;
    if refs < size && size <= laid && at <= laid - size {
        push_object(&mut text, words, object)?;
    }
    Ok(text)
}

/// Adds the first line of an image's lines, which is that of its table too.
///
/// # Errors
///
/// `AllocError`.
pub fn push_heading(text: &mut String, image: &Image) -> Result<(), AllocError>
    ensures { OnOk result (string_bytes text.new ≡ string_bytes text.old ++ line_text (heading image.now)) }
{
    let heap = image.heap();
    let geometry = heap.geometry();
    let (w, k, n) = (
        geometry.region_words(),
        geometry.card_words(),
        geometry.regions(),
    );
    let (roots, dirty) = (heap.roots().len(), image.log().len());
    write!(
        text,
        "heap {w} {k} {n} roots {roots} dirty {dirty} current "
    )?;
    match heap.current() {
        Some(region) => writeln!(text, "{region}"),
        None => text.push_str("none\n"),
    }
}

fn push_roots(text: &mut String, roots: &[u64]) -> Result<(), AllocError>
    ensures { OnOk result (string_bytes text.new ≡ string_bytes text.old ++ text_of (root_lines roots.now)) }
{
    for (number, root) in roots.iter().enumerate() {
        push_root(text, number, *root)?;
    }
    Ok(())
}

/// Adds the line of a root.
///
/// # Errors
///
/// `AllocError`.
pub fn push_root(text: &mut String, number: usize, root: u64) -> Result<(), AllocError>
    ensures { OnOk result (string_bytes text.new ≡ string_bytes text.old ++ line_text (root_line number root)) }
{
    push_field(text, "root ", number as u64)?;
    push_reference(text, root)?;
    text.push_str("\n")
}

/// Adds the line of the dirty cards, if there are any.
///
/// # Errors
///
/// `AllocError`.
pub fn push_log(text: &mut String, cards: &[u32]) -> Result<(), AllocError>
    ensures { OnOk result (string_bytes text.new ≡ string_bytes text.old ++ text_of (log_lines cards.now)) }
{
    if cards.is_empty() {
        return Ok(());
    }
    text.push_str("dirty")?;
    push_cards(text, cards)
}

// The cards at the end of a line.
fn push_cards(text: &mut String, cards: &[u32]) -> Result<(), AllocError>
    ensures { OnOk result (string_bytes text.new ≡ string_bytes text.old ++ further (cards_words cards.now)) }
{
    text.push_str(" cards")?;
    for card in cards {
        push_field(text, " ", u64::from(*card))?;
    }
    text.push_str("\n")
}

fn push_regions(alloc: Global, text: &mut String, image: &Image) -> Result<(), Fault>
    ensures text { OnOk result (string_bytes text.new ≡ string_bytes text.old ++ text_of (flat_map (region_lines image.now) (regions image.now.heap))) }
    ensures memory { IfErr result (λ e. e ≡ Fault.Memory) }
{
    let regions = image.heap().geometry().regions();
    for region in 0..regions as u32 {
        push_region(alloc, text, image, region)?;
    }
    Ok(())
}

fn push_region(alloc: Global, text: &mut String, image: &Image, region: u32) -> Result<(), Fault>
    requires { region < image.now.heap.geometry.n }
    ensures text { OnOk result (string_bytes text.new ≡ string_bytes text.old ++ text_of (region_lines image.now region)) }
    ensures memory { IfErr result (λ e. e ≡ Fault.Memory) }
{
    let heap = image.heap();
    let starts = objects_in(alloc, heap, region)?;
    push_region_line(text, image, region, starts.len())?;
    push_remembered(text, region, image.remembered()[region as usize].as_slice())?;
    push_objects(text, heap, region, starts.as_slice())?;
    Ok(())
}

/// Adds the line with the numbers of a region in which this many objects start.
pub fn push_region_line(
    text: &mut String,
    image: &Image,
    region: u32,
    objects: usize,
) -> Result<(), AllocError>
    requires region { region < image.now.heap.geometry.n }
    requires objects { objects ≡ length (objects_in image.now.heap region) }
    ensures { OnOk result (string_bytes text.new ≡ string_bytes text.old ++ line_text (region_line image.now region)) }
{
    let Region { kind, top, pinned } = image.heap().region(region);
    let cards = image.remembered()[region as usize].len();
    let pinned = if pinned { " pinned" } else { "" };
    writeln!(
        text,
        "region {region} {kind} top {top} objects {objects} cards {cards}{pinned}"
    )
}

/// Adds the line of a remembered set, if it has cards.
///
/// # Errors
///
/// `AllocError`.
pub fn push_remembered(text: &mut String, region: u32, cards: &[u32]) -> Result<(), AllocError>
    ensures { OnOk result (string_bytes text.new ≡ string_bytes text.old ++ text_of (remembered_lines region cards.now)) }
{
    if cards.is_empty() {
        return Ok(());
    }
    write!(text, "remembered {region}")?;
    push_cards(text, cards)
}

// The lines of the objects that start in a region.
fn push_objects(
    text: &mut String,
    heap: &Heap,
    region: u32,
    starts: &[u64],
) -> Result<(), AllocError>
    requires region { region < heap.now.geometry.n }
    requires starts { starts.now ≡ map (λ o. o.at) (objects_in heap.now region) }
    ensures { OnOk result (string_bytes text.new ≡ string_bytes text.old ++ text_of (map (object_line heap.now.words) (objects_in heap.now region))) }
{
    let words = heap.words();
    for start in starts {
        push_object(text, words, &heap.object(*start))?;
    }
    Ok(())
}

/// Adds the line of an object: its address, its header, its slots as addresses, and its data words.
///
/// # Errors
///
/// `AllocError`.
pub fn push_object(text: &mut String, words: &Words, object: &Object) -> Result<(), AllocError>
    requires refs { object.now.refs < object.now.size }
    requires laid { object.now.at + object.now.size ≤ words.now.laid }
    ensures { OnOk result (string_bytes text.new ≡ string_bytes text.old ++ line_text (object_line words.now.items object.now)) }
{
    let laid = words.laid();
    push_header(text, object)?;
    push_references(text, slots(laid, object))?;
    push_data(text, data(laid, object))?;
    text.push_str("\n")
}

fn push_header(text: &mut String, object: &Object) -> Result<(), AllocError>
    ensures { OnOk result (string_bytes text.new ≡ string_bytes text.old ++ (codes "object " ++ (decimal object.now.at ++ 32 ∷ (decimal object.now.size ++ 47 ∷ decimal object.now.refs)))) }
{
    push_field(text, "object ", object.at)?;
    push_field(text, " ", object.size)?;
    push_field(text, "/", object.refs)
}

fn push_references(text: &mut String, references: &[u64]) -> Result<(), AllocError>
    ensures { OnOk result (string_bytes text.new ≡ string_bytes text.old ++ flat_map (λ x. 32 ∷ reference_word x) references.now) }
{
    for reference in references {
        push_reference(text, *reference)?;
    }
    Ok(())
}

fn push_data(text: &mut String, words: &[u64]) -> Result<(), AllocError>
    ensures { OnOk result (string_bytes text.new ≡ string_bytes text.old ++ flat_map (λ x. 32 ∷ decimal x) words.now) }
{
    for word in words {
        push_field(text, " ", *word)?;
    }
    Ok(())
}

// A number, and the text before it.
fn push_field(text: &mut String, lead: &str, value: u64) -> Result<(), AllocError>
    ensures { OnOk result (string_bytes text.new ≡ string_bytes text.old ++ (lead.now ++ decimal value)) }
{
    text.push_str(lead)?;
    push_number(text, value)
}

// A number in decimal digits. Numbers are most of a text, so no formatter is asked.
fn push_number(text: &mut String, value: u64) -> Result<(), AllocError>
    ensures { OnOk result (string_bytes text.new ≡ string_bytes text.old ++ decimal value) }
{
    let mut buffer = Buffer::new();
    text.push_str(buffer.format(value))
}

// A reference word as the address that it names, or as a dash.
fn push_reference(text: &mut String, reference: u64) -> Result<(), AllocError>
    ensures { OnOk result (string_bytes text.new ≡ string_bytes text.old ++ (32 ∷ reference_word reference)) }
{
    match reference.checked_sub(1) {
        Some(address) => push_field(text, " ", address),
        None => text.push_str(" -"),
    }
}
