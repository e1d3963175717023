//! What is wanted of a dump.
use crate::classes::Class;
use crate::dump::Dump;
use crate::refused::Refused;
use std::alloc::Global;

/// The sizes of a heap: words of a region, words of a card, and regions.
#[derive(Clone, Copy)]
pub struct Sizes {
    pub region_words: u64,
    pub card_words: u64,
    pub regions: u64,
}

/// What of a dump goes into its image, and how.
#[derive(Clone, Copy)]
pub struct Wanted<'w> {
    /// The static fields from which all hangs that is wanted, as CLASS.FIELD. If there are none, all objects are.
    pub from: &'w [String],
    /// Fields that are null or zero in the image, as CLASS.FIELD. It goes with `from`, as the next two do.
    pub without: &'w [String],
    /// Whether weak references keep what they refer to.
    pub weak: bool,
    /// Whether a reference to what the dump does not have is null.
    pub dangling_null: bool,
    /// Whether all primitive data are zeros.
    pub blank: bool,
    /// Whether the names of roots, types and objects are wanted.
    pub names: bool,
    /// The sizes of the image's heap. If there are none, they are chosen.
    pub sizes: Option<Sizes>,
}

impl<'w> Wanted<'w> {
    /// Whether all objects of the dump are wanted.
    pub(crate) fn is_whole(&self) -> bool {
        self.from.is_empty()
    }
}

/// The identifiers that the static fields hold from which all hangs that is wanted.
pub(crate) fn starts_of(
    alloc: Global,
    dump: &Dump<'_>,
    wanted: &Wanted<'_>,
) -> Result<Vec<u64>, Refused> {
    let mut starts = Vec::new(alloc);
    for text in wanted.from {
        starts.push(start_of(alloc, dump, text.as_str())?)?;
    }
    Ok(starts)
}

fn start_of(alloc: Global, dump: &Dump<'_>, asked: &str) -> Result<u64, Refused> {
    if asked.starts_with("thread:") {
        let asked = String::from_str(alloc, asked)?;
        return Err(Refused::Thread { asked });
    }
    let (owner, field) = cut_field(asked);
    let mut found = classes_named(alloc, dump, asked, owner)?;
    let count = found.len();
    let class = match found.pop() {
        Some(class) if count == 1 => class,
        _ => {
            let asked = String::from_str(alloc, asked)?;
            return Err(Refused::ManyClasses { asked, count });
        }
    };
    match static_named(alloc, dump, class, field)? {
        Some(Some(id)) => Ok(id),
        Some(None) => {
            let asked = String::from_str(alloc, asked)?;
            Err(Refused::NoReference { asked })
        }
        None => {
            let asked = String::from_str(alloc, asked)?;
            Err(Refused::NoField { asked })
        }
    }
}

// What the last static field of this name references, if it is a reference.
fn static_named(
    alloc: Global,
    dump: &Dump<'_>,
    class: &Class,
    name: &str,
) -> Result<Option<Option<u64>>, Refused> {
    for field in class.statics.iter().rev() {
        if dump.text(alloc, field.name)?.as_str() == name {
            return Ok(Some(field.reference));
        }
    }
    Ok(None)
}

/// Refuses fields to be left out that no class of the dump has.
pub(crate) fn check_left_out(
    alloc: Global,
    dump: &Dump<'_>,
    wanted: &Wanted<'_>,
) -> Result<(), Refused> {
    for text in wanted.without {
        let (owner, field) = cut_field(text.as_str());
        let classes = classes_named(alloc, dump, text.as_str(), owner)?;
        if !has_field(alloc, dump, classes.as_slice(), field)? {
            let asked = String::from_str(alloc, text.as_str())?;
            return Err(Refused::NoField { asked });
        }
    }
    Ok(())
}

fn has_field(
    alloc: Global,
    dump: &Dump<'_>,
    classes: &[&Class],
    name: &str,
) -> Result<bool, Refused> {
    for class in classes {
        for field in &class.fields {
            if dump.text(alloc, field.name)?.as_str() == name {
                return Ok(true);
            }
        }
    }
    Ok(false)
}

// CLASS and FIELD of CLASS.FIELD.
fn cut_field(text: &str) -> (&str, &str) {
    text.rsplit_once('.').unwrap_or(("", text))
}

// The classes of this name, of which there is one at least.
fn classes_named<'d>(
    alloc: Global,
    dump: &'d Dump<'_>,
    asked: &str,
    owner: &str,
) -> Result<Vec<&'d Class>, Refused> {
    let mut found = Vec::new(alloc);
    for class in &dump.classes.list {
        if dump.class_name(alloc, class.id)?.as_str() == owner {
            found.push(class)?;
        }
    }
    if found.is_empty() {
        return Err(Refused::NoClass {
            asked: String::from_str(alloc, asked)?,
            owner: String::from_str(alloc, owner)?,
        });
    }
    Ok(found)
}
