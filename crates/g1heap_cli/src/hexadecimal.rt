//! The lines of objects with their data words in hexadecimal.
ghost use Rattle.std.specs.Prelude.{◌≡◌, ◌<◌, ◌^◌, ◌++◌, ◌∷◌, ℕ, List, true, false, codes, decimal, string_bytes, OnOk, IfOk};
ghost use Rattle.std.specs.List.{AllByRecursion, AllZip};
ghost use Rattle.g1_text.specs.Lines.{text_of};
ghost use Rattle.g1heap_cli.specs.Hexadecimal.{hexadecimal, spaced, IsBare, AreInHex, HasHex};

use std::alloc::{AllocError, Global};

/// These lines of an image, with the data words of objects in hexadecimal, as in 0x1f. All else stays as it is.
pub fn with_hexadecimal(alloc: Global, lines: &str) -> Result<String, AllocError>
    ensures { (said others : List (List (List ℕ))) → AllZip HasHex said others → lines.now ≡ text_of said → IfOk result (λ s. string_bytes s ≡ text_of others) }
{
    let mut text = String::new(alloc);
    let mut rest = lines;
    'lines: while let Some((line, behind)) = rest.split_once('\n') {
        push_line(&mut text, line)?;
        text.push('\n')?;
        rest = behind;
    }
    text.push_str(rest)?;
    Ok(text)
}

// The first word of the line of an object, which has its address and its sizes behind it.
const OBJECT: &str = "object";

const WORDS_BEFORE_SLOTS: u64 = 3;

// Adds a line without its end.
fn push_line(text: &mut String, line: &str) -> Result<(), AllocError>
    ensures { (said others : List (List ℕ)) → HasHex said others → line.now ≡ spaced said → OnOk result (string_bytes text.new ≡ string_bytes text.old ++ spaced others) }
{
    match line.split_once(' ') {
        Some((word, _)) if word == OBJECT => {
            push_words(
                text,
                line,
                WORDS_BEFORE_SLOTS.saturating_add(slots_in(line)),
            )
        }
        _ => text.push_str(line),
    }
}

// Adds the words of a line. Those behind so many are data words.
fn push_words(text: &mut String, line: &str, before_data: u64) -> Result<(), AllocError>
    ensures { (first : List ℕ) (said others : List (List ℕ)) → AreInHex before_data (first ∷ said) others → line.now ≡ spaced (first ∷ said) → OnOk result (string_bytes text.new ≡ string_bytes text.old ++ spaced others) }
{
    let mut rest = line;
    let mut left = before_data;
    'words: while let Some((word, behind)) = rest.split_once(' ') {
        push_word(text, word, left == 0)?;
        text.push(' ')?;
        left = left.saturating_sub(1);
        rest = behind;
    }
    push_word(text, rest, left == 0)
}

// Adds a word, a data word in hexadecimal if it is a number.
fn push_word(text: &mut String, word: &str, is_data: bool) -> Result<(), AllocError>
    ensures word { is_data ≡ false → OnOk result (string_bytes text.new ≡ string_bytes text.old ++ word.now) }
    ensures hexadecimal { (x : ℕ) → x < 2 ^ 64 → word.now ≡ decimal x → is_data ≡ true → OnOk result (string_bytes text.new ≡ string_bytes text.old ++ hexadecimal x) }
{
    match word.parse::<u64>() {
        Ok(number) if is_data => write!(text, "0x{number:x}"),
        _ => text.push_str(word),
    }
}

// How many slots the line of an object announces, behind the stroke.
fn slots_in(line: &str) -> u64
    ensures { (a size slots : ℕ) (words : List (List ℕ)) → a < 2 ^ 64 → size < 2 ^ 32 → slots < 2 ^ 32 → AllByRecursion IsBare words → line.now ≡ spaced (codes "object" ∷ decimal a ∷ (decimal size ++ 47 ∷ decimal slots) ∷ words) → result ≡ slots }
{
    let Some((_, behind)) = line.split_once('/') else {
        return 0;
    };
    let slots = match behind.split_once(' ') {
        Some((slots, _)) => slots,
        None => behind,
    };
    slots.parse::<u64>().unwrap_or(0)
}
