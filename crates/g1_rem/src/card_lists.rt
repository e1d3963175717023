ghost use Rattle.std.specs.Prelude.{◌≡◌, ◌<◌, ℕ, List, [], Bool, true, All, map, replicate, OnOk, OnErr, IfOk};
ghost use Rattle.g1_rem.specs.Entering.{with_card};

use std::alloc::{AllocError, Global};

/// An empty list of cards for each region.
///
/// # Errors
/// `AllocError` if a growth was refused.
///
/// # Examples
///
/// ```
/// use g1_rem::no_cards;
///
/// let remembered = no_cards(alloc, 4)?;
/// assert_eq!(rt; remembered.len(), 4);
/// assert_eq!(rt; remembered[3].len(), 0);
/// ```
pub fn no_cards(alloc: Global, regions: u64) -> Result<Vec<Vec<u32>>, AllocError>
    ensures { IfOk result (λ v. map (λ s. s.items) v.items ≡ replicate regions []) }
{
    let mut remembered: Vec<Vec<u32>> = Vec::new(alloc);
    for _i in 0..regions {
        remembered.push(Vec::new(alloc))?;
    }
    Ok(remembered)
}

/// Adds a card to a list that ends below it, unless the card is there already.
///
/// # Errors
/// `AllocError` if a growth was refused: then the list is as it was.
///
/// # Examples
///
/// ```
/// use g1_rem::push_once;
///
/// let mut cards = vec![in alloc; 1, 4]?;
/// push_once(&mut cards, 4)?;
/// push_once(&mut cards, 9)?;
/// assert_eq!(rt; cards.as_slice(), [1, 4, 9].as_slice());
/// ```
pub fn push_once(cards: &mut Vec<u32>, card: u32) -> Result<(), AllocError>
    ensures ok { OnOk result ((before : List ℕ) (b : Bool) → All (λ c. c < card) before → cards.old.items ≡ with_card before card b → cards.new.items ≡ with_card before card true) }
    ensures err { OnErr result (cards.new.items ≡ cards.old.items) }
{
    let count = cards.len();
    if count > 0 && cards[count - 1] == card {
        return Ok(());
    }
    cards.push(card)?;
    Ok(())
}
