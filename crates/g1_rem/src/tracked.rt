ghost use Rattle.std.specs.Prelude.{◌≡◌};
ghost use Rattle.g1_image.specs.Cards.{Covered};

use g1_image::Image;
use std::marker::Model;

/// An image of which every reference into another region is covered: its slot's card is in that
/// region's remembered set or in the dirty log.
#[derive(Drop)]
pub struct Tracked {
    pub image: Image,
}

impl Model for Tracked {
    ghost use Rattle.g1_image.specs.Image.{Image as ImageOf};
    ghost use Rattle.g1_image.specs.Cards.{Covered};

    ghost Value = { ImageOf };

    ghost view = { λ t. t.image };

    ghost invariant = { λ t. Covered t.image };
}

/// The image that is tracked.
///
/// # Examples
///
/// ```
/// use g1_rem::verify;
/// use g1_testing::{image, pictures::shared};
///
/// let shared = image(alloc, shared())?;
/// let tracked = verify(&rt, alloc, shared).map_err(|(_, fault)| fault)?;
/// assert_eq!(rt; g1_rem::image(&tracked).heap().roots(), [22, 17].as_slice());
/// ```
pub fn image(tracked: &Tracked) -> &Image
    ensures same { result.now ≡ tracked.now }
    ensures covered { Covered tracked.now }
{
    &tracked.image
}
