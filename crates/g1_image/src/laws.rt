ghost use Rattle.g1_image.specs.Laws.{CardsInRegions, CardsRise, ExactRemembered, RefinedRemembered, CoveredImage, UncoveredSlots, UncoveredRise, OneFile, OneImage, OneText, TextsExist, OneFault, NoFaultOfText, AlwaysOne};

/// What the cards of an image show.
pub fn remembered_cards()
    ensures regions { CardsInRegions }
    ensures rising { CardsRise }
    ensures exact { ExactRemembered }
    ensures refined { RefinedRemembered }
{}

/// Which references of an image are covered.
pub fn cover()
    ensures image { CoveredImage }
    ensures slots { UncoveredSlots }
    ensures rising { UncoveredRise }
{}

/// Bytes are the text of one file and of one image at most. An image has one text of version 2, and one
/// of version 1 if no region is pinned.
pub fn one_text()
    ensures file { OneFile }
    ensures image { OneImage }
    ensures text { OneText }
    ensures texts { TextsExist }
{}

/// Bytes are an image's text or have a fault, never both, and one fault at most.
pub fn one_fault()
    ensures one { OneFault }
    ensures none_of_text { NoFaultOfText }
    ensures always { AlwaysOne }
{}
