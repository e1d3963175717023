//! Worked examples of the definitions.
//!
//! Small heaps and images (`specs/Examples.antt`), with what the definitions say of each, proved by
//! computing: which objects survive and in which order, where they are placed, what is live, and the
//! whole image after a pause. No code is between the examples and the definitions.
#![tactic(auto)]

mod choosing;

ghost use Rattle.std.specs.Prelude.{◌≡◌, List, [], ◌∷◌, map, true, false};
ghost use Rattle.g1_words.specs.Valid.{IsValid};
ghost use Rattle.g1_words.specs.Heap.{objects_in, regions};
ghost use Rattle.g1_words.specs.Survivors.{Survivors};
ghost use Rattle.g1_words.specs.Layout.{places, need, laid};
ghost use Rattle.g1_words.specs.Live.{IsLiveBytes};
ghost use Rattle.g1_image.specs.Image.{IsImage, file_of, heap_of};
ghost use Rattle.g1_image.specs.declared.cursor.Version.TheVariants.{One, Two};
ghost use Rattle.g1_image.specs.Text.{file_text};
ghost use Rattle.g1_image.specs.Cards.{refined, uncovered};
ghost use Rattle.g1_after.specs.Moved.{Moved, new_region};
ghost use Rattle.g1_after.specs.Paused.{Paused};
ghost use Rattle.g1_after.specs.Unnamed.{humongous, unnamed, unnamed_regions};
ghost use Rattle.g1_examples.specs.Examples.{later_root_first, dead_owner, dead_cycle, shared_target, with_a_gap, one_object, one_object_after, three_regions, three_regions_image, dead_owner_image, pinned_owner, dead_owner_after, shared_target_image, shared_target_after, humongous_owner, humongous_owner_image, humongous_owner_after};
ghost use Rattle.g1_examples.specs.Unnamed.{chain, chain_after, chain_after_two, own_slot, own_slot_after, named_by_the_dead, nothing_left, unnamed_owner, unnamed_owner_after};
ghost use Rattle.g1_examples.specs.Texts.{one_object_text, one_object_after_text, one_object_after_text_two, dead_owner_text, dead_owner_after_text};

pub use choosing::{choices, named_lists, refused_choices};

/// Which objects survive, in which order, and where they are placed.
pub fn searches()
    ensures later_root_first { Survivors later_root_first (1 ∷ []) (18 ∷ 16 ∷ []) }
    ensures starts { map (λ o. o.at) (objects_in later_root_first 1) ≡ 16 ∷ 18 ∷ [] }
    ensures dead_owner { Survivors dead_owner (1 ∷ []) (16 ∷ []) }
    ensures dead_cycle { Survivors dead_cycle (1 ∷ []) [] }
    ensures shared_target { Survivors shared_target (1 ∷ []) (21 ∷ 16 ∷ []) }
    ensures with_a_gap { Survivors with_a_gap (0 ∷ 1 ∷ []) (0 ∷ 16 ∷ 21 ∷ []) }
    ensures with_a_gap_places { places with_a_gap (0 ∷ 16 ∷ 21 ∷ []) ≡ 32 ∷ 48 ∷ 53 ∷ [] }
    ensures with_a_gap_need { need with_a_gap (0 ∷ 16 ∷ 21 ∷ []) ≡ 2 }
    ensures exactly_full { laid 16 0 (12 ∷ 4 ∷ 1 ∷ []) ≡ 0 ∷ 12 ∷ 16 ∷ [] }
{}

/// What the roots reach, which cards belong to a region, and the image after a pause.
pub fn pauses()
    ensures three_regions_live { IsLiveBytes three_regions (16 ∷ 16 ∷ 8 ∷ 0 ∷ 0 ∷ 0 ∷ []) }
    ensures three_regions_refined { map (refined three_regions_image) (regions three_regions) ≡ [] ∷ [] ∷ (0 ∷ []) ∷ [] ∷ [] ∷ [] ∷ [] }
    ensures shared_target_live { IsLiveBytes shared_target (0 ∷ 56 ∷ 0 ∷ 0 ∷ []) }
    ensures humongous_owner_live { IsLiveBytes humongous_owner (320 ∷ 0 ∷ 0 ∷ 16 ∷ 0 ∷ 0 ∷ []) }
    ensures dead_owner_covered { uncovered dead_owner_image ≡ [] }
    ensures humongous_owner_covered { uncovered humongous_owner_image ≡ [] }
    ensures one_object_after { Paused one_object (1 ∷ []) one_object_after }
    ensures dead_owner_after { Paused dead_owner_image (1 ∷ []) dead_owner_after }
    ensures shared_target_after { Paused shared_target_image (1 ∷ []) shared_target_after }
    ensures humongous_owner_after { Moved humongous_owner_image (3 ∷ []) humongous_owner_after }
{}

/// Humongous objects that nothing references go in a pause, once: what only they reference goes in
/// the next. A slot of its own keeps no object, and a dead object's slot does while that object is
/// there.
pub fn humongous_objects()
    ensures two { map (λ o. o.at) (humongous chain.heap) ≡ 0 ∷ 32 ∷ [] }
    ensures first { map (λ o. o.at) (unnamed chain.heap) ≡ 0 ∷ [] }
    ensures chain_regions { unnamed_regions chain.heap ≡ 0 ∷ 1 ∷ [] }
    ensures chain_after { Paused chain [] chain_after }
    ensures chain_after_two { Paused chain_after [] chain_after_two }
    ensures own_slot_regions { unnamed_regions own_slot.heap ≡ 0 ∷ 1 ∷ 2 ∷ [] }
    ensures own_slot_after { Paused own_slot [] own_slot_after }
    ensures named_by_the_dead { Paused named_by_the_dead [] named_by_the_dead }
    ensures with_the_dead { Paused named_by_the_dead (0 ∷ []) nothing_left }
    ensures unnamed_owner_after { Paused unnamed_owner (3 ∷ []) unnamed_owner_after }
    ensures named_owner_after { Paused humongous_owner_image (3 ∷ []) humongous_owner_after }
{}

/// What the definitions refuse: a cycle that keeps itself, another order, a pause that changes nothing.
pub fn refusals()
    ensures no_cycle { Survivors dead_cycle (1 ∷ []) (16 ∷ 18 ∷ []) → ⊥ }
    ensures other_order { Survivors shared_target (1 ∷ []) (16 ∷ 21 ∷ []) → ⊥ }
    ensures unchanged { Paused dead_owner_image (1 ∷ []) dead_owner_image → ⊥ }
    ensures at_once { Paused chain [] chain_after_two → ⊥ }
{}

/// Two of the examples keep all rules, so that the premises of the laws are met by something.
pub fn kept_rules()
    ensures dead_owner { IsImage dead_owner_image }
    ensures humongous_owner { IsValid humongous_owner }
{}

/// The texts of four images, before and after a pause, byte by byte, and one of version 2. A file of
/// version 2 says what is pinned, and a pause leaves it so.
pub fn texts()
    ensures one_object { file_text (file_of One one_object) ≡ one_object_text }
    ensures one_object_after { file_text (file_of One one_object_after) ≡ one_object_after_text }
    ensures dead_owner { file_text (file_of One dead_owner_image) ≡ dead_owner_text }
    ensures dead_owner_after { file_text (file_of One dead_owner_after) ≡ dead_owner_after_text }
    ensures version_two { file_text (file_of Two one_object_after) ≡ one_object_after_text_two }
    ensures pins { map (λ q. q.pinned) (heap_of (file_of Two pinned_owner)).regions ≡ true ∷ false ∷ false ∷ false ∷ [] }
    ensures moved_pins { map (λ r. (new_region pinned_owner.heap (1 ∷ []) (16 ∷ []) r).pinned) (regions pinned_owner.heap) ≡ true ∷ false ∷ false ∷ false ∷ [] }
{}
