//! Words of the second heap that reference no object, and are null in it.
ghost use Rattle.std.specs.Prelude.{◌≡◌, Contains, IfNone, IfSome};
ghost use Rattle.g1_same.specs.Behind.{HasNoneAt};

/// The words of a file that reference no object and are null in its heap, each with its place. Both lists rise by place.
#[derive(Clone, Copy, Drop)]
pub struct StaleWords<'a> {
    /// By the number of a root.
    pub roots: &'a [(u64, u64)],
    /// By the address of a slot.
    pub slots: &'a [(u64, u64)],
}

/// The stale word at a place where the heap has this word, which is null if one is there.
pub fn stale_word(list: &[(u64, u64)], place: u64, word: u64) -> Option<u64>
    ensures there { IfSome result (λ stale. Contains list.now (place, stale)) }
    ensures null { IfSome result (λ _. word ≡ 0) }
    ensures none { IfNone result (HasNoneAt list.now place word) }
{
    if word != 0 || list.is_empty() {
        return None;
    }
    let below = list.partition_point(|(at, _)| *at < place);
    match list.get(below) {
        Some((at, stale)) if *at == place => Some(*stale),
        _ => None,
    }
}
