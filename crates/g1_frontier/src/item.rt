/// What a round looks at. Its offers take ranks from its base on.
#[derive(Debug, Clone, Copy, PartialEq, Eq, Drop)]
pub enum Item {
    /// The root of a number. Its offer has the rank `index`.
    Root { index: u64 },
    /// A card. The offer of its slot at an address has the rank `base` plus that address.
    Card { card: u32, base: u64 },
    /// The object at an address. The offer of its slot of a number has the rank `base` plus that
    /// number.
    Object { at: u64, base: u64 },
}
