// Codes of types: a type as a few numbers, whose tree specs/Codes gives. Codes that differ may still be of one type.
#[derive(Clone, Copy, PartialEq, Eq, Debug)]
pub enum Code {
    Unit,
    // The type entry, as it stands.
    Entry(u16),
    // The first type entry, its outermost free variable standing for the second.
    Under(u16, u16),
    // The product node.
    Product(u16),
}
