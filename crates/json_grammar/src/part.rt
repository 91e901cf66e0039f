// The first byte that breaks a part of a text; a part that ends has the place behind it.
#[derive(Clone, Copy, Debug, PartialEq, Eq)]
pub struct Torn(pub usize);
