// JSON in UTF-8 (RFC 8259): its definitions, and the types that they use.
#![tactic(auto)]

pub mod number;
pub mod part;
pub mod string;
