// The container (the paper's parcel): its formats, opening, and the annotations as a part of the lent bytes.
#![tactic(auto)]

pub mod format;
pub mod header;
pub mod layout;
pub mod parts;
