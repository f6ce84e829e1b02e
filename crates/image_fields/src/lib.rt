// The header and the records of an image: their fields, and the faults of its actions.
#![tactic(auto)]

pub mod column;
pub mod read;
pub mod scan;

// The fields of the header.
#[derive(Clone, Copy)]
pub struct Header {
    pub version: u32,
    pub n: usize,
    pub levels: usize,
    pub cycle: u32,
    pub spare: u32,
}
