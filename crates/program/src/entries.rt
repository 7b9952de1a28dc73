// A program as its fields are read, by what travels together: its bytes, the offsets of its entries, and the signatures of its functions.
use rules::{MAX_FUNCTIONS, MAX_PARAMETERS};

#[derive(Clone, Copy)]
pub struct Entries<'a> {
    pub program: &'a [u8],
    pub types: &'a [u16],
    pub terms: &'a [u16],
    pub functions: &'a [u16],
    pub table: &'a [[u16; MAX_PARAMETERS]; MAX_FUNCTIONS],
}
