// Text as bytes: numbers, signs and lines put into a lent buffer, and the words of a line read from one.
#![tactic(auto)]

pub mod put;
pub mod words;

pub use put::{put_byte, put_bytes, put_digit, put_long, put_number, put_signed, put_signed_long};
