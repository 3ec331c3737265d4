//! A reader of chosen pieces.
use std::io::{self, Error, ErrorKind, Read};

/// A reader that gives a text in pieces, and counts its calls.
#[derive(Drop)]
pub struct Pieces<'a> {
    pub rest: &'a [u8],
    /// The most octets of a piece.
    length: usize,
    /// Whether a call past the text fails; else the text is the whole input.
    fails: bool,
    pub calls: u32,
}

impl<'a> Pieces<'a> {
    pub fn new(rest: &'a [u8], length: usize, fails: bool) -> Pieces<'a> {
        Pieces {
            rest,
            length,
            fails,
            calls: 0,
        }
    }
}

impl Read for Pieces<'_> {
    fn read(&mut self, buffer: &mut [u8]) -> io::Result<usize> {
        self.calls = self.calls.saturating_add(1);
        if self.fails && self.rest.is_empty() {
            return Err(Error::from(ErrorKind::Other));
        }
        let count = self.rest.len().min(self.length).min(buffer.len());
        let (piece, rest) = self.rest.split_at(count);
        buffer[..count].copy_from_slice(piece);
        self.rest = rest;
        Ok(count)
    }
}
