ghost use Rattle.std.specs.Prelude.{◌≡◌, length};
ghost use Rattle.ldar_facts.specs.Form.{Takes};
ghost use Rattle.ldar_facts.specs.Number.{number_from};

use crate::read_end::ReadEnd;
use crate::read_number;
use std::marker::Model;

/// A reader over some bytes, from the first to the last. In contracts it is the unread bytes.
#[derive(Drop)]
pub(crate) struct Cursor<'a> {
    rest: &'a [u8],
}

impl<'a> Model for Cursor<'a> {
    ghost use Rattle.std.specs.Prelude.{ℕ, List};

    ghost Value = { List ℕ };

    ghost view = { λ c. c.rest.now };
}

impl<'a> Cursor<'a> {
    /// A reader at the first of these bytes.
    pub(crate) fn new(bytes: &'a [u8]) -> Cursor<'a>
        ensures { result ≡ bytes.now }
    {
        Cursor { rest: bytes }
    }

    /// The number of unread bytes.
    pub(crate) fn left(&self) -> usize
        ensures { result ≡ length self.now }
    {
        self.rest.len()
    }

    /// The unread bytes.
    pub(crate) fn left_bytes(&self) -> &'a [u8]
        ensures { result.now ≡ self.now }
    {
        self.rest
    }

    /// Takes a byte that is in one of the ranges.
    pub(crate) fn byte(&mut self, ranges: &[(u32, u32)]) -> Result<u8, ReadEnd>
        ensures { Takes (number_from 1 ranges.now 0) result self.old self.new }
    {
        let (number, rest) = read_number::byte(self.rest, ranges)?;
        self.rest = rest;
        Ok(number)
    }

    /// Takes a number of two bytes that is in one of the ranges.
    pub(crate) fn two_bytes(&mut self, ranges: &[(u32, u32)]) -> Result<u16, ReadEnd>
        ensures { Takes (number_from 2 ranges.now 0) result self.old self.new }
    {
        let (number, rest) = read_number::two_bytes(self.rest, ranges)?;
        self.rest = rest;
        Ok(number)
    }

    /// Takes a number of four bytes that is in one of the ranges.
    pub(crate) fn four_bytes(&mut self, ranges: &[(u32, u32)]) -> Result<u32, ReadEnd>
        ensures { Takes (number_from 4 ranges.now 0) result self.old self.new }
    {
        let (number, rest) = read_number::four_bytes(self.rest, ranges)?;
        self.rest = rest;
        Ok(number)
    }
}
