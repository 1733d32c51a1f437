ghost use Rattle.std.specs.Prelude.{◌≡◌, ◌^◌, ◌<◌, ◌≤◌, length, take, IfSome, MatchOption, slice_index};
ghost use Rattle.std.specs.Int.Digits.{number_from_digits};
ghost use Rattle.sheet_rules.specs.Bits.{bits_of, field_in};
ghost use Rattle.sheet_rules.specs.Formats.{only_fill};
ghost use Rattle.sheet.specs.Rest.{behind, LeftOfSheet};

use std::marker::Model;

/// A run sheet's bytes and the place of the next bit, counted from 0, the most significant bit of a byte first.
#[derive(Drop)]
pub(crate) struct BitReader<'a> {
    bytes: &'a [u8],
    at: usize,
}

// Clauses see what is left of the sheet.
impl<'a> Model for BitReader<'a> {
    ghost use Rattle.std.specs.Prelude.{◌*◌, ◌≤◌, length, drop};
    ghost use Rattle.sheet_rules.specs.Bits.{bits_of};
    ghost use Rattle.sheet.specs.Rest.{Rest};

    ghost Value = { Rest };

    ghost view = { λ r. record { bits = drop r.at (bits_of r.bytes.now); place = r.at } };

    ghost invariant = { λ r. (length r.bytes.now ≤ 65536) × (r.at ≤ 8 * length r.bytes.now) };
}

impl<'a> BitReader<'a> {
    // A reader at the front of a sheet.
    pub(crate) fn new(bytes: &'a [u8]) -> BitReader<'a>
        requires { length bytes.now ≤ 65536 }
        ensures bits { result.bits ≡ bits_of bytes.now }
        ensures place { result.place ≡ 0 }
    {
        BitReader { bytes, at: 0 }
    }

    // The place of the next bit; and what holds of every reader: bits are left, and no more than a sheet has.
    #[tactic(auto, using(crate::proofs::Fields::left_of_sheet))]
    pub(crate) fn place(&self) -> usize
        ensures place { result ≡ self.now.place }
        ensures left { LeftOfSheet self.now }
    {
        self.at
    }

    // How many bits are left.
    #[tactic(auto, using(crate::proofs::Fields::length_left))]
    fn bits_left(&self) -> usize
        ensures { result ≡ length self.now.bits }
    {
        8 * self.bytes.len() - self.at
    }

    // Bit i of those that are left.
    #[tactic(auto, using(crate::proofs::Fields::length_left, crate::proofs::Fields::bit_left))]
    fn bit(&self, i: usize) -> u64
        requires { i < length self.now.bits }
        ensures is { result ≡ slice_index self.now.bits i }
        ensures small { result < 2 }
    {
        let place = self.at + i;
        ((self.bytes[place / 8] >> (7 - place % 8)) % 2) as u64
    }

    // The number in the next field of a width, which stays to be read. (A loop: a fold over the range leaves three
    // goals open. The width is asked here and in its callers: a type for it would make each literal call longer.)
    fn field(&self, width: usize) -> u64
        requires within { width ≤ length self.now.bits }
        requires narrow { width ≤ 64 }
        ensures is { result ≡ number_from_digits 2 (take width self.now.bits) }
        ensures small { result < 2 ^ width }
    {
        let mut value = 0;
        for i in 0..width {
            value = value * 2 + self.bit(i);
        }
        value
    }

    // The next field of a width, or none where the sheet ends before it does.
    #[tactic(auto, using(crate::proofs::Fields::length_left), unfolding(sheet_rules::specs::Bits::field_in))]
    pub(crate) fn take(&mut self, width: usize) -> Option<u64>
        requires { width ≤ 64 }
        ensures result { result ≡ field_in self.old.bits width }
        ensures moves { MatchOption result (self.new ≡ self.old) (λ _. self.new ≡ behind width self.old) }
        ensures small { IfSome result (λ v. v < 2 ^ width) }
    {
        if width > self.bits_left() {
            return None;
        }
        let value = self.field(width);
        self.at += width;
        Some(value)
    }

    // Whether nothing is left but zero bits that fill a byte.
    pub(crate) fn only_fill_left(&self) -> bool
        ensures { result ≡ only_fill self.now.bits }
    {
        let left = self.bits_left();
        left < 8 && self.field(left) == 0
    }
}
