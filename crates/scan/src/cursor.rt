// A place in a scan file, and the number that stands there.
ghost use Rattle.std.specs.Prelude.{◌≡◌, ◌+◌, ◌≤◌, length, drop};

use crate::digits::{leading_digits, longest_numeral, value_of};
use crate::fault::ScanFault;
use crate::gap::{gap_length, is_white};
use crate::numeral::Numeral;
use refusal::Refusal;

// The bytes of a file, and how many of them come before the place.
#[derive(Clone, Copy)]
pub(crate) struct Cursor<'a> {
    pub bytes: &'a [u8],
    pub at: usize,
}

impl<'a> Cursor<'a> {
    ghost use Rattle.scan.specs.Reading.{white_at, read_answer, numeral_answer, number_answer};

    // The bytes from here on, which are none past the end.
    pub(crate) fn rest(self) -> &'a [u8]
        ensures { result.now ≡ drop self.entry.at self.entry.bytes.now }
    {
        self.bytes.get(self.at..).unwrap_or(&[])
    }

    // The bytes after the one here.
    #[tactic(auto, using(crate::proofs::Decimal::drop_one_more))]
    pub(crate) fn rest_after(self) -> &'a [u8]
        ensures { result.now ≡ drop (self.entry.at + 1) self.entry.bytes.now }
    {
        self.rest().get(1..).unwrap_or(&[])
    }

    fn is_at_white(self) -> bool
        ensures { result ≡ white_at self.entry.bytes.now self.entry.at }
    {
        self.at < self.bytes.len() && is_white(self.bytes[self.at])
    }

    fn header_byte(self) -> ScanFault
        ensures { (result.refusal ≡ Refusal.HeaderByte) × (result.place ≡ self.entry.at) }
    {
        ScanFault {
            refusal: Refusal::HeaderByte,
            place: self.at,
        }
    }

    // The number that `digits` write, which stand here.
    fn numeral_of(self, digits: &[u8]) -> Result<Numeral, ScanFault>
        requires few { length digits.now ≤ 5 }
        requires within { self.at + length digits.now ≤ length self.bytes.now }
        ensures { read_answer (λ n. n) result ≡ numeral_answer self.entry.bytes.now self.entry.at digits.now }
    {
        let after = Cursor {
            bytes: self.bytes,
            at: self.at + digits.len(),
        };
        if digits.is_empty() || !after.is_at_white() {
            return Err(after.header_byte());
        }
        Ok(Numeral {
            value: value_of(digits),
            first: self.at,
            after: after.at,
        })
    }

    // The number after the gap that stands here.
    pub(crate) fn number(self) -> Result<Numeral, ScanFault>
        ensures { read_answer (λ n. n) result ≡ number_answer self.entry.bytes.now self.entry.at }
    {
        if !self.is_at_white() {
            return Err(self.header_byte());
        }
        let start = Cursor {
            bytes: self.bytes,
            at: self.at + gap_length(self.rest()),
        };
        start.numeral_of(leading_digits(longest_numeral(start.rest())))
    }
}
