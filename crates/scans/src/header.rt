// The header of a PGM file: `P5`, the width, the height and the maximum value.
ghost use Rattle.std.specs.Prelude.{◌≡◌, ◌*◌, ◌<◌, ◌≤◌, Some, None, MatchResult};
ghost use Rattle.std.specs.Char.{is_ascii_digit};
ghost use Rattle.std.specs.List.{prefix_len};
ghost use Rattle.std.specs.Option.{SomeIff};
ghost use Rattle.scans.specs.Pgm.{white, line_end, gap, value_from, number, after_number, number_fault, magic_fault, width_part, range_fault, header_fault, after_header, width_of, height_of, maximum_of};
ghost use Rattle.scans.specs.Raster.{sample_size};

use crate::pgm::{Fault, Field};
use crate::raster::bytes_per_sample;

// The largest maximum value: 1,024 grey levels.
const MAXIMUM: u16 = 1023;

/// The numbers of a header, each within what a scan may have.
#[derive(Clone, Copy)]
pub struct Header {
    pub width: u16,
    pub height: u16,
    pub maximum: u16,
    ghost wide: { 0 < width },
    ghost high: { 0 < height },
    ghost least: { 0 < maximum },
    ghost most: { maximum ≤ 1023 },
}

impl Header {
    /// The header at the front of a file, and what follows it.
    pub fn read(bytes: &[u8]) -> Result<(Header, &[u8]), Fault>
        ensures { MatchResult result (λ p. (header_fault bytes.now ≡ None) × (p.0.width ≡ width_of bytes.now) × (p.0.height ≡ height_of bytes.now) × (p.0.maximum ≡ maximum_of bytes.now) × (p.1.now ≡ after_header bytes.now)) (λ f. header_fault bytes.now ≡ Some f) }
    {
        let after_p5 = after_magic(bytes)?;
        let (width, after_width) = next_number(after_p5, Field::Width)?;
        let (height, after_height) = next_number(after_width, Field::Height)?;
        let (maximum, rest) = next_number(after_height, Field::Maximum)?;
        Ok((Header::new(width, height, maximum)?, rest))
    }

    // The header of these numbers, if they lie where a scan's may.
    fn new(width: u16, height: u16, maximum: u16) -> Result<Header, Fault>
        ensures { MatchResult result (λ h. (range_fault width height maximum ≡ None) × (h.width ≡ width) × (h.height ≡ height) × (h.maximum ≡ maximum)) (λ f. range_fault width height maximum ≡ Some f) }
    {
        if width == 0 || height == 0 {
            Err(Fault::NoPixels)
        } else if maximum == 0 || maximum > MAXIMUM {
            Err(Fault::MaximumOutOfRange)
        } else {
            Ok(Header {
                width,
                height,
                maximum,
            })
        }
    }

    /// How many bytes the samples take.
    pub fn raster_len(&self) -> usize
        ensures { result ≡ self.now.width * self.now.height * sample_size self.now.maximum }
    {
        usize::from(self.width) * usize::from(self.height) * bytes_per_sample(self.maximum)
    }
}

/// Whether a byte is white space.
pub fn is_white(byte: u8) -> bool
    ensures { result ≡ white byte }
{
    matches!(byte, b'\t'..=b'\r' | b' ')
}

fn ends_line(byte: u8) -> bool
    ensures { result ≡ line_end byte }
{
    matches!(byte, b'\n' | b'\r')
}

// How many bytes of white space and comments stand in front.
fn gap_len(bytes: &[u8]) -> usize
    ensures { result ≡ gap bytes.now }
{
    // Whether a comment has begun and not ended, which a chain would have to carry along.
    let mut comment = false;
    for (i, byte) in bytes.iter().enumerate() {
        if comment {
            comment = !ends_line(*byte);
        } else if *byte == b'#' {
            comment = true;
        } else if !is_white(*byte) {
            return i;
        }
    }
    bytes.len()
}

// How many digits stand in front.
fn digits_len(bytes: &[u8]) -> usize
    ensures { result ≡ prefix_len is_ascii_digit bytes.now }
{
    bytes
        .iter()
        .take_while(|byte| byte.is_ascii_digit())
        .count()
}

// The number that digits write, unless it is above 65,535. They are read one by one: `parse` would go over all of them
// as a text first. Its caller gives digits alone; any other byte counts as `value_from` says, and one below `0` as nought.
fn decimal(digits: &[u8]) -> Option<u16>
    ensures { SomeIff result (value_from 0 digits.now ≤ 65535) (value_from 0 digits.now) }
{
    digits.iter().try_fold(0u16, |value, digit| {
        u16::try_from(u32::from(value) * 10 + u32::from(digit.saturating_sub(b'0'))).ok()
    })
}

// The number that comes next in the header, and what follows it.
fn next_number(bytes: &[u8], field: Field) -> Result<(u16, &[u8]), Fault>
    ensures { MatchResult result (λ p. (number_fault field bytes.now ≡ None) × (p.0 ≡ number bytes.now) × (p.1.now ≡ after_number bytes.now)) (λ f. number_fault field bytes.now ≡ Some f) }
{
    let (gap, text) = bytes.split_at(gap_len(bytes));
    let (digits, rest) = text.split_at(digits_len(text));
    if gap.is_empty() || digits.is_empty() {
        return Err(Fault::NumberMissing(field));
    }
    match decimal(digits) {
        Some(number) => Ok((number, rest)),
        None => Err(Fault::NumberTooLarge(field)),
    }
}

// What follows `P5`.
fn after_magic(bytes: &[u8]) -> Result<&[u8], Fault>
    ensures { MatchResult result (λ rest. (magic_fault bytes.now ≡ None) × (rest.now ≡ width_part bytes.now)) (λ f. magic_fault bytes.now ≡ Some f) }
{
    bytes.strip_prefix(b"P5").ok_or(Fault::NotP5)
}
