//! The bytes of a payload, read number by number, and masses one after the other.

ghost use Rattle.std.specs.Prelude.{◌≡◌, ℕ, ◌+◌, ◌*◌, ◌<◌, ◌≤◌, length, drop};
ghost use Rattle.std.specs.Int.{w32, w64, byte_len, from_le_bytes};
ghost use Rattle.amr_codec.specs.MassWidths.{width_of};
ghost use Rattle.amr_decoder.specs.Numbers.{number_at};

use crate::faults::CodecFault;
use amr_codec::MassWidth;

/// The number of four bytes at a place.
pub(crate) fn word_at(bytes: &[u8], at: usize) -> u32
    requires { at + 4 ≤ length bytes.now }
    ensures { result ≡ from_le_bytes w32 (drop at bytes.now) }
{
    u32::from_le_bytes([bytes[at], bytes[at + 1], bytes[at + 2], bytes[at + 3]])
}

/// The number of eight bytes at a place.
pub(crate) fn long_at(bytes: &[u8], at: usize) -> u64
    requires { at + 8 ≤ length bytes.now }
    ensures { result ≡ from_le_bytes w64 (drop at bytes.now) }
{
    u64::from_le_bytes([
        bytes[at],
        bytes[at + 1],
        bytes[at + 2],
        bytes[at + 3],
        bytes[at + 4],
        bytes[at + 5],
        bytes[at + 6],
        bytes[at + 7],
    ])
}

/// How many bytes a mass takes.
pub(crate) fn mass_len(width: MassWidth) -> usize
    ensures { result ≡ byte_len (width_of width) }
{
    match width {
        MassWidth::Four => 4,
        MassWidth::Eight => 8,
    }
}

/// How many of `count` numbers of four bytes come before the first that is greater than `greatest`, all where none is.
fn words_within(bytes: &[u8], count: usize, greatest: u64) -> usize
    requires { 4 * count ≤ length bytes.now }
    ensures most { result ≤ count }
    ensures within { (i : ℕ) → i < result → number_at w32 bytes.now i ≤ greatest }
    ensures next { result < count → greatest < number_at w32 bytes.now result }
{
    for k in 0..count {
        if greatest < u64::from(word_at(bytes, 4 * k)) {
            return k;
        }
    }
    count
}

/// The same of numbers of eight bytes.
fn longs_within(bytes: &[u8], count: usize, greatest: u64) -> usize
    requires { 8 * count ≤ length bytes.now }
    ensures most { result ≤ count }
    ensures within { (i : ℕ) → i < result → number_at w64 bytes.now i ≤ greatest }
    ensures next { result < count → greatest < number_at w64 bytes.now result }
{
    for k in 0..count {
        if greatest < long_at(bytes, 8 * k) {
            return k;
        }
    }
    count
}

/// The same of masses.
fn count_within(bytes: &[u8], width: MassWidth, count: usize, greatest: u64) -> usize
    requires { byte_len (width_of width) * count ≤ length bytes.now }
    ensures most { result ≤ count }
    ensures within { (i : ℕ) → i < result → number_at (width_of width) bytes.now i ≤ greatest }
    ensures next { result < count → greatest < number_at (width_of width) bytes.now result }
{
    match width {
        MassWidth::Four => words_within(bytes, count, greatest),
        MassWidth::Eight => longs_within(bytes, count, greatest),
    }
}

/// The bytes of a payload, and the place of the next that is read. A number is read where it lies wholly inside the bytes;
/// else it is bad at its place, and the reader stays there.
#[derive(Clone, Copy)]
pub struct Reader<'a> {
    bytes: &'a [u8],
    place: usize,
    ghost inside: { place ≤ length bytes.now },
}

#[tactic(auto, unfolding(crate::specs::Lefts::left_of, crate::specs::Lefts::whole_of))]
impl<'a> Reader<'a> {
    ghost use Rattle.std.specs.Prelude.{◌≡◌, ℕ, ◌*◌, ◌<◌, ◌≤◌, drop, length, IfOk, IfErr};
    ghost use Rattle.std.specs.Int.{w8, w32, w64, byte_len};
    ghost use Rattle.amr_codec.specs.MassWidths.{width_of};
    ghost use Rattle.amr_payload.specs.Tests.{after, read, read_number};
    ghost use Rattle.amr_decoder.specs.Faults.{IsFaultOf};
    ghost use Rattle.amr_decoder.specs.Lefts.{left_of, whole_of};
    ghost use Rattle.amr_decoder.specs.Numbers.{IsNoMass, number_at};

    /// All of the bytes, from the first on.
    pub fn of(bytes: &'a [u8]) -> Reader<'a>
        ensures left { left_of result ≡ record { place = 0; bytes = bytes.now } }
        ensures whole { whole_of result ≡ bytes.now }
    {
        Reader { bytes, place: 0 }
    }

    /// All of the bytes.
    pub fn bytes(&self) -> &'a [u8]
        ensures { result.now ≡ whole_of self.now }
    {
        self.bytes
    }

    /// The place of the next byte.
    pub fn place(&self) -> usize
        ensures place { result ≡ (left_of self.now).place }
        ensures left { (left_of self.now).bytes ≡ drop result (whole_of self.now) }
    {
        self.place
    }

    /// How many bytes are left.
    pub fn count_left(&self) -> usize
        ensures { result ≡ length (left_of self.now).bytes }
    {
        self.bytes.len() - self.place
    }

    /// A number of one byte.
    pub fn read_u8(&mut self) -> Result<u8, CodecFault>
        ensures read { IfOk result (λ n. read_number w8 (left_of self.old) ≡ read n (left_of self.new)) }
        ensures bad { IfErr result (IsFaultOf (read_number w8 (left_of self.old))) }
        ensures whole { whole_of self.new ≡ whole_of self.old }
    {
        let at = self.place;
        if self.count_left() < 1 {
            return Err(CodecFault::Bad { place: at as u64 });
        }
        self.place = at + 1;
        Ok(self.bytes[at])
    }

    /// A number of four bytes.
    pub fn read_u32(&mut self) -> Result<u32, CodecFault>
        ensures read { IfOk result (λ n. read_number w32 (left_of self.old) ≡ read n (left_of self.new)) }
        ensures bad { IfErr result (IsFaultOf (read_number w32 (left_of self.old))) }
        ensures whole { whole_of self.new ≡ whole_of self.old }
    {
        let at = self.place;
        if self.count_left() < 4 {
            return Err(CodecFault::Bad { place: at as u64 });
        }
        self.place = at + 4;
        Ok(word_at(self.bytes, at))
    }

    /// A number of eight bytes.
    pub fn read_u64(&mut self) -> Result<u64, CodecFault>
        ensures read { IfOk result (λ n. read_number w64 (left_of self.old) ≡ read n (left_of self.new)) }
        ensures bad { IfErr result (IsFaultOf (read_number w64 (left_of self.old))) }
        ensures whole { whole_of self.new ≡ whole_of self.old }
    {
        let at = self.place;
        if self.count_left() < 8 {
            return Err(CodecFault::Bad { place: at as u64 });
        }
        self.place = at + 8;
        Ok(long_at(self.bytes, at))
    }

    /// Goes over the bytes of masses once. It passes `count` of them, or those before the first that doesn't lie wholly
    /// inside the bytes or is greater than `greatest`. Says how many they are.
    pub(crate) fn pass_masses(&mut self, width: MassWidth, count: u64, greatest: u64) -> u64
        ensures left { left_of self.new ≡ after (byte_len (width_of width) * result) (left_of self.old) }
        ensures most { result ≤ count }
        ensures inside { byte_len (width_of width) * result ≤ length (left_of self.old).bytes }
        ensures within { (i : ℕ) → i < result → number_at (width_of width) (left_of self.old).bytes i ≤ greatest }
        ensures next { result < count → IsNoMass (width_of width) greatest (left_of self.old).bytes result }
        ensures whole { whole_of self.new ≡ whole_of self.old }
    {
        let rest = &self.bytes[self.place..];
        let len = mass_len(width);
        let there = count.min((rest.len() / len) as u64);
        let passed = count_within(rest, width, there as usize, greatest);
        self.place += len * passed;
        passed as u64
    }
}
