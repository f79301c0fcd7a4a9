// What stands at a place of a record's bytes, little-endian: a number, an impedance, a label.
ghost use Rattle.std.specs.Prelude.{◌∷◌, ◌≡◌, cond, ◌+◌, ◌*◌, ◌<◌, eqb, length};
ghost use Rattle.lemmas.specs.Table.{tab};
ghost use Rattle.paper.specs.Bytes.{u8_at, u16_at, bytes_at, within};
ghost use Rattle.paper.specs.Label.{spaces};
ghost use Rattle.paper.specs.File.{label_size, ohms_at};

use paper::Ohms;

// The byte that closes a label.
pub const SPACE: u8 = 0x20;

// The marks of a head, a board and a fault: two letters, the first in the low byte.
pub const HD: u16 = 0x4448;

pub const BD: u16 = 0x4442;

pub const FT: u16 = 0x5446;

// The bytes of a fault, and where its label stands.
pub const FAULT: usize = 20;

pub const FAULT_LABEL: usize = 2;

pub fn pair(low: u8, high: u8) -> u16
    ensures { result ≡ low + 256 * high }
{
    u16::from_le_bytes([low, high])
}

pub fn u16_at(s: &[u8], i: usize) -> u16
    requires { i + 1 < length s.now }
    ensures { result ≡ u16_at s.now i }
{
    pair(s[i], s[i + 1])
}

// From least to most, ends included.
pub fn in_range(least: u16, most: u16, n: u16) -> bool
    ensures { result ≡ within least most n }
{
    (least <= n) & (n <= most)
}

pub(crate) fn ohms_at(s: &[u8], i: usize) -> Ohms
    requires { i + 3 < length s.now }
    ensures { result ≡ ohms_at s.now i }
{
    Ohms {
        r: u16_at(s, i),
        x: u16_at(s, i + 2),
    }
}

pub(crate) fn label_at(s: &[u8], i: usize) -> [u8; 12]
    requires { i + 11 < length s.now }
    ensures { result ≡ bytes_at label_size s.now i }
{
    <[u8; 12]>::try_from(&s[i..i + 12]).unwrap()
}

// The label at a place of bytes that have the size they must have; of others twelve spaces, which are no label.
pub fn label_in(s: &[u8], size: usize, i: usize) -> [u8; 12]
    requires { i + 11 < size }
    ensures { result ≡ cond (eqb (length s.now) size) (bytes_at label_size s.now i) spaces }
{
    if s.len() != size {
        return [SPACE; 12];
    }
    label_at(s, i)
}
