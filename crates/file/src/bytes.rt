// Records decoded, little-endian. The marks are left out: they are tested on the bytes.
ghost use Rattle.std.specs.Prelude.{◌≡◌, ◌≤◌, length};
ghost use Rattle.paper.specs.File.{head_of, board_of, fault_of};

use crate::field::{label_at, ohms_at, u16_at};
use paper::{Board, Fault, Head};

pub fn head_of(s: &[u8]) -> Head
    requires { 8 ≤ length s.now }
    ensures { result ≡ head_of s.now }
{
    Head {
        volts: u16_at(s, 2),
        unit: u16_at(s, 4),
        boards: u16_at(s, 6),
    }
}

pub fn board_of(s: &[u8]) -> Board
    requires { length s.now ≡ 44 }
    ensures { result ≡ board_of s.now }
{
    Board {
        label: label_at(s, 2),
        feeder: label_at(s, 14),
        kind: s[26],
        clock: s[27],
        z1: ohms_at(s, 28),
        z2: ohms_at(s, 32),
        z0: ohms_at(s, 36),
        zn: ohms_at(s, 40),
    }
}

pub fn fault_of(s: &[u8]) -> Fault
    requires { length s.now ≡ 20 }
    ensures { result ≡ fault_of s.now }
{
    Fault {
        label: label_at(s, 2),
        kind: s[14],
        phase: s[15],
        zf: ohms_at(s, 16),
    }
}
