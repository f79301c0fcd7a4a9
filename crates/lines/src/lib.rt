// The lines of an answer, written into a lent buffer: a refusal's, the fault's, those of three phases; in the modules labels, the lines of the boards, and the line about an earth return.
#![tactic(auto)]

pub mod boards;
pub mod earthed;
mod name;

ghost use Rattle.std.specs.Prelude.{◌∷◌, [], ◌++◌, ◌≤◌, length};
ghost use Rattle.decimal.specs.Writing.{Fits, Writes};
ghost use Rattle.lines.specs.Lines.{line, fault_line, refused_text, three_lines, fours};

use crate::name::put_label;
use decimal::Pen;

pub fn put_refusal(pen: &mut Pen<'_>, number: u8, place: u16)
    requires { Fits (refused_text number place) pen.old }
    ensures { Writes (refused_text number place) pen.old pen.new }
{
    pen.bytes(b"REFUSED");
    pen.pair(number as u64, place as u64);
}

// Label, kind, phase, amps. The kind is the number that is printed.
pub fn put_fault(pen: &mut Pen<'_>, l: [u8; 12], kind: u8, phase: u8, amps: u64)
    requires { Fits (fault_line l kind phase amps) pen.old }
    ensures { Writes (fault_line l kind phase amps) pen.old pen.new }
{
    pen.bytes(b"FAULT ");
    put_label(pen, l);
    pen.field(kind as u64);
    pen.pair(phase as u64, amps);
}

// Whose (a label, or nothing), what, the phase, numbers.
fn put_phase(pen: &mut Pen<'_>, whose: &[u8], what: &[u8], letter: u8, zs: &[i64])
    requires { Fits (line ((whose.now ++ what.now) ++ (letter ∷ [])) zs.now) pen.old }
    ensures { Writes (line ((whose.now ++ what.now) ++ (letter ∷ [])) zs.now) pen.old pen.new }
{
    pen.bytes(whose);
    pen.bytes(what);
    pen.row(letter, zs);
}

// Three phases, of twelve numbers or more.
pub fn put_phases(pen: &mut Pen<'_>, whose: &[u8], what: &[u8], zs: &[i64])
    requires in_bounds { 12 ≤ length zs.now }
    requires room { Fits (three_lines (whose.now ++ what.now) (fours zs.now)) pen.old }
    ensures { Writes (three_lines (whose.now ++ what.now) (fours zs.now)) pen.old pen.new }
{
    put_phase(pen, whose, what, b'a', &zs[..4]);
    put_phase(pen, whose, what, b'b', &zs[4..8]);
    put_phase(pen, whose, what, b'c', &zs[8..12]);
}
