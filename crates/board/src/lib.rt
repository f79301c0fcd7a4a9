// The numbers of one board: voltages and currents, turned to its phases, in its part of the buffer. In `front`, what stands before all boards.
#![tactic(auto)]

pub mod front;
mod phases;
mod put;

ghost use Rattle.std.specs.Prelude.{◌&&◌, ◌≡◌, ◌≤◌, length};
ghost use Rattle.paper.specs.Bounds.{Plane, EachSeq, most_w};
ghost use Rattle.paper.specs.Phase.{only_if, voltage_of, phases};
ghost use Rattle.paper.specs.Answer.{flat};
ghost use Rattle.chain.specs.Carried.{carried_of};
ghost use Rattle.board.specs.Faulted.{FaultSmall};
ghost use Rattle.board.specs.Numbers.{ShareSmall, numbers_of};

use crate::front::Faulted;
use crate::phases::{Phase, phases};
use chain::carried::{carried, only_if};
use chain::share::Shared;
use fault::volts::voltage;
use node::Node;
use paper::Seq;

// The referred voltages of a board that shares s with the faulted one. `here`: it lies in the faulted board's part.
fn left(f: Faulted, here: bool, s: Shared) -> Seq
    requires { FaultSmall f × ShareSmall s }
    ensures { result ≡ voltage_of f.d f.i s.z1 s.z2 s.z0 (only_if here f.lift) }
{
    voltage(f.d, f.i, s.z1, s.z2, s.z0, only_if(here, f.lift))
}

// The currents of a record.
fn passed(f: Faulted, on: bool, here: bool) -> Seq
    ensures { result ≡ carried_of on (on && here && f.earthed) f.i }
{
    carried(on, on & here & f.earthed, f.i)
}

// What a board of some turn shows, over a part of twelve.
pub(crate) fn shown(out: &mut [i64], f: Faulted, turn: u16, x: Seq)
    requires out_len { length out.old ≡ 12 }
    requires phase_bound { (f.phase ≤ 2) × (f.turn ≤ 2816) × (turn ≤ 2816) }
    requires x_plane { EachSeq (Plane most_w) x }
    ensures { out.new ≡ flat (phases f.phase turn f.turn x) }
{
    let p = Phase {
        n: f.phase as usize,
    };
    phases(
        out.as_mut_array().unwrap(),
        p,
        turn as usize,
        f.turn as usize,
        x,
    );
}

// The 24 numbers of a board, over its part of the buffer. Off the chain its record carries nothing, so there is nothing to turn: most records of a large network.
// Voltages and currents have one place on the stack, one after the other.
pub fn board(out: &mut [i64], f: Faulted, on: bool, node: Node, s: Shared)
    requires { (length out.old ≡ 24) × (FaultSmall f) × (ShareSmall s) × (node.turn ≤ 2816) }
    ensures { out.new ≡ numbers_of f on node s }
{
    let here = node.head == f.head;
    let mut x = left(f, here, s);
    shown(&mut out[0..12], f, node.turn, x);
    if on {
        x = passed(f, on, here);
        shown(&mut out[12..24], f, node.turn, x);
    } else {
        out[12..24].fill(0);
    }
}
