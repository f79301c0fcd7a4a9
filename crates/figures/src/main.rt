// Answers the cases of its input, each behind three numbers of two bytes: the network's length, the fault's, and the room in the buffer.
// For each it prints a line: the number, the place, N, the amps, whose bytes are shown, where they start and how many they are, and how many of the room's
// numbers are as they were found; and, where the number is 0, the numbers of the answer: D, then twelve to a line.
#![tactic(auto)]

use file::field::u16_at;
use paper::{Answer, Lent};
use std::io::Write;

// What the buffer holds before a call. Room for 257 boards, one more than there may be.
const FOUND: i64 = 7777777;

const MOST: usize = 6181;

// What is read of the input at most.
const INPUT: usize = 65536;

fn kept(all: &[i64]) -> usize {
    all.iter().filter(|z| **z == FOUND).count()
}

fn numbers<W: Write>(to: &mut W, all: &[i64]) {
    for (i, z) in all.iter().enumerate() {
        if i % 12 == 1 {
            let _ = writeln!(to);
        }
        let _ = write!(to, " {z}");
    }
    let _ = writeln!(to);
}

// The buffer after a call, all of the room that was lent. What cannot be written is left out, and what is behind it is tried all the same: each number by itself.
fn print<W: Write>(to: &mut W, answer: Answer, all: &[i64]) {
    let part = answer.part;
    let whose = match part.whose {
        Lent::NetworkBytes => " network",
        Lent::FaultBytes => " fault",
        Lent::LabelBytes => " label",
    };
    let n = answer.n as usize;
    let _ = write!(to, "CASE");
    let _ = write!(to, " {}", answer.number);
    let _ = write!(to, " {}", answer.place);
    let _ = write!(to, " {n}");
    let _ = write!(to, " {}", answer.amps);
    let _ = write!(to, "{whose}");
    let _ = write!(to, " {}", part.start);
    let _ = write!(to, " {}", part.len);
    let _ = write!(to, " {}", kept(all));
    let _ = writeln!(to);
    let e = 13 + 24 * n;
    if answer.number == 0 && e <= all.len() {
        numbers(to, &all[..e]);
    }
}

fn show<W: Write>(to: &mut W, net: &[u8], flt: &[u8], buffer: &mut [i64]) {
    let answer = solve::solve(net, flt, buffer);
    print(to, answer, buffer);
}

fn case<W: Write>(to: &mut W, net: &[u8], flt: &[u8], room: usize) {
    let mut space = [FOUND; MOST];
    if room <= MOST {
        show(to, net, flt, &mut space[..room]);
    }
}

// No plainer as one function with that of `reads`, whose cases have one part and one number.
fn each<W: Write>(to: &mut W, all: &[u8]) {
    let mut left = all;
    while let Some((head, rest)) = left.split_at_checked(6) {
        let Some((net, rest)) = rest.split_at_checked(u16_at(head, 0) as usize) else {
            return;
        };
        let Some((flt, later)) = rest.split_at_checked(u16_at(head, 2) as usize) else {
            return;
        };
        case(to, net, flt, u16_at(head, 4) as usize);
        left = later;
    }
}

fn main(rt: HostRuntime) {
    let mut space = [0u8; INPUT];
    let n = console::read_full(&mut rt.stdin(), &mut space);
    each(&mut rt.stdout(), &space[..n]);
}
