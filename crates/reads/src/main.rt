// Reads networks off standard input, each behind its length in two bytes, and prints a line for each:
// ACCEPTED and N, or REFUSED, the number, the place, and where the bytes that are shown start and how many they are.
#![tactic(auto)]

use file::field::u16_at;
use network::Network;
use node::Node;
use paper::Refusal;
use std::io::Write;

// What is read of the input at most.
const INPUT: usize = 65536;

// The network alone: no board is asked for, and its nodes are left.
fn read(net: &[u8]) -> Result<Network, Refusal> {
    let nobody = [b' '; 12];
    let mut nodes = [Node::NONE; 256];
    network::read(net, nobody, &mut nodes)
}

// What cannot be written is left out, and what is behind it is tried all the same: each number by itself.
fn show<W: Write>(to: &mut W, net: &[u8]) {
    match read(net) {
        Ok(network) => {
            let _ = write!(to, "ACCEPTED");
            let _ = write!(to, " {}", network.head.boards);
        }
        Err(why) => {
            let _ = write!(to, "REFUSED");
            let _ = write!(to, " {}", why.number);
            let _ = write!(to, " {}", why.place);
            let _ = write!(to, " {}", why.part.start);
            let _ = write!(to, " {}", why.part.len);
        }
    }
    let _ = writeln!(to);
}

// No plainer as one function with that of `figures`, whose cases have two parts and three numbers.
fn each<W: Write>(to: &mut W, all: &[u8]) {
    let mut left = all;
    while let Some((head, rest)) = left.split_at_checked(2) {
        let Some((net, later)) = rest.split_at_checked(u16_at(head, 0) as usize) else {
            return;
        };
        show(to, net);
        left = later;
    }
}

fn main(rt: HostRuntime) {
    let mut space = [0u8; INPUT];
    let n = console::read_full(&mut rt.stdin(), &mut space);
    each(&mut rt.stdout(), &space[..n]);
}
