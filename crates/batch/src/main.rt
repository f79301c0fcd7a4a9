// Answers many cases from one stream: standard input to standard output, every number little-endian.
//
// A case is four numbers of four bytes: which entry point it asks (1 solve, 2 write, 3 earth), the room that it lends, the bytes of its first part, the bytes of its second part; then the two parts.
//     entry   room                     first part                                                             second part
//     1       elements of the buffer   the network                                                            the fault
//     2       bytes of the output      the boards, 44 bytes each as a board's record, the mark not looked at  volts and unit, two bytes each
//     3       none: 0                  the network                                                            the label
// What a case may say at most stands in solving.rt, writing.rt and earthing.rt, and what its buffer or its output holds before it in stream/specs/Case.antt.
//
// An answer to 1: number, place, N (four bytes each), amps (eight), whose bytes are shown (1 network, 2 fault), where they start, how many they are (four each), these bytes themselves,
// how many elements the buffer has (four), and all of these elements (eight each).
// An answer to 2: number, place, the file's length (four bytes each), whose bytes are shown, where they start, how many they are (four each), how many bytes the output has (four), and all of these bytes.
// An answer to 3: number, place, whether there is an earth return (1, else 0), whose bytes are shown (3 the label's; 0 of none), where they start, how many they are (four bytes each), and these bytes themselves.
//
// At the end of the input END and a line's end; where a case is cut off, asks another entry point, or says a length that it may not have, CUT and a line's end; after BUDGET cases BUDG.
#![tactic(auto)]

mod desk;
mod earthing;
mod solving;
mod writing;

use crate::desk::{BUFFER, Cut, Desk, FILE, PAGE, PARTS};
use std::io::{Read, Write};
use stream::case::{Case, case_of};

// Every run ends, whoever feeds it.
const BUDGET: u32 = 1000000;

// The bytes of a case's four numbers.
const NUMBERS: usize = 16;

enum Entry {
    Solve,
    Write,
    Earth,
}

impl TryFrom<usize> for Entry {
    type Error = Cut;

    fn try_from(number: usize) -> Result<Entry, Cut> {
        match number {
            1 => Ok(Entry::Solve),
            2 => Ok(Entry::Write),
            3 => Ok(Entry::Earth),
            _ => Err(Cut),
        }
    }
}

// Why a run ends that is not cut.
enum End {
    Input,
    Budget,
}

// A write that fails is said on standard error.
fn say<O: Write, E: Write>(stdout: &mut O, stderr: &mut E, text: &[u8]) {
    console::print(
        stdout,
        stderr,
        text,
        b"batch: the answers could not be written to standard output\n",
    );
}

// One write for a case.
fn case<R: Read, W: Write>(
    stdin: &mut R,
    stdout: &mut W,
    desk: &mut Desk,
    asked: Case,
) -> Result<(), Cut> {
    let end = match Entry::try_from(asked.entry)? {
        Entry::Solve => desk.solve(stdin, asked)?,
        Entry::Write => desk.write(stdin, asked)?,
        Entry::Earth => desk.earth(stdin, asked)?,
    };
    stdout.write_all(&desk.page[..end])?;
    Ok(())
}

fn run<R: Read, W: Write>(stdin: &mut R, stdout: &mut W, desk: &mut Desk) -> Result<End, Cut> {
    let mut head = [0; NUMBERS];
    for _ in 0..BUDGET {
        match console::read_full(stdin, &mut head) {
            0 => return Ok(End::Input),
            NUMBERS => case(stdin, stdout, desk, case_of(&head))?,
            _ => return Err(Cut),
        }
    }
    Ok(End::Budget)
}

fn main(rt: HostRuntime) {
    let mut desk = Desk {
        parts: [0; PARTS],
        buffer: [0; BUFFER],
        file: [0; FILE],
        page: [0; PAGE],
    };
    let mut stdout = rt.stdout();
    let mut stderr = rt.stderr();
    match run(&mut rt.stdin(), &mut stdout, &mut desk) {
        Ok(End::Input) => say(&mut stdout, &mut stderr, b"END\n"),
        Ok(End::Budget) => say(&mut stdout, &mut stderr, b"BUDG"),
        Err(Cut) => say(&mut stdout, &mut stderr, b"CUT\n"),
    }
}
