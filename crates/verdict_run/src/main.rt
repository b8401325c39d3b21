// The verdicts on messages. The input has for each message a line of 48 bytes (five digits, how many bytes the message has; a space; what it shows),
// then its bytes and a line end. Each has one line of output: its number, what it shows, the verdict. tools/verdict_cases.py writes the input and the output.
#![tactic(auto)]

use read_command::Fault;
use std::io::Read;

fn main(rt: HostRuntime) {
    let mut input = rt.stdin();
    let mut room = [0u8; 65536];
    run(&rt, &mut input, &mut room);
}

// Nothing says that the input ends, so the numbers of the messages end.
fn run<R: Read>(rt: &impl Print, input: &mut R, room: &mut [u8]) {
    for k in 1..1000000 {
        if !one(rt, input, k, room) {
            return;
        }
    }
}

// Reads one message and prints its verdict; whether there was one.
fn one<R: Read>(rt: &impl Print, input: &mut R, k: u64, room: &mut [u8]) -> bool {
    let mut head = [0u8; 48];
    if program_io::read_full(input, &mut head) < 48 {
        return false;
    }
    let n = program_io::number(&head);
    if n < room.len() {
        let e = n + 1;
        if program_io::read_full(input, &mut room[0..e]) < e {
            return false;
        }
        program_io::print_number(rt, b"", k);
        program_io::print(rt, &head[5..47]);
        print_verdict(rt, read_message::verdict(&room[0..n]));
        return true;
    }
    false
}

fn print_verdict(rt: &impl Print, v: Result<(), Fault>) {
    match v {
        Ok(()) => program_io::print(rt, b" well-formed"),
        Err(Fault::Fault400) => program_io::print(rt, b" 400"),
        Err(Fault::Fault403(id)) => program_io::print_number(rt, b" 403 of ", id as u64),
        Err(Fault::WrongVersion406) => program_io::print(rt, b" 406"),
    }
    program_io::print(rt, b"\n");
}
