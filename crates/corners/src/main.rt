// Asks the exported entries the corners of documents 01 and 02, and the published check value of both checksums, and prints what they answer. The
// questions are data/questions and the expected lines stdout: `oracle/lists` makes both of oracle/corners.txt and the original's answers.
#![tactic(auto)]

mod show;

use questions::Part;
use std::io;

fn one(rt: &impl Print, part: Part<'_>) -> io::Result<()> {
    let value = part.value;
    match part.tag {
        questions::TEXT => rt.write_all(value),
        questions::ASKED | questions::ASKED_BY_DOCUMENTS => {
            let mut out = [0u8; questions::ROOM];
            let mut step = [0u8; questions::STEP_ROOM];
            let answer = questions::ask(value, &mut out, &mut step);
            show::answer(rt, questions::call_of(value), answer)
        }
        _ => println!(rt; "unreadable"),
    }
}

fn run<R: io::Read>(rt: &(impl Print + Eprint), list: &mut R) -> io::Result<()> {
    let mut buf = [0u8; 65536];
    for _ in 0..questions::MOST {
        let Some(part) = questions::read_next(rt, list, &mut buf) else {
            return Ok(());
        };
        one(rt, part)?;
    }
    Ok(())
}

fn main(rt: HostRuntime) -> io::Result<()> {
    if let Some(mut list) = questions::open_list(&rt, "questions") {
        run(&rt, &mut list)?;
    }
    let by_table = crc32::hash(b"123456789");
    let bit_by_bit = crc32::hash_bit_by_bit(b"123456789");
    println!(rt; "CRC-32 of 123456789: {by_table:08x}, bit by bit: {bit_by_bit:08x}")
}
