// Asks the exported entries the questions of data/answers and compares each answer whole: number, output, step field, pending word, cause,
// every byte behind. Prints how many are equal by entry and number, and which question differs first. data/README.md says how the list was made.
#![tactic(auto)]

mod tally;

use questions::Part;
use std::io;
use tally::Tally;

// The fields of an answer.
const NUMBER: u8 = 0x09;

const OUT: u8 = 0x0A;

const STEP: u8 = 0x0B;

const PENDING: u8 = 0x0C;

const CAUSE: u8 = 0x0D;

// What a word holds by its field, if there is one.
fn word(q: &[u8], tag: u8) -> Option<u32> {
    questions::find(q, tag).map(|_| u32::from(questions::byte(q, tag)))
}

// Whether the entry answers as the question tells.
fn is_equal(q: &[u8]) -> bool {
    let mut out = [0u8; questions::ROOM];
    let mut step = [0u8; questions::STEP_ROOM];
    let a = questions::ask(q, &mut out, &mut step);
    a.clean
        && a.number == u32::from(questions::byte(q, NUMBER))
        && a.pending == word(q, PENDING)
        && a.cause == word(q, CAUSE)
        && a.output == questions::find(q, OUT)
        && a.step == questions::find(q, STEP)
}

fn count(tally: &mut Tally, part: Part<'_>) {
    let q = part.value;
    let by_documents = match part.tag {
        questions::ASKED => false,
        questions::ASKED_BY_DOCUMENTS => true,
        _ => return tally.differs(),
    };
    if is_equal(q) {
        tally.agrees(
            questions::byte(q, questions::CALL),
            questions::byte(q, NUMBER),
            by_documents,
        );
    } else {
        tally.differs();
    }
}

fn run<R: io::Read>(rt: &impl Eprint, list: &mut R, tally: &mut Tally) {
    let mut buf = [0u8; 65536];
    for _ in 0..questions::MOST {
        let Some(part) = questions::read_next(rt, list, &mut buf) else {
            return;
        };
        count(tally, part);
    }
}

fn main(rt: HostRuntime) -> io::Result<()> {
    let mut tally = Tally::new();
    if let Some(mut list) = questions::open_list(&rt, "answers") {
        run(&rt, &mut list, &mut tally);
    }
    print!(rt; "{tally}")
}
