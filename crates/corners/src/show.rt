// An answer as a line: its number, its step field, its pending word, its cause, and the fields of its output as words. A directory is `db/`, a file
// `db/a=7`, a staging file `~s.tmp=9`, the log `log:` and its bytes, the open mark `open`, a key itself. An
// inventory is its text, a log alone `log:` and its bytes.
use field::Fields;
use questions::{Answer, Call, Part};
use std::{fmt, io};

// Bytes in hexadecimal.
#[derive(Clone, Copy)]
struct Hex<'a>(&'a [u8]);

impl<'a> fmt::Display for Hex<'a> {
    fn fmt<W: fmt::Write>(&self, f: &mut fmt::Formatter<W>) -> fmt::Result {
        for b in self.0 {
            write!(f, "{b:02x}")?;
        }
        Ok(())
    }
}

// A content number behind its name.
fn put_numbered(rt: &impl Print, v: &[u8]) -> io::Result<()> {
    let name = v.get(4..);
    rt.write_all(name.unwrap_or(b""))?;
    let number = field::u32_at(v, 0);
    print!(rt; "={number}")
}

fn put_part(rt: &impl Print, part: Part<'_>, dir: &[u8]) -> io::Result<()> {
    let v = part.value;
    match part.tag {
        0x03 => rt.write_all(v),
        0x10 => {
            rt.write_all(v)?;
            print!(rt; "/")
        }
        0x11 => {
            rt.write_all(dir)?;
            print!(rt; "/")?;
            put_numbered(rt, v)
        }
        0x12 => {
            print!(rt; "~")?;
            put_numbered(rt, v)
        }
        0x13 => {
            let log = Hex(v);
            print!(rt; "log:{log}")
        }
        0x14 => print!(rt; "open"),
        _ => print!(rt; "?"),
    }
}

fn put_parts(rt: &impl Print, s: &[u8]) -> io::Result<()> {
    let first = questions::find(s, 0x10);
    let mut dir = first.unwrap_or(b"");
    for (i, x) in Fields::of(s).enumerate() {
        if i != 0 {
            print!(rt; " ")?;
        }
        let Some(part) = Part::of(s, x) else {
            return print!(rt; "?");
        };
        if part.tag == 0x10 {
            dir = part.value;
        }
        put_part(rt, part, dir)?;
    }
    Ok(())
}

// The names of a step, which zero bytes part.
fn put_names(rt: &impl Print, v: &[u8]) -> io::Result<()> {
    for (i, name) in v.split(|b| *b == 0).enumerate() {
        if i != 0 {
            print!(rt; " ")?;
        }
        rt.write_all(name)?;
    }
    Ok(())
}

fn put_step(rt: &impl Print, s: &[u8]) -> io::Result<()> {
    let first = Fields::of(s).next();
    let Some(part) = first.and_then(|x| Part::of(s, x)) else {
        return print!(rt; "  [-]");
    };
    let tag = part.tag;
    print!(rt; "  [{tag:02x}")?;
    if !part.value.is_empty() {
        print!(rt; " ")?;
    }
    put_names(rt, part.value)?;
    print!(rt; "]")
}

fn put_output(rt: &impl Print, call: Option<Call>, s: &[u8]) -> io::Result<()> {
    match call {
        Some(Call::Inventory) => {
            print!(rt; "  ")?;
            rt.write_all(s)
        }
        Some(Call::CanonicalLog) => {
            let log = Hex(s);
            print!(rt; "  'log:{log}'")
        }
        _ => {
            print!(rt; "  '")?;
            put_parts(rt, s)?;
            print!(rt; "'")
        }
    }
}

pub fn answer(rt: &impl Print, call: Option<Call>, a: Answer<'_>) -> io::Result<()> {
    let number = a.number;
    print!(rt; "{number}")?;
    if let Some(step) = a.step {
        put_step(rt, step)?;
    }
    if let Some(pending) = a.pending {
        print!(rt; "  pending {pending}")?;
    }
    if let Some(cause) = a.cause {
        print!(rt; "  cause {cause}")?;
    }
    if let Some(output) = a.output {
        put_output(rt, call, output)?;
    }
    if !a.clean {
        print!(rt; "  and touched bytes behind")?;
    }
    println!(rt)
}
