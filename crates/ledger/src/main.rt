// Reads the examples of the ledger: the two-byte messages, then message X, whose value it prints and
// writes back into a buffer of 32 bytes that held `a5` each.
#![tactic(auto)]

use format::Message;
use std::{fmt, io};

// Each field of a value after its name, a node as it stands on the wire, and a letter for each flag that is set.
#[derive(Clone, Copy)]
struct Value(Message);

impl fmt::Display for Value {
    fn fmt<W: fmt::Write>(&self, f: &mut fmt::Formatter<W>) -> fmt::Result {
        let m = self.0;
        write!(
            f,
            "version {} encrypt {} id {} source {:016x} destination {:016x} key {} ",
            m.version, m.encrypt, m.id, m.source, m.destination, m.key
        )?;
        write!(
            f,
            "type {} exchange {} profile {} acknowledged {} ",
            m.kind, m.exchange, m.profile, m.acknowledged
        )?;
        let flags = [
            ("T", m.tunnelled),
            ("S", m.sourced),
            ("D", m.destined),
            ("I", m.initiator),
            ("A", m.acknowledges),
            ("R", m.wants),
        ];
        for (letter, on) in flags {
            if on {
                f.write_str(letter)?;
            }
        }
        Ok(())
    }
}

// Bytes in hexadecimal.
#[derive(Clone, Copy)]
struct Hex<'a>(&'a [u8]);

impl fmt::Display for Hex<'_> {
    fn fmt<W: fmt::Write>(&self, f: &mut fmt::Formatter<W>) -> fmt::Result {
        for byte in self.0 {
            write!(f, "{byte:02x}")?;
        }
        Ok(())
    }
}

// What reading says of a message; and its value written back: all bytes of the buffer afterwards.
fn show(rt: &impl Print, bytes: &[u8]) -> io::Result<()> {
    let reading = format::read(bytes);
    match reading {
        Ok(taken) => {
            let mut out = [0xa5u8; 32];
            let parts = format::split(bytes, reading);
            let _ = format::write(taken.message, parts, &mut out);
            println!(rt;
                "{}
{}",
                Value(taken.message),
                Hex(&out)
            )
        }
        Err(refusal) => println!(rt; "refused {} ", refusal.reason.number()),
    }
}

fn main(rt: HostRuntime) -> io::Result<()> {
    show(&rt, b"\x00\x20")?;
    show(&rt, b"\x00\x30")?;
    show(&rt, b"\x01\x20")?;
    show(&rt, b"\x00\x28")?;
    show(&rt, b"\x00\x14")?;
    show(&rt, b"\x20\x20")?;
    show(
        &rt,
        b"\x00\x23\x05\x00\x00\x00\x02\x00\x00\x00\x00\x00\x00\x0e\x02\x00\x00\x00\x00\x00\x00\x01\x15\x02\x02\x01\x00\x00\x00\x00",
    )
}
