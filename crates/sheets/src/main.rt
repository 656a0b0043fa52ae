// Loads, repairs and fills worked sheets, forged ones among them, and writes each answer (number, place, value) and sheet (kind, length,
// remainder, text) in a line.
#![tactic(auto)]

use answer::Numbers;
use sheet::{Repaired, Sheet};
use std::io;

// Writes a call's result, and hands its sheet to the next call. A forged length may be past the text: then no text is written.
fn show(rt: &impl Print, call: &str, r: Repaired) -> io::Result<Sheet> {
    let told = Numbers::from(r.answer);
    let s = r.sheet;
    println!(rt;
        "{call} {} {} {} {} {} {} {}",
        told.number,
        told.place,
        told.value,
        s.kind,
        s.length,
        s.remainder,
        s.text.get(..s.length).unwrap_or_default().escape_ascii()
    )?;
    Ok(s)
}

fn ibans(rt: &impl Print) -> io::Result<()> {
    let good = b"GB82 WEST 1234 5698 7654 32";
    let s = show(rt, "load", sheet::load(1, good, sheet::empty()))?;
    let a = show(rt, "replace", repairs::replace(s, 21, b'3'))?;
    let b = show(rt, "exchange", repairs::exchange(s, 20, 21))?;
    show(rt, "exchange", repairs::exchange(b, 21, 20))?;
    show(rt, "exchange", repairs::exchange(s, 7, 7))?;
    show(rt, "fill", repairs::fill(a))?;
    show(rt, "replace", repairs::replace(s, 22, b' '))?;
    show(rt, "exchange", repairs::exchange(s, 21, 99))?;
    show(rt, "replace", repairs::replace(s, 5, b' '))?;
    show(rt, "replace", repairs::replace(s, 1, b'b'))?;
    show(rt, "exchange", repairs::exchange(s, 4, 2))?;
    show(rt, "load", sheet::load(1, b"GB82 WEST!", s))?;
    show(rt, "load", sheet::load(3, b"DEUTDEFF", s))?;
    Ok(())
}

fn exchange_passes(rt: &impl Print) -> io::Result<()> {
    let s = show(rt, "load", sheet::load(1, b"AA851B", sheet::empty()))?;
    show(rt, "exchange", repairs::exchange(s, 4, 5))?;
    Ok(())
}

fn leis(rt: &impl Print) -> io::Result<()> {
    let s = show(
        rt,
        "load",
        sheet::load(2, b"7ZW8QJWVPR4P1S5PX089", sheet::empty()),
    )?;
    let f = show(rt, "fill", repairs::fill(s))?;
    show(rt, "replace", repairs::replace(f, 19, b'X'))?;
    show(rt, "exchange", repairs::exchange(f, 0, 3))?;
    Ok(())
}

// Sheets that no load gives: the empty one, another remainder, a byte past the length, a length above the bytes.
fn forged(rt: &impl Print) -> io::Result<()> {
    let s = show(rt, "load", sheet::load(1, b"AA96A", sheet::empty()))?;
    let mut past = s.text;
    past[5] = b'A';
    show(rt, "fill", repairs::fill(sheet::empty()))?;
    let rest = Sheet { remainder: 2, ..s };
    show(rt, "replace", repairs::replace(rest, 0, b'B'))?;
    let longer = Sheet { text: past, ..s };
    show(rt, "exchange", repairs::exchange(longer, 0, 1))?;
    let beyond = Sheet { length: 99, ..s };
    show(rt, "fill", repairs::fill(beyond))?;
    Ok(())
}

fn main(rt: HostRuntime) -> io::Result<()> {
    ibans(&rt)?;
    exchange_passes(&rt)?;
    leis(&rt)?;
    forged(&rt)
}
