//! Prints what `a64_branches` makes of the instruction words on standard input, one of eight hex digits a
//! line: its class, a tab, and its offset, or `-` where its class has none. The stored run has words with
//! the classes and offsets that an independent disassembler gives them.
#![tactic(auto)]

use a64_branches::{Class, class_of};
use std::io::{BufWriter, Write};
use trace_io::{StdSource, read_all};

/// The most bytes of input.
const LIMIT: usize = 0x100_0000;

/// The size of the buffer before standard output.
const OUTPUT_BUFFER: usize = 64 << 10;

fn name_of(class: Class) -> &'static str {
    match class {
        Class::Plain => "plain",
        Class::Jump { link: false, .. } => "jump",
        Class::Jump { link: true, .. } => "jump-link",
        Class::Cond { .. } => "cond",
        Class::Isb => "isb",
        Class::Ind { link: false } => "ind",
        Class::Ind { link: true } => "ind-link",
        Class::Eret => "eret",
        Class::Odd => "odd",
    }
}

fn offset_of(class: Class) -> Option<i32> {
    match class {
        Class::Jump { off, .. } | Class::Cond { off } => Some(off),
        Class::Plain | Class::Isb | Class::Ind { .. } | Class::Eret | Class::Odd => None,
    }
}

fn main(rt: HostRuntime) -> Result<(), anyhow::Error> {
    let alloc = rt.alloc();
    let input = read_all(alloc, &mut StdSource::new(rt.stdin()), LIMIT)?;
    let words = std::str::from_utf8(&input)?;
    let mut out = BufWriter::with_capacity(alloc, OUTPUT_BUFFER, rt.stdout())?;
    for word in words.lines() {
        let class = class_of(u32::from_str_radix(word, 16)?);
        match offset_of(class) {
            Some(offset) => writeln!(out, "{}\t{offset}", name_of(class))?,
            None => writeln!(out, "{}\t-", name_of(class))?,
        }
    }
    out.flush()?;
    Ok(())
}
