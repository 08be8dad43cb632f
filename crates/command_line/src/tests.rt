//! Words of each command, and words that are refused.

use crate::{Further, Split, split};
use std::alloc::Global;
use std::process::Abort;
use std::test::Fail;

const EXEC: Split = Split {
    name: "exec",
    further: Further::Three("p", "c", "0"),
};

const ASM: Split = Split {
    name: "asm",
    further: Further::One("t"),
};

const DISASM: Split = Split {
    name: "disasm",
    further: Further::One("p"),
};

const PROGRAM: Split = Split {
    name: "program",
    further: Further::Four("02:00:00:00:00:01", "1024", "none", "8dm"),
};

const FILTER: Split = Split {
    name: "filter",
    further: Further::Two("s", "c"),
};

const MAKE: Split = Split {
    name: "make",
    further: Further::Two("summary", "30"),
};

const LIVE: Split = Split {
    name: "live",
    further: Further::Three("s", "c", "4"),
};

#[rattlefmt::skip]
const ROWS: [(&[&str], Option<Split<'static>>); 45] = [
    (&["exec", "p", "c", "0"], Some(EXEC)),
    (&["exec", "p", "c"], None),
    (&["exec", "p", "c", "0", "0"], None),
    (&["asm", "t"], Some(ASM)),
    (&["asm"], None),
    (&["asm", "t", "t"], None),
    (&["disasm", "p"], Some(DISASM)),
    (&["disasm"], None),
    (&["disasm", "p", "p"], None),
    (&["program", "02:00:00:00:00:01", "1024", "none", "8dm"], Some(PROGRAM)),
    (&["program", "02:00:00:00:00:01", "1024", "none"], None),
    (&["program", "02:00:00:00:00:01", "1024", "none", "8dm", "8dm"], None),
    (&["filter", "s", "c"], Some(FILTER)),
    (&["filter", "s"], None),
    (&["filter", "s", "c", "c"], None),
    (&["make", "summary", "30"], Some(MAKE)),
    (&["make", "summary"], None),
    (&["make", "summary", "30", "30"], None),
    (&["live", "s", "c", "4"], Some(LIVE)),
    (&["live", "s", "c"], None),
    (&["live", "s", "c", "4", "4"], None),
    // further words are any text, also a command's name or letters beyond ASCII
    (&["asm", "help"], Some(Split { name: "asm", further: Further::One("help") })),
    (&["asm", "exec"], Some(Split { name: "asm", further: Further::One("exec") })),
    (&["make", "a-b", "=x"], Some(Split { name: "make", further: Further::Two("a-b", "=x") })),
    (&["asm", "\u{e9} \u{1f600}"], Some(Split { name: "asm", further: Further::One("\u{e9} \u{1f600}") })),
    // empty words, and words that begin with a dash
    (&["asm", ""], None),
    (&["exec", "p", "", "0"], None),
    (&["", "t"], None),
    (&["asm", "-"], None),
    (&["asm", "--"], None),
    (&["asm", "--", "t"], None),
    (&["exec", "-p", "c", "0"], None),
    (&["live", "s", "c", "-1"], None),
    (&["--", "asm", "t"], None),
    // neither options nor a help command
    (&["help"], None),
    (&["help", "exec"], None),
    (&["--help"], None),
    (&["-h"], None),
    (&["--version"], None),
    (&["exec", "--help"], None),
    (&["asm", "-h"], None),
    // other names
    (&["exe", "p", "c", "0"], None),
    (&["execs", "p", "c", "0"], None),
    (&["EXEC", "p", "c", "0"], None),
    (&[], None),
];

fn words_of(alloc: Global, words: &[&str]) -> Result<Vec<String>, Fail> {
    let mut list = Vec::new(alloc);
    for word in words {
        list.push(String::from_str(alloc, word)?)?;
    }
    Ok(list)
}

#[test]
fn words_are_split(rt: HostRuntime) -> Result<(), Fail> {
    for (words, want) in ROWS {
        let list = words_of(rt.alloc(), words)?;
        assert_eq!(rt; split(rt.alloc(), &list)?, want, "{words:?}");
    }
    Ok(())
}
