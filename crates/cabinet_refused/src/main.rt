//! Makes each call that takes memory, on several documents, and prints how many did what they were asked for, how many told
//! that memory was refused and left what they must leave then, and how many did something else. With a number as its word
//! it takes the document of this number alone.
#![tactic(auto)]

mod again;
mod archives;
mod call;
mod numbered;
mod plain;
mod sessions;
mod tally;

use cabinet_doubles::ROWS;
use call::make_each;
use numbered::{Numbered, Parts};
use std::process::ExitCode;
use std::rt::Env;
use std::str;
use tally::Tally;

/// Returns a kind of maps with a number of keys and the size of its archive.
fn map_of(head: &'static str, count: u32, size: usize) -> Numbered {
    Numbered {
        parts: Parts::Keys(head),
        count,
        size,
        lines: b"get '1\nget 'x\nset bool true '0\nget '0\n",
        answers: b"int 0\nmissing\nrefused\nint 0\n",
    }
}

/// Returns 64 wholes, each of which but the first has the one before it.
fn chain() -> Numbered {
    Numbered {
        parts: Parts::Wholes(&["whole "]),
        count: 64,
        size: 1560,
        lines: b"get ? ?\nget #0\nset int 2 ?\nset int 2\n",
        answers: b"whole\nmissing\nrefused\nrefused\n",
    }
}

/// Returns thirty wholes, each of which but the first is a list that has the one before it twice.
fn doubled() -> Numbered {
    Numbered {
        parts: Parts::Wholes(&["list 2\nwhole ", "whole "]),
        count: 30,
        size: 2184,
        lines: b"get #0 ? #0 ? #0 ? #0 ? #0 ? #0 ? #0 ? #0 ? #0 ? #0 ? #0 ? #0 ? #0 ? #0 ? #0 ? #0 ? #0 ? #0 ? #0 ? #0 ? #0 ? #0 ? #0 ? #0 ? #0 ? #0 ? #0 ? #0 ? #0 ? #0 ?\nget #2\nset int 2 #0 ? #0 ? #0 ? #0 ? #0 ? #0 ? #0 ? #0 ? #0 ? #0 ? #0 ? #0 ? #0 ? #0 ? #0 ? #0 ? #0 ? #0 ? #0 ? #0 ? #0 ? #0 ? #0 ? #0 ? #0 ? #0 ? #0 ? #0 ? #0 ? #0 ?\nget #1 ?\n",
        answers: b"int 1\nmissing\nrefused\nlist 2\n",
    }
}

/// Returns the number that the program's word is, if it has one. Takes no memory.
fn chosen<R: Env>(rt: &R) -> Option<usize> {
    let mut word = [0; 8];
    let len = rt.arg(1, &mut word).ok()?;
    str::from_utf8(&word[..len]).ok()?.parse().ok()
}

/// Prints a tally, and returns whether that was done.
fn is_printed<R: Print>(rt: &R, tally: Tally) -> bool {
    let Tally {
        done,
        refused,
        wrong,
    } = tally;
    println!(rt; "{done} done, {refused} refused, {wrong} wrong").is_ok()
}

fn main(rt: HostRuntime) -> ExitCode {
    let numbered = [
        map_of("ordered", 36, 1464),
        map_of("hashed", 36, 1400),
        map_of("kept", 36, 1408),
        map_of("ordered", 215, 7704),
        map_of("hashed", 215, 8136),
        map_of("kept", 215, 8160),
        chain(),
        doubled(),
    ];
    let chosen = chosen(&rt);
    for (place, row) in ROWS.iter().enumerate() {
        if chosen.unwrap_or(place) == place && !is_printed(&rt, make_each(rt.alloc(), row)) {
            return ExitCode::from(1);
        }
    }
    for (place, document) in numbered.iter().enumerate() {
        let place = place.saturating_add(ROWS.len());
        if chosen.unwrap_or(place) == place && !is_printed(&rt, document.make_each(rt.alloc())) {
            return ExitCode::from(1);
        }
    }
    ExitCode::from(0)
}
