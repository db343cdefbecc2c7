//! The example of a struct with maps: a stock is archived, looked up in place, edited in place, and read back.
#![tactic(auto)]

mod archived;
mod branches;
mod fault;
mod in_archive;
mod lent;
mod look_up;
mod look_ups;
mod made;
mod numbers;
mod printing;
mod read_back;
mod shops;
mod stock;
mod texts;
mod written;

use crate::fault::Fault;
use crate::printing::{print_answers, print_branches, print_edits, print_shops, print_stock};
use crate::read_back::read_back;
use archive_core::to_bytes;

fn main(rt: HostRuntime) -> Result<(), Fault> {
    let alloc = rt.alloc();
    let stock = made::stock(alloc)?;
    let bytes = to_bytes(alloc, &stock)?;
    println!(rt; "{} bytes", bytes.len())?;
    print_answers(&rt, alloc, &stock)?;
    print_shops(&rt, alloc, &made::shops(alloc)?)?;
    print_branches(&rt, alloc, &made::branches(alloc)?)?;
    print_edits(&rt, alloc, &stock)?;
    print_stock(&rt, &read_back(alloc, &stock)?)?;
    Ok(())
}
