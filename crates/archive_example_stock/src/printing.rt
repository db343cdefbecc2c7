//! What the program prints.
ghost use Rattle.archive_example_stock.specs.Written.{HaveOneText};

use crate::branches::price_in_branch;
use crate::fault::Fault;
use crate::in_archive::{count_after_edit, count_in_archive, price_in_archive, shelf_in_archive};
use crate::look_up::look_up;
use crate::shops::price_in_shop;
use crate::stock::Stock;
use archive_hash::OwnedHashMap;
use std::alloc::Global;
use std::io;
use std::rc::RcStr;

/// Prints a number, or that there is none.
pub fn print_number<R: Print>(rt: &R, what: &str, number: Option<u32>) -> io::Result<()> {
    match number {
        Some(number) => println!(rt; "{what}: {number}"),
        None => println!(rt; "{what}: none"),
    }
}

/// Prints what is looked up in the archive of a stock.
pub fn print_answers<R: Print>(rt: &R, alloc: Global, stock: &Stock) -> Result<(), Fault>
    requires { HaveOneText stock.now.labels.items }
{
    print_number(
        rt,
        "price of screws",
        price_in_archive(alloc, stock, "screws")?,
    )?;
    print_number(
        rt,
        "price of nails",
        look_up(alloc, &stock.prices, "nails")?,
    )?;
    print_number(rt, "price of glue", price_in_archive(alloc, stock, "glue")?)?;
    print_number(rt, "count of shelf 7", count_in_archive(alloc, stock, 7)?)?;
    match shelf_in_archive(alloc, stock, 9)? {
        Some(name) => println!(rt; "shelf 9: {name}")?,
        None => println!(rt; "shelf 9: none")?,
    }
    Ok(())
}

/// Prints what nails cost in each shop, and where there is no shop, as looked up in the archive of the shops.
pub fn print_shops<R: Print>(
    rt: &R,
    alloc: Global,
    shops: &Vec<OwnedHashMap<String, u32>>,
) -> Result<(), Fault> {
    for shop in 0..3 {
        let price = price_in_shop(alloc, shops, shop, "nails")?;
        print_number(rt, "price of nails in a shop", price)?;
    }
    Ok(())
}

/// Prints what nails cost in each branch, and where there is no branch, as looked up in the archive of the branches.
pub fn print_branches<R: Print>(
    rt: &R,
    alloc: Global,
    branches: &OwnedHashMap<String, OwnedHashMap<String, u32>>,
) -> Result<(), Fault> {
    for branch in ["harbour", "station", "airport"] {
        let price = price_in_branch(alloc, branches, branch, "nails")?;
        print_number(rt, "price of nails in a branch", price)?;
    }
    Ok(())
}

/// Prints the counts of each shelf after that of shelf 7 was written over in the archive of a stock.
pub fn print_edits<R: Print>(rt: &R, alloc: Global, stock: &Stock) -> Result<(), Fault>
    requires { HaveOneText stock.now.labels.items }
{
    for shelf in [7, 8, 9] {
        let count = count_after_edit(alloc, stock, 7, 119, shelf)?;
        print_number(rt, "count of a shelf after the edit", count)?;
    }
    Ok(())
}

/// Prints what a stock has that was read back.
pub fn print_stock<R: Print>(rt: &R, stock: &Stock) -> io::Result<()> {
    println!(rt; "{} prices", stock.prices.map.len())?;
    for label in &stock.labels {
        println!(rt;
            "label {}, of {} pointers",
            label.value,
            RcStr::strong_count(&label.value)
        )?;
    }
    Ok(())
}
