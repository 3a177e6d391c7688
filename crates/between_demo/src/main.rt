// Prints the parts that `between` returns of a few lists, a line for each: how many numbers the part has, and the numbers.
#![tactic(auto)]

use std::io;
use std::io::Print;

fn print_part(rt: &impl Print, list: &[u32], first: u32, last: u32) -> io::Result<()> {
    let part = between::between(list, first, last);
    print!(rt; "{}", part.len())?;
    for bin in part {
        print!(rt; " ")?;
        print!(rt; "{bin}")?;
    }
    println!(rt)
}

fn main(rt: HostRuntime) -> io::Result<()> {
    let list = [2u32, 5, 9, 12];
    // both bins are in the list, neither is, one is
    print_part(&rt, &list, 5, 9)?;
    print_part(&rt, &list, 3, 10)?;
    print_part(&rt, &list, 0, 2)?;
    // a single bin, the whole list
    print_part(&rt, &list, 9, 9)?;
    print_part(&rt, &list, 2, 12)?;
    print_part(&rt, &list, 0, u32::MAX)?;
    // empty: the first above the last, nothing between, past the last number
    print_part(&rt, &list, 9, 5)?;
    print_part(&rt, &list, 6, 8)?;
    print_part(&rt, &list, 13, u32::MAX)?;
    // the first and the last bin
    let ends = [1u32, 7, u32::MAX];
    print_part(&rt, &ends, 0, 1)?;
    print_part(&rt, &ends, u32::MAX, u32::MAX)?;
    print_part(&rt, &ends, 0, u32::MAX)?;
    print_part(&rt, &ends, 2, u32::MAX - 1)?;
    // a 0 at the start is the unmapped mark and never shown, however many there are
    let marked = [0u32, 3, 5];
    print_part(&rt, &marked, 0, 3)?;
    print_part(&rt, &marked, 0, 0)?;
    print_part(&rt, &marked, 4, u32::MAX)?;
    let marked_more = [0u32, 0, 0, 3];
    print_part(&rt, &marked_more, 0, 9)?;
    let marks_only = [0u32, 0];
    print_part(&rt, &marks_only, 0, u32::MAX)?;
    // lists that do not rise
    let falling = [2u32, 9, 5, 12];
    print_part(&rt, &falling, 2, 12)?;
    let equal = [3u32, 3];
    print_part(&rt, &equal, 3, 3)?;
    let mark_further_on = [0u32, 0, 5, 0];
    print_part(&rt, &mark_further_on, 0, 5)?;
    // the empty list
    let nothing = [0u32; 0];
    print_part(&rt, &nothing, 0, u32::MAX)?;
    Ok(())
}
