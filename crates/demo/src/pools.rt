// Windows, pools, roots and books that make no sense: refused like any other argument.
use crate::usual::page;
use ask::{BYTES, FIRST, ORIGIN, SPACE};
use pool::Space;
use std::io;

fn asked(rt: &impl Print, mem: &mut [u8], space: Space) -> io::Result<()> {
    ask::map(rt, mem, space, page(0x1000, 0x20_0000, 0x1000))
}

// The window's ends are page boundaries.
fn windows(rt: &impl Print, mem: &mut [u8]) -> io::Result<()> {
    let mut odd = [0xa5u8; 32767];
    println!(rt; " a window that begins, or ends, in the middle of a page")?;
    let origin = ORIGIN + 8;
    ask::create(rt, mem, Space { origin, ..SPACE })?;
    ask::create(rt, &mut odd, SPACE)
}

fn sizes(rt: &impl Print, mem: &mut [u8]) -> io::Result<()> {
    println!(rt; " too small, too large, and a page longer than the window")?;
    for pages in [2, 0x1_0000_0001, 8] {
        ask::create(rt, mem, Space { pages, ..SPACE })?;
    }
    Ok(())
}

fn no_book(rt: &impl Print, mem: &mut [u8]) -> io::Result<()> {
    println!(rt; " before a pool was created: all bytes are 0")?;
    asked(rt, mem, SPACE)?;
    ask::told(rt, mem, SPACE, 1)?;
    ask::create(rt, mem, SPACE)
}

fn spaces(rt: &impl Print, mem: &mut [u8]) -> io::Result<()> {
    println!(rt;
        " the book as the root, a pool of five pages where it has six, and a pool behind the window"
    )?;
    let root = FIRST;
    asked(rt, mem, Space { root, ..SPACE })?;
    asked(rt, mem, Space { pages: 5, ..SPACE })?;
    let outside = Space {
        first: 0x900,
        root: 0x901,
        ..SPACE
    };
    asked(rt, mem, outside)
}

pub fn act(rt: &impl Print) -> io::Result<()> {
    println!(rt; "WINDOWS AND POOLS THAT MAKE NO SENSE")?;
    let mut mem = [0u8; BYTES];
    windows(rt, &mut mem)?;
    sizes(rt, &mut mem)?;
    no_book(rt, &mut mem)?;
    spaces(rt, &mut mem)
}
