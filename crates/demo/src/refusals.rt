// A refusal of each kind that a caller can cause in sound tables.
use crate::usual::{self, READ_ONLY, WRITE_EXECUTE, page};
use ask::BYTES;
use plan::Asked;
use std::io;

// A page of 4 KiB stands in the middle of 2 MiB from 1 GiB on.
const HERE: u64 = 0x4010_0000;

fn begin(rt: &impl Print, mem: &mut [u8]) -> io::Result<()> {
    usual::create(rt, mem)?;
    usual::map(rt, mem, page(0x1000, 0x20_0000, HERE))
}

fn shapes(rt: &impl Print, mem: &mut [u8]) -> io::Result<()> {
    println!(rt; " size and alignment")?;
    usual::map(rt, mem, page(8192, 0x20_0000, 0x20_0000))?;
    usual::map(rt, mem, page(0x20_0000, 0x20_0000, 0x10_0000))?;
    usual::map(rt, mem, page(0x20_0000, 0x30_0000, 0x20_0000))
}

fn ranges(rt: &impl Print, mem: &mut [u8]) -> io::Result<()> {
    println!(rt;
        " between the two halves of the virtual addresses, one page past the end of the physical ones"
    )?;
    usual::map(rt, mem, page(0x1000, 0x20_0000, 0x8000_0000_0000))?;
    usual::map(rt, mem, page(0x1000, 0x20_0000, 0xffff_7fff_ffff_f000))?;
    usual::map(rt, mem, page(0x1000, 0x10_0000_0000_0000, 0x20_0000))
}

fn executable(q: Asked) -> Asked {
    Asked {
        rights: WRITE_EXECUTE,
        ..q
    }
}

fn rights(rt: &impl Print, mem: &mut [u8]) -> io::Result<()> {
    println!(rt;
        " writable and executable: a page of the pool, the page that is there; and what no size fits"
    )?;
    usual::map(rt, mem, executable(page(0x1000, 0x10_3000, 0x20_0000)))?;
    usual::protect(rt, mem, HERE, WRITE_EXECUTE)?;
    usual::map(rt, mem, executable(page(8192, 0x20_0000, 0x20_0000)))
}

fn frames(rt: &impl Print, mem: &mut [u8]) -> io::Result<()> {
    println!(rt; " a page of the pool, and 2 MiB with the pool in their middle")?;
    usual::map(rt, mem, page(0x1000, 0x10_3000, 0x20_0000))?;
    usual::map(rt, mem, page(0x20_0000, 0, 0x20_0000))
}

fn overlaps(rt: &impl Print, mem: &mut [u8]) -> io::Result<()> {
    println!(rt; " the same page again, 2 MiB with that page in their middle, 1 GiB around both")?;
    usual::map(rt, mem, page(0x1000, 0x30_0000, HERE))?;
    usual::map(rt, mem, page(0x20_0000, 0x40_0000, 0x4000_0000))?;
    usual::map(rt, mem, page(0x4000_0000, 0x4000_0000, 0x4000_0000))
}

fn no_room(rt: &impl Print, mem: &mut [u8]) -> io::Result<()> {
    println!(rt; " three tables are missing, one page is free")?;
    usual::map(rt, mem, page(0x1000, 0x30_0000, 0x80_0000_0000))?;
    println!(rt; " a ticket above the present one")?;
    usual::told(rt, mem, 7)
}

fn nothing_starts(rt: &impl Print, mem: &mut [u8]) -> io::Result<()> {
    println!(rt; " inside the page, beside it, in the upper half; and where there is no address")?;
    usual::unmap(rt, mem, HERE + 8)?;
    usual::protect(rt, mem, HERE + 0x1000, READ_ONLY)?;
    usual::unmap(rt, mem, 0xffff_8000_0000_0000)?;
    usual::unmap(rt, mem, 0x8000_0000_0000)
}

fn first_half(rt: &impl Print, mem: &mut [u8]) -> io::Result<()> {
    begin(rt, mem)?;
    shapes(rt, mem)?;
    ranges(rt, mem)?;
    rights(rt, mem)?;
    frames(rt, mem)
}

pub fn act(rt: &impl Print) -> io::Result<()> {
    println!(rt; "REFUSALS")?;
    let mut mem = [0xa5u8; BYTES];
    first_half(rt, &mut mem)?;
    overlaps(rt, &mut mem)?;
    no_room(rt, &mut mem)?;
    nothing_starts(rt, &mut mem)
}
