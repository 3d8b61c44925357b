// A pool that runs dry: what is set aside is no room until every cache was told, and then it is.
use crate::usual::{self, page};
use ask::BYTES;
use std::io;

// The last page of the address space: it ends at 2^64.
const LAST: u64 = 0xffff_ffff_ffff_f000;

fn begin(rt: &impl Print, mem: &mut [u8]) -> io::Result<()> {
    usual::create(rt, mem)?;
    usual::map(rt, mem, page(0x1000, 0x20_0000, 0x1000))?;
    usual::map(rt, mem, page(0x1000, 0x30_0000, LAST))
}

fn run_dry(rt: &impl Print, mem: &mut [u8]) -> io::Result<()> {
    println!(rt; " a page of 1 GiB misses only one table; that takes the last page of the pool")?;
    usual::map(rt, mem, page(0x4000_0000, 0x4000_0000, 0x80_0000_0000))?;
    println!(rt; " where no table is missing, a dry pool is no hindrance")?;
    usual::map(rt, mem, page(0x1000, 0x20_1000, 0x2000))
}

fn make_room(rt: &impl Print, mem: &mut [u8]) -> io::Result<()> {
    println!(rt;
        " the tables of the first 2 MiB become empty with their last page, and not before"
    )?;
    usual::unmap(rt, mem, 0x1000)?;
    usual::unmap(rt, mem, 0x2000)
}

fn go_on(rt: &impl Print, mem: &mut [u8]) -> io::Result<()> {
    println!(rt;
        " a walk may still be in these three tables: until every cache was told they are no room"
    )?;
    usual::map(rt, mem, page(0x1000, 0x30_0000, LAST))?;
    usual::told(rt, mem, 3)?;
    usual::map(rt, mem, page(0x1000, 0x30_0000, LAST))?;
    usual::look_up(rt, mem, 0xffff_ffff_ffff_ffff)
}

pub fn act(rt: &impl Print) -> io::Result<()> {
    println!(rt; "A POOL THAT RUNS DRY")?;
    let mut mem = [0xa5u8; BYTES];
    begin(rt, &mut mem)?;
    run_dry(rt, &mut mem)?;
    make_room(rt, &mut mem)?;
    go_on(rt, &mut mem)
}
