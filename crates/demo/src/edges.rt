// The edges of the two halves of the addresses: the last page of the lower half, the first of the upper one, and the last of all, which ends
// at 2^64. What lies between the halves is no address.
use crate::usual::{self, READ_ONLY, page};
use ask::BYTES;
use std::io;

// The lower half ends before it.
const HOLE: u64 = 0x8000_0000_0000;

const UPPER: u64 = 0xffff_8000_0000_0000;

const LAST: u64 = 0xffff_ffff_c000_0000;

fn map_all(rt: &impl Print, mem: &mut [u8]) -> io::Result<()> {
    usual::create(rt, mem)?;
    usual::map(rt, mem, page(0x4000_0000, 0x4000_0000, HOLE - 0x4000_0000))?;
    usual::map(rt, mem, page(0x4000_0000, 0x8000_0000, UPPER))?;
    usual::map(rt, mem, page(0x4000_0000, 0xc000_0000, LAST))
}

fn look_around(rt: &impl Print, mem: &[u8]) -> io::Result<()> {
    for va in [HOLE - 1, HOLE, UPPER - 1, UPPER, LAST + 0x3fff_ffff] {
        usual::look_up(rt, mem, va)?;
    }
    Ok(())
}

fn hand_back(rt: &impl Print, mem: &mut [u8]) -> io::Result<()> {
    usual::protect(rt, mem, LAST, READ_ONLY)?;
    usual::look_up(rt, mem, LAST)?;
    usual::unmap(rt, mem, LAST)?;
    usual::unmap(rt, mem, UPPER)
}

pub fn act(rt: &impl Print) -> io::Result<()> {
    println!(rt; "THE EDGES OF THE ADDRESSES")?;
    let mut mem = [0xa5u8; BYTES];
    map_all(rt, &mut mem)?;
    look_around(rt, &mem)?;
    hand_back(rt, &mut mem)
}
