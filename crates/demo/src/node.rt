// A night at the correlator's node: a buffer of samples of 2 MiB and one of visibilities of 1 GiB are mapped, filled, handed on to
// the next stage read-only, and unmapped; their tables come back when every cache was told.
use crate::usual::{self, READ_ONLY, page};
use ask::BYTES;
use std::io;

const SAMPLES: u64 = 0x7f00_0020_0000;

const VISIBILITIES: u64 = 0x7f00_4000_0000;

fn map_both(rt: &impl Print, mem: &mut [u8]) -> io::Result<()> {
    println!(rt;
        " a pool: pages that may become tables; the first is the book, which says which are free"
    )?;
    usual::create(rt, mem)?;
    usual::map(rt, mem, page(0x20_0000, 0x8000_0000, SAMPLES))?;
    usual::map(rt, mem, page(0x4000_0000, 0x1_0000_0000, VISIBILITIES))
}

fn look_at_both(rt: &impl Print, mem: &[u8]) -> io::Result<()> {
    usual::look_up(rt, mem, SAMPLES + 0x12345)?;
    usual::look_up(rt, mem, VISIBILITIES + 0x1234_5678)
}

fn hand_on(rt: &impl Print, mem: &mut [u8]) -> io::Result<()> {
    println!(rt;
        " both are full: the next stage gets them read-only, once every processor was told: INVLPG on each"
    )?;
    usual::protect(rt, mem, SAMPLES, READ_ONLY)?;
    usual::protect(rt, mem, VISIBILITIES, READ_ONLY)
}

fn take_back(rt: &impl Print, mem: &mut [u8]) -> io::Result<()> {
    println!(rt;
        " the next stage is done with them. A table that becomes empty is set aside: out of use, but a processor may"
    )?;
    println!(rt;
        " still be walking through it, so that it is neither written nor handed out; the ticket names this moment, for the report"
    )?;
    usual::unmap(rt, mem, SAMPLES)?;
    usual::unmap(rt, mem, VISIBILITIES)
}

fn report(rt: &impl Print, mem: &mut [u8]) -> io::Result<()> {
    println!(rt;
        " told: every processor has dropped what it had cached, and that is reported, with the ticket; what was set aside is free"
    )?;
    usual::told(rt, mem, 1)?;
    usual::told(rt, mem, 2)
}

fn fill(rt: &impl Print, mem: &mut [u8]) -> io::Result<()> {
    map_both(rt, mem)?;
    look_at_both(rt, mem)?;
    hand_on(rt, mem)?;
    look_at_both(rt, mem)
}

pub fn act(rt: &impl Print) -> io::Result<()> {
    println!(rt; "A NIGHT AT THE CORRELATOR")?;
    // what the bytes were before does not matter
    let mut mem = [0xa5u8; BYTES];
    fill(rt, &mut mem)?;
    take_back(rt, &mut mem)?;
    look_at_both(rt, &mem)?;
    report(rt, &mut mem)
}
