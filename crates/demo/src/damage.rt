// Damaged tables and books: a word is overwritten, what needs it is refused, and when the word is back all goes on.
use crate::usual::{self, page};
use ask::{BYTES, FIRST, ORIGIN, ROOT};
use pool::{FREE_AT, HEADER, TICKETS_AT};
use std::io;

const HERE: u64 = 0x1000;

fn overwrite(mem: &mut [u8], page: u64, index: u64, w: u64) {
    let mut left: u64 = word::ENDLESS;
    word::write(mem, &mut left, ORIGIN, page, index, w)
}

// Goes through the steps while another word stands there, and puts back the one that did.
fn damaged<F>(mem: &mut [u8], page: u64, index: u64, w: u64, steps: F) -> io::Result<()>
where
    F: FnOnce(&mut [u8]) -> io::Result<()>,
    requires { F.IsAlwaysCallable steps }
{
    let sound = word::read(mem, ORIGIN, page, index);
    overwrite(mem, page, index, w);
    steps(mem)?;
    if let Some(sound) = sound {
        overwrite(mem, page, index, sound);
    }
    Ok(())
}

fn begin(rt: &impl Print, mem: &mut [u8]) -> io::Result<()> {
    usual::create(rt, mem)?;
    usual::map(rt, mem, page(0x1000, 0x20_0000, HERE))
}

// Entry 0 of the root names the table in page 0x103.
fn stray(rt: &impl Print, mem: &mut [u8]) -> io::Result<()> {
    println!(rt; " the root's entry 0 now names page 0x900, which nobody lent")?;
    damaged(mem, ROOT, 0, 0x90_0007, |mem| {
        usual::unmap(rt, mem, HERE)?;
        usual::look_up(rt, mem, HERE)
    })
}

fn book_as_table(rt: &impl Print, mem: &mut [u8]) -> io::Result<()> {
    println!(rt; " now it names the book")?;
    damaged(mem, ROOT, 0, 0x10_1007, |mem| {
        usual::map(rt, mem, page(0x1000, 0x30_0000, 0x2000))
    })
}

// Three pages were taken, so the free one is in slot 3, behind the book's header.
fn bad_list(rt: &impl Print, mem: &mut [u8]) -> io::Result<()> {
    println!(rt; " the book lists the root as free")?;
    damaged(mem, FIRST, HEADER + 3, ROOT, |mem| {
        usual::map(rt, mem, page(0x20_0000, 0x40_0000, 0x4000_0000))
    })
}

fn bad_count(rt: &impl Print, mem: &mut [u8]) -> io::Result<()> {
    println!(rt; " the book counts a thousand free pages")?;
    damaged(mem, FIRST, FREE_AT, 1000, |mem| usual::unmap(rt, mem, HERE))
}

fn go_on(rt: &impl Print, mem: &mut [u8]) -> io::Result<()> {
    println!(rt; " every word is back")?;
    usual::look_up(rt, mem, HERE)?;
    usual::map(rt, mem, page(0x20_0000, 0x40_0000, 0x4000_0000))
}

// Tickets end at 2^62.
fn spent(rt: &impl Print, mem: &mut [u8]) -> io::Result<()> {
    println!(rt; " as if 2^62 tickets had been used up")?;
    overwrite(mem, FIRST, TICKETS_AT, 0x4000_0000_0000_0000);
    usual::unmap(rt, mem, HERE)?;
    usual::told(rt, mem, 0x4000_0000_0000_0002)
}

fn first_half(rt: &impl Print, mem: &mut [u8]) -> io::Result<()> {
    begin(rt, mem)?;
    stray(rt, mem)?;
    book_as_table(rt, mem)
}

pub fn act(rt: &impl Print) -> io::Result<()> {
    println!(rt; "DAMAGE")?;
    let mut mem = [0xa5u8; BYTES];
    first_half(rt, &mut mem)?;
    bad_list(rt, &mut mem)?;
    bad_count(rt, &mut mem)?;
    go_on(rt, &mut mem)?;
    spent(rt, &mut mem)
}
