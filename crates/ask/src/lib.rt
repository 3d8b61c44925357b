// Each operation, with what is asked and what came of it in words. After a refusal the window is compared with what it was.
#![tactic(auto)]

use entry::Rights;
use plan::Asked;
use pool::Space;
use say::{Count, Page};
use std::error::Error;
use std::io;
use window::{book, copy};

mod window;

pub use window::{BYTES, FIRST, ORIGIN, ROOT, SPACE};

// Carries an operation out, and says what came of it: `done` says it of a success, and of a refusal the error does.
fn carry_out<T, E, A, D>(rt: &impl Print, mem: &mut [u8], act: A, done: D) -> io::Result<()>
where
    T: Drop,
    E: Error,
    A: FnOnce(&mut [u8]) -> Result<T, E>,
    D: FnOnce(&[u8], T) -> io::Result<()> + Drop,
    requires act { A.IsAlwaysCallable act }
    requires done { D.IsAlwaysCallable done }
{
    let old = copy(mem);
    match act(mem) {
        Ok(x) => {
            print!(rt; "    done: ")?;
            done(mem, x)
        }
        Err(why) if old.starts_with(mem) => println!(rt; "    refused: {why}; no byte changed"),
        Err(why) => println!(rt; "    refused: {why}; THE WINDOW CHANGED"),
    }
}

pub fn create(rt: &impl Print, mem: &mut [u8], space: Space) -> io::Result<()> {
    println!(rt;
        "  create a pool of {} pages from page {:#x} on, in a window at {:#x}",
        space.pages, space.first, space.origin
    )?;
    carry_out(
        rt,
        mem,
        |mem| tablepath::create(mem, space.origin, space.first, space.pages),
        |mem, root| {
            print!(rt; "the root is page {root:#x}")?;
            book(rt, mem, space)
        },
    )
}

pub fn map(rt: &impl Print, mem: &mut [u8], space: Space, q: Asked) -> io::Result<()> {
    println!(rt;
        "  map {:#x} to {}, {}",
        q.base,
        Page(q.size, q.frame),
        q.rights
    )?;
    carry_out(
        rt,
        mem,
        |mem| tablepath::map(mem, space, q),
        |mem, made| {
            print!(rt; "made {}", Count(made, "table"))?;
            book(rt, mem, space)
        },
    )
}

pub fn unmap(rt: &impl Print, mem: &mut [u8], space: Space, base: u64) -> io::Result<()> {
    println!(rt; "  unmap {base:#x}")?;
    carry_out(
        rt,
        mem,
        |mem| tablepath::unmap(mem, space, base),
        |mem, gone| {
            print!(rt;
                "it was {}; set aside {}, ticket {}",
                Page(gone.size, gone.frame),
                Count(gone.aside, "table"),
                gone.ticket
            )?;
            book(rt, mem, space)
        },
    )
}

pub fn protect(
    rt: &impl Print,
    mem: &mut [u8],
    space: Space,
    base: u64,
    rights: Rights,
) -> io::Result<()> {
    println!(rt; "  protect {base:#x}, now {rights}")?;
    carry_out(
        rt,
        mem,
        |mem| tablepath::protect(mem, space, base, rights),
        |_, now| println!(rt;
            "it is {}; ticket {}",
            Page(now.size, now.frame),
            now.ticket
        ),
    )
}

pub fn told(rt: &impl Print, mem: &mut [u8], space: Space, ticket: u64) -> io::Result<()> {
    println!(rt; "  every cache was told, ticket {ticket}")?;
    carry_out(
        rt,
        mem,
        |mem| tablepath::told(mem, space, ticket),
        |mem, released| {
            print!(rt; "released {}", Count(released, "page"))?;
            book(rt, mem, space)
        },
    )
}

// The root is given as in CR3, by its address.
pub fn look_up(rt: &impl Print, mem: &[u8], space: Space, va: u64) -> io::Result<()> {
    println!(rt; "  look up {va:#x}")?;
    if word::PAGE_COUNT <= space.root {
        return Ok(());
    }
    let found = tablepath::look_up(mem, space.origin, space.root * 4096, va);
    println!(rt; "    {found}")
}
