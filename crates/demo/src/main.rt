// The demonstration: what the library does for the correlator's node, and what it refuses and why.
#![tactic(auto)]

use std::io;

mod damage;
mod dry;
mod edges;
mod node;
mod pools;
mod refusals;
mod usual;

// Each act has a title and a window of its own: two lines, and no fewer as a closure's argument.
fn main(rt: HostRuntime) -> io::Result<()> {
    node::act(&rt)?;
    dry::act(&rt)?;
    edges::act(&rt)?;
    refusals::act(&rt)?;
    pools::act(&rt)?;
    damage::act(&rt)
}
