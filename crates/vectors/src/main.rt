// Prints words of the hexacode and of the Hamming code, and what Hamming mends. A second program of other make prints
// the same bytes if both are right.
#![tactic(auto)]

mod answer;
mod mends;
mod shapes;
mod symbols;
mod words;

use crate::mends::write_mends;
use crate::shapes::write_shapes;
use crate::words::{write_weights, write_words};
use hamming::Hamming;
use hexacode::Hexacode;
use std::io;

fn main(rt: HostRuntime) -> io::Result<()> {
    run(&rt)
}

fn run(rt: &HostRuntime) -> io::Result<()> {
    let heap = rt.alloc();
    let mut out = Vec::new(heap);
    write_words(&mut out, heap, "hexacode", &Hexacode)?;
    write_weights(&mut out, heap, "hexacode", &Hexacode)?;
    write_shapes(&mut out, heap)?;
    write_words(&mut out, heap, "hamming", &Hamming)?;
    write_mends(&mut out, heap)?;
    rt.write_all(out.as_slice())
}
