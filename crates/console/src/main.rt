// Reads a script from standard input and prints what each of its commands did.
#![tactic(auto)]

mod command;
mod desk;
mod fault;
mod holder;
mod making;
mod model;
mod models;
mod next;
mod outcome;
mod plotting;
mod session;
mod slips;
mod text;

use crate::session::run_script;
use std::io;
use std::io::Read;

fn main(rt: HostRuntime) -> io::Result<()> {
    run(&rt)
}

fn run(rt: &HostRuntime) -> io::Result<()> {
    let mut script = Vec::new(rt.alloc());
    rt.stdin().read_to_end(&mut script)?;
    run_script(rt, script.as_slice())
}
