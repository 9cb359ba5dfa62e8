// Carries out the lines of a script, one after the other.
ghost use Rattle.console.specs.Text.{pieces_left, chosen, UsesLines, AsksByLines};

use crate::command::Command;
use crate::desk::{Desk, Filled};
use crate::fault::Fault;
use crate::holder::{AtPlotting, AtStore, Chosen, Holder, NoModel, UsedUp};
use crate::model::{Model, Name};
use crate::models::{punctured_hexacode, rig, short_hamming, split, three_pile, tower};
use crate::next::Next;
use crate::outcome::{Carriers, CodeNumbers, Outcome, Refused};
use crate::slips::Slips;
use crate::text::Pieces;
use alphabets::Three;
use codes::code::Code;
use codes::refusals::MakingRefusal;
use cues::Plotting;
use hamming::Hamming;
use hexacode::Hexacode;
use parity::Parity;
use piles::{ReedMuller3, ReedMuller5, four_pile, reed_muller};
use repetition::Repetition;
use std::alloc::{AllocError, Global};
use std::io;
use std::io::Write;

// The runtime and the lines to come go side by side: the clauses speak of the lines alone, and a struct for both would stand in
// each of them.
/// Carries out a whole script.
pub fn run_script(rt: &HostRuntime, script: &[u8]) -> io::Result<()> {
    let mut lines = Pieces::lines(script);
    let mut given = 0;
    let mut next = serve(rt, &mut lines, &mut NoModel)?;
    while let Next::Choose(name) = next {
        next = serve_named(rt, &mut lines, name, &mut given)?;
    }
    Ok(())
}

/// Serves the model of this name.
fn serve_named(
    rt: &HostRuntime,
    lines: &mut Pieces,
    name: Name,
    given: &mut usize,
) -> io::Result<Next>
    ensures chosen { UsesLines (chosen result) (pieces_left lines.old.rest) (pieces_left lines.new.rest) }
    ensures asked { AsksByLines result (pieces_left lines.old.rest) (pieces_left lines.new.rest) }
{
    // A match and no table: each arm has a code of another type.
    match name {
        Name::Rep5Three => serve_model(rt, lines, name, given, Repetition::<Three>::new(5)),
        Name::Parity3Three => serve_model(rt, lines, name, given, Parity::<Three>::new(3)),
        Name::Hamming => serve_model(rt, lines, name, given, Ok(Hamming)),
        Name::Hexacode => serve_model(rt, lines, name, given, Ok(Hexacode)),
        Name::Rm3 => serve_model(rt, lines, name, given, reed_muller::<ReedMuller3>()),
        Name::Mariner => serve_model(rt, lines, name, given, reed_muller::<ReedMuller5>()),
        Name::FourPile => serve_model(rt, lines, name, given, four_pile()),
        Name::ThreePile => serve_model(rt, lines, name, given, three_pile()),
        Name::Split => serve_model(rt, lines, name, given, split()),
        Name::Rig => serve_model(rt, lines, name, given, rig()),
        Name::ShortHamming => serve_model(rt, lines, name, given, short_hamming()),
        Name::PuncturedHexacode => serve_model(rt, lines, name, given, punctured_hexacode()),
        Name::Tower => serve_model(rt, lines, name, given, tower()),
    }
}

/// Answers the line that chose the model, and serves it.
fn serve_model<M: Model + Drop>(
    rt: &HostRuntime,
    lines: &mut Pieces,
    name: Name,
    given: &mut usize,
    made: Result<M, MakingRefusal>,
) -> io::Result<Next>
    ensures chosen { UsesLines (chosen result) (pieces_left lines.old.rest) (pieces_left lines.new.rest) }
    ensures asked { AsksByLines result (pieces_left lines.old.rest) (pieces_left lines.new.rest) }
{
    let model = match made {
        Ok(model) => model,
        Err(why) => {
            print_refusal(rt, why)?;
            return serve(rt, lines, &mut NoModel);
        }
    };
    print_model(rt, name, model.code())?;
    let mut chosen = Chosen(model);
    let next = serve(rt, lines, &mut chosen)?;
    let Next::Store(cues, levels) = next else {
        return Ok(next);
    };
    let Chosen(model) = chosen;
    serve_store(rt, lines, model.into_code(), cues, levels, given)
}

/// Answers the line that makes a store over this code, and serves the store.
fn serve_store<C: Code + Drop>(
    rt: &HostRuntime,
    lines: &mut Pieces,
    code: C,
    cues: usize,
    levels: usize,
    given: &mut usize,
) -> io::Result<Next>
    ensures { AsksByLines result (pieces_left lines.old.rest) (pieces_left lines.new.rest) }
{
    let store = match Plotting::new(code, cues, levels) {
        Ok(store) => store,
        Err(why) => {
            print_refusal(rt, why)?;
            return serve(rt, lines, &mut UsedUp);
        }
    };
    let desk = new_desk(rt, &store, levels)?;
    let at = AtStore {
        store,
        desk,
        slips: Slips::new(rt.alloc(), *given),
    };
    let (at, next) = plot_and_run(rt, lines, at);
    *given = at.end();
    next
}

/// Serves a store, plotting and running by turns, until a model is chosen or the script ends.
fn plot_and_run<C: Code + Drop>(
    rt: &HostRuntime,
    lines: &mut Pieces,
    at: AtPlotting<C>,
) -> (AtPlotting<C>, io::Result<Next>)
    ensures { AsksByLines result.1 (pieces_left lines.old.rest) (pieces_left lines.new.rest) }
{
    let mut at = at;
    loop {
        let next = serve(rt, lines, &mut at);
        let Ok(Next::Start) = next else {
            return (at, next);
        };
        let mut running = at.start();
        let next = serve(rt, lines, &mut running);
        at = running.stop();
        let Ok(Next::Stop) = next else {
            return (at, next);
        };
    }
}

/// The cells and the bytes that calls are handed, as they are when a store is new; answers the line that made it.
fn new_desk<C: Code + Drop>(
    rt: &HostRuntime,
    store: &Plotting<C>,
    levels: usize,
) -> io::Result<Desk> {
    let heap = rt.alloc();
    let words = store.words();
    let count = store.cells();
    let mut cells = Vec::new(heap);
    cells.resize(count, 0)?;
    let mut answer = Vec::new(heap);
    writeln!(answer, "accepted; {words} words, {count} cells")?;
    rt.write_all(answer.as_slice())?;
    Ok(Desk {
        cells,
        memory: Filled {
            count: store.working_length(),
            byte: Filled::DIRTY,
        },
        levels: Filled {
            count: levels,
            byte: Filled::DIRTY,
        },
    })
}

/// Answers a line that chose a model.
fn print_model<C: Code>(rt: &HostRuntime, name: Name, code: &C) -> io::Result<()> {
    println!(rt; "{name}: {}, {}", CodeNumbers(code), Carriers(code))
}

/// Answers a line that chose a model or made a store, and is refused.
fn print_refusal<R: Refused + Drop>(rt: &HostRuntime, why: R) -> io::Result<()> {
    println!(rt; "{}", Outcome(Err(why)))
}

/// Carries out lines until one asks for something else than the next line; End at the end of the script.
fn serve<H: Holder>(rt: &HostRuntime, lines: &mut Pieces, holder: &mut H) -> io::Result<Next>
    ensures chosen { UsesLines (chosen result) (pieces_left lines.old.rest) (pieces_left lines.new.rest) }
    ensures asked { AsksByLines result (pieces_left lines.old.rest) (pieces_left lines.new.rest) }
{
    // No `for`: at a return from inside it nothing is known of the lines that are left.
    while let Some(line) = lines.next() {
        if is_skipped(line) {
            continue;
        }
        match answer_line(rt, holder, line)? {
            Next::Line => {}
            next => return Ok(next),
        }
    }
    Ok(Next::End)
}

/// Whether a line is empty or a comment.
fn is_skipped(line: &[u8]) -> bool {
    matches!(line, [] | [b'#', ..])
}

/// Prints the line and its answer, but for a line that chooses a model or makes a store: its answer is left to that.
fn answer_line<H: Holder>(rt: &HostRuntime, holder: &mut H, line: &[u8]) -> io::Result<Next> {
    let heap = rt.alloc();
    let mut answer = echo(heap, line)?;
    let next = match carry_out(heap, holder, line, &mut answer) {
        Ok(next) => next,
        Err(Fault::Cannot(reason)) => {
            writeln!(answer, "? {reason}")?;
            Next::Line
        }
        Err(Fault::Failed(error)) => return Err(error),
        Err(Fault::OutOfMemory(error)) => return Err(error.into()),
    };
    rt.write_all(answer.as_slice())?;
    Ok(next)
}

/// The line as it was read, to stand above its answer.
fn echo(heap: Global, line: &[u8]) -> Result<Vec<u8>, AllocError> {
    let mut answer = Vec::from_slice(heap, b"> ")?;
    answer.extend_from_slice(line)?;
    answer.push(b'\n')?;
    Ok(answer)
}

/// Carries out a line and writes its answer.
fn carry_out<H: Holder>(
    heap: Global,
    holder: &mut H,
    line: &[u8],
    answer: &mut Vec<u8>,
) -> Result<Next, Fault> {
    match Command::parse(heap, line)? {
        Command::Choose(name) => Ok(Next::Choose(name)),
        Command::Make(making) => {
            making.make(answer)?;
            Ok(Next::Line)
        }
        command => holder.carry_out(heap, command, answer),
    }
}
