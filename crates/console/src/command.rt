// The commands of a script, read from its lines.
use crate::desk::{Common, Filled};
use crate::fault::{Fault, Reason};
use crate::making::Making;
use crate::model::Name;
use crate::plotting::Plot;
use crate::text::{LONGEST_LIST, Pieces, parse_byte, parse_list, parse_number};
use std::alloc::Global;

/// A call of a code.
#[derive(Clone, Copy)]
pub enum Call {
    Send,
    Mend,
    Read,
    Show,
}

// A command is read from the script, so it is a value, and is matched where it is served.
/// A line that can be carried out, if there is what it works on.
#[derive(Drop)]
pub enum Command {
    /// Choose a model.
    Choose(Name),
    /// Make a call with this memory.
    Perform(Call, Vec<u8>),
    /// Make a code.
    Make(Making),
    /// Make a store of so many cues and levels over the model's code.
    Store(usize, usize),
    /// What any store serves.
    Serve(Common),
    /// What a plotting store serves.
    Plot(Plot),
    Start,
    Stop,
}

impl Command {
    /// What a line asks for: its first word says what words follow.
    pub fn parse(heap: Global, line: &[u8]) -> Result<Command, Fault> {
        let mut words = Pieces::words(line);
        let first = words.next().ok_or(Reason::UnknownCommand)?;
        Ok(match first {
            b"model" => Command::Choose(Name::try_from(only_word(words)?)?),
            b"send" => Command::Perform(Call::Send, parse_list(heap, words)?),
            b"mend" => Command::Perform(Call::Mend, parse_list(heap, words)?),
            b"read" => Command::Perform(Call::Read, parse_list(heap, words)?),
            b"show" => Command::Perform(Call::Show, parse_list(heap, words)?),
            b"make-repetition" => Command::Make(Making::Repetition(only_number(words)?)),
            b"make-parity" => Command::Make(Making::Parity(only_number(words)?)),
            b"make-plotkin" => Command::Make(Making::Plotkin(
                next_number(&mut words)?,
                only_number(words)?,
            )),
            b"make-sum" => Command::Make(Making::Sum(
                next_number(&mut words)?,
                only_number(words)?,
            )),
            b"make-puncture" => Command::Make(Making::Puncture(
                next_number(&mut words)?,
                only_number(words)?,
            )),
            b"make-shorten" => Command::Make(Making::Shorten(
                next_number(&mut words)?,
                only_number(words)?,
            )),
            b"store" => Command::Store(next_number(&mut words)?, only_number(words)?),
            b"cells" => Command::Serve(parse_cells(heap, words)?),
            b"damage" => Command::Serve(Common::Damage(
                next_number(&mut words)?,
                only_byte(words)?,
            )),
            b"memory" => Command::Serve(Common::Memory(filled(words)?)),
            b"levels" => Command::Serve(Common::Levels(filled(words)?)),
            b"touch-up" => Command::Serve(Common::TouchUp(only_number(words)?)),
            b"recall" => Command::Serve(Common::Recall(only_number(words)?)),
            b"tally" => without_words(words, Command::Serve(Common::Tally))?,
            b"record" => Command::Plot(Plot::Record(
                next_number(&mut words)?,
                parse_list(heap, words)?,
            )),
            b"record-by-slip" => Command::Plot(Plot::RecordBySlip(
                next_number(&mut words)?,
                parse_list(heap, words)?,
            )),
            b"hold" => Command::Plot(Plot::Hold(only_number(words)?)),
            b"other-slip" => Command::Plot(Plot::OtherSlip(only_number(words)?)),
            b"let-go" => Command::Plot(Plot::LetGo(only_number(words)?)),
            b"wipe" => Command::Plot(Plot::Wipe(only_number(words)?)),
            b"start" => without_words(words, Command::Start)?,
            b"stop" => without_words(words, Command::Stop)?,
            _ => return Err(Fault::Cannot(Reason::UnknownCommand)),
        })
    }
}

/// New cells, or none where there is no word: the cells are then shown.
fn parse_cells(heap: Global, words: Pieces) -> Result<Common, Fault> {
    if words.is_ended() {
        return Ok(Common::ShowCells);
    }
    Ok(Common::NewCells(parse_list(heap, words)?))
}

/// So many bytes, at most as many as a list may have.
fn filled(mut words: Pieces) -> Result<Filled, Reason> {
    let count = next_number(&mut words)?;
    let byte = only_byte(words)?;
    if count > LONGEST_LIST {
        return Err(Reason::WrongArguments);
    }
    Ok(Filled { count, byte })
}

/// The next word, as a number.
fn next_number(words: &mut Pieces) -> Result<usize, Reason> {
    let word = words.next().ok_or(Reason::WrongArguments)?;
    parse_number(word).ok_or(Reason::WrongArguments)
}

/// The one word that is left, as a number.
fn only_number(words: Pieces) -> Result<usize, Reason> {
    parse_number(only_word(words)?).ok_or(Reason::WrongArguments)
}

// As `only_number`: a function that takes the parsing would be no shorter.
/// The one word that is left, as a byte.
fn only_byte(words: Pieces) -> Result<u8, Reason> {
    parse_byte(only_word(words)?).ok_or(Reason::WrongArguments)
}

/// The one word that is left.
fn only_word<'a>(mut words: Pieces<'a>) -> Result<&'a [u8], Reason> {
    let word = words.next().ok_or(Reason::WrongArguments)?;
    without_words(words, word)
}

/// The value, if no word is left.
fn without_words<T: Drop>(words: Pieces, value: T) -> Result<T, Reason> {
    if words.is_ended() {
        Ok(value)
    } else {
        Err(Reason::WrongArguments)
    }
}
