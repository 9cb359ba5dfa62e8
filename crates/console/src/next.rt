// What comes after a line.
use crate::model::Name;

/// What the line that was carried out leaves to do.
#[derive(Clone, Copy)]
pub enum Next {
    /// Go on with the next line.
    Line,
    /// The script is over.
    End,
    /// Serve this model.
    Choose(Name),
    /// Make a store of so many cues and levels.
    Store(usize, usize),
    /// Let the store run.
    Start,
    /// Let the store plot.
    Stop,
}
