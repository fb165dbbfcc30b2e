//! A case: what goes in, and what has to come out.

/// A case of a file, as it is written there.
#[derive(Drop)]
pub struct Case {
    pub name: String,
    /// What is wrong with how it is written: the number of the line, and why.
    pub wrong: Option<(usize, &'static str)>,
    /// The rows that the keeper has before the first run.
    pub rows: Vec<u8>,
    pub failing_keeper: Vec<u64>,
    pub place: Place,
    /// Calls of single functions, each with its answer, a line for each.
    pub calls: String,
    pub runs: Vec<Run>,
}

/// Where the tables of a case stand.
#[derive(Clone, Copy)]
pub enum Place {
    /// In memory. The keeper fails at the calls that it is told to.
    Memory,
    /// In a new database, which has no rows and never fails.
    Database,
    /// In a new journal. Its disk fails at the calls that the keeper is told to.
    Journal,
    /// In memory, but for the last run: its keeper gives the rows once, and takes every batch without keeping
    /// it.
    Nowhere,
}

/// One run of the program's words.
#[derive(Drop)]
pub struct Run {
    pub words: Vec<String>,
    pub given: Given,
    /// The exit status that is wanted. Every run has one.
    pub status: Option<u8>,
    pub wanted: Vec<Wanted>,
}

/// What the program finds outside, but for the keeper.
#[derive(Drop)]
pub struct Given {
    pub input: Vec<u8>,
    /// What comes on each connection of the door.
    pub connections: Vec<Vec<u8>>,
    pub failing: Failing,
    pub room: Room,
}

/// The numbers of the calls that fail, counted from 1.
#[derive(Drop)]
pub struct Failing {
    pub input: Vec<u64>,
    pub output: Vec<u64>,
    pub errors: Vec<u64>,
    /// Of `listen` and `accept`.
    pub accepts: Vec<u64>,
    /// Of `read` and `write` of the connections.
    pub transfers: Vec<u64>,
}

/// For how many bytes there is room.
#[derive(Clone, Copy)]
pub struct Room {
    pub output: u32,
    pub errors: u32,
    pub connection: u32,
}

/// What a run has to write, or part of it.
#[derive(Drop)]
pub struct Wanted {
    pub subject: Subject,
    pub extent: Extent,
    pub text: Vec<u8>,
}

/// What is compared.
#[derive(Clone, Copy, PartialEq, Eq)]
pub enum Subject {
    Output,
    Errors,
    /// What was written on a connection, counted from 0.
    Replies(usize),
    /// The rows that the keeper has after the run.
    Tables,
    /// Calls over the office of these rows, each with its answer.
    Asked,
}

/// How much of it the wanted text says.
#[derive(Clone, Copy, PartialEq, Eq)]
pub enum Extent {
    Whole,
    /// What the run before wrote there, in place of the wanted text.
    Again,
    Start,
    End,
    /// Lines that are all among its lines.
    Lines,
    /// Lines of which none is among its lines.
    Absent,
    /// Lines of which each is a part of it.
    Parts,
}
