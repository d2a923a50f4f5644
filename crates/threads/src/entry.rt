//! One entry of the thread table. It does not know its thread's number: whoever asks tells it.
ghost use Rattle.std.specs.Prelude.{◌≡◌, [], length};
ghost use Rattle.threads.specs.Entries.{open_in, entry_of, idle, begun, noted_in, logged_in};
ghost use Rattle.threads.specs.Judgement.{judged, room_in};

use crate::Undo;
use fault::{Fault, Layer, Refusal};
use record_log::Log;

/// The most records that an undo log holds.
pub(crate) const UNDO_LIMIT: usize = 64;

#[derive(Clone, Copy, PartialEq, Eq, Debug)]
pub(crate) enum State {
    /// no job
    Idle,
    /// a job was begun and has not ended
    Open,
}

/// What can be asked of a thread.
#[derive(Clone, Copy, PartialEq, Eq, Debug)]
pub enum Request {
    Begin,
    Load,
    Store,
    Commit,
    Abort,
}

/// The state stands beside the log, not around it: Table::note promises a record on an idle thread too.
#[derive(Clone, Copy)]
pub(crate) struct Entry {
    state: State,
    undo: Log<Undo, UNDO_LIMIT>,
}

impl Entry {
    pub(crate) fn new() -> Self
        ensures { entry_of result ≡ idle }
    {
        let filler = Undo { address: 0, old: 0 };
        Entry {
            state: State::Idle,
            undo: Log::new(filler),
        }
    }

    /// The given state, and an empty log.
    fn reset(&mut self, state: State)
        ensures { entry_of self.new ≡ record { is_open = open_in state; undo = [] } }
    {
        self.state = state;
        self.undo.clear();
    }

    /// Whether the thread's state allows the request: the two are matched together.
    pub(crate) fn judge(&self, thread: u64, request: Request) -> Result<(), Fault>
        ensures { result ≡ judged thread (entry_of self.now) request }
    {
        match (self.state, request) {
            (State::Idle, Request::Begin) => Ok(()),
            (State::Open, Request::Begin) => Err(Layer::Store.refuses(Refusal::JobOpen(thread))),
            (State::Idle, _) => Err(Layer::Store.refuses(Refusal::NoJobOpen(thread))),
            (State::Open, _) => Ok(()),
        }
    }

    /// Whether the log has a record for the address.
    fn logs(&self, address: u64) -> bool
        ensures { result ≡ logged_in (entry_of self.now).undo address }
    {
        self.undo.latest(address).is_some()
    }

    /// Whether the log has, or has room for, a record for the address.
    pub(crate) fn room(&self, address: u64) -> Result<(), Fault>
        ensures { result ≡ room_in (entry_of self.now).undo address }
    {
        if self.undo.count() < UNDO_LIMIT as u64 || self.logs(address) {
            return Ok(());
        }
        Err(Layer::Store.refuses(Refusal::UndoLogFull(address)))
    }

    /// Opens the thread with an empty log.
    pub(crate) fn begin(&mut self)
        ensures { entry_of self.new ≡ begun }
    {
        self.reset(State::Open);
    }

    /// Only the first store to an address adds a record. A full log keeps its records.
    pub(crate) fn note(&mut self, address: u64, old: u64)
        ensures { entry_of self.new ≡ noted_in (entry_of self.old) address old }
    {
        if !self.logs(address) {
            let _ = self.undo.push(Undo { address, old });
        }
    }

    /// Makes the thread idle and empties its log. Answers how many records there were.
    pub(crate) fn close(&mut self) -> u64
        ensures count { result ≡ length (entry_of self.old).undo }
        ensures after { entry_of self.new ≡ idle }
    {
        let count = self.undo.count();
        self.reset(State::Idle);
        count
    }

    /// The records, oldest first.
    pub(crate) fn undo(&self) -> &[Undo]
        ensures { result.now ≡ (entry_of self.now).undo }
    {
        self.undo.records()
    }
}
