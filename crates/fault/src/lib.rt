//! Refusals: every answer of the station that is not a granted one.
//!
//! A fault says which layer refused, and why. The number and the place of a refusal are what the
//! station prints; docs/REFUSALS.md lists them all.
#![tactic(auto)]

ghost use Rattle.std.specs.Prelude.{◌≡◌, Some};
ghost use Rattle.fault.specs.Numbers.{letter_of, number_of, place_of, text_of};

use std::fmt;

/// The layer that refused.
#[derive(Clone, Copy, PartialEq, Eq, Debug)]
pub enum Layer {
    /// the script's text
    Text,
    /// the store and its thread table
    Store,
    /// a memory
    Memory,
    /// a book of holdings
    Book,
    /// the marks that a board book keeps
    Marks,
}

impl Layer {
    /// The layer's letter in a report.
    pub fn letter(self) -> char
        ensures { result ≡ letter_of self }
    {
        match self {
            Layer::Text => 'T',
            Layer::Store => 'S',
            Layer::Memory => 'M',
            Layer::Book => 'B',
            Layer::Marks => 'K',
        }
    }

    /// The fault that the layer gives by a refusal.
    pub fn refuses(self, refusal: Refusal) -> Fault
        ensures { result ≡ record { layer = self; refusal = refusal } }
    {
        Fault {
            layer: self,
            refusal,
        }
    }
}

/// One case for each refusal, with the number that it carries.
#[derive(Clone, Copy, PartialEq, Eq, Debug)]
pub enum Refusal {
    /// 1: a thread above 15; carries the thread
    ThreadOutOfRange(u64),
    /// 2: a begin on a thread with an open job; carries the thread
    JobOpen(u64),
    /// 3: a load, store, commit or abort on a thread without an open job; carries the thread
    NoJobOpen(u64),
    /// 4: an address past the memory's last word; carries the address
    AddressOutOfRange(u64),
    /// 5: a store to an address that the full undo log lacks; carries the address
    UndoLogFull(u64),
    /// 6: another thread holds all tokens of the block to be loaded from; carries that thread
    LoadConflict(u64),
    /// 7: another thread holds a token of the block to be stored to; carries the lowest such thread
    StoreConflict(u64),
    /// 8: a board above 3; carries the board
    BoardOutOfRange(u64),
    /// 9: a block above 63; carries the block
    BlockOutOfRange(u64),
    /// 10: two marks that cannot stand for one block together; carries the sum of both
    MarksApart(u64),
    /// 11: a line whose first field is no command letter; that field's position is always 1
    UnknownCommand,
    /// 12: a line with the wrong number of fields; carries the number found
    WrongFieldCount(u64),
    /// 13: a field that is no number; carries its position, the command letter being 1
    NotANumber(u64),
    /// 14: too little room left in the report; carries the number of the line that was not run
    ReportFull(u64),
}

impl Refusal {
    /// The refusal's number.
    pub fn number(self) -> u64
        ensures { result ≡ number_of self }
    {
        match self {
            Refusal::ThreadOutOfRange(_) => 1,
            Refusal::JobOpen(_) => 2,
            Refusal::NoJobOpen(_) => 3,
            Refusal::AddressOutOfRange(_) => 4,
            Refusal::UndoLogFull(_) => 5,
            Refusal::LoadConflict(_) => 6,
            Refusal::StoreConflict(_) => 7,
            Refusal::BoardOutOfRange(_) => 8,
            Refusal::BlockOutOfRange(_) => 9,
            Refusal::MarksApart(_) => 10,
            Refusal::UnknownCommand => 11,
            Refusal::WrongFieldCount(_) => 12,
            Refusal::NotANumber(_) => 13,
            Refusal::ReportFull(_) => 14,
        }
    }

    /// What the refusal carries: the thread, address, block, sum, field or line that it is about.
    pub fn place(self) -> u64
        ensures { result ≡ place_of self }
    {
        match self {
            Refusal::ThreadOutOfRange(carried)
            | Refusal::JobOpen(carried)
            | Refusal::NoJobOpen(carried)
            | Refusal::AddressOutOfRange(carried)
            | Refusal::UndoLogFull(carried)
            | Refusal::LoadConflict(carried)
            | Refusal::StoreConflict(carried)
            | Refusal::BoardOutOfRange(carried)
            | Refusal::BlockOutOfRange(carried)
            | Refusal::MarksApart(carried)
            | Refusal::WrongFieldCount(carried)
            | Refusal::NotANumber(carried)
            | Refusal::ReportFull(carried) => carried,
            Refusal::UnknownCommand => 1,
        }
    }
}

/// A refusal, with the layer that gave it. Layers above pass it on whole.
#[derive(Clone, Copy, PartialEq, Eq, Debug)]
pub struct Fault {
    pub layer: Layer,
    pub refusal: Refusal,
}

impl Fault {
    pub fn letter(self) -> char
        ensures { result ≡ letter_of self.layer }
    {
        self.layer.letter()
    }

    pub fn number(self) -> u64
        ensures { result ≡ number_of self.refusal }
    {
        self.refusal.number()
    }

    pub fn place(self) -> u64
        ensures { result ≡ place_of self.refusal }
    {
        self.refusal.place()
    }
}

// As it is printed: the layer's letter, the number and the place, with single spaces.
impl fmt::Display for Fault {
    ghost output = { λ fault. Some (text_of fault) };

    fn fmt<W: fmt::Write>(&self, f: &mut fmt::Formatter<W>) -> fmt::Result {
        write!(f, "{} {} {}", self.letter(), self.number(), self.place())
    }
}
