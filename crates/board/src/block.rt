//! The marks of one block: its own at home, and one for each board that has a copy.
ghost use Rattle.std.specs.Prelude.{◌≡◌, ◌-◌, ◌<◌, ◌≤◌, true, false, ◌∷◌, map, length, fold, None, ◌==◌, slice_index_or};
ghost use Rattle.marks.specs.Codes.{code_of, copy_code_of};
ghost use Rattle.marks.specs.Rules.{state_in};
ghost use Rattle.marks.specs.States.{in_range, debit_of, is_writer};
ghost use Rattle.marks.specs.declared.states.Metastate.TheVariants.{Anonymous};
ghost use Rattle.book.specs.Balance.{Fuses, Coherent};
ghost use Rattle.book.specs.Marking.{fused, gathered, withdrawn, copy_or_split, with_copy, read_by, load_answer, written_if};
ghost use Rattle.book.specs.Picture.{untouched, no_copies, debit_in, writer_in, shown_by};

use book::{Board, Take, Thread};
use fault::Fault;
use marks::{Credit, Debit, Mark, Metastate, TOKENS, copy_code};

#[derive(Clone, Copy)]
pub(crate) struct Block {
    home: Mark,
    copies: [Option<Mark>; 4],
    ghost four: { length copies ≡ 4 },
}

impl Block {
    ghost use Rattle.board.specs.Shown.{marks_of};

    /// No token taken, no copy.
    pub(crate) fn fresh() -> Block
        ensures { marks_of result ≡ untouched }
    {
        Block {
            home: Mark::untouched(),
            copies: [None; 4],
        }
    }

    /// Fuses home with every copy in board order; the copies go.
    pub(crate) fn gather(&mut self)
        requires { Coherent (marks_of self.old).home (marks_of self.old).copies }
        ensures { marks_of self.new ≡ gathered (marks_of self.old) }
    {
        fuse_all(&mut self.home, &mut self.copies);
    }

    /// Fuses home with the board's copy; that copy goes.
    pub(crate) fn withdraw(&mut self, board: Board)
        requires { Fuses (marks_of self.old).home (slice_index_or (marks_of self.old).copies board.number None) }
        ensures { marks_of self.new ≡ withdrawn (marks_of self.old) board.number }
    {
        // in two steps, as in the ledger
        let copies = &mut self.copies;
        let copy = copies[board.index()].take();
        self.home = fuse_copy(self.home, copy);
    }

    /// The board's copy, or where it has none the one that a split of home gives. A split leaves home as it was.
    fn copy_for(&self, board: Board) -> Mark
        ensures { result.state ≡ copy_or_split (marks_of self.now) board.number }
    {
        self.copies[board.index()].unwrap_or_else(|| self.home.split().1)
    }

    /// Takes one token for the thread from its board's copy, unless that shows a writer.
    pub(crate) fn load(&mut self, board: Board, thread: Thread) -> Result<(), Fault>
        requires { is_writer (copy_or_split (marks_of self.old) board.number) ≡ false → in_range (read_by thread.number (copy_or_split (marks_of self.old) board.number)) ≡ true }
        ensures answer { result ≡ load_answer (copy_or_split (marks_of self.old) board.number) }
        ensures after { marks_of self.new ≡ with_copy (marks_of self.old) board.number (read_by thread.number (copy_or_split (marks_of self.old) board.number)) }
    {
        let copy = self.copy_for(board);
        self.copies[board.index()] = Some(read_by(thread.number(), copy));
        if let Metastate::Writer(writer) = copy.state() {
            return Err(Take::Load.refused_by(writer));
        }
        Ok(())
    }

    /// Makes the thread the block's writer where the debit at home is that thread's own credit.
    /// Says whether it is.
    pub(crate) fn store(&mut self, thread: Thread, credit: Credit) -> bool
        ensures answer { result ≡ (debit_of (marks_of self.old).home == credit.tokens) }
        ensures after { marks_of self.new ≡ written_if result thread.number (marks_of self.old) }
    {
        let own = self.home.debit().equals(&credit);
        if own {
            self.home = mark(Metastate::Writer(thread.number()));
        }
        own
    }

    /// Takes a credit off the debit that home shows.
    pub(crate) fn relieve(&mut self, credit: Credit)
        requires { debit_of (marks_of self.old).home - credit.tokens < 64 }
        ensures home { (marks_of self.new).home ≡ Anonymous (debit_of (marks_of self.old).home - credit.tokens) }
        ensures copies { (marks_of self.new).copies ≡ (marks_of self.old).copies }
    {
        let left = self.home.debit().less(credit).tokens();
        self.home = mark(Metastate::Anonymous(left));
    }

    /// The tokens that the marks show as taken: all where any of them shows a writer, otherwise
    /// their sum.
    pub(crate) fn tokens(&self) -> u64
        ensures { result ≡ shown_by (marks_of self.now) }
    {
        if shows_writer(Some(self.home)) {
            return TOKENS;
        }
        let mut sum = self.home.debit();
        // one loop: a search and a fold go over the copies twice, and took twice the time
        'copies: for copy in &self.copies {
            if shows_writer(*copy) {
                return TOKENS;
            }
            sum = sum.plus(copy_debit(*copy));
        }
        sum.tokens()
    }

    /// The codes of the five marks, home first.
    pub(crate) fn codes(&self) -> [u64; 5]
        ensures { result ≡ code_of (marks_of self.now).home ∷ map copy_code_of (marks_of self.now).copies }
    {
        // a closure: copy_code, in a private module of crate marks, has no contract by name
        let [first, second, third, fourth] = self.copies.map(|copy| copy_code(copy));
        [self.home.code(), first, second, third, fourth]
    }
}

/// The mark of a metastate that is in range.
fn mark(state: Metastate) -> Mark
    requires { in_range state ≡ true }
    ensures { result.state ≡ state }
{
    Mark::new(state).unwrap()
}

/// Home with a board's copy fused in, if there is one. In a book in balance no fusion is refused.
fn fuse_copy(home: Mark, copy: Option<Mark>) -> Mark
    requires { Fuses home.state (state_in copy) }
    ensures { result.state ≡ fused home.state (state_in copy) }
{
    copy.map_or(home, |copy| home.fuse(copy).unwrap())
}

/// Fuses every copy into home, in board order; the copies go. Nothing is written where a board has none.
fn fuse_all(home: &mut Mark, copies: &mut [Option<Mark>; 4])
    requires { Coherent home.old.state (map state_in copies.old) }
    ensures home { home.new.state ≡ fold fused home.old.state (map state_in copies.old) }
    ensures copies { map state_in copies.new ≡ no_copies }
{
    'copies: for copy in copies.iter_mut() {
        if copy.is_some() {
            *home = fuse_copy(*home, copy.take());
        }
    }
}

/// The copy from which one token more was taken.
fn read_by(thread: u64, copy: Mark) -> Mark
    requires { in_range (read_by thread copy.state) ≡ true }
    ensures { result.state ≡ read_by thread copy.state }
{
    match copy.state() {
        Metastate::Anonymous(0) => mark(Metastate::Reader(thread)),
        Metastate::Anonymous(count) => mark(Metastate::Anonymous(count + 1)),
        Metastate::Reader(_) => mark(Metastate::Anonymous(2)),
        Metastate::Writer(_) => copy,
    }
}

/// Whether a copy, if there is one, shows a writer.
fn shows_writer(copy: Option<Mark>) -> bool
    ensures { result ≡ writer_in (state_in copy) }
{
    match copy {
        Some(mark) => match mark.state() {
            Metastate::Writer(_) => true,
            Metastate::Anonymous(_) => false,
            Metastate::Reader(_) => false,
        },
        None => false,
    }
}

/// The debit that a copy shows, if there is one.
fn copy_debit(copy: Option<Mark>) -> Debit
    ensures value { result.tokens ≡ debit_in (state_in copy) }
    ensures limit { result.tokens ≤ 64 }
{
    copy.map_or(Mark::untouched().debit(), Mark::debit)
}
