// The types of the rules (docs/RULES.md): the trie, and what the calls answer.
#![tactic(auto)]

ghost use Rattle.std.specs.Prelude.{◌≡◌, ◌≤◌, eqb};
ghost use Rattle.model.specs.Answers.{number};
ghost use Rattle.model.specs.Format.{EntrySize, entry_length, slot_size};

// R5.1: where a side leads.
#[derive(Clone, Copy, PartialEq, Eq)]
pub enum Side {
    Slot(u16),
    Cell(u16),
}

#[derive(Clone, Copy, PartialEq, Eq)]
pub struct Cell {
    pub digit: u8,
    pub number: u8,
    pub left: Side,
    pub right: Side,
}

// R5.1 and R5.2: the cells with their count, and the first leaf.
#[derive(Clone, Copy)]
pub struct Trie {
    pub cells: [Cell; 256],
    pub count: u16,
    pub first: u16,
}

// What a file's header says of its slots: the version, and b, the entries that a bucket holds. The version stays a number: a header may
// hold any of two bytes.
#[derive(Clone, Copy, PartialEq, Eq)]
pub struct Layout {
    pub version: usize,
    pub b: usize,
}

impl Layout {
    // Whether an entry has room for the run that wrote it: from version 3 on.
    pub fn keeps_runs(self) -> bool
        ensures { result ≡ eqb self.version 3 }
    {
        self.version == 3
    }

    // The bytes of an entry follow from the version.
    pub fn entry_size(self) -> usize
        ensures { (result ≡ entry_length self) × EntrySize result }
    {
        if self.keeps_runs() { 40 } else { 32 }
    }

    // R2.7: the bytes of a slot.
    pub fn slot_size(self) -> usize
        requires { self.b ≤ 16 }
        ensures { (result ≡ slot_size self) × (64 ≤ result) × (result ≤ 704) }
    {
        64 + self.entry_size() * self.b
    }
}

// What is held under a name: its value, and the run that wrote it.
#[derive(Clone, Copy, PartialEq, Eq)]
pub struct Content {
    pub value: u64,
    pub run: u64,
}

// Why a call refuses, in the order of the numbers. A stale trie carries a digit number, how far a name agrees with the bound that it
// breaks, or NO_DIGIT (R10.13).
#[derive(Clone, Copy, PartialEq, Eq)]
pub enum Cause {
    IllegalName,
    BadFile,
    CutFile,
    StaleTrie(u64),
    NoFreeSlot,
    ManyStrings,
    ShortOutput,
    WrongSize,
    OlderRun,
}

// What a stale trie carries where no bound of a bucket that was read is broken. A number and no Option: R10.13 gives it out to C as it is.
pub const NO_DIGIT: u64 = 255;

// The number of each refusal (R10.1 to R10.8, R10.14).
impl From<Cause> for u64 {
    ghost from_gives = { λ cause result. result ≡ number cause };

    fn from(cause: Cause) -> u64 {
        match cause {
            Cause::IllegalName => 1,
            Cause::BadFile => 2,
            Cause::CutFile => 3,
            Cause::StaleTrie(_) => 4,
            Cause::NoFreeSlot => 5,
            Cause::ManyStrings => 6,
            Cause::ShortOutput => 7,
            Cause::WrongSize => 8,
            Cause::OlderRun => 12,
        }
    }
}

// What a put did. Replaced carries the content that was held; Stopped, the stores that were made.
#[derive(Clone, Copy, PartialEq, Eq)]
pub enum Put {
    Added,
    Replaced(Content),
    Stopped(u64),
}

// What a removal did. Removed carries the number of stores: two where buckets were merged.
#[derive(Clone, Copy, PartialEq, Eq)]
pub enum Removal {
    Removed(u64),
    Absent,
    Stopped(u64),
}

// What recover did. Freed carries the slot.
#[derive(Clone, Copy, PartialEq, Eq)]
pub enum Recovery {
    Freed(usize),
    Nothing,
    Stopped(u64),
}

pub type LookUpAnswer = Result<Option<Content>, Cause>;

pub type PutAnswer = Result<Put, Cause>;

pub type RemoveAnswer = Result<Removal, Cause>;

pub type RecoverAnswer = Result<Recovery, Cause>;

// How many entries list wrote.
pub type ListAnswer = Result<u64, Cause>;

// What create and rebuild answer. Beside a refusal they give the empty trie (R10.12).
pub type TrieAnswer = Result<(), Cause>;
