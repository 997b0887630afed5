// A parser of type encodings: a step for each byte.
ghost use Rattle.std.specs.Prelude.{◌≡◌, [], ◌<◌, Err};
ghost use Rattle.reads.specs.Outcome.{value};
ghost use Rattle.encodings.specs.Machine.{class_of};
ghost use Rattle.encodings.specs.Parser.{closer_of, levels_of, kept, kept_in, stepped, innermost_in, opened, begun, below_pointers, closes, below, inside, followed, step_as, end_of, finish_as, offset_of};
ghost use Rattle.reads.specs.Answer.{outcome};
ghost use Rattle.reads.specs.declared.answer.Missing.TheVariants.{Absent};
ghost use Rattle.reads.specs.declared.answer.Reason.TheVariants.{Malformed};

use crate::bytes::{Class, class_of, in_name, in_quotes, is_digit};
use crate::kept::{Level, Mode, Parser};
use reads::answer::{Missing, Question, Reason};

impl Mode {
    // Where the frame offset starts, if its digits are being read.
    pub fn offset(self) -> Option<usize>
        ensures { result ≡ offset_of self }
    {
        match self {
            Mode::Offset(at) => Some(at),
            Mode::Wanted | Mode::Counting | Mode::Counted | Mode::Naming | Mode::Named => None,
            Mode::Quoting | Mode::Sizing | Mode::Sized | Mode::AtSign | Mode::Ended => None,
        }
    }
}

impl Level {
    fn closer(self) -> u8
        ensures { result ≡ closer_of self }
    {
        match self {
            Level::Pointer => b'^',
            Level::Array => b']',
            Level::Structure => b'}',
            Level::Union => b')',
        }
    }
}

// The text is outside the grammar.
fn outside() -> Result<(), Missing>
    ensures { result ≡ Err (Absent Malformed) }
{
    Err(Missing::Absent(Reason::Malformed))
}

impl Parser {
    // Before the first byte.
    #[tactic(auto, unfolding(crate::specs::Parser::levels_in))]
    pub fn first() -> Parser
        ensures { kept_in result ≡ kept Mode.Wanted [] 0 }
    {
        Parser {
            mode: Mode::Wanted,
            depth: 0,
            levels: [Level::Pointer; 32],
            start: 0,
        }
    }

    // The levels and the start stay; this was read last.
    fn on(&mut self, mode: Mode) -> Result<(), Missing>
        ensures { stepped self.new result ≡ value (kept mode (levels_of self.old) self.old.start) }
    {
        self.mode = mode;
        Ok(())
    }

    // One level more.
    #[tactic(auto, using(std::proofs::lemmas::Bool::Decides::nat_tests, crate::proofs::Levels::levels_pushed, crate::proofs::Levels::levels_length), unfolding(reads::specs::Outcome::choose))]
    fn open(&mut self, kind: Level, mode: Mode) -> Result<(), Missing>
        ensures { stepped self.new result ≡ opened (closer_of kind) mode (levels_of self.old) self.old.start }
    {
        if self.depth >= 32 {
            return Err(Missing::Refused(Question::Depth));
        }
        self.levels[self.depth] = kind;
        self.depth += 1;
        self.on(mode)
    }

    // The innermost level is closed.
    #[tactic(auto, using(crate::proofs::Levels::levels_below))]
    fn close(&mut self) -> Result<(), Missing>
        requires { 0 < self.old.depth }
        ensures { stepped self.new result ≡ value (kept Mode.Ended (below (levels_of self.old)) self.old.start) }
    {
        self.depth -= 1;
        self.on(Mode::Ended)
    }

    // The innermost level.
    #[tactic(auto, unfolding(crate::specs::Parser::innermost_in))]
    fn innermost(&self) -> Option<Level>
        ensures { result ≡ innermost_in self.now.depth self.now.levels }
    {
        if self.depth == 0 {
            return None;
        }
        Some(self.levels[self.depth - 1])
    }

    // Whether the byte closes the innermost level.
    #[tactic(auto, using(crate::proofs::Levels::closes_none, crate::proofs::Levels::closes_top))]
    fn closes(&self, byte: u8) -> bool
        ensures { result ≡ closes (levels_of self.now) byte }
    {
        match self.innermost() {
            Some(kind) => byte == kind.closer(),
            None => false,
        }
    }

    // The pointers that are innermost end with the type that ended.
    #[tactic(auto, using(crate::proofs::Levels::pointer_top, crate::proofs::Levels::other_top, crate::proofs::Levels::innermost_open))]
    fn below_pointers(&mut self)
        ensures { kept_in self.new ≡ kept self.old.mode (below_pointers (levels_of self.old)) self.old.start }
    {
        // Not a `for`: it takes off what is innermost, until that is no pointer.
        while let Some(Level::Pointer) = self.innermost() {
            self.depth -= 1;
        }
    }

    // A type begins.
    #[tactic(auto, using(crate::proofs::Steps::begin_of))]
    fn begin(&mut self, byte: u8) -> Result<(), Missing>
        ensures { stepped self.new result ≡ begun (levels_of self.old) self.old.start (class_of byte) }
    {
        match class_of(byte) {
            Class::Basic => self.on(Mode::Ended),
            Class::Qualifier => self.on(Mode::Wanted),
            Class::Object => self.on(Mode::AtSign),
            Class::BitField => self.on(Mode::Sizing),
            Class::Pointer => self.open(Level::Pointer, Mode::Wanted),
            Class::Array => self.open(Level::Array, Mode::Counting),
            Class::Structure => self.open(Level::Structure, Mode::Naming),
            Class::Union => self.open(Level::Union, Mode::Naming),
            Class::Other => outside(),
        }
    }

    // The next outermost type begins, at `at`. A byte and its place stay two arguments: each of the four functions that take both hands the
    // byte on alone, to `begin`, `inside` or `is_digit`, so all four would take a struct of the two apart.
    #[tactic(auto, unfolding(crate::specs::Parser::levels_in))]
    fn next_type(&mut self, byte: u8, at: usize) -> Result<(), Missing>
        ensures { stepped self.new result ≡ begun [] at (class_of byte) }
    {
        self.depth = 0;
        self.start = at;
        self.begin(byte)
    }

    // After an outermost type: its frame offset, or the next type.
    #[tactic(auto, using(crate::proofs::Choices::choices, crate::proofs::Levels::levels_none))]
    fn between(&mut self, byte: u8, at: usize) -> Result<(), Missing>
        requires { self.old.depth ≡ 0 }
        ensures { stepped self.new result ≡ followed [] self.old.start byte at }
    {
        if is_digit(byte) {
            return self.on(Mode::Offset(at));
        }
        self.next_type(byte, at)
    }

    // After a type in an array, a structure or a union.
    #[tactic(auto, using(crate::proofs::Choices::choices))]
    fn inside(&mut self, byte: u8) -> Result<(), Missing>
        requires { 0 < self.old.depth }
        ensures { stepped self.new result ≡ inside (levels_of self.old) self.old.start byte }
    {
        if self.closes(byte) {
            return self.close();
        }
        if self.closes(b']') {
            return outside();
        }
        self.begin(byte)
    }

    // After a type.
    #[tactic(auto, using(crate::proofs::Steps::followed_outer, crate::proofs::Steps::followed_inner))]
    fn after(&mut self, byte: u8, at: usize) -> Result<(), Missing>
        ensures { stepped self.new result ≡ step_as Mode.Ended self.old byte at }
    {
        self.below_pointers();
        if self.depth == 0 {
            return self.between(byte, at);
        }
        self.inside(byte)
    }

    // The byte at `at` is read.
    #[tactic(auto, using(crate::proofs::Steps::in_mode, crate::proofs::Steps::stays, crate::proofs::Choices::choices, crate::proofs::Levels::closes_open))]
    pub fn step(&mut self, byte: u8, at: usize) -> Result<(), Missing>
        ensures { stepped self.new result ≡ step_as self.old.mode self.old byte at }
    {
        match self.mode {
            Mode::Counting | Mode::Counted if is_digit(byte) => self.on(Mode::Counted),
            Mode::Sizing | Mode::Sized if is_digit(byte) => self.on(Mode::Sized),
            Mode::Offset(_) if is_digit(byte) => Ok(()),
            Mode::Quoting if !in_quotes(byte) => self.on(Mode::Ended),
            Mode::AtSign if in_quotes(byte) => self.after(byte, at),
            Mode::Quoting | Mode::AtSign => self.on(Mode::Quoting),
            Mode::Wanted | Mode::Counted => self.begin(byte),
            Mode::Counting | Mode::Sizing => outside(),
            Mode::Naming if in_name(byte) => Ok(()),
            Mode::Naming if byte == b'=' => self.on(Mode::Named),
            Mode::Naming | Mode::Named if self.closes(byte) => self.close(),
            Mode::Naming => outside(),
            Mode::Named => self.begin(byte),
            Mode::Sized | Mode::Ended => self.after(byte, at),
            Mode::Offset(_) => self.next_type(byte, at),
        }
    }

    // The text ends after a type: at the outermost level, or outside the grammar.
    #[tactic(auto, using(crate::proofs::Steps::end_outer, crate::proofs::Steps::end_inner))]
    fn end(self) -> Result<(), Missing>
        ensures { outcome result ≡ end_of (below_pointers (levels_of self)) }
    {
        let mut p = self;
        p.below_pointers();
        if p.depth == 0 {
            return Ok(());
        }
        outside()
    }

    // The text ends: after a type, or outside the grammar.
    pub fn finish(self) -> Result<(), Missing>
        ensures { outcome result ≡ finish_as self.mode self }
    {
        match self.mode {
            Mode::Wanted | Mode::Counting | Mode::Counted | Mode::Naming => outside(),
            Mode::Named | Mode::Quoting | Mode::Sizing => outside(),
            Mode::Sized | Mode::AtSign | Mode::Ended => self.end(),
            Mode::Offset(_) => Ok(()),
        }
    }
}
