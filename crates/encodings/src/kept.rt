// What a parser of type encodings keeps of the bytes before.
ghost use Rattle.std.specs.Prelude.{◌≤◌};

// What was read last, and so what may come. Data and no closure: it is kept from byte to byte, and the end of the text asks it too.
#[derive(Clone, Copy)]
pub enum Mode {
    // a type must begin
    Wanted,
    // `[`
    Counting,
    // digits of an array's count
    Counted,
    // `{` or `(` and some of a name
    Naming,
    // the `=` behind a name
    Named,
    // `@"` and some of a class
    Quoting,
    // `b`
    Sizing,
    // digits of a bit field
    Sized,
    // `@`
    AtSign,
    // a type's last byte
    Ended,
    // digits of a frame offset, which starts there
    Offset(usize),
}

// What opens and waits for what closes it; a pointer ends with the type that it points to.
#[derive(Clone, Copy)]
pub enum Level {
    Pointer,
    Array,
    Structure,
    Union,
}

// What is kept of the bytes before.
#[derive(Clone, Copy)]
pub struct Parser {
    // what was read last
    pub mode: Mode,
    // how many levels are open, and which, the innermost last (fixed memory, no heap, so no Vec): those beyond are no levels
    pub depth: usize,
    pub levels: [Level; 32],
    // where this outermost type starts
    pub start: usize,
    ghost few: { depth ≤ 32 },
}
