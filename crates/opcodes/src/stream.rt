// The streams of bind opcodes that a dyld_info_command names.
ghost use Rattle.std.specs.Prelude.{◌≡◌, ◌+◌, ◌^◌, ◌<◌, true, false, length};
ghost use Rattle.reads.specs.Outcome.{value, and_then};
ghost use Rattle.opcodes.specs.Opcodes.{decode};
ghost use Rattle.opcodes.specs.Binding.{unset, with_symbol, perform};
ghost use Rattle.opcodes.specs.Streams.{walk, joined, segments_in, stream_in, streams_in};
ghost use Rattle.fixups.specs.Tables.{Kept};
ghost use Rattle.opcodes.specs.DyldInfo.{weak_bind_off, lazy_bind_off};
ghost use Rattle.opcodes.specs.Tables.{Runs, Walks, part_in, told_by, next, next_of};

use crate::binding::{Binds, State, further, run};
use crate::dyld_info::{BIND_OFF, Info, LAZY_BIND_OFF, STREAM_SIZE, WEAK_BIND_OFF};
use crate::opcode::{Instruction, Stream, decode};
use crate::segment::in_segment;
use fixups::name::Name;
use macho::number::field32;
use reads::answer::Question;
use reads::place::part;

fn with_symbol(name: Name, s: State) -> State
    ensures { result ≡ with_symbol name s }
{
    State {
        name: Some(name),
        ..s
    }
}

impl Info<'_> {
    // Does what an opcode says: the state after it.
    fn perform(self, x: Instruction, s: State, binds: &mut Binds) -> Result<State, Question>
        ensures { Runs (perform (length self.entry.file.now) self.entry.cmds.bytes.now (segments_in self.entry) x s) result binds.old binds.new }
    {
        match x {
            Instruction::Pass => Ok(s),
            Instruction::Symbol(name) => Ok(with_symbol(name, s)),
            Instruction::Segment(index, offset) => in_segment(self.cmds, index, offset, s),
            Instruction::Add(bytes) => Ok(further(bytes, s)),
            Instruction::Bind(times, stride) => {
                run(self.file.len() as u64, times, stride, s, binds)
            }
        }
    }

    // The opcode in a byte before the bytes `rest`: the state after it, and how many bytes its operands are.
    fn step(
        self,
        b: u8,
        rest: Stream,
        s: State,
        binds: &mut Binds,
    ) -> Result<(State, usize), Question>
        ensures kept { Kept binds.old.table binds.new.table }
        ensures told { next_of result (part_in binds.new) ≡ and_then (decode rest.entry.parts rest.entry.at b rest.entry.bytes.now)
            (λ d. and_then (told_by (perform (length self.entry.file.now) self.entry.cmds.bytes.now (segments_in self.entry) d.says s) (part_in binds.old)) (λ t. value (next t d.size))) }
    {
        let (x, size) = decode(b, rest)?;
        let t = self.perform(x, s, binds)?;
        Ok((t, size))
    }

    // A stream of opcodes.
    fn walk(self, stream: Stream, binds: &mut Binds) -> Result<(), Question>
        requires { stream.at + length stream.bytes.now < 2 ^ 64 }
        ensures { Walks (walk (length self.entry.file.now) self.entry.cmds.bytes.now (segments_in self.entry) stream.entry.parts stream.entry.at stream.entry.bytes.now 0 unset) result binds.old binds.new }
    {
        let body = stream.bytes;
        let mut s = State::default();
        let mut i = 0;
        // Not a `for`: the index moves by an opcode and its operands.
        while i < body.len() {
            let b = body[i];
            let rest = Stream {
                at: stream.at + (i as u64) + 1,
                bytes: &body[i + 1..],
                ..stream
            };
            let (t, size) = self.step(b, rest, s, binds)?;
            s = t;
            i += 1 + size;
        }
        Ok(())
    }

    // The stream of a field.
    fn stream_at(self, field: u64, parts: bool, binds: &mut Binds) -> Result<(), Question>
        requires { field < 2 ^ 32 }
        ensures { Walks (stream_in self.entry field parts) result binds.old binds.new }
    {
        let at = field32(self.cmds.bytes, self.at, field);
        let size = field32(self.cmds.bytes, self.at, field + STREAM_SIZE);
        let bytes = part(self.file, at, size);
        self.walk(Stream { parts, at, bytes }, binds)
    }

    fn weak_and_lazy(self, binds: &mut Binds) -> Result<(), Question>
        ensures { Walks (joined (stream_in self.entry weak_bind_off false) (stream_in self.entry lazy_bind_off true)) result binds.old binds.new }
    {
        self.stream_at(WEAK_BIND_OFF, false, binds)?;
        self.stream_at(LAZY_BIND_OFF, true, binds)
    }

    // The streams of the command.
    pub(crate) fn streams_at(self, binds: &mut Binds) -> Result<(), Question>
        ensures { Walks (streams_in self.entry) result binds.old binds.new }
    {
        self.stream_at(BIND_OFF, false, binds)?;
        self.weak_and_lazy(binds)
    }
}
