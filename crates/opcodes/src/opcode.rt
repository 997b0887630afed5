// The bind opcodes (loader.h): the upper four bits of a byte are the opcode, the lower four its immediate; its operands follow.
ghost use Rattle.std.specs.Prelude.{◌≡◌, ◌≤◌, length};
ghost use Rattle.reads.specs.Reference.{before};
ghost use Rattle.opcodes.specs.Opcodes.{opcode_of, decoded_outcome, operand, symbol_at, addend, skipping, times_skipping, typed, by_opcode, decode};
ghost use Rattle.reads.specs.Answer.{answered};
ghost use Rattle.reads.specs.Leb128.{uleb128};

use fixups::name::{Name, first_zero};
use reads::answer::Question;
use reads::leb128::{Leb, read_sleb128, read_uleb128};

const BIND_OPCODE_DONE: u8 = 0x00;

const BIND_OPCODE_SET_DYLIB_ORDINAL_IMM: u8 = 0x10;

const BIND_OPCODE_SET_DYLIB_ORDINAL_ULEB: u8 = 0x20;

const BIND_OPCODE_SET_DYLIB_SPECIAL_IMM: u8 = 0x30;

const BIND_OPCODE_SET_SYMBOL_TRAILING_FLAGS_IMM: u8 = 0x40;

const BIND_OPCODE_SET_TYPE_IMM: u8 = 0x50;

const BIND_OPCODE_SET_ADDEND_SLEB: u8 = 0x60;

const BIND_OPCODE_SET_SEGMENT_AND_OFFSET_ULEB: u8 = 0x70;

const BIND_OPCODE_ADD_ADDR_ULEB: u8 = 0x80;

const BIND_OPCODE_DO_BIND: u8 = 0x90;

const BIND_OPCODE_DO_BIND_ADD_ADDR_ULEB: u8 = 0xA0;

const BIND_OPCODE_DO_BIND_ADD_ADDR_IMM_SCALED: u8 = 0xB0;

const BIND_OPCODE_DO_BIND_ULEB_TIMES_SKIPPING_ULEB: u8 = 0xC0;

const BIND_TYPE_POINTER: u8 = 1;

const SIZEOF_POINTER: u64 = 8;

// The opcodes that are read (BIND_OPCODE_*).
#[derive(Clone, Copy)]
pub enum BindOpcode {
    Done,
    SetDylibOrdinalImm,
    SetDylibOrdinalUleb,
    SetDylibSpecialImm,
    SetSymbolTrailingFlagsImm,
    SetTypeImm,
    SetAddendSleb,
    SetSegmentAndOffsetUleb,
    AddAddrUleb,
    DoBind,
    DoBindAddAddrUleb,
    DoBindAddAddrImmScaled,
    DoBindUlebTimesSkippingUleb,
}

impl TryFrom<u8> for BindOpcode {
    type Error = Question;

    ghost try_from_gives = { λ n r. answered r ≡ opcode_of n };

    #[tactic(auto, unfolding(crate::specs::Opcodes::opcode_of, reads::specs::Outcome::choose), using(std::proofs::lemmas::Bool::Decides::nat_tests))]
    fn try_from(op: u8) -> Result<Self, Question> {
        match op {
            BIND_OPCODE_DONE => Ok(BindOpcode::Done),
            BIND_OPCODE_SET_DYLIB_ORDINAL_IMM => Ok(BindOpcode::SetDylibOrdinalImm),
            BIND_OPCODE_SET_DYLIB_ORDINAL_ULEB => Ok(BindOpcode::SetDylibOrdinalUleb),
            BIND_OPCODE_SET_DYLIB_SPECIAL_IMM => Ok(BindOpcode::SetDylibSpecialImm),
            BIND_OPCODE_SET_SYMBOL_TRAILING_FLAGS_IMM => Ok(BindOpcode::SetSymbolTrailingFlagsImm),
            BIND_OPCODE_SET_TYPE_IMM => Ok(BindOpcode::SetTypeImm),
            BIND_OPCODE_SET_ADDEND_SLEB => Ok(BindOpcode::SetAddendSleb),
            BIND_OPCODE_SET_SEGMENT_AND_OFFSET_ULEB => Ok(BindOpcode::SetSegmentAndOffsetUleb),
            BIND_OPCODE_ADD_ADDR_ULEB => Ok(BindOpcode::AddAddrUleb),
            BIND_OPCODE_DO_BIND => Ok(BindOpcode::DoBind),
            BIND_OPCODE_DO_BIND_ADD_ADDR_ULEB => Ok(BindOpcode::DoBindAddAddrUleb),
            BIND_OPCODE_DO_BIND_ADD_ADDR_IMM_SCALED => Ok(BindOpcode::DoBindAddAddrImmScaled),
            BIND_OPCODE_DO_BIND_ULEB_TIMES_SKIPPING_ULEB => {
                Ok(BindOpcode::DoBindUlebTimesSkippingUleb)
            }
            _ => Err(Question::FixupData),
        }
    }
}

// What an opcode says, with its operands read.
#[derive(Clone, Copy)]
pub enum Instruction {
    // Nothing that a bind record has.
    Pass,
    Symbol(Name),
    // The segment's index, and the slot's offset in it.
    Segment(u64, u64),
    // How many bytes further the slot is.
    Add(u64),
    // How many binds, and how many bytes further the slot is after each.
    Bind(u64, u64),
}

// The bytes of a stream, or those after an opcode of it: where they stand in the file, and whether DONE parts the entries of the stream;
// else none of the bytes after it is read.
#[derive(Clone, Copy)]
pub(crate) struct Stream<'a> {
    pub(crate) parts: bool,
    pub(crate) at: u64,
    pub(crate) bytes: &'a [u8],
}

// A number among the operands.
fn number(rest: &[u8]) -> Result<Leb<u64>, Question>
    ensures { answered result ≡ operand (uleb128 (before rest)) }
{
    read_uleb128(rest).map_err(|_| Question::FixupData)
}

// The name from the first byte on, which stands at `place` in the file, to its zero.
fn symbol_at(place: u64, rest: &[u8]) -> Result<(Instruction, usize), Question>
    ensures { decoded_outcome result ≡ symbol_at place (before rest) }
{
    let n = first_zero(rest).ok_or(Question::FixupData)?;
    let name = Name {
        at: place,
        len: n as u64,
    };
    Ok((Instruction::Symbol(name), n + 1))
}

// An addend, of which no bind record has anything.
#[tactic(auto, unfolding(crate::specs::Opcodes::addend), using(std::proofs::lemmas::Bool::Decides::nat_tests))]
fn addend(rest: &[u8]) -> Result<(Instruction, usize), Question>
    ensures { decoded_outcome result ≡ addend (before rest) }
{
    let s = read_sleb128(rest).map_err(|_| Question::FixupData)?;
    Ok((Instruction::Pass, s.consumed))
}

// The second number, after the n bytes of the first.
#[tactic(auto, unfolding(crate::specs::Opcodes::skipping, reads::specs::Outcome::choose), using(std::proofs::lemmas::Bool::Decides::nat_tests))]
fn skipping(rest: &[u8], count: u64, n: usize) -> Result<(Instruction, usize), Question>
    requires { n ≤ length rest.now }
    ensures { decoded_outcome result ≡ skipping (before rest) count n }
{
    let u = number(&rest[n..])?;
    if 0xFFFF_FFFF_FFFF_FFF8 <= u.value {
        return Err(Question::FixupSlot);
    }
    Ok((
        Instruction::Bind(count, u.value + SIZEOF_POINTER),
        n + u.consumed,
    ))
}

// How many binds, then how many bytes are skipped after each.
#[tactic(auto, unfolding(crate::specs::Opcodes::times_skipping, reads::specs::Outcome::choose), using(std::proofs::lemmas::Bool::Decides::nat_tests))]
fn times_skipping(rest: &[u8]) -> Result<(Instruction, usize), Question>
    ensures { decoded_outcome result ≡ times_skipping (before rest) }
{
    let u = number(rest)?;
    skipping(rest, u.value, u.consumed)
}

// The type that a bind is of: a pointer.
#[tactic(auto, unfolding(crate::specs::Opcodes::typed, reads::specs::Outcome::choose), using(std::proofs::lemmas::Bool::Decides::nat_tests))]
fn typed(imm: u8) -> Result<(Instruction, usize), Question>
    ensures { decoded_outcome result ≡ typed imm }
{
    if imm != BIND_TYPE_POINTER {
        return Err(Question::FixupData);
    }
    Ok((Instruction::Pass, 0))
}

// What an opcode with an immediate says, and how many of the bytes after it, `rest`, it takes.
#[tactic(auto, unfolding(crate::specs::Opcodes::by_opcode, crate::specs::Opcodes::with_number, reads::specs::Outcome::choose))]
fn by_opcode(rest: Stream, op: BindOpcode, imm: u8) -> Result<(Instruction, usize), Question>
    ensures { decoded_outcome result ≡ by_opcode rest.entry.parts rest.entry.at rest.entry.bytes.now op imm }
{
    let pointer = SIZEOF_POINTER;
    let bytes = rest.bytes;
    match op {
        BindOpcode::Done => Ok((Instruction::Pass, if rest.parts { 0 } else { bytes.len() })),
        BindOpcode::SetDylibOrdinalImm => Ok((Instruction::Pass, 0)),
        BindOpcode::SetDylibOrdinalUleb => number(bytes).map(|u| (Instruction::Pass, u.consumed)),
        BindOpcode::SetDylibSpecialImm => Ok((Instruction::Pass, 0)),
        BindOpcode::SetSymbolTrailingFlagsImm => symbol_at(rest.at, bytes),
        BindOpcode::SetTypeImm => typed(imm),
        BindOpcode::SetAddendSleb => addend(bytes),
        BindOpcode::SetSegmentAndOffsetUleb => {
            number(bytes).map(|u| (Instruction::Segment(u64::from(imm), u.value), u.consumed))
        }
        BindOpcode::AddAddrUleb => number(bytes).map(|u| (Instruction::Add(u.value), u.consumed)),
        BindOpcode::DoBind => Ok((Instruction::Bind(1, pointer), 0)),
        BindOpcode::DoBindAddAddrUleb => {
            number(bytes).map(|u| (
                Instruction::Bind(1, pointer.wrapping_add(u.value)),
                u.consumed,
            ))
        }
        BindOpcode::DoBindAddAddrImmScaled => {
            Ok((Instruction::Bind(1, pointer + pointer * u64::from(imm)), 0))
        }
        BindOpcode::DoBindUlebTimesSkippingUleb => times_skipping(bytes),
    }
}

// The opcode in a byte before the bytes `rest`.
#[tactic(auto, unfolding(crate::specs::Opcodes::decode), using(std::proofs::lemmas::Result::err_from_is_err_and))]
pub(crate) fn decode(b: u8, rest: Stream) -> Result<(Instruction, usize), Question>
    ensures { decoded_outcome result ≡ decode rest.entry.parts rest.entry.at b rest.entry.bytes.now }
{
    let imm = b % 16;
    let op = BindOpcode::try_from(b - imm)?;
    by_opcode(rest, op, imm)
}
