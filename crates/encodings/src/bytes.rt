// What a byte may stand for (Apple, "Type Encodings").
ghost use Rattle.std.specs.Prelude.{◌≡◌};
ghost use Rattle.encodings.specs.Grammar.{digit_byte, name_byte, quoted_byte};
ghost use Rattle.encodings.specs.Machine.{class_of};

// What a byte begins, where a type may begin. Data and no closure for each byte: the machine of the definitions goes by the same classes
// (`class_of` and `begin` of specs/Machine.antt), and a step that takes one is proved by what it is.
#[derive(Clone, Copy)]
pub enum Class {
    Basic,
    Qualifier,
    Object,
    BitField,
    Pointer,
    Array,
    Structure,
    Union,
    Other,
}

#[tactic(auto, using(std::proofs::lemmas::Bool::Decides::nat_tests), unfolding(crate::specs::Machine::class_of, crate::specs::Grammar::among, reads::specs::Outcome::choose))]
pub fn class_of(byte: u8) -> Class
    ensures { result ≡ class_of byte }
{
    match byte {
        b'c' | b'i' | b's' | b'l' | b'q' | b'C' | b'I' | b'S' | b'L' | b'Q' => Class::Basic,
        b'f' | b'd' | b'B' | b'v' | b'*' | b'#' | b':' | b'?' => Class::Basic,
        b'r' | b'n' | b'N' | b'o' | b'O' | b'R' | b'V' => Class::Qualifier,
        b'@' => Class::Object,
        b'b' => Class::BitField,
        b'^' => Class::Pointer,
        b'[' => Class::Array,
        b'{' => Class::Structure,
        b'(' => Class::Union,
        _ => Class::Other,
    }
}

#[tactic(auto, unfolding(crate::specs::Grammar::digit_byte))]
pub fn is_digit(byte: u8) -> bool
    ensures { result ≡ digit_byte byte }
{
    byte.is_ascii_digit()
}

// A name holds no `=`, `"` or any of `[]{}()`.
#[tactic(auto, using(std::proofs::lemmas::Bool::Decides::nat_tests), unfolding(crate::specs::Grammar::name_byte, crate::specs::Grammar::among))]
pub fn in_name(byte: u8) -> bool
    ensures { result ≡ name_byte byte }
{
    !matches!(byte, b'=' | b'"' | b'[' | b'{' | b'(' | b']' | b'}' | b')')
}

// A quoted class holds no `"`.
#[tactic(auto, unfolding(crate::specs::Grammar::quoted_byte))]
pub fn in_quotes(byte: u8) -> bool
    ensures { result ≡ quoted_byte byte }
{
    byte != b'"'
}
