// Pointer authentication: what signs a pointer word.
ghost use Rattle.std.specs.Prelude.{◌≡◌};
ghost use Rattle.reads.specs.Ptrauth.{key_of};

// What an arm64e slot says of its signature (fixup-chains.h): the discriminator, whether the slot's address is blended into
// it, and the key.
#[derive(Clone, Copy)]
pub struct PtrAuth {
    pub diversity: u16,
    pub addr_div: bool,
    pub key: PacKey,
}

// The four keys of ARMv8.3: instruction keys A and B, data keys A and B.
#[derive(Clone, Copy)]
pub enum PacKey {
    IA,
    IB,
    DA,
    DB,
}

impl PacKey {
    // The key of the two-bit field; higher bits are dropped. Not `From`: it has the Rust's name (DECISIONS), which says that it takes bits.
    #[tactic(auto, using(std::proofs::lemmas::Bool::Decides::nat_tests), unfolding(crate::specs::Ptrauth::key_of))]
    pub fn from_bits(bits: u8) -> PacKey
        ensures { result ≡ key_of bits }
    {
        let key = bits % 4;
        match key {
            0 => PacKey::IA,
            1 => PacKey::IB,
            2 => PacKey::DA,
            _ => PacKey::DB,
        }
    }
}
