// Addresses of the image, and the masks of a pointer word.
ghost use Rattle.std.specs.Prelude.{◌≡◌};
ghost use Rattle.reads.specs.Reference.{before};
ghost use Rattle.reads.specs.Address.{stripped, mapped, picked_wide, picked_either, picked};
ghost use Rattle.reads.specs.Answer.{outcome};

use crate::answer::{Missing, Reason, because, nonzero};
use crate::segment::vm_to_file_offset_in;

// An address of the image, with the constants of addresses.
#[derive(Clone, Copy)]
pub struct Address {
    pub va: u64,
}

impl Address {
    // The user virtual addresses: the low 48 bits.
    pub const VA_MASK: u64 = 0x0000_FFFF_FFFF_FFFF;

    // FAST_DATA_MASK of arm64e (objc-runtime-new.h).
    pub const FAST_DATA_MASK_ARM64E: u64 = 0x0F00_7FFF_FFFF_FFF8;

    // FAST_DATA_MASK of arm64 and x86_64 (objc-runtime-new.h).
    pub const FAST_DATA_MASK_64: u64 = 0x0000_007F_FFFF_FFF8;

    // How many chains the index has for each table (document 01).
    pub const CHAINS: usize = 4096;

    // A pointer word without its signature: strip_signature.
    #[tactic(auto, using(crate::proofs::Masks::va_mask))]
    pub fn strip(raw: u64) -> u64
        ensures { result ≡ stripped raw }
    {
        raw & Address::VA_MASK
    }

    // An address that looks up.
    #[tactic(auto, using(crate::proofs::Outcomes::outcomes), unfolding(crate::specs::Address::mapped))]
    pub fn mapped(segments: &[u64], va: u64) -> Result<u64, Missing>
        ensures { outcome result ≡ mapped (before segments) va }
    {
        vm_to_file_offset_in(segments, va)?;
        Ok(va)
    }

    // The data address by the wide mask.
    #[tactic(auto, using(std::proofs::lemmas::Result::err_from_is_err_and, crate::proofs::Masks::fast_data_mask_arm64e, crate::proofs::Outcomes::word_value, crate::proofs::Outcomes::word_missing), unfolding(crate::specs::Address::picked_wide))]
    fn pick_wide(segments: &[u64], word: u64) -> Result<u64, Missing>
        ensures { outcome result ≡ picked_wide (before segments) word }
    {
        let va = nonzero(word & Address::FAST_DATA_MASK_ARM64E)?;
        Address::mapped(segments, va)
    }

    // The data address by the wide mask, else by the other.
    #[tactic(auto, using(crate::proofs::Outcomes::outcomes, crate::proofs::Masks::fast_data_mask_64), unfolding(crate::specs::Address::picked_wide))]
    fn pick_either(segments: &[u64], word: u64) -> Result<u64, Missing>
        ensures { outcome result ≡ picked_either (before segments) word }
    {
        match Address::pick_wide(segments, word) {
            Err(Missing::Absent(_)) => nonzero(word & Address::FAST_DATA_MASK_64),
            wide => wide,
        }
    }

    // The data address in the bits word of a class: mask_class_ro_pointer.
    #[tactic(auto, using(crate::proofs::Outcomes::outcomes), unfolding(crate::specs::Address::picked))]
    pub fn pick(segments: &[u64], word: u64) -> Result<u64, Missing>
        ensures { outcome result ≡ picked (before segments) word }
    {
        because(Address::pick_either(segments, word), Reason::NoData)
    }
}
