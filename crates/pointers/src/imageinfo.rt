// The payload of __objc_imageinfo (objc-abi.h, objc_image_info).
#![tactic(auto, using(crate::proofs::Flags::flag_tests, crate::proofs::Infos::info_short, crate::proofs::Infos::info_by))]

ghost use Rattle.std.specs.Prelude.{not, ◌≡◌, eqb};
ghost use Rattle.reads.specs.Reference.{before};
ghost use Rattle.pointers.specs.ImageInfo.{image_info, bit, swift_unstable, swift_stable};
ghost use Rattle.reads.specs.Answer.{outcome};

use reads::answer::{Missing, Reason};
use reads::place::u32_from;

// Version, always 0 so far, and the flags.
#[derive(Clone, Copy)]
pub struct ImageInfo {
    pub version: u32,
    pub flags: u32,
}

// Categories have been attached by dyld in the shared cache.
pub const OBJC_IMAGE_DYLD_CATEGORIES_OPTIMIZED: u32 = 0x1;
// The image supports garbage collection.
pub const OBJC_IMAGE_SUPPORTS_GC: u32 = 0x2;
// The image requires garbage collection.
pub const OBJC_IMAGE_REQUIRES_GC: u32 = 0x4;
// The image is from an optimised shared cache.
pub const OBJC_IMAGE_OPTIMIZED_BY_DYLD: u32 = 0x8;
// Pointers to class_ro_t are signed.
pub const OBJC_IMAGE_SIGNED_CLASS_RO: u32 = 0x10;
// The image was compiled for a simulator.
pub const OBJC_IMAGE_IS_SIMULATED: u32 = 0x20;
// category_t has its field for class properties.
pub const OBJC_IMAGE_HAS_CATEGORY_CLASS_PROPERTIES: u32 = 0x40;
// Set by an old dyld.
pub const OBJC_IMAGE_OPTIMIZED_BY_DYLD_CLOSURE: u32 = 0x80;
// The unstable Swift ABI version.
pub const OBJC_IMAGE_SWIFT_UNSTABLE_VERSION_MASK: u32 = 0xFF00;
// The stable Swift ABI version.
pub const OBJC_IMAGE_SWIFT_STABLE_VERSION_MASK: u32 = 0xFFFF_0000;

impl ImageInfo {
    // The image info of a section's bytes; absent where there are fewer than 8.
    pub fn parse(body: &[u8]) -> Result<ImageInfo, Missing>
        ensures { outcome result ≡ image_info (before body) }
    {
        if body.len() < 8 {
            return Err(Missing::Absent(Reason::Unreadable));
        }
        let version = u32_from(body, 0, 0);
        let flags = u32_from(body, 0, 4);
        Ok(ImageInfo { version, flags })
    }

    // Each flag has a method, as in the Rust; a helper that takes the mask would be no shorter than the `&`.
    pub fn dyld_categories_optimized(self) -> bool
        ensures { result ≡ bit 0 self.flags }
    {
        self.flags & OBJC_IMAGE_DYLD_CATEGORIES_OPTIMIZED != 0
    }

    pub fn supports_gc(self) -> bool
        ensures { result ≡ bit 1 self.flags }
    {
        self.flags & OBJC_IMAGE_SUPPORTS_GC != 0
    }

    pub fn requires_gc(self) -> bool
        ensures { result ≡ bit 2 self.flags }
    {
        self.flags & OBJC_IMAGE_REQUIRES_GC != 0
    }

    pub fn optimized_by_dyld(self) -> bool
        ensures { result ≡ bit 3 self.flags }
    {
        self.flags & OBJC_IMAGE_OPTIMIZED_BY_DYLD != 0
    }

    pub fn signed_class_ro(self) -> bool
        ensures { result ≡ bit 4 self.flags }
    {
        self.flags & OBJC_IMAGE_SIGNED_CLASS_RO != 0
    }

    pub fn is_simulated(self) -> bool
        ensures { result ≡ bit 5 self.flags }
    {
        self.flags & OBJC_IMAGE_IS_SIMULATED != 0
    }

    pub fn has_category_class_properties(self) -> bool
        ensures { result ≡ bit 6 self.flags }
    {
        self.flags & OBJC_IMAGE_HAS_CATEGORY_CLASS_PROPERTIES != 0
    }

    pub fn optimized_by_dyld_closure(self) -> bool
        ensures { result ≡ bit 7 self.flags }
    {
        self.flags & OBJC_IMAGE_OPTIMIZED_BY_DYLD_CLOSURE != 0
    }

    // The unstable Swift ABI version, bits 8 to 15; 7 where the ABI is stable.
    pub fn swift_unstable_version(self) -> u8
        ensures { result ≡ swift_unstable self.flags }
    {
        ((self.flags & OBJC_IMAGE_SWIFT_UNSTABLE_VERSION_MASK) >> 8) as u8
    }

    // The stable Swift ABI version, bits 16 to 31.
    pub fn swift_stable_version(self) -> u16
        ensures { result ≡ swift_stable self.flags }
    {
        ((self.flags & OBJC_IMAGE_SWIFT_STABLE_VERSION_MASK) >> 16) as u16
    }

    // The image holds Swift code (objc-abi.h, containsSwift).
    pub fn contains_swift(self) -> bool
        ensures { result ≡ not (eqb (swift_unstable self.flags) 0) }
    {
        self.flags & OBJC_IMAGE_SWIFT_UNSTABLE_VERSION_MASK != 0
    }
}
