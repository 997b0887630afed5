// The section table: class_list, nlclslist, cat_list, nlcat_list, proto_list, three words each (present, vmaddr, length).
ghost use Rattle.std.specs.Prelude.{◌≡◌};
ghost use Rattle.reads.specs.Reference.{before};
ghost use Rattle.pointers.specs.Section.{section_at};

// A section of pointer slots: where it starts, and how many full slots it has; an absent one, the default, has none.
#[derive(Clone, Copy, Default)]
pub struct ObjcSection {
    pub vmaddr: u64,
    pub slots: u64,
}

impl ObjcSection {
    // The words of a section, and of the table of five.
    pub const WORDS: usize = 3;

    pub const TABLE_WORDS: usize = 15;

    // The five. Numbers, not an enum: `at` promises a section for every number, and an enum would ask more of its callers.
    pub const CLASS_LIST: usize = 0;

    pub const NLCLSLIST: usize = 1;

    pub const CAT_LIST: usize = 2;

    pub const NLCAT_LIST: usize = 3;

    pub const PROTO_LIST: usize = 4;

    // Section i of the table; one past its end is absent.
    #[tactic(auto, unfolding(crate::specs::Section::section_at, reads::specs::Outcome::choose))]
    pub fn at(sections: &[u64], i: usize) -> ObjcSection
        ensures { result ≡ section_at (before sections) i }
    {
        if i < sections.len() / ObjcSection::WORDS {
            let first = i * ObjcSection::WORDS;
            let present = sections[first];
            if present == 1 {
                return ObjcSection {
                    vmaddr: sections[first + 1],
                    slots: sections[first + 2] / 8,
                };
            }
        }
        ObjcSection::default()
    }
}
