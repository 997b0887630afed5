// Texts and records as structs of words; by default, where there is none, all are 0.
ghost use Rattle.std.specs.Prelude.{◌≡◌};
ghost use Rattle.face.specs.Words.{setting_in, text, class, class_in, class_ro, protocol, category, category_in};

use pointers::setting::Setting;
use reads::text::{Reading, Text};
use records::category::ObjcCategory;
use records::class::{ClassRo, ObjcClass};
use records::protocol::ObjcProtocol;

// A text: `len` bytes of a file from an offset on.
#[repr(C)]
#[derive(Clone, Copy, Default)]
pub struct TextWords {
    pub file: u64,
    pub offset: u64,
    pub len: u64,
}

#[repr(C)]
#[derive(Clone, Copy, Default)]
pub struct ClassWords {
    pub address: u64,
    pub isa: u64,
    pub superclass_address: u64,
    pub bits: u64,
    pub is_meta: u64,
}

#[repr(C)]
#[derive(Clone, Copy, Default)]
pub struct RoWords {
    pub address: u64,
    pub flags: u64,
    pub instance_start: u64,
    pub instance_size: u64,
    pub name: TextWords,
    pub ivar_layout_address: u64,
    pub methods: u64,
    pub protocols: u64,
    pub ivars: u64,
    pub weak_ivar_layout_address: u64,
    pub properties: u64,
}

#[repr(C)]
#[derive(Clone, Copy, Default)]
pub struct ProtocolWords {
    pub address: u64,
    pub name: TextWords,
    pub protocols: u64,
    pub instance_methods: u64,
    pub class_methods: u64,
    pub optional_instance_methods: u64,
    pub optional_class_methods: u64,
    pub instance_properties: u64,
    pub class_properties: u64,
    pub size: u64,
    pub flags: u64,
}

#[repr(C)]
#[derive(Clone, Copy, Default)]
pub struct CategoryWords {
    pub address: u64,
    pub name: TextWords,
    pub class_address: u64,
    pub instance_methods: u64,
    pub class_methods: u64,
    pub protocols: u64,
    pub instance_properties: u64,
    pub class_properties: u64,
}

// The new reading, or the old one where the word is not 0.
pub(crate) fn setting_in(old_reading: u64) -> Setting
    ensures { result ≡ setting_in old_reading }
{
    if old_reading == 0 {
        return Setting::new();
    }
    Setting::under(Reading::Old)
}

impl From<Text> for TextWords {
    ghost from_gives = { λ x w. w ≡ text x };

    fn from(t: Text) -> TextWords {
        TextWords {
            file: t.file,
            offset: t.offset,
            len: t.len,
        }
    }
}

impl From<ObjcClass> for ClassWords {
    ghost from_gives = { λ x w. w ≡ class x };

    fn from(c: ObjcClass) -> ClassWords {
        ClassWords {
            address: c.address,
            isa: c.isa,
            superclass_address: c.superclass_address,
            bits: c.bits,
            is_meta: u64::from(c.is_meta),
        }
    }
}

impl From<ClassWords> for ObjcClass {
    ghost from_gives = { λ w c. c ≡ class_in w };

    fn from(w: ClassWords) -> ObjcClass {
        ObjcClass {
            address: w.address,
            isa: w.isa,
            superclass_address: w.superclass_address,
            bits: w.bits,
            is_meta: w.is_meta != 0,
        }
    }
}

impl From<ClassRo> for RoWords {
    ghost from_gives = { λ x w. w ≡ class_ro x };

    fn from(ro: ClassRo) -> RoWords {
        let name = ro.name;
        RoWords {
            address: ro.address,
            flags: ro.flags as u64,
            instance_start: ro.instance_start as u64,
            instance_size: ro.instance_size as u64,
            name: TextWords::from(name),
            ivar_layout_address: ro.ivar_layout_address,
            methods: ro.methods,
            protocols: ro.protocols,
            ivars: ro.ivars,
            weak_ivar_layout_address: ro.weak_ivar_layout_address,
            properties: ro.properties,
        }
    }
}

impl From<ObjcProtocol> for ProtocolWords {
    ghost from_gives = { λ x w. w ≡ protocol x };

    fn from(p: ObjcProtocol) -> ProtocolWords {
        let name = p.name;
        ProtocolWords {
            address: p.address,
            name: TextWords::from(name),
            protocols: p.protocols,
            instance_methods: p.instance_methods,
            class_methods: p.class_methods,
            optional_instance_methods: p.optional_instance_methods,
            optional_class_methods: p.optional_class_methods,
            instance_properties: p.instance_properties,
            class_properties: p.class_properties,
            size: p.size as u64,
            flags: p.flags as u64,
        }
    }
}

impl From<ObjcCategory> for CategoryWords {
    ghost from_gives = { λ x w. w ≡ category x };

    fn from(k: ObjcCategory) -> CategoryWords {
        let name = k.name;
        CategoryWords {
            address: k.address,
            name: TextWords::from(name),
            class_address: k.class_address,
            instance_methods: k.instance_methods,
            class_methods: k.class_methods,
            protocols: k.protocols,
            instance_properties: k.instance_properties,
            class_properties: k.class_properties,
        }
    }
}

impl From<TextWords> for Text {
    ghost use Rattle.reads.specs.Outcome.{text_of};

    ghost from_gives = { λ w x. x ≡ text_of w.file w.offset w.len };

    fn from(w: TextWords) -> Text {
        Text {
            file: w.file,
            offset: w.offset,
            len: w.len,
        }
    }
}

impl From<CategoryWords> for ObjcCategory {
    ghost from_gives = { λ w k. k ≡ category_in w };

    fn from(w: CategoryWords) -> ObjcCategory {
        let name = w.name;
        ObjcCategory {
            address: w.address,
            name: Text::from(name),
            class_address: w.class_address,
            instance_methods: w.instance_methods,
            class_methods: w.class_methods,
            protocols: w.protocols,
            instance_properties: w.instance_properties,
            class_properties: w.class_properties,
        }
    }
}
