// Classes and their read-only records (objc-runtime-new.h, class_t and class_ro_t).
ghost use Rattle.std.specs.Prelude.{◌≡◌, ◌≤◌, length};
ghost use Rattle.pointers.specs.ImageInfo.{bit};
ghost use Rattle.records.specs.Class.{bits_of, data_at, class_at, ro_lists_at, class_ro_at, ro_of, ro_data_at, class_name_at, bound_name, decoded_name, class_name_of, fast_flags, is_swift};
ghost use Rattle.records.specs.Decode.{run, picked_at};
ghost use Rattle.records.specs.Header.{ro_size};
ghost use Rattle.reads.specs.Answer.{outcome};

use crate::near::Near;
use crate::text::string;
use pointers::slot::{pointer, rebase_at, symbol_at};
use pointers::tables::Tables;
use reads::address::Address;
use reads::answer::{Missing, because, checked_add, nonzero, or_zero};
use reads::place::{read_u64, readable};
use reads::text::Text;

// A class or metaclass.
#[derive(Clone, Copy)]
pub struct ObjcClass {
    pub address: u64,
    pub isa: u64,
    pub superclass_address: u64,
    pub bits: u64,
    pub is_meta: bool,
}

// The read-only record of a class: name, and the addresses of its lists.
#[derive(Clone, Copy)]
pub struct ClassRo {
    pub address: u64,
    pub flags: u32,
    pub instance_start: u32,
    pub instance_size: u32,
    pub name: Text,
    pub ivar_layout_address: u64,
    pub methods: u64,
    pub protocols: u64,
    pub ivars: u64,
    pub weak_ivar_layout_address: u64,
    pub properties: u64,
}

// What stands behind the name of a class_ro_t: its lists, and the weak ivar layout among them; each or 0.
#[derive(Clone, Copy)]
struct RoLists {
    methods: u64,
    protocols: u64,
    ivars: u64,
    weak_ivar_layout: u64,
    properties: u64,
}

// The data address without its low three bits, and the three of the stored word.
fn bits_of(target: u64, raw: u64) -> u64
    ensures { result ≡ bits_of target raw }
{
    target - target % 8 + raw % 8
}

// The data address: the rebase target of the bits word, else the pick of the stored word.
#[tactic(auto, unfolding(crate::specs::Class::decode_data))]
fn data_at(tables: &Tables, slot: u64, raw: u64) -> Result<u64, Missing>
    ensures { let t = tables.now in
        outcome result ≡ data_at t slot raw }
{
    match rebase_at(tables, slot) {
        Err(Missing::Absent(_)) => Address::pick(tables.segments(), raw),
        target => target,
    }
}

// class_t: both field addresses are tested before the first lookup.
#[tactic(auto, using(reads::proofs::Outcomes::missed_then, crate::proofs::NearFields::sum_is), unfolding(crate::specs::Class::decode_class))]
#[inline(always)]
pub fn class_at(tables: &Tables, va: u64, is_meta: bool) -> Result<ObjcClass, Missing>
    ensures { let t = tables.now in
        outcome result ≡ class_at t va is_meta }
{
    let class = Near::at(tables, va, ObjcClass::SIZE)?;
    let super_slot = checked_add(va, ObjcClass::SUPERCLASS)?;
    let bits_slot = checked_add(va, ObjcClass::BITS)?;
    let isa = class.slot_or_0(0, va)?;
    let superclass = class.slot_or_0(ObjcClass::SUPERCLASS, super_slot)?;
    let raw = class.word(ObjcClass::BITS, bits_slot)?;
    let target = or_zero(data_at(tables, bits_slot, raw))?;
    Ok(ObjcClass {
        address: va,
        isa,
        superclass_address: superclass,
        bits: bits_of(target, raw),
        is_meta,
    })
}

// What stands behind the name of a class_ro_t: its lists, and the weak ivar layout among them; each or 0.
#[tactic(auto, using(reads::proofs::Outcomes::missed_then), unfolding(crate::specs::Class::decode_ro_lists))]
fn ro_lists_at(ro: &Near) -> Result<RoLists, Missing>
    requires { ro_size ≤ length ro.now.bytes.now }
    ensures { outcome result ≡ ro_lists_at ro.now.tables.now ro.now.va }
{
    let methods = ro.field_or_0(ClassRo::BASE_METHODS)?;
    let protocols = ro.field_or_0(ClassRo::BASE_PROTOCOLS)?;
    let ivars = ro.field_or_0(ClassRo::IVARS)?;
    let weak_ivar_layout = ro.field_or_0(ClassRo::WEAK_IVAR_LAYOUT)?;
    let properties = ro.field_or_0(ClassRo::BASE_PROPERTIES)?;
    Ok(RoLists {
        methods,
        protocols,
        ivars,
        weak_ivar_layout,
        properties,
    })
}

// class_ro_t: flags, start and size, the pointers in the order of class.rs, the name's text last.
#[tactic(auto, using(reads::proofs::Outcomes::missed_then), unfolding(crate::specs::Class::decode_class_ro))]
pub fn class_ro_at(tables: &Tables, va: u64) -> Result<ClassRo, Missing>
    ensures { let t = tables.now in
        outcome result ≡ class_ro_at t va }
{
    let ro = Near::at(tables, va, ClassRo::SIZE)?;
    let flags = ro.u32(ClassRo::FLAGS);
    let instance_start = ro.u32(ClassRo::INSTANCE_START);
    let instance_size = ro.u32(ClassRo::INSTANCE_SIZE);
    let ivar_layout = ro.field_or_0(ClassRo::IVAR_LAYOUT)?;
    let name_va = ro.field(ClassRo::NAME)?;
    let lists = ro_lists_at(&ro)?;
    let name = string(tables, name_va)?;
    Ok(ClassRo {
        address: va,
        flags,
        instance_start,
        instance_size,
        name,
        ivar_layout_address: ivar_layout,
        methods: lists.methods,
        protocols: lists.protocols,
        ivars: lists.ivars,
        weak_ivar_layout_address: lists.weak_ivar_layout,
        properties: lists.properties,
    })
}

// The class_ro_t of a class: picked again from its bits.
#[tactic(auto, using(reads::proofs::Outcomes::missed_then), unfolding(crate::specs::Class::decode_ro_of))]
pub fn ro_of(tables: &Tables, class: ObjcClass) -> Result<ClassRo, Missing>
    ensures { let t = tables.now in
        outcome result ≡ ro_of t class }
{
    let va = Address::pick(tables.segments(), class.bits)?;
    class_ro_at(tables, va)
}

// The class_ro_t of the bits word in a slot: a rebase target is not picked from.
#[tactic(auto, unfolding(crate::specs::Class::decode_ro_data))]
fn ro_data_at(tables: &Tables, slot: u64) -> Result<u64, Missing>
    ensures { let t = tables.now in
        outcome result ≡ ro_data_at t slot }
{
    match rebase_at(tables, slot) {
        Err(Missing::Absent(_)) => picked_at(tables, slot),
        target => target,
    }
}

// The pick of the word in a slot.
#[tactic(auto, using(reads::proofs::Outcomes::missed_then))]
fn picked_at(tables: &Tables, slot: u64) -> Result<u64, Missing>
    ensures { let t = tables.now in
        outcome result ≡ run t (picked_at slot) }
{
    let raw = read_u64(tables.image(), slot)?;
    Address::pick(tables.segments(), raw)
}

// The name of the class at an address, by its class_ro_t's name slot alone.
#[tactic(auto, using(reads::proofs::Outcomes::missed_then), unfolding(crate::specs::Class::decode_class_name))]
pub fn class_name_at(tables: &Tables, va: u64) -> Result<Text, Missing>
    ensures { let t = tables.now in
        outcome result ≡ class_name_at t va }
{
    readable(tables.image(), va, ObjcClass::SIZE)?;
    let bits_slot = checked_add(va, ObjcClass::BITS)?;
    let ro_va = ro_data_at(tables, bits_slot)?;
    let name_va = pointer(tables, ro_va, ClassRo::NAME)?;
    string(tables, name_va)
}

// The bind of the slot at +8, where both class_t.superclass and category_t.cls stand, less its prefix.
#[tactic(auto, using(reads::proofs::Outcomes::missed_then), unfolding(crate::specs::Class::decode_bound_name))]
fn bound_name(tables: &Tables, address: u64) -> Result<Text, Missing>
    ensures { let t = tables.now in
        outcome result ≡ bound_name t address }
{
    let slot = checked_add(address, ObjcClass::SUPERCLASS)?;
    symbol_at(tables, slot)
}

// The decoded name of a class that is not 0.
#[tactic(auto, using(reads::proofs::Outcomes::missed_then), unfolding(crate::specs::Class::decode_nonzero_class_name))]
fn decoded_name(tables: &Tables, class_va: u64) -> Result<Text, Missing>
    ensures { let t = tables.now in
        outcome result ≡ decoded_name t class_va }
{
    let va = nonzero(class_va)?;
    class_name_at(tables, va)
}

// The name of the class in the slot at +8 of a record: a class that decodes goes before the bind, and where both are absent its
// reason stands.
#[tactic(auto, unfolding(crate::specs::Class::decode_class_name_of))]
pub fn class_name_of(tables: &Tables, address: u64, class_va: u64) -> Result<Text, Missing>
    ensures { let t = tables.now in
        outcome result ≡ class_name_of t address class_va }
{
    match decoded_name(tables, class_va) {
        Err(Missing::Absent(why)) => because(bound_name(tables, address), why),
        name => name,
    }
}

impl ObjcClass {
    // class_t: its size, superclass, bits (isa is at 0).
    pub const SIZE: u64 = 40;

    pub const SUPERCLASS: u64 = 8;

    pub const BITS: u64 = 32;

    // class_data_bits_t's three flags (objc-runtime-new.h, FAST_*).
    pub const FAST_IS_SWIFT_LEGACY: u64 = 0x1;

    pub const FAST_IS_SWIFT_STABLE: u64 = 0x2;

    pub const FAST_HAS_DEFAULT_RR: u64 = 0x4;

    // The three flags.
    pub fn fast_flags(self) -> u64
        ensures { result ≡ fast_flags self.bits }
    {
        self.bits % 8
    }

    // Either Swift flag is set.
    pub fn is_swift(self) -> bool
        ensures { result ≡ is_swift self.bits }
    {
        if self.bits & ObjcClass::FAST_IS_SWIFT_LEGACY != 0 {
            return true;
        }
        self.bits & ObjcClass::FAST_IS_SWIFT_STABLE != 0
    }

    pub fn has_default_rr(self) -> bool
        ensures { result ≡ bit 2 self.bits }
    {
        self.bits & ObjcClass::FAST_HAS_DEFAULT_RR != 0
    }
}

// The flags of class_ro_t (objc-runtime-new.h, RO_*).
#[derive(Clone, Copy)]
pub struct RoFlags {}

impl RoFlags {
    pub const META: u32 = 0x1;

    pub const ROOT: u32 = 0x2;

    pub const HAS_CXX_STRUCTORS: u32 = 0x4;

    pub const HIDDEN: u32 = 0x10;

    pub const EXCEPTION: u32 = 0x20;

    pub const HAS_SWIFT_INITIALIZER: u32 = 0x40;

    pub const IS_ARC: u32 = 0x80;

    pub const HAS_CXX_DTOR_ONLY: u32 = 0x100;

    pub const HAS_WEAK_WITHOUT_ARC: u32 = 0x200;

    pub const FORBIDS_ASSOCIATED_OBJECTS: u32 = 0x400;

    pub const FROM_BUNDLE: u32 = 0x20000000;

    pub const FUTURE: u32 = 0x40000000;

    pub const REALIZED: u32 = 0x80000000;
}

impl ClassRo {
    // The size of class_ro_t.
    pub const SIZE: u64 = 72;

    pub const FLAGS: u64 = 0;

    pub const INSTANCE_START: u64 = 4;

    pub const INSTANCE_SIZE: u64 = 8;

    pub const IVAR_LAYOUT: u64 = 16;

    pub const NAME: u64 = 24;

    pub const BASE_METHODS: u64 = 32;

    pub const BASE_PROTOCOLS: u64 = 40;

    pub const IVARS: u64 = 48;

    pub const WEAK_IVAR_LAYOUT: u64 = 56;

    pub const BASE_PROPERTIES: u64 = 64;

    // Each flag has a method, as in the Rust and as those of pointers' `ImageInfo`.
    pub fn is_meta(self) -> bool
        ensures { result ≡ bit 0 self.flags }
    {
        self.flags & RoFlags::META != 0
    }

    pub fn is_root(self) -> bool
        ensures { result ≡ bit 1 self.flags }
    {
        self.flags & RoFlags::ROOT != 0
    }

    pub fn has_cxx_structors(self) -> bool
        ensures { result ≡ bit 2 self.flags }
    {
        self.flags & RoFlags::HAS_CXX_STRUCTORS != 0
    }

    pub fn is_arc(self) -> bool
        ensures { result ≡ bit 7 self.flags }
    {
        self.flags & RoFlags::IS_ARC != 0
    }

    pub fn has_swift_initializer(self) -> bool
        ensures { result ≡ bit 6 self.flags }
    {
        self.flags & RoFlags::HAS_SWIFT_INITIALIZER != 0
    }

    pub fn is_exception(self) -> bool
        ensures { result ≡ bit 5 self.flags }
    {
        self.flags & RoFlags::EXCEPTION != 0
    }
}
