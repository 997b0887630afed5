// Protocols (objc-runtime-new.h, protocol_t).
ghost use Rattle.std.specs.Prelude.{◌≡◌, ◌≤◌, length};
ghost use Rattle.records.specs.Protocol.{protocol_lists_at, class_properties_at, trailing_at, protocol_at};
ghost use Rattle.records.specs.Header.{protocol_size};
ghost use Rattle.reads.specs.Answer.{outcome};

use crate::near::Near;
use crate::text::string;
use pointers::slot::slot_or_0;
use pointers::tables::Tables;
use reads::answer::{Missing, checked_add};
use reads::place::{Place, readable, u32_in};
use reads::text::Text;

// A protocol: name, and the addresses of its lists; class_properties is 0, the field's own word for no list, where it has none.
#[derive(Clone, Copy)]
pub struct ObjcProtocol {
    pub address: u64,
    pub name: Text,
    pub protocols: u64,
    pub instance_methods: u64,
    pub class_methods: u64,
    pub optional_instance_methods: u64,
    pub optional_class_methods: u64,
    pub instance_properties: u64,
    pub class_properties: u64,
    pub size: u32,
    pub flags: u32,
}

impl ObjcProtocol {
    // The size of protocol_t up to its flags.
    pub const SIZE: u64 = 72;

    pub const MANGLED_NAME: u64 = 8;

    pub const PROTOCOLS: u64 = 16;

    pub const INSTANCE_METHODS: u64 = 24;

    pub const CLASS_METHODS: u64 = 32;

    pub const OPTIONAL_INSTANCE_METHODS: u64 = 40;

    pub const OPTIONAL_CLASS_METHODS: u64 = 48;

    pub const INSTANCE_PROPERTIES: u64 = 56;

    pub const OWN_SIZE: u64 = 64;

    pub const FLAGS: u64 = 68;

    pub const CLASS_PROPERTIES: u64 = 88;

    pub const SIZE_WITH_CLASS_PROPERTIES: u32 = 96;
}

// The lists of a protocol_t but its class properties; each or 0.
#[derive(Clone, Copy)]
struct ProtocolLists {
    protocols: u64,
    instance_methods: u64,
    class_methods: u64,
    optional_instance_methods: u64,
    optional_class_methods: u64,
    instance_properties: u64,
}

// _classProperties: its 8 bytes must be readable, even where a rebase fills the slot; or 0.
#[tactic(auto, using(reads::proofs::Outcomes::missed_then), unfolding(crate::specs::Protocol::decode_trailing))]
fn trailing_at(tables: &Tables, va: u64) -> Result<u64, Missing>
    ensures { let t = tables.now in
        outcome result ≡ trailing_at t va }
{
    let slot = checked_add(va, ObjcProtocol::CLASS_PROPERTIES)?;
    readable(tables.image(), slot, 8)?;
    slot_or_0(tables, slot)
}

// The class properties, 0 where the protocol is too short to have them.
#[tactic(auto, using(std::proofs::lemmas::Bool::Decides::nat_tests), unfolding(crate::specs::Protocol::decode_class_properties, reads::specs::Outcome::choose))]
fn class_properties_at(tables: &Tables, va: u64, p: Place) -> Result<u64, Missing>
    ensures { let t = tables.now in
        outcome result ≡ class_properties_at t va p }
{
    let size = u32_in(tables.files(), p, ObjcProtocol::OWN_SIZE);
    if ObjcProtocol::SIZE_WITH_CLASS_PROPERTIES <= size {
        return trailing_at(tables, va);
    }
    Ok(0)
}

// The lists of a protocol_t but its class properties; each or 0.
#[tactic(auto, using(reads::proofs::Outcomes::missed_then), unfolding(crate::specs::Protocol::decode_protocol_lists))]
fn protocol_lists_at(protocol: &Near) -> Result<ProtocolLists, Missing>
    requires { protocol_size ≤ length protocol.now.bytes.now }
    ensures { outcome result ≡ protocol_lists_at protocol.now.tables.now protocol.now.va }
{
    let protocols = protocol.field_or_0(ObjcProtocol::PROTOCOLS)?;
    let instance_methods = protocol.field_or_0(ObjcProtocol::INSTANCE_METHODS)?;
    let class_methods = protocol.field_or_0(ObjcProtocol::CLASS_METHODS)?;
    let optional_instance_methods = protocol.field_or_0(ObjcProtocol::OPTIONAL_INSTANCE_METHODS)?;
    let optional_class_methods = protocol.field_or_0(ObjcProtocol::OPTIONAL_CLASS_METHODS)?;
    let instance_properties = protocol.field_or_0(ObjcProtocol::INSTANCE_PROPERTIES)?;
    Ok(ProtocolLists {
        protocols,
        instance_methods,
        class_methods,
        optional_instance_methods,
        optional_class_methods,
        instance_properties,
    })
}

// protocol_t: the name's text is read before _classProperties.
#[tactic(auto, using(reads::proofs::Outcomes::missed_then), unfolding(crate::specs::Protocol::decode_protocol))]
pub fn protocol_at(tables: &Tables, va: u64) -> Result<ObjcProtocol, Missing>
    ensures { let t = tables.now in
        outcome result ≡ protocol_at t va }
{
    let protocol = Near::at(tables, va, ObjcProtocol::SIZE)?;
    let name_va = protocol.field(ObjcProtocol::MANGLED_NAME)?;
    let lists = protocol_lists_at(&protocol)?;
    let size = protocol.u32(ObjcProtocol::OWN_SIZE);
    let flags = protocol.u32(ObjcProtocol::FLAGS);
    let name = string(tables, name_va)?;
    let class_properties = class_properties_at(tables, va, protocol.place())?;
    Ok(ObjcProtocol {
        address: va,
        name,
        protocols: lists.protocols,
        instance_methods: lists.instance_methods,
        class_methods: lists.class_methods,
        optional_instance_methods: lists.optional_instance_methods,
        optional_class_methods: lists.optional_class_methods,
        instance_properties: lists.instance_properties,
        class_properties,
        size,
        flags,
    })
}
