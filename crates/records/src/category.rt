// Categories (objc-runtime-new.h, category_t).
ghost use Rattle.std.specs.Prelude.{◌≡◌, ◌≤◌, length};
ghost use Rattle.records.specs.Category.{category_lists_at, category_properties_at, category_of, category_at};
ghost use Rattle.records.specs.Header.{category_size};
ghost use Rattle.reads.specs.Answer.{outcome};

use crate::near::Near;
use crate::text::string;
use pointers::imageinfo::ImageInfo;
use pointers::slot::pointer_or_0;
use pointers::tables::Tables;
use reads::answer::Missing;
use reads::text::Text;

// A category: name, host class, and the addresses of its lists; class_properties is 0, the field's own word for no
// list, where it has none.
#[derive(Clone, Copy)]
pub struct ObjcCategory {
    pub address: u64,
    pub name: Text,
    pub class_address: u64,
    pub instance_methods: u64,
    pub class_methods: u64,
    pub protocols: u64,
    pub instance_properties: u64,
    pub class_properties: u64,
}

impl ObjcCategory {
    // The size of category_t without _classProperties and with it, and its fields (its name is at 0).
    pub const SIZE: u64 = 48;

    pub const SIZE_WITH_CLASS_PROPERTIES: u64 = 56;

    pub const CLS: u64 = 8;

    pub const INSTANCE_METHODS: u64 = 16;

    pub const CLASS_METHODS: u64 = 24;

    pub const PROTOCOLS: u64 = 32;

    pub const INSTANCE_PROPERTIES: u64 = 40;

    pub const CLASS_PROPERTIES: u64 = 48;
}

// The lists of a category_t but its class properties; each or 0.
#[derive(Clone, Copy)]
struct CategoryLists {
    instance_methods: u64,
    class_methods: u64,
    protocols: u64,
    instance_properties: u64,
}

// _classProperties where the image has the field; or 0.
fn category_properties_at(tables: &Tables, va: u64, wide: bool) -> Result<u64, Missing>
    ensures { let t = tables.now in
        outcome result ≡ category_properties_at t va wide }
{
    if wide {
        return pointer_or_0(tables, va, ObjcCategory::CLASS_PROPERTIES);
    }
    Ok(0)
}

// The lists of a category_t but its class properties; each or 0.
#[tactic(auto, using(reads::proofs::Outcomes::missed_then), unfolding(crate::specs::Category::decode_category_lists))]
fn category_lists_at(category: &Near) -> Result<CategoryLists, Missing>
    requires { category_size ≤ length category.now.bytes.now }
    ensures { outcome result ≡ category_lists_at category.now.tables.now category.now.va }
{
    let instance_methods = category.field_or_0(ObjcCategory::INSTANCE_METHODS)?;
    let class_methods = category.field_or_0(ObjcCategory::CLASS_METHODS)?;
    let protocols = category.field_or_0(ObjcCategory::PROTOCOLS)?;
    let instance_properties = category.field_or_0(ObjcCategory::INSTANCE_PROPERTIES)?;
    Ok(CategoryLists {
        instance_methods,
        class_methods,
        protocols,
        instance_properties,
    })
}

// category_t, wider where it has the field for class properties: its fields in the order of category.rs, the name's text last.
#[tactic(auto, using(reads::proofs::Outcomes::missed_then), unfolding(crate::specs::Category::decode_category_of, reads::specs::Outcome::choose))]
fn category_of(tables: &Tables, va: u64, wide: bool) -> Result<ObjcCategory, Missing>
    ensures { let t = tables.now in
        outcome result ≡ category_of t va wide }
{
    let size = if wide {
        ObjcCategory::SIZE_WITH_CLASS_PROPERTIES
    } else {
        ObjcCategory::SIZE
    };
    let category = Near::at(tables, va, size)?;
    let name_va = category.first_slot()?;
    let class_address = category.field_or_0(ObjcCategory::CLS)?;
    let lists = category_lists_at(&category)?;
    let class_properties = category_properties_at(tables, va, wide)?;
    let name = string(tables, name_va)?;
    Ok(ObjcCategory {
        address: va,
        name,
        class_address,
        instance_methods: lists.instance_methods,
        class_methods: lists.class_methods,
        protocols: lists.protocols,
        instance_properties: lists.instance_properties,
        class_properties,
    })
}

// The category at an address, by bit 6 of the image info's flags.
#[tactic(auto, using(reads::proofs::Outcomes::missed_then), unfolding(crate::specs::Category::decode_category))]
pub fn category_at(tables: &Tables, va: u64) -> Result<ObjcCategory, Missing>
    ensures { let t = tables.now in
        outcome result ≡ category_at t va }
{
    let image_info = ImageInfo::parse(tables.info())?;
    let wide = image_info.has_category_class_properties();
    category_of(tables, va, wide)
}
