// Rows of property lists (objc-runtime-new.h, property_t).
ghost use Rattle.std.specs.Prelude.{◌≡◌};
ghost use Rattle.records.specs.Row.{property_at};
ghost use Rattle.records.specs.Near.{OfSize};
ghost use Rattle.records.specs.Header.{property_size};
ghost use Rattle.reads.specs.Answer.{outcome};

use crate::near::Near;
use crate::text::string_pair;
use reads::answer::Missing;
use reads::text::Text;

// A row of a property list; `parse_attributes` takes its attributes apart.
#[derive(Clone, Copy)]
pub struct Property {
    pub name: Text,
    pub attributes: Text,
}

impl Property {
    // property_t: its size, attributes (its name is at 0).
    pub const SIZE: u64 = 16;

    pub const ATTRIBUTES: u64 = 8;
}

// property_t, 16 bytes.
#[tactic(auto, using(reads::proofs::Outcomes::missed_then), unfolding(crate::specs::Row::decode_property))]
pub(crate) fn property_near(row: &Near) -> Result<Property, Missing>
    requires { OfSize row.now property_size }
    ensures { outcome result ≡ property_at row.now.tables.now row.now.va }
{
    let tables = row.tables();
    let name_va = row.first_slot()?;
    let attributes_va = row.field_or_0(Property::ATTRIBUTES)?;
    let texts = string_pair(tables, name_va, attributes_va);
    let name = texts.first?;
    let attributes = texts.second?;
    Ok(Property { name, attributes })
}
