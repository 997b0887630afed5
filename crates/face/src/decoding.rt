// A record decoded at an address, or a name, as words.
ghost use Rattle.std.specs.Prelude.{◌≡◌};
ghost use Rattle.pointers.specs.Question.{guarded};
ghost use Rattle.pointers.specs.Tables.{lent, under};
ghost use Rattle.records.specs.Category.{category_at, category_class_name};
ghost use Rattle.records.specs.Class.{class_at, ro_of, class_name_at, superclass_name};
ghost use Rattle.records.specs.Protocol.{protocol_at};
ghost use Rattle.face.specs.Status.{says, words_or};
ghost use Rattle.walks.specs.Sections.{decoded_step, record_answer};
ghost use Rattle.face.specs.Words.{is_set, setting_in, class_in, category_in};
ghost use Rattle.face.specs.Decoding.{class_told, ro_told, protocol_told, category_told, name_told};

use crate::status::Status;
use crate::words::{CategoryWords, ClassWords, ProtocolWords, RoWords, TextWords, setting_in};
use pointers::setting::Setting;
use pointers::tables::Tables;
use reads::answer::Question;
use reads::place::Image;
use records::calls::{decode_category, decode_class, decode_class_name, decode_protocol};
use records::category::ObjcCategory;
use records::class::ObjcClass;
use walks::section_slots::decoded_step;
use walks::sections::RecordStep;

// Five structs and not a generic one: a function for C takes and gives none.
#[repr(C)]
#[derive(Clone, Copy)]
pub struct ClassTold {
    pub status: Status,
    pub cls: ClassWords,
}

#[repr(C)]
#[derive(Clone, Copy)]
pub struct RoTold {
    pub status: Status,
    pub ro: RoWords,
}

#[repr(C)]
#[derive(Clone, Copy)]
pub struct ProtocolTold {
    pub status: Status,
    pub protocol: ProtocolWords,
}

#[repr(C)]
#[derive(Clone, Copy)]
pub struct CategoryTold {
    pub status: Status,
    pub category: CategoryWords,
}

#[repr(C)]
#[derive(Clone, Copy)]
pub struct NameTold {
    pub status: Status,
    pub name: TextWords,
}

// What a step says first, or the question that refuses it; and the words of the record that it gives, or else `none`. A record decoded at an address,
// and an opened file, is told as by a step that reaches it (`decoded_step`).
pub(crate) fn told<R: Copy, W: Copy + From<R>>(
    answer: Result<RecordStep<R>, Question>,
    none: W,
) -> (Status, W)
    ensures status { result.0 ≡ says (record_answer answer) }
    ensures words { (words : R → W) → ((r : _) (w : _) → W.from_gives r w → w ≡ words r) → result.1 ≡ words_or none words (record_answer answer) }
{
    match answer {
        Ok(RecordStep::Record(r)) => (Status::found(), W::from(r)),
        Ok(RecordStep::Passed(why)) => (Status::from(why), none),
        Ok(RecordStep::Dropped) => (Status::of(Status::DROPPED), none),
        Ok(RecordStep::Finished) => (Status::of(Status::FINISHED), none),
        Err(k) => (Status::refused(k), none),
    }
}

// What C lends, as one value.
pub(crate) fn lent<'a>(
    files: &'a [&'a [u8]],
    segments: &'a [u64],
    sections: &'a [u64],
    info: &'a [u8],
    rebases: &'a [u64],
    binds: &'a [u64],
    index: &'a [u32],
) -> Tables<'a>
    ensures { result ≡ lent files segments sections info rebases binds index }
{
    Tables {
        image: Image { files, segments },
        sections,
        info,
        rebases,
        binds,
        index,
        setting: Setting::new(),
    }
}

// What C lends comes part by part, here and in the other exports; it is put together by `lent`.
// The class at an address; is_meta, 0 or not, says as what it is asked for.
#[unsafe(no_mangle)]
pub extern "C" fn objclist_class(
    files: &[&[u8]],
    segments: &[u64],
    sections: &[u64],
    info: &[u8],
    rebases: &[u64],
    binds: &[u64],
    index: &[u32],
    old_reading: u64,
    address: u64,
    is_meta: u64,
) -> ClassTold
    ensures { let t = under (setting_in old_reading) (lent files segments sections info rebases binds index) in
        result ≡ class_told (decoded_step (guarded t (class_at t address (is_set is_meta)))) }
{
    let tables = lent(files, segments, sections, info, rebases, binds, index).under(setting_in(
        old_reading,
    ));
    let answer = decode_class(&tables, address, is_meta != 0);
    let (status, cls) = told(decoded_step(answer), ClassWords::default());
    ClassTold { status, cls }
}

// The class_ro_t of a class.
#[unsafe(no_mangle)]
pub extern "C" fn objclist_class_ro(
    files: &[&[u8]],
    segments: &[u64],
    sections: &[u64],
    info: &[u8],
    rebases: &[u64],
    binds: &[u64],
    index: &[u32],
    old_reading: u64,
    cls: ClassWords,
) -> RoTold
    ensures { let t = under (setting_in old_reading) (lent files segments sections info rebases binds index) in
        result ≡ ro_told (decoded_step (guarded t (ro_of t (class_in cls)))) }
{
    let tables = lent(files, segments, sections, info, rebases, binds, index).under(setting_in(
        old_reading,
    ));
    let class = ObjcClass::from(cls);
    let answer = class.ro(&tables);
    let (status, ro) = told(decoded_step(answer), RoWords::default());
    RoTold { status, ro }
}

// The name of the class at an address.
#[unsafe(no_mangle)]
pub extern "C" fn objclist_class_name(
    files: &[&[u8]],
    segments: &[u64],
    sections: &[u64],
    info: &[u8],
    rebases: &[u64],
    binds: &[u64],
    index: &[u32],
    old_reading: u64,
    address: u64,
) -> NameTold
    ensures { let t = under (setting_in old_reading) (lent files segments sections info rebases binds index) in
        result ≡ name_told (decoded_step (guarded t (class_name_at t address))) }
{
    let tables = lent(files, segments, sections, info, rebases, binds, index).under(setting_in(
        old_reading,
    ));
    let answer = decode_class_name(&tables, address);
    let (status, name) = told(decoded_step(answer), TextWords::default());
    NameTold { status, name }
}

// The name of a class's superclass: decoded, or by its bind.
#[unsafe(no_mangle)]
pub extern "C" fn objclist_superclass_name(
    files: &[&[u8]],
    segments: &[u64],
    sections: &[u64],
    info: &[u8],
    rebases: &[u64],
    binds: &[u64],
    index: &[u32],
    old_reading: u64,
    cls: ClassWords,
) -> NameTold
    ensures { let t = under (setting_in old_reading) (lent files segments sections info rebases binds index) in
        result ≡ name_told (decoded_step (guarded t (superclass_name t (class_in cls)))) }
{
    let tables = lent(files, segments, sections, info, rebases, binds, index).under(setting_in(
        old_reading,
    ));
    let class = ObjcClass::from(cls);
    let answer = class.superclass_name(&tables);
    let (status, name) = told(decoded_step(answer), TextWords::default());
    NameTold { status, name }
}

// The protocol at an address.
#[unsafe(no_mangle)]
pub extern "C" fn objclist_protocol(
    files: &[&[u8]],
    segments: &[u64],
    sections: &[u64],
    info: &[u8],
    rebases: &[u64],
    binds: &[u64],
    index: &[u32],
    old_reading: u64,
    address: u64,
) -> ProtocolTold
    ensures { let t = under (setting_in old_reading) (lent files segments sections info rebases binds index) in
        result ≡ protocol_told (decoded_step (guarded t (protocol_at t address))) }
{
    let tables = lent(files, segments, sections, info, rebases, binds, index).under(setting_in(
        old_reading,
    ));
    let answer = decode_protocol(&tables, address);
    let (status, protocol) = told(decoded_step(answer), ProtocolWords::default());
    ProtocolTold { status, protocol }
}

// The category at an address.
#[unsafe(no_mangle)]
pub extern "C" fn objclist_category(
    files: &[&[u8]],
    segments: &[u64],
    sections: &[u64],
    info: &[u8],
    rebases: &[u64],
    binds: &[u64],
    index: &[u32],
    old_reading: u64,
    address: u64,
) -> CategoryTold
    ensures { let t = under (setting_in old_reading) (lent files segments sections info rebases binds index) in
        result ≡ category_told (decoded_step (guarded t (category_at t address))) }
{
    let tables = lent(files, segments, sections, info, rebases, binds, index).under(setting_in(
        old_reading,
    ));
    let answer = decode_category(&tables, address);
    let (status, category) = told(decoded_step(answer), CategoryWords::default());
    CategoryTold { status, category }
}

// The name of a category's class: decoded, or by its bind.
#[unsafe(no_mangle)]
pub extern "C" fn objclist_category_class_name(
    files: &[&[u8]],
    segments: &[u64],
    sections: &[u64],
    info: &[u8],
    rebases: &[u64],
    binds: &[u64],
    index: &[u32],
    old_reading: u64,
    category: CategoryWords,
) -> NameTold
    ensures { let t = under (setting_in old_reading) (lent files segments sections info rebases binds index) in
        result ≡ name_told (decoded_step (guarded t (category_class_name t (category_in category)))) }
{
    let tables = lent(files, segments, sections, info, rebases, binds, index).under(setting_in(
        old_reading,
    ));
    let extended = ObjcCategory::from(category);
    let answer = extended.class_name(&tables);
    let (status, name) = told(decoded_step(answer), TextWords::default());
    NameTold { status, name }
}
