// The lines of a listing as text (document 01, "The program's listing"): fields split by one space, numbers lower-case hex, strings as
// length, colon and bytes, `-` for none, each line with its newline. Only the number after `refused` is decimal.
ghost use Rattle.std.specs.Prelude.{◌∷◌, ◌≡◌};
ghost use Rattle.reads.specs.Reference.{before};
ghost use Rattle.printing.specs.Buffer.{Puts};
ghost use Rattle.printing.specs.LineText.{none_field, number_field, string_field, text_field, text_fields, named_field, optional_field, class_letter, info_text, class_text, ro_text, protocol_text, category_text, method_text, ivar_text, property_text, row_text, name_text, end_text, fields_text, line_text, refused_text};
ghost use Rattle.reads.specs.Files.{files_of};

use crate::buffer::Out;
use frames::frames::Mark;
use listing::line::{CategoryLine, ClassLine, EndLine, InfoLine, Line, NameLine, RowLine};
use pointers::name::name_bytes;
use pointers::question::name_inside;
use reads::answer::Question;
use reads::text::Text;
use records::class::ClassRo;
use records::ivar::Ivar;
use records::method::Method;
use records::property::Property;
use records::protocol::ObjcProtocol;
use records::row::Row;

// C of a class, M of a metaclass.
fn class_letter(meta: bool) -> u8
    ensures { result ≡ class_letter meta }
{
    if meta { b'M' } else { b'C' }
}

// The files are handed on, and no field of `Out`, as usage's `Noting` has its tables: what `Noting` promises is a function of the state before a call,
// but `Puts` says which text was put, and that is made of the files before it is put: where fields follow one another (`puts_then`) each proof would
// first bring every later text back to the files of the start.
impl Out<'_> {
    // A field that is none.
    #[tactic(auto, unfolding(crate::specs::LineText::none_field))]
    fn none(&mut self)
        ensures { Puts self.old none_field self.new }
    {
        self.bytes(b" -");
    }

    // A field that is a number.
    fn number(&mut self, n: u64)
        ensures { Puts self.old (number_field n) self.new }
    {
        self.byte(b' ');
        self.hex(n);
    }

    // A line's letter and its first field, a number.
    fn start(&mut self, letter: u8, n: u64)
        ensures { Puts self.old (letter ∷ number_field n) self.new }
    {
        self.byte(letter);
        self.number(n);
    }

    // A field that is these bytes.
    fn string(&mut self, s: &[u8])
        ensures { Puts self.old (string_field (before s)) self.new }
    {
        self.number(s.len() as u64);
        self.byte(b':');
        self.bytes(s);
    }

    // A field that is a text; none where it does not lie in its file. A file that is not lent has no bytes.
    fn text(&mut self, files: &[&[u8]], t: Text)
        ensures { Puts self.old (text_field (files_of files) t) self.new }
    {
        if !name_inside(files, t) {
            return self.none();
        }
        self.string(name_bytes(files, t));
    }

    // Two fields that are texts.
    fn texts(&mut self, files: &[&[u8]], first: Text, second: Text)
        ensures { Puts self.old (text_fields (files_of files) first second) self.new }
    {
        self.text(files, first);
        self.text(files, second);
    }

    // A field that is a name or none.
    fn named(&mut self, files: &[&[u8]], name: Option<Text>)
        ensures { Puts self.old (named_field (files_of files) name) self.new }
    {
        match name {
            Some(t) => self.text(files, t),
            None => self.none(),
        }
    }

    // A number or none.
    fn optional(&mut self, n: Option<u64>)
        ensures { Puts self.old (optional_field n) self.new }
    {
        match n {
            Some(n) => self.number(n),
            None => self.none(),
        }
    }

    // I: version, flags, reading.
    fn info(&mut self, i: InfoLine)
        ensures { Puts self.old (info_text i) self.new }
    {
        let info = i.info;
        let reading = i.reading;
        self.start(b'I', info.version as u64);
        self.number(info.flags as u64);
        self.number(reading as u64);
    }

    // C or M: address, isa, superclass, bits, superclass name.
    fn class(&mut self, files: &[&[u8]], line: ClassLine)
        ensures { Puts self.old (class_text (files_of files) line) self.new }
    {
        let class = line.class;
        let name = line.superclass_name;
        self.start(class_letter(class.is_meta), class.address);
        self.number(class.isa);
        self.number(class.superclass_address);
        self.number(class.bits);
        self.named(files, name);
    }

    // R: address, flags, start, size, name.
    fn ro(&mut self, files: &[&[u8]], ro: ClassRo)
        ensures { Puts self.old (ro_text (files_of files) ro) self.new }
    {
        let name = ro.name;
        self.start(b'R', ro.address);
        self.number(ro.flags as u64);
        self.number(ro.instance_start as u64);
        self.number(ro.instance_size as u64);
        self.text(files, name);
    }

    // P: address, size, flags, name.
    fn protocol(&mut self, files: &[&[u8]], protocol: ObjcProtocol)
        ensures { Puts self.old (protocol_text (files_of files) protocol) self.new }
    {
        let name = protocol.name;
        self.start(b'P', protocol.address);
        self.number(protocol.size as u64);
        self.number(protocol.flags as u64);
        self.text(files, name);
    }

    // K: address, class address, name, class name.
    fn category(&mut self, files: &[&[u8]], line: CategoryLine)
        ensures { Puts self.old (category_text (files_of files) line) self.new }
    {
        let category = line.category;
        let class_name = line.class_name;
        let name = category.name;
        self.start(b'K', category.address);
        self.number(category.class_address);
        self.text(files, name);
        self.named(files, class_name);
    }

    // m: list number, selector, types, imp, kind, mark.
    fn method(&mut self, files: &[&[u8]], list: u16, m: Method, mark: Mark)
        ensures { Puts self.old (method_text (files_of files) list m mark) self.new }
    {
        let selector = m.selector;
        let types = m.types;
        let implementation = m.implementation;
        let kind = m.kind;
        self.start(b'm', list as u64);
        self.texts(files, selector, types);
        self.optional(implementation);
        self.number(kind as u64);
        self.number(mark as u64);
    }

    // v: list number, name, type, offset, size, alignment, aligned.
    fn ivar(&mut self, files: &[&[u8]], list: u16, v: Ivar)
        ensures { Puts self.old (ivar_text (files_of files) list v) self.new }
    {
        let name = v.name;
        let encoding = v.type_encoding;
        let offset = v.offset;
        let log2 = v.log2_alignment;
        let aligned = v.aligned;
        self.start(b'v', list as u64);
        self.texts(files, name, encoding);
        self.optional(offset.map(|n| n as u64));
        self.number(v.size as u64);
        self.optional(log2.map(|n| n as u64));
        self.optional(aligned.map(u64::from));
    }

    // p: list number, name, attributes.
    fn property(&mut self, files: &[&[u8]], list: u16, p: Property)
        ensures { Puts self.old (property_text (files_of files) list p) self.new }
    {
        let name = p.name;
        let attributes = p.attributes;
        self.start(b'p', list as u64);
        self.texts(files, name, attributes);
    }

    // m, v or p.
    fn row(&mut self, files: &[&[u8]], line: RowLine)
        ensures { Puts self.old (row_text (files_of files) line.list line.row line.mark) self.new }
    {
        let row = line.row;
        match row {
            Row::Method(m) => self.method(files, line.list, m, line.mark),
            Row::Ivar(v) => self.ivar(files, line.list, v),
            Row::Property(p) => self.property(files, line.list, p),
        }
    }

    // q: list number, protocol name.
    fn protocol_name(&mut self, files: &[&[u8]], line: NameLine)
        ensures { Puts self.old (name_text (files_of files) line) self.new }
    {
        let name = line.name;
        self.start(b'q', line.list as u64);
        self.text(files, name);
    }

    // E: records, settled.
    fn end(&mut self, line: EndLine)
        ensures { Puts self.old (end_text line) self.new }
    {
        self.start(b'E', line.records);
        self.byte(b' ');
        self.hex_of_128(line.settled);
    }

    // A line without its newline.
    fn fields(&mut self, files: &[&[u8]], line: Line)
        ensures { Puts self.old (fields_text (files_of files) line) self.new }
    {
        match line {
            Line::Info(i) => self.info(i),
            Line::Class(c) => self.class(files, c),
            Line::Ro(r) => self.ro(files, r),
            Line::Protocol(p) => self.protocol(files, p),
            Line::Category(k) => self.category(files, k),
            Line::Row(r) => self.row(files, r),
            Line::Name(n) => self.protocol_name(files, n),
            Line::End(e) => self.end(e),
        }
    }

    // A line.
    pub(crate) fn line(&mut self, files: &[&[u8]], line: Line)
        ensures { Puts self.old (line_text (files_of files) line) self.new }
    {
        self.fields(files, line);
        self.byte(b'\n');
    }

    // `refused` and the number of the question, in decimal.
    pub(crate) fn refused(&mut self, k: Question)
        ensures { Puts self.old (refused_text k) self.new }
    {
        self.bytes(b"refused ");
        self.decimal(k.number() as u64);
        self.byte(b'\n');
    }
}
