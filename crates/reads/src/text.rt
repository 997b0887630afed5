// Texts in the files of an image: UTF-8 up to a zero byte, or to the end. A text is read in one pass: a byte of it is read
// by `read_byte` alone, and once, which raises the count of the bytes read.
ghost use Rattle.std.specs.Prelude.{◌≡◌, ◌≤◌, length, Ok};
ghost use Rattle.reads.specs.Reference.{before};
ghost use Rattle.reads.specs.Outcome.{and_then, nonzero, or_empty};
ghost use Rattle.reads.specs.Utf8.{◌to◌, tail, verdict, utf8};
ghost use Rattle.reads.specs.Pass.{byte_after, due, follow, character, broken_at, plain, onward, of_eight, good_scan, Skipped, PassedOn};
ghost use Rattle.reads.specs.Files.{files_of};
ghost use Rattle.reads.specs.Segment.{rows, lookup, place_at};
ghost use Rattle.reads.specs.declared.text.Reading.TheVariants.{Old};
ghost use Rattle.reads.specs.Text.{ended, scan_of, good_text, text_of_scan, text_from, read_from, text_at, read_at, text_in, read_in, fixed_length, length_plus_one};
ghost use Rattle.reads.specs.Answer.{outcome};

use crate::answer::{Missing, Reason, nonzero, or_value};
use crate::files::bytes_of;
use crate::place::{Image, Place};
use crate::segment::vm_to_file_offset_in;

// A text: a part of a file of the image; the empty one, in file 0 at offset 0, is the default.
#[derive(Clone, Copy, Default)]
pub struct Text {
    pub file: u64,
    pub offset: u64,
    pub len: u64,
}

// How a text is read that no zero byte ends: under the old reading it runs to its file's end, under the new one it is absent.
#[derive(Clone, Copy)]
pub enum Reading {
    Old,
    New,
}

// What one pass over a text finds: its length, how many bytes were read for it, and whether it is UTF-8.
#[derive(Clone, Copy)]
pub struct Scan {
    pub len: u64,
    pub read: u64,
    pub verdict: Result<(), u64>,
}

// A text or none, and how many bytes were read for it: the count is raised at each byte.
#[derive(Clone, Copy)]
pub struct CstrRead {
    pub text: Result<Text, Missing>,
    pub read: u64,
}

// Two texts of a row; each may be missing.
#[derive(Clone, Copy)]
pub struct CstrPair {
    pub first: Result<Text, Missing>,
    pub second: Result<Text, Missing>,
}

// A byte, its offset, and the count of the bytes read with it. Where no byte is left 0 stands for it, and the count is not raised:
// not an Option, as both end a text, and the pass tests them by one compare. The byte is a word: a struct with a hole is copied through memory.
#[derive(Clone, Copy)]
struct ByteRead {
    at: usize,
    byte: u64,
    read: usize,
}

// The byte after `read` bytes of s that were read, and the count raised by it: the one place where a byte of a text is read.
#[tactic(auto, using(std::proofs::lemmas::Bool::Decides::nat_tests), unfolding(crate::specs::Outcome::choose))]
fn read_byte(s: &[u8], read: usize) -> ByteRead
    ensures { result ≡ byte_after (before s) read }
{
    if s.len() <= read {
        return ByteRead {
            at: read,
            byte: 0,
            read,
        };
    }
    ByteRead {
        at: read,
        byte: s[read] as u64,
        read: read + 1,
    }
}

// An ASCII byte that does not end a text. One compare: neither test waits for the other.
#[inline(always)]
fn plain(b: ByteRead) -> bool
    ensures { result ≡ plain b }
{
    (0 < b.byte) & (b.byte < 0x80)
}

// The byte behind b where b is plain, else b.
#[inline(always)]
#[tactic(auto, unfolding(crate::specs::Outcome::choose))]
fn onward(s: &[u8], b: ByteRead) -> ByteRead
    ensures { result ≡ onward (before s) b }
{
    if plain(b) {
        return read_byte(s, b.read);
    }
    b
}

// The first byte of eight that is not plain, or the eighth: that eight are there is known at each, and no test for the end is left.
#[inline(always)]
fn of_eight(s: &[u8]) -> ByteRead
    ensures { result ≡ of_eight (before s) }
{
    let b = onward(s, onward(s, onward(s, read_byte(s, 0))));
    onward(s, onward(s, onward(s, onward(s, b))))
}

// The byte that a pass over s comes to over plain ones, eight by eight: the first that is not plain, or one of the last eight.
#[inline(always)]
fn skip_plain(s: &[u8], from: usize) -> ByteRead
    requires { from ≤ length s.now }
    ensures { Skipped (before s) from result }
{
    let mut read = from;
    if 8 <= s.len() {
        let last = s.len() - 8;
        while read <= last {
            let b = of_eight(&s[read..read + 8]);
            if !plain(b) {
                return ByteRead {
                    at: read + b.at,
                    byte: b.byte,
                    read: read + b.read,
                };
            }
            read += b.read;
        }
    }
    read_byte(s, read)
}

// The same where few plain bytes come, as between characters of more bytes: the first ones are passed one by one.
#[inline(always)]
fn skip_few(s: &[u8], from: usize) -> ByteRead
    requires { from ≤ length s.now }
    ensures { Skipped (before s) from result }
{
    let b = onward(s, onward(s, onward(s, read_byte(s, from))));
    if plain(b) {
        return skip_plain(s, b.read);
    }
    b
}

// The count behind the next byte, if that lies between lo and hi and so continues a character; else that byte, a bad one.
#[tactic(auto, using(std::proofs::lemmas::Bool::Decides::nat_tests), unfolding(crate::specs::Outcome::choose))]
fn due(s: &[u8], read: usize, lo: u64, hi: u64) -> Result<usize, ByteRead>
    ensures { result ≡ due (before s) read (lo to hi) }
{
    let b = read_byte(s, read);
    if (lo..=hi).contains(&b.byte) {
        return Ok(b.read);
    }
    Err(b)
}

// The same of UTF8-tail, where the character went on so far.
fn tail(s: &[u8], so_far: Result<usize, ByteRead>) -> Result<usize, ByteRead>
    ensures { result ≡ follow (before s) so_far tail }
{
    due(s, so_far?, 0x80, 0xBF)
}

// The count behind the character of more than one byte that begins with `first`, or its first bad byte: a line for each row of the grammar.
#[inline(always)]
fn character(s: &[u8], first: ByteRead) -> Result<usize, ByteRead>
    ensures { result ≡ character (before s) first }
{
    let read = first.read;
    let b = first.byte;
    match b {
        0xC2..=0xDF => due(s, read, 0x80, 0xBF),
        0xE0 => tail(s, due(s, read, 0xA0, 0xBF)),
        0xE1..=0xEC => tail(s, due(s, read, 0x80, 0xBF)),
        0xED => tail(s, due(s, read, 0x80, 0x9F)),
        0xEE..=0xEF => tail(s, due(s, read, 0x80, 0xBF)),
        0xF0 => tail(s, tail(s, due(s, read, 0x90, 0xBF))),
        0xF1..=0xF3 => tail(s, tail(s, due(s, read, 0x80, 0xBF))),
        0xF4 => tail(s, tail(s, due(s, read, 0x80, 0x8F))),
        _ => Err(first),
    }
}

// The same as a call, where few bytes come to it.
#[inline(never)]
fn character_apart(s: &[u8], first: ByteRead) -> Result<usize, ByteRead>
    ensures { result ≡ character (before s) first }
{
    character(s, first)
}

// Whether the bytes are UTF-8, and where not: the offset of the first byte that no well-formed text can continue, or their count
// where they end inside a character.
pub fn utf8_verdict(s: &[u8]) -> Result<(), u64>
    ensures { result ≡ verdict (before s) }
{
    // Not a `for`: `read` moves by the bytes of a character.
    let mut read = 0;
    while read < s.len() {
        let b = read_byte(s, read);
        if b.byte < 0x80 {
            read = b.read;
            continue;
        }
        // A copy: what is handed to a call lies in memory, and b is to stay in registers.
        let first = b;
        match character_apart(s, first) {
            Ok(behind) => read = behind,
            Err(bad) => return Err(bad.at as u64),
        }
    }
    Ok(())
}

// The bytes are UTF-8.
#[tactic(auto, unfolding(crate::specs::Utf8::utf8))]
pub fn utf8(s: &[u8]) -> bool
    ensures { result ≡ utf8 (before s) }
{
    utf8_verdict(s).is_ok()
}

// A text whose byte `bad` no well-formed text continues with: the pass goes on to its end.
#[tactic(auto, using(crate::proofs::Texts::ahead_on, crate::proofs::Texts::ahead_ends, crate::proofs::Texts::read_next))]
fn broken(s: &[u8], bad: ByteRead) -> Scan
    requires { (bad.at ≤ length s.now) × (bad ≡ byte_after s.now bad.at) }
    ensures { result ≡ broken_at (before s) bad.at }
{
    // Not `position` of the zero byte: each byte is read by `read_byte`, which counts it.
    let mut b = bad;
    while 0 < b.byte {
        b = read_byte(s, b.read);
    }
    Scan {
        len: b.at as u64,
        read: b.read as u64,
        verdict: Err(bad.at as u64),
    }
}

// What a pass found that came to the byte that ends the text, all of it well-formed.
fn good_scan(end: ByteRead) -> Scan
    ensures { result ≡ good_scan end }
{
    Scan {
        len: end.at as u64,
        read: end.read as u64,
        verdict: Ok(()),
    }
}

// The byte that ends the text in front of s, all of it well-formed, by a pass that has come to `first`; or the first byte that no well-formed text
// continues with, behind which none is read. A zero byte inside a character, or the end there, is no UTF8-tail.
fn pass_on(s: &[u8], first: ByteRead) -> Result<ByteRead, ByteRead>
    requires { Skipped s.now 0 first }
    ensures { PassedOn (before s) result }
{
    let mut b = first;
    loop {
        if plain(b) {
            b = skip_few(s, b.read);
            continue;
        }
        if b.byte == 0 {
            return Ok(b);
        }
        // A copy: what is handed to a call lies in memory, and b is to stay in registers.
        let high = b;
        match character(s, high) {
            Ok(behind) => b = read_byte(s, behind),
            Err(bad) => return Err(bad),
        }
    }
}

// The text in front of s, by a pass that has come to `first`.
fn scan_on(s: &[u8], first: ByteRead) -> Scan
    requires { Skipped s.now 0 first }
    ensures { result ≡ scan_of (before s) }
{
    match pass_on(s, first) {
        Ok(end) => good_scan(end),
        Err(bad) => broken(s, bad),
    }
}

// The text in front of s, in one pass.
pub fn scan_text(s: &[u8]) -> Scan
    ensures { result ≡ scan_of (before s) }
{
    scan_on(s, skip_plain(s, 0))
}

// The zero byte that ends a text was read too.
fn ended(scan: Scan) -> bool
    ensures { result ≡ ended scan }
{
    scan.len < scan.read
}

// The text that a scan from a place found, if it is UTF-8.
fn good_text(p: Place, scan: Scan) -> Result<Text, Missing>
    ensures { outcome result ≡ good_text p scan }
{
    scan.verdict
        .map_err(|k| Missing::Absent(Reason::NotUtf8(k)))?;
    Ok(Text {
        file: p.file,
        offset: p.offset,
        len: scan.len,
    })
}

// The same under a reading: that it has no end goes before that it is not UTF-8.
fn text_of_scan(reading: Reading, p: Place, scan: Scan) -> Result<Text, Missing>
    ensures { outcome result ≡ text_of_scan reading p scan }
{
    match reading {
        Reading::Old => good_text(p, scan),
        Reading::New => {
            if !ended(scan) {
                return Err(Missing::Absent(Reason::Unterminated));
            }
            good_text(p, scan)
        }
    }
}

// The text of a scan from a place, and the count of the bytes read.
fn read_of_scan(reading: Reading, p: Place, scan: Scan) -> CstrRead
    ensures { (outcome result.text ≡ text_of_scan reading p scan) × (result.read ≡ scan.read) }
{
    CstrRead {
        text: text_of_scan(reading, p, scan),
        read: scan.read,
    }
}

// The same of what a pass over s finds that has come to `first`: apart, for few texts are not ASCII.
#[inline(never)]
fn read_on(s: &[u8], first: ByteRead, reading: Reading, p: Place) -> CstrRead
    requires { Skipped s.now 0 first }
    ensures { (outcome result.text ≡ text_of_scan reading p (scan_of (before s))) × (result.read ≡ (scan_of (before s)).read) }
{
    read_of_scan(reading, p, scan_on(s, first))
}

// A text that is begun: its place, the bytes of its file from there on, and the first of them, which is read.
#[derive(Clone, Copy)]
struct Begun<'a> {
    place: Place,
    bytes: &'a [u8],
    first: ByteRead,
    ghost read: { first ≡ byte_after bytes.now 0 },
}

impl<'a> Begun<'a> {
    ghost use Rattle.reads.specs.Begun.{text_begun, read_begun};

    // The text at a place whose file has these bytes, begun.
    #[inline(always)]
    #[tactic(auto, using(crate::proofs::Texts::text_found, crate::proofs::Texts::text_beyond, crate::proofs::Texts::read_found), unfolding(crate::specs::Text::read_from))]
    fn of(bytes: &'a [u8], p: Place) -> Result<Begun<'a>, Missing>
        ensures text { (r : Reading) → text_begun r result ≡ text_from r (before bytes) p }
        ensures count { read_begun result ≡ read_from (before bytes) p.offset }
    {
        if (bytes.len() as u64) < p.offset {
            return Err(Missing::Absent(Reason::PastEnd));
        }
        let s = &bytes[p.offset as usize..];
        Ok(Begun {
            place: p,
            bytes: s,
            first: read_byte(s, 0),
        })
    }

    // The text at an address, begun: absent at 0 and where nothing is mapped.
    #[inline(always)]
    #[tactic(auto, unfolding(crate::specs::Text::text_in, crate::specs::Text::read_in))]
    fn at(image: &Image<'a>, va: u64) -> Result<Begun<'a>, Missing>
        ensures text { (r : Reading) → text_begun r result ≡ text_in r image.now va }
        ensures count { read_begun result ≡ read_in image.now va }
    {
        let p = text_place(image, va)?;
        Begun::of(bytes_of(image.files, p.file), p)
    }

    // The byte that a pass over the text comes to over plain ones.
    #[inline(always)]
    fn past_plain(self) -> ByteRead
        ensures { Skipped self.entry.bytes.now 0 result }
    {
        if plain(self.first) {
            return skip_plain(self.bytes, self.first.read);
        }
        self.first
    }

    // One more than its length under the old reading, 0 where it is not UTF-8: no byte behind the first bad one is read, for nothing is counted.
    #[tactic(auto, using(crate::proofs::Texts::end_length, crate::proofs::Texts::bad_length, crate::proofs::Texts::end_within))]
    fn length_plus_one(self) -> u64
        ensures { result ≡ length_plus_one (text_begun Old (Ok self.entry)) }
    {
        match pass_on(self.bytes, self.past_plain()) {
            Ok(end) => end.at as u64 + 1,
            Err(_) => 0,
        }
    }

    // A begun text by the rest of its pass, and how many bytes were read; where none was begun, why not, and 0.
    #[inline(always)]
    fn finish(reading: Reading, text: Result<Begun, Missing>) -> CstrRead
        ensures { (outcome result.text ≡ text_begun reading text.entry) × (result.read ≡ read_begun text.entry) }
    {
        match text {
            Ok(t) => {
                let b = t.past_plain();
                if b.byte == 0 {
                    return read_of_scan(reading, t.place, good_scan(b));
                }
                let first = b;
                read_on(t.bytes, first, reading, t.place)
            }
            Err(m) => CstrRead {
                text: Err(m),
                read: 0,
            },
        }
    }
}

// The text at a place whose file has these bytes, and how many bytes were read.
fn read_cstr_in(bytes: &[u8], reading: Reading, p: Place) -> CstrRead
    ensures { (outcome result.text ≡ text_from reading (before bytes) p) × (result.read ≡ read_from (before bytes) p.offset) }
{
    Begun::finish(reading, Begun::of(bytes, p))
}

// The text at a place, and how many bytes were read: a file that is not lent has no bytes.
pub fn read_cstr_at(files: &[&[u8]], reading: Reading, p: Place) -> CstrRead
    ensures { (outcome result.text ≡ text_at reading (files_of files) p) × (result.read ≡ read_at (files_of files) p) }
{
    read_cstr_in(bytes_of(files, p.file), reading, p)
}

// The place of the text at an address: absent at 0 and where nothing is mapped.
#[tactic(auto, using(crate::proofs::Outcomes::outcomes))]
pub fn text_place(image: &Image, va: u64) -> Result<Place, Missing>
    ensures { outcome result ≡ and_then (nonzero va) (λ a. lookup (rows image.now.words) a) }
{
    let a = nonzero(va)?;
    vm_to_file_offset_in(image.segments, a)
}

// The text at an address, and how many bytes were read: absent at 0 and where nothing is mapped, and then none. Image, reading and address come one by
// one, here and in the three below: the address is a call's own, and a struct of the other two would be made for one call each time (records' `string`).
pub fn read_cstr_counted(image: &Image, reading: Reading, va: u64) -> CstrRead
    ensures { (outcome result.text ≡ text_in reading image.now va) × (result.read ≡ read_in image.now va) }
{
    Begun::finish(reading, Begun::at(image, va))
}

// The same without the count.
pub fn read_cstr(image: &Image, reading: Reading, va: u64) -> Result<Text, Missing>
    ensures { outcome result ≡ text_in reading image.now va }
{
    let r = read_cstr_counted(image, reading, va);
    r.text
}

// The texts at two addresses, each as `read_cstr` reads it. The first bytes of both are read before the rest of either: so the processor waits for both
// at once; and the second, mostly short and in the cache, is finished while the first one's bytes are on their way.
pub fn read_cstr_pair(image: &Image, reading: Reading, first: u64, second: u64) -> CstrPair
    ensures { (outcome result.first ≡ text_in reading image.now first) × (outcome result.second ≡ text_in reading image.now second) }
{
    let one = Begun::at(image, first);
    let other = Begun::at(image, second);
    let second = Begun::finish(reading, other).text;
    let first = Begun::finish(reading, one).text;
    CstrPair { first, second }
}

// The same of a row, whose second text counts only where the first is there: it is begun beside the first, and read on after it, so that of a row
// without its first text no more than a byte of the second is read.
pub fn read_cstr_row(image: &Image, reading: Reading, first: u64, second: u64) -> CstrPair
    ensures { (outcome result.first ≡ text_in reading image.now first) × (outcome result.second ≡ and_then (text_in reading image.now first) (λ _. text_in reading image.now second)) }
{
    let one = Begun::at(image, first);
    let other = Begun::at(image, second);
    let named = Begun::finish(reading, one).text;
    CstrPair {
        first: named,
        second: match named {
            Ok(_) => Begun::finish(reading, other).text,
            Err(m) => Err(m),
        },
    }
}

// An absent text counts as the empty one, in file 0 at offset 0.
pub fn or_empty(t: Result<Text, Missing>) -> Result<Text, Missing>
    ensures { outcome result ≡ or_empty (outcome t) }
{
    or_value(t, Text::default())
}

// The text at an address, an absent one counting as the empty one.
pub fn read_cstr_or_empty(image: &Image, reading: Reading, va: u64) -> Result<Text, Missing>
    ensures { outcome result ≡ or_empty (text_in reading image.now va) }
{
    or_empty(read_cstr(image, reading, va))
}

// The length of the text in a field of 16 bytes, as segname and sectname: 0 where it is not UTF-8, not an Option: the Rust gives "" there
// (DECISIONS 8).
#[tactic(auto, unfolding(crate::specs::Text::fixed_length, crate::specs::Utf8::utf8, crate::specs::Outcome::choose))]
pub fn cstr_from_fixed(bytes: &[u8; 16]) -> u64
    ensures { result ≡ fixed_length (before bytes) }
{
    let scan = scan_text(bytes);
    let verdict = scan.verdict;
    match verdict {
        Ok(()) => scan.len,
        Err(_) => 0,
    }
}

// For callers in C or Rust: one more than the length of the text at an offset of one file under the old reading, 0 where there is none.
#[unsafe(no_mangle)]
#[tactic(auto, using(crate::proofs::Texts::text_inside), unfolding(crate::specs::Text::length_plus_one))]
pub extern "C" fn reads_cstr_length_plus_one(bytes: &[u8], offset: u64) -> u64
    ensures { result ≡ length_plus_one (text_from Old (before bytes) (place_at 0 offset)) }
{
    match Begun::of(bytes, Place { file: 0, offset }) {
        Ok(t) => t.length_plus_one(),
        Err(_) => 0,
    }
}
