// The data kinds of fields: whether a field's bytes agree with its kind.
#![tactic(auto)]

ghost use Rattle.std.specs.Prelude.{◌≡◌, cond, ◌&&◌, ◌++◌, ◌+◌, ◌≤◌, ◌<◌, eqb, length, take};
ghost use Rattle.std.specs.Int.Bits.{bit_xor};
ghost use Rattle.numbers.specs.Numbers.{bytes_of};
ghost use Rattle.kinds.specs.Kinds.{within, letter, excepted, allowed, blank_taken, all_nul, all_allowed, follows, agrees_text, agrees_of, agrees_filled_of};
ghost use Rattle.kinds.specs.Words.{kind_of, Low, Marks};

// A field's kind: document 01's A, N, T, the characters of ClOrdID and OrigClOrdID, B and P; T that is never blank, as MassCancelInst is; and a calendar
// day, as MaturityDate is.
#[derive(Clone, Copy)]
pub enum Kind {
    Letters,
    Alphanumeric,
    Text,
    Identifier,
    Binary,
    Price,
    FilledText,
    Day,
}

// The kinds of texts whose characters are tested a word at a time: A, N and T.
#[derive(Clone, Copy)]
enum Plain {
    OfA,
    OfN,
    OfT,
}

// Whether two tests hold. Both are made: a loop that never stops early takes many bytes at a time.
fn both(a: bool, b: bool) -> bool
    ensures { result ≡ (a && b) }
{
    if a { b } else { false }
}

// Whether a byte lies from one byte to another, both included.
fn is_within(low: u8, high: u8, b: u8) -> bool
    ensures { result ≡ within low high b }
{
    low <= b && b <= high
}

// A capital or a small letter.
fn is_letter(b: u8) -> bool
    ensures { result ≡ letter b }
{
    if is_within(65, 90, b) {
        return true;
    }
    is_within(97, 122, b)
}

// Whether a byte is one of the five characters that ClOrdID and OrigClOrdID do not use: comma, semicolon, pipe, @ and double quote. All five tests are
// made, as in `both`.
fn is_excepted(b: u8) -> bool
    ensures { result ≡ excepted b }
{
    let comma = b == b',';
    let semicolon = b == b';';
    let pipe = b == b'|';
    let at_sign = b == b'@';
    let double_quote = b == b'"';
    comma | semicolon | pipe | at_sign | double_quote
}

// Whether a byte is a character of ClOrdID or OrigClOrdID: the bytes 33 to 126 except those five.
fn is_identifier(b: u8) -> bool
    ensures { result ≡ allowed Kind.Identifier b }
{
    both(is_within(33, 126, b), !is_excepted(b))
}

// Whether a field of a kind may hold a byte that is not NUL.
fn is_allowed(kind: Kind, b: u8) -> bool
    ensures { result ≡ allowed kind b }
{
    match kind {
        Kind::Letters => is_letter(b),
        Kind::Alphanumeric => {
            if is_within(48, 57, b) {
                return true;
            }
            is_letter(b)
        }
        Kind::Text => is_within(32, 126, b),
        Kind::Identifier => is_identifier(b),
        Kind::Binary => true,
        Kind::Price => true,
        Kind::FilledText => is_within(32, 126, b),
        Kind::Day => false,
    }
}

// Whether a field is blank: all its bytes are NUL.
pub fn is_blank(s: &[u8]) -> bool
    ensures { result ≡ all_nul s.now }
{
    let mut ok = true;
    for byte in s {
        ok = both(*byte == 0, ok);
    }
    ok
}

// Whether a byte of an identifier may stand after another: NUL after any, a character after any but NUL.
fn fine(prev: u8, b: u8) -> bool
    ensures { result ≡ follows prev b }
{
    if b == 0 {
        return true;
    }
    both(prev != 0, is_identifier(b))
}

// Whether a field is an identifier, or blank. The first byte stands after one that is not NUL.
fn is_name(s: &[u8]) -> bool
    ensures { result ≡ agrees_text Kind.Identifier s.now }
{
    let mut prev: u8 = 1;
    let mut ok = true;
    for byte in s {
        ok = both(fine(prev, *byte), ok);
        prev = *byte;
    }
    ok
}

// Whether a blank field agrees with a kind.
fn takes_blank(kind: Kind) -> bool
    ensures { result ≡ blank_taken kind }
{
    match kind {
        Kind::Letters => true,
        Kind::Alphanumeric => true,
        Kind::Text => true,
        Kind::Identifier => true,
        Kind::Binary => true,
        Kind::Price => true,
        Kind::FilledText => false,
        Kind::Day => false,
    }
}

// Whether a field of one byte agrees with its kind.
fn agrees_one(kind: Kind, b: u8) -> bool
    ensures { result ≡ cond (eqb b 0) (blank_taken kind) (allowed kind b) }
{
    if b == 0 {
        return takes_blank(kind);
    }
    is_allowed(kind, b)
}

// A byte as a wider number.
fn wide(x: u8) -> u64
    ensures { (result ≡ x) × (result < 256) }
{
    x as u64
}

// The number of the first four bytes.
fn half(s: &[u8]) -> u64
    requires { 4 ≤ length s.now }
    ensures { (bytes_of 4 result ≡ take 4 s.now) × (result < 4294967296) }
{
    wide(s[0]) + 256 * wide(s[1]) + 65536 * wide(s[2]) + 16777216 * wide(s[3])
}

// The number of the first eight bytes: a word, with a byte in each of its eight lanes.
fn word(s: &[u8]) -> u64
    requires { 8 ≤ length s.now }
    ensures { bytes_of 8 result ≡ take 8 s.now }
{
    half(s) + 4294967296 * half(&s[4..])
}

// Marks, which are the highest bits of lanes, at the lanes that reach 128 with `low` added and do not with `high`.
fn between(y: u64, low: u64, high: u64) -> u64
    requires { (y ≤ 0x7F7F7F7F7F7F7F7F) × (low ≤ 0x7F7F7F7F7F7F7F7F) × (high ≤ 0x7F7F7F7F7F7F7F7F) }
    ensures { result ≡ bit_xor (y + low) (y + high) }
{
    (y + low) ^ (y + high)
}

// Marks at the letters of a word of lanes below 128. A capital letter and its small one differ by 32.
fn letters(y: u64) -> u64
    requires { Low 8 y }
    ensures { Marks letter 8 y result }
{
    between(
        y | 0x2020202020202020,
        0x1F1F1F1F1F1F1F1F,
        0x0505050505050505,
    )
}

// Marks at the characters of a plain kind.
fn marks(plain: Plain, y: u64) -> u64
    requires { Low 8 y }
    ensures { Marks (allowed (kind_of plain)) 8 y result }
{
    match plain {
        Plain::OfA => letters(y),
        Plain::OfN => letters(y) | between(y, 0x5050505050505050, 0x4646464646464646),
        Plain::OfT => between(y, 0x6060606060606060, 0x0101010101010101),
    }
}

// Whether the eight bytes of a word agree with a plain kind: each is below 128, and where it or the one after it is not NUL, the kind allows it.
fn word_agrees(plain: Plain, x: u64) -> bool
    ensures { result ≡ agrees_text (kind_of plain) (bytes_of 8 x) }
{
    let y = x & 0x7F7F7F7F7F7F7F7F;
    let good = marks(plain, y);
    let filled = y + 0x7F7F7F7F7F7F7F7F;
    ((((filled >> 8) | filled) & (good ^ 0xFFFFFFFFFFFFFFFF)) | x) & 0x8080808080808080 == 0
}

// The same for two words, one after another. A word below 256 to the 7th ends with NUL.
fn pair_agrees(plain: Plain, x: u64, y: u64) -> bool
    ensures { result ≡ agrees_text (kind_of plain) (bytes_of 8 x ++ bytes_of 8 y) }
{
    if x < 0x100000000000000 {
        return both(word_agrees(plain, x), y == 0);
    }
    both(word_agrees(plain, x), word_agrees(plain, y))
}

// The same for any field, word after word. Bytes past the end are read as NUL. What is left after a word decides too, so the walk goes by that, and not by
// chunks.
fn long_agrees(plain: Plain, s: &[u8]) -> bool
    ensures { result ≡ agrees_text (kind_of plain) s.now }
{
    let mut rest = s;
    while 8 <= rest.len() {
        let x = word(rest);
        rest = &rest[8..];
        if x < 0x100000000000000 {
            return both(word_agrees(plain, x), is_blank(rest));
        }
        if !word_agrees(plain, x) {
            return false;
        }
    }
    word_agrees(plain, numbers::read_u64(rest, 0))
}

// Whether a kind allows every byte of a field.
fn every(kind: Kind, s: &[u8]) -> bool
    ensures { result ≡ all_allowed kind s.now }
{
    let mut ok = true;
    for byte in s {
        ok = both(is_allowed(kind, *byte), ok);
    }
    ok
}

// Whether a plain kind allows every byte of a field. In each arm the kind is a literal, so that its test is folded.
fn full_agrees(plain: Plain, s: &[u8]) -> bool
    ensures { result ≡ all_allowed (kind_of plain) s.now }
{
    match plain {
        Plain::OfA => every(Kind::Letters, s),
        Plain::OfN => every(Kind::Alphanumeric, s),
        Plain::OfT => every(Kind::Text, s),
    }
}

// Whether any field agrees with a plain kind. One whose last byte is not NUL is full: it has no NUL, or does not agree.
fn any_agrees(plain: Plain, s: &[u8]) -> bool
    ensures { result ≡ agrees_text (kind_of plain) s.now }
{
    if s.len() != 0 {
        if s[s.len() - 1] != 0 {
            return full_agrees(plain, s);
        }
    }
    long_agrees(plain, s)
}

// The same for a field of n bytes. Where n is a literal the compiler keeps one of the four.
fn text_agrees(plain: Plain, n: usize, s: &[u8]) -> bool
    requires { n ≡ length s.now }
    ensures { result ≡ agrees_text (kind_of plain) s.now }
{
    if n == 8 {
        return word_agrees(plain, word(s));
    }
    if n == 4 {
        return word_agrees(plain, half(s));
    }
    if n == 16 {
        return pair_agrees(plain, word(s), word(&s[8..]));
    }
    any_agrees(plain, s)
}

// Whether the n bytes of a field are a text, and not blank.
fn filled_agrees(n: usize, s: &[u8]) -> bool
    requires { n ≡ length s.now }
    ensures { result ≡ agrees_of Kind.FilledText s.now }
{
    if is_blank(s) {
        return false;
    }
    text_agrees(Plain::OfT, n, s)
}

// Whether the n bytes of a field are the number of a calendar day: four bytes, YYYYMMDD.
fn day_agrees(n: usize, s: &[u8]) -> bool
    requires { n ≡ length s.now }
    ensures { result ≡ agrees_of Kind.Day s.now }
{
    if n != 4 {
        return false;
    }
    calendar::is_day(numbers::read_u32(s, 0))
}

// Whether the n bytes of a field agree with its kind.
fn sized_agrees(kind: Kind, n: usize, s: &[u8]) -> bool
    requires { n ≡ length s.now }
    ensures { result ≡ agrees_of kind s.now }
{
    if n == 1 {
        return agrees_one(kind, s[0]);
    }
    match kind {
        Kind::Letters => text_agrees(Plain::OfA, n, s),
        Kind::Alphanumeric => text_agrees(Plain::OfN, n, s),
        Kind::Text => text_agrees(Plain::OfT, n, s),
        Kind::Identifier => is_name(s),
        Kind::Binary => true,
        Kind::Price => true,
        Kind::FilledText => filled_agrees(n, s),
        Kind::Day => day_agrees(n, s),
    }
}

// Whether a field's bytes agree with its kind. A blank field does, but for the kinds that are never blank. The length is an argument below, so that a literal one is folded.
pub fn agrees(kind: Kind, s: &[u8]) -> bool
    ensures { result ≡ agrees_of kind s.now }
{
    let n = s.len();
    sized_agrees(kind, n, s)
}

// The same for a field that is never blank. Where its first byte is not NUL, it is not.
pub fn agrees_filled(kind: Kind, s: &[u8]) -> bool
    ensures { result ≡ agrees_filled_of kind s.now }
{
    if s.len() == 0 {
        return false;
    }
    if s[0] != 0 {
        return sized_agrees(kind, s.len(), s);
    }
    if is_blank(s) {
        return false;
    }
    sized_agrees(kind, s.len(), s)
}

// Whether a field of 20 bytes is an identifier, or blank: its first 16 bytes are one, and so are its last 16, or the last four are NUL.
fn long_name(s: &[u8]) -> bool
    requires { length s.now ≡ 20 }
    ensures { result ≡ agrees_text Kind.Identifier s.now }
{
    let front = is_name(&s[0..16]);
    if half(&s[16..]) == 0 {
        return front;
    }
    both(front, is_name(&s[4..20]))
}

// Whether a field is an identifier and not blank. One of 20 bytes, as ClOrdID and OrigClOrdID are, is tested by itself, any other as a field that is never blank.
pub fn identifies(s: &[u8]) -> bool
    ensures { result ≡ agrees_filled_of Kind.Identifier s.now }
{
    if s.len() == 20 {
        if s[0] == 0 {
            return false;
        }
        return long_name(s);
    }
    agrees_filled(Kind::Identifier, s)
}
