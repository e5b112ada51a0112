// The words of a question, with one space between: numbers and bytes.
ghost use Rattle.std.specs.Prelude.{◌≡◌, ◌+◌, ◌*◌, ◌/◌, ◌≤◌, ◌<◌, length, IfSome};
ghost use Rattle.numbers.specs.Numbers.{patched};
ghost use Rattle.asking.specs.Words.{words_of, word_of, number_of, is_hex, nibble_of, all_hex, bytes_in, is_bytes, run_of, run_buffer};

// How many words a line has.
pub fn count(line: &[u8]) -> usize
    ensures { result ≡ length (words_of line.now) }
{
    line.split(|b| *b == b' ').count()
}

// The word after k others; empty where there is none.
pub fn word(line: &[u8], k: usize) -> &[u8]
    ensures { result.now ≡ word_of k line.now }
{
    match line.split(|b| *b == b' ').nth(k) {
        Some(word) => word,
        None => &[],
    }
}

// A number of one to twenty digits that is at most `most`.
pub fn read_number(word: &[u8], most: u64) -> Option<u64>
    ensures value { result ≡ number_of word.now most }
    ensures bound { IfSome result (λ v. v ≤ most) }
{
    if word.is_empty() || 20 < word.len() {
        return None;
    }
    let mut value: u64 = 0;
    for b in word {
        if !b.is_ascii_digit() {
            return None;
        }
        value = value.checked_mul(10)?.checked_add(u64::from(*b - b'0'))?;
    }
    (value <= most).then_some(value)
}

// Whether a byte is a capital hex digit.
fn is_hex(b: u8) -> bool
    ensures { result ≡ is_hex b }
{
    matches!(b, b'0'..=b'9' | b'A'..=b'F')
}

// The value of a capital hex digit, 0 for any other byte.
fn nibble(b: u8) -> u8
    ensures value { result ≡ nibble_of b }
    ensures bound { result < 16 }
{
    match b {
        b'0'..=b'9' => b - b'0',
        b'A'..=b'F' => b - b'A' + 10,
        _ => 0,
    }
}

// Whether a word has hex digits alone.
fn all_hex(word: &[u8]) -> bool
    ensures { result ≡ all_hex word.now }
{
    word.iter().all(|b| is_hex(*b))
}

// Whether a word stands for bytes: two hex digits a byte, or `-` for none.
#[tactic(auto, using(crate::specs::WordLaws::odd_word, crate::specs::WordLaws::even_word))]
fn is_bytes(word: &[u8]) -> bool
    ensures { result ≡ is_bytes word.now }
{
    if word.len() == 0 {
        return false;
    }
    if word.len() == 1 {
        return word[0] == b'-';
    }
    if word.len() % 2 == 1 {
        return false;
    }
    all_hex(word)
}

// The bytes of pairs of hex digits, into the front of a buffer that has room for them.
fn put_bytes(word: &[u8], out: &mut [u8])
    requires { length word.now / 2 ≤ length out.old }
    ensures { out.new ≡ patched out.old 0 (bytes_in word.now) }
{
    for i in 0..word.len() / 2 {
        out[i] = nibble(word[2 * i]) * 16 + nibble(word[2 * i + 1]);
    }
}

// The bytes of a word, into the front of a buffer: how many. Two hex digits a byte, or `-` for none; the word is judged before anything is stored.
pub fn read_bytes(word: &[u8], out: &mut [u8]) -> Option<usize>
    ensures count { result ≡ run_of word.now (length out.old) }
    ensures stored { out.new ≡ run_buffer word.now out.old }
    ensures bound { IfSome result (λ n. n ≤ length out.old) }
{
    if !is_bytes(word) {
        return None;
    }
    let n = word.len() / 2;
    if out.len() < n {
        return None;
    }
    put_bytes(word, out);
    Some(n)
}
