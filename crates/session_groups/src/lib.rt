// Unit pairs and groups of the login-like messages: which are in order, and how many bytes they take.
#![tactic(auto)]

ghost use Rattle.std.specs.Prelude.{◌≡◌, ◌*◌, ◌≤◌, ◌<◌, length, replicate};
ghost use Rattle.session_groups.specs.Groups.{free, units_from, pairs_good, bits_good, key_of, group_key, size_by, list_good, group_size, groups_end};
ghost use Rattle.session_groups.specs.Answers.{end_of, some_of, key_number, told_key, Next};

// Whether a number has a place among the marks and has not come: its mark is 0.
fn is_free(marks: &[u8], place: usize) -> bool
    ensures { result ≡ free marks.now place }
{
    0 < place && place < marks.len() && marks[place] == 0
}

// Whether the units of n pairs are 1 to 32, none twice.
#[tactic(auto, using(crate::proofs::Walk::units_step, crate::proofs::Walk::units_none))]
fn units_good(n: usize, s: &[u8]) -> bool
    requires { 5 * n ≤ length s.now }
    ensures { result ≡ units_from n 0 s.now (replicate 33 0) }
{
    let mut marks = [0u8; 33];
    for i in 0..n {
        let u = s[5 * i] as usize;
        if !is_free(&marks, u) {
            return false;
        }
        marks[u] = 1;
    }
    true
}

// Whether that many pairs at the front are in order.
#[tactic(auto, unfolding(crate::specs::Groups::pairs_good))]
pub fn pairs_good(count: u8, s: &[u8]) -> bool
    ensures { result ≡ pairs_good count s.now }
{
    let n = count as usize;
    n <= 32 && 5 * n <= s.len() && units_good(n, s)
}

// Whether that many bitfields at the front are in order.
#[tactic(auto, unfolding(crate::specs::Groups::bits_good))]
fn bits_good(count: u8, s: &[u8]) -> bool
    ensures { result ≡ bits_good count s.now }
{
    let n = count as usize;
    n <= 15 && n <= s.len()
}

// What a group is: the units, the bitfields of 0x25, or those of 0x2C.
#[derive(Clone, Copy)]
enum Key {
    Units,
    Acknowledgments,
    Executions,
}

// Its place among the marks.
fn place_of(key: Key) -> usize
    ensures { result ≡ key_number key }
{
    match key {
        Key::Units => 1,
        Key::Acknowledgments => 2,
        Key::Executions => 3,
    }
}

// Whether the list of a group is in order.
fn list_good(key: Key, count: u8, s: &[u8]) -> bool
    ensures { result ≡ list_good (key_number key) count s.now }
{
    match key {
        Key::Units => pairs_good(count, s),
        _ => bits_good(count, s),
    }
}

// What a group is, by its type and the byte after it.
fn key_of(t: u8, x: u8) -> Option<Key>
    ensures { told_key result ≡ key_of t x }
{
    match (t, x) {
        (0x80, 0 | 1) => Some(Key::Units),
        (0x81, 0x25) => Some(Key::Acknowledgments),
        (0x81, 0x2C) => Some(Key::Executions),
        _ => None,
    }
}

// The same of the group at the front.
#[tactic(auto, unfolding(crate::specs::Groups::group_key))]
fn group_key(s: &[u8]) -> Option<Key>
    ensures { told_key result ≡ group_key s.now }
{
    if s.len() < 5 {
        return None;
    }
    key_of(s[2], s[3])
}

// The bytes of a group with that many entries.
fn size_by(key: Key, count: u8) -> usize
    ensures { (result ≡ size_by (key_number key) count) × (result < 2000) }
{
    let n = count as usize;
    match key {
        Key::Units => 5 + 5 * n,
        _ => 5 + n,
    }
}

// The bytes of the group at the front; none if its length or its list is against the rules.
#[tactic(auto, unfolding(crate::specs::Groups::group_size))]
fn group_size(key: Key, s: &[u8]) -> Option<usize>
    requires { 5 ≤ length s.now }
    ensures { result ≡ some_of (group_size (key_number key) s.now) }
{
    let n = s[4];
    let size = size_by(key, n);
    let told = numbers::read_u16(s, 0) as usize;
    (told == size && list_good(key, n, &s[5..])).then_some(size)
}

// A group: what it is, and its bytes.
#[derive(Clone, Copy)]
struct Group {
    key: Key,
    size: usize,
}

// The group at the front, where the marks say which came before; none where it is against the rules.
#[tactic(auto, using(crate::proofs::GroupLaws::key_long), unfolding(crate::specs::Groups::next_size))]
fn next_group(marks: &[u8; 4], s: &[u8]) -> Option<Group>
    requires { length marks.now ≡ 4 }
    ensures { Next marks.now s.now result }
{
    let key = group_key(s)?;
    if !is_free(marks, place_of(key)) {
        return None;
    }
    let size = group_size(key, s)?;
    Some(Group { key, size })
}

// The bytes of that many groups at the front; none where one of them is against the rules.
#[tactic(auto, using(crate::proofs::Walk::going_first, crate::proofs::Walk::going_none))]
pub fn groups_end(count: u8, s: &[u8]) -> Option<usize>
    ensures { result ≡ end_of (groups_end count s.now) }
{
    let mut marks = [0u8; 4];
    let mut at: usize = 0;
    for _ in 0..count {
        let g = next_group(&marks, &s[at..])?;
        marks[place_of(g.key)] = 1;
        at += g.size;
    }
    Some(at)
}
