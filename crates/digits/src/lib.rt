// Strings of digits: names and bounds, the one order that names and bounds share, and the first difference of two strings.
//
// A string of at most 24 digits is compared as three words, the first digit highest. A filled name has 24 digits; a bound
// is continued by 0xFF, a digit above all others. So "name within bound" and "bound below bound" are one comparison.
#![tactic(auto)]

ghost use Rattle.std.specs.Prelude.{◌≡◌, ◌+◌, ◌-◌, ◌*◌, ◌^◌, ◌≤◌, true, ◌&&◌, [], length, take, drop, nat_le, nat_lt};
ghost use Rattle.model.specs.Format.{value_of};
ghost use Rattle.model.specs.Names as names;
ghost use Rattle.model.specs.Tests as tests;
ghost use Rattle.model.specs.Order.{diff};
ghost use Rattle.digits.specs.Keys.{NamingTold, continued, is_all_zero, key_value, value};

// A string of digits as it is compared.
#[derive(Clone, Copy, PartialEq, Eq)]
pub struct Key {
    pub a: u64,
    pub b: u64,
    pub c: u64,
}

impl Key {
    // The 24 digits from `at` on, as they are compared.
    pub fn at(s: &[u8], at: usize) -> Key
        requires { at + 24 ≤ length s.now }
        ensures { key_value result ≡ value (take 24 (drop at s.now)) }
    {
        Key {
            a: word(s, at),
            b: word(s, at + 8),
            c: word(s, at + 16),
        }
    }

    // The bound of `len` digits at `at`, as it is compared. Most bounds end within the first word.
    pub fn of_bound(s: &[u8], at: usize, len: usize) -> Key
        requires { at + 24 ≤ length s.now }
        ensures { len ≤ 24 → is_all_zero (take (24 - len) (drop (at + len) s.now)) ≡ true
            → key_value result ≡ value (continued (take len (drop at s.now))) }
    {
        if len <= 8 {
            return Key {
                a: continued(s, at, 8, len),
                b: u64::MAX,
                c: u64::MAX,
            };
        }
        Key {
            a: continued(s, at, 8, len),
            b: continued(s, at + 8, 16, len),
            c: continued(s, at + 16, 24, len),
        }
    }

    // The key of no lower limit, below every name.
    pub fn lowest() -> Key
        ensures { key_value result ≡ 0 }
    {
        Key { a: 0, b: 0, c: 0 }
    }

    // The key of the empty upper bound, above every name and every other bound.
    pub fn highest() -> Key
        ensures { key_value result ≡ value (continued []) }
    {
        Key {
            a: u64::MAX,
            b: u64::MAX,
            c: u64::MAX,
        }
    }

    // By hand and not derived: a derived order makes each comparison of names longer, and a list 7.7 % slower.
    pub fn is_below(self, other: Key) -> bool
        ensures { result ≡ nat_lt (key_value self) (key_value other) }
    {
        if self.a < other.a {
            return true;
        }
        if other.a < self.a {
            return false;
        }
        if self.b < other.b {
            return true;
        }
        if other.b < self.b {
            return false;
        }
        self.c < other.c
    }
}

// How a name stands to a bound.
#[derive(Clone, Copy)]
pub struct Comparison {
    pub within: bool,
    pub first: usize,
}

// Eight bytes, in one load.
pub fn little_endian(s: &[u8], at: usize) -> u64
    requires { at + 8 ≤ length s.now }
    ensures { result ≡ value_of (take 8 (drop at s.now)) }
{
    u64::from_le_bytes([
        s[at],
        s[at + 1],
        s[at + 2],
        s[at + 3],
        s[at + 4],
        s[at + 5],
        s[at + 6],
        s[at + 7],
    ])
}

// The eight bytes from `at` on as one number, the first byte highest.
pub fn word(s: &[u8], at: usize) -> u64
    requires { at + 8 ≤ length s.now }
    ensures { result ≡ value (take 8 (drop at s.now)) }
{
    u64::from_be_bytes([
        s[at],
        s[at + 1],
        s[at + 2],
        s[at + 3],
        s[at + 4],
        s[at + 5],
        s[at + 6],
        s[at + 7],
    ])
}

// 0xFF in the bytes of a word behind the first n.
fn fill(n: usize) -> u64
    requires { n ≤ 8 }
    ensures { result + 1 ≡ 256 ^ (8 - n) }
{
    (u64::MAX >> (4 * n)) >> (4 * n)
}

// How many bytes of a word are a string's: the word ends at the digit number `end`.
fn inside(end: usize, len: usize) -> usize
    requires { (8 ≤ end) × (end ≤ 24) }
    ensures { (result ≤ 8) × (8 - result ≡ 8 - (len - (end - 8))) }
{
    len.saturating_sub(end - 8).min(8)
}

// The word from `at` on, continued by 0xFF behind the string's end. The bytes there are zero in a slot that is well
// formed, so nothing wraps.
fn continued(s: &[u8], at: usize, end: usize, len: usize) -> u64
    requires { (at + 8 ≤ length s.now) × (8 ≤ end) × (end ≤ 24) }
    ensures { is_all_zero (drop (len - (end - 8)) (take 8 (drop at s.now))) ≡ true
        → result + 1 ≡ value (take 8 (drop at s.now)) + 256 ^ (8 - (len - (end - 8))) }
{
    word(s, at).wrapping_add(fill(inside(end, len)))
}

// Whether the bytes of so many words are zero. The words are gathered and tested once, which the compiler does several at a time: nearly
// always all are zero, and a call that looks at the whole file looks at each free slot.
fn are_words_zero(s: &[u8], words: usize) -> bool
    requires { 8 * words ≤ length s.now }
    ensures { is_all_zero s.now ≡ (result && is_all_zero (drop (8 * words) s.now)) }
{
    let mut all = 0;
    for i in 0..words {
        all |= little_endian(s, 8 * i);
    }
    all == 0
}

// Whether all bytes are zero, a few of them.
fn are_zero(s: &[u8]) -> bool
    ensures { result ≡ is_all_zero s.now }
{
    s.iter().all(|x| *x == 0)
}

// Whether all bytes are zero: word by word, and then those behind the last word.
pub fn is_zero(s: &[u8]) -> bool
    ensures { result ≡ is_all_zero s.now }
{
    let words = s.len() / 8;
    if !are_words_zero(s, words) {
        return false;
    }
    let from = 8 * words;
    are_zero(&s[from..])
}

fn is_digit(x: u8) -> bool
    ensures { result ≡ (nat_le 0x20 x && nat_le x 0x7D) }
{
    (0x20..=0x7D).contains(&x)
}

// Whether each byte is a digit.
fn are_digits(s: &[u8]) -> bool
    ensures { result ≡ tests.are_digits 0x20 s.now }
{
    s.iter().all(|x| is_digit(*x))
}

// R1.2 and R1.3: whether a name is legal. It comes with the digits that it is filled to, of which the key is made: so a call
// fills a name once and makes its key once.
pub fn naming_of(name: &[u8], filled: &[u8; 24]) -> Option<Key>
    ensures { NamingTold result name.now filled.now }
{
    if name.is_empty() {
        return None;
    }
    if 24 < name.len() {
        return None;
    }
    if name[0] == 0x20 {
        return None;
    }
    if name[name.len() - 1] == 0x20 {
        return None;
    }
    if !are_digits(name) {
        return None;
    }
    Some(Key::at(filled, 0))
}

// R1.4: the name, filled with blanks to 24 digits.
pub fn filled(name: &[u8]) -> [u8; 24]
    ensures { result ≡ names.filled name.now }
{
    let mut digits = [0x20u8; 24];
    let count = name.len().min(24);
    digits[..count].copy_from_slice(&name[..count]);
    digits
}

// Whether these 24 bytes are a bound of `len` digits: each 0x20 to 0x7D, and zero behind them.
pub fn is_bound(s: &[u8], len: usize) -> bool
    requires { length s.now ≡ 24 }
    ensures { result ≡ (nat_le len 24 && tests.is_legal_bound (take len s.now) && is_all_zero (drop len s.now)) }
{
    if 24 < len {
        return false;
    }
    if !are_digits(&s[0..len]) {
        return false;
    }
    is_zero(&s[len..])
}

// How many digits the two strings share before the first difference.
pub fn shared(x: &[u8], y: &[u8]) -> usize
    ensures { (result ≤ length x.now) × (result ≤ length y.now)
        × (result ≡ diff x.now y.now) }
{
    let most = x.len().min(y.len());
    for i in 0..most {
        if x[i] != y[i] {
            return i;
        }
    }
    most
}

// R1.6: whether the name is within p. R1.9: the first digit number where the two differ, or p's length if they don't.
pub fn compared(name: &[u8], p: &[u8]) -> Comparison
    ensures { (result.within ≡ names.within name.now p.now) × (result.first ≡ diff name.now p.now) }
{
    let first = shared(name, p);
    if p.len() <= first || name.len() <= first {
        return Comparison {
            within: true,
            first,
        };
    }
    Comparison {
        within: name[first] < p[first],
        first,
    }
}
