//! What stands at the front of a text: gaps, numbers, texts in quotes, and what follows each.
//!
//! Each function answers None where something else stands there.

ghost use Rattle.std.specs.Prelude.{◌≡◌, ◌↔◌, ◌++◌, ◌∷◌, ◌+◌, ◌<◌, ◌≤◌, IfSome, IsTrue};
ghost use Rattle.std.specs.Prelude.{decimal, drop, length, true};
ghost use Rattle.std.specs.List.{prefix_len};
ghost use Rattle.json.specs.Lex.{between, colon, lex, token};
ghost use Rattle.json.specs.Print.{escape};
ghost use Rattle.json.specs.Run.{is_plain};
ghost use Rattle.json.specs.Token.{string};
ghost use Rattle.json.specs.Word.{ends_word, is_space};
ghost use Rattle.std.specs.Char.{digit_value};
ghost use Rattle.topo_script.specs.Readers.{SpellsInside, StandsFor, ends_value};

/// Whether two texts are the same. With a literal it becomes one comparison.
#[inline(always)]
pub fn bytes_are(text: &[u8], literal: &str) -> bool
    ensures { IsTrue result ↔ text.now ≡ literal.now }
{
    let wanted = literal.as_bytes();
    if text.len() != wanted.len() {
        return false;
    }
    let mut same = true;
    let mut i = wanted.len();
    while i > 0 {
        i -= 1;
        same = (text[i] == wanted[i]) & same;
    }
    same
}

/// What follows a byte, where it stands at the front.
#[inline(always)]
pub fn behind(bytes: &[u8], byte: u8) -> Option<&[u8]>
    ensures { IfSome result (λ rest. bytes.now ≡ byte ∷ rest.now) }
{
    if !bytes.is_empty() && bytes[0] == byte {
        Some(&bytes[1..])
    } else {
        None
    }
}

/// What follows a text, where it stands at the front.
#[inline(always)]
pub fn behind_literal<'a>(bytes: &'a [u8], literal: &str) -> Option<&'a [u8]>
    ensures { IfSome result (λ rest. bytes.now ≡ literal.now ++ rest.now) }
{
    let len = literal.len();
    if len <= bytes.len() && bytes_are(&bytes[..len], literal) {
        Some(&bytes[len..])
    } else {
        None
    }
}

/// Whether a byte may stand in a gap between tokens.
#[inline(always)]
pub fn is_space(byte: u8) -> bool
    ensures { result ≡ is_space byte }
{
    byte == b' ' || byte == b'\t' || byte == b'\n' || byte == b'\r'
}

/// What follows the first byte.
#[inline(always)]
pub fn behind_first(bytes: &[u8]) -> &[u8]
    requires { 0 < length bytes.now }
    ensures { result.now ≡ drop 1 bytes.now }
{
    &bytes[1..]
}

/// What follows the gap at the front.
#[inline(always)]
pub fn behind_gap(bytes: &[u8]) -> &[u8]
    ensures { lex between result.now ≡ lex between bytes.now }
{
    let mut rest = bytes;
    while !rest.is_empty() && is_space(rest[0]) {
        rest = behind_first(rest);
    }
    rest
}

/// What follows the colon behind a key.
#[inline(always)]
pub fn behind_colon(bytes: &[u8]) -> Option<&[u8]>
    ensures { IfSome result
        (λ rest. lex between bytes.now ≡ colon ∷ lex between rest.now) }
{
    behind(behind_gap(bytes), b':')
}

/// Whether a word, as a number is one, has ended before these bytes.
#[inline(always)]
pub fn ends_word(bytes: &[u8]) -> bool
    ensures { IsTrue result → ends_word bytes.now ≡ true }
{
    if bytes.is_empty() {
        return true;
    }
    let byte = bytes[0];
    byte == b',' || byte == b']' || byte == b'}' || is_space(byte)
}

/// Whether nothing is left, or a comma or the end of an array or an object stands at the front.
#[inline(always)]
pub fn ends_value(bytes: &[u8]) -> bool
    ensures { result ≡ ends_value bytes.now }
{
    if bytes.is_empty() {
        return true;
    }
    let byte = bytes[0];
    byte == b',' || byte == b']' || byte == b'}'
}

/// The digit at the front, and what follows it.
#[inline(always)]
pub fn behind_digit(bytes: &[u8]) -> Option<(u64, &[u8])>
    ensures { IfSome result (λ r. (r.0 < 10) × (bytes.now ≡ (48 + r.0) ∷ r.1.now)) }
{
    if bytes.is_empty() {
        return None;
    }
    let digit = bytes[0].wrapping_sub(b'0');
    if digit < 10 {
        Some((u64::from(digit), &bytes[1..]))
    } else {
        None
    }
}

/// The greatest number behind which any digit may follow in 64 bits.
const MOST_BEFORE_A_DIGIT: u64 = (u64::MAX - 9) / 10;

/// The number whose first digit is given and is not 0, behind all its digits.
#[inline(always)]
pub fn behind_digits(first: u64, bytes: &[u8]) -> Option<(u64, &[u8])>
    requires { (0 < first) × (first < 10) }
    ensures { IfSome result (λ r. decimal first ++ bytes.now ≡ decimal r.0 ++ r.1.now) }
{
    let mut number = first;
    let mut rest = bytes;
    while let Some((digit, more)) = behind_digit(rest) {
        if number > MOST_BEFORE_A_DIGIT {
            return None;
        }
        number = number * 10 + digit;
        rest = more;
    }
    Some((number, rest))
}

/// The number at the front, in digits alone and with no 0 before others, and what follows it.
#[inline(always)]
pub fn behind_number(bytes: &[u8]) -> Option<(u64, &[u8])>
    ensures { IfSome result (λ r. bytes.now ≡ decimal r.0 ++ r.1.now) }
{
    let (first, rest) = behind_digit(bytes)?;
    if first == 0 {
        return Some((0, rest));
    }
    behind_digits(first, rest)
}

/// How many bytes at the front stand for themselves in a text.
pub fn plain_len(bytes: &[u8]) -> usize
    ensures value { result ≡ prefix_len is_plain bytes.now }
    ensures bound { result ≤ length bytes.now }
{
    let mut i = 0;
    while i < bytes.len() && bytes[i] >= 32 && bytes[i] != b'"' && bytes[i] != b'\\' {
        i += 1;
    }
    i
}

/// The number that a hexadecimal digit stands for.
fn hex_digit(byte: u8) -> Option<u8>
    ensures { IfSome result (λ n. (n ≡ digit_value byte) × (n < 16)) }
{
    let digit = (byte as char).to_digit(16)?;
    Some(digit as u8)
}

/// The letter that an escape at the front stands for, and what follows it: a backslash, `u`, and
/// the number of an ASCII letter in four digits.
fn behind_escape(bytes: &[u8]) -> Option<(u8, &[u8])>
    ensures { IfSome result (λ r. StandsFor bytes.now r.0 r.1.now) }
{
    let digits = behind_literal(bytes, "\\u00")?;
    if digits.len() < 2 {
        return None;
    }
    let high = hex_digit(digits[0])?;
    let low = hex_digit(digits[1])?;
    if high >= 8 {
        return None;
    }
    Some((high * 16 + low, &digits[2..]))
}

/// The letter at the front of the inside of a text, and what follows it.
fn behind_letter(bytes: &[u8]) -> Option<(u8, &[u8])>
    ensures { IfSome result (λ r. StandsFor bytes.now r.0 r.1.now) }
{
    if bytes.is_empty() {
        return None;
    }
    let byte = bytes[0];
    if byte == b'\\' {
        return behind_escape(bytes);
    }
    if byte < 32 || byte == b'"' {
        return None;
    }
    Some((byte, &bytes[1..]))
}

/// What follows this text and its closing quote, where they stand at the front, with escapes or
/// without.
fn behind_spelled<'a>(inside: &'a [u8], text: &[u8]) -> Option<&'a [u8]>
    ensures { IfSome result (λ rest. SpellsInside inside.now text.now rest.now) }
{
    let mut rest = inside;
    for wanted in text {
        let (letter, more) = behind_letter(rest)?;
        if letter != *wanted {
            return None;
        }
        rest = more;
    }
    behind(rest, b'"')
}

/// The words of the forms that are texts.
const WORDS: [&str; 32] = [
    "BadKind",
    "Cut",
    "Full",
    "Memory",
    "NoEdge",
    "NoPosition",
    "NoRoute",
    "NoVertex",
    "SameEnds",
    "about",
    "back",
    "counts",
    "default",
    "delete",
    "edge",
    "face",
    "forget",
    "forward",
    "grow",
    "insert",
    "ltr",
    "picture",
    "planned",
    "quick",
    "renumber",
    "report",
    "route",
    "rtl",
    "seed",
    "thorough",
    "undo",
    "vertex",
];

/// The word of the forms that stands at the front of the inside of a text, and what follows it and
/// its closing quote.
fn behind_word(inside: &[u8]) -> Option<(&[u8], &[u8])>
    ensures { IfSome result (λ r. SpellsInside inside.now r.0.now r.1.now) }
{
    for word in WORDS {
        if let Some(rest) = behind_spelled(inside, word.as_bytes()) {
            return Some((word.as_bytes(), rest));
        }
    }
    None
}

/// The text in quotes at the front, and what follows it. One with an escape is told only if it is a
/// word of the forms.
pub fn behind_text(bytes: &[u8]) -> Option<(&[u8], &[u8])>
    ensures { IfSome result
        (λ r. lex between bytes.now ≡ token (string r.0.now) ∷ lex between r.1.now) }
{
    let inside = behind(bytes, b'"')?;
    let len = plain_len(inside);
    match behind(&inside[len..], b'"') {
        Some(rest) => Some((&inside[..len], rest)),
        None => behind_word(inside),
    }
}

/// What follows this text in quotes, where it stands at the front, with escapes or without.
#[inline(always)]
pub fn behind_quoted<'a>(bytes: &'a [u8], text: &str) -> Option<&'a [u8]>
    requires { escape text.now ≡ text.now }
    ensures { IfSome result
        (λ rest. lex between bytes.now ≡ token (string text.now) ∷ lex between rest.now) }
{
    let inside = behind(bytes, b'"')?;
    match behind_literal(inside, text) {
        Some(rest) => behind(rest, b'"'),
        None => behind_spelled(inside, text.as_bytes()),
    }
}
