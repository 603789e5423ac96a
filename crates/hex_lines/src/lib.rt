// Lines of hexadecimal digits, and the check of their bytes.
#![tactic(auto)]

ghost use Rattle.std.specs.Prelude.{◌≡◌, ◌+◌, ◌*◌, ◌%◌, ◌<◌, ◌≤◌, length};
ghost use Rattle.std.proofs.lemmas.List.Edits.{sets};
ghost use Rattle.hex_lines.specs.Hex.{within, digit_of, all_digits, well_formed, half_of, bytes_of, decoded_of, decoded_means, buffer_of, sum, checks};

// Whether `c` is one of the characters from `low` to `high`.
fn is_within(c: u8, low: u8, high: u8) -> bool
    ensures { result ≡ within low high c }
{
    low <= c && c <= high
}

// The value of a digit; 16 for another character.
// kept: std's to_digit and is_ascii_hexdigit branch at each character, which nothing foretells: a line of 4,000 digits by chance took 3.8
// times as long.
fn digit_of(c: u8) -> u8
    ensures { result ≡ digit_of c }
{
    if is_within(c, b'0', b'9') {
        return c - b'0';
    }
    if is_within(c, b'A', b'F') {
        return c - b'A' + 10;
    }
    if is_within(c, b'a', b'f') {
        return c - b'a' + 10;
    }
    16
}

// Four bits of a byte; 0 for a character that is no digit.
fn half_of(c: u8) -> u8
    ensures { (result ≡ half_of c) × (result < 16) }
{
    let digit = digit_of(c);
    if digit < 16 { digit } else { 0 }
}

// The byte of two digits, the higher first.
fn byte_of(a: u8, b: u8) -> u8
    ensures { result ≡ 16 * half_of a + half_of b }
{
    16 * half_of(a) + half_of(b)
}

// Whether every character is a digit.
// kept: `all` ends at the first that is none, by two jumps a character that nothing foretells: a line of 4,000 digits by chance took
// twice as long.
fn all_digits(line: &[u8]) -> bool
    ensures { result ≡ all_digits line.now }
{
    let mut all = true;
    for &c in line {
        all = all & (digit_of(c) < 16);
    }
    all
}

// Whether `line` holds digits only, an even count of them, some and at most 4,096.
#[tactic(auto, unfolding(crate::specs::Hex::well_formed))]
fn is_well_formed(line: &[u8]) -> bool
    ensures { result ≡ well_formed line.now }
{
    !line.is_empty() && line.len() <= 4096 && line.len() % 2 == 0 && all_digits(line)
}

// Writes the bytes of `line` at the front of `out`.
fn write_bytes(line: &[u8], out: &mut [u8; 2048])
    requires { length line.now ≤ 4096 }
    ensures { out.new ≡ sets out.old 0 (bytes_of line.now) }
{
    for (i, digits) in line.chunks_exact(2).enumerate() {
        out[i] = byte_of(digits[0], digits[1]);
    }
}

// Writes the bytes of `line` at the front of `out`, and tells how many; a malformed line writes nothing.
pub fn decode(line: &[u8], out: &mut [u8; 2048]) -> Option<usize>
    ensures { (decoded_means result ≡ decoded_of line.now) × (out.new ≡ buffer_of line.now out.old) }
{
    if !is_well_formed(line) {
        return None;
    }
    write_bytes(line, out);
    Some(line.len() / 2)
}

// The sum of the bytes, carries beyond a byte dropped.
fn check_sum(s: &[u8]) -> u8
    ensures { result ≡ sum s.now % 256 }
{
    s.iter().fold(0, |total: u8, b| total.wrapping_add(*b))
}

// Whether the bytes, the check byte at their end included, sum to 0.
pub fn is_checked(s: &[u8]) -> bool
    ensures { result ≡ checks s.now }
{
    check_sum(s) == 0
}
