ghost use Rattle.std.specs.Prelude.{◌≡◌, ◌≤◌, decimal};
ghost use Rattle.reader.specs.Steps.{with_digit, is_plain};
ghost use Rattle.reader.specs.Texts.{ReadsAs};

// The number with one decimal digit more; none if the byte is no digit or the number passes 65,535.
fn add_digit(number: u32, byte: u8) -> Option<u32>
    requires { number ≤ 65535 }
    ensures { result ≡ with_digit number byte }
{
    if !byte.is_ascii_digit() {
        return None;
    }
    let longer = number * 10 + u32::from(byte - b'0');
    (longer <= 65535).then_some(longer)
}

// Whether a word is not empty and has no leading zero.
fn plain(text: &[u8]) -> bool
    ensures { result ≡ is_plain text.now }
{
    !matches!(text, [] | [b'0', _, ..])
}

// The number that a word writes in decimal.
// Kept beside `read_permissions`: the loop is three lines, and one over any step would have to promise the step's bound.
pub(crate) fn read_number(text: &[u8]) -> Option<u32>
    ensures { ReadsAs decimal 65535 text.now result }
{
    if !plain(text) {
        return None;
    }
    let mut number = 0;
    for byte in text {
        number = add_digit(number, *byte)?;
    }
    Some(number)
}
