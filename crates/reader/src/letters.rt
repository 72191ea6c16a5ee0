ghost use Rattle.std.specs.Prelude.{◌≡◌, ◌≤◌};
ghost use Rattle.reader.specs.Steps.{letter_bit, with_letter};
ghost use Rattle.reader.specs.Texts.{ReadsAs, letters_of};

// The bit of a permission letter.
// Kept as it is: that each letter is matched and gives its bit is a rule of the project.
fn bit(letter: char) -> Option<u32>
    ensures { result ≡ letter_bit letter }
{
    match letter {
        'r' => Some(1),
        'w' => Some(2),
        'c' => Some(4),
        'g' => Some(8),
        'o' => Some(16),
        _ => None,
    }
}

// The permissions with one letter more; none unless it is a letter that comes after all of theirs.
fn add_letter(permissions: u32, letter: char) -> Option<u32>
    requires { permissions ≤ 31 }
    ensures { result ≡ with_letter permissions letter }
{
    let added = bit(letter)?;
    (added > permissions).then_some(permissions + added)
}

// The permissions that a word writes in letters.
pub(crate) fn read_permissions(text: &[u8]) -> Option<u32>
    ensures { ReadsAs letters_of 31 text.now result }
{
    match text {
        [] => return None,
        [b'-'] => return Some(0),
        _ => {}
    }
    let mut permissions = 0;
    // Kept: a cast, since each byte is a character.
    for byte in text {
        permissions = add_letter(permissions, *byte as char)?;
    }
    Some(permissions)
}
