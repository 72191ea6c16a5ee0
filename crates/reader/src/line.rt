ghost use Rattle.std.specs.Prelude.{◌≡◌, ◌≤◌, length, nat_lt};
ghost use Rattle.reader.specs.Lines.{Reads, ReadsOnce};

use crate::place::Place;
use crate::word::Word;
use call::Call;

// Whether a line goes on after a word that ends before the byte `end`.
fn goes_on(line: &[u8], end: usize) -> bool
    requires { end ≤ length line.now }
    ensures { result ≡ nat_lt end (length line.now) }
{
    end < line.len()
}

// The call whose text a line is, or the place of the first word that is wrong, missing or too many.
pub fn read_line(line: &[u8], number: usize) -> Result<Call, Place>
    ensures law { Reads line.now number result }
    ensures once { ReadsOnce }
{
    let mut words = line.split(|byte| *byte == b' ');
    let place = Place::of_verb(number);
    let text = words.next().ok_or(place)?;
    let verb = Word::Verb { text, place }.verb()?;
    let kinds = verb.kinds();
    // Kept as it is: a plain array of six, the most operands of a verb, since reading a line never asks for memory.
    let mut operands = [0; 6];
    let mut end = text.len();
    for (i, kind) in kinds.iter().enumerate() {
        let place = Place::of_operand(number, i);
        let text = words.next().ok_or(place)?;
        operands[i] = Word::operand(*kind, text, place).value()?;
        end += 1 + text.len();
    }
    // Kept as it is: a word that is too many is known by the bytes that are left, so that its end is not looked for.
    if goes_on(line, end) {
        return Err(Place::of_operand(number, kinds.len()));
    }
    Ok(verb.call(&operands))
}

#[cfg(test)]
mod tests {
    use super::*;

    // The number of the first wrong word; 0 if the line reads as a call.
    // Kept as it is: 0 for none, since a place counts words from 1.
    fn wrong_word(line: &[u8]) -> usize {
        read_line(line, 1).err().map_or(0, |place| place.word)
    }

    #[test]
    fn reads_a_call(rt: HostRuntime) {
        assert_eq!(rt; wrong_word(b"drop 0 0"), 0);
        assert_eq!(rt; wrong_word(b"derive 0 1 2 16 65535 rwo"), 0);
    }

    #[test]
    fn refuses_a_leading_zero(rt: HostRuntime) {
        assert_eq!(rt; wrong_word(b"grant 0 0 01"), 4);
    }

    #[test]
    fn refuses_an_empty_word(rt: HostRuntime) {
        assert_eq!(rt; wrong_word(b"drop 0 0 "), 4);
        assert_eq!(rt; wrong_word(b"drop  0 0"), 2);
        assert_eq!(rt; wrong_word(b" "), 1);
    }
}
