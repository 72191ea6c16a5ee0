ghost use Rattle.std.specs.Prelude.{◌≡◌, ◌+◌, ◌≤◌};

// Where a word stands: the number of its line and of the word in it, both counted from 1.
#[derive(Clone, Copy, Debug, PartialEq, Eq)]
pub struct Place {
    pub line: usize,
    pub word: usize,
}

impl Place {
    // The place of a line's verb.
    pub(crate) fn of_verb(line: usize) -> Place
        ensures line { result.line ≡ line }
        ensures word { result.word ≡ 1 }
    {
        Place { line, word: 1 }
    }

    // The place of a line's operand, where operands count from 0.
    pub(crate) fn of_operand(line: usize, index: usize) -> Place
        requires { index ≤ 6 }
        ensures line { result.line ≡ line }
        ensures word { result.word ≡ index + 2 }
    {
        Place {
            line,
            word: index + 2,
        }
    }
}
