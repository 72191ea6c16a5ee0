ghost use Rattle.std.specs.Prelude.{◌≡◌, ◌+◌, ◌<◌, ◌^◌, IfOk, OnOk};
ghost use Rattle.reader.specs.Scripts.{Readings, ReadsScript, numbered_lines};
ghost use Rattle.reader.specs.Steps.{LinePushed};
ghost use Rattle.reader.specs.declared.script.ReadError.TheVariants.{Memory as MemoryError};

use crate::line::read_line;
use crate::place::Place;
use call::Call;
use std::alloc::{AllocError, Global};

// What a line that is not empty reads as, with its number.
#[derive(Clone, Copy, Debug, PartialEq, Eq)]
pub struct Entry {
    pub line: usize,
    pub reading: Result<Call, Place>,
}

// Why a script is not read.
#[derive(Clone, Copy, Debug, PartialEq, Eq)]
pub enum ReadError {
    TooLong,
    Memory(AllocError),
}

// Kept as it is: a derived `From` has no contract, and the clause names the variant that `?` makes.
impl From<AllocError> for ReadError {
    ghost from_gives = { λ x y. y ≡ MemoryError x };

    fn from(error: AllocError) -> ReadError {
        ReadError::Memory(error)
    }
}

// Adds the entry of the line at an index, unless the line is empty.
fn push_line(entries: &mut Vec<Entry>, line: &[u8], index: usize) -> Result<(), AllocError>
    requires { index + 1 < 2 ^ 64 }
    ensures { OnOk result (LinePushed line.now (index + 1) entries.old.items entries.new.items) }
{
    if line.is_empty() {
        return Ok(());
    }
    let number = index + 1;
    let reading = read_line(line, number);
    entries.push(Entry {
        line: number,
        reading,
    })?;
    Ok(())
}

// The entries of a script's lines, in order.
#[tactic(auto, using(crate::proofs::Reading::none_read))]
fn read_lines(heap: Global, script: &[u8]) -> Result<Vec<Entry>, AllocError>
    ensures { IfOk result (λ entries. Readings (numbered_lines script.now) entries.items) }
{
    let mut entries = Vec::new(heap);
    let mut start = 0;
    let mut index = 0;
    // Kept as it is: a `for` over the bytes, since `split` takes nearly twice the time for an empty line. For a line of many
    // bytes, which is no call's text, `split` takes less.
    for (i, byte) in script.iter().enumerate() {
        if *byte == b'\n' {
            push_line(&mut entries, &script[start..i], index)?;
            start = i + 1;
            index += 1;
        }
    }
    push_line(&mut entries, &script[start..], index)?;
    Ok(entries)
}

// What the lines of a script read as: an entry for each that is not empty, in order.
pub fn read_script(heap: Global, script: &[u8]) -> Result<Vec<Entry>, ReadError>
    ensures { ReadsScript script.now result }
{
    if script.len() > 32768 {
        return Err(ReadError::TooLong);
    }
    Ok(read_lines(heap, script)?)
}

#[cfg(test)]
mod tests {
    use super::*;
    use std::test::Fail;

    #[test]
    fn counts_empty_lines(rt: HostRuntime) -> Result<(), Fail> {
        let entries = read_script(rt.alloc(), b"\ndrop 0 0\n\nputb 0 0 0").map_err(|_| Fail::new(
            "the script is not read",
        ))?;
        assert!(rt; entries.len() == 2);
        assert!(rt; entries[0].line == 2 && entries[0].reading.is_ok());
        assert!(rt; entries[1].line == 4 && entries[1].reading.is_err());
        Ok(())
    }
}
