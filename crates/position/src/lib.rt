// The line and the column of an offset, both counted from 1; a column counts bytes.
#![tactic(auto)]

ghost use Rattle.std.specs.Prelude.{◌≡◌, ◌+◌, ◌-◌, ◌^◌, min, take};
ghost use Rattle.position.specs.Lines.{breaks, since_break};

#[derive(Clone, Copy, Debug, PartialEq, Eq)]
pub struct Position {
    pub line: u64,
    pub column: u64,
}

// Where the offset stands; one past the source's end stands at its end.
pub fn position_of(source: &[u8], offset: usize) -> Position
    ensures line { result.line ≡ min (breaks (take offset source.now) + 1) (2 ^ 64 - 1) }
    ensures column { result.column ≡ min (since_break 0 (take offset source.now) + 1) (2 ^ 64 - 1) }
{
    let mut line: u64 = 0;
    let mut column: u64 = 0;
    let end = offset.min(source.len());
    for b in &source[..end] {
        if *b == b'\n' {
            line += 1;
            column = 0;
        } else {
            column += 1;
        }
    }
    Position {
        line: line.saturating_add(1),
        column: column.saturating_add(1),
    }
}
