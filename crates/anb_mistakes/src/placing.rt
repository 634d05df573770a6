//! Where an offset lies in a text.
ghost use Rattle.std.specs.Prelude.{◌≡◌, ◌+◌, ◌<◌, ◌≤◌, length, take, drop};
ghost use Rattle.std.specs.List.{prefix_len};
ghost use Rattle.anb_base.specs.declared.TheConstants.{SMALL_FILE};
ghost use Rattle.anb_mistakes.specs.Places.{first_line, is_inner, line_at, place_after, place_at};

/// The line and the column of an offset.
pub(crate) fn place(text: &[u8], at: usize) -> (usize, usize)
    requires size { length text.now ≤ SMALL_FILE }
    requires within { at ≤ length text.now }
    ensures place { result ≡ place_at text.now at }
    ensures line { result.0 ≤ at + 1 }
    ensures column { result.1 ≤ at + 1 }
    ensures first { 1 ≤ result.1 }
{
    let mut line = 1;
    let mut column = 1;
    for b in &text[..at] {
        if *b == b'\n' {
            line += 1;
            column = 1;
        } else {
            column += 1;
        }
    }
    (line, column)
}

/// The bytes up to the next line.
pub(crate) fn first_line(text: &[u8]) -> &[u8]
    ensures { result.now ≡ first_line text.now }
{
    let mut n = 0;
    'line: while n < text.len() && text[n] != b'\n' {
        n += 1;
    }
    &text[..n]
}
