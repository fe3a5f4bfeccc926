// The fields of a line (document 01, 'Lines'): "Fields stand in a fixed order parted by commas, without quoting."
#![tactic(auto)]

ghost use Rattle.std.specs.Prelude.{◌+◌, ◌≡◌, drop};
ghost use Rattle.meaning.specs.Text.{place};
ghost use Rattle.fields.specs.Cut.{Cuts};

// The index of the first c from an index on; the end, where there is none. The whole text is lent here and to `cut`:
// both answer an index in it, and with the rest alone each caller would add what stands in front.
pub fn find(s: &[u8], at: usize, c: u8) -> usize
    ensures { result ≡ at + place c (drop at s.now) }
{
    let Some(rest) = s.get(at..) else {
        return at;
    };
    at + rest.iter().position(|&x| x == c).unwrap_or(rest.len())
}

// The end of the field that begins at an index: the next comma, or the end of the line. Past that end it is the index
// itself.
pub fn cut(line: &[u8], at: usize) -> usize
    ensures { Cuts line.now at result }
{
    find(line, at, b',')
}

// A lent line, and the index where the last field that was read ended: its comma, or the end of the line. By hand and
// not by `split`: document 01 names a reader that holds the lent line and a position, over a field cutter.
#[derive(Clone, Copy)]
pub struct LineReader<'a> {
    pub line: &'a [u8],
    pub at: usize,
}

impl<'a> LineReader<'a> {
    pub fn new(line: &'a [u8], at: usize) -> LineReader<'a>
        ensures { (result.line ≡ line.entry) × (result.at ≡ at) }
    {
        LineReader { line, at }
    }
}

// The fields after that comma, one after the other.
impl<'a> Iterator for LineReader<'a> {
    ghost use Rattle.std.specs.Iterator.{YieldsFirstRef, item_count};
    ghost use Rattle.fields.specs.Left.{fields_left};

    type Item = &'a [u8];

    ghost next_gives = { YieldsFirstRef fields_left };

    ghost remaining = { item_count fields_left };

    fn next(&mut self) -> Option<&'a [u8]> {
        if self.at >= self.line.len() {
            return None;
        }
        let start = self.at + 1;
        let end = cut(self.line, start);
        self.at = end;
        Some(&self.line[start..end])
    }
}
