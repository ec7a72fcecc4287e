// The entries of an input: a label, a length of four bytes, the lowest first, and as many bytes.
ghost use Rattle.std.specs.Iterator.{at_most};
ghost use Rattle.std.specs.Prelude.{length};
ghost use Rattle.saying.specs.Entries.{GivesEntry};

// An entry: its label and its bytes.
#[derive(Clone, Copy, Debug)]
pub struct Entry<'a> {
    pub label: &'a [u8],
    pub bytes: &'a [u8],
}

// The entries that are left. The first that is cut off ends them.
#[derive(Clone, Copy, Debug)]
pub struct Entries<'a> {
    pub label: usize,
    pub rest: &'a [u8],
}

impl<'a> Iterator for Entries<'a> {
    type Item = Entry<'a>;

    ghost next_gives = { GivesEntry };

    ghost remaining = { λ s. at_most (length s.rest.now) };

    fn next(&mut self) -> Option<Entry<'a>> {
        let (label, rest) = self.rest.split_at_checked(self.label)?;
        let (count, rest) = rest.split_first_chunk::<4>()?;
        let (bytes, rest) = rest.split_at_checked(u32::from_le_bytes(*count) as usize)?;
        self.rest = rest;
        Some(Entry { label, bytes })
    }
}
