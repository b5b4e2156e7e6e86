// The fields of a result, one after the other, before they are written on a page.
ghost use Rattle.std.specs.Prelude.{◌≡◌, ◌≤◌, ◌++◌, drop, length, OnOk};
ghost use Rattle.yettuvam_c.specs.Laid.{blank, with_part, plain, part_of, laid_of, Stands, fits};

use super::*;

/// A part of a result: its text, place and value. A kind without place or value has 0.
#[derive(Clone, Copy)]
pub struct Part<'a> {
    pub kind: u32,
    pub text: &'a str,
    pub place: usize,
    pub value: i64,
}

impl<'a> Part<'a> {
    /// A part without value.
    pub fn new(kind: u32, text: &'a str, place: usize) -> Part<'a>
        ensures { part_of result ≡ plain kind text.now place }
    {
        Part {
            kind,
            text,
            place,
            value: 0,
        }
    }
}

// Overwrites the front with the items.
fn put_front<T: Copy>(to: &mut [T], items: &[T])
    requires { length items.now ≤ length to.old }
    ensures { to.new ≡ items.now ++ drop (length items.now) to.old }
{
    let (front, _) = to.split_at_mut(items.len());
    front.copy_from_slice(items);
}

#[derive(Drop)]
pub struct Sheet {
    bytes: Vec<u8>,
    fields: Vec<Field>,
}

impl Sheet {
    pub fn new(alloc: Global) -> Sheet
        ensures { laid_of result ≡ blank }
    {
        Sheet {
            bytes: Vec::new(alloc),
            fields: Vec::new(alloc),
        }
    }

    /// Appends a part.
    pub fn push(&mut self, part: Part<'_>) -> Result<(), AllocError>
        ensures { let more = part_of part.entry in
            OnOk result (laid_of self.new ≡ with_part (laid_of self.old) more) }
    {
        let field = Field {
            kind: part.kind,
            at: self.bytes.len(),
            len: part.text.len(),
            place: part.place,
            value: part.value,
        };
        self.fields.push(field)?;
        self.bytes.extend_from_slice(part.text.as_bytes())
    }

    /// Writes the parts on the page if there is room, and returns whether there is. The page gets the counts in any case.
    pub fn put(&self, page: &mut Page<'_>) -> bool
        ensures room { result ≡ fits (laid_of self.now) page.old }
        ensures stands { Stands result (laid_of self.now) page.old page.new }
    {
        page.bytes = self.bytes.len();
        page.count = self.fields.len();
        if page.out.len() < page.bytes || page.fields.len() < page.count {
            return false;
        }
        put_front(page.out, self.bytes.as_slice());
        put_front(page.fields, self.fields.as_slice());
        true
    }
}
