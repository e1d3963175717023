//! The bytes of a dump, read forward.
use crate::refused::Refused;

/// How many bytes the identifiers of a dump have.
#[derive(Debug, Clone, Copy, PartialEq, Eq)]
pub(crate) enum IdWidth {
    Four,
    Eight,
}

impl IdWidth {
    pub(crate) fn bytes(self) -> usize {
        match self {
            IdWidth::Four => 4,
            IdWidth::Eight => 8,
        }
    }
}

/// What is left to read of a part of a dump. Numbers have their highest byte first.
#[derive(Clone, Copy)]
pub(crate) struct Reader<'a> {
    rest: &'a [u8],
    // The place in the file behind the part.
    end: usize,
    ids: IdWidth,
}

impl<'a> Reader<'a> {
    /// All bytes of a file from a place on.
    pub(crate) fn new(file: &'a [u8], at: usize, ids: IdWidth) -> Reader<'a> {
        Reader {
            rest: file.get(at..).unwrap_or(&[]),
            end: file.len(),
            ids,
        }
    }

    /// The place in the file of the next byte.
    pub(crate) fn at(&self) -> usize {
        self.end.saturating_sub(self.rest.len())
    }

    pub(crate) fn len(&self) -> usize {
        self.rest.len()
    }

    pub(crate) fn is_done(&self) -> bool {
        self.rest.is_empty()
    }

    /// All bytes that are left.
    pub(crate) fn rest(&self) -> &'a [u8] {
        self.rest
    }

    /// So many bytes.
    pub(crate) fn take(&mut self, count: usize) -> Result<&'a [u8], Refused> {
        match self.rest.split_at_checked(count) {
            Some((taken, rest)) => {
                self.rest = rest;
                Ok(taken)
            }
            None => Err(self.cut()),
        }
    }

    /// A reader of so many bytes, which are passed over.
    pub(crate) fn part(&mut self, count: usize) -> Result<Reader<'a>, Refused> {
        let rest = self.take(count)?;
        Ok(Reader {
            rest,
            end: self.at(),
            ids: self.ids,
        })
    }

    pub(crate) fn byte(&mut self) -> Result<u8, Refused> {
        match self.rest.split_first() {
            Some((first, rest)) => {
                self.rest = rest;
                Ok(*first)
            }
            None => Err(self.cut()),
        }
    }

    pub(crate) fn short(&mut self) -> Result<u16, Refused> {
        match self.rest.split_first_chunk::<2>() {
            Some((first, rest)) => {
                self.rest = rest;
                Ok(u16::from_be_bytes(*first))
            }
            None => Err(self.cut()),
        }
    }

    pub(crate) fn number(&mut self) -> Result<u32, Refused> {
        match self.rest.split_first_chunk::<4>() {
            Some((first, rest)) => {
                self.rest = rest;
                Ok(u32::from_be_bytes(*first))
            }
            None => Err(self.cut()),
        }
    }

    fn long(&mut self) -> Result<u64, Refused> {
        match self.rest.split_first_chunk::<8>() {
            Some((first, rest)) => {
                self.rest = rest;
                Ok(u64::from_be_bytes(*first))
            }
            None => Err(self.cut()),
        }
    }

    pub(crate) fn id(&mut self) -> Result<u64, Refused> {
        match self.ids {
            IdWidth::Four => Ok(u64::from(self.number()?)),
            IdWidth::Eight => self.long(),
        }
    }

    fn cut(&self) -> Refused {
        Refused::Cut { end: self.end }
    }
}
