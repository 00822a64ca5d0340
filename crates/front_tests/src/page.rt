//! Texts of trees and cores, for tests.
use rb_base::Bytes;
use rb_syntax::{Item, Pair};
use std::alloc::{AllocError, Global};

/// What was printed so far.
#[derive(Drop)]
pub struct Page {
    pub alloc: Global,
    pub text: Vec<u8>,
}

pub type Done = Result<(), AllocError>;

/// What can be printed.
pub trait Printed {
    /// Puts its text after the page's.
    fn print(&self, page: &mut Page) -> Done;
}

impl Page {
    pub fn new(alloc: Global) -> Page {
        Page {
            alloc,
            text: Vec::new(alloc),
        }
    }

    pub fn put(&mut self, bytes: &[u8]) -> Done {
        self.text.extend_from_slice(bytes)
    }
}

/// A name between two texts.
pub fn name(page: &mut Page, before: &[u8], name: &Bytes, behind: &[u8]) -> Done {
    page.put(before)?;
    page.put(name.as_slice())?;
    page.put(behind)
}

pub fn integer(page: &mut Page, value: i64) -> Done {
    let digits = format!(in page.alloc; "{value}")?;
    page.put(digits.as_bytes())
}

/// Parts with a text between them.
pub fn forms<T: Printed>(page: &mut Page, between: &[u8], list: &Vec<Box<T>>) -> Done {
    let mut gap: &[u8] = b"";
    for part in list {
        page.put(gap)?;
        part.print(page)?;
        gap = between;
    }
    Ok(())
}

/// A part that may be there, after a text.
pub fn maybe<T: Printed>(page: &mut Page, before: &[u8], part: &Option<Box<T>>) -> Done {
    match part {
        Some(part) => {
            page.put(before)?;
            part.print(page)
        }
        None => Ok(()),
    }
}

fn item<T: Printed>(page: &mut Page, item: &Item<Box<T>>) -> Done {
    match item {
        Item::Plain(part) => part.print(page),
        Item::Splat(part) => {
            page.put(b"*")?;
            part.print(page)
        }
    }
}

pub fn items<T: Printed>(page: &mut Page, list: &Vec<Item<Box<T>>>) -> Done {
    let mut gap: &[u8] = b"";
    for part in list {
        page.put(gap)?;
        item(page, part)?;
        gap = b" ";
    }
    Ok(())
}

pub fn array<T: Printed>(page: &mut Page, list: &Vec<Item<Box<T>>>) -> Done {
    page.put(b"[")?;
    items(page, list)?;
    page.put(b"]")
}

pub fn hash<T: Printed>(page: &mut Page, list: &Vec<Pair<Box<T>>>) -> Done {
    page.put(b"{")?;
    let mut gap: &[u8] = b"";
    for pair in list {
        page.put(gap)?;
        pair.key.print(page)?;
        page.put(b"=>")?;
        pair.value.print(page)?;
        gap = b" ";
    }
    page.put(b"}")
}
