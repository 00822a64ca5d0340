//! What is read of a text, as a text, for tests.
use crate::page::{Page, Printed};
use rb_front::read;
use std::alloc::Global;
use std::process::Abort;
use std::test::Fail;

/// The core as text, or the refusal.
fn line_of(alloc: Global, text: &[u8]) -> Result<Vec<u8>, Fail> {
    let mut page = Page::new(alloc);
    match read(alloc, text) {
        Ok(program) => program.form.print(&mut page)?,
        Err(error) => {
            let refusal = format!(in alloc; "{error:?}")?;
            page.text.extend_from_slice(refusal.as_bytes())?;
        }
    }
    Ok(page.text)
}

/// Each text gives the core, or the refusal, beside it.
pub fn all_read(rt: &impl Abort, alloc: Global, rows: &[(&str, &str)]) -> Result<(), Fail> {
    for (text, core) in rows {
        let line = line_of(alloc, text.as_bytes())?;
        assert_eq!(rt; line.as_slice(), core.as_bytes(), "{text}");
    }
    Ok(())
}
