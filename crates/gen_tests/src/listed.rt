//! The code of a text as it is listed.
use code_listing::list;
use code_of_core::generate;
use code_verifier::verify;
use rb_base::MemorySink;
use rb_front::read;
use std::alloc::Global;
use std::process::Abort;
use std::test::Fail;

/// The listing of the code of a text, which is verified.
pub fn listed(rt: &impl Abort, alloc: Global, text: &[u8]) -> Result<Vec<u8>, Fail> {
    let program = match read(alloc, text) {
        Ok(program) => program,
        Err(error) => {
            let refusal = format!(in alloc; "{error:?}")?;
            return Ok(refusal.into_bytes());
        }
    };
    let code = generate(alloc, &program)?;
    let mut sink = MemorySink::new(alloc, 100000, Vec::new(alloc));
    assert!(rt; list(&code, &mut sink).is_ok(), "listed");
    let mut out = Vec::new(alloc);
    out.extend_from_slice(sink.bytes())?;
    if let Err(error) = verify(alloc, code) {
        let refusal = format!(in alloc; "{error:?}")?;
        out.extend_from_slice(refusal.as_bytes())?;
    }
    Ok(out)
}

/// The code of each text is listed as the text beside it.
pub fn all_listed(rt: &impl Abort, alloc: Global, rows: &[(&str, &str)]) -> Result<(), Fail> {
    for (text, want) in rows {
        let listing = listed(rt, alloc, text.as_bytes())?;
        assert_eq!(rt; listing.as_slice(), want.as_bytes(), "{text}");
    }
    Ok(())
}

/// The listing of the code of the text ends so.
pub fn ends_with(rt: &impl Abort, alloc: Global, text: &[u8], end: &str) -> Result<(), Fail> {
    let listing = listed(rt, alloc, text)?;
    assert!(rt; listing.as_slice().ends_with(end.as_bytes()), "{end}");
    Ok(())
}
