//! What a file is, as text: its header and its sections.
ghost use Rattle.std.specs.Prelude.{◌≡◌, Ok, flat_map};
ghost use Rattle.rite_file.specs.Front.{header_of, sections_of};
ghost use Rattle.rite_file.specs.declared.error.LoadError.{LoadError as LoadErrorValue};
ghost use Rattle.code_listing.specs.Info as texts;
ghost use Rattle.rb_refusal.specs.Writing.{Says};

use crate::info_fault::InfoFault;
use itoa::Buffer;
use rb_base::{Failed, Sink};
use rb_refusal::{visible_name, write_pieces};
use rite_file::{Header, LoadError, Section, Sections, header, sections};

#[tactic(auto, unfolding(crate::specs::Info::header_line))]
fn write_header<O: Sink>(out: &mut O, header: Header) -> Result<(), Failed>
    ensures { Says (texts.header_line header)
        (record { taken = O.taken out.old; faults = O.faults out.old })
        (record { taken = O.taken out.new; faults = O.faults out.new }) result }
{
    let mut size = Buffer::new();
    write_pieces(
        out,
        &[
            b"RITE 0300 size ",
            size.format(header.size).as_bytes(),
            b" compiler ",
            &visible_name(header.name),
            b" ",
            &visible_name(header.version),
            b"\n",
        ],
    )
}

#[tactic(auto, unfolding(crate::specs::Info::section_line))]
fn write_section<O: Sink>(out: &mut O, section: Section) -> Result<(), Failed>
    ensures { Says (texts.section_line section)
        (record { taken = O.taken out.old; faults = O.faults out.old })
        (record { taken = O.taken out.new; faults = O.faults out.new }) result }
{
    let shown = visible_name(section.id);
    let length = if section.id[3] == 0 { 3 } else { 4 };
    let mut buffer = Buffer::new();
    let size = buffer.format(section.size).as_bytes();
    write_pieces(out, &[&shown[..length], b" ", size, b"\n"])
}

// Writes the sections up to the first that doesn't fit.
fn write_sections<O: Sink>(out: &mut O, sections: &mut Sections) -> Result<(), Failed>
    ensures { Says (flat_map texts.section_line (texts.fitting sections.old))
        (record { taken = O.taken out.old; faults = O.faults out.old })
        (record { taken = O.taken out.new; faults = O.faults out.new }) result }
{
    'sections: while let Some(next) = sections.next() {
        let Ok(section) = next else {
            return Ok(());
        };
        write_section(out, section)?;
    }
    Ok(())
}

// The error of the first section that doesn't fit.
fn check_sections(sections: &mut Sections) -> Result<(), LoadError>
    ensures { result ≡ texts.first_error sections.old }
{
    'sections: while let Some(section) = sections.next() {
        section?;
    }
    Ok(())
}

// The header of a file of which every section fits.
fn checked(bytes: &[u8]) -> Result<Header, LoadError>
    ensures { result ≡ texts.checked bytes.now }
{
    let found = header(bytes)?;
    check_sections(&mut sections(bytes, &found))?;
    Ok(found)
}

fn write_lines<O: Sink>(out: &mut O, bytes: &[u8], found: Header) -> Result<(), Failed>
    requires { header_of bytes.now ≡ Ok found }
    ensures { Says (texts.lines_of (sections_of bytes.now) found)
        (record { taken = O.taken out.old; faults = O.faults out.old })
        (record { taken = O.taken out.new; faults = O.faults out.new }) result }
{
    write_header(out, found)?;
    write_sections(out, &mut sections(bytes, &found))
}

/// Writes what a file is: its size, compiler and version, and each section with its size. Bytes that are no visible
/// characters print as a dot. It takes no memory.
///
/// `Refused`, with nothing written, where the header or a section is wrong, with the error of the first. `Failed` where
/// a call failed: then a front of the text went out.
pub fn info<O: Sink>(bytes: &[u8], out: &mut O) -> Result<(), InfoFault>
    ensures informs { texts.Informs (texts.info_of bytes.now)
        (record { taken = O.taken out.old; faults = O.faults out.old })
        (record { taken = O.taken out.new; faults = O.faults out.new }) result }
    ensures untouched { (cause : LoadErrorValue) → result ≡ Err (InfoFault.Refused cause) → out.new ≡ out.old }
{
    let found = checked(bytes)?;
    write_lines(out, bytes, found)?;
    Ok(())
}
