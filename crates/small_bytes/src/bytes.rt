//! A text of bytes.
ghost use Rattle.std.specs.Prelude.{◌≡◌, ◌≤◌, [], ◌++◌, length, IfOk, OnOk, OnErr};

use crate::few::{FewBytes, MOST};
use std::alloc::{AllocError, Global};
use std::marker::Model;
use std::mem::size_of;

/// Where the bytes of a text stand.
#[derive(Drop)]
pub(crate) enum Form {
    Within(FewBytes),
    Apart(Vec<u8>),
}

/// A text of bytes, seen as their list. It takes 32 bytes, and memory beside them only while it is longer than [`MOST`]
/// or was so before.
#[derive(Drop)]
pub struct SmallBytes {
    form: Form,
}

impl Model for SmallBytes {
    ghost use Rattle.std.specs.Prelude as prelude;
    ghost use Rattle.small_bytes.specs.Bytes as bytes;

    ghost Value = { prelude.List prelude.ℕ };

    ghost view = { λ text. bytes.seen text.form };
}

/// A short text.
fn few(bytes: &[u8]) -> SmallBytes
    requires { length bytes.now ≤ 30 }
    ensures { result ≡ bytes.now }
{
    let mut few = FewBytes::new();
    few.append(bytes);
    SmallBytes {
        form: Form::Within(few),
    }
}

/// The bytes of two texts in one, with room for no more.
fn joined(alloc: Global, front: &[u8], back: &[u8]) -> Result<Vec<u8>, AllocError>
    ensures { IfOk result (λ v. v.items ≡ front.now ++ back.now) }
{
    let mut items = Vec::with_capacity(alloc, front.len().saturating_add(back.len()))?;
    items.extend_from_slice(front)?;
    items.extend_from_slice(back)?;
    Ok(items)
}

impl SmallBytes {
    /// The empty text. It takes no memory.
    pub fn new() -> SmallBytes
        ensures { result ≡ [] }
    {
        SmallBytes {
            form: Form::Within(FewBytes::new()),
        }
    }

    /// A copy of the bytes.
    pub fn from_slice(alloc: Global, bytes: &[u8]) -> Result<SmallBytes, AllocError>
        ensures { IfOk result (λ text. text ≡ bytes.now) }
    {
        if bytes.len() <= MOST {
            return Ok(few(bytes));
        }
        Ok(SmallBytes {
            form: Form::Apart(Vec::from_slice(alloc, bytes)?),
        })
    }

    /// The text of a vector's bytes. It takes no memory, and gives that of a short vector back.
    pub fn from_vec(items: Vec<u8>) -> SmallBytes
        ensures { result ≡ items.items }
    {
        if items.len() <= MOST {
            return few(&items);
        }
        SmallBytes {
            form: Form::Apart(items),
        }
    }

    /// The bytes as a slice.
    #[inline]
    pub fn as_slice(&self) -> &[u8]
        ensures { result.now ≡ self.now }
    {
        match &self.form {
            Form::Within(few) => few.as_slice(),
            Form::Apart(items) => items,
        }
    }

    /// Puts bytes at the end. Where memory runs out the text is as before.
    pub fn append(&mut self, alloc: Global, more: &[u8]) -> Result<(), AllocError>
        ensures ok { OnOk result (self.new ≡ self.old ++ more.now) }
        ensures err { OnErr result (self.new ≡ self.old) }
    {
        let items = match &mut self.form {
            Form::Apart(items) => return items.extend_from_slice(more),
            Form::Within(few) => {
                if more.len() <= few.room() {
                    few.append(more);
                    return Ok(());
                }
                joined(alloc, few.as_slice(), more)?
            }
        };
        self.form = Form::Apart(items);
        Ok(())
    }
}

const _: () = prove!(size_of::<SmallBytes>() <= 32);
