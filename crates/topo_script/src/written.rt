//! What has a JSON text.

ghost use Rattle.std.specs.Prelude.{◌≡◌, ◌∷◌, ◌++◌, OnOk, string_bytes, map};
ghost use Rattle.serde_json.specs.Data.{Data, number, unsigned, array};
ghost use Rattle.serde_json.specs.View.{items_of};
ghost use Rattle.serde_json.specs.Written.{compact_text};

use itoa::Buffer;
use std::alloc::AllocError;
use topo_core::listed::Listed;

/// A value that can be written as JSON. Its `value` says which JSON value that is.
pub trait Written {
    ghost use Rattle.serde_json.specs.Data.{Data};

    ghost value: { Self → Data };

    /// Writes the compact text of the value at the end of `out`.
    fn write(&self, out: &mut String) -> Result<(), AllocError>
        ensures { OnOk result
            (string_bytes out.new ≡ string_bytes out.old ++ compact_text (value self.now)) };
}

impl Written for u32 {
    ghost value = { λ n. number (unsigned n) };

    fn write(&self, out: &mut String) -> Result<(), AllocError> {
        if *self < 10 {
            // Most numbers are digits, and a digit needs no buffer.
            return out.push((b'0' + *self as u8) as char);
        }
        let mut buffer = Buffer::new();
        out.push_str(buffer.format(*self))
    }
}

impl Written for u64 {
    ghost value = { λ n. number (unsigned n) };

    fn write(&self, out: &mut String) -> Result<(), AllocError> {
        let mut buffer = Buffer::new();
        out.push_str(buffer.format(*self))
    }
}

impl<T: Written> Written for Listed<T> {
    ghost value = { λ list. array (items_of (map T.value list)) };

    fn write(&self, out: &mut String) -> Result<(), AllocError> {
        write_list(out, self.as_slice())
    }
}

/// Writes an array of the items.
pub(crate) fn write_list<T: Written>(out: &mut String, items: &[T]) -> Result<(), AllocError>
    ensures { OnOk result (string_bytes out.new ≡ string_bytes out.old
        ++ compact_text (array (items_of (map T.value items.now)))) }
{
    out.push('[')?;
    for (i, item) in items.iter().enumerate() {
        if i == 0 {
            item.write(out)?;
        } else {
            write_next(out, item)?;
        }
    }
    out.push(']')
}

/// Writes the text before an item, and then the item.
pub fn write_after<T: Written>(out: &mut String, before: &str, item: &T) -> Result<(), AllocError>
    ensures { OnOk result (string_bytes out.new ≡ string_bytes out.old
        ++ (before.now ++ compact_text (T.value item.now))) }
{
    out.push_str(before)?;
    item.write(out)
}

/// Writes a comma, and then an item.
pub fn write_next<T: Written>(out: &mut String, item: &T) -> Result<(), AllocError>
    ensures { OnOk result (string_bytes out.new ≡ string_bytes out.old
        ++ (44 ∷ compact_text (T.value item.now))) }
{
    out.push(',')?;
    item.write(out)
}
