//! Reports: text added to memory that was allocated before.

// A text that has its memory beforehand.
ghost use Rattle.std.specs.Prelude.{◌∷◌, [], decimal};
ghost use Rattle.stim_report.specs.inner.Pages.{Gains, HasRoom};

use itoa::Buffer;
use kw_bits::Reserved;

pub(crate) fn push(page: &mut Reserved<u8>, byte: u8)
    requires { HasRoom page.old (byte ∷ []) }
    ensures { Gains page.old page.new (byte ∷ []) }
{
    page.push(byte);
}

pub(crate) fn push_all(page: &mut Reserved<u8>, bytes: &[u8])
    requires { HasRoom page.old bytes.now }
    ensures { Gains page.old page.new bytes.now }
{
    page.extend_from_slice(bytes);
}

pub(crate) fn push_number(page: &mut Reserved<u8>, number: u64)
    requires { HasRoom page.old (decimal number) }
    ensures { Gains page.old page.new (decimal number) }
{
    push_all(page, Buffer::new().format(number).as_bytes());
}
