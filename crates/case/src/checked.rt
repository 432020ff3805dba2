// A case in form. Its fields are private to this crate, so that nobody holds one whose records were not checked.
ghost use Rattle.std.specs.Prelude.{◌≡◌, ◌≤◌, true, take};
ghost use Rattle.form.specs.Form.{in_form};
ghost use Rattle.form.specs.Layouts.{starts_of};

use form::threads::Layout;
use records::Record;

// A fixed table and a count in place of a Vec: cases stand in the caller's memory, and a case is Copy.
#[derive(Clone, Copy)]
pub struct CheckedCase {
    pub(crate) records: [Record; 256],
    pub(crate) count: u16,
    pub(crate) layout: Layout,
    ghost within: { count ≤ 256 },
    ghost formed: { in_form (take count records) ≡ true },
    ghost laid: { layout.starts ≡ starts_of (take count records) },
}
