// The answer of a check.

ghost use Rattle.std.specs.Prelude.{◌≡◌};
ghost use Rattle.cert_check_law.specs.Check.{answer};

use cert_check_law::{Checked, Event};

/// Accepted, or the first event.
pub fn answer(checked: Result<(), Event>) -> Checked
    ensures { result ≡ answer checked }
{
    match checked {
        Ok(()) => Checked::Accepted,
        Err(Event::Past(refused)) => Checked::Past(refused),
        Err(Event::Failed { rule, place }) => Checked::Rejected { rule, place },
    }
}
