// Names.

ghost use Rattle.std.specs.Prelude.{◌≡◌, ◌↔◌, IsTrue};
ghost use Rattle.program_law.specs.Program.{IsName, marker};
ghost use Rattle.program_data.specs.Answers.{IsNamed};

use crate::faults::NameFault;
use program_law::LONGEST_NAME;
use std::alloc::Global;
use std::marker::Model;

/// The name of an objective, a row or a column: 1 to 64 bytes, each from 33 to 126.
#[derive(Drop)]
pub struct Name {
    bytes: Vec<u8>,
}

impl Model for Name {
    ghost use Rattle.std.specs.Prelude.{List, ℕ};
    ghost use Rattle.program_law.specs.Program.{IsName};

    ghost Value = { List ℕ };

    ghost view = { λ name. name.bytes.items };

    ghost invariant = { λ name. IsName name.bytes.items };
}

/// Whether bytes make a name.
pub fn is_name(bytes: &[u8]) -> bool
    ensures { IsTrue result ↔ IsName bytes.now }
{
    !bytes.is_empty()
        && bytes.len() <= LONGEST_NAME
        && bytes.iter().all(|byte| byte.is_ascii_graphic())
}

/// Whether bytes are `'MARKER'`, with the quotes. No objective and no row has this name.
pub fn is_marker(bytes: &[u8]) -> bool
    ensures { IsTrue result ↔ (bytes.now ≡ marker) }
{
    bytes == b"'MARKER'".as_slice()
}

impl Name {
    /// The name with these bytes.
    ///
    /// # Errors
    /// `Bad` where they are not 1 to 64 bytes from 33 to 126, else `Memory`.
    pub fn of(alloc: Global, bytes: &[u8]) -> Result<Name, NameFault>
        ensures { IsNamed bytes.now result }
    {
        if !is_name(bytes) {
            return Err(NameFault::Bad);
        }
        match Vec::from_slice(alloc, bytes) {
            Ok(bytes) => Ok(Name { bytes }),
            Err(_) => Err(NameFault::Memory),
        }
    }

    /// The bytes.
    pub fn bytes(&self) -> &[u8]
        ensures bytes { result.now ≡ self.now }
        ensures name { IsName self.now }
    {
        &self.bytes
    }

    pub(crate) fn into_bytes(self) -> Vec<u8>
        ensures bytes { result.items ≡ self }
        ensures name { IsName self }
    {
        self.bytes
    }
}
