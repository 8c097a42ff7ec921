// The numbers of a program, set one after the other.

ghost use Rattle.std.specs.Prelude.{◌≡◌, ◌<◌, ◌≤◌, [], length, IsSome, IfSome};
ghost use Rattle.mps_grammar.specs.Told.{objective_in};
ghost use Rattle.mps_assembly.specs.Assembled.{assembled, with_placed};

use mps_notes::{Draft, Entry, Target};
use program_data::Program;

/// A cost or an entry; one of a further N row isn't used.
fn set_entry(program: &mut Program, entry: &Entry)
    requires column { entry.now.column < length program.old.columns }
    requires place { IfSome entry.now.place (λ place. place ≤ length program.old.rows) }
    ensures { program.new ≡ with_placed program.old entry.now.place entry.now.column entry.now.value }
{
    let rows = program.rows();
    let columns = program.columns();
    let column = entry.column;
    prove!(column < columns as usize);
    match entry.target() {
        Target::Objective => program.set_cost(column as u32, entry.value),
        Target::Row(row) => {
            prove!(row < rows as usize);
            program.set_entry(row as u32, column as u32, entry.value);
        }
        Target::Unused => {}
    }
}

/// Sets the costs and the entries.
pub(crate) fn set_entries(program: &mut Program, draft: &Draft)
    requires program { program.old ≡ assembled draft.now [] [] }
    requires objective { IsSome (objective_in draft.now.rows) }
    ensures { program.new ≡ assembled draft.now draft.now.entries [] }
{
    let _rows = draft.rows();
    let _columns = draft.columns();
    let entries = draft.entries();
    for entry in entries {
        set_entry(program, entry);
    }
}

/// Sets the entries of Q.
pub(crate) fn set_pairs(program: &mut Program, draft: &Draft)
    requires { program.old ≡ assembled draft.now draft.now.entries [] }
    ensures { program.new ≡ assembled draft.now draft.now.entries draft.now.pairs }
{
    let columns = draft.columns();
    let pairs = draft.pairs();
    for pair in pairs {
        let (one, other) = (pair.column, pair.row);
        prove!(one < columns && other < columns);
        program.set_pair(one as u32, other as u32, pair.value);
    }
}
