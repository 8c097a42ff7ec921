// Each kind is made once.

ghost use Rattle.std.specs.Prelude.{◌≤◌};

use sample_make::sample;
use std::alloc::Global;
use std::test::Fail;

/// How many rows and columns a sample has.
fn counts(alloc: Global, kind: u8, number: u64) -> Result<(u32, u32), Fail>
    requires some { 1 ≤ kind }
    requires few { kind ≤ 3 }
{
    match sample(alloc, kind, number) {
        Ok(p) => Ok((p.rows(), p.columns())),
        Err(_) => Err(Fail::from("no sample")),
    }
}

#[test]
fn a_transport_is_made(rt: HostRuntime) -> Result<(), Fail> {
    let (rows, columns) = counts(rt.alloc(), 1, 1)?;
    assert!(rt; rows == 16 && columns == 64);
    Ok(())
}

#[test]
fn a_projection_is_made(rt: HostRuntime) -> Result<(), Fail> {
    let (rows, columns) = counts(rt.alloc(), 2, 1)?;
    assert!(rt; rows == 1 && columns == 40);
    Ok(())
}

#[test]
fn a_knapsack_is_made(rt: HostRuntime) -> Result<(), Fail> {
    let (rows, columns) = counts(rt.alloc(), 3, 18446744073709551615)?;
    assert!(rt; rows == 1 && columns == 12);
    Ok(())
}
