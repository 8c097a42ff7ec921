// What `sample` writes. The optimal values were calculated apart, from the definition of the programs.

use crate::tests::runs::{answers, withholds};
use qp_engine::Status;
use std::alloc::Global;
use std::test::Fail;

/// Whether a sample of these words has this text, each time that it is asked for.
fn shows(alloc: Global, words: &str, text: &str) -> Result<bool, Fail> {
    Ok(
        answers(alloc, words, &[], Status::Done, text)?
            && answers(alloc, words, &[], Status::Done, text)?,
    )
}

/// One sample of a larger program, whose kind and number are those that are taken where none are named.
#[test]
fn a_sample_of_transport(rt: HostRuntime) -> Result<(), Fail> {
    let alloc = rt.alloc();
    let text = "SAMPLE 1 1\nROWS 16\nCOLUMNS 64\nOPTIMAL\nVALUE 895\n";
    assert!(rt; answers(alloc, "sample", &[], Status::Done, text)?);
    Ok(())
}

#[test]
fn another_sample_of_transport(rt: HostRuntime) -> Result<(), Fail> {
    let alloc = rt.alloc();
    let text = "SAMPLE 1 7\nROWS 16\nCOLUMNS 64\nOPTIMAL\nVALUE 472\n";
    assert!(rt; answers(alloc, "sample --kind 1 --number 7", &[], Status::Done, text)?);
    Ok(())
}

#[test]
fn samples_of_a_projection(rt: HostRuntime) -> Result<(), Fail> {
    let alloc = rt.alloc();
    for (words, text) in [
        (
            "sample --kind 2 --number 1",
            "SAMPLE 2 1\nROWS 1\nCOLUMNS 40\nOPTIMAL\nVALUE 16681/2200\n",
        ),
        (
            "sample --kind 2 --number 2",
            "SAMPLE 2 2\nROWS 1\nCOLUMNS 40\nOPTIMAL\nVALUE 6841/1600\n",
        ),
    ] {
        assert!(rt; shows(alloc, words, text)?, "{words}");
    }
    Ok(())
}

#[test]
fn samples_of_a_knapsack(rt: HostRuntime) -> Result<(), Fail> {
    let alloc = rt.alloc();
    for (words, text) in [
        (
            "sample --kind 3 --number 1",
            "SAMPLE 3 1\nROWS 1\nCOLUMNS 12\nOPTIMAL\nVALUE -154\n",
        ),
        (
            "sample --kind 3 --number 2",
            "SAMPLE 3 2\nROWS 1\nCOLUMNS 12\nOPTIMAL\nVALUE -125\n",
        ),
        (
            "sample --kind 3 --number 18446744073709551615",
            "SAMPLE 3 18446744073709551615\nROWS 1\nCOLUMNS 12\nOPTIMAL\nVALUE -121\n",
        ),
    ] {
        assert!(rt; shows(alloc, words, text)?, "{words}");
    }
    Ok(())
}

#[test]
fn a_sample_with_too_small_a_budget(rt: HostRuntime) -> Result<(), Fail> {
    let alloc = rt.alloc();
    let text =
        "WITHHELD BASES 1\nSITE CHAIN FEASIBLE\nBASIC 65\nBASIC 66\nBASIC 67\nBASIC 68\nBASIC 69\nBASIC 70\nBASIC 71\nBASIC 72\nBASIC 1\nBASIC 74\nBASIC 75\nBASIC 76\nBASIC 77\nBASIC 78\nBASIC 79\nBASIC 80\nEND\n";
    assert!(rt; withholds(alloc, "sample --bases 1", "", text)?);
    Ok(())
}
