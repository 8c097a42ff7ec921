use qp_words::{Order, Task, order_of};
use std::alloc::Global;
use std::test::Fail;

/// What words with blanks between them order.
fn ordered(alloc: Global, line: &str) -> Result<Option<Order>, Fail> {
    let mut words = Vec::new(alloc);
    for word in line.split(' ') {
        if !word.is_empty() {
            words.push(String::from_str(alloc, word)?)?;
        }
    }
    Ok(order_of(alloc, words.as_slice())?)
}

#[test]
fn a_task_alone_has_the_defaults(rt: HostRuntime) -> Result<(), Fail> {
    let order = Order {
        task: Task::Solve,
        bases: 100000,
        boxes: 10000,
        kind: 1,
        number: 1,
    };
    assert!(rt; ordered(rt.alloc(), "solve")? == Some(order));
    Ok(())
}

#[test]
fn options_stand_anywhere(rt: HostRuntime) -> Result<(), Fail> {
    let order = Order {
        task: Task::Sample,
        bases: 5,
        boxes: 20000,
        kind: 3,
        number: 18446744073709551615,
    };
    let line = "--bases=+5 --boxes 20000 sample --kind=3 --number 18446744073709551615";
    assert!(rt; ordered(rt.alloc(), line)? == Some(order));
    Ok(())
}

#[test]
fn other_words_are_refused(rt: HostRuntime) -> Result<(), Fail> {
    let lines = [
        "",
        "prove",
        "solve check",
        "solve --bases 0",
        "solve --kind 4",
        "solve --kind 0",
        "solve --boxes 20001",
        "solve --bases 4611686018427387905",
        "solve --number 18446744073709551616",
        "solve --bases",
        "solve --bases five",
        "solve --bases 5 --bases 5",
        "solve --bases -5",
        "-h",
        "solve --help",
        "-V",
        "solve --version",
        "solve --base 5",
    ];
    for line in lines {
        assert!(rt; ordered(rt.alloc(), line)?.is_none());
    }
    Ok(())
}

#[test]
fn the_word_may_stand_behind_dashes(rt: HostRuntime) -> Result<(), Fail> {
    assert!(rt;
        ordered(rt.alloc(), "--bases=7 -- check")?.is_some_and(|order| order.bases == 7
            && order.task == Task::Check)
    );
    Ok(())
}
