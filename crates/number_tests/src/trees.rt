// Nodes that are a tree, and nodes that are not.

use certificate_law::{Node, Tree, TreeBuilder};
use frac_core::{Frac, Vector};
use program_law::{Square, Squares};
use std::test::Fail;

/// The builder with nodes named by letters: a branch, or one of the three leaves.
fn built(rt: HostRuntime, letters: &str) -> Result<TreeBuilder, Fail> {
    let mut builder = Tree::start(rt.alloc());
    for letter in letters.bytes() {
        let node = match letter {
            b'r' => Node::Branch(0, 5),
            b'b' => Node::Bound(
                Vector::filled(rt.alloc(), 1, Frac::whole(1))?,
                Vector::filled(rt.alloc(), 2, Frac::whole(0))?,
            ),
            b'f' => Node::Farkas(Vector::filled(rt.alloc(), 2, Frac::whole(1))?),
            _ => Node::Cross(3),
        };
        builder.put(node)?;
    }
    Ok(builder)
}

#[test]
fn whole_trees(rt: HostRuntime) -> Result<(), Fail> {
    for (letters, whole) in [
        ("", false),
        ("c", true),
        ("b", true),
        ("cc", false),
        ("r", false),
        ("rb", false),
        ("rbf", true),
        ("rbfc", false),
        ("rbfr", false),
        ("rrbfc", true),
        ("rbrfc", true),
        ("rbrfcc", false),
    ] {
        let finished = built(rt, letters)?.finish();
        assert_eq!(rt; finished.is_ok(), whole, "{letters}");
    }
    Ok(())
}

/// Whether the nodes are a branch on two leaves, the second a CROSS leaf.
fn is_branch_of_two(builder: TreeBuilder) -> bool {
    match builder.finish() {
        Ok(tree) => {
            tree.len() == 3
                && matches!(tree.node(0), Node::Branch(0, 5))
                && matches!(tree.node(1), Node::Farkas(_))
                && matches!(tree.node(2), Node::Cross(7))
        }
        Err(_) => false,
    }
}

/// Whether it is a builder that wants one node more.
fn is_mended(finished: Result<Tree, TreeBuilder>) -> bool {
    match finished {
        Ok(_) => false,
        Err(mut builder) => match builder.put(Node::Cross(7)) {
            Ok(()) => is_branch_of_two(builder),
            Err(_) => false,
        },
    }
}

#[test]
fn builder_comes_back(rt: HostRuntime) -> Result<(), Fail> {
    let builder = built(rt, "rf")?;
    assert!(rt; is_mended(builder.finish()));
    Ok(())
}

#[test]
fn squares_in_order(rt: HostRuntime) -> Result<(), Fail> {
    let mut squares = Squares::start(rt.alloc());
    let coef = Vector::filled(rt.alloc(), 2, Frac::whole(1))?;
    let weight = Frac::whole(3);
    squares.push(Square { weight, coef })?;
    assert!(rt; squares.len() == 1);
    if 0 < squares.len() {
        assert!(rt; squares.get(0).weight.num() == 3 && squares.get(0).coef.len() == 2);
    }
    Ok(())
}
