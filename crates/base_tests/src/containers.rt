//! That the containers are built, copied and compared with ample memory, that a type may lead back to
//! itself through them, and that threads may use them.

use dsu_io::{Boxed, List, Text};
use std::alloc::{AllocError, Global};
use std::thread;

/// A type that leads back to itself through both containers.
#[derive(Drop, Clone, PartialEq)]
enum Tree {
    Leaf(u8),
    Node(Text, Boxed<Tree>, List<Tree>),
}

/// A node with a leaf and a row of two leaves.
fn sample(alloc: Global, last: u8) -> Result<Tree, AllocError> {
    let text = Text::of(alloc, "row")?;
    let first = Boxed::of(alloc, Tree::Leaf(0))?;
    let row = vec![in alloc; Tree::Leaf(1), Tree::Leaf(last)]?;
    Ok(Tree::Node(text, first, List::of(row)))
}

/// Whether a copy of a value equals it.
fn is_copied<T: Clone + PartialEq + Drop>(value: &T) -> Result<bool, AllocError> {
    let copy = value.clone()?;
    Ok(copy == *value)
}

#[test]
fn trees_are_copied_and_compared(rt: HostRuntime) {
    let tree = sample(rt.alloc(), 2).expect(&rt, "memory");
    let other = sample(rt.alloc(), 3).expect(&rt, "memory");
    assert!(rt; is_copied(&tree).expect(&rt, "memory"));
    assert!(rt; other != tree);
    drop(other);
    drop(tree);
}

#[test]
fn lists_are_copied_and_compared(rt: HostRuntime) {
    let numbers = List::of([1u8, 2].to_vec(rt.alloc()).expect(&rt, "memory"));
    assert!(rt; is_copied(&numbers).expect(&rt, "memory"));
    assert!(rt; numbers.into_vec().as_slice() == [1, 2].as_slice());
}

const HELLO: &str = "héllo";

#[test]
fn texts_are_copied_and_compared(rt: HostRuntime) {
    let text = Text::of(rt.alloc(), HELLO).expect(&rt, "memory");
    let string = String::from_str(rt.alloc(), HELLO).expect(&rt, "memory");
    assert!(rt; is_copied(&text).expect(&rt, "memory"));
    assert!(rt; Text::from(string) == text);
    assert!(rt; text.as_str() == HELLO);
}

#[test]
fn boxed_values_are_copied_and_compared(rt: HostRuntime) {
    let boxed = Boxed::of(rt.alloc(), 7u8).expect(&rt, "memory");
    assert!(rt; is_copied(&boxed).expect(&rt, "memory"));
    assert!(rt; boxed.into_inner() == 7);
}

/// One of each container.
type Shared = (Text, List<u8>, Boxed<u8>);

fn shared_of(alloc: Global, text: &str, list: &[u8], boxed: u8) -> Result<Shared, AllocError> {
    let text = Text::of(alloc, text)?;
    let list = List::of(list.to_vec(alloc)?);
    let boxed = Boxed::of(alloc, boxed)?;
    Ok((text, list, boxed))
}

fn lengths_and_value(of: &Shared) -> (usize, usize, u8) {
    let (text, list, boxed) = of;
    (text.as_str().len(), list.as_slice().len(), *boxed.get())
}

#[test]
fn containers_are_lent_and_given_to_threads(rt: HostRuntime) {
    let lent = shared_of(rt.alloc(), "lent", &[1, 2], 7).expect(&rt, "memory");
    let given = shared_of(rt.alloc(), "given", &[1, 2, 3], 9).expect(&rt, "memory");
    let (first, second) = thread::join(
        &rt,
        || lengths_and_value(&lent),
        move || lengths_and_value(&given),
    );
    assert!(rt; first == (4, 2, 7));
    assert!(rt; second == (5, 3, 9));
    assert!(rt; lengths_and_value(&lent) == first);
}
