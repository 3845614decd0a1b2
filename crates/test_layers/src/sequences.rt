//! An owned list.
use sequence::Sequence;
use std::alloc::{AllocError, Global};
use std::test::Fail;

/// A type that holds itself through a sequence.
#[derive(Debug, Drop)]
enum Tree {
    Leaf(u32),
    Node(Sequence<Tree>),
}

/// The numbers 3, 1 and 2.
fn three_numbers(alloc: Global) -> Result<Sequence<u32>, AllocError> {
    let mut numbers = Sequence::new(alloc);
    for number in [3, 1, 2] {
        numbers.push(number)?;
    }
    Ok(numbers)
}

/// Whether they are these numbers, in this order.
fn are_three_numbers(numbers: &Sequence<u32>) -> bool {
    numbers.as_slice() == [3, 1, 2].as_slice()
        && numbers.len() == 3
        && !numbers.is_empty()
        && numbers.get(1) == Some(&1)
        && numbers.get(3).is_none()
}

/// Whether a copy is equal to the numbers until one more is pushed.
fn is_copied(mut numbers: Sequence<u32>) -> Result<bool, AllocError> {
    let copy = numbers.clone()?;
    let is_equal = copy == numbers;
    let pushed = numbers.push(4);
    let differs = copy != numbers;
    drop((copy, numbers));
    pushed?;
    Ok(is_equal && differs)
}

/// Whether numbers are taken from a `Vec`, and given back.
fn are_taken_and_given(alloc: Global) -> Result<bool, AllocError> {
    let numbers = three_numbers(alloc)?.into_vec();
    let are_given = numbers.as_slice() == [3, 1, 2].as_slice();
    let numbers = Sequence::from_vec(numbers);
    let are_taken = are_three_numbers(&numbers);
    drop(numbers);
    Ok(are_given && are_taken)
}

#[test]
fn items_in_their_order(rt: HostRuntime) -> Result<(), Fail> {
    assert!(rt; are_three_numbers(&three_numbers(rt.alloc())?));
    assert!(rt; is_copied(three_numbers(rt.alloc())?)?);
    assert!(rt; are_taken_and_given(rt.alloc())?);
    Ok(())
}

#[test]
fn held_by_a_type_that_holds_itself(rt: HostRuntime) -> Result<(), Fail> {
    let inner = Sequence::from_vec(vec![in rt.alloc(); Tree::Leaf(2)]?);
    let tree = Tree::Node(Sequence::from_vec(vec![in rt.alloc();
        Tree::Leaf(1),
        Tree::Node(inner),
    ]?));
    let text = format!(in rt.alloc(); "{tree:?}")?;
    assert!(rt; text.as_str() == "Node([Leaf(1), Node([Leaf(2)])])");
    Ok(())
}
