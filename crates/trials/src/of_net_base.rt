//! Lists, names and graphs: each call that takes memory, and how a name is printed.

use net_base::{GNode, Graph, List, Name, NoMemory, Ref, Subject, is_subject};
use std::alloc::Global;

// Three pushes.
fn pushed(alloc: Global) -> Result<List<u32>, NoMemory> {
    let mut list = List::new(alloc);
    for item in [7u32, 3, 7] {
        list.push(item)?;
    }
    Ok(list)
}

// A list with one item more, by way of a vector.
fn longer(list: List<u32>) -> Result<List<u32>, NoMemory> {
    let mut items = list.into_vec();
    items.push(9)?;
    Ok(List::from_vec(items))
}

fn is_a_list_kept(list: &List<u32>, copy: &List<u32>, longer: &List<u32>) -> bool {
    list.as_slice() == [7u32, 3, 7].as_slice()
        && copy == list
        && copy.len() == 3
        && longer.as_slice() == [7u32, 3, 7, 9].as_slice()
        && longer != list
        && longer.len() > 3
        && *longer.get(1) == 3
}

fn is_kept(alloc: Global) -> Option<bool> {
    let list = pushed(alloc).ok()?;
    let copy = list.clone().ok()?;
    let longer = longer(list.clone().ok()?).ok()?;
    Some(List::<u32>::new(alloc).is_empty() && is_a_list_kept(&list, &copy, &longer))
}

#[test]
fn a_list_keeps_its_items_in_the_order_of_the_pushes(rt: HostRuntime) {
    assert!(rt; is_kept(rt.alloc()) == Some(true));
}

fn is_printed(alloc: Global, name: &Name, other: &Name) -> Option<bool> {
    let copy = name.clone().ok()?;
    let text = format!(in alloc; "{name}").ok()?;
    Some(
        name.bytes() == b"carry_3".as_slice()
            && text.as_str() == "carry_3"
            && copy == *name
            && *other != *name,
    )
}

fn is_a_name_kept(alloc: Global) -> Option<bool> {
    let name = Name::of(alloc, b"carry_3").ok()?;
    let other = Name::of(alloc, b"carry_4").ok()?;
    is_printed(alloc, &name, &other)
}

#[test]
fn a_name_keeps_its_bytes_and_prints_them(rt: HostRuntime) {
    assert!(rt; is_a_name_kept(rt.alloc()) == Some(true));
}

// The graph of `a and not b`, an output of that value, and one that is always true.
fn subject(alloc: Global) -> Option<Subject> {
    let nodes = [
        GNode::Inp(0),
        GNode::Inp(1),
        GNode::Neg(1),
        GNode::Both(0, 2),
    ];
    let nodes = List::from_slice(alloc, &nodes).ok()?;
    let outputs = List::from_slice(alloc, &[Ref::Node(3), Ref::Const(true)]).ok()?;
    Some(Subject {
        graph: Graph { inputs: 2, nodes },
        outputs,
    })
}

fn is_copied(subject: &Subject) -> Option<bool> {
    let copy = subject.clone().ok()?;
    Some(copy == *subject && is_subject(&copy))
}

#[test]
fn the_copy_of_a_subject_is_the_same_subject(rt: HostRuntime) {
    let subject = subject(rt.alloc());
    assert!(rt; subject.is_some_and(|subject| is_copied(&subject) == Some(true)));
}
