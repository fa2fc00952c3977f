//! Which nodes are needed, by a mark for each node, from the last one down.

ghost use Rattle.std.specs.Prelude.{◌≡◌, ◌≤◌, ◌<◌, ◌∷◌, [], length, map, slice_index_or, IfOk};
ghost use Rattle.std.specs.List.{flat_map};
ghost use Rattle.net_base.specs.Graph.{IsSubject};
ghost use Rattle.cut_word.specs.Word.{IsWords};
ghost use Rattle.balance_map.specs.FanOuts.{ref_nodes, output_nodes};
ghost use Rattle.balance_map.specs.Choices.{choices_of};
ghost use Rattle.balance_map.specs.Needed.{places_in, leaves_used, needed_nodes};
ghost use Rattle.balance_map.specs.Walks.{NotesNodes};

use crate::choice::{Choice, Choices};
use crate::leaves::chosen_cut;
use crate::parts::{leaf_place, part_tables};
use cell_lib::arity;
use net_base::{NoMemory, Ref, Subject};
use pattern_table::Patterns;
use std::alloc::Global;

// Marks a node.
fn mark(marks: &mut [bool], node: u32)
    ensures { NotesNodes marks.old marks.new (node ∷ []) }
{
    if (node as usize) < marks.len() {
        marks[node as usize] = true;
    }
}

// Marks the nodes that outputs read.
fn mark_outputs(marks: &mut [bool], outputs: &[Ref])
    ensures { NotesNodes marks.old marks.new (flat_map ref_nodes outputs.now) }
{
    for output in outputs {
        if let Ref::Node(node) = *output {
            mark(marks, node);
        }
    }
}

// Marks the leaves that stand in the least formula of a table, so deep.
fn mark_formula(marks: &mut [bool], p: &Patterns, leaves: &[u32], table: u8, depth: u32)
    requires size { (1 ≤ length leaves.now) × (length leaves.now ≤ 3) }
    requires depth { depth ≤ 4 }
    ensures { NotesNodes marks.old marks.new (map (λ place. slice_index_or leaves.now place 0) (places_in (length leaves.now) depth table)) }
{
    if depth == 0 {
        mark(marks, leaves[leaf_place(leaves.len(), table)]);
        return;
    }
    if let Some(head) = p.least(leaves.len() as u32, table, depth) {
        let parts = part_tables(head);
        for part in &parts[..arity(head.cell) as usize] {
            mark_formula(marks, p, leaves, *part, depth - 1);
        }
    }
}

// Marks the leaves that stand in the chosen formula of a node.
fn mark_choice(marks: &mut [bool], p: &Patterns, choice: &Choice)
    requires words { IsWords choice.now.leaves choice.now.table }
    requires depth { choice.now.depth ≤ 4 }
    ensures { NotesNodes marks.old marks.new (leaves_used choice.now) }
{
    let cut = chosen_cut(choice);
    let leaves = &cut.leaves[..cut.size as usize];
    mark_formula(marks, p, leaves, choice.table, choice.depth);
}

/// The needed nodes of a subject, ascending: those that an output reads, and the leaves in the formulas of needed nodes.
pub(crate) fn needed(
    alloc: Global,
    s: &Subject,
    c: &Choices,
    p: &Patterns,
) -> Result<Vec<u32>, NoMemory>
    requires subject { IsSubject s.now }
    requires choices { c.now ≡ choices_of s.now }
    ensures { IfOk result (λ nodes. nodes.items ≡ needed_nodes s.now) }
{
    let mut marks = vec![in alloc; false; s.graph.nodes.len()]?;
    mark_outputs(marks.as_mut_slice(), s.outputs.as_slice());
    let mut nodes = Vec::new(alloc);
    for node in (s.graph.inputs..s.graph.nodes.len() as u32).rev() {
        if marks[node as usize] {
            nodes.push(node)?;
            mark_choice(marks.as_mut_slice(), p, c.get(node as usize));
        }
    }
    nodes.reverse();
    Ok(nodes)
}
