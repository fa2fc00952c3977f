//! The laws of graphs that grow, and of subjects. A law takes nothing and does nothing: its clause is the law.

ghost use Rattle.subject_graph.specs.Laws.{GraphKeepsValues, SubjectHasValues};

/// In a graph that keeps all nodes of another each signal of the other keeps its value.
pub fn graph_keeps_values()
    ensures { GraphKeepsValues }
{}

/// In the subject of a regular design each output has the value of its signal, however many nodes there are.
pub fn subject_has_values()
    ensures { SubjectHasValues }
{}
