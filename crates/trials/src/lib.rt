//! Trials: what neither a contract nor a run of the program shows of the crates below.
//!
//! A contract can't say that memory is left, and no run of the program makes each public call, has a stream that fails at
//! a chosen place, or lays out two hundred thousand elements. So these are tried here, on small tables worked by hand and
//! on one large netlist: in a module for each crate that its trials are of, each call that takes memory once, with the
//! values that it then gives. A trial judges in one assertion, since each is proved to be safe before it runs.
//!
//! Shown: `of_net_base`, lists, names and graphs, and how a name is printed; `of_io_edge`, streams of pieces of any size,
//! that fail in mid-stream, and of std; `of_blif_model`, names by number, and which designs are regular; `of_blif_lex`, the
//! logical lines of small texts; `of_subject_graph`, graphs as large as they may be, and one that is too large;
//! `of_cut_lists`, the cuts of a small graph, and `of_cut_core`, events over it; `of_balance_map`, the choices
//! of that graph, and a cover with one gate too many; `of_gate_net`, equal gates and gates
//! without a use; `of_flow_net`, the network of a netlist and the DRO count of epochs; `of_stage_flow`, rounds on a small
//! network and what comes of them; `of_flow_cert`, what is said of flows there; `of_dro_chains`, the limit of DROs;
//! `of_pulse_net`, netlists that break each rule, and what others unfold to; `of_splitters`, chains that can't be laid out,
//! and a netlist of more than 200,000 elements that is laid out, found valid and unfolded; `of_gen_blif`, generated texts
//! that are read and ordered. `gate_rows` and `pulse_rows` make what several of them take.
//! Promised: nothing. It has no function for others, and no crate stands on it.
//! Not shown: what a clause says both ways of a call that takes no memory, and what runs of the program show: which texts
//! are read, and what refuses each other one.
#![tactic(auto)]

#[cfg(test)]
mod gate_rows;
#[cfg(test)]
mod of_balance_map;
#[cfg(test)]
mod of_blif_lex;
#[cfg(test)]
mod of_blif_model;
#[cfg(test)]
mod of_cut_core;
#[cfg(test)]
mod of_cut_lists;
#[cfg(test)]
mod of_dro_chains;
#[cfg(test)]
mod of_flow_cert;
#[cfg(test)]
mod of_flow_net;
#[cfg(test)]
mod of_gate_net;
#[cfg(test)]
mod of_gen_blif;
#[cfg(test)]
mod of_io_edge;
#[cfg(test)]
mod of_net_base;
#[cfg(test)]
mod of_pulse_net;
#[cfg(test)]
mod of_splitters;
#[cfg(test)]
mod of_stage_flow;
#[cfg(test)]
mod of_subject_graph;
#[cfg(test)]
mod pulse_rows;
